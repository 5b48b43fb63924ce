// The results of actions from an abstract memory, over a prepared program. They are one number: 64 times the new sets of one name, as digits of base 8, the first lowest, and
// the name; name 32 changes nothing. No set of a result is 0, and there are at most twelve.
// Without a heap a list of twelve sets would be an array with a length beside it, no plainer than digits that end by themselves.
ghost use Rattle.std.specs.Prelude.{◌≡◌, ℕ, ◌+◌, ◌*◌, ◌/◌, ◌%◌, ◌<◌, List, [], ◌∷◌, if◌then◌else◌};
ghost use Rattle.program.specs.Parts.Prepared.{entries_in, decoded_meaning};
ghost use Rattle.program.specs.Tree.{arith_at};
ghost use Rattle.program.specs.Meaning as action;
ghost use Rattle.signs.specs.Sign as sign;
ghost use Rattle.analysis.specs.Parts.Changing.{packed, name_for, Before, ResultsIn};
ghost use Rattle.analysis.specs.Results as spec;

use super::{Machine, may_index, set_of};
use program::ActionNode;
use program::prepared::{COMMANDS, CONDITIONS, EXPRESSIONS, NAMES_MOST};
use signs::{Sign, sets};

// A set before others, where it is to be there.
#[tactic(auto, unfolding(crate::specs::Parts::Changing::packed))]
fn before(set: u8, there: bool, others: u64) -> u64
    requires { others < 72057594037927936 }
    ensures { Before (if there then set ∷ [] else []) 8 255 others result }
{
    if there {
        others * 8 + set as u64
    } else {
        others
    }
}

// The set of sign `s` before others, where the value's set has it.
fn single(values: u8, s: Sign, others: u64) -> u64
    requires { others < 72057594037927936 }
    ensures { Before (if sign.has values s then sign.single s ∷ [] else []) 8 255 others result }
{
    let set = sets::single(s);
    let there = sets::has(values, s);
    before(set, there, others)
}

// The old set without `t` and with `s` before others, where it has `t`.
fn replaced(old: u8, s: Sign, t: Sign, others: u64) -> u64
    requires { others < 72057594037927936 }
    ensures { Before (if sign.has old t then sign.added s (sign.removed t old) ∷ [] else []) 8 255 others result }
{
    let set = sets::added(sets::removed(old, t), s);
    let there = sets::has(old, t);
    before(set, there, others)
}

// The sets after a store of sign `s` before others.
fn stored(old: u8, s: Sign, others: u64) -> u64
    requires { others < 4294967296 }
    ensures { Before (spec.sets_with old s) 4096 149175 others result }
{
    let plus = replaced(old, s, Sign::Plus, others);
    let zero = replaced(old, s, Sign::Zero, plus);
    let minus = replaced(old, s, Sign::Minus, zero);
    before(sets::added(old, s), true, minus)
}

// The same, where the value's set has `s`.
fn stored_sign(old: u8, values: u8, s: Sign, others: u64) -> u64
    requires { others < 4294967296 }
    ensures { Before (if sign.has values s then spec.sets_with old s else []) 4096 149175 others result }
{
    if sets::has(values, s) {
        return stored(old, s, others);
    }
    others
}

// The sets of a name; a name past the last of 32 changes nothing.
#[tactic(auto, unfolding(crate::specs::Parts::Changing::name_for))]
fn of_name(x: u16, sets: u64) -> u64
    requires { sets < 72057594037927936 }
    ensures { result ≡ 64 * sets + name_for x }
{
    64 * sets + x.min(NAMES_MOST) as u64
}

// Variable `x` with each sign of its value.
fn assigned_sets(x: u16, values: u8) -> u64
    ensures { result ≡ 64 * packed (spec.assigned_sets values) 0 + name_for x }
{
    let plus = single(values, Sign::Plus, 0);
    let zero = single(values, Sign::Zero, plus);
    let minus = single(values, Sign::Minus, zero);
    of_name(x, minus)
}

// Array `x` after a store of a value of these signs.
fn stored_sets(x: u16, old: u8, values: u8) -> u64
    ensures { result ≡ 64 * packed (spec.stored_sets old values) 0 + name_for x }
{
    let plus = stored_sign(old, values, Sign::Plus, 0);
    let zero = stored_sign(old, values, Sign::Zero, plus);
    let minus = stored_sign(old, values, Sign::Minus, zero);
    of_name(x, minus)
}

// The abstract memory as it is, where that is a result: name 32 with one set.
pub(crate) fn unchanged(holds: bool) -> u64
    ensures { result ≡ (if holds then 96 else 32) }
{
    if holds { 96 } else { 32 }
}

impl Machine<'_> {
    // A[i] := a.
    fn element_stored(self, rho: &[u8; 32], x: u16, i: u16, a: u16) -> u64
        ensures { (graph : List ℕ) → ResultsIn rho.now
            (action.stores x (arith_at (entries_in self.entry.code.now graph) i) (arith_at (entries_in self.entry.code.now graph) a)) result }
    {
        let index = self.signs(rho, EXPRESSIONS, i);
        if may_index(index) {
            let values = self.signs(rho, EXPRESSIONS, a);
            return stored_sets(x, set_of(rho, x), values);
        }
        unchanged(false)
    }

    // The results of an action.
    #[tactic(auto, unfolding(program::specs::Parts::Prepared::decoded_meaning), using(program::proofs::Laws::boolean_whole, program::proofs::Laws::command_whole, crate::proofs::Alike::condition_results))]
    pub(crate) fn results(self, rho: &[u8; 32], action: ActionNode) -> u64
        ensures { ResultsIn rho.now (decoded_meaning (entries_in self.entry.code.now self.entry.graph.now) action) result }
    {
        match action {
            ActionNode::Nothing => unchanged(true),
            ActionNode::Assign(x, a) => {
                let values = self.signs(rho, EXPRESSIONS, a);
                assigned_sets(x, values)
            }
            ActionNode::Store(x, i, a) => self.element_stored(rho, x, i, a),
            ActionNode::Holds(n) | ActionNode::Guard(n) => {
                let t = self.truths(rho, CONDITIONS, n);
                unchanged(t.holds)
            }
            ActionNode::Exit(n) => {
                let t = self.exit_truths(rho, COMMANDS, n);
                unchanged(t.holds)
            }
        }
    }
}

// The name of results.
pub(crate) fn name_of(results: u64) -> u16
    ensures { result ≡ results % 64 }
{
    (results % 64) as u16
}

// Their sets, as digits.
pub(crate) fn sets_of(results: u64) -> u64
    ensures { result ≡ results / 64 }
{
    results / 64
}

// The first of these sets.
pub(crate) fn first_set(sets: u64) -> u8
    ensures { result ≡ sets % 8 }
{
    (sets % 8) as u8
}

// The others.
pub(crate) fn other_sets(sets: u64) -> u64
    ensures { result ≡ sets / 8 }
{
    sets / 8
}
