// What actions do to a memory, over a prepared program.
ghost use Rattle.std.specs.Prelude.{◌≡◌, true, List, ℕ, ◌+◌, ◌-◌, ◌<◌, pos, nat_abs};
ghost use Rattle.std.specs.Int.Signed.{le_z};
ghost use Rattle.program.specs.Meaning.{assigns, stores};
ghost use Rattle.program.specs.Parts.Prepared as made;
ghost use Rattle.program.specs.Tree.{arith_at};
ghost use Rattle.semantics.specs.Action as spec;
ghost use Rattle.semantics.specs.Parts.Coding as coding;
ghost use Rattle.semantics.specs.Expression as expression;

use super::packed::Packed;
use super::{MEMORY, Machine, indexed};
use crate::{Effect, Fault};
use program::prepared::{CELLS_MOST, COMMANDS, CONDITIONS};
use program::{ActionNode, prepared};
use signs::Reason;

fn undefined(reason: Reason) -> Effect
    ensures { result ≡ Effect.Undefined (expression.fault reason) }
{
    Effect::Undefined(Fault { reason })
}

// A fault, as an effect.
fn failure(v: Packed) -> Effect
    requires { le_z (pos 4294967296) v ≡ true }
    ensures { result ≡ Effect.Undefined (expression.fault (coding.reason_numbered (nat_abs v - 4294967296))) }
{
    undefined(v.reason())
}

// What a condition does, by its truth.
fn passed(v: Packed) -> Effect
    ensures { result ≡ spec.pass (coding.decided v) }
{
    if v.is_fault() {
        return failure(v);
    }
    if v.is_true() {
        Effect::Unchanged
    } else {
        undefined(Reason::ConditionFalse)
    }
}

// A value stored to a cell.
fn stored(c: usize, v: Packed) -> Effect
    ensures { result ≡ spec.store_to (expression.at c) (coding.evaluated v) }
{
    if v.is_fault() {
        return failure(v);
    }
    Effect::Stored {
        cell: c,
        value: v.unpacked(),
    }
}

// The cell i after c, where it is one of a memory's.
fn shifted(c: usize, i: usize) -> usize
    requires { i < 65536 }
    ensures { c + i < made.cells_most → result ≡ c + i }
{
    if CELLS_MOST <= c { 0 } else { c + i }
}

// Puts a value into a cell, past the end nowhere; whether it is one.
fn put(memory: &mut [i32], c: usize, v: Packed) -> bool
    ensures { coding.Follows memory.old (spec.store_to (expression.at c) (coding.evaluated v)) result memory.new }
{
    if v.is_fault() {
        return false;
    }
    if c < memory.len() {
        memory[c] = v.unpacked();
    }
    true
}

impl Machine<'_> {
    // The index of a store.
    fn store_index(self, memory: &[i32; MEMORY], x: u16, i: u16) -> Packed
        ensures { (graph : List ℕ) → coding.IndexIn self.entry.code.now memory.now x (arith_at (made.entries_in self.entry.code.now graph) i) result }
    {
        let v = self.any_operand(memory, i);
        indexed(prepared::size_of(self.code, x), v)
    }

    // x := a.
    fn assigned(self, memory: &[i32; MEMORY], x: u16, a: u16) -> Effect
        ensures { (graph : List ℕ) → coding.EffectIn self.entry.code.now memory.now
            (assigns x (arith_at (made.entries_in self.entry.code.now graph) a)) result }
    {
        let v = self.any_value(memory, a);
        stored(prepared::first_cell(self.code, x), v)
    }

    // A[i] := a.
    fn element_stored(self, memory: &[i32; MEMORY], x: u16, i: u16, a: u16) -> Effect
        ensures { (graph : List ℕ) → coding.EffectIn self.entry.code.now memory.now
            (stores x (arith_at (made.entries_in self.entry.code.now graph) i) (arith_at (made.entries_in self.entry.code.now graph) a)) result }
    {
        let index = self.store_index(memory, x, i);
        let v = self.any_operand(memory, a);
        if index.is_fault() {
            return failure(index);
        }
        stored(
            shifted(prepared::first_cell(self.code, x), index.index()),
            v,
        )
    }

    // What an action does to a memory, a guard's without those before it.
    fn effect(self, memory: &[i32; MEMORY], action: ActionNode) -> Effect
        ensures { coding.EffectIn self.entry.code.now memory.now
            (made.decoded_meaning (made.entries_in self.entry.code.now self.entry.graph.now) action) result }
    {
        match action {
            ActionNode::Nothing => Effect::Unchanged,
            ActionNode::Assign(x, a) => self.assigned(memory, x, a),
            ActionNode::Store(x, i, a) => self.element_stored(memory, x, i, a),
            ActionNode::Holds(n) => passed(self.truth(memory, CONDITIONS, n)),
            ActionNode::Exit(n) => passed(self.exit(memory, COMMANDS, n)),
            ActionNode::Guard(n) => passed(self.truth(memory, CONDITIONS, n)),
        }
    }

    // What an edge does to a memory: a guard of the deterministic graph comes after those of the lower edges out of its node.
    pub(crate) fn edge_effect(self, memory: &[i32; MEMORY], e: u16) -> Effect
        ensures { coding.EffectIn self.entry.code.now memory.now
            (made.edge_meaning (made.entries_in self.entry.code.now self.entry.graph.now) self.entry.graph.now e) result }
    {
        if prepared::guards(self.graph, e) {
            let v = self.selected(memory, e);
            return passed(v);
        }
        let action = prepared::plain_action(self.graph, e);
        self.effect(memory, action)
    }

    // Performs x := a, where it is defined; whether it is.
    fn assign(self, memory: &mut [i32; MEMORY], x: u16, a: u16) -> bool
        ensures { (graph : List ℕ) → coding.Performs self.entry.code.now memory.old
            (assigns x (arith_at (made.entries_in self.entry.code.now graph) a)) result memory.new }
    {
        let v = self.any_value(memory, a);
        put(memory, prepared::first_cell(self.code, x), v)
    }

    // Performs A[i] := a, where it is defined; whether it is.
    fn store_element(self, memory: &mut [i32; MEMORY], x: u16, i: u16, a: u16) -> bool
        ensures { (graph : List ℕ) → coding.Performs self.entry.code.now memory.old
            (stores x (arith_at (made.entries_in self.entry.code.now graph) i) (arith_at (made.entries_in self.entry.code.now graph) a)) result memory.new }
    {
        let k = self.store_index(memory, x, i);
        if k.is_fault() {
            return false;
        }
        let v = self.any_operand(memory, a);
        put(
            memory,
            shifted(prepared::first_cell(self.code, x), k.index()),
            v,
        )
    }

    // Performs an action, a guard's without those before it, where it is defined; whether it is.
    pub(crate) fn perform(self, memory: &mut [i32; MEMORY], action: ActionNode) -> bool
        ensures { coding.Performs self.entry.code.now memory.old
            (made.decoded_meaning (made.entries_in self.entry.code.now self.entry.graph.now) action) result memory.new }
    {
        match action {
            ActionNode::Nothing => true,
            ActionNode::Assign(x, a) => self.assign(memory, x, a),
            ActionNode::Store(x, i, a) => self.store_element(memory, x, i, a),
            ActionNode::Holds(n) => self.holds(memory, n).is_true(),
            ActionNode::Exit(n) => self.exit(memory, COMMANDS, n).is_true(),
            ActionNode::Guard(n) => self.holds(memory, n).is_true(),
        }
    }
}
