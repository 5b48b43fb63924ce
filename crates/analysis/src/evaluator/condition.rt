// The truth answers of boolean expressions in an abstract memory, and of the condition for leaving a do, over a prepared program.
ghost use Rattle.std.specs.Prelude.{◌≡◌, ℕ, List};
ghost use Rattle.program.specs.Graph.{done};
ghost use Rattle.program.specs.Parts.Prepared.{entries_in, action_in, own_in};
ghost use Rattle.program.specs.Tree.{arith_at, boolean_below, boolean_trees, command_below, command_trees};
ghost use Rattle.signs.specs.Truth as answer;
ghost use Rattle.analysis.specs.Signs as spec;

use super::Machine;
use program::prepared::{CONDITIONS, EXPRESSIONS};
use program::{ActionNode, BooleanNode, CommandNode, prepared};
use signs::{Comparison, Truths, truth};

// True alone.
#[tactic(auto, unfolding(signs::specs::Truth::certain, signs::specs::Truth::truths_of, signs::specs::Lists::any_of))]
fn certain() -> Truths
    ensures { result ≡ answer.certain }
{
    Truths {
        holds: true,
        fails: false,
    }
}

impl Machine<'_> {
    // A comparison of two arithmetic entries.
    #[tactic(auto, using(program::proofs::Laws::arith_whole))]
    fn comparison(self, rho: &[u8; 32], o: Comparison, p: u16, q: u16) -> Truths
        ensures { (graph : List ℕ) → result ≡ answer.compare_sets o
            (spec.signs_in rho.now (arith_at (entries_in self.entry.code.now graph) p))
            (spec.signs_in rho.now (arith_at (entries_in self.entry.code.now graph) q)) }
    {
        let a = self.operand(rho, EXPRESSIONS, p);
        let b = self.operand(rho, EXPRESSIONS, q);
        truth::compare_sets(o, a, b)
    }

    // The truth answers of boolean entry `n`, a part of entry `bound`.
    #[tactic(auto, unfolding(program::specs::Tree::boolean_made, crate::specs::Signs::truths_in), using(program::proofs::Laws::boolean_told))]
    pub(crate) fn truths(self, rho: &[u8; 32], bound: u16, n: u16) -> Truths
        ensures { (graph : List ℕ) → result ≡ spec.truths_in rho.now (boolean_below (boolean_trees (entries_in self.entry.code.now graph) bound) n) }
    {
        let node = prepared::boolean_node(self.code, bound, n);
        match node {
            BooleanNode::True => certain(),
            BooleanNode::Comparison(o, p, q) => self.comparison(rho, o, p, q),
            BooleanNode::Both(p, q) => {
                let a = self.truths(rho, n, p);
                let b = self.truths(rho, n, q);
                truth::conjoined(a, b)
            }
            BooleanNode::AndThen(p, q) => {
                let a = self.truths(rho, n, p);
                let b = self.truths(rho, n, q);
                truth::and_then(a, b)
            }
            BooleanNode::Not(p) => {
                let a = self.truths(rho, n, p);
                truth::negated(a)
            }
        }
    }

    // The truth answers of the condition for leaving a do whose operand is command entry `n`, a part of entry `bound`.
    #[tactic(auto, unfolding(program::specs::Tree::command_made, program::specs::Graph::done, crate::specs::Signs::truths_in), using(program::proofs::Laws::command_told, program::proofs::Laws::boolean_whole, semantics::proofs::Keys::left_at_once))]
    pub(crate) fn exit_truths(self, rho: &[u8; 32], bound: u16, n: u16) -> Truths
        ensures { result ≡ spec.truths_in rho.now
            (done (command_below (command_trees (entries_in self.entry.code.now self.entry.graph.now) bound) n)) }
    {
        let node = prepared::command_node(self.graph, bound, n);
        match node {
            CommandNode::Guarded(g, _) => {
                let a = self.truths(rho, CONDITIONS, g);
                truth::negated(a)
            }
            CommandNode::Choice(p, q) => {
                let a = self.exit_truths(rho, n, p);
                let b = self.exit_truths(rho, n, q);
                truth::conjoined(a, b)
            }
            _ => certain(),
        }
    }

    // The truth answers of an edge's own guard on the deterministic graph; of an edge that is no such guard's, true alone.
    #[tactic(auto, unfolding(program::specs::Parts::Prepared::own_in, crate::specs::Signs::truths_in), using(program::proofs::Laws::boolean_whole))]
    pub(crate) fn own_truths(self, rho: &[u8; 32], e: u16) -> Truths
        ensures { result ≡ spec.truths_in rho.now (own_in (entries_in self.entry.code.now self.entry.graph.now) (action_in self.entry.graph.now e)) }
    {
        let action = prepared::action(self.graph, e);
        match action {
            ActionNode::Guard(n) => self.truths(rho, CONDITIONS, n),
            _ => certain(),
        }
    }
}
