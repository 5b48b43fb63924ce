// Whether an index expression of an action may be negative in an abstract memory, over a prepared program.
ghost use Rattle.std.specs.Prelude.{◌≡◌, ℕ, ◌||◌, List};
ghost use Rattle.program.specs.Graph.{done};
ghost use Rattle.program.specs.Parts.Prepared.{entries_in, decoded_meaning};
ghost use Rattle.program.specs.Tree.{arith_below, arith_trees, arith_at, boolean_below, boolean_trees, command_below, command_trees};
ghost use Rattle.signs.specs.Sign.{has};
ghost use Rattle.analysis.specs.Index as spec;
ghost use Rattle.analysis.specs.Signs.{signs_in};

use super::Machine;
use program::prepared::{COMMANDS, CONDITIONS, EXPRESSIONS};
use program::{ActionNode, ArithNode, BooleanNode, CommandNode, prepared};
use signs::{Sign, sets};

impl Machine<'_> {
    // Whether the index at arithmetic entry `n`, a part of entry `bound`, may be negative.
    fn index_negative(self, rho: &[u8; 32], bound: u16, n: u16) -> bool
        ensures { (graph : List ℕ) →
            result ≡ has (signs_in rho.now (arith_below (arith_trees (entries_in self.entry.code.now graph) bound) n)) Sign.Minus }
    {
        let set = self.signs(rho, bound, n);
        sets::has(set, Sign::Minus)
    }

    // Whether one in arithmetic entry `n`, a part of entry `bound`, may be.
    #[tactic(auto, unfolding(program::specs::Tree::arith_made, crate::specs::Index::arith_indexes, crate::specs::Index::any_negative, signs::specs::Lists::any_of), using(crate::proofs::Negative::in_parts))]
    fn arith_negative(self, rho: &[u8; 32], bound: u16, n: u16) -> bool
        ensures { (graph : List ℕ) →
            result ≡ spec.any_negative (spec.arith_indexes rho.now (arith_below (arith_trees (entries_in self.entry.code.now graph) bound) n)) }
    {
        let node = prepared::arith_node(self.code, bound, n);
        match node {
            ArithNode::Number(_) | ArithNode::Variable(_) => false,
            ArithNode::Element(_, i) => {
                self.index_negative(rho, n, i) || self.arith_negative(rho, n, i)
            }
            ArithNode::Operator(_, p, q) => {
                self.arith_negative(rho, n, p) || self.arith_negative(rho, n, q)
            }
        }
    }

    // Whether one in either of two arithmetic entries may be.
    #[tactic(auto, using(crate::proofs::Negative::in_parts))]
    fn either_negative(self, rho: &[u8; 32], p: u16, q: u16) -> bool
        ensures { (graph : List ℕ) →
            result ≡ (spec.any_negative (spec.arith_indexes rho.now (arith_at (entries_in self.entry.code.now graph) p))
            || spec.any_negative (spec.arith_indexes rho.now (arith_at (entries_in self.entry.code.now graph) q))) }
    {
        self.arith_negative(rho, EXPRESSIONS, p) || self.arith_negative(rho, EXPRESSIONS, q)
    }

    // Whether one in boolean entry `n`, a part of entry `bound`, may be.
    #[tactic(auto, unfolding(program::specs::Tree::boolean_made, crate::specs::Index::boolean_indexes, crate::specs::Index::any_negative, signs::specs::Lists::any_of), using(crate::proofs::Negative::in_parts))]
    fn boolean_negative(self, rho: &[u8; 32], bound: u16, n: u16) -> bool
        ensures { (graph : List ℕ) →
            result ≡ spec.any_negative (spec.boolean_indexes rho.now (boolean_below (boolean_trees (entries_in self.entry.code.now graph) bound) n)) }
    {
        let node = prepared::boolean_node(self.code, bound, n);
        match node {
            BooleanNode::True => false,
            BooleanNode::Comparison(_, p, q) => self.either_negative(rho, p, q),
            BooleanNode::Both(p, q) | BooleanNode::AndThen(p, q) => {
                self.boolean_negative(rho, n, p) || self.boolean_negative(rho, n, q)
            }
            BooleanNode::Not(p) => self.boolean_negative(rho, n, p),
        }
    }

    // Whether one in the condition for leaving a do may be, whose operand is command entry `n`, a part of entry `bound`.
    #[tactic(auto, unfolding(program::specs::Tree::command_made, program::specs::Graph::done, crate::specs::Index::boolean_indexes, crate::specs::Index::any_negative, signs::specs::Lists::any_of), using(crate::proofs::Negative::in_parts))]
    fn exit_negative(self, rho: &[u8; 32], bound: u16, n: u16) -> bool
        ensures { result ≡ spec.any_negative (spec.boolean_indexes rho.now
            (done (command_below (command_trees (entries_in self.entry.code.now self.entry.graph.now) bound) n))) }
    {
        let node = prepared::command_node(self.graph, bound, n);
        match node {
            CommandNode::Guarded(g, _) => self.boolean_negative(rho, CONDITIONS, g),
            CommandNode::Choice(p, q) => {
                self.exit_negative(rho, n, p) || self.exit_negative(rho, n, q)
            }
            _ => false,
        }
    }

    // Whether the index of a store may be, or one in its index or value.
    #[tactic(auto, using(crate::proofs::Negative::in_parts))]
    fn store_negative(self, rho: &[u8; 32], i: u16, a: u16) -> bool
        ensures { (graph : List ℕ) →
            result ≡ (has (signs_in rho.now (arith_at (entries_in self.entry.code.now graph) i)) Sign.Minus
            || (spec.any_negative (spec.arith_indexes rho.now (arith_at (entries_in self.entry.code.now graph) i))
            || spec.any_negative (spec.arith_indexes rho.now (arith_at (entries_in self.entry.code.now graph) a)))) }
    {
        self.index_negative(rho, EXPRESSIONS, i) || self.either_negative(rho, i, a)
    }

    // Whether an index expression in an action may be negative.
    #[tactic(auto, unfolding(program::specs::Parts::Prepared::decoded_meaning, crate::specs::Index::may_be_negative, crate::specs::Index::index_sets, crate::specs::Index::any_negative, signs::specs::Lists::any_of), using(crate::proofs::Negative::in_parts))]
    pub(crate) fn may_be_negative(self, rho: &[u8; 32], action: ActionNode) -> bool
        ensures { result ≡ spec.may_be_negative rho.now (decoded_meaning (entries_in self.entry.code.now self.entry.graph.now) action) }
    {
        match action {
            ActionNode::Nothing => false,
            ActionNode::Assign(_, a) => self.arith_negative(rho, EXPRESSIONS, a),
            ActionNode::Store(_, i, a) => self.store_negative(rho, i, a),
            ActionNode::Holds(n) | ActionNode::Guard(n) => {
                self.boolean_negative(rho, CONDITIONS, n)
            }
            ActionNode::Exit(n) => self.exit_negative(rho, COMMANDS, n),
        }
    }
}
