// The truth of boolean expressions in a memory, and the condition for leaving a do, over a prepared program.
ghost use Rattle.std.specs.Prelude.{List, ℕ};
ghost use Rattle.program.specs.Graph.{done};
ghost use Rattle.program.specs.Parts.Prepared.{entries_in};
ghost use Rattle.program.specs.Syntax as syntax;
ghost use Rattle.program.specs.Tree.{arith_at, boolean_below, boolean_trees, command_below, command_trees};
ghost use Rattle.semantics.specs.Parts.Coding.{TruthIn};

use super::packed::Packed;
use super::{MEMORY, Machine, both, compare, negated};
use program::prepared::CONDITIONS;
use program::{BooleanNode, CommandNode, prepared};
use signs::Comparison;

impl Machine<'_> {
    // A comparison of two arithmetic entries.
    fn comparison(self, memory: &[i32; MEMORY], o: Comparison, p: u16, q: u16) -> Packed
        ensures { (graph : List ℕ) (k : ℕ) → TruthIn self.entry.code.now memory.now
            (syntax.comparison k o (arith_at (entries_in self.entry.code.now graph) p) (arith_at (entries_in self.entry.code.now graph) q)) result }
    {
        let a = self.any_operand(memory, p);
        let b = self.any_operand(memory, q);
        compare(o, a, b)
    }

    // The truth of boolean entry `n`, a part of entry `bound`.
    pub(crate) fn truth(self, memory: &[i32; MEMORY], bound: u16, n: u16) -> Packed
        ensures { (graph : List ℕ) → TruthIn self.entry.code.now memory.now
            (boolean_below (boolean_trees (entries_in self.entry.code.now graph) bound) n) result }
    {
        let node = prepared::boolean_node(self.code, bound, n);
        match node {
            BooleanNode::True => Packed::truth(true),
            BooleanNode::Comparison(o, p, q) => self.comparison(memory, o, p, q),
            BooleanNode::Both(p, q) => {
                let a = self.truth(memory, n, p);
                let b = self.truth(memory, n, q);
                both(a, b)
            }
            BooleanNode::AndThen(p, q) => {
                let a = self.truth(memory, n, p);
                if a.is_true() {
                    self.truth(memory, n, q)
                } else {
                    a
                }
            }
            BooleanNode::Not(p) => {
                let a = self.truth(memory, n, p);
                negated(a)
            }
        }
    }

    // The same of a whole entry that is often a comparison, which is worked out where it stands.
    pub(crate) fn holds(self, memory: &[i32; MEMORY], n: u16) -> Packed
        ensures { (graph : List ℕ) → TruthIn self.entry.code.now memory.now
            (boolean_below (boolean_trees (entries_in self.entry.code.now graph) 256) n) result }
    {
        let node = prepared::boolean_node(self.code, CONDITIONS, n);
        match node {
            BooleanNode::Comparison(o, p, q) => self.comparison(memory, o, p, q),
            _ => self.truth(memory, CONDITIONS, n),
        }
    }

    // The condition for leaving a do whose operand is command entry `n`, a part of entry `bound`.
    pub(crate) fn exit(self, memory: &[i32; MEMORY], bound: u16, n: u16) -> Packed
        ensures { TruthIn self.entry.code.now memory.now
            (done (command_below (command_trees (entries_in self.entry.code.now self.entry.graph.now) bound) n)) result }
    {
        let node = prepared::command_node(self.graph, bound, n);
        match node {
            CommandNode::Guarded(g, _) => {
                let a = self.holds(memory, g);
                negated(a)
            }
            CommandNode::Choice(p, q) => {
                let a = self.exit(memory, n, p);
                let b = self.exit(memory, n, q);
                both(a, b)
            }
            _ => Packed::truth(true),
        }
    }
}
