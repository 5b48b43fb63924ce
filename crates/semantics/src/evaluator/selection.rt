// The guards of the deterministic graph: one by itself, and after those of the lower edges out of its node, over a prepared program.
ghost use Rattle.program.specs.Graph as graphs;
ghost use Rattle.program.specs.Parts.Prepared as made;
ghost use Rattle.semantics.specs.Parts.Coding as coding;
ghost use Rattle.semantics.specs.Parts.Selecting as parts;

use super::packed::Packed;
use super::{MEMORY, Machine, both, negated};
use program::{ActionNode, prepared};

impl Machine<'_> {
    // The truth of an edge's own guard; of an edge that is no guard's, true.
    #[tactic(auto, unfolding(program::specs::Parts::Prepared::own_in), using(program::proofs::Laws::boolean_whole, crate::proofs::Valued::true_holds))]
    pub(crate) fn own(self, memory: &[i32; MEMORY], e: u16) -> Packed
        ensures { coding.TruthIn self.entry.code.now memory.now
            (made.own_in (made.entries_in self.entry.code.now self.entry.graph.now) (made.action_in self.entry.graph.now e)) result }
    {
        let action = prepared::action(self.graph, e);
        match action {
            ActionNode::Guard(n) => self.holds(memory, n),
            _ => Packed::truth(true),
        }
    }

    // A truth so far, and that the guard of edge `k` fails, where the edge leaves a node.
    fn and_fails(self, memory: &[i32; MEMORY], node: u16, k: u16, v: Packed) -> Packed
        ensures { parts.FailsAfter self.entry.code.now memory.now (parts.guard_at (made.entries_in self.entry.code.now self.entry.graph.now) self.entry.graph.now node k) v result }
    {
        if prepared::edge_source(self.graph, k) == node {
            let a = self.own(memory, k);
            return both(v, negated(a));
        }
        v
    }

    // The truth of an edge's guard after those of the lower edges out of its node, all worked out, its own last.
    pub(crate) fn selected(self, memory: &[i32; MEMORY], e: u16) -> Packed
        ensures { coding.TruthIn self.entry.code.now memory.now
            (graphs.selected (made.guards_in (made.entries_in self.entry.code.now self.entry.graph.now) self.entry.graph.now (made.source_in self.entry.graph.now e) e)
            (made.own_in (made.entries_in self.entry.code.now self.entry.graph.now) (made.action_in self.entry.graph.now e))) result }
    {
        let node = prepared::edge_source(self.graph, e);
        let mut v = Packed::truth(true);
        for k in 0..e {
            v = self.and_fails(memory, node, k, v);
        }
        let last = self.own(memory, e);
        both(v, last)
    }
}
