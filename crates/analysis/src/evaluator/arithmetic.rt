// The sign sets of arithmetic expressions in an abstract memory, over a prepared program.
ghost use Rattle.std.specs.Prelude.{◌≡◌, ℕ, List};
ghost use Rattle.program.specs.Parts.Prepared.{entries_in};
ghost use Rattle.program.specs.Tree.{arith_below, arith_trees};
ghost use Rattle.signs.specs.Sign as sign;
ghost use Rattle.analysis.specs.Signs as spec;

use super::{Machine, element, set_of};
use program::{ArithNode, prepared};
use signs::sets;

// The set of a number's sign.
fn number_signs(z: i32) -> u8
    ensures { result ≡ sign.single (sign.sign_of z) }
{
    sets::single(sets::sign_of(z))
}

impl Machine<'_> {
    // The sign set of arithmetic entry `n`, a part of entry `bound`.
    #[cycle(operand_signs)]
    #[tactic(auto, unfolding(program::specs::Tree::arith_made, crate::specs::Signs::signs_in), using(program::proofs::Laws::arith_told))]
    pub(crate) fn signs(self, rho: &[u8; 32], bound: u16, n: u16) -> u8
        ensures { (graph : List ℕ) → result ≡ spec.signs_in rho.now (arith_below (arith_trees (entries_in self.entry.code.now graph) bound) n) }
    {
        let node = prepared::arith_node(self.code, bound, n);
        match node {
            ArithNode::Number(z) => number_signs(z),
            ArithNode::Variable(x) => set_of(rho, x),
            ArithNode::Element(x, i) => {
                let index = self.operand(rho, n, i);
                element(rho, x, index)
            }
            ArithNode::Operator(o, p, q) => {
                let a = self.operand(rho, n, p);
                let b = self.operand(rho, n, q);
                self.operate(o, a, b)
            }
        }
    }

    // The same of an entry that is often a leaf: a number or a variable is read where it stands, without a call, and an element decoded once: for speed, and so no twin to be rid of.
    #[cycle(operand_signs)]
    #[tactic(auto, unfolding(program::specs::Tree::arith_made, crate::specs::Signs::signs_in), using(program::proofs::Laws::arith_told))]
    pub(crate) fn operand(self, rho: &[u8; 32], bound: u16, n: u16) -> u8
        ensures { (graph : List ℕ) → result ≡ spec.signs_in rho.now (arith_below (arith_trees (entries_in self.entry.code.now graph) bound) n) }
    {
        let node = prepared::arith_node(self.code, bound, n);
        match node {
            ArithNode::Number(z) => number_signs(z),
            ArithNode::Variable(x) => set_of(rho, x),
            ArithNode::Element(x, i) => {
                let index = self.signs(rho, n, i);
                element(rho, x, index)
            }
            ArithNode::Operator(..) => self.signs(rho, bound, n),
        }
    }
}
