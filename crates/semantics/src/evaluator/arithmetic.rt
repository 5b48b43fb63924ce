// The values of arithmetic expressions in a memory, over a prepared program. References are followed without a test: its code is ordered.
ghost use Rattle.std.specs.Prelude.{◌≡◌, List, ℕ, ◌+◌, ◌*◌, ◌<◌, get_or};
ghost use Rattle.program.specs.Parts.Prepared.{expressions_most, arithmetic_count_place, arith_in, entries_in};
ghost use Rattle.program.specs.Tree.{arith_at};
ghost use Rattle.semantics.specs.Parts.Coding.{ValueIn};

use super::packed::Packed;
use super::{MEMORY, Machine, cell_value, operate};
use program::prepared::CODE;
use program::{ArithNode, decoding, prepared};

// What arithmetic entry `n` is.
fn node(code: &[u16; CODE], n: u16) -> ArithNode
    requires { n < expressions_most }
    ensures { result ≡ arith_in code.now n }
{
    let at = 4 * n as usize;
    decoding::arith_kind(code[at], code[at + 1], code[at + 2])
}

// Its cell; past all cells, where it is no leaf.
fn leaf_cell(code: &[u16; CODE], n: u16) -> u16
    requires { n < expressions_most }
    ensures { result ≡ get_or code.now (4 * n + 3) 0 }
{
    code[4 * n as usize + 3]
}

impl Machine<'_> {
    // The value of arithmetic entry `n`.
    #[cycle(operand_value)]
    fn value(self, memory: &[i32; MEMORY], n: u16) -> Packed
        requires { n < get_or self.code.now arithmetic_count_place 0 }
        ensures { (graph : List ℕ) → ValueIn self.entry.code.now memory.now (arith_at (entries_in self.entry.code.now graph) n) result }
    {
        let what = node(self.code, n);
        match what {
            ArithNode::Number(z) => Packed::value(z),
            ArithNode::Variable(x) => cell_value(memory, prepared::first_cell(self.code, x)),
            ArithNode::Element(x, i) => {
                let v = self.operand(memory, i);
                self.element(memory, x, v)
            }
            ArithNode::Operator(o, p, q) => {
                let a = self.operand(memory, p);
                if a.is_fault() {
                    return a;
                }
                let b = self.operand(memory, q);
                operate(o, a, b)
            }
        }
    }

    // The same of an entry that is often a leaf: its cell is read where it stands, without a call.
    #[cycle(operand_value)]
    fn operand(self, memory: &[i32; MEMORY], n: u16) -> Packed
        requires { n < get_or self.code.now arithmetic_count_place 0 }
        ensures { (graph : List ℕ) → ValueIn self.entry.code.now memory.now (arith_at (entries_in self.entry.code.now graph) n) result }
    {
        let c = leaf_cell(self.code, n) as usize;
        if c < MEMORY {
            return cell_value(memory, c);
        }
        self.value(memory, n)
    }

    // The value of any entry: past the last it is the number 0.
    pub(crate) fn any_value(self, memory: &[i32; MEMORY], n: u16) -> Packed
        ensures { (graph : List ℕ) → ValueIn self.entry.code.now memory.now (arith_at (entries_in self.entry.code.now graph) n) result }
    {
        if n < prepared::arithmetic_count(self.code) {
            return self.value(memory, n);
        }
        Packed::value(0)
    }

    // The same of one that is often a leaf.
    pub(crate) fn any_operand(self, memory: &[i32; MEMORY], n: u16) -> Packed
        ensures { (graph : List ℕ) → ValueIn self.entry.code.now memory.now (arith_at (entries_in self.entry.code.now graph) n) result }
    {
        if n < prepared::arithmetic_count(self.code) {
            return self.operand(memory, n);
        }
        Packed::value(0)
    }
}
