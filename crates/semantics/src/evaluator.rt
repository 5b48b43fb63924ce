// The evaluators: what expressions and conditions give, over a prepared program.
mod action;
mod arithmetic;
mod condition;
pub(crate) mod packed;
mod selection;

ghost use Rattle.std.specs.Prelude.{◌≡◌, List, ℕ, ◌+◌, ◌<◌, length};
ghost use Rattle.program.specs.Parts.Prepared.{Coded, Ordered};
ghost use Rattle.semantics.specs.Parts.Coding as coding;
ghost use Rattle.semantics.specs.Parts.Machines.{ordered_prop};
ghost use Rattle.semantics.specs.Expression as spec;

use packed::Packed;
use program::prepared;
use program::prepared::{CODE, GRAPH};
use signs::{Comparison, Operator, Reason, number};

// The cells of a memory, and the program's numbers behind them.
pub(crate) const MEMORY: usize = 1024;

// A prepared program whose code is ordered: each arithmetic entry refers to lower ones. It is handed on by value: by reference each evaluator reads it from memory again, and
// runs are a tenth slower.
#[derive(Clone, Copy)]
pub(crate) struct Machine<'a> {
    pub(crate) code: &'a [u16; CODE],
    pub(crate) graph: &'a [u16; GRAPH],
    pub(crate) ghost ordered: { Ordered code.now } by { ordered_prop code.now },
}

// The fault of two results, the left before the right; where neither is one, the right result.
fn earlier(a: Packed, b: Packed) -> Packed
    ensures { result ≡ coding.earlier a b }
{
    if a.is_fault() { a } else { b }
}

// An operator on two results.
fn operate(o: Operator, a: Packed, b: Packed) -> Packed
    ensures { coding.evaluated result ≡ spec.combine o (coding.evaluated a) (coding.evaluated b) }
{
    let first = earlier(a, b);
    if first.is_fault() {
        return first;
    }
    Packed::of(number::apply(o, a.unpacked(), b.unpacked()))
}

// A comparison of two results.
fn compare(c: Comparison, a: Packed, b: Packed) -> Packed
    ensures { coding.decided result ≡ spec.compare_values c (coding.evaluated a) (coding.evaluated b) }
{
    let first = earlier(a, b);
    if first.is_fault() {
        return first;
    }
    Packed::truth(number::compares(c, a.unpacked(), b.unpacked()))
}

// b ∧ b of two truth values.
fn both(a: Packed, b: Packed) -> Packed
    ensures { coding.decided result ≡ spec.conjoin (coding.decided a) (coding.decided b) }
{
    let fault = earlier(a, b);
    if fault.is_fault() {
        return fault;
    }
    if a.is_true() { b } else { Packed::truth(false) }
}

// ¬ of a truth value.
fn negated(a: Packed) -> Packed
    ensures { coding.decided result ≡ spec.negate (coding.decided a) }
{
    if a.is_fault() {
        return a;
    }
    Packed::truth(!a.is_true())
}

// The value of a cell, past the end 0.
fn cell_value(memory: &[i32], c: usize) -> Packed
    ensures { coding.evaluated result ≡ Ok (spec.cell_value memory.now c) }
{
    if c < memory.len() {
        Packed::value(memory[c])
    } else {
        Packed::value(0)
    }
}

// The value of the cell i after c.
fn cell_after(memory: &[i32], c: usize, i: usize) -> Packed
    requires { i < 65536 }
    ensures { coding.evaluated result ≡ Ok (spec.cell_value memory.now (c + i)) }
{
    if memory.len() <= c {
        return Packed::value(0);
    }
    cell_value(memory, c + i)
}

// An index of an array of a size: itself, or 34 below zero and 35 at or past the size.
fn indexed(size: u16, v: Packed) -> Packed
    ensures { coding.Indexed size v result }
{
    if v.is_fault() {
        return v;
    }
    if v.unpacked() < 0 {
        return Packed::fault(Reason::IndexNegative);
    }
    if size as usize <= v.index() {
        return Packed::fault(Reason::IndexTooLarge);
    }
    v
}

impl Machine<'_> {
    // The value of an array's element, by its index.
    fn element(self, memory: &[i32; MEMORY], x: u16, v: Packed) -> Packed
        ensures { (ns : List ℕ) → Coded ns self.entry.code.now → x < length ns
            → coding.evaluated result ≡ spec.value_at memory.now (spec.place_of ns x (coding.evaluated v)) }
    {
        let i = indexed(prepared::size_of(self.code, x), v);
        if i.is_fault() {
            return i;
        }
        cell_after(memory, prepared::first_cell(self.code, x), i.index())
    }
}
