// The sign analysis over a prepared program, in an abstract memory that is lent as an array: zeros after the last name's set.
mod arithmetic;
mod condition;
mod index;
pub(crate) mod results;

ghost use Rattle.std.specs.Prelude.{◌≡◌, if◌then◌else◌, slice_index};
ghost use Rattle.program.specs.Parts.Prepared.{Linked};
ghost use Rattle.analysis.specs.Signs as spec;
ghost use Rattle.analysis.specs.Parts.Tabled.{Tabled, tabled_prop};

use program::prepared::{CODE, GRAPH};
use signs::{Sign, sets};

// A prepared program with the set table of `signs` behind its code and its graph linked: each node's lowest edge stands in it, and after each edge the next one out of the
// same node. It is handed on by value, as two references.
#[derive(Clone, Copy)]
pub(crate) struct Machine<'a> {
    pub(crate) code: &'a [u16; CODE],
    pub(crate) graph: &'a [u16; GRAPH],
    pub(crate) ghost tabled: { Tabled code.now } by { tabled_prop code.now },
    pub(crate) ghost linked: { Linked graph.now },
}

// The set of a name.
fn set_of(rho: &[u8], x: u16) -> u8
    ensures { result ≡ slice_index rho.now x }
{
    rho.get(x as usize).copied().unwrap_or(0)
}

// Whether an index of these signs can be in an array.
#[tactic(auto, unfolding(crate::specs::Signs::may_index))]
fn may_index(set: u8) -> bool
    ensures { result ≡ spec.may_index set }
{
    // with `||` there are two tests where this is one, and work on large expressions is a twentieth slower
    sets::has(set, Sign::Zero) | sets::has(set, Sign::Plus)
}

// The set of an array's element, by the index's set.
fn element(rho: &[u8; 32], x: u16, index: u8) -> u8
    ensures { result ≡ (if spec.may_index index then slice_index rho.now x else 0) }
{
    if may_index(index) { set_of(rho, x) } else { 0 }
}
