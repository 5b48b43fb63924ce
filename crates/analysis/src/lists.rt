// Lists of records: questions 16 and 17, and the reading and writing of a record.

ghost use Rattle.std.specs.Prelude.{◌≡◌, ℕ, ◌+◌, ◌<◌, ◌≤◌, true, List, length, take, slice_index};
ghost use Rattle.program.specs.Parts.DrawingParts;
ghost use Rattle.program.specs.Graph;
ghost use Rattle.program.specs.Parts.Prepared;
ghost use Rattle.analysis.specs.Abstraction;
ghost use Rattle.analysis.specs.Parts.Membership.{changed};
ghost use Rattle.analysis.specs.Parts.RecordParts as parts;
ghost use Rattle.analysis.specs.Records as spec;

use crate::membership::Memory;
use crate::{Change, RecordList, Unreadable, WrongByte};
use program::prepared::{CODE, NAMES_MOST};
use program::{Refusal, file, prepared, validation};

// The most records of a list.
pub(crate) const MOST: usize = 4096;

// Question 16 of a list: whether it is whole records of a width, at most 4,096.
pub(crate) fn whole(bytes: &[u8], width: usize) -> bool
    requires { 0 < width }
    ensures { result ≡ spec.whole_records width bytes.now }
{
    bytes.len() % width == 0 && bytes.len() / width <= MOST
}

// Whether a byte is right for a name of a size. No branch, so that many are tested at once.
fn byte_formed(size: u16, b: u8) -> bool
    ensures { result ≡ Abstraction.well_formed size b }
{
    let one = (b == 1) | (b == 2) | (b == 4);
    let some = (1 <= b) & (b <= 7);
    one | ((size != 0) & some)
}

// Whether question 17 of the memory at a place is answered yes: most are, and then the first wrong byte need not be looked for.
fn all_formed(code: &[u16; CODE], names: usize, bytes: &[u8], at: usize) -> bool
    requires { (names ≤ 32) × (at + names ≤ length bytes.now) }
    ensures { (ns : List ℕ) → parts.SizesIn ns code.now names → result ≡ true → spec.memory_formed ns bytes.now at ≡ Ok tt }
{
    // the same number, which is then seen to be at most 32, in the type of a name's number: so that the loop needs no test for each name, and many go at once
    let count = names.min(NAMES_MOST as usize) as u16;
    let mut formed = true;
    for i in 0..count {
        formed &= byte_formed(prepared::size_of(code, i), bytes[at + i as usize]);
    }
    formed
}

// Question 17 of the memory at a place.
fn memory_formed(code: &[u16; CODE], names: usize, bytes: &[u8], at: usize) -> Result<(), Refusal>
    requires { (names ≤ 32) × (at + names ≤ length bytes.now) }
    ensures { (ns : List ℕ) → parts.SizesIn ns code.now names → result ≡ spec.memory_formed ns bytes.now at }
{
    if all_formed(code, names, bytes, at) {
        return Ok(());
    }
    for i in 0..names {
        let yes = byte_formed(prepared::size_of(code, i as u16), bytes[at + i]);
        validation::ask(yes, 17, at + i)?;
    }
    Ok(())
}

// Question 17 of a start list.
pub(crate) fn initial_formed(code: &[u16; CODE], bytes: &[u8]) -> Result<(), Refusal>
    requires { (0 < slice_index code.now Prepared.name_count_place) × (slice_index code.now Prepared.name_count_place ≤ 32) }
    ensures { (ns : List ℕ) → Prepared.Coded ns code.now → result ≡ spec.initial_formed ns bytes.now }
{
    let names = prepared::name_count(code);
    for k in 0..bytes.len() / names {
        memory_formed(code, names, bytes, names * k)?;
    }
    Ok(())
}

// Question 17 of the record at a place of a solution, for a graph of so many nodes.
fn record_formed(
    code: &[u16; CODE],
    names: usize,
    nodes: u16,
    bytes: &[u8],
    at: usize,
) -> Result<(), Refusal>
    requires { (names ≤ 32) × (at + 2 + names ≤ length bytes.now) }
    ensures { (ns : List ℕ) → parts.SizesIn ns code.now names → result ≡ parts.record_formed ns nodes bytes.now at }
{
    validation::ask(file::word_at(bytes, at) < nodes, 17, at)?;
    memory_formed(code, names, bytes, at + 2)
}

// Question 17 of a solution.
pub(crate) fn solution_formed(code: &[u16; CODE], nodes: u16, bytes: &[u8]) -> Result<(), Refusal>
    requires { slice_index code.now Prepared.name_count_place ≤ 32 }
    ensures { (ns : List ℕ) (g : Graph.Graph) → Prepared.Coded ns code.now → g.nodes ≡ nodes → result ≡ spec.solution_formed ns g bytes.now }
{
    let names = prepared::name_count(code);
    let width = 2 + names;
    for k in 0..bytes.len() / width {
        record_formed(code, names, nodes, bytes, width * k)?;
    }
    Ok(())
}

// Question 17 of a list, by the answer to it: a refusal is a wrong byte of the list.
#[tactic(auto, unfolding(crate::specs::Parts::RecordParts::readable, crate::specs::Records::wrong_byte))]
pub(crate) fn readable(list: RecordList, formed: Result<(), Refusal>) -> Result<(), Unreadable>
    ensures { result ≡ parts.readable list formed }
{
    formed.map_err(|x| {
        Unreadable::Malformed(WrongByte {
            list,
            offset: x.offset,
        })
    })
}

// The bytes of so many names from a place on, into an array, with zeros past them.
pub(crate) fn read_memory(out: &mut [u8; 32], bytes: &[u8], at: usize, names: usize)
    requires { (names ≤ 32) × (at + names ≤ length bytes.now) }
    ensures { out.new ≡ parts.padded bytes.now at names }
{
    *out = [0u8; 32];
    out[..names].copy_from_slice(&bytes[at..at + names]);
}

// An abstract memory's bytes over a buffer from a place on.
fn put_memory(buffer: &mut [u8], at: usize, memory: Memory<'_>)
    requires { at + memory.names ≤ length buffer.old }
    ensures { buffer.new ≡ DrawingParts.over_at at (take memory.entry.names memory.entry.rho.now) buffer.old }
{
    // a copy of its own, which the buffer cannot lie over: from what is lent, the copying would be one of parts that may overlap, by C's memmove
    let rho = *memory.rho;
    buffer[at..at + memory.names].copy_from_slice(&rho[..memory.names]);
}

// A node's two bytes over a buffer from a place on.
fn put_node(buffer: &mut [u8], at: usize, node: u16)
    requires { at + 2 ≤ length buffer.old }
    ensures { buffer.new ≡ DrawingParts.over_at at (Graph.word_bytes node) buffer.old }
{
    buffer[at..at + 2].copy_from_slice(&node.to_be_bytes());
}

// A changed record over a buffer from a place on.
pub(crate) fn put_changed(buffer: &mut [u8], at: usize, memory: Memory<'_>, change: Change)
    requires { at + (2 + memory.names) ≤ length buffer.old }
    ensures { buffer.new ≡ DrawingParts.over_at at (changed memory.entry.names memory.entry.rho.now change) buffer.old }
{
    put_node(buffer, at, change.node);
    put_memory(buffer, at + 2, memory);
    let x = change.name as usize;
    if x < memory.names {
        buffer[at + 2 + x] = change.set;
    }
}
