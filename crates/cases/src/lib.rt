// What the test programs read: cases, each with a title, out of a file that `oracle/` makes. Numbers have the high byte first.
//
// What is read can be anything, so that reading has no contract but to be safe.
#![tactic(auto)]

ghost use Rattle.std.specs.Prelude.{◌≡◌, ◌/◌, ◌<◌, ◌≤◌, None, Some, IsSome, IfOk};
ghost use Rattle.program.specs.Graph;

pub use listing::read_full;
use program::{Construction, drawing};
use std::io;
use std::io::{Read, Write};

// Reads so many bytes into the front of an array: nothing where the array is shorter, or the input ends before.
pub fn read_front<'a, R: Read>(input: &mut R, bytes: &'a mut [u8], n: usize) -> Option<&'a [u8]> {
    let part = bytes.get_mut(..n)?;
    if read_full(input, part) == n {
        Some(part)
    } else {
        None
    }
}

// Reads a record's head: nothing at the input's end, nor where the head is cut, which is said. Where it is whole, nothing is printed.
pub fn head<const N: usize, R: Read, W: Write>(
    input: &mut R,
    out: &mut W,
) -> io::Result<Option<[u8; N]>>
    ensures { IfOk result (λ head. IsSome head → W.contents out.new ≡ W.contents out.old) }
{
    let mut bytes = [0u8; N];
    let n = read_full(input, &mut bytes);
    if n == 0 {
        return Ok(None);
    }
    if n < N {
        writeln!(out, "head cut")?;
        return Ok(None);
    }
    Ok(Some(bytes))
}

// The construction that a mode names: 16 more for the nondeterministic graph, 32 more for the deterministic one. Below 16 it names none.
pub fn named(mode: u8) -> Option<Construction>
    ensures none { mode < 16 → result ≡ None }
    ensures one { 16 ≤ mode → result ≡ Some (Graph.named (mode / 16)) }
{
    match mode / 16 {
        0 => None,
        on => Some(drawing::named(u32::from(on))),
    }
}

// Reads a title of so many bytes and prints it: answers whether all of it is there.
pub fn title<R: Read, W: Write>(input: &mut R, out: &mut W, n: usize) -> io::Result<bool> {
    let mut bytes = [0u8; 256];
    let Some(title) = read_front(input, &mut bytes, n) else {
        writeln!(out, "title cut")?;
        return Ok(false);
    };
    out.write_all(title)?;
    write!(out, ": ")?;
    Ok(true)
}

// The first bytes of a list, with 0 for each that is not there.
fn first<const N: usize>(bytes: &[u8]) -> [u8; N] {
    let mut array = [0u8; N];
    for (to, from) in array.iter_mut().zip(bytes) {
        *to = *from;
    }
    array
}

// The bytes at a place, with 0 for each that is not there.
fn bytes_at<const N: usize>(bytes: &[u8], i: usize) -> [u8; N] {
    first(bytes.get(i..).unwrap_or(&[]))
}

// The number of four bytes at a place.
pub fn long_at(bytes: &[u8], i: usize) -> u32 {
    u32::from_be_bytes(bytes_at(bytes, i))
}

// The number of eight bytes at a place, two's complement.
pub fn signed_at(bytes: &[u8], i: usize) -> i64 {
    i64::from_be_bytes(bytes_at(bytes, i))
}

// Sets each cell of a memory to that of a list of cells, four bytes each, two's complement: to 0 where the list has no more, and past 8,192 cells, which no list has.
pub fn set_cells(memory: &mut [i32], bytes: &[u8]) {
    memory.fill(0);
    for (cell, part) in memory.iter_mut().zip(bytes.chunks(4)).take(8192) {
        *cell = i32::from_be_bytes(first(part));
    }
}

// A checksum's next state. The modulus is a prime above all that is mixed in.
pub fn mix(sum: u64, x: u64) -> u64 {
    (sum % 4294967311 * 1000003 + x % 4294967296) % 4294967311
}

pub fn mix_bytes(bytes: &[u8]) -> u64 {
    bytes.iter().fold(1, |sum, x| mix(sum, u64::from(*x)))
}
