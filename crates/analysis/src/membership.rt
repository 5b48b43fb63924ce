// Membership of a record in a list of records, by an index: one array with the factors of the columns, the first record of each hash and the next record of each.

ghost use Rattle.std.specs.Prelude.{◌≡◌, ℕ, suc, ◌+◌, ◌*◌, ◌/◌, ◌%◌, ◌<◌, ◌≤◌, List, length, take, drop, set, replicate, slice_index, slice_set};
ghost use Rattle.analysis.specs.Parts.Membership as spec;
ghost use Rattle.analysis.specs.Parts.RecordParts as parts;
ghost use Rattle.analysis.specs.Records;

use crate::Change;

// The places of the index's sections: 34 factors, 8,192 heads and 4,096 links, both one more than a record's number,
// so that 0 ends a chain. Fixed memory: no map of the library is without a heap.
pub(crate) const INDEX: usize = 12322;

const COLUMNS: usize = 34;

const CHAINS: usize = 8192;

const HEADS: usize = 34;

const NEXT: usize = 8226;

// An abstract memory that is lent as an array: how many names it has, and the weight of its bytes in an index. The solver lends it on, and copies it where it asks the
// index: copied at each guard, a solution with many guards takes a sixth longer.
#[derive(Clone, Copy)]
pub(crate) struct Memory<'a> {
    pub(crate) names: usize,
    pub(crate) rho: &'a [u8; 32],
    pub(crate) weight: u32,
    pub(crate) ghost weighed: { spec.Weighed names rho.now weight },
}

// A sum times this number, and of the product some bits from the middle: sums that are close fall apart.
const SPREAD: usize = 2654435769;

// The factors, the powers of 31,821 modulo 65,536, into an array of zeros: the index of no record.
pub(crate) fn put_factors(index: &mut [u16; INDEX])
    requires { index.old ≡ replicate spec.index_length 0 }
    ensures { (width : ℕ) (bytes : List ℕ) → spec.Indexed width bytes 0 index.new }
{
    let mut factor: u32 = 1;
    for entry in index[..COLUMNS].iter_mut() {
        *entry = factor as u16;
        factor = factor * 31821 % 65536;
    }
}

fn product(byte: u8, factor: u16) -> u32
    ensures value { result ≡ byte * factor }
    ensures small { result ≤ spec.term_most }
{
    byte as u32 * factor as u32
}

// What a byte in a column adds to a record's sum.
fn term(index: &[u16; INDEX], column: usize, byte: u8) -> u32
    requires { column < 34 }
    ensures value { result ≡ byte * slice_index index.now column }
    ensures small { result ≤ spec.term_most }
{
    product(byte, index[column])
}

// The sum of the terms of an abstract memory that stands at a place.
pub(crate) fn weight(index: &[u16; INDEX], bytes: &[u8], at: usize, names: usize) -> u32
    requires { spec.Factored index.now × (names ≤ 32) × (at + names ≤ length bytes.now) }
    ensures { spec.Weighed names (parts.padded bytes.now at names) result }
{
    let mut sum: u32 = 0;
    // by number: over the slice of the bytes it was tried, and takes twice the time
    for i in 0..names {
        sum += term(index, 2 + i, bytes[at + i]);
    }
    sum
}

// The hash of a record at a node whose memory has a weight.
fn hash(index: &[u16; INDEX], node: u16, weight: u32) -> usize
    requires { weight ≤ spec.changed_most }
    ensures { result ≡ spec.spread (weight + node / 256 % 256 * slice_index index.now 0 + node % 256 * slice_index index.now 1) }
{
    let [high, low] = node.to_be_bytes();
    let sum = weight + term(index, 0, high) + term(index, 1, low);
    sum as usize * SPREAD / 524288 % CHAINS
}

// The weight of a changed memory: one term is another.
fn changed_weight(index: &[u16; INDEX], memory: Memory<'_>, change: Change) -> u32
    requires { spec.Factored index.now }
    ensures value { result ≡ spec.weighted 2 (set (take memory.entry.names memory.entry.rho.now) change.name change.set) memory.entry.names }
    ensures small { result ≤ spec.changed_most }
{
    let x = change.name as usize;
    if x < memory.names {
        let without = memory.weight - term(index, 2 + x, memory.rho[x]);
        return without + term(index, 2 + x, change.set);
    }
    memory.weight
}

// The hash of a changed record.
pub(crate) fn hash_changed(index: &[u16; INDEX], memory: Memory<'_>, change: Change) -> usize
    requires { spec.Factored index.now }
    ensures { result ≡ spec.bucket (spec.changed memory.entry.names memory.entry.rho.now change) }
{
    hash(index, change.node, changed_weight(index, memory, change))
}

// How many names of the memory at a place have the same set as in another one. In a byte, so that many are compared at once.
fn agreeing(bytes: &[u8], at: usize, names: usize, rho: &[u8; 32]) -> u8
    requires { (names ≤ 32) × (at + names ≤ length bytes.now) }
    ensures { result ≡ spec.agreeing (take names (drop at bytes.now)) rho.now names }
{
    let mut count: u8 = 0;
    for (i, byte) in bytes[at..at + names].iter().enumerate() {
        count += (*byte == rho[i]) as u8;
    }
    count
}

// Whether the memory at a place is a changed one: it has the change, and agrees in all other names.
fn memory_changed(bytes: &[u8], at: usize, memory: Memory<'_>, x: usize, set: u8) -> bool
    requires { at + memory.names ≤ length bytes.now }
    ensures { result ≡ Records.same_signs (take memory.entry.names (drop at bytes.now)) (slice_set (take memory.entry.names memory.entry.rho.now) x set) }
{
    let count = agreeing(bytes, at, memory.names, memory.rho);
    if x < memory.names {
        let wanted = memory.names as u8 - (memory.rho[x] != set) as u8;
        return (bytes[at + x] == set) & (count == wanted);
    }
    count == memory.names as u8
}

// Whether the record at a place is a changed one.
fn is_changed(bytes: &[u8], at: usize, memory: Memory<'_>, change: Change) -> bool
    requires { at + (2 + memory.names) ≤ length bytes.now }
    ensures { result ≡ Records.same_signs (take (2 + memory.entry.names) (drop at bytes.now)) (spec.changed memory.entry.names memory.entry.rho.now change) }
{
    let node = u16::from_be_bytes([bytes[at], bytes[at + 1]]);
    (node == change.node) & memory_changed(bytes, at + 2, memory, change.name as usize, change.set)
}

// Whether a changed record with this hash is among those indexed.
pub(crate) fn find(
    index: &[u16; INDEX],
    bytes: &[u8],
    memory: Memory<'_>,
    change: Change,
    h: usize,
) -> bool
    requires { (n : ℕ) × spec.Sought (2 + memory.names) bytes.now n index.now (spec.changed memory.names memory.rho.now change) h }
    ensures { (n : ℕ) → spec.Sought (2 + memory.entry.names) bytes.now n index.now (spec.changed memory.entry.names memory.entry.rho.now change) h
        → result ≡ spec.among (2 + memory.entry.names) bytes.now n (spec.changed memory.entry.names memory.entry.rho.now change) }
{
    let mut link = index[HEADS + h] as usize;
    while 0 < link {
        let k = link - 1;
        if is_changed(bytes, (2 + memory.names) * k, memory, change) {
            return true;
        }
        link = index[NEXT + k] as usize;
    }
    false
}

// Adds record `n`, whose hash is `h`, before the others of its chain.
pub(crate) fn enter(index: &mut [u16; INDEX], n: usize, h: usize)
    requires { (n < 4096) × (h < 8192) }
    ensures { (width : ℕ) (bytes : List ℕ) → spec.Indexed width bytes n index.old → width * suc n ≤ length bytes
        → h ≡ spec.bucket (Records.record_at width bytes n) → spec.Indexed width bytes (suc n) index.new }
{
    index[NEXT + n] = index[HEADS + h];
    index[HEADS + h] = n as u16 + 1;
}

// The hash of the record at a place.
fn hash_at(index: &[u16; INDEX], bytes: &[u8], at: usize, names: usize) -> usize
    requires { spec.Factored index.now × (names ≤ 32) × (at + (2 + names) ≤ length bytes.now) }
    ensures { result ≡ spec.bucket (take (2 + names) (drop at bytes.now)) }
{
    let node = u16::from_be_bytes([bytes[at], bytes[at + 1]]);
    hash(index, node, weight(index, bytes, at + 2, names))
}

// The index of a list of at most 4,096 records, into an array of zeros.
pub(crate) fn put_index(index: &mut [u16; INDEX], bytes: &[u8], names: usize)
    requires { (index.old ≡ replicate spec.index_length 0) × (names ≤ 32) × (Records.record_count (2 + names) bytes.now ≤ 4096) }
    ensures { spec.Indexed (2 + names) bytes.now (Records.record_count (2 + names) bytes.now) index.new }
{
    put_factors(index);
    let count = bytes.len() / (2 + names);
    for k in 0..count {
        let h = hash_at(index, bytes, (2 + names) * k, names);
        enter(index, k, h);
    }
}
