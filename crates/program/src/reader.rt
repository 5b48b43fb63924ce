// Reading a file field by field. A `FieldReader` holds the file's bytes and the place where it stands.

ghost use Rattle.std.specs.Prelude.{◌≡◌};
ghost use Rattle.program.specs.File as spec;
ghost use Rattle.program.specs.Parts.Layouts;

use crate::{FieldHead, FieldHeads, FieldReader, file};

// What stands at `at`.
pub fn head_at(s: &[u8], at: usize) -> Result<FieldHead, usize>
    ensures { result ≡ spec.head_at s.now at }
{
    if s.len() <= at {
        return Err(at);
    }
    if s.len() - at < 3 {
        return Err(at);
    }
    let length = file::word_at(s, at + 1);
    Ok(FieldHead {
        start: at,
        tag: file::byte_at(s, at),
        length,
        content: at + 3,
        next: at + 3 + length as usize,
    })
}

// Where the reader goes from a head: to the next field, or nowhere where no head stands.
pub(crate) fn after(head: Result<FieldHead, usize>) -> usize
    ensures { result ≡ spec.after_head head }
{
    match head {
        Err(at) => at,
        Ok(field) => field.next,
    }
}

// Where `k` fields from `at` on end, or the first place on the way where no head stands.
pub fn place_after(s: &[u8], at: usize, k: u8) -> usize
    ensures { result ≡ spec.place_after s.now at k }
{
    let mut place = at;
    for _ in 0..k {
        place = after(head_at(s, place));
    }
    place
}

// A reader at the start of a file.
pub fn new<'a>(bytes: &'a [u8]) -> FieldReader<'a>
    ensures { (result.bytes ≡ bytes.entry) × (result.at ≡ 0) }
{
    FieldReader { bytes, at: 0 }
}

// What stands where the reader is.
pub fn head<'a>(r: FieldReader<'a>) -> Result<FieldHead, usize>
    ensures { result ≡ spec.head_at r.entry.bytes.now r.entry.at }
{
    head_at(r.bytes, r.at)
}

// The reader `k` fields further on, or at the first place on the way where no head stands.
pub fn advance<'a>(r: FieldReader<'a>, k: u8) -> FieldReader<'a>
    ensures { (result.bytes ≡ r.entry.bytes) × (result.at ≡ spec.place_after r.entry.bytes.now r.entry.at k) }
{
    FieldReader {
        bytes: r.bytes,
        at: place_after(r.bytes, r.at, k),
    }
}

// The head of the field with `k` fields before it.
pub fn field_head(s: &[u8], k: u8) -> Result<FieldHead, usize>
    ensures { result ≡ spec.field_head s.now k }
{
    head(advance(new(s), k))
}

// The reader where the field with this head ends, or at the place where no head stands.
pub fn past<'a>(r: FieldReader<'a>, head: Result<FieldHead, usize>) -> FieldReader<'a>
    ensures { (result.bytes ≡ r.entry.bytes) × (result.at ≡ spec.after_head head) }
{
    FieldReader {
        bytes: r.bytes,
        at: after(head),
    }
}

// What stands at the four fields of a program and after them: one reader goes through the file.
pub(crate) fn heads(s: &[u8]) -> FieldHeads
    ensures { result ≡ Layouts.heads_of s.now }
{
    let first = new(s);
    let names = head(first);
    let second = past(first, names);
    let arithmetic = head(second);
    let third = past(second, arithmetic);
    let boolean = head(third);
    let fourth = past(third, boolean);
    let commands = head(fourth);
    let fifth = past(fourth, commands);
    let initial = head(fifth);
    FieldHeads {
        names,
        arithmetic,
        boolean,
        commands,
        initial,
    }
}
