// Reading a program file. All of it is total: a byte past the end is 0.

ghost use Rattle.std.specs.Prelude.{◌≡◌, List, ℕ, ◌<◌, ◌+◌, length};
ghost use Rattle.program.specs.File as spec;
ghost use Rattle.program.specs.Parts.Layouts;
ghost use Rattle.program.specs.Questions;

use crate::{Entry, Field, FieldHead, FieldHeads, Layout, Span, Table, reader};

// The byte at `i`.
pub fn byte_at(s: &[u8], i: usize) -> u8
    ensures { result ≡ spec.byte_at s.now i }
{
    s.get(i).copied().unwrap_or(0)
}

// The number at `i`, its high byte first.
pub fn word_at(s: &[u8], i: usize) -> u16
    ensures { result ≡ spec.word_at s.now i }
{
    if i < s.len() {
        u16::from_be_bytes([byte_at(s, i), byte_at(s, i + 1)])
    } else {
        0
    }
}

// The same where both bytes are there.
pub(crate) fn whole_word(s: &[u8], i: usize) -> u16
    requires { i + 1 < length s.now }
    ensures { result ≡ spec.word_at s.now i }
{
    u16::from_be_bytes([s[i], s[i + 1]])
}

// The entry whose kind byte is at `at`. Where all of it is there, which is nearly always, one test serves its seven bytes.
pub fn entry_at(s: &[u8], at: usize) -> Entry
    ensures { result ≡ spec.entry_at s.now at }
{
    if at < s.len() {
        if 7 <= s.len() - at {
            return Entry {
                kind: s[at],
                p: whole_word(s, at + 1),
                q: whole_word(s, at + 3),
                r: whole_word(s, at + 5),
            };
        }
        Entry {
            kind: byte_at(s, at),
            p: word_at(s, at + 1),
            q: word_at(s, at + 3),
            r: word_at(s, at + 5),
        }
    } else {
        Entry::default()
    }
}

// What is allowed of the names.
pub(crate) fn names_field() -> Field
    ensures { result ≡ spec.names_field }
{
    Field {
        tag: 1,
        width: 2,
        least: 1,
        most: 32,
    }
}

// What is allowed of a table.
pub(crate) fn table_field(table: Table) -> Field
    ensures { result ≡ spec.table_field table }
{
    match table {
        Table::Arithmetic => Field {
            tag: 2,
            width: 7,
            least: 0,
            most: 512,
        },
        Table::Boolean => Field {
            tag: 3,
            width: 7,
            least: 0,
            most: 256,
        },
        Table::Commands => Field {
            tag: 4,
            width: 7,
            least: 1,
            most: 256,
        },
    }
}

// What is allowed of the start list after a program with so many names.
pub(crate) fn initial_field(names: u16) -> Field
    ensures { result ≡ spec.initial_field names }
{
    Field {
        tag: 5,
        width: names,
        least: 0,
        most: 512,
    }
}

// The content of the field with this head.
fn head_span(head: Result<FieldHead, usize>, field: Field) -> Span
    requires { 0 < field.width }
    ensures { result ≡ spec.head_span head field }
{
    match head {
        Err(at) => Span {
            start: at,
            count: 0,
        },
        Ok(found) => Span {
            start: found.content,
            count: found.length / field.width,
        },
    }
}

// Where a file with these heads has its names and its tables.
pub(crate) fn layout_by(h: FieldHeads) -> Layout
    ensures { (s : List ℕ) → h ≡ Layouts.heads_of s → result ≡ spec.layout_of s }
{
    let names = h.names;
    let arithmetic = h.arithmetic;
    let boolean = h.boolean;
    let commands = h.commands;
    Layout {
        names: head_span(names, names_field()),
        arithmetic: head_span(arithmetic, table_field(Table::Arithmetic)),
        boolean: head_span(boolean, table_field(Table::Boolean)),
        commands: head_span(commands, table_field(Table::Commands)),
    }
}

// Where a file has its names and its tables.
pub fn layout(s: &[u8]) -> Layout
    ensures { result ≡ spec.layout_of s.now }
{
    layout_by(reader::heads(s))
}

// The same of a well-formed program, whose heads are all there: each length is read where it stands.
pub(crate) fn fit_layout(s: &[u8]) -> Layout
    requires { Questions.validity s.now ≡ Ok tt }
    ensures { result ≡ spec.layout_of s.now }
{
    let names = whole_word(s, 1);
    let second = 3 + names as usize;
    let arithmetic = whole_word(s, second + 1);
    let third = second + 3 + arithmetic as usize;
    let boolean = whole_word(s, third + 1);
    let fourth = third + 3 + boolean as usize;
    let commands = whole_word(s, fourth + 1);
    Layout {
        names: Span {
            start: 3,
            count: names / 2,
        },
        arithmetic: Span {
            start: second + 3,
            count: arithmetic / 7,
        },
        boolean: Span {
            start: third + 3,
            count: boolean / 7,
        },
        commands: Span {
            start: fourth + 3,
            count: commands / 7,
        },
    }
}

// A table's part of a file.
pub fn span_of(l: Layout, table: Table) -> Span
    ensures { result ≡ spec.span_of l table }
{
    match table {
        Table::Arithmetic => l.arithmetic,
        Table::Boolean => l.boolean,
        Table::Commands => l.commands,
    }
}

// The number of names.
pub fn name_count(s: &[u8]) -> u16
    ensures { result ≡ spec.name_count s.now }
{
    let names = head_span(reader::field_head(s, 0), names_field());
    names.count
}

// The size of name `i`: 0 for a variable.
pub fn size_at(s: &[u8], i: u16) -> u16
    ensures { result ≡ spec.size_at s.now i }
{
    word_at(s, 3 + 2 * i as usize)
}

// The number of entries of a table.
pub fn entry_count(s: &[u8], table: Table) -> u16
    ensures { result ≡ spec.entry_count s.now table }
{
    let span = span_of(layout(s), table);
    span.count
}

// Entry `n` of a table.
pub fn entry(s: &[u8], table: Table, n: u16) -> Entry
    ensures { result ≡ spec.entry s.now table n }
{
    let span = span_of(layout(s), table);
    let start = span.start;
    if start <= s.len() {
        entry_at(s, start + 7 * n as usize)
    } else {
        Entry::default()
    }
}

// The number of cells of a name of this size.
pub(crate) fn cells_of(size: u16) -> usize
    ensures { result ≡ spec.cells_of size }
{
    size.max(1) as usize
}

// The number of cells of the names before name `i`, or of all where there are no more.
pub fn first_cell(s: &[u8], i: u16) -> usize
    ensures { result ≡ spec.first_cell (spec.sizes s.now) i }
{
    let end = name_count(s).min(i);
    let mut total: usize = 0;
    for k in 0..end {
        total += cells_of(size_at(s, k));
    }
    total
}

// The number of cells of a memory.
pub fn cell_count(s: &[u8]) -> usize
    ensures { result ≡ spec.cell_count (spec.sizes s.now) }
{
    first_cell(s, name_count(s))
}
