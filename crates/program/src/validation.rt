// Questions 1 to 11 and 20 of a program file.

ghost use Rattle.std.specs.Prelude.{◌≡◌, ◌<◌, length, take, drop, ◌&&◌, eqb, leb};
ghost use Rattle.program.specs.Questions as spec;
ghost use Rattle.program.specs.Asking;
ghost use Rattle.program.specs.Parts.Layouts;
ghost use Rattle.program.specs.Parts.Checking;
ghost use Rattle.program.specs.Parts.Counting;
ghost use Rattle.program.specs.File;

use crate::{Field, FieldHead, FieldHeads, Layout, Refusal, Table};

mod entries;
mod jumps;
mod operands;
pub(crate) mod uses;

use crate::{file, kinds, reader};

// A file whose first four fields pass questions 1 to 4, and where it has its names and its tables. It is handed on by value: by reference validation is a tenth slower.
// Question 20 alone, which goes down a tree, is lent it.
#[derive(Clone, Copy)]
struct Script<'a> {
    bytes: &'a [u8],
    layout: Layout,
    ghost laid_out: { Layouts.LaidOut bytes.now layout },
}

// One question: its answer, and its number and place when that is no.
#[tactic(auto, unfolding(crate::specs::Asking::ask))]
pub fn ask(yes: bool, number: u8, offset: usize) -> Result<(), Refusal>
    ensures { result ≡ Asking.ask yes number offset }
{
    if yes {
        Ok(())
    } else {
        Err(Refusal { number, offset })
    }
}

// Whether a length is whole entries, as many as allowed.
#[tactic(auto, unfolding(crate::specs::Questions::whole_entries))]
fn whole_entries(field: Field, len: u16) -> bool
    requires { 0 < field.width }
    ensures { result ≡ spec.whole_entries field len }
{
    let count = len / field.width;
    len % field.width == 0 && field.least <= count && count <= field.most
}

// Questions 2 to 4 of a head in a file of `end` bytes.
fn check_found(end: usize, found: FieldHead, field: Field) -> Result<(), Refusal>
    requires { 0 < field.width }
    ensures { result ≡ spec.head_validity end (Ok found) field }
{
    ask(found.tag == field.tag, 2, found.start)?;
    ask(whole_entries(field, found.length), 3, found.start)?;
    ask(found.next <= end, 4, found.start)
}

// Questions 1 to 4 of what the reader finds in a file of `end` bytes.
#[tactic(auto, unfolding(crate::specs::Questions::head_validity))]
fn check_head(end: usize, head: Result<FieldHead, usize>, field: Field) -> Result<(), Refusal>
    requires { 0 < field.width }
    ensures { result ≡ spec.head_validity end head field }
{
    match head {
        Err(at) => ask(false, 1, at),
        Ok(found) => check_found(end, found, field),
    }
}

// Questions 1 to 4 of the four fields, whose heads are at hand.
fn check_heads(s: &[u8], h: FieldHeads) -> Result<(), Refusal>
    requires { h ≡ Layouts.heads_of s.now }
    ensures { result ≡ spec.heads_validity s.now 0 File.program_fields }
{
    check_head(s.len(), h.names, file::names_field())?;
    check_head(s.len(), h.arithmetic, file::table_field(Table::Arithmetic))?;
    check_head(s.len(), h.boolean, file::table_field(Table::Boolean))?;
    check_head(s.len(), h.commands, file::table_field(Table::Commands))
}

// Whether a size is 0 to 64 and a cell total at most 512.
fn in_bounds(size: u16, total: usize) -> bool
    ensures { result ≡ (leb size 64 && leb total 512) }
{
    size <= 64 && total <= 512
}

// How many of a table's entries are to be used once: all but the last command.
#[tactic(auto, unfolding(crate::specs::Questions::to_be_used))]
fn to_be_used(table: Table, count: u16) -> u16
    ensures { result ≡ spec.to_be_used table count }
{
    match table {
        Table::Arithmetic | Table::Boolean => count,
        Table::Commands => count.saturating_sub(1),
    }
}

impl Script<'_> {
    // Question 6 of every name.
    fn check_names(self) -> Result<(), Refusal>
        ensures { result ≡ Asking.ask_each (File.name_count self.entry.bytes.now) (spec.name_validity self.entry.bytes.now) }
    {
        let mut total: usize = 0;
        for i in 0..self.layout.names.count {
            let size = file::size_at(self.bytes, i);
            total += file::cells_of(size);
            ask(in_bounds(size, total), 6, 3 + 2 * i as usize)?;
        }
        Ok(())
    }

    // Questions 7 to 9 of a table's entries. Where they are answered yes, the operands of all are counted, for question 10, and it is noted whether one may be a jump,
    // for question 20: one pass serves all.
    fn check_table(
        self,
        table: Table,
        uses: &mut [u8; 1024],
        jumps: &mut bool,
    ) -> Result<(), Refusal>
        ensures { Checking.TableNoted self.entry.bytes.now table uses.old uses.new jumps.old jumps.new result }
    {
        let span = file::span_of(self.layout, table);
        for n in 0..span.count {
            self.check_entry(table, span.start, n, uses, jumps)?;
        }
        Ok(())
    }

    // Question 10 of a table's entries, whose uses stand in `counts`.
    fn check_uses(self, table: Table, counts: &[u8]) -> Result<(), Refusal>
        requires { Counting.UsesIn self.bytes.now counts.now }
        ensures { result ≡ spec.used_validity self.entry.bytes.now table }
    {
        let span = file::span_of(self.layout, table);
        let count = to_be_used(table, span.count);
        for n in 0..count {
            let used = counts[uses::slot(table, n)] == 1;
            ask(used, 10, span.start + 7 * n as usize)?;
        }
        Ok(())
    }

    // Question 11.
    fn check_last(self) -> Result<(), Refusal>
        ensures { result ≡ spec.last_validity self.entry.bytes.now }
    {
        let last = to_be_used(Table::Commands, self.layout.commands.count);
        let at = self.layout.commands.start + 7 * last as usize;
        ask(kinds::is_command(file::byte_at(self.bytes, at)), 11, at)
    }

    // Questions 10 and 11.
    fn check_all_uses(self, counts: &[u8]) -> Result<(), Refusal>
        requires { Counting.UsesIn self.bytes.now counts.now }
        ensures { result ≡ spec.uses_validity self.entry.bytes.now }
    {
        self.check_uses(Table::Arithmetic, counts)?;
        self.check_uses(Table::Boolean, counts)?;
        self.check_uses(Table::Commands, counts)?;
        self.check_last()
    }

    // Questions 7 to 11.
    fn check_entries(self, jumps: &mut bool) -> Result<(), Refusal>
        ensures { Checking.EntriesNoted self.entry.bytes.now jumps.old jumps.new result }
    {
        let mut uses = [0u8; 1024];
        self.check_table(Table::Arithmetic, &mut uses, jumps)?;
        self.check_table(Table::Boolean, &mut uses, jumps)?;
        self.check_table(Table::Commands, &mut uses, jumps)?;
        self.check_all_uses(&uses)
    }

    // Questions 6 to 11 and 20.
    fn check_content(self) -> Result<(), Refusal>
        ensures { result ≡ spec.content_validity self.entry.bytes.now }
    {
        self.check_names()?;
        let mut jumps = false;
        self.check_entries(&mut jumps)?;
        self.check_jumps(jumps)
    }
}

// Question 5: whether a file ends after its last field, at `at`.
fn check_end(s: &[u8], at: usize) -> Result<(), Refusal>
    ensures { result ≡ Asking.ask (eqb at (length s.now)) 5 at }
{
    ask(at == s.len(), 5, at)
}

// Questions 1 to 11 and 20 of a program file.
pub fn validate(s: &[u8]) -> Result<(), Refusal>
    ensures value { result ≡ spec.validity s.now }
    ensures numbers { Asking.validity_numbers result ≡ spec.validation_row s.now }
{
    let h = reader::heads(s);
    check_heads(s, h)?;
    check_end(s, reader::after(h.commands))?;
    let script = Script {
        bytes: s,
        layout: file::layout_by(h),
    };
    script.check_content()
}

// Questions 1 to 11 and 20 of the sheet program's input, whose fifth field is the start list.
pub fn validate_input(s: &[u8]) -> Result<(), Refusal>
    ensures value { result ≡ spec.input_validity s.now }
    ensures numbers { Asking.validity_numbers result ≡ spec.input_row s.now }
{
    let h = reader::heads(s);
    check_heads(s, h)?;
    let l = file::layout_by(h);
    check_head(s.len(), h.initial, file::initial_field(l.names.count))?;
    check_end(s, reader::after(h.initial))?;
    let script = Script {
        bytes: s,
        layout: l,
    };
    script.check_content()
}

// The program's part of the sheet program's input: its first four fields.
pub fn program_part<'a>(s: &'a [u8]) -> &'a [u8]
    ensures { result.now ≡ spec.program_part s.now }
{
    let h = reader::heads(s);
    part(s, 0, reader::after(h.commands))
}

// The start list in the sheet program's input: the content of its fifth field.
pub fn initial_part<'a>(s: &'a [u8]) -> &'a [u8]
    ensures { result.now ≡ spec.initial_part s.now }
{
    let h = reader::heads(s);
    match h.initial {
        Err(_) => &s[..0],
        Ok(found) => part(s, found.content, found.length as usize),
    }
}

// The `count` bytes from `start` on, as far as they are there.
pub fn part<'a>(s: &'a [u8], start: usize, count: usize) -> &'a [u8]
    ensures { result.now ≡ take count (drop start s.now) }
{
    let rest = &s[s.len().min(start)..];
    &rest[..rest.len().min(count)]
}
