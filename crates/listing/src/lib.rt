// What the sheet program prints (document 01, "The sheet program and the factorial lesson"): the solver's list for a script and its start list, or one
// refusal. `specs/Text` has the bytes, and `render` promises them for any input. What is trusted beside it is that the system reads and writes.
#![tactic(auto)]

mod digits;
mod lines;
mod text;

ghost use Rattle.std.specs.Prelude.{◌≡◌, ◌≤◌, OnOk, length};
ghost use Rattle.std.specs.Io.KnownBytes.{Appends};
ghost use Rattle.program.specs.Drawing.{over};
ghost use Rattle.program.specs.Questions as Questions;
ghost use Rattle.listing.specs.Parts.Writing as parts;
ghost use Rattle.listing.specs.Text as spec;

use analysis::{Solving, Unreadable, judging, solver};
use program::{Construction, drawing, file, validation};
use std::io;
use std::io::{Read, Write};

// Bytes enough for any listing: 4,096 records have lines of at most 73 bytes (four digits, a space, three digits, 32 spaces with a digit each and the
// line's end), and the counts and the index line have less than a hundred each.
pub const TEXT: usize = 300000;

// The line of counts for a list of so many records. The graph of a fit program is never refused: the array holds the most edges.
fn put_counts_of(program: &[u8], count: u16, out: &mut [u8]) -> usize
    requires { (Questions.validity program.now ≡ Ok tt) × parts.Room 0 (spec.line_text (parts.counts_of program.now count)) out.old }
    ensures { parts.Put 0 (spec.line_text (parts.counts_of program.now count)) out.old out.new result }
{
    let mut edges = [0u8; drawing::BYTES];
    match drawing::draw_on(Construction::Nondeterministic, program, &mut edges) {
        Ok(d) => lines::put_counts(d.nodes, d.edges, count, 0, out),
        Err(_) => 0,
    }
}

// The index line of a list that is well formed, so that no refusal comes up.
fn put_index_of(program: &[u8], list: &[u8], at: usize, out: &mut [u8]) -> usize
    requires { parts.WellMarked program.now list.now × parts.Room at (spec.line_text (parts.index_of program.now list.now)) out.old }
    ensures { parts.Put at (spec.line_text (parts.index_of program.now list.now)) out.old out.new result }
{
    match judging::index_mark(program, list) {
        Ok(mark) => lines::put_index(mark, at, out),
        Err(_) => at,
    }
}

// The counts, the records and the index line, of a buffer whose first `count` records are the list.
fn put_listing(program: &[u8], buffer: &[u8], count: u16, out: &mut [u8]) -> usize
    requires { parts.Listed program.now buffer.now count out.old }
    ensures { parts.Put 0 (parts.listing_text program.now buffer.now count) out.old out.new result }
{
    let names = file::name_count(program);
    let after_counts = put_counts_of(program, count, out);
    let after_records = lines::put_records(buffer, names, count, after_counts, out);
    let list = validation::part(buffer, 0, lines::bytes_of(names, count));
    put_index_of(program, list, after_records, out)
}

// 17 and 18 are the only refusals of the solver that come up: the file's questions are asked before, and by question 3 of the fifth field the start list is whole
// records, at most 512, so 16 is never refused. 18 has no place.
fn render_fit(input: &[u8], out: &mut [u8]) -> usize
    requires { (Questions.input_validity input.now ≡ Ok tt) × parts.Room 0 (spec.printed_text input.now) out.old }
    ensures { parts.Put 0 (spec.printed_text input.now) out.old out.new result }
{
    let program = validation::program_part(input);
    let mut buffer = [0u8; 65536];
    let solved = solver::solve_on(
        Construction::Nondeterministic,
        program,
        validation::initial_part(input),
        &mut buffer,
    );
    match solved {
        Ok(list) => match list.solving {
            Solving::Finished => put_listing(program, &buffer, list.count, out),
            Solving::Full => lines::put_refusal(18, 0, 0, out),
        },
        Err(x) => match x {
            Unreadable::Malformed(w) => lines::put_refusal(17, w.offset, 0, out),
            Unreadable::Refused(_) => 0,
        },
    }
}

// The listing of an input, or its refusal, over the start of a buffer; returns how many bytes it has.
pub fn render(input: &[u8], out: &mut [u8; TEXT]) -> usize
    ensures { (result ≡ length (spec.printed_text input.now)) × (out.new ≡ over (spec.printed_text input.now) out.old) }
{
    let v = validation::validate_input(input);
    match v {
        Ok(()) => render_fit(input, out),
        Err(x) => lines::put_refusal(x.number, x.offset, 0, out),
    }
}

// Prints the listing of an input, or its refusal.
pub fn print<W: Write>(out: &mut W, input: &[u8]) -> io::Result<()>
    ensures { OnOk result (Appends (W.contents out.old) (W.contents out.new) (spec.printed_text input.now)) }
{
    let mut text = [0u8; TEXT];
    let count = render(input, &mut text);
    out.write_all(&text[..count])
}

// Reads until the array is full or the input ends, and says how many bytes came. A read that fails counts as the input's end. The loop goes by bytes read, not by an index: no
// reader of the library gives a count, takes a failed read for the end and allocates nothing.
pub fn read_full<R: Read>(input: &mut R, bytes: &mut [u8]) -> usize
    ensures { result ≤ length bytes.new }
{
    let mut done = 0;
    while done < bytes.len() {
        match input.read(&mut bytes[done..]) {
            Ok(n) if n > 0 => done += n,
            _ => break,
        }
    }
    done
}

// The largest fit input has 23,631 bytes: 3 + 2 * 32 of names, 3 + 7 * 512, 3 + 7 * 256 and 3 + 7 * 256 of entries, and a start list of 3 + 512 * 32. The
// array is longer, and an input that is longer still is answered by the bytes that it begins with: they have its text (`cut_printed` of `proofs/Laws`).
pub fn print_read<R: Read, W: Write>(input: &mut R, out: &mut W) -> io::Result<()> {
    let mut bytes = [0u8; 32768];
    let n = read_full(input, &mut bytes);
    print(out, &bytes[..n])
}
