// The code of a prepared program, filled from a file.

ghost use Rattle.std.specs.Prelude.{◌≡◌, ◌<◌, ◌≤◌, ◌+◌, ◌*◌, length, set, replicate};
ghost use Rattle.program.specs.File;
ghost use Rattle.program.specs.Parts.Prepared.{expressions_most, code_length};
ghost use Rattle.program.specs.Parts.Preparing as spec;
ghost use Rattle.program.specs.Questions.{validity};

use crate::prepared::CODE;
use crate::{ArithNode, Layout, Span, file, prepared};

// The four numbers of the entry at a place of a file, at a place of an array.
fn put_entry(program: &[u8], at: usize, out: &mut [u16], place: usize)
    requires { (at + 7 ≤ length program.now) × (place + 4 ≤ length out.old) }
    ensures { out.new
        ≡ set (set (set (set out.old place (File.byte_at program.now at))
        (place + 1) (File.word_at program.now (at + 1)))
        (place + 2) (File.word_at program.now (at + 3)))
        (place + 3) (File.word_at program.now (at + 5)) }
{
    out[place] = u16::from(program[at]);
    out[place + 1] = file::whole_word(program, at + 1);
    out[place + 2] = file::whole_word(program, at + 3);
    out[place + 3] = file::whole_word(program, at + 5);
}

// The entries of a table's part of a file, from a place of an array on.
pub(crate) fn put_table(program: &[u8], span: Span, out: &mut [u16], place: usize)
    requires { (span.start + 7 * span.count ≤ length program.now) × (place + 4 * span.count ≤ length out.old) }
    ensures { spec.Copied program.now span.start place span.count out.old out.new }
{
    let start = span.start;
    let count = span.count as usize;
    for n in 0..count {
        put_entry(program, start + 7 * n, out, place + 4 * n);
    }
}

// The sizes and first cells of the names, the number of all cells, and that of the names.
fn put_names(program: &[u8], names: u16, code: &mut [u16; CODE])
    requires { (validity program.now ≡ Ok tt) × (names ≡ File.name_count program.now) × (length code.old ≡ code_length) }
    ensures { spec.NamesDone program.now code.old code.new }
{
    let mut total: usize = 0;
    for i in 0..names {
        let size = file::size_at(program, i);
        code[prepared::SIZES + i as usize] = size;
        code[prepared::CELLS + i as usize] = total as u16;
        total += file::cells_of(size);
    }
    code[prepared::CELLS_END] = total as u16;
    code[prepared::NAMES] = names;
}

// The fourth number of arithmetic entry `n`: its cell, where it is a leaf.
fn fourth(code: &[u16; CODE], n: u16) -> u16
    requires { n < expressions_most }
    ensures { result ≡ spec.fourth_in code.now n }
{
    let node = prepared::arith_at(code, n);
    match node {
        ArithNode::Number(_) => prepared::NUMBERS + n,
        ArithNode::Variable(x) => {
            if x < prepared::NAMES_MOST {
                code[prepared::CELLS + x as usize]
            } else {
                0
            }
        }
        ArithNode::Element(_, _) => prepared::NO_CELL,
        ArithNode::Operator(_, _, _) => prepared::NO_CELL,
    }
}

// Those of so many arithmetic entries.
fn put_cells(code: &mut [u16; CODE], count: u16)
    requires { (count ≤ expressions_most) × (length code.old ≡ code_length) }
    ensures { spec.CellsPut count code.old code.new }
{
    for n in 0..count {
        code[4 * n as usize + 3] = fourth(code, n);
    }
}

// The code of a well-formed program with this layout, into an array of zeros.
pub(crate) fn put_code(program: &[u8], l: Layout, code: &mut [u16; CODE])
    requires { (validity program.now ≡ Ok tt) × (l ≡ File.layout_of program.now) × (code.old ≡ replicate code_length 0) }
    ensures { spec.CodeIn program.now code.new }
{
    let names = l.names;
    let arithmetic = l.arithmetic;
    put_table(program, arithmetic, code, 0);
    put_table(program, l.boolean, code, prepared::BOOLEAN);
    put_names(program, names.count, code);
    put_cells(code, arithmetic.count);
    code[prepared::ARITHMETIC] = arithmetic.count;
}
