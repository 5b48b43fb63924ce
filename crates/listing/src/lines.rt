// The lines of the listing, one function for each kind.

ghost use Rattle.std.specs.Prelude.{◌≡◌, ◌+◌, ◌*◌, ◌≤◌};
ghost use mathlib.Core.List.{flat_map};
ghost use Rattle.analysis.specs.Sheet as Sheet;
ghost use Rattle.listing.specs.Parts.Writing.{Room, Put, line_at, records_text};
ghost use Rattle.listing.specs.Text as spec;

use crate::text;
use analysis::Mark;
use program::{file, validation};

pub(crate) fn put_counts(nodes: u16, edges: u16, count: u16, at: usize, out: &mut [u8]) -> usize
    requires { Room at (spec.line_text (Sheet.counts_line nodes edges count)) out.old }
    ensures { Put at (spec.line_text (Sheet.counts_line nodes edges count)) out.old out.new result }
{
    let after_nodes = text::put_labelled(b"nodes ", nodes as u64, at, out);
    let after_edges = text::put_labelled(b" arrows ", edges as u64, after_nodes, out);
    let after_count = text::put_labelled(b" records ", count as u64, after_edges, out);
    text::put(b"\n", after_count, out)
}

pub(crate) fn put_refusal(number: u8, offset: usize, at: usize, out: &mut [u8]) -> usize
    requires { Room at (spec.line_text (Sheet.refusal_line (record { number = number; offset = offset }))) out.old }
    ensures { Put at (spec.line_text (Sheet.refusal_line (record { number = number; offset = offset }))) out.old out.new result }
{
    let after_number = text::put_labelled(b"refused ", number as u64, at, out);
    let after_place = text::put_labelled(b" at ", offset as u64, after_number, out);
    text::put(b"\n", after_place, out)
}

// The index line of a sheet that is not clean, without its end.
fn put_unclean(k: u16, edge: u16, at: usize, out: &mut [u8]) -> usize
    requires { Room at (spec.mark_text (Mark.Unclean k edge)) out.old }
    ensures { Put at (spec.mark_text (Mark.Unclean k edge)) out.old out.new result }
{
    let after_number = text::put_labelled(b"index record ", k as u64, at, out);
    text::put_labelled(b" arrow ", edge as u64, after_number, out)
}

fn put_mark(mark: Mark, at: usize, out: &mut [u8]) -> usize
    requires { Room at (spec.mark_text mark) out.old }
    ensures { Put at (spec.mark_text mark) out.old out.new result }
{
    match mark {
        Mark::Clean => text::put(b"index clean", at, out),
        Mark::Unclean { record, edge } => put_unclean(record, edge, at, out),
    }
}

pub(crate) fn put_index(mark: Mark, at: usize, out: &mut [u8]) -> usize
    requires { Room at (spec.line_text (Sheet.index_line mark)) out.old }
    ensures { Put at (spec.line_text (Sheet.index_line mark)) out.old out.new result }
{
    let after_mark = put_mark(mark, at, out);
    text::put(b"\n", after_mark, out)
}

// A sign set, after a space.
fn put_sign(set: u8, at: usize, out: &mut [u8]) -> usize
    requires { Room at (spec.labelled (spec.ascii " ") set) out.old }
    ensures { Put at (spec.labelled (spec.ascii " ") set) out.old out.new result }
{
    text::put_labelled(b" ", set as u64, at, out)
}

fn put_signs(signs: &[u8], at: usize, out: &mut [u8]) -> usize
    requires { Room at (flat_map (spec.labelled (spec.ascii " ")) signs.now) out.old }
    ensures { Put at (flat_map (spec.labelled (spec.ascii " ")) signs.now) out.old out.new result }
{
    let mut after = at;
    for set in signs {
        after = put_sign(*set, after, out);
    }
    after
}

fn put_record(k: u16, node: u16, signs: &[u8], at: usize, out: &mut [u8]) -> usize
    requires { Room at (spec.line_text (Sheet.record_line k node signs.now)) out.old }
    ensures { Put at (spec.line_text (Sheet.record_line k node signs.now)) out.old out.new result }
{
    let after_number = text::put_number(k as u64, at, out);
    let after_node = text::put_labelled(b" ", node as u64, after_number, out);
    let after_signs = put_signs(signs, after_node, out);
    text::put(b"\n", after_signs, out)
}

// The bytes of `count` records, each of two bytes of node and one for each name.
pub(crate) fn bytes_of(names: u16, count: u16) -> usize
    ensures { (result ≡ (2 + names) * count) × (result ≤ 4294967295) }
{
    (2 + names as usize) * count as usize
}

// Record `k` of a list.
fn put_record_of(list: &[u8], names: u16, k: u16, at: usize, out: &mut [u8]) -> usize
    requires { Room at (spec.line_text (line_at names list.now k)) out.old }
    ensures { Put at (spec.line_text (line_at names list.now k)) out.old out.new result }
{
    let from = bytes_of(names, k);
    let signs = validation::part(list, from + 2, names as usize);
    put_record(k, file::word_at(list, from), signs, at, out)
}

// The first `count` records of a list.
pub(crate) fn put_records(list: &[u8], names: u16, count: u16, at: usize, out: &mut [u8]) -> usize
    requires { Room at (records_text names list.now count) out.old }
    ensures { Put at (records_text names list.now count) out.old out.new result }
{
    let mut after = at;
    for k in 0..count {
        after = put_record_of(list, names, k, after, out);
    }
    after
}
