// The program graph written as bytes, seven for each edge.

ghost use Rattle.std.specs.Prelude.{◌≡◌, ◌≤◌, ◌+◌, ◌*◌, length, get_or};
ghost use Rattle.program.specs.Drawing as spec;
ghost use Rattle.program.specs.Parts.DrawingParts as parts;
ghost use Rattle.program.specs.Graph;
ghost use Rattle.program.specs.Parts.Prepared;
ghost use Rattle.program.specs.Questions;

use crate::prepared::{GRAPH, graphing};
use crate::{Construction, Drawn, EdgeBytes, Refusal, file, prepared, validation};

// The bytes of the most edges, seven for each of 255.
pub const BYTES: usize = 1785;

fn put_word(buffer: &mut [u8], at: usize, x: u16)
    requires { at + 2 ≤ length buffer.old }
    ensures { buffer.new ≡ parts.over_at at (Graph.word_bytes x) buffer.old }
{
    buffer[at..at + 2].copy_from_slice(&x.to_be_bytes());
}

// An edge's seven bytes, at a place that has room for them.
fn put_edge(buffer: &mut [u8], at: usize, source: u16, target: u16, kind: u8, entry: u16)
    requires { at + 7 ≤ length buffer.old }
    ensures { buffer.new ≡ parts.over_at at (parts.edge_row source target kind entry) buffer.old }
{
    put_word(buffer, at, source);
    put_word(buffer, at + 2, target);
    buffer[at + 4] = kind;
    put_word(buffer, at + 5, entry);
}

// The bytes of a prepared graph's edges, seven for each, over the start of a buffer.
fn put_bytes(graph: &[u16; GRAPH], buffer: &mut [u8])
    requires { 7 * get_or graph.now Prepared.edge_count_place 0 ≤ length buffer.old }
    ensures { buffer.new ≡ spec.over (parts.rows_in graph.now (get_or graph.now Prepared.edge_count_place 0)) buffer.old }
{
    let count = prepared::edge_count(graph);
    for e in 0..count {
        let source = prepared::edge_word(graph, e, 0);
        let target = prepared::edge_word(graph, e, 1);
        let kind = (prepared::edge_word(graph, e, 2) % 256) as u8;
        let entry = prepared::edge_word(graph, e, 3);
        put_edge(buffer, 7 * e as usize, source, target, kind, entry);
    }
}

// Question 13 of a well-formed program. Its graph is drawn aside first: a buffer that is too short stays as it is.
fn draw_fit(construction: Construction, s: &[u8], buffer: &mut [u8]) -> Result<Drawn, Refusal>
    requires { Questions.validity s.now ≡ Ok tt }
    ensures { (result ≡ spec.drawn construction s.now buffer.old)
        × (buffer.new ≡ spec.drawn_buffer construction s.now buffer.old) }
{
    let mut graph = [0u16; GRAPH];
    let l = file::fit_layout(s);
    graphing::put_graph(construction, s, l, &mut graph);
    let edges = prepared::edge_count(&graph);
    let end = 7 * edges as usize;
    validation::ask(end <= buffer.len(), 13, 0)?;
    put_bytes(&graph, buffer);
    Ok(Drawn {
        nodes: prepared::node_count(&graph),
        edges,
    })
}

// Draws the graph of a program file by a construction: the edges' bytes over the start of the buffer.
pub fn draw_on(construction: Construction, s: &[u8], buffer: &mut [u8]) -> Result<Drawn, Refusal>
    ensures value { (result ≡ spec.drawn construction s.now buffer.old)
        × (buffer.new ≡ spec.drawn_buffer construction s.now buffer.old) }
    ensures numbers { spec.drawn_numbers result ≡ spec.drawing_row construction s.now buffer.old }
{
    validation::validate(s)?;
    draw_fit(construction, s, buffer)
}

// The construction where the caller names none.
pub fn unnamed() -> Construction
    ensures { result ≡ Graph.unnamed }
{
    Construction::Nondeterministic
}

// The one that a number names: 1 document 01's, 2 the deterministic one; any other names none.
pub fn named(number: u32) -> Construction
    ensures { result ≡ Graph.named number }
{
    match number {
        1 => Construction::Nondeterministic,
        2 => Construction::Deterministic,
        _ => unnamed(),
    }
}

// Draws the graph of a program file, where the caller names no construction: a public name of its own, which stays.
pub fn draw(s: &[u8], buffer: &mut [u8]) -> Result<Drawn, Refusal>
    ensures value { (result ≡ spec.drawn Graph.unnamed s.now buffer.old)
        × (buffer.new ≡ spec.drawn_buffer Graph.unnamed s.now buffer.old) }
    ensures numbers { spec.drawn_numbers result ≡ spec.drawing_row Graph.unnamed s.now buffer.old }
{
    draw_on(unnamed(), s, buffer)
}

// Edge `k` of such bytes. Where all of it is there, one test serves its seven.
pub fn edge_at(bytes: &[u8], k: u16) -> EdgeBytes
    ensures { result ≡ spec.edge_read bytes.now k }
{
    let at = 7 * k as usize;
    if at + 7 <= bytes.len() {
        return EdgeBytes {
            source: file::whole_word(bytes, at),
            target: file::whole_word(bytes, at + 2),
            kind: bytes[at + 4],
            entry: file::whole_word(bytes, at + 5),
        };
    }
    EdgeBytes {
        source: file::word_at(bytes, at),
        target: file::word_at(bytes, at + 2),
        kind: file::byte_at(bytes, at + 4),
        entry: file::word_at(bytes, at + 5),
    }
}
