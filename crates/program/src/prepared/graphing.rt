// The program graph drawn into a prepared graph, four words for each edge, out of the commands that it has already.

ghost use Rattle.std.specs.Prelude.{◌≡◌, [], ◌∷◌, ◌+◌, ◌≤◌, length, replicate};
ghost use Rattle.program.specs.Parts.DrawingParts.{over_at};
ghost use Rattle.program.specs.File;
ghost use Rattle.program.specs.Graph;
ghost use Rattle.program.specs.Parts.GraphingParts as parts;
ghost use Rattle.program.specs.Parts.Prepared.{graph_length, entries_in};
ghost use Rattle.program.specs.Parts.Preparing.{GraphIn};
ghost use Rattle.program.specs.Questions;

use crate::prepared::{EDGE, EDGES, GRAPH, NODES, coding};
use crate::{CommandNode, Construction, Jump, Layout, prepared};

// What a pen's part that counts edges is counted in: above it the next edge, below it the next fresh node.
const PEN: u32 = 65536;

// An edge's four words, at a place that has room for them. One copy of an array of the four was tried: it goes through the stack, and is slower than four stores.
fn put_edge(words: &mut [u16], at: usize, source: u16, target: u16, kind: u16, entry: u16)
    requires { at + 4 ≤ length words.old }
    ensures { words.new ≡ over_at at (source ∷ target ∷ kind ∷ entry ∷ []) words.old }
{
    words[at] = source;
    words[at + 1] = target;
    words[at + 2] = kind;
    words[at + 3] = entry;
}

// The same, as a part of a drawing. How far a drawing has come is one number, the pen: 65536 times the next edge, and the next fresh node. A struct would go through memory at each level.
fn draw_edge(
    graph: &mut [u16; GRAPH],
    pen: u32,
    source: u16,
    target: u16,
    kind: u16,
    entry: u16,
) -> u32
    requires { parts.Room (parts.edge_strip source target kind entry (parts.fresh_of pen)) (parts.next_of pen) }
    ensures { parts.Drew (parts.edge_strip source target kind entry (parts.fresh_of pen)) (parts.next_of pen) graph.old graph.new result }
{
    put_edge(
        graph,
        EDGE + 4 * (pen / PEN) as usize,
        source,
        target,
        kind,
        entry,
    );
    pen + PEN
}

// What stands around a command: the nodes from which and to which the innermost do goes, and the construction.
#[derive(Clone, Copy)]
struct Around {
    first: u16,
    last: u16,
    construction: Construction,
}

// Where a jump goes from inside a do.
fn landing(jump: Jump, around: &Around) -> u16
    ensures { result ≡ Graph.landing (Graph.within around.now.first around.now.last) jump }
{
    match jump {
        Jump::Break => around.last,
        Jump::Continue => around.first,
    }
}

// The edge of a guard, of guarded entry `n` and boolean entry `g`.
fn draw_guard(
    graph: &mut [u16; GRAPH],
    pen: u32,
    source: u16,
    target: u16,
    n: u16,
    g: u16,
    construction: Construction,
) -> u32
    requires { parts.Room (parts.edge_strip source target (parts.guard_kind construction) (parts.guard_entry construction n g) (parts.fresh_of pen)) (parts.next_of pen) }
    ensures { parts.Drew (parts.edge_strip source target (parts.guard_kind construction) (parts.guard_entry construction n g) (parts.fresh_of pen)) (parts.next_of pen) graph.old graph.new result }
{
    match construction {
        Construction::Nondeterministic => draw_edge(graph, pen, source, target, 2, g),
        Construction::Deterministic => draw_edge(graph, pen, source, target, 4, n),
    }
}

// The edges of command entry `n`, a part of entry `bound`, from node `a` to node `b`. Earlier guards make no difference to an edge's numbers. What stands around is lent: handed on by
// value it is copied at each level, and a last call could not become a loop.
fn draw_part(
    graph: &mut [u16; GRAPH],
    bound: u16,
    n: u16,
    a: u16,
    b: u16,
    pen: u32,
    around: &Around,
) -> u32
    requires { parts.Room (parts.strip around.now.construction (Graph.within around.now.first around.now.last) (parts.part_at (entries_in [] graph.old) bound n) a b (parts.fresh_of pen)) (parts.next_of pen) }
    ensures { parts.Drew (parts.strip around.now.construction (Graph.within around.now.first around.now.last) (parts.part_at (entries_in [] graph.old) bound n) a b (parts.fresh_of pen)) (parts.next_of pen) graph.old graph.new result }
{
    let fresh = (pen % PEN) as u16;
    let node = prepared::command_node(graph, bound, n);
    match node {
        CommandNode::Skip => draw_edge(graph, pen, a, b, 1, n),
        CommandNode::Assign(_, _) => draw_edge(graph, pen, a, b, 1, n),
        CommandNode::Store(_, _, _) => draw_edge(graph, pen, a, b, 1, n),
        CommandNode::Sequence(p, q) => {
            let front = draw_part(graph, n, p, a, fresh, pen + 1, around);
            draw_part(graph, n, q, fresh, b, front, around)
        }
        CommandNode::Conditional(p) => draw_part(graph, n, p, a, b, pen, around),
        CommandNode::Iteration(p) => {
            let inside = Around {
                first: a,
                last: b,
                ..*around
            };
            let body = draw_part(graph, n, p, a, a, pen, &inside);
            draw_edge(graph, body, a, b, 3, p)
        }
        CommandNode::Guarded(g, p) => {
            let guard = draw_guard(graph, pen + 1, a, fresh, n, g, around.construction);
            draw_part(graph, n, p, fresh, b, guard, around)
        }
        CommandNode::Choice(p, q) => {
            let front = draw_part(graph, n, p, a, b, pen, around);
            draw_part(graph, n, q, a, b, front, around)
        }
        CommandNode::Jump(jump) => draw_edge(graph, pen, a, landing(jump, around), 1, n),
    }
}

// The graph of a well-formed program with this layout, by a construction, into an array of zeros: its commands, the edges drawn out of them, and the counts.
pub(crate) fn put_graph(
    construction: Construction,
    program: &[u8],
    l: Layout,
    graph: &mut [u16; GRAPH],
)
    requires { (Questions.validity program.now ≡ Ok tt) × (l ≡ File.layout_of program.now) × (graph.old ≡ replicate graph_length 0) }
    ensures { GraphIn construction program.now graph.new }
{
    let commands = l.commands;
    coding::put_table(program, commands, graph, 0);
    let count = commands.count;
    let around = Around {
        first: 0,
        last: 1,
        construction,
    };
    let pen = draw_part(graph, count, count - 1, 0, 1, 2, &around);
    graph[NODES] = (pen % PEN) as u16;
    graph[EDGES] = (pen / PEN) as u16;
}
