// A prepared program, in two lent arrays. Its code: the decoded entries of its expressions, the names' sizes and first cells, the counts of names and of arithmetic entries, and room for
// the set table.
// Its graph: the decoded commands, the edges as words, the links of each node's edges, and the counts of nodes and edges.

ghost use Rattle.std.specs.Prelude.{false, ◌≡◌, List, ℕ, ◌<◌, ◌+◌, ◌*◌, get_or, replicate};
ghost use Rattle.program.specs.Parts.Node;
ghost use Rattle.program.specs.Parts.Prepared as spec;

mod coding;
pub(crate) mod graphing;
mod linking;

use crate::{
    ActionNode, ArithNode, BooleanNode, CommandNode, Construction, Refusal, decoding, file,
    validation,
};

// The places of the code's sections: four words for each of 768 entries, 32 sizes, 33 first cells (the last is the number of all cells), two counts, and room for the set table, which a
// crate above puts there.
pub const CODE: usize = 3459;

pub(crate) const BOOLEAN: usize = 2048;

pub(crate) const SIZES: usize = 3072;

pub(crate) const CELLS: usize = 3104;

pub(crate) const CELLS_END: usize = 3136;

pub(crate) const NAMES: usize = 3137;

pub(crate) const ARITHMETIC: usize = 3138;

pub const TABLE: usize = 3139;

// The places of the graph's sections: four words for each of 256 commands and of 255 edges, the first edge of 129 nodes, the next edge of 255, two counts.
pub const GRAPH: usize = 2430;

pub(crate) const EDGE: usize = 1024;

pub(crate) const FIRST: usize = 2044;

pub(crate) const NEXT: usize = 2173;

pub(crate) const NODES: usize = 2428;

pub(crate) const EDGES: usize = 2429;

// The most entries of each table: any entry is below that.
pub const EXPRESSIONS: u16 = 512;

pub const CONDITIONS: u16 = 256;

pub const COMMANDS: u16 = 256;

// The most names, cells, nodes and edges; what stands for an edge where there is none is the number of the most edges.
pub const NAMES_MOST: u16 = 32;

pub const CELLS_MOST: usize = 512;

pub const NODES_MOST: u16 = 129;

// Not an Option: the links are words of a lent array, and a loop that goes on while an edge is below the count ends at this one too.
pub const NONE: u16 = 255;

// The cell from which on a program's numbers stand behind a memory.
pub const NUMBERS: u16 = 512;

// What stands for the cell of an entry that is no leaf: it is past the last number's.
pub const NO_CELL: u16 = 1024;

// The number of names.
pub fn name_count(code: &[u16; CODE]) -> usize
    ensures { result ≡ get_or code.now spec.name_count_place 0 }
{
    code[NAMES] as usize
}

// The size of a name: 0 for a variable.
pub fn size_of(code: &[u16; CODE], x: u16) -> u16
    ensures { result ≡ spec.size_in code.now x }
{
    if x < NAMES_MOST {
        code[SIZES + x as usize]
    } else {
        0
    }
}

// The first cell of a name.
pub fn first_cell(code: &[u16; CODE], x: u16) -> usize
    ensures { result ≡ spec.cell_in code.now x }
{
    if x < NAMES_MOST {
        code[CELLS + x as usize] as usize
    } else {
        0
    }
}

// The number of cells of a memory.
pub fn cell_count(code: &[u16; CODE]) -> usize
    ensures { result ≡ get_or code.now (spec.cell_place + spec.names_most) 0 }
{
    code[CELLS_END] as usize
}

// The number of arithmetic entries.
pub fn arithmetic_count(code: &[u16; CODE]) -> u16
    ensures { result ≡ get_or code.now spec.arithmetic_count_place 0 }
{
    code[ARITHMETIC]
}

// The number of nodes.
pub fn node_count(graph: &[u16; GRAPH]) -> u16
    ensures { result ≡ get_or graph.now spec.node_count_place 0 }
{
    graph[NODES]
}

// The number of edges.
pub fn edge_count(graph: &[u16; GRAPH]) -> u16
    ensures { result ≡ get_or graph.now spec.edge_count_place 0 }
{
    graph[EDGES]
}

// Number `k` of the four of an edge.
pub(crate) fn edge_word(graph: &[u16; GRAPH], e: u16, k: usize) -> u16
    requires { k < 4 }
    ensures { result ≡ spec.edge_in graph.now e k }
{
    if e < NONE {
        graph[EDGE + 4 * e as usize + k]
    } else {
        0
    }
}

// Where an edge comes from.
pub fn edge_source(graph: &[u16; GRAPH], e: u16) -> u16
    ensures { result ≡ spec.source_in graph.now e }
{
    edge_word(graph, e, 0)
}

// Where it goes to.
pub fn edge_target(graph: &[u16; GRAPH], e: u16) -> u16
    ensures { result ≡ spec.target_in graph.now e }
{
    edge_word(graph, e, 1)
}

// What a command does on an edge.
#[tactic(auto, unfolding(crate::specs::Parts::Prepared::performed))]
fn performed(node: CommandNode) -> ActionNode
    ensures { result ≡ spec.performed node }
{
    match node {
        CommandNode::Assign(x, a) => ActionNode::Assign(x, a),
        CommandNode::Store(x, i, a) => ActionNode::Store(x, i, a),
        _ => ActionNode::Nothing,
    }
}

// The guard of a guarded command, on an edge.
#[tactic(auto, unfolding(crate::specs::Parts::Prepared::guard_form))]
fn guard_of(node: CommandNode) -> ActionNode
    ensures { result ≡ spec.guard_form node }
{
    match node {
        CommandNode::Guarded(g, _) => ActionNode::Guard(g),
        _ => ActionNode::Nothing,
    }
}

// The action of an edge that is no guard's of the deterministic graph, decoded; of one that is, nothing. An edge's kind is a number, not an enum: it is a byte that C reads,
// and this is where it is told apart.
pub fn plain_action(graph: &[u16; GRAPH], e: u16) -> ActionNode
    ensures { spec.is_guard_node (spec.action_in graph.now e) ≡ false → result ≡ spec.action_in graph.now e }
{
    let kind = edge_word(graph, e, 2);
    let entry = edge_word(graph, e, 3);
    match kind {
        1 => performed(command_node(graph, COMMANDS, entry)),
        2 => ActionNode::Holds(entry),
        3 => ActionNode::Exit(entry),
        _ => ActionNode::Nothing,
    }
}

// The action of an edge, decoded.
pub fn action(graph: &[u16; GRAPH], e: u16) -> ActionNode
    ensures { result ≡ spec.action_in graph.now e }
{
    let kind = edge_word(graph, e, 2);
    if kind == 4 {
        let entry = edge_word(graph, e, 3);
        return guard_of(command_node(graph, COMMANDS, entry));
    }
    plain_action(graph, e)
}

// Whether an action is a guard's of the deterministic graph.
#[tactic(auto, unfolding(crate::specs::Parts::Prepared::is_guard_node))]
pub fn is_guard(action: ActionNode) -> bool
    ensures { result ≡ spec.is_guard_node action }
{
    matches!(action, ActionNode::Guard(_))
}

// Whether an edge is a guard's of the deterministic graph: its kind is looked at first, and tells of every other edge.
pub fn guards(graph: &[u16; GRAPH], e: u16) -> bool
    ensures { result ≡ spec.is_guard_node (spec.action_in graph.now e) }
{
    edge_word(graph, e, 2) == 4 && is_guard(action(graph, e))
}

// The lowest edge out of a node; NONE, where there is none.
pub fn first_edge(graph: &[u16; GRAPH], node: u16) -> u16
    ensures { result ≡ spec.first_in graph.now node }
{
    if node < NODES_MOST {
        graph[FIRST + node as usize]
    } else {
        NONE
    }
}

// The next edge out of the same node; NONE, where there is none.
pub fn next_edge(graph: &[u16; GRAPH], e: u16) -> u16
    ensures { result ≡ spec.next_in graph.now e }
{
    if e < NONE {
        graph[NEXT + e as usize]
    } else {
        NONE
    }
}

// What an entry of the arithmetic table is.
pub(crate) fn arith_at(code: &[u16; CODE], n: u16) -> ArithNode
    requires { n < spec.expressions_most }
    ensures { result ≡ spec.arith_in code.now n }
{
    let at = 4 * n as usize;
    decoding::arith_kind(code[at], code[at + 1], code[at + 2])
}

// What entry `n` of it is as a part of entry `bound`: one that is not lower is the number 0.
// This function and the two below it are no one generic function: they share one test, and a trait that told it the table, its size, the leaf and the decoder of each would be longer
// than the three.
pub fn arith_node(code: &[u16; CODE], bound: u16, n: u16) -> ArithNode
    ensures { (graph : List ℕ) → result ≡ Node.arith_form (spec.entries_in code.now graph) bound n }
{
    if bound <= n || EXPRESSIONS <= n {
        return ArithNode::Number(0);
    }
    arith_at(code, n)
}

// What entry `n` of the boolean table is as a part of entry `bound`: one that is not lower is true.
pub fn boolean_node(code: &[u16; CODE], bound: u16, n: u16) -> BooleanNode
    ensures { (graph : List ℕ) → result ≡ Node.boolean_form (spec.entries_in code.now graph) bound n }
{
    if bound <= n || CONDITIONS <= n {
        return BooleanNode::True;
    }
    let at = BOOLEAN + 4 * n as usize;
    decoding::boolean_kind(code[at], code[at + 1], code[at + 2])
}

// The same of the commands, with skip.
pub fn command_node(graph: &[u16; GRAPH], bound: u16, n: u16) -> CommandNode
    ensures { (code : List ℕ) → result ≡ Node.command_form (spec.entries_in code graph.now) bound n }
{
    if bound <= n || COMMANDS <= n {
        return CommandNode::Skip;
    }
    let at = 4 * n as usize;
    decoding::command_kind(graph[at], graph[at + 1], graph[at + 2], graph[at + 3])
}

// The value of the number at arithmetic entry `n`; 0, where it is none.
pub fn number_at(code: &[u16; CODE], n: u16) -> i32
    ensures { result ≡ spec.number_in code.now n }
{
    if EXPRESSIONS <= n {
        return 0;
    }
    match arith_at(code, n) {
        ArithNode::Number(z) => z,
        _ => 0,
    }
}

// The questions of a program file; where they are answered yes, its code and its graph by a construction, into two arrays of zeros.
fn fill(
    construction: Construction,
    program: &[u8],
    code: &mut [u16; CODE],
    graph: &mut [u16; GRAPH],
) -> Result<(), Refusal>
    requires { (code.old ≡ replicate spec.code_length 0) × (graph.old ≡ replicate spec.graph_length 0) }
    ensures { spec.PreparedFor construction program.now result code.new graph.new }
{
    validation::validate(program)?;
    let l = file::fit_layout(program);
    coding::put_code(program, l, code);
    graphing::put_graph(construction, program, l, graph);
    Ok(())
}

// The file's questions; where they are answered yes, the program's code and graph. What clears the arrays is small and stands in its callers, where their own zeros are then
// optimised away.
pub fn prepare(
    construction: Construction,
    program: &[u8],
    code: &mut [u16; CODE],
    graph: &mut [u16; GRAPH],
) -> Result<(), Refusal>
    ensures { spec.PreparedFor construction program.now result code.new graph.new }
{
    *code = [0u16; CODE];
    *graph = [0u16; GRAPH];
    fill(construction, program, code, graph)
}

// The same, and the links: for what goes from node to node.
pub fn prepare_linked(
    construction: Construction,
    program: &[u8],
    code: &mut [u16; CODE],
    graph: &mut [u16; GRAPH],
) -> Result<(), Refusal>
    ensures { spec.PreparedLinked construction program.now result code.new graph.new }
{
    *code = [0u16; CODE];
    *graph = [0u16; GRAPH];
    fill(construction, program, code, graph)?;
    linking::link(graph);
    Ok(())
}
