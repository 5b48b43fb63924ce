// A solution computed.

ghost use Rattle.std.specs.Prelude.{◌≡◌, ℕ, ◌+◌, ◌/◌, ◌%◌, ◌<◌, ◌≤◌, min, false, List, [], ◌∷◌, map, length, set, if◌then◌else◌, slice_index_or};
ghost use mathlib.Core.List.{foldl};
ghost use Rattle.program.specs.Graph.{Graph, edge_at, unnamed};
ghost use Rattle.program.specs.Parts.Prepared.{Prepared, action_in, is_guard_node};
ghost use Rattle.semantics.specs.Parts.Selecting.{Opens};
ghost use Rattle.analysis.specs.Parts.Changing.{digits_end, sets_of};
ghost use Rattle.analysis.specs.Parts.Judging.{ReadInto, names_in};
ghost use Rattle.analysis.specs.Records as records;
ghost use Rattle.analysis.specs.Solver as spec;
ghost use Rattle.analysis.specs.Parts.Solving as parts;
ghost use Rattle.analysis.specs.Parts.Tabled.{Ready};

use crate::evaluator::{Machine, results};
use crate::membership::{INDEX, Memory};
use crate::{Change, RecordList, Solved, Solving, Unreadable, lists, membership, set_table};
use program::prepared::{CODE, GRAPH, NAMES_MOST};
use program::{ActionNode, Construction, drawing, file, prepared, validation};

// How far the list has come: how many records were found, how many there is room for, and whether one had none.
// A full list is no error on the way: what was found stays, and is handed back with its count.
#[derive(Clone, Copy)]
struct Progress {
    count: usize,
    room: usize,
    full: bool,
}

// A changed record offered: appended, where it isn't listed yet and there is room.
fn offer(
    index: &mut [u16; INDEX],
    buffer: &mut [u8],
    memory: &Memory<'_>,
    change: Change,
    p: Progress,
) -> Progress
    requires { parts.Growing (2 + memory.now.names) buffer.old index.old p }
    ensures extended { parts.Extended (2 + memory.now.names) buffer.old p buffer.new index.new result }
    ensures offers { (ns ρ : List ℕ) (room : ℕ) → length ns ≡ memory.now.names → ReadInto ρ memory.now.rho.now memory.now.names → p.room ≡ room → change.node < 65536
        → parts.found_in (2 + memory.now.names) buffer.new result
        ≡ spec.offer ns room change.node (parts.found_in (2 + memory.now.names) buffer.old p) (set ρ change.name change.set) }
{
    if p.full {
        return p;
    }
    let h = membership::hash_changed(index, *memory, change);
    if membership::find(index, buffer, *memory, change, h) {
        return p;
    }
    if p.count == p.room {
        return Progress { full: true, ..p };
    }
    lists::put_changed(buffer, (2 + memory.names) * p.count, *memory, change);
    membership::enter(index, p.count, h);
    Progress {
        count: p.count + 1,
        room: p.room,
        full: false,
    }
}

// The results of an edge offered at its target, result by result.
fn offer_results(
    index: &mut [u16; INDEX],
    buffer: &mut [u8],
    memory: &Memory<'_>,
    node: u16,
    found: u64,
    p: Progress,
) -> Progress
    requires { parts.Growing (2 + memory.now.names) buffer.old index.old p × (found / 64 < digits_end) }
    ensures extended { parts.Extended (2 + memory.now.names) buffer.old p buffer.new index.new result }
    ensures offers { (ns ρ : List ℕ) (room : ℕ) → length ns ≡ memory.now.names → ReadInto ρ memory.now.rho.now memory.now.names → p.room ≡ room
        → parts.found_in (2 + memory.now.names) buffer.new result
        ≡ foldl (spec.offer ns room node) (parts.found_in (2 + memory.now.names) buffer.old p) (map (set ρ (found % 64)) (sets_of (found / 64))) }
{
    let name = results::name_of(found);
    let mut progress = p;
    let mut sets = results::sets_of(found);
    while 0 < sets {
        let change = Change {
            node,
            name,
            set: results::first_set(sets),
        };
        progress = offer(index, buffer, memory, change, progress);
        sets = results::other_sets(sets);
    }
    progress
}

// What follows an abstract memory along an edge that is no guard's of the deterministic graph, offered.
fn offer_edge(
    machine: Machine<'_>,
    index: &mut [u16; INDEX],
    buffer: &mut [u8],
    memory: &Memory<'_>,
    e: u16,
    action: ActionNode,
    p: Progress,
) -> Progress
    requires { parts.Growing (2 + names_in machine.code.now) buffer.old index.old p × (memory.now.names ≡ names_in machine.code.now) }
    ensures extended { parts.Extended (2 + names_in machine.entry.code.now) buffer.old p buffer.new index.new result }
    ensures offers { (ns : List ℕ) (g : Graph) (ρ : List ℕ) (room : ℕ) → Prepared ns g machine.entry.code.now machine.entry.graph.now → ReadInto ρ memory.now.rho.now (length ns)
        → p.room ≡ room → e < length g.edges → action ≡ action_in machine.entry.graph.now e → is_guard_node action ≡ false
        → parts.found_in (2 + names_in machine.entry.code.now) buffer.new result ≡ spec.offer_results ns g room ρ (parts.found_in (2 + names_in machine.entry.code.now) buffer.old p) e }
{
    let found = machine.results(memory.rho, action);
    let node = prepared::edge_target(machine.graph, e);
    offer_results(index, buffer, memory, node, found, p)
}

// The abstract memory itself offered at the target of an edge, where the edge's own guard may hold.
fn offer_guard(
    machine: Machine<'_>,
    index: &mut [u16; INDEX],
    buffer: &mut [u8],
    memory: &Memory<'_>,
    e: u16,
    holds: bool,
    p: Progress,
) -> Progress
    requires { parts.Growing (2 + names_in machine.code.now) buffer.old index.old p × (memory.now.names ≡ names_in machine.code.now) }
    ensures extended { parts.Extended (2 + names_in machine.entry.code.now) buffer.old p buffer.new index.new result }
    ensures offers { (ns : List ℕ) (g : Graph) (ρ : List ℕ) (room : ℕ) → Prepared ns g machine.entry.code.now machine.entry.graph.now → ReadInto ρ memory.now.rho.now (length ns)
        → p.room ≡ room → e < length g.edges
        → parts.found_in (2 + names_in machine.entry.code.now) buffer.new result
        ≡ foldl (spec.offer ns room (edge_at g e).target) (parts.found_in (2 + names_in machine.entry.code.now) buffer.old p) (if holds then ρ ∷ [] else []) }
{
    let node = prepared::edge_target(machine.graph, e);
    let found = results::unchanged(holds);
    offer_results(index, buffer, memory, node, found, p)
}

// What follows an abstract memory at a node of the deterministic graph whose lowest edge is a guard's, offered edge by edge: along an edge where its own guard may
// hold, up to a guard that may not fail.
fn offer_guarded(
    machine: Machine<'_>,
    index: &mut [u16; INDEX],
    buffer: &mut [u8],
    memory: &Memory<'_>,
    first: u16,
    p: Progress,
) -> Progress
    requires { parts.Growing (2 + names_in machine.code.now) buffer.old index.old p × (memory.now.names ≡ names_in machine.code.now) }
    ensures extended { parts.Extended (2 + names_in machine.entry.code.now) buffer.old p buffer.new index.new result }
    ensures offers { (ns : List ℕ) (g : Graph) (ρ : List ℕ) (room node : ℕ) → Prepared ns g machine.entry.code.now machine.entry.graph.now → ReadInto ρ memory.now.rho.now (length ns)
        → p.room ≡ room → Opens machine.entry.graph.now node first
        → parts.found_in (2 + names_in machine.entry.code.now) buffer.new result
        ≡ parts.along (spec.offer_results ns g room ρ) g node (length g.edges) (parts.found_in (2 + names_in machine.entry.code.now) buffer.old p) }
{
    let count = prepared::edge_count(machine.graph);
    let mut progress = p;
    let mut e = first;
    while e < count {
        let t = machine.own_truths(memory.rho, e);
        progress = offer_guard(machine, index, buffer, memory, e, t.holds, progress);
        if !t.fails {
            return progress;
        }
        e = prepared::next_edge(machine.graph, e);
    }
    progress
}

// What follows an abstract memory along the edges out of a node, offered edge by edge.
fn offer_successors(
    machine: Machine<'_>,
    index: &mut [u16; INDEX],
    buffer: &mut [u8],
    memory: &Memory<'_>,
    node: u16,
    p: Progress,
) -> Progress
    requires { parts.Growing (2 + names_in machine.code.now) buffer.old index.old p × (memory.now.names ≡ names_in machine.code.now) }
    ensures extended { parts.Extended (2 + names_in machine.entry.code.now) buffer.old p buffer.new index.new result }
    ensures offers { (ns : List ℕ) (g : Graph) (ρ : List ℕ) (room : ℕ) → Prepared ns g machine.entry.code.now machine.entry.graph.now → ReadInto ρ memory.now.rho.now (length ns)
        → p.room ≡ room
        → parts.found_in (2 + names_in machine.entry.code.now) buffer.new result
        ≡ parts.along (spec.offer_results ns g room ρ) g node (length g.edges) (parts.found_in (2 + names_in machine.entry.code.now) buffer.old p) }
{
    let count = prepared::edge_count(machine.graph);
    let mut progress = p;
    let mut e = prepared::first_edge(machine.graph, node);
    while e < count {
        if prepared::guards(machine.graph, e) {
            return offer_guarded(machine, index, buffer, memory, e, progress);
        }
        let action = prepared::plain_action(machine.graph, e);
        progress = offer_edge(machine, index, buffer, memory, e, action, progress);
        e = prepared::next_edge(machine.graph, e);
    }
    progress
}

// What follows record k of the list, offered.
fn offer_from(
    machine: Machine<'_>,
    index: &mut [u16; INDEX],
    buffer: &mut [u8],
    k: usize,
    p: Progress,
) -> Progress
    requires { parts.Growing (2 + names_in machine.code.now) buffer.old index.old p × (k < p.count) }
    ensures extended { parts.Extended (2 + names_in machine.entry.code.now) buffer.old p buffer.new index.new result }
    ensures offers { (ns : List ℕ) (g : Graph) (room : ℕ) → Prepared ns g machine.entry.code.now machine.entry.graph.now → p.room ≡ room
        → parts.found_in (2 + names_in machine.entry.code.now) buffer.new result
        ≡ spec.offer_successors ns g room (slice_index_or (parts.found_in (2 + names_in machine.entry.code.now) buffer.old p).records k []) (parts.found_in (2 + names_in machine.entry.code.now) buffer.old p) }
{
    let names = prepared::name_count(machine.code);
    let at = (2 + names) * k;
    let node = file::word_at(buffer, at);
    let mut rho = [0u8; 32];
    lists::read_memory(&mut rho, buffer, at + 2, names);
    let weight = membership::weight(index, buffer, at + 2, names);
    let memory = Memory {
        names,
        rho: &rho,
        weight,
    };
    offer_successors(machine, index, buffer, &memory, node, p)
}

// Down the list: what follows each record is offered, until one has no room.
fn descend(
    machine: Machine<'_>,
    index: &mut [u16; INDEX],
    buffer: &mut [u8],
    p: Progress,
) -> Progress
    requires { parts.Growing (2 + names_in machine.code.now) buffer.old index.old p }
    ensures extended { parts.Extended (2 + names_in machine.entry.code.now) buffer.old p buffer.new index.new result }
    ensures offers { (ns : List ℕ) (g : Graph) (room : ℕ) → Prepared ns g machine.entry.code.now machine.entry.graph.now → p.room ≡ room
        → parts.found_in (2 + names_in machine.entry.code.now) buffer.new result ≡ spec.descend room ns g room 0 (parts.found_in (2 + names_in machine.entry.code.now) buffer.old p) }
{
    let mut progress = p;
    let mut k: usize = 0;
    // no `for` over the records: the list grows on the way, so their count is asked for at each turn
    while k < progress.count && !progress.full {
        progress = offer_from(machine, index, buffer, k, progress);
        k += 1;
    }
    progress
}

// The records of a start list offered at node 0.
fn offer_initial(
    index: &mut [u16; INDEX],
    buffer: &mut [u8],
    names: usize,
    initial: &[u8],
    p: Progress,
) -> Progress
    requires { parts.Growing (2 + names) buffer.old index.old p × (0 < names) }
    ensures extended { parts.Extended (2 + names) buffer.old p buffer.new index.new result }
    ensures offers { (ns : List ℕ) (room : ℕ) → length ns ≡ names → p.room ≡ room
        → parts.found_in (2 + names) buffer.new result
        ≡ foldl (spec.offer ns room 0) (parts.found_in (2 + names) buffer.old p) (records.records_of (records.initial_width ns) initial.now) }
{
    let count = initial.len() / names;
    let mut progress = p;
    for k in 0..count {
        let at = names * k;
        let mut rho = [0u8; 32];
        lists::read_memory(&mut rho, initial, at, names);
        let weight = membership::weight(index, initial, at, names);
        let change = Change {
            node: 0,
            name: NAMES_MOST,
            set: 0,
        };
        let memory = Memory {
            names,
            rho: &rho,
            weight,
        };
        progress = offer(index, buffer, &memory, change, progress);
    }
    progress
}

// Nothing found yet; there is room for a buffer's whole records, at most 4,096.
fn nothing_in(bytes: usize, names: usize) -> Progress
    requires { names ≤ 32 }
    ensures { result ≡ record { count = 0; room = min 4096 (bytes / (2 + names)); full = false } }
{
    let whole = bytes / (2 + names);
    Progress {
        count: 0,
        room: whole.min(lists::MOST),
        full: false,
    }
}

// The reply of a list found.
fn replied(found: Progress) -> Solved
    requires { found.count ≤ 4096 }
    ensures { result ≡ record { solving = spec.finished_or found.full; count = found.count } }
{
    let count = found.count as u16;
    if found.full {
        Solved {
            solving: Solving::Full,
            count,
        }
    } else {
        Solved {
            solving: Solving::Finished,
            count,
        }
    }
}

// The list of a start list of whole, well-formed records, and its reply.
fn solve_formed(
    code: &[u16; CODE],
    graph: &[u16; GRAPH],
    initial: &[u8],
    buffer: &mut [u8],
) -> Solved
    requires { Ready code.now graph.now }
    ensures { (ns : List ℕ) (g : Graph) → Prepared ns g code.now graph.now
        → parts.Answered (Ok tt) (Ok tt) (spec.solution ns g initial.now (spec.room_of ns (length buffer.old))) buffer.old buffer.new (Ok result) }
{
    let names = prepared::name_count(code);
    let mut index = [0u16; INDEX];
    membership::put_factors(&mut index);
    let none = nothing_in(buffer.len(), names);
    let first = offer_initial(&mut index, buffer, names, initial, none);
    replied(descend(Machine { code, graph }, &mut index, buffer, first))
}

// Question 16, then 17, then a solution, over a prepared program.
fn solve_prepared(
    code: &[u16; CODE],
    graph: &[u16; GRAPH],
    initial: &[u8],
    buffer: &mut [u8],
) -> Result<Solved, Unreadable>
    requires { Ready code.now graph.now }
    ensures { (ns : List ℕ) (g : Graph) → Prepared ns g code.now graph.now
        → parts.Answered (records.initial_whole ns initial.now) (records.initial_formed ns initial.now)
        (spec.solution ns g initial.now (spec.room_of ns (length buffer.old))) buffer.old buffer.new result }
{
    let names = prepared::name_count(code);
    validation::ask(lists::whole(initial, names), 16, 0)?;
    lists::readable(RecordList::Initial, lists::initial_formed(code, initial))?;
    Ok(solve_formed(code, graph, initial, buffer))
}

// A solution of a program and a start list on the graph by a construction: through the start records at node 0, then down the list, appending what isn't listed yet.
pub fn solve_on(
    construction: Construction,
    program: &[u8],
    initial: &[u8],
    buffer: &mut [u8],
) -> Result<Solved, Unreadable>
    ensures value { (result ≡ spec.solved construction program.now initial.now buffer.old)
        × (buffer.new ≡ spec.solved_buffer construction program.now initial.now buffer.old) }
    ensures numbers { spec.solved_numbers result ≡ spec.solver_row construction program.now initial.now buffer.old }
{
    let mut code = [0u16; CODE];
    let mut graph = [0u16; GRAPH];
    prepared::prepare_linked(construction, program, &mut code, &mut graph)?;
    set_table::put(&mut code);
    solve_prepared(&code, &graph, initial, buffer)
}

// The same, where the caller names no construction: a public name of its own, which stays.
pub fn solve(program: &[u8], initial: &[u8], buffer: &mut [u8]) -> Result<Solved, Unreadable>
    ensures value { (result ≡ spec.solved unnamed program.now initial.now buffer.old)
        × (buffer.new ≡ spec.solved_buffer unnamed program.now initial.now buffer.old) }
    ensures numbers { spec.solved_numbers result ≡ spec.solver_row unnamed program.now initial.now buffer.old }
{
    solve_on(drawing::unnamed(), program, initial, buffer)
}
