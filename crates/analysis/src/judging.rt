// A candidate solution judged.

ghost use Rattle.std.specs.Prelude.{◌≡◌, ℕ, ◌+◌, ◌/◌, ◌%◌, ◌<◌, ◌≤◌, true, false, ◌&&◌, List, [], ◌∷◌, map, length, set, if◌then◌else◌, slice_index};
ghost use Rattle.program.specs.File;
ghost use Rattle.program.specs.Graph;
ghost use Rattle.program.specs.Parts.Prepared;
ghost use Rattle.semantics.specs.Parts.Selecting;
ghost use Rattle.analysis.specs.Parts.Changing;
ghost use Rattle.analysis.specs.Parts.Counted.{ordered_prop};
ghost use Rattle.analysis.specs.Parts.Judging as parts;
ghost use Rattle.analysis.specs.Records;
ghost use Rattle.analysis.specs.Soundness;
ghost use Rattle.analysis.specs.Parts.Tabled;
ghost use Rattle.analysis.specs.Verdict as spec;

use crate::evaluator::{Machine, results};
use crate::membership::{INDEX, Memory};
use crate::{Change, Mark, RecordList, Spot, Unreadable, Verdict, lists, membership, set_table};
use program::prepared::{CODE, GRAPH, NAMES_MOST};
use program::{Construction, drawing, file, prepared, validation};

// What is looked for, in the records of a solution and the edges out of their nodes: 42, or the index mark. The index is read for 42 alone.
// A trait of two types or a closure would be no plainer: the definition `picks` has both cases too, and the loop over records is one for both as it is.
#[derive(Clone, Copy)]
enum Query {
    MissingResult,
    NegativeIndex,
}

// Whether a query is handed over at an edge: 42 is, at a guard's of the deterministic graph, whose results depend on the guards before it.
fn handed_over(query: Query, graph: &[u16; GRAPH], e: u16) -> bool
    ensures { result ≡ parts.handed_over query (Prepared.action_in graph.now e) }
{
    match query {
        Query::MissingResult => prepared::guards(graph, e),
        Query::NegativeIndex => false,
    }
}

// An abstract memory with its weight, and a solution, some of whose records are indexed, in which it is looked for with one name changed. A method borrows it: it is seven words,
// more than a call hands on in registers.
#[derive(Clone, Copy)]
struct Lookup<'a> {
    index: &'a [u16; INDEX],
    solution: &'a [u8],
    names: usize,
    rho: &'a [u8; 32],
    weight: u32,
    ghost bytes: { (i : ℕ) → slice_index solution.now i < 256 },
    ghost ordered: { parts.Ordered names solution.now index.now rho.now weight } by { ordered_prop names solution.now index.now rho.now weight },
}

impl Lookup<'_> {
    // Whether the solution has a changed record.
    fn listed(&self, change: Change) -> bool
        ensures { (ns ρ : List ℕ) → length ns ≡ self.now.names → parts.Filled self.now.names self.now.solution.now self.now.index.now → parts.ReadInto ρ self.now.rho.now self.now.names
            → result ≡ Records.has_at ns self.now.solution.now change.node (set ρ change.name change.set) }
    {
        let memory = Memory {
            names: self.names,
            rho: self.rho,
            weight: self.weight,
        };
        let h = membership::hash_changed(self.index, memory, change);
        membership::find(self.index, self.solution, memory, change, h)
    }

    // Whether one of the results of an edge is missing at its target.
    fn any_missing(&self, node: u16, found: u64) -> bool
        requires { found / 64 < Changing.digits_end }
        ensures { (ns ρ : List ℕ) → length ns ≡ self.now.names → parts.Filled self.now.names self.now.solution.now self.now.index.now → parts.ReadInto ρ self.now.rho.now self.now.names
            → result ≡ parts.any_missing ns self.now.solution.now node (map (set ρ (found % 64)) (Changing.sets_of (found / 64))) }
    {
        let name = results::name_of(found);
        let mut sets = results::sets_of(found);
        while 0 < sets {
            let change = Change {
                node,
                name,
                set: results::first_set(sets),
            };
            if !self.listed(change) {
                return true;
            }
            sets = results::other_sets(sets);
        }
        false
    }

    // Whether a query picks the abstract memory and an edge, at which it is not handed over.
    fn picked(&self, query: Query, machine: Machine<'_>, e: u16) -> bool
        ensures { (ns : List ℕ) (g : Graph.Graph) (ρ : List ℕ) → length ns ≡ self.now.names
            → parts.Searched ns g machine.entry.code.now machine.entry.graph.now query self.now.solution.now self.now.index.now
            → parts.ReadInto ρ self.now.rho.now (length ns) → e < length g.edges → parts.handed_over query (Prepared.action_in machine.entry.graph.now e) ≡ false
            → result ≡ parts.picks ns g self.now.solution.now query ρ e }
    {
        match query {
            Query::MissingResult => {
                let action = prepared::plain_action(machine.graph, e);
                let found = machine.results(self.rho, action);
                let node = prepared::edge_target(machine.graph, e);
                self.any_missing(node, found)
            }
            Query::NegativeIndex => {
                let action = prepared::action(machine.graph, e);
                machine.may_be_negative(self.rho, action)
            }
        }
    }

    // Whether the abstract memory itself is missing at the target of an edge, where the edge's own guard may hold.
    fn guard_missing(&self, machine: Machine<'_>, e: u16, holds: bool) -> bool
        ensures { (ns : List ℕ) (g : Graph.Graph) (ρ : List ℕ) → length ns ≡ self.now.names
            → parts.Searched ns g machine.entry.code.now machine.entry.graph.now Query.MissingResult self.now.solution.now self.now.index.now
            → parts.ReadInto ρ self.now.rho.now (length ns) → e < length g.edges
            → result ≡ parts.any_missing ns self.now.solution.now (Graph.edge_at g e).target (if holds then ρ ∷ [] else []) }
    {
        if holds {
            let node = prepared::edge_target(machine.graph, e);
            // no name has this number: nothing is changed
            let change = Change {
                node,
                name: NAMES_MOST,
                set: 0,
            };
            return !self.listed(change);
        }
        false
    }

    // 42 at a node of the deterministic graph whose lowest edge is a guard's: the first edge along which a result is missing. An edge has its own guard's results where
    // each guard before it may fail, and none where one may not; so each guard is worked out once.
    fn first_missing(&self, machine: Machine<'_>, first: u16) -> Option<u16>
        ensures { (ns : List ℕ) (g : Graph.Graph) (ρ : List ℕ) (node : ℕ) → length ns ≡ self.now.names
            → parts.Searched ns g machine.entry.code.now machine.entry.graph.now Query.MissingResult self.now.solution.now self.now.index.now
            → parts.ReadInto ρ self.now.rho.now (length ns) → Selecting.Opens machine.entry.graph.now node first
            → result ≡ parts.first_picked ns g self.now.solution.now Query.MissingResult node ρ }
    {
        let count = prepared::edge_count(machine.graph);
        let mut e = first;
        while e < count {
            let t = machine.own_truths(self.rho, e);
            if self.guard_missing(machine, e, t.holds) {
                return Some(e);
            }
            if !t.fails {
                return None;
            }
            e = prepared::next_edge(machine.graph, e);
        }
        None
    }

    // The first edge out of a node that a query picks.
    fn first_picked(&self, query: Query, machine: Machine<'_>, node: u16) -> Option<u16>
        ensures { (ns : List ℕ) (g : Graph.Graph) (ρ : List ℕ) → length ns ≡ self.now.names
            → parts.Searched ns g machine.entry.code.now machine.entry.graph.now query self.now.solution.now self.now.index.now
            → parts.ReadInto ρ self.now.rho.now (length ns) → node < Prepared.nodes_most → result ≡ parts.first_picked ns g self.now.solution.now query node ρ }
    {
        let count = prepared::edge_count(machine.graph);
        let mut e = prepared::first_edge(machine.graph, node);
        while e < count {
            if handed_over(query, machine.graph, e) {
                return self.first_missing(machine, e);
            }
            if self.picked(query, machine, e) {
                return Some(e);
            }
            e = prepared::next_edge(machine.graph, e);
        }
        None
    }
}

// What a query finds at record k.
fn spot_at(
    query: Query,
    code: &[u16; CODE],
    graph: &[u16; GRAPH],
    index: &[u16; INDEX],
    solution: &[u8],
    k: u16,
) -> Option<Spot>
    requires { parts.Searchable code.now graph.now solution.now index.now × (k < Records.record_count (2 + parts.names_in code.now) solution.now) }
    ensures { (ns : List ℕ) (g : Graph.Graph)
        → parts.Searched ns g code.now graph.now query solution.now index.now
        → result ≡ parts.spot_of ns g solution.now query k }
{
    let names = prepared::name_count(code);
    let at = (2 + names) * k as usize;
    let node = file::word_at(solution, at);
    let mut rho = [0u8; 32];
    lists::read_memory(&mut rho, solution, at + 2, names);
    let weight = membership::weight(index, solution, at + 2, names);
    let lookup = Lookup {
        index,
        solution,
        names,
        rho: &rho,
        weight,
    };
    let edge = lookup.first_picked(query, Machine { code, graph }, node)?;
    Some(Spot { record: k, edge })
}

// The number of records of a width in a list of at most 4,096.
fn record_count(bytes: &[u8], width: usize) -> u16
    requires { (0 < width) × (Records.whole_records width bytes.now ≡ true) }
    ensures { result ≡ Records.record_count width bytes.now }
{
    (bytes.len() / width) as u16
}

// The first record, and the first edge out of its node, that a query picks.
fn first_spot(
    query: Query,
    code: &[u16; CODE],
    graph: &[u16; GRAPH],
    index: &[u16; INDEX],
    solution: &[u8],
) -> Option<Spot>
    requires { parts.Searchable code.now graph.now solution.now index.now }
    ensures { (ns : List ℕ) (g : Graph.Graph)
        → parts.Searched ns g code.now graph.now query solution.now index.now
        → result ≡ spec.first_spot ns g solution.now (parts.picks ns g solution.now query) }
{
    let names = prepared::name_count(code);
    for k in 0..record_count(solution, 2 + names) {
        let spot = spot_at(query, code, graph, index, solution, k);
        if spot.is_some() {
            return spot;
        }
    }
    None
}

// Whether a solution has start record k at node 0.
fn initial_listed(
    index: &[u16; INDEX],
    initial: &[u8],
    solution: &[u8],
    names: usize,
    k: u16,
) -> bool
    requires { parts.Filled names solution.now index.now × (names ≤ 32) × (k < Records.record_count names initial.now) }
    ensures { (ns : List ℕ) → length ns ≡ names
        → result ≡ Records.has_at ns solution.now 0 (Records.record_at (Records.initial_width ns) initial.now k) }
{
    let at = names * k as usize;
    let mut rho = [0u8; 32];
    lists::read_memory(&mut rho, initial, at, names);
    let weight = membership::weight(index, initial, at, names);
    let change = Change {
        node: 0,
        name: 32,
        set: 0,
    };
    let lookup = Lookup {
        index,
        solution,
        names,
        rho: &rho,
        weight,
    };
    lookup.listed(change)
}

// 41: the first start record that is missing at node 0.
fn first_initial(index: &[u16; INDEX], initial: &[u8], solution: &[u8], names: usize) -> Option<u16>
    requires { parts.Filled names solution.now index.now × (0 < names) × (names ≤ 32) × (Records.whole_records names initial.now ≡ true) }
    ensures { (ns : List ℕ) → length ns ≡ names → result ≡ spec.missing_initial ns initial.now solution.now }
{
    (0..record_count(initial, names)).find(|k| !initial_listed(index, initial, solution, names, *k))
}

// Whether an index of an edge may be negative in the widest abstract memory; if none may, none may in any.
fn ever_negative(machine: Machine<'_>) -> bool
    ensures { result ≡ false → (e : ℕ) → e < slice_index machine.entry.graph.now Prepared.edge_count_place → parts.NeverNegative machine.entry.code.now machine.entry.graph.now e }
{
    let widest = [7u8; 32];
    (0..prepared::edge_count(machine.graph)).any(|e| {
        let action = prepared::action(machine.graph, e);
        machine.may_be_negative(&widest, action)
    })
}

// The index mark, by what was found.
#[tactic(auto, unfolding(crate::specs::Verdict::mark_of))]
fn mark_at(spot: Option<Spot>) -> Mark
    ensures { result ≡ spec.mark_of spot }
{
    match spot {
        Some(Spot { record, edge }) => Mark::Unclean { record, edge },
        None => Mark::Clean,
    }
}

// The index mark of a solution: its records are read only where some index may be negative at all.
fn mark_of(code: &[u16; CODE], graph: &[u16; GRAPH], index: &[u16; INDEX], solution: &[u8]) -> Mark
    requires { parts.Searchable code.now graph.now solution.now index.now }
    ensures { (ns : List ℕ) (g : Graph.Graph)
        → parts.Searched ns g code.now graph.now Query.NegativeIndex solution.now index.now
        → result ≡ spec.index_mark ns g solution.now }
{
    if ever_negative(Machine { code, graph }) {
        let negative = first_spot(Query::NegativeIndex, code, graph, index, solution);
        return mark_at(negative);
    }
    Mark::Clean
}

// 42, or accepted with the index mark.
fn judge_results(
    code: &[u16; CODE],
    graph: &[u16; GRAPH],
    index: &[u16; INDEX],
    solution: &[u8],
) -> Verdict
    requires { parts.Searchable code.now graph.now solution.now index.now }
    ensures { (ns : List ℕ) (g : Graph.Graph)
        → parts.Searched ns g code.now graph.now Query.MissingResult solution.now index.now
        → result ≡ spec.verdict_by None (spec.missing_result ns g solution.now) (spec.index_mark ns g solution.now) }
{
    let spot = first_spot(Query::MissingResult, code, graph, index, solution);
    match spot {
        Some(Spot { record, edge }) => Verdict::ResultMissing { record, edge },
        None => Verdict::Accepted(mark_of(code, graph, index, solution)),
    }
}

// 41, 42, or accepted with the index mark, of two lists of whole, well-formed records.
fn judge_formed(
    code: &[u16; CODE],
    graph: &[u16; GRAPH],
    initial: &[u8],
    solution: &[u8],
) -> Verdict
    requires { Tabled.Ready code.now graph.now × (Records.whole_records (parts.names_in code.now) initial.now ≡ true)
        × (Records.whole_records (2 + parts.names_in code.now) solution.now ≡ true) }
    ensures { (ns : List ℕ) (g : Graph.Graph) → Prepared.Prepared ns g code.now graph.now
        → Records.solution_formed ns g solution.now ≡ Ok tt
        → result ≡ parts.formed_verdict ns g initial.now solution.now }
{
    let names = prepared::name_count(code);
    let mut index = [0u16; INDEX];
    membership::put_index(&mut index, solution, names);
    let missing = first_initial(&index, initial, solution, names);
    match missing {
        Some(k) => Verdict::InitialMissing { record: k },
        None => judge_results(code, graph, &index, solution),
    }
}

// Whether both lists are whole records, at most 4,096 each.
fn both_whole(initial: &[u8], solution: &[u8], names: usize) -> bool
    requires { (0 < names) × (names ≤ 32) }
    ensures { result ≡ (Records.whole_records names initial.now && Records.whole_records (2 + names) solution.now) }
{
    lists::whole(initial, names) && lists::whole(solution, 2 + names)
}

// The verdict over a prepared program: 16 of both lists, 17 of the start list and then of the solution, 41, 42.
fn judge_prepared(
    code: &[u16; CODE],
    graph: &[u16; GRAPH],
    initial: &[u8],
    solution: &[u8],
) -> Result<Verdict, Unreadable>
    requires { Tabled.Ready code.now graph.now }
    ensures { (ns : List ℕ) (g : Graph.Graph) → Prepared.Prepared ns g code.now graph.now
        → result ≡ spec.verdict_over ns g initial.now solution.now }
{
    let names = prepared::name_count(code);
    validation::ask(both_whole(initial, solution, names), 16, 0)?;
    let first = lists::initial_formed(code, initial);
    lists::readable(RecordList::Initial, first)?;
    let second = lists::solution_formed(code, prepared::node_count(graph), solution);
    lists::readable(RecordList::Solution, second)?;
    Ok(judge_formed(code, graph, initial, solution))
}

// The index mark of a list of whole, well-formed records, of which none is sought.
fn mark_formed(code: &[u16; CODE], graph: &[u16; GRAPH], solution: &[u8]) -> Mark
    requires { Tabled.Ready code.now graph.now × (Records.whole_records (2 + parts.names_in code.now) solution.now ≡ true) }
    ensures { (ns : List ℕ) (g : Graph.Graph) → Prepared.Prepared ns g code.now graph.now
        → Records.solution_formed ns g solution.now ≡ Ok tt
        → result ≡ spec.index_mark ns g solution.now }
{
    let mut index = [0u16; INDEX];
    membership::put_factors(&mut index);
    mark_of(code, graph, &index, solution)
}

// The index mark over a prepared program: 16 and 17 of a list of records, and then its mark.
fn mark_prepared(
    code: &[u16; CODE],
    graph: &[u16; GRAPH],
    solution: &[u8],
) -> Result<Mark, Unreadable>
    requires { Tabled.Ready code.now graph.now }
    ensures { (ns : List ℕ) (g : Graph.Graph) → Prepared.Prepared ns g code.now graph.now
        → result ≡ parts.marked ns g solution.now }
{
    let names = prepared::name_count(code);
    validation::ask(lists::whole(solution, 2 + names), 16, 0)?;
    let formed = lists::solution_formed(code, prepared::node_count(graph), solution);
    lists::readable(RecordList::Solution, formed)?;
    Ok(mark_formed(code, graph, solution))
}

// The verdict on a candidate solution, on the graph by a construction.
pub fn judge_on(
    construction: Construction,
    program: &[u8],
    initial: &[u8],
    solution: &[u8],
) -> Result<Verdict, Unreadable>
    ensures value { result ≡ spec.verdict construction program.now initial.now solution.now }
    ensures numbers { spec.verdict_numbers result ≡ spec.verdict_row construction program.now initial.now solution.now }
    ensures third { Soundness.ThirdTermFor construction program.now initial.now solution.now result }
{
    let mut code = [0u16; CODE];
    let mut graph = [0u16; GRAPH];
    prepared::prepare_linked(construction, program, &mut code, &mut graph)?;
    set_table::put(&mut code);
    judge_prepared(&code, &graph, initial, solution)
}

// The same, where the caller names no construction: a public name of its own, which stays.
pub fn judge(program: &[u8], initial: &[u8], solution: &[u8]) -> Result<Verdict, Unreadable>
    ensures value { result ≡ spec.verdict Graph.unnamed program.now initial.now solution.now }
    ensures numbers { spec.verdict_numbers result ≡ spec.verdict_row Graph.unnamed program.now initial.now solution.now }
    ensures third { Soundness.ThirdTermFor Graph.unnamed program.now initial.now solution.now result }
{
    judge_on(drawing::unnamed(), program, initial, solution)
}

// The offending record of 41 or 42 on the graph by a construction, a part of the list that it lies in; else an empty part.
pub fn offending_on<'a>(
    construction: Construction,
    program: &[u8],
    initial: &'a [u8],
    solution: &'a [u8],
) -> &'a [u8]
    ensures { result.now ≡ spec.offending (File.sizes program.now) initial.now solution.now
        (spec.verdict construction program.now initial.now solution.now) }
{
    let names = file::name_count(program) as usize;
    match judge_on(construction, program, initial, solution) {
        Ok(Verdict::InitialMissing { record }) => {
            validation::part(initial, names * record as usize, names)
        }
        Ok(Verdict::ResultMissing { record, edge: _ }) => {
            validation::part(solution, (2 + names) * record as usize, 2 + names)
        }
        Ok(Verdict::Accepted(_)) => &initial[..0],
        Err(_) => &initial[..0],
    }
}

// The same, where the caller names no construction: a public name of its own, which stays.
pub fn offending<'a>(program: &[u8], initial: &'a [u8], solution: &'a [u8]) -> &'a [u8]
    ensures { result.now ≡ spec.offending (File.sizes program.now) initial.now solution.now
        (spec.verdict Graph.unnamed program.now initial.now solution.now) }
{
    offending_on(drawing::unnamed(), program, initial, solution)
}

// The index mark of a list of records by itself, which is the same for every construction.
pub fn index_mark(program: &[u8], solution: &[u8]) -> Result<Mark, Unreadable>
    ensures value { result ≡ spec.marking program.now solution.now }
    ensures numbers { spec.marking_numbers result ≡ spec.mark_row program.now solution.now }
{
    let mut code = [0u16; CODE];
    let mut graph = [0u16; GRAPH];
    prepared::prepare_linked(
        Construction::Nondeterministic,
        program,
        &mut code,
        &mut graph,
    )?;
    set_table::put(&mut code);
    mark_prepared(&code, &graph, solution)
}
