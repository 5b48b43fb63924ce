// A run and its step.

ghost use Rattle.std.specs.Prelude.{◌≡◌, List, ℤ, pos, ℕ, ◌<◌, ◌+◌, min, length, replicate};
ghost use Rattle.program.specs.Graph.{Graph, unnamed};
ghost use Rattle.program.specs.Parts.Prepared.{Coded, Prepared};
ghost use Rattle.semantics.specs.Action;
ghost use Rattle.semantics.specs.Parts.Cells;
ghost use Rattle.semantics.specs.Step as spec;
ghost use Rattle.semantics.specs.Parts.Stepping;

use crate::evaluator::{MEMORY, Machine};
use crate::{Effect, Outcome, Run, Stepped};
use program::prepared::{CELLS_MOST, CODE, GRAPH};
use program::{Construction, Refusal, drawing, prepared, validation};

// The most numbers behind a memory: one for each arithmetic entry.
const NUMBERS_MOST: u16 = 512;

// A memory's first 512 cells, into an array of zeros.
fn put_memory(memory: &[i32], cells: &mut [i32; MEMORY])
    requires { cells.old ≡ replicate Cells.array_cells (pos 0) }
    ensures { Cells.Fronted memory.now cells.new }
{
    let end = memory.len().min(CELLS_MOST);
    cells[..end].copy_from_slice(&memory[..end]);
}

// A program's numbers, from cell 512 on.
fn put_numbers(code: &[u16; CODE], cells: &mut [i32])
    requires { length cells.old ≡ 1024 }
    ensures { Cells.Numbered code.now cells.old cells.new }
{
    for n in 0..prepared::arithmetic_count(code).min(NUMBERS_MOST) {
        cells[CELLS_MOST + n as usize] = prepared::number_at(code, n);
    }
}

// A memory of at most 512 cells, and a program's numbers behind it, into an array of zeros.
pub(crate) fn copy_in(code: &[u16; CODE], memory: &[i32], cells: &mut [i32; MEMORY])
    requires { cells.old ≡ replicate Cells.array_cells (pos 0) }
    ensures { (ns : List ℕ) → Coded ns code.now → Cells.Placed code.now memory.now cells.new }
{
    put_memory(memory, cells);
    put_numbers(code, cells);
}

// Whether an edge exists and leaves a node.
fn leaves(graph: &[u16; GRAPH], edge: u16, node: u16) -> bool
    ensures { (ns code : List ℕ) (g : Graph) → Prepared ns g code graph.now → result ≡ spec.leaves g edge node }
{
    if prepared::edge_count(graph) <= edge {
        return false;
    }
    prepared::edge_source(graph, edge) == node
}

// The run that has taken an edge to a node: past 65,535 edges the count stays.
pub(crate) fn moved(run: Run, target: u16) -> Run
    ensures { result ≡ record { node = target; count = min (run.count + 1) 65535 } }
{
    Run {
        node: target,
        count: run.count.saturating_add(1),
    }
}

// What an effect stores, in a memory; past the end, nothing.
pub(crate) fn store(memory: &mut [i32], effect: Effect)
    ensures { memory.new ≡ Action.after memory.old effect }
{
    if let Effect::Stored { cell, value } = effect {
        if cell < memory.len() {
            memory[cell] = value;
        }
    }
}

// What a step replies whose edge to `target` has this effect, and the memory after it.
fn settled(run: Run, target: u16, effect: Effect, memory: &mut [i32]) -> Stepped
    ensures { Stepping.Settled run target effect memory.old memory.new result }
{
    store(memory, effect);
    match effect {
        Effect::Undefined(fault) => Stepped {
            run,
            outcome: Outcome::Undefined(fault),
        },
        _ => Stepped {
            run: moved(run, target),
            outcome: Outcome::Taken,
        },
    }
}

// The reply of a refused step.
fn refused(run: Run, x: Refusal) -> Stepped
    ensures { result ≡ record { run = run; outcome = Outcome.Refused x } }
{
    Stepped {
        run,
        outcome: Outcome::Refused(x),
    }
}

impl Machine<'_> {
    // Questions 12, 14 and 15 of a node, an edge and a memory of so many cells.
    fn ask_step(self, node: u16, edge: u16, cells: usize) -> Result<(), Refusal>
        ensures { (ns : List ℕ) (g : Graph) (m : List ℤ) → Prepared ns g self.entry.code.now self.entry.graph.now → length m ≡ cells
            → result ≡ spec.step_validity ns g node m edge }
    {
        validation::ask(cells == prepared::cell_count(self.code), 12, 0)?;
        validation::ask(node < prepared::node_count(self.graph), 14, 0)?;
        validation::ask(leaves(self.graph, edge, node), 15, 0)
    }

    // The effect of an edge in a memory, in a copy of it with the program's numbers behind.
    fn copied_effect(self, edge: u16, memory: &[i32]) -> Effect
        ensures { (ns : List ℕ) (g : Graph) → Prepared ns g self.entry.code.now self.entry.graph.now → edge < length g.edges
            → result ≡ spec.edge_effect ns g memory.now edge }
    {
        let mut cells = [0i32; MEMORY];
        copy_in(self.code, memory, &mut cells);
        self.edge_effect(&cells, edge)
    }

    // A step over a prepared program.
    fn step_prepared(self, run: Run, edge: u16, memory: &mut [i32]) -> Stepped
        ensures { (ns : List ℕ) (g : Graph) → Prepared ns g self.entry.code.now self.entry.graph.now
            → Stepping.StepsTo ns g run edge memory.old memory.new result }
    {
        match self.ask_step(run.node, edge, memory.len()) {
            Ok(()) => {
                let found = self.copied_effect(edge, memory);
                settled(run, prepared::edge_target(self.graph, edge), found, memory)
            }
            Err(x) => refused(run, x),
        }
    }
}

impl Run {
    // At node 0 with no edge taken.
    pub fn fresh() -> Run
        ensures { result ≡ spec.fresh }
    {
        Run { node: 0, count: 0 }
    }

    // The run that has taken an edge of the graph by a construction, and the memory with it; or both as they were, where the step is undefined or refused.
    pub fn step_on(
        self,
        construction: Construction,
        program: &[u8],
        edge: u16,
        memory: &mut [i32],
    ) -> Stepped
        ensures value { (result ≡ spec.step_reply construction program.now (record { run = self; memory = memory.old }) edge)
            × (memory.new ≡ (spec.program_step construction program.now (record { run = self; memory = memory.old }) edge).memory) }
        ensures numbers { spec.stepped_numbers result ≡ spec.step_row construction program.now (record { run = self; memory = memory.old }) edge }
    {
        let mut code = [0u16; CODE];
        let mut graph = [0u16; GRAPH];
        match prepared::prepare(construction, program, &mut code, &mut graph) {
            Ok(()) => {
                let machine = Machine {
                    code: &code,
                    graph: &graph,
                };
                machine.step_prepared(self, edge, memory)
            }
            Err(x) => refused(self, x),
        }
    }

    // The same, where the caller names no construction.
    pub fn step(self, program: &[u8], edge: u16, memory: &mut [i32]) -> Stepped
        ensures value { (result ≡ spec.step_reply unnamed program.now (record { run = self; memory = memory.old }) edge)
            × (memory.new ≡ (spec.program_step unnamed program.now (record { run = self; memory = memory.old }) edge).memory) }
        ensures numbers { spec.stepped_numbers result ≡ spec.step_row unnamed program.now (record { run = self; memory = memory.old }) edge }
    {
        self.step_on(drawing::unnamed(), program, edge, memory)
    }
}
