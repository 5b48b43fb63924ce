// The budgeted run.

ghost use Rattle.std.specs.Prelude.{◌≡◌, List, ℕ, ◌<◌, ◌≤◌, length};
ghost use Rattle.program.specs.File.{cell_count};
ghost use Rattle.program.specs.Graph.{Graph, unnamed};
ghost use Rattle.program.specs.Parts.Prepared.{nodes_most, cells_most, Linked, Prepared};
ghost use Rattle.semantics.specs.Budget as spec;
ghost use Rattle.semantics.specs.Parts.Cells;
ghost use Rattle.semantics.specs.Parts.Running;
ghost use Rattle.semantics.specs.Parts.Selecting;
ghost use Rattle.semantics.specs.Step;

use crate::evaluator::{MEMORY, Machine};
use crate::{Ended, Ending, Run, stepping};
use program::prepared::{CELLS_MOST, CODE, GRAPH, NONE};
use program::{Construction, Refusal, drawing, prepared, validation};

// The reply of a run that stops at node 1, or else with its budget used up.
fn stopped(run: Run) -> Ended
    ensures { result ≡ record { run = run; ending = Running.ending_at run.node } }
{
    let ending = if run.node == 1 {
        Ending::Arrived
    } else {
        Ending::Spent
    };
    Ended { run, ending }
}

// The array's first cells over a memory.
fn copy_back(memory: &mut [i32], cells: &[i32; MEMORY])
    ensures { length memory.old ≤ cells_most → memory.new ≡ Cells.front (length memory.old) cells.now }
{
    let end = memory.len().min(CELLS_MOST);
    memory[..end].copy_from_slice(&cells[..end]);
}

// The reply of a refused run.
fn refused(x: Refusal) -> Ended
    ensures { result ≡ record { run = Step.fresh; ending = Ending.Refused x } }
{
    Ended {
        run: Run::fresh(),
        ending: Ending::Refused(x),
    }
}

// A machine whose graph is linked: each node's lowest edge stands in it, and after each edge the next one out of the same node.
#[derive(Clone, Copy)]
struct Runner<'a> {
    machine: Machine<'a>,
    ghost linked: { Linked machine.graph.now },
}

impl Runner<'_> {
    // The first edge out of a node of the deterministic graph whose guard holds, or the exit after guards that all fail, from the node's lowest edge on; NONE, where a guard
    // is undefined before that, or none holds. Each guard is tested once: those before it are known to fail.
    fn first_true(self, memory: &[i32; MEMORY], first: u16) -> u16
        ensures { (ns : List ℕ) (g : Graph) (node : ℕ) → Prepared ns g self.entry.machine.code.now self.entry.machine.graph.now → Cells.NumbersIn self.entry.machine.code.now memory.now
            → Selecting.Opens self.entry.machine.graph.now node first → Running.Lowest ns g node memory.now result memory.now }
    {
        let count = prepared::edge_count(self.machine.graph);
        let mut k = first;
        // This loop follows the links from edge to edge: it counts no index.
        while k < count {
            let v = self.machine.own(memory, k);
            if v.is_true() {
                return k;
            }
            if v.is_fault() {
                return NONE;
            }
            k = prepared::next_edge(self.machine.graph, k);
        }
        NONE
    }

    // Performs the lowest defined edge out of a node; NONE, where there is none.
    fn take_lowest(self, memory: &mut [i32; MEMORY], node: u16) -> u16
        ensures { (ns : List ℕ) (g : Graph) → Prepared ns g self.entry.machine.code.now self.entry.machine.graph.now → Cells.NumbersIn self.entry.machine.code.now memory.old
            → node < nodes_most → Running.Lowest ns g node memory.old result memory.new }
    {
        let count = prepared::edge_count(self.machine.graph);
        let mut e = prepared::first_edge(self.machine.graph, node);
        // This loop follows the links from edge to edge: it counts no index.
        while e < count {
            if prepared::guards(self.machine.graph, e) {
                return self.first_true(memory, e);
            }
            let action = prepared::plain_action(self.machine.graph, e);
            if self.machine.perform(memory, action) {
                return e;
            }
            e = prepared::next_edge(self.machine.graph, e);
        }
        NONE
    }

    // A run from node 0 in an array with the program's numbers behind the memory: the lowest defined edge each time.
    fn run_array(self, budget: u16, memory: &mut [i32; MEMORY]) -> Ended
        ensures { (ns : List ℕ) (g : Graph) → Prepared ns g self.entry.machine.code.now self.entry.machine.graph.now → Cells.NumbersIn self.entry.machine.code.now memory.old
            → Running.EndsAs (spec.run_from budget ns g (Step.begun memory.old)) memory.new result }
    {
        let mut run = Run::fresh();
        for _ in 0..budget {
            if run.node == 1 {
                break;
            }
            let e = self.take_lowest(memory, run.node);
            if NONE <= e {
                return Ended {
                    run,
                    ending: Ending::Stuck,
                };
            }
            run = stepping::moved(run, prepared::edge_target(self.machine.graph, e));
        }
        stopped(run)
    }

    // A run over a prepared program, in a memory that has the names' cells.
    fn run_copied(self, budget: u16, memory: &mut [i32]) -> Ended
        ensures { (ns : List ℕ) (g : Graph) → Prepared ns g self.entry.machine.code.now self.entry.machine.graph.now → length memory.old ≡ cell_count ns
            → Running.EndsAs (spec.run_from budget ns g (Step.begun memory.old)) memory.new result }
    {
        let mut cells = [0i32; MEMORY];
        stepping::copy_in(self.machine.code, memory, &mut cells);
        let ended = self.run_array(budget, &mut cells);
        copy_back(memory, &cells);
        ended
    }

    // Question 12, then a run over a prepared program.
    fn run_prepared(self, budget: u16, memory: &mut [i32]) -> Ended
        ensures { (ns : List ℕ) (g : Graph) → Prepared ns g self.entry.machine.code.now self.entry.machine.graph.now
            → Running.EndsAs (spec.budgeted ns g budget memory.old) memory.new result }
    {
        let cells = prepared::cell_count(self.machine.code);
        match validation::ask(memory.len() == cells, 12, 0) {
            Ok(()) => self.run_copied(budget, memory),
            Err(x) => refused(x),
        }
    }
}

// A run from node 0 with a budget, on the graph by a construction: the lowest defined edge each time, up to node 1, until the budget is used up, or until no edge is
// defined.
pub fn run_on(construction: Construction, program: &[u8], budget: u16, memory: &mut [i32]) -> Ended
    ensures value { (result ≡ spec.budget_reply construction program.now budget memory.old)
        × (memory.new ≡ (spec.program_budgeted construction program.now budget memory.old).final.memory) }
    ensures numbers { spec.ended_numbers result ≡ spec.run_row construction program.now budget memory.old }
{
    let mut code = [0u16; CODE];
    let mut graph = [0u16; GRAPH];
    match prepared::prepare_linked(construction, program, &mut code, &mut graph) {
        Ok(()) => {
            let machine = Machine {
                code: &code,
                graph: &graph,
            };
            Runner { machine }.run_prepared(budget, memory)
        }
        Err(x) => refused(x),
    }
}

// The same, where the caller names no construction.
pub fn run(program: &[u8], budget: u16, memory: &mut [i32]) -> Ended
    ensures value { (result ≡ spec.budget_reply unnamed program.now budget memory.old)
        × (memory.new ≡ (spec.program_budgeted unnamed program.now budget memory.old).final.memory) }
    ensures numbers { spec.ended_numbers result ≡ spec.run_row unnamed program.now budget memory.old }
{
    run_on(drawing::unnamed(), program, budget, memory)
}
