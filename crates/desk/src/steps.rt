// A run stepped along an edge, and a budgeted run.

ghost use Rattle.std.specs.Prelude.{◌≡◌};
ghost use Rattle.program.specs.Graph;
ghost use Rattle.program.specs.declared.Refusal.{Refusal};
ghost use Rattle.semantics.specs.Budget;
ghost use Rattle.semantics.specs.Step;
ghost use Rattle.desk.specs.Parts.Heads as heads;
ghost use Rattle.desk.specs.Reply as spec;
ghost use Rattle.desk.specs.Rows as row;

use crate::{Head, files, reply};
use program::drawing;
use semantics::{Ending, Outcome, Run, running};

// The numbers of each row.
const RUN: usize = 5;

// What a step answered: 0 where it is taken, or the reason's number.
#[tactic(auto, unfolding(crate::specs::Parts::Heads::outcome_head))]
fn of_outcome(outcome: Outcome) -> Head
    requires { (x : Refusal) → outcome ≡ Outcome.Refused x → spec.Narrow x.offset }
    ensures { result ≡ heads.outcome_head outcome }
{
    match outcome {
        Outcome::Taken => Head::Answered(0),
        Outcome::Undefined(f) => Head::Answered(u32::from(f.reason.number())),
        Outcome::Refused(x) => files::refused(x),
    }
}

// A run at a node, with so many edges taken, stepped along an edge of the graph by the construction that a number names.
#[unsafe(no_mangle)]
pub extern "C" fn pizwoter_step(
    program: &[u8],
    construction: u32,
    node: u16,
    count: u16,
    edge: u16,
    memory: &mut [i32],
    reply: &mut [i64],
) -> i32
    ensures tells { spec.Tells row.run_room (row.stepped (Graph.named construction) program.now (row.standing node count memory.old) edge) reply.old result reply.new }
    ensures memory { memory.new
        ≡ spec.unless_short row.run_room reply.old (Step.program_step (Graph.named construction) program.now (row.standing node count memory.old) edge).memory memory.old }
{
    if reply.len() < RUN {
        return reply::SHORT;
    }
    let run = Run { node, count };
    let stepped = run.step_on(drawing::named(construction), program, edge, memory);
    let outcome = stepped.outcome;
    reply::put(
        of_outcome(outcome),
        &[stepped.run.node as u32, stepped.run.count as u32],
        reply,
    )
}

// How a budgeted run ended: 0 at node 1, 1 with its budget used up, 2 where no edge is defined.
#[tactic(auto, unfolding(crate::specs::Parts::Heads::ending_head))]
fn of_ending(ending: Ending) -> Head
    requires { (x : Refusal) → ending ≡ Ending.Refused x → spec.Narrow x.offset }
    ensures { result ≡ heads.ending_head ending }
{
    match ending {
        Ending::Arrived => Head::Answered(0),
        Ending::Spent => Head::Answered(1),
        Ending::Stuck => Head::Answered(2),
        Ending::Refused(x) => files::refused(x),
    }
}

// A run from node 0 with a budget, on such a graph.
#[unsafe(no_mangle)]
pub extern "C" fn pizwoter_run(
    program: &[u8],
    construction: u32,
    budget: u16,
    memory: &mut [i32],
    reply: &mut [i64],
) -> i32
    ensures tells { spec.Tells row.run_room (row.ran (Graph.named construction) program.now budget memory.old) reply.old result reply.new }
    ensures memory { memory.new
        ≡ spec.unless_short row.run_room reply.old (Budget.program_budgeted (Graph.named construction) program.now budget memory.old).final.memory memory.old }
{
    if reply.len() < RUN {
        return reply::SHORT;
    }
    let ended = running::run_on(drawing::named(construction), program, budget, memory);
    let ending = ended.ending;
    reply::put(
        of_ending(ending),
        &[ended.run.node as u32, ended.run.count as u32],
        reply,
    )
}
