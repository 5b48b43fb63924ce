// The solver's list, and a place in a sheet split.

ghost use Rattle.std.specs.Prelude.{◌≡◌};
ghost use Rattle.program.specs.Graph;
ghost use Rattle.program.specs.declared.Refusal.{Refusal};
ghost use Rattle.analysis.specs.Solver;
ghost use Rattle.desk.specs.Parts.Heads as heads;
ghost use Rattle.desk.specs.Reply as spec;
ghost use Rattle.desk.specs.Rows as row;

use crate::{Head, files, reply, sheets};
use analysis::{Solving, solver, splitting};
use program::drawing;

// The numbers of each row.
const SOLVER: usize = 4;

const SPLIT: usize = 5;

// How a solver ended: 18 has no place.
#[tactic(auto, unfolding(crate::specs::Parts::Heads::solving_head))]
fn of_solving(solving: Solving) -> Head
    ensures { result ≡ heads.solving_head solving }
{
    match solving {
        Solving::Finished => Head::Answered(0),
        Solving::Full => Head::Refused(18, 0),
    }
}

// The solver's list into a buffer, on the graph by the construction that a number names.
#[unsafe(no_mangle)]
pub extern "C" fn pizwoter_solve(
    program: &[u8],
    construction: u32,
    initial: &[u8],
    buffer: &mut [u8],
    reply: &mut [i64],
) -> i32
    ensures tells { spec.Tells row.solver_room (row.solved (Graph.named construction) program.now initial.now buffer.old) reply.old result reply.new }
    ensures buffer { buffer.new
        ≡ spec.unless_short row.solver_room reply.old (Solver.solved_buffer (Graph.named construction) program.now initial.now buffer.old) buffer.old }
{
    if reply.len() < SOLVER {
        return reply::SHORT;
    }
    match solver::solve_on(drawing::named(construction), program, initial, buffer) {
        Ok(solved) => reply::put(of_solving(solved.solving), &[solved.count as u32], reply),
        Err(x) => reply::put(sheets::of_unreadable(x), &[0], reply),
    }
}

// The record and the column of a byte of a sheet.
#[unsafe(no_mangle)]
pub extern "C" fn pizwoter_split(program: &[u8], place: u32, reply: &mut [i64]) -> i32
    ensures { spec.Tells row.split_room (row.split program.now place) reply.old result reply.new }
{
    if reply.len() < SPLIT {
        return reply::SHORT;
    }
    match splitting::split(program, place) {
        Ok(split) => reply::put(Head::Answered(0), &[split.record, split.column], reply),
        Err(x) => reply::put(files::refused(x), &[0, 0], reply),
    }
}
