// What C calls: each operation of `desk` under its name, with its clauses. The library itself is `desk`; this crate is its archive.
#![tactic(auto)]

ghost use Rattle.std.specs.Prelude.{◌≡◌};
ghost use Rattle.desk.specs.Rows as row;
ghost use Rattle.program.specs.Graph;
ghost use Rattle.program.specs.Drawing;
ghost use Rattle.desk.specs.Reply as spec;
ghost use Rattle.semantics.specs.Budget;
ghost use Rattle.semantics.specs.Step;
ghost use Rattle.desk.specs.Accepting;
ghost use Rattle.analysis.specs.Solver;
ghost use Rattle.figures.specs.Totals as sums;

// The number of this version, as the pkg-config file has it.
#[unsafe(no_mangle)]
pub extern "C" fn pizwoter_version() -> u32
    ensures { result ≡ row.version }
{
    desk::pizwoter_version()
}

// The questions of a program file.
#[unsafe(no_mangle)]
pub extern "C" fn pizwoter_validate(program: &[u8], reply: &mut [i64]) -> i32
    ensures { spec.Tells row.validation_room (row.validated program.now) reply.old result reply.new }
{
    desk::files::pizwoter_validate(program, reply)
}

// The questions of the sheet program's input, five fields.
#[unsafe(no_mangle)]
pub extern "C" fn pizwoter_validate_input(input: &[u8], reply: &mut [i64]) -> i32
    ensures { spec.Tells row.validation_room (row.input_validated input.now) reply.old result reply.new }
{
    desk::files::pizwoter_validate_input(input, reply)
}

// Where the program and the start list lie in such an input.
#[unsafe(no_mangle)]
pub extern "C" fn pizwoter_input_parts(input: &[u8], reply: &mut [i64]) -> i32
    ensures { spec.Tells row.parts_room (row.parts input.now) reply.old result reply.new }
{
    desk::files::pizwoter_input_parts(input, reply)
}

// The graph by the construction that a number names, into a buffer.
#[unsafe(no_mangle)]
pub extern "C" fn pizwoter_draw(
    program: &[u8],
    construction: u32,
    buffer: &mut [u8],
    reply: &mut [i64],
) -> i32
    ensures tells { spec.Tells row.drawing_room (row.drew (Graph.named construction) program.now buffer.old) reply.old result reply.new }
    ensures buffer { buffer.new
        ≡ spec.unless_short row.drawing_room reply.old (Drawing.drawn_buffer (Graph.named construction) program.now buffer.old) buffer.old }
{
    desk::files::pizwoter_draw(program, construction, buffer, reply)
}

// A run at a node, with so many edges taken, stepped along an edge of the graph by the construction that a number names.
#[unsafe(no_mangle)]
pub extern "C" fn pizwoter_step(
    program: &[u8],
    construction: u32,
    node: u16,
    count: u16,
    edge: u16,
    memory: &mut [i32],
    reply: &mut [i64],
) -> i32
    ensures tells { spec.Tells row.run_room (row.stepped (Graph.named construction) program.now (row.standing node count memory.old) edge) reply.old result reply.new }
    ensures memory { memory.new
        ≡ spec.unless_short row.run_room reply.old (Step.program_step (Graph.named construction) program.now (row.standing node count memory.old) edge).memory memory.old }
{
    desk::steps::pizwoter_step(program, construction, node, count, edge, memory, reply)
}

// A run from node 0 with a budget, on such a graph.
#[unsafe(no_mangle)]
pub extern "C" fn pizwoter_run(
    program: &[u8],
    construction: u32,
    budget: u16,
    memory: &mut [i32],
    reply: &mut [i64],
) -> i32
    ensures tells { spec.Tells row.run_room (row.ran (Graph.named construction) program.now budget memory.old) reply.old result reply.new }
    ensures memory { memory.new
        ≡ spec.unless_short row.run_room reply.old (Budget.program_budgeted (Graph.named construction) program.now budget memory.old).final.memory memory.old }
{
    desk::steps::pizwoter_run(program, construction, budget, memory, reply)
}

// The verdict on a sheet, for the graph by the construction that a number names. Where the row written says that it is accepted, the third term holds of it.
#[unsafe(no_mangle)]
pub extern "C" fn pizwoter_judge(
    program: &[u8],
    construction: u32,
    initial: &[u8],
    solution: &[u8],
    reply: &mut [i64],
) -> i32
    ensures tells { spec.Tells row.verdict_room (row.judged (Graph.named construction) program.now initial.now solution.now) reply.old result reply.new }
    ensures third { Accepting.ThirdTermTold (Graph.named construction) program.now initial.now solution.now result reply.new }
{
    desk::sheets::pizwoter_judge(program, construction, initial, solution, reply)
}

// The index mark of a sheet by itself.
#[unsafe(no_mangle)]
pub extern "C" fn pizwoter_index_mark(program: &[u8], solution: &[u8], reply: &mut [i64]) -> i32
    ensures { spec.Tells row.mark_room (row.marked program.now solution.now) reply.old result reply.new }
{
    desk::sheets::pizwoter_index_mark(program, solution, reply)
}

// The solver's list into a buffer, on the graph by the construction that a number names.
#[unsafe(no_mangle)]
pub extern "C" fn pizwoter_solve(
    program: &[u8],
    construction: u32,
    initial: &[u8],
    buffer: &mut [u8],
    reply: &mut [i64],
) -> i32
    ensures tells { spec.Tells row.solver_room (row.solved (Graph.named construction) program.now initial.now buffer.old) reply.old result reply.new }
    ensures buffer { buffer.new
        ≡ spec.unless_short row.solver_room reply.old (Solver.solved_buffer (Graph.named construction) program.now initial.now buffer.old) buffer.old }
{
    desk::solver::pizwoter_solve(program, construction, initial, buffer, reply)
}

// The record and the column of a byte of a sheet.
#[unsafe(no_mangle)]
pub extern "C" fn pizwoter_split(program: &[u8], place: u32, reply: &mut [i64]) -> i32
    ensures { spec.Tells row.split_room (row.split program.now place) reply.old result reply.new }
{
    desk::solver::pizwoter_split(program, place, reply)
}

// The figures of a list of marks.
#[unsafe(no_mangle)]
pub extern "C" fn pizwoter_figures(marks: &[i32], reply: &mut [i64]) -> i32
    ensures { spec.Tells row.figures_room (row.figured marks.now) reply.old result reply.new }
{
    desk::classes::pizwoter_figures(marks, reply)
}

// The figures of two classes joined, by their totals.
#[unsafe(no_mangle)]
pub extern "C" fn pizwoter_join(
    first_count: u32,
    first_sum: i64,
    first_squares: i64,
    second_count: u32,
    second_sum: i64,
    second_squares: i64,
    reply: &mut [i64],
) -> i32
    ensures { spec.Tells row.figures_room (row.joined (sums.class first_count first_sum first_squares) (sums.class second_count second_sum second_squares))
        reply.old result reply.new }
{
    desk::classes::pizwoter_join(
        first_count,
        first_sum,
        first_squares,
        second_count,
        second_sum,
        second_squares,
        reply,
    )
}
