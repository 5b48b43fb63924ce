// Program files: validated, taken apart and drawn. A place is narrowed to 32 bits: that it fits is a condition of a head, which holds of every answer.

ghost use Rattle.std.specs.Prelude.{◌≡◌};
ghost use Rattle.program.specs.Graph;
ghost use Rattle.program.specs.Drawing;
ghost use Rattle.program.specs.declared.Refusal.{Refusal};
ghost use Rattle.desk.specs.Parts.Heads as heads;
ghost use Rattle.desk.specs.Reply as spec;
ghost use Rattle.desk.specs.Rows as row;

use crate::{Head, reply};
use program::{Refusal, drawing, validation};

// The numbers of each row.
const VALIDATION: usize = 3;

const PARTS: usize = 6;

const DRAWING: usize = 5;

// A refusal: its question's number and its place.
pub(crate) fn refused(x: Refusal) -> Head
    requires { spec.Narrow x.offset }
    ensures { result ≡ Head.Refused x.number x.offset }
{
    Head::Refused(x.number, x.offset as u32)
}

// What the questions answered.
#[tactic(auto, unfolding(crate::specs::Parts::Heads::validity_head))]
pub(crate) fn of_validity(v: Result<(), Refusal>) -> Head
    requires { (x : Refusal) → v ≡ Err x → spec.Narrow x.offset }
    ensures { result ≡ heads.validity_head v }
{
    match v {
        Ok(()) => Head::Answered(0),
        Err(x) => refused(x),
    }
}

// The questions of a program file.
#[unsafe(no_mangle)]
pub extern "C" fn pizwoter_validate(program: &[u8], reply: &mut [i64]) -> i32
    ensures { spec.Tells row.validation_room (row.validated program.now) reply.old result reply.new }
{
    if reply.len() < VALIDATION {
        return reply::SHORT;
    }
    let v = validation::validate(program);
    reply::put_head(of_validity(v), reply)
}

// The questions of the sheet program's input, five fields.
#[unsafe(no_mangle)]
pub extern "C" fn pizwoter_validate_input(input: &[u8], reply: &mut [i64]) -> i32
    ensures { spec.Tells row.validation_room (row.input_validated input.now) reply.old result reply.new }
{
    if reply.len() < VALIDATION {
        return reply::SHORT;
    }
    let v = validation::validate_input(input);
    reply::put_head(of_validity(v), reply)
}

// Where the program and the start list lie in such an input.
#[unsafe(no_mangle)]
pub extern "C" fn pizwoter_input_parts(input: &[u8], reply: &mut [i64]) -> i32
    ensures { spec.Tells row.parts_room (row.parts input.now) reply.old result reply.new }
{
    if reply.len() < PARTS {
        return reply::SHORT;
    }
    match validation::validate_input(input) {
        Ok(()) => {
            let program = validation::program_part(input).len() as u32;
            let initial = validation::initial_part(input).len() as u32;
            reply::put(Head::Answered(0), &[program, program + 3, initial], reply)
        }
        Err(x) => reply::put(refused(x), &[0, 0, 0], reply),
    }
}

// The graph by the construction that a number names, into a buffer.
#[unsafe(no_mangle)]
pub extern "C" fn pizwoter_draw(
    program: &[u8],
    construction: u32,
    buffer: &mut [u8],
    reply: &mut [i64],
) -> i32
    ensures tells { spec.Tells row.drawing_room (row.drew (Graph.named construction) program.now buffer.old) reply.old result reply.new }
    ensures buffer { buffer.new
        ≡ spec.unless_short row.drawing_room reply.old (Drawing.drawn_buffer (Graph.named construction) program.now buffer.old) buffer.old }
{
    if reply.len() < DRAWING {
        return reply::SHORT;
    }
    match drawing::draw_on(drawing::named(construction), program, buffer) {
        Ok(drawn) => reply::put(
            Head::Answered(0),
            &[drawn.nodes as u32, drawn.edges as u32],
            reply,
        ),
        Err(x) => reply::put(refused(x), &[0, 0], reply),
    }
}
