// The figures of classes: their numbers go below zero and beyond 32 bits.

ghost use Rattle.std.specs.Prelude.{◌≤◌, ◌≡◌, pos, length, Err};
ghost use Rattle.program.specs.declared.Refusal.{Refusal};
ghost use Rattle.figures.specs.Figures as Class;
ghost use Rattle.figures.specs.Totals as sums;
ghost use Rattle.desk.specs.Reply as spec;
ghost use Rattle.desk.specs.Rows as row;

use crate::{Head, files, reply};
use figures::{Figures, Totals, class};
use program::Refusal;

// The numbers of the row.
const FIGURES: usize = 10;

// The numbers of figures: totals, then mean and variance, each numerator first.
fn numbers(f: Figures) -> [i64; 7]
    ensures { result ≡ Class.class_numbers f }
{
    [
        i64::from(f.totals.count),
        f.totals.sum,
        f.totals.squares,
        f.mean.numerator,
        f.mean.denominator,
        f.variance.numerator,
        f.variance.denominator,
    ]
}

// How a call went, with figures behind, at the front of a reply that has room; returns what the call returns.
fn put_figures(head: Head, f: Figures, reply: &mut [i64]) -> i32
    requires { row.figures_room ≤ length reply.old }
    ensures { (result ≡ pos (spec.tell head (Class.class_numbers f)).status)
        × (reply.new ≡ spec.over_at 0 (spec.tell head (Class.class_numbers f)).row reply.old) }
{
    let status = reply::put_head(head, reply);
    reply[3..FIGURES].copy_from_slice(&numbers(f));
    status
}

// The row of a class's reply.
fn put(replied: Result<Figures, Refusal>, reply: &mut [i64]) -> i32
    requires narrow { (x : Refusal) → replied ≡ Err x → spec.Narrow x.offset }
    requires room { row.figures_room ≤ length reply.old }
    ensures { spec.Tells row.figures_room (row.figures_told (Class.figures_numbers replied)) reply.old result reply.new }
{
    match replied {
        Ok(f) => put_figures(Head::Answered(0), f, reply),
        Err(x) => put_figures(files::refused(x), Figures::none(), reply),
    }
}

// The figures of a list of marks.
#[unsafe(no_mangle)]
pub extern "C" fn pizwoter_figures(marks: &[i32], reply: &mut [i64]) -> i32
    ensures { spec.Tells row.figures_room (row.figured marks.now) reply.old result reply.new }
{
    if reply.len() < FIGURES {
        return reply::SHORT;
    }
    put(class::of_list(marks), reply)
}

// The figures of two classes joined, by their totals.
#[unsafe(no_mangle)]
pub extern "C" fn pizwoter_join(
    first_count: u32,
    first_sum: i64,
    first_squares: i64,
    second_count: u32,
    second_sum: i64,
    second_squares: i64,
    reply: &mut [i64],
) -> i32
    ensures { spec.Tells row.figures_room (row.joined (sums.class first_count first_sum first_squares) (sums.class second_count second_sum second_squares))
        reply.old result reply.new }
{
    if reply.len() < FIGURES {
        return reply::SHORT;
    }
    let first = Totals {
        count: first_count,
        sum: first_sum,
        squares: first_squares,
    };
    let second = Totals {
        count: second_count,
        sum: second_sum,
        squares: second_squares,
    };
    put(class::of_join(first, second), reply)
}
