// The figures of a class: of a list of marks, and of two classes joined.

ghost use Rattle.std.specs.Prelude.{◌+◌, ◌≤◌, true, ◌&&◌, ◌≡◌, length};
ghost use Rattle.program.specs.Asking;
ghost use Rattle.figures.specs.Parts.Bounds.{Bounded};
ghost use Rattle.figures.specs.Figures as spec;
ghost use Rattle.figures.specs.Totals as sums;

use crate::{Figures, Fraction, Totals, reducing};
use program::Refusal;
use program::validation::ask;

// Whether so many marks are neither none nor too many.
#[tactic(auto, unfolding(crate::specs::Totals::countable))]
fn countable(count: u64) -> bool
    ensures { result ≡ sums.countable count }
{
    1 <= count && count <= 4096
}

// Whether a mark is in the range.
#[tactic(auto, unfolding(crate::specs::Figures::in_range))]
fn in_range(mark: i32) -> bool
    ensures { result ≡ spec.in_range mark }
{
    -10000 <= mark && mark <= 10000
}

// Whether every mark is in the range. Nothing ends the loop early, so that the machine looks at several marks at once.
fn all_in_range(marks: &[i32]) -> bool
    ensures { result ≡ true → spec.InRange marks.now }
{
    let mut all = true;
    for mark in marks {
        all &= in_range(*mark);
    }
    all
}

// 24 of each mark in turn.
fn ask_each(marks: &[i32]) -> Result<(), Refusal>
    ensures { result ≡ Asking.ask_each (length marks.now) (spec.mark_validity marks.now) }
{
    for (i, mark) in marks.iter().enumerate() {
        ask(in_range(*mark), 24, i)?;
    }
    Ok(())
}

// 23 of a list of marks, then 24.
fn check(marks: &[i32]) -> Result<(), Refusal>
    ensures { result ≡ spec.list_validity marks.now }
{
    ask(countable(marks.len() as u64), 23, 0)?;
    if all_in_range(marks) {
        return Ok(());
    }
    ask_each(marks)
}

// Whether two classes have totals that can be joined. The joint count is asked about first: then neither class has more than 4,096 marks.
#[tactic(auto, unfolding(crate::specs::Totals::countable))]
fn joinable(first: Totals, second: Totals) -> bool
    ensures { result ≡ (sums.countable (first.count + second.count) && sums.possible first && sums.possible second) }
{
    countable(first.count as u64 + second.count as u64) && first.possible() && second.possible()
}

// The figures of a class with these totals.
fn of_totals(totals: Totals) -> Figures
    requires some { 1 ≤ totals.count }
    requires bounded { Bounded totals }
    ensures { result ≡ spec.figures_of totals }
{
    let number = totals.count as u64;
    Figures {
        totals,
        mean: reducing::lowest(totals.sum, number),
        variance: reducing::lowest(totals.spread(), number * number),
    }
}

// The figures of a list of marks.
pub fn of_list(marks: &[i32]) -> Result<Figures, Refusal>
    ensures value { result ≡ spec.list_figures marks.now }
    ensures numbers { spec.figures_numbers result ≡ spec.figures_row marks.now }
{
    check(marks)?;
    Ok(of_totals(Totals::of_marks(marks)))
}

// The figures of two classes joined, by their totals.
pub fn of_join(first: Totals, second: Totals) -> Result<Figures, Refusal>
    ensures value { result ≡ spec.join_figures first second }
    ensures numbers { spec.figures_numbers result ≡ spec.join_row first second }
{
    ask(joinable(first, second), 23, 0)?;
    Ok(of_totals(Totals {
        count: first.count + second.count,
        sum: first.sum + second.sum,
        squares: first.squares + second.squares,
    }))
}

impl Figures {
    // What a row has in their place where a class is refused: zero totals, and both fractions 0 over 1.
    pub fn none() -> Figures
        ensures { result ≡ spec.no_figures }
    {
        let nought = Fraction {
            numerator: 0,
            denominator: 1,
        };
        Figures {
            totals: Totals {
                count: 0,
                sum: 0,
                squares: 0,
            },
            mean: nought,
            variance: nought,
        }
    }
}
