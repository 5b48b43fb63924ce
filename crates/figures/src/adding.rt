// A class's totals: those of a list of marks, and whether totals that were handed in can be those of a class.

ghost use Rattle.std.specs.Prelude.{◌≤◌, ◌≡◌};
ghost use Rattle.figures.specs.Parts.Bounds.{Bounded, within_limits};
ghost use Rattle.figures.specs.Figures;
ghost use Rattle.figures.specs.Totals as spec;

use crate::Totals;

impl Totals {
    // The totals of a list that answers 23 and 24 well.
    pub(crate) fn of_marks(marks: &[i32]) -> Totals
        requires { Figures.list_validity marks.now ≡ Ok tt }
        ensures { result ≡ spec.totals marks.now }
    {
        let mut sum: i64 = 0;
        let mut squares: i64 = 0;
        for x in marks {
            let mark = *x as i64;
            sum += mark;
            squares += mark * mark;
        }
        Totals {
            count: marks.len() as u32,
            sum,
            squares,
        }
    }

    // The number times the sum of squares, less the square of the sum.
    pub(crate) fn spread(self) -> i64
        requires { Bounded self }
        ensures { result ≡ spec.spread self }
    {
        self.count as i64 * self.squares - self.sum * self.sum
    }

    // Whether the sums are within their limits for so many marks.
    fn within_limits(self) -> bool
        requires { self.count ≤ spec.longest }
        ensures { result ≡ within_limits self }
    {
        let number = self.count as i64;
        -10000 * number <= self.sum
            && self.sum <= 10000 * number
            && 0 <= self.squares
            && self.squares <= 100000000 * number
    }

    // Whether a class of so many marks can have these sums. No number wraps: the count is small, and a sum is multiplied only where it is within its limits.
    #[tactic(auto, unfolding(crate::specs::Totals::possible))]
    pub(crate) fn possible(self) -> bool
        requires { self.count ≤ spec.longest }
        ensures { result ≡ spec.possible self }
    {
        self.within_limits() && 0 <= self.spread()
    }
}
