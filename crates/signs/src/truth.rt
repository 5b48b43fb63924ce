// The truth answers of conditions on signs.
ghost use Rattle.std.specs.Prelude.{◌≡◌};
ghost use Rattle.signs.specs.Truth as spec;
ghost use Rattle.signs.specs.declared.Comparison.TheVariants.{Equal, Greater};

use super::{Comparison, Sign, Truths, sets};

// Whether a number of the left set's signs can equal one of the right set's: where the sets have a sign in common.
fn may_equal(a: u8, b: u8) -> bool
    ensures { result ≡ (spec.compare_sets Equal a b).holds }
{
    (a & b) % 8 != 0
}

// Whether a number of the left set's signs can be greater than one of the right set's: a positive one can exceed any, and any can exceed a negative one.
fn may_exceed(a: u8, b: u8) -> bool
    ensures { result ≡ (spec.compare_sets Greater a b).holds }
{
    let plus = sets::has(a, Sign::Plus);
    let minus = sets::has(b, Sign::Minus);
    plus & (b % 8 != 0) | minus & (a % 8 != 0)
}

// The truth answers that a comparison of the sets' members can have.
#[tactic(auto, unfolding(crate::specs::Truth::compare_sets))]
pub fn compare_sets(comparison: Comparison, a: u8, b: u8) -> Truths
    ensures { result ≡ spec.compare_sets comparison a b }
{
    let equal = may_equal(a, b);
    let greater = may_exceed(a, b);
    let less = may_exceed(b, a);
    match comparison {
        Comparison::Equal => Truths {
            holds: equal,
            fails: less | greater,
        },
        Comparison::Greater => Truths {
            holds: greater,
            fails: equal | less,
        },
        Comparison::AtLeast => Truths {
            holds: equal | greater,
            fails: less,
        },
    }
}

// ¬ exchanges the answers.
#[tactic(auto, unfolding(crate::specs::Truth::negated))]
pub fn negated(t: Truths) -> Truths
    ensures { result ≡ spec.negated t }
{
    Truths {
        holds: t.fails,
        fails: t.holds,
    }
}

// ∧ combines all pairs of answers, so it has none where a side has none.
#[tactic(auto, unfolding(crate::specs::Truth::conjoined))]
pub fn conjoined(a: Truths, b: Truths) -> Truths
    ensures { result ≡ spec.conjoined a b }
{
    Truths {
        holds: a.holds & b.holds,
        fails: a.fails & (b.holds | b.fails) | a.holds & b.fails,
    }
}

// && gives false where the left may be false, and the right's answers where the left may be true.
#[tactic(auto, unfolding(crate::specs::Truth::and_then))]
pub fn and_then(a: Truths, b: Truths) -> Truths
    ensures { result ≡ spec.and_then a b }
{
    Truths {
        holds: a.holds & b.holds,
        fails: a.fails | a.holds & b.fails,
    }
}
