// Fractions in lowest terms, by Euclid's algorithm.

ghost use Rattle.std.specs.Prelude.{◌<◌, ◌≤◌, ◌≡◌};
ghost use Rattle.figures.specs.Fraction as spec;

use crate::Fraction;

// The greatest common divisor.
fn gcd(a: u64, b: u64) -> u64
    ensures { result ≡ spec.gcd a b }
{
    let mut x = a;
    let mut y = b;
    while y != 0 {
        let rest = x % y;
        x = y;
        y = rest;
    }
    x
}

// A number over a positive one, in lowest terms.
pub(crate) fn lowest(z: i64, d: u64) -> Fraction
    requires { spec.Reducible z d }
    ensures { result ≡ spec.lowest z d }
{
    let g = gcd(z.unsigned_abs(), d);
    Fraction {
        numerator: z / g as i64,
        denominator: (d / g) as i64,
    }
}
