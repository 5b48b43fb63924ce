// Signs and sets of signs. A set is a byte of which three bits count: one above 7 means its remainder by 8, as `has` reads it.
ghost use Rattle.std.specs.Prelude.{◌≡◌};
ghost use Rattle.signs.specs.Sign as spec;

use super::Sign;

// The sign of a number.
pub fn sign_of(z: i32) -> Sign
    ensures { result ≡ spec.sign_of z }
{
    if z < 0 {
        return Sign::Minus;
    }
    if 0 < z { Sign::Plus } else { Sign::Zero }
}

// The set of one sign.
#[tactic(auto, unfolding(crate::specs::Sign::single))]
pub fn single(s: Sign) -> u8
    ensures { result ≡ spec.single s }
{
    match s {
        Sign::Minus => 1,
        Sign::Zero => 2,
        Sign::Plus => 4,
    }
}

// Whether a set has a sign.
pub fn has(set: u8, s: Sign) -> bool
    ensures { result ≡ spec.has set s }
{
    set / single(s) % 2 == 1
}

// The signs of either set.
pub fn unite(a: u8, b: u8) -> u8
    ensures { result ≡ spec.unite a b }
{
    (a | b) % 8
}

// A set with a sign added.
pub fn added(set: u8, s: Sign) -> u8
    ensures { result ≡ spec.added s set }
{
    unite(set, single(s))
}

// A set without a sign: with the sign added, the sign's number can be taken off.
pub fn removed(set: u8, s: Sign) -> u8
    ensures { result ≡ spec.removed s set }
{
    added(set, s) - single(s)
}
