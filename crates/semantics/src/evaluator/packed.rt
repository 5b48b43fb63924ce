// What an expression or a condition gave, as one number: a value as itself, a truth value as 1 or 0, a fault as 2^32 and the number of its reason. Nothing else reads or
// makes that number.
// One number stays in a register where Result<i32, Reason> goes through memory: tried in a recursion over an array, the enum is 55 % slower, and a struct of the one
// number takes the same instructions as the number alone.
ghost use Rattle.std.specs.Prelude.{◌≡◌, false, true, ℤ, ◌-◌, T, pos, nat_abs};
ghost use Rattle.std.specs.Int.Signed.{le_z, non_neg};
ghost use Rattle.signs.specs.Number.{equal};
ghost use Rattle.semantics.specs.Parts.Coding as coding;
ghost use Rattle.semantics.specs.Expression as spec;

use signs::Reason;
use std::marker::Model;

#[derive(Clone, Copy)]
pub(crate) struct Packed {
    number: i64,
}

impl Model for Packed {
    ghost Value = { ℤ };

    ghost view = { λ p. p.number };

    ghost invariant = { λ p. T (coding.is_code p.number) };

    ghost inverse = { λ z. record { number = z } };
}

// The reason with a number: 31 to 36.
fn reason_numbered(k: usize) -> Reason
    ensures { result ≡ coding.reason_numbered k }
{
    if k <= 31 {
        return Reason::ConditionFalse;
    }
    match k {
        32 => Reason::DivisorZero,
        33 => Reason::ExponentNegative,
        34 => Reason::IndexNegative,
        35 => Reason::IndexTooLarge,
        _ => Reason::OutOfRange,
    }
}

impl Packed {
    pub(crate) fn value(z: i32) -> Packed
        ensures { coding.evaluated result ≡ Ok z }
    {
        Packed {
            number: i64::from(z),
        }
    }

    pub(crate) fn truth(b: bool) -> Packed
        ensures { coding.decided result ≡ Ok b }
    {
        Packed {
            number: i64::from(b),
        }
    }

    pub(crate) fn fault(reason: Reason) -> Packed
        ensures evaluated { coding.evaluated result ≡ Err (spec.fault reason) }
        ensures decided { coding.decided result ≡ Err (spec.fault reason) }
    {
        Packed {
            number: 4294967296 + i64::from(reason.number()),
        }
    }

    // What an operator gave.
    pub(crate) fn of(v: Result<i32, Reason>) -> Packed
        ensures { coding.evaluated result ≡ spec.operated v }
    {
        match v {
            Ok(z) => Packed::value(z),
            Err(reason) => Packed::fault(reason),
        }
    }

    pub(crate) fn is_fault(self) -> bool
        ensures { result ≡ le_z (pos 4294967296) self }
    {
        4294967296 <= self.number
    }

    pub(crate) fn is_true(self) -> bool
        ensures { result ≡ equal self (pos 1) }
    {
        self.number == 1
    }

    // The value, where it is no fault.
    pub(crate) fn unpacked(self) -> i32
        requires { le_z (pos 4294967296) self ≡ false }
        ensures { result ≡ self }
    {
        self.number as i32
    }

    // The same as an index.
    pub(crate) fn index(self) -> usize
        requires { T (non_neg self) }
        ensures { result ≡ nat_abs self }
    {
        self.number as usize
    }

    // The reason, where it is a fault.
    pub(crate) fn reason(self) -> Reason
        requires { le_z (pos 4294967296) self ≡ true }
        ensures { result ≡ coding.reason_numbered (nat_abs self - 4294967296) }
    {
        reason_numbered(self.number as usize - 4294967296)
    }
}
