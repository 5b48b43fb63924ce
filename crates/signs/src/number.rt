// Numbers: the value of an operator on two numbers, worked out exactly in 64 bits, and comparisons.
ghost use Rattle.std.specs.Prelude.{◌≡◌, cond, ◌+◌, ◌%◌, ltb};
ghost use Rattle.signs.specs.Number as spec;

use super::{Comparison, Operator, Reason};

// An exact result as a value.
fn exact(z: i64) -> Result<i32, Reason>
    ensures { result ≡ spec.exact z }
{
    if z < -2147483648 {
        return Err(Reason::OutOfRange);
    }
    if 2147483647 < z {
        Err(Reason::OutOfRange)
    } else {
        Ok(z as i32)
    }
}

// The quotient without its fraction: a zero divisor is asked about before the range.
#[tactic(auto, unfolding(crate::specs::Number::quotient))]
fn quotient(a: i32, b: i32) -> Result<i32, Reason>
    ensures { result ≡ spec.quotient a b }
{
    if b == 0 {
        Err(Reason::DivisorZero)
    } else {
        exact(a as i64 / b as i64)
    }
}

// The product of so many times the same factor; it stops where the product leaves the range, since no further factor brings it back.
fn repeated(base: i32, count: u32) -> Result<i32, Reason>
    ensures { result ≡ spec.exact (spec.power base count) }
{
    let mut product: i32 = 1;
    for _ in 0..count {
        product = exact(product as i64 * base as i64)?;
    }
    Ok(product)
}

// An exponent of at most 33 that gives the same value: from 32 on, a power of 0, 1 or -1 goes by the exponent's parity, and any other is out of range.
fn enough(n: u32) -> u32
    ensures { result ≡ cond (ltb n 32) n (32 + n % 2) }
{
    if n < 32 { n } else { 32 + n % 2 }
}

// A power: a negative exponent is asked about before the range.
#[tactic(auto, unfolding(crate::specs::Number::raised))]
fn raised(a: i32, b: i32) -> Result<i32, Reason>
    ensures { result ≡ spec.raised a b }
{
    if b < 0 {
        Err(Reason::ExponentNegative)
    } else {
        repeated(a, enough(b as u32))
    }
}

// The value of an operator on two numbers.
#[tactic(auto, unfolding(crate::specs::Number::apply, crate::specs::Number::value_row))]
pub fn apply(operator: Operator, a: i32, b: i32) -> Result<i32, Reason>
    ensures value { result ≡ spec.apply operator a b }
    ensures numbers { spec.value_numbers result ≡ spec.value_row operator a b }
{
    let x = a as i64;
    let y = b as i64;
    match operator {
        Operator::Add => exact(x + y),
        Operator::Sub => exact(x - y),
        Operator::Mul => exact(x * y),
        Operator::Div => quotient(a, b),
        Operator::Pow => raised(a, b),
    }
}

// The truth of a comparison of two numbers.
#[tactic(auto, unfolding(crate::specs::Number::compares))]
pub fn compares(comparison: Comparison, a: i32, b: i32) -> bool
    ensures { result ≡ spec.compares comparison a b }
{
    match comparison {
        Comparison::Equal => a == b,
        Comparison::Greater => b < a,
        Comparison::AtLeast => b <= a,
    }
}
