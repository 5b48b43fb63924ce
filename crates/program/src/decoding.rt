// What an entry of given numbers is.

ghost use Rattle.std.specs.Prelude.{◌≡◌, ◌+◌, ◌*◌};
ghost use Rattle.program.specs.File;
ghost use Rattle.program.specs.Kind;

use crate::{ArithNode, BooleanNode, CommandNode, Jump};
use signs::{Comparison, Operator};

// Two halves of a number, the high one first.
pub fn joined(p: u16, q: u16) -> u32
    ensures { result ≡ p * 65536 + q }
{
    p as u32 * 65536 + q as u32
}

// A number of 32 bits as two's complement.
pub fn signed(x: u32) -> i32
    ensures { result ≡ File.signed32 x }
{
    x.cast_signed()
}

// What an arithmetic entry of these numbers is.
#[tactic(auto, unfolding(crate::specs::Kind::arith_kind))]
pub fn arith_kind(kind: u16, p: u16, q: u16) -> ArithNode
    ensures { result ≡ Kind.arith_kind (record { kind = kind; p = p; q = q; r = 0 }) }
{
    match kind {
        0 => ArithNode::Number(signed(joined(p, q))),
        1 => ArithNode::Variable(p),
        2 => ArithNode::Element(p, q),
        3 => ArithNode::Operator(Operator::Add, p, q),
        4 => ArithNode::Operator(Operator::Sub, p, q),
        5 => ArithNode::Operator(Operator::Mul, p, q),
        6 => ArithNode::Operator(Operator::Div, p, q),
        7 => ArithNode::Operator(Operator::Pow, p, q),
        _ => ArithNode::Number(0),
    }
}

// A boolean one.
#[tactic(auto, unfolding(crate::specs::Kind::boolean_kind))]
pub(crate) fn boolean_kind(kind: u16, p: u16, q: u16) -> BooleanNode
    ensures { result ≡ Kind.boolean_kind (record { kind = kind; p = p; q = q; r = 0 }) }
{
    match kind {
        0 => BooleanNode::True,
        1 => BooleanNode::Comparison(Comparison::Equal, p, q),
        2 => BooleanNode::Comparison(Comparison::Greater, p, q),
        3 => BooleanNode::Comparison(Comparison::AtLeast, p, q),
        4 => BooleanNode::Both(p, q),
        5 => BooleanNode::AndThen(p, q),
        6 => BooleanNode::Not(p),
        _ => BooleanNode::True,
    }
}

// A command.
#[tactic(auto, unfolding(crate::specs::Kind::command_kind))]
pub(crate) fn command_kind(kind: u16, p: u16, q: u16, r: u16) -> CommandNode
    ensures { result ≡ Kind.command_kind (record { kind = kind; p = p; q = q; r = r }) }
{
    match kind {
        0 => CommandNode::Skip,
        1 => CommandNode::Assign(p, q),
        2 => CommandNode::Store(p, q, r),
        3 => CommandNode::Sequence(p, q),
        4 => CommandNode::Conditional(p),
        5 => CommandNode::Iteration(p),
        6 => CommandNode::Guarded(p, q),
        7 => CommandNode::Choice(p, q),
        8 => CommandNode::Jump(Jump::Break),
        9 => CommandNode::Jump(Jump::Continue),
        _ => CommandNode::Skip,
    }
}
