// Runs the ends of the range, zero, one and minus one through all five operators, a line for each case: operator, left, right, value.
#![tactic(auto)]

use signs::{Operator, Reason, number};
use std::io;
use std::io::{BufWriter, Write};

const OPERATORS: [Operator; 5] = [
    Operator::Add,
    Operator::Sub,
    Operator::Mul,
    Operator::Div,
    Operator::Pow,
];

const ENDS: [i32; 5] = [i32::MIN, -1, 0, 1, i32::MAX];

fn print_value<W: Write>(out: &mut W, v: Result<i32, Reason>) -> io::Result<()> {
    match v {
        Ok(z) => write!(out, "{z}"),
        Err(reason) => printing::undefined(out, reason),
    }
}

fn symbol(operator: Operator) -> char {
    match operator {
        Operator::Add => '+',
        Operator::Sub => '-',
        Operator::Mul => '*',
        Operator::Div => '/',
        Operator::Pow => '^',
    }
}

fn print_case<W: Write>(out: &mut W, operator: Operator, a: i32, b: i32) -> io::Result<()> {
    write!(out, "{} {a} {b} ", symbol(operator))?;
    print_value(out, number::apply(operator, a, b))?;
    writeln!(out)
}

fn main(rt: HostRuntime) -> io::Result<()> {
    let mut out = BufWriter::new(rt.alloc(), io::writer(&rt))?;
    for operator in OPERATORS {
        for a in ENDS {
            for b in ENDS {
                print_case(&mut out, operator, a, b)?;
            }
        }
    }
    out.flush()
}
