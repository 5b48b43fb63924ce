// What the test programs print: the engine's answers in the words of its documents. Each function writes to the writer that it is lent. The sheet program's
// text is `listing`'s.
//
// A function that prints has no contract: nothing is claimed of what reaches standard output.
#![tactic(auto)]

use analysis::Mark;
use program::Refusal;
use semantics::Outcome;
use signs::Reason;
use std::io;
use std::io::Write;

pub fn refusal<W: Write>(out: &mut W, x: Refusal) -> io::Result<()> {
    write!(out, "refused {} at {}", x.number, x.offset)
}

pub fn undefined<W: Write>(out: &mut W, reason: Reason) -> io::Result<()> {
    write!(out, "undefined {}", reason.number())
}

pub fn outcome<W: Write>(out: &mut W, x: Outcome) -> io::Result<()> {
    match x {
        Outcome::Taken => write!(out, "taken"),
        Outcome::Undefined(y) => undefined(out, y.reason),
        Outcome::Refused(y) => refusal(out, y),
    }
}

// An index mark.
pub fn mark<W: Write>(out: &mut W, x: Mark) -> io::Result<()> {
    match x {
        Mark::Clean => write!(out, "index clean"),
        Mark::Unclean { record, edge } => write!(out, "index record {record} arrow {edge}"),
    }
}
