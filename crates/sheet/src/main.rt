// The sheet program (document 01, "The sheet program and the factorial lesson"): a script and its start list from standard input, five fields, and the
// solver's listing on standard output, or one refusal.
#![tactic(auto)]

use std::io;
use std::io::{BufWriter, Write};

fn main(rt: HostRuntime) -> io::Result<()> {
    let mut out = BufWriter::new(rt.alloc(), io::writer(&rt))?;
    listing::print_read(&mut rt.reader(), &mut out)?;
    out.flush()
}
