// The sheet program's answers to many inputs: for each argument, the name of a file that `oracle/` makes, its name and what the sheet program prints of it.
#![tactic(auto)]

use std::io::{BufWriter, Write};
use std::rt::{Env, Files};
use std::{fs, io, str};

fn print_named<R: Files + Eprint, W: Write>(rt: &R, out: &mut W, path: &str) -> io::Result<()> {
    match fs::open(rt, path) {
        Ok(mut file) => {
            writeln!(out, "{path}:")?;
            listing::print_read(&mut file, out)
        }
        Err(error) => eprintln!(rt; "{path}: {error}"),
    }
}

// Answers argument `k`, and whether there is one.
fn print_argument<R: Env + Files + Eprint, W: Write>(
    rt: &R,
    out: &mut W,
    k: usize,
) -> io::Result<bool> {
    let mut path = [0u8; 4096];
    let Ok(length) = rt.arg(k, &mut path) else {
        return Ok(false);
    };
    match str::from_utf8(&path[..length]) {
        Ok(name) => print_named(rt, out, name)?,
        Err(error) => eprintln!(rt; "argument {k}: {error}")?,
    }
    Ok(true)
}

fn main(rt: HostRuntime) -> io::Result<()> {
    let mut out = BufWriter::new(rt.alloc(), io::writer(&rt))?;
    for k in 1..1000usize {
        if !print_argument(&rt, &mut out, k)? {
            break;
        }
    }
    out.flush()
}
