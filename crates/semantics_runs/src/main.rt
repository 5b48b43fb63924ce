// Reads test files from `runs.bin`, which `oracle/` makes, and prints for each its title and what the library replies of it.
//
// A record of `runs.bin` is a mode, the length of a title, two numbers (two bytes each), the lengths in bytes of a memory, of a list of step calls and of a
// file (two bytes each), and then the title, the memory, the list and the file. A cell of the memory is four bytes, two's complement; a step call is the
// number of an edge, two bytes. Numbers have the high byte first. Mode 1 is a run from node 0 whose budget is the first number; mode 2 is the
// step calls in turn, from a run whose node is the first number and whose count is the second. 16 more asks for document 01's graph by name, 32 more for the
// deterministic one.
#![tactic(auto)]

use program::{Construction, file};
use semantics::{Ended, Ending, Run, Stepped, running};
use std::io::{BufWriter, Read, Write};
use std::{fs, io};

// What the first twelve bytes of a record say: lengths are in bytes.
#[derive(Clone, Copy)]
struct Head {
    mode: u8,
    title: usize,
    first: u16,
    second: u16,
    cells: usize,
    calls: usize,
    length: usize,
}

fn print_ending<W: Write>(out: &mut W, ending: Ending) -> io::Result<()> {
    match ending {
        Ending::Arrived => write!(out, "answer 0"),
        Ending::Spent => write!(out, "answer 1"),
        Ending::Stuck => write!(out, "answer 2"),
        Ending::Refused(x) => printing::refusal(out, x),
    }
}

fn print_run<W: Write>(out: &mut W, run: Run) -> io::Result<()> {
    write!(out, "node {} count {}", run.node, run.count)
}

// A cell goes into a checksum by its sign and its magnitude.
fn mix_cell(sum: u64, z: i32) -> u64 {
    let sign = u64::from(z < 0);
    let magnitude = u64::from(z.unsigned_abs());
    cases::mix(cases::mix(sum, sign), magnitude)
}

// The cells, where they are few, and a checksum of all.
fn print_memory<W: Write>(out: &mut W, memory: &[i32]) -> io::Result<()> {
    write!(out, " memory")?;
    if memory.len() <= 16 {
        for z in memory {
            write!(out, " {z}")?;
        }
    }
    let sum = memory.iter().fold(1, |sum, z| mix_cell(sum, *z));
    writeln!(out, " sum {sum}")
}

// A run on the graph by a construction, or where the caller names none.
fn run_by(on: Option<Construction>, s: &[u8], budget: u16, memory: &mut [i32]) -> Ended {
    match on {
        None => running::run(s, budget, memory),
        Some(on) => running::run_on(on, s, budget, memory),
    }
}

// Mode 1: a budgeted run.
fn answer_run<W: Write>(
    out: &mut W,
    on: Option<Construction>,
    s: &[u8],
    budget: u16,
    memory: &mut [i32],
) -> io::Result<()> {
    let ended = run_by(on, s, budget, memory);
    let ending = ended.ending;
    print_ending(out, ending)?;
    write!(out, "; ")?;
    print_run(out, ended.run)?;
    print_memory(out, memory)
}

// A step on such a graph.
fn step_by(run: Run, on: Option<Construction>, s: &[u8], edge: u16, memory: &mut [i32]) -> Stepped {
    match on {
        None => run.step(s, edge, memory),
        Some(on) => run.step_on(on, s, edge, memory),
    }
}

// A step call, and its outcome printed.
fn step_told<W: Write>(
    out: &mut W,
    run: Run,
    on: Option<Construction>,
    s: &[u8],
    edge: u16,
    memory: &mut [i32],
) -> io::Result<Run> {
    let stepped = step_by(run, on, s, edge, memory);
    let outcome = stepped.outcome;
    printing::outcome(out, outcome)?;
    write!(out, "; ")?;
    Ok(stepped.run)
}

fn step_all<W: Write>(
    out: &mut W,
    from: Run,
    on: Option<Construction>,
    s: &[u8],
    calls: &[u8],
    memory: &mut [i32],
) -> io::Result<Run> {
    let mut run = from;
    for call in calls.chunks_exact(2) {
        run = step_told(out, run, on, s, file::word_at(call, 0), memory)?;
    }
    Ok(run)
}

fn start(node: u16, count: u16) -> Run {
    if node == 0 && count == 0 {
        Run::fresh()
    } else {
        Run { node, count }
    }
}

// Mode 2: step calls in turn.
fn answer_calls<W: Write>(
    out: &mut W,
    run: Run,
    on: Option<Construction>,
    s: &[u8],
    calls: &[u8],
    memory: &mut [i32],
) -> io::Result<()> {
    let stepped = step_all(out, run, on, s, calls, memory)?;
    print_run(out, stepped)?;
    print_memory(out, memory)
}

fn answer<W: Write>(
    out: &mut W,
    h: Head,
    s: &[u8],
    calls: &[u8],
    memory: &mut [i32],
) -> io::Result<()> {
    let on = cases::named(h.mode);
    match h.mode % 16 {
        1 => answer_run(out, on, s, h.first, memory),
        2 => answer_calls(out, start(h.first, h.second), on, s, calls, memory),
        _ => writeln!(out, "unknown mode"),
    }
}

// Answers a record whose step calls and file come next, and says whether all of them are there.
fn answer_listed<R: Read, W: Write>(
    input: &mut R,
    out: &mut W,
    h: Head,
    memory: &mut [i32],
) -> io::Result<bool> {
    let mut call_bytes = [0u8; 1024];
    let Some(calls) = cases::read_front(input, &mut call_bytes, h.calls) else {
        writeln!(out, "calls cut")?;
        return Ok(false);
    };
    let mut bytes = [0u8; 8192];
    let Some(s) = cases::read_front(input, &mut bytes, h.length) else {
        writeln!(out, "file cut")?;
        return Ok(false);
    };
    answer(out, h, s, calls, memory)?;
    Ok(true)
}

// Answers a record whose title has been read.
fn answer_record<R: Read, W: Write>(input: &mut R, out: &mut W, h: Head) -> io::Result<bool> {
    let mut cells = [0i32; 1024];
    let Some(memory) = cells.get_mut(..h.cells / 4) else {
        return Ok(false);
    };
    let mut bytes = [0u8; 4096];
    let Some(list) = cases::read_front(input, &mut bytes, h.cells) else {
        writeln!(out, "cells cut")?;
        return Ok(false);
    };
    cases::set_cells(memory, list);
    answer_listed(input, out, h, memory)
}

fn head_of(bytes: &[u8]) -> Head {
    Head {
        mode: file::byte_at(bytes, 0),
        title: usize::from(file::byte_at(bytes, 1)),
        first: file::word_at(bytes, 2),
        second: file::word_at(bytes, 4),
        cells: usize::from(file::word_at(bytes, 6)),
        calls: usize::from(file::word_at(bytes, 8)),
        length: usize::from(file::word_at(bytes, 10)),
    }
}

fn answer_headed<R: Read, W: Write>(input: &mut R, out: &mut W, h: Head) -> io::Result<bool> {
    if cases::title(input, out, h.title)? {
        answer_record(input, out, h)
    } else {
        Ok(false)
    }
}

// Nothing says that a file ends: the loop counts its turns, up to a number that no run reaches.
fn answer_all<R: Read, W: Write>(input: &mut R, out: &mut W) -> io::Result<()> {
    for _ in 0..u64::MAX {
        let Some(head) = cases::head::<12, R, W>(input, out)? else {
            break;
        };
        if !answer_headed(input, out, head_of(&head))? {
            break;
        }
    }
    Ok(())
}

fn main(rt: HostRuntime) -> io::Result<()> {
    let path = "runs.bin";
    let mut out = BufWriter::new(rt.alloc(), io::writer(&rt))?;
    match fs::open(&rt, path) {
        Ok(mut file) => answer_all(&mut file, &mut out)?,
        Err(error) => eprintln!(rt; "{path}: {error}")?,
    }
    out.flush()
}
