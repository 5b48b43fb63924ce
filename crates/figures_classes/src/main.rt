// Reads test cases from `classes.bin`, which `oracle/` makes, and prints for each its title and the figures that the library replies.
//
// A case of `classes.bin` is a mode, the length of a title, the length of numbers in bytes (two bytes), the title and the numbers. Numbers have the high byte first,
// and marks and sums are two's complement. Modes:
//
// 1. the figures of a list of marks, four bytes each;
// 2. the figures of two classes joined: of each the count in four bytes, the sum and the sum of squares in eight bytes each.
//
// A line has the answer, which is 0 or a refusal's number and place, then count, sum and sum of squares, and then the mean and the variance, each numerator first.
#![tactic(auto)]

use figures::{Figures, Fraction, Totals, class};
use program::{Refusal, file};
use std::io::{BufWriter, Read, Write};
use std::{fs, io};

fn print_totals<W: Write>(out: &mut W, t: Totals) -> io::Result<()> {
    write!(out, " {} {} {}", t.count, t.sum, t.squares)
}

fn print_fraction<W: Write>(out: &mut W, f: Fraction) -> io::Result<()> {
    write!(out, " {} {}", f.numerator, f.denominator)
}

fn print_figures<W: Write>(out: &mut W, f: Figures) -> io::Result<()> {
    print_totals(out, f.totals)?;
    print_fraction(out, f.mean)?;
    print_fraction(out, f.variance)?;
    writeln!(out)
}

fn print_reply<W: Write>(out: &mut W, reply: Result<Figures, Refusal>) -> io::Result<()> {
    match reply {
        Ok(f) => {
            write!(out, "0")?;
            print_figures(out, f)
        }
        Err(x) => {
            write!(out, "{} {}", x.number, x.offset)?;
            print_figures(out, Figures::none())
        }
    }
}

// Mode 1: a list of marks. There is room for more than a class may have.
fn answer_list<W: Write>(out: &mut W, bytes: &[u8]) -> io::Result<()> {
    let mut room = [0i32; 5120];
    if let Some(marks) = room.get_mut(..bytes.len() / 4) {
        cases::set_cells(marks, bytes);
        print_reply(out, class::of_list(marks))?;
    }
    Ok(())
}

// The totals in the twenty bytes at a place.
fn totals(bytes: &[u8]) -> Totals {
    Totals {
        count: cases::long_at(bytes, 0),
        sum: cases::signed_at(bytes, 4),
        squares: cases::signed_at(bytes, 12),
    }
}

// Mode 2: two classes joined.
fn answer_join<W: Write>(out: &mut W, bytes: &[u8]) -> io::Result<()> {
    let second = bytes.get(20..).unwrap_or(&[]);
    print_reply(out, class::of_join(totals(bytes), totals(second)))
}

fn answer<W: Write>(out: &mut W, mode: u8, bytes: &[u8]) -> io::Result<()> {
    match mode {
        1 => answer_list(out, bytes),
        2 => answer_join(out, bytes),
        _ => writeln!(out, "unknown mode"),
    }
}

// Answers a case whose numbers take so many bytes, and says whether all of them are there.
fn answer_numbers<R: Read, W: Write>(
    input: &mut R,
    out: &mut W,
    mode: u8,
    n: usize,
) -> io::Result<bool> {
    let mut room = [0u8; 20480];
    let Some(bytes) = cases::read_front(input, &mut room, n) else {
        writeln!(out, "numbers cut")?;
        return Ok(false);
    };
    answer(out, mode, bytes)?;
    Ok(true)
}

// What the four bytes of a head say: the rest of the record is read and answered. Says whether to go on.
fn answer_record<R: Read, W: Write>(input: &mut R, out: &mut W, head: &[u8]) -> io::Result<bool> {
    let mode = file::byte_at(head, 0);
    let title = file::byte_at(head, 1);
    let length = file::word_at(head, 2);
    if cases::title(input, out, usize::from(title))? {
        answer_numbers(input, out, mode, usize::from(length))
    } else {
        Ok(false)
    }
}

// Nothing says that a file ends: the loop counts its turns, up to a number that no run reaches.
fn answer_all<R: Read, W: Write>(input: &mut R, out: &mut W) -> io::Result<()> {
    for _ in 0..u64::MAX {
        let Some(head) = cases::head::<4, R, W>(input, out)? else {
            break;
        };
        if !answer_record(input, out, &head)? {
            break;
        }
    }
    Ok(())
}

fn main(rt: HostRuntime) -> io::Result<()> {
    let path = "classes.bin";
    let mut out = BufWriter::new(rt.alloc(), io::writer(&rt))?;
    match fs::open(&rt, path) {
        Ok(mut file) => answer_all(&mut file, &mut out)?,
        Err(error) => eprintln!(rt; "{path}: {error}")?,
    }
    out.flush()
}
