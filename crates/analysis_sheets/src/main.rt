// Reads test cases from `sheets.bin`, which `oracle/` makes, and prints for each its title and what the library replies of it.
//
// A case of `sheets.bin` is a mode, the length of a title, a number (four bytes), the length of a list of further numbers in bytes and the length of a file
// (two bytes each), how many chunks a start list has and how many a sheet has; and then the title, the chunks of the start list, those of the sheet, the further numbers
// and the file. A chunk is how often its bytes are repeated, their length (two bytes each), at most 8192, and the bytes: so a list of thousands of records takes
// little room. Numbers have the high byte first. Modes:
//
// 1. the sheet judged over the start list: the verdict and the offending record;
// 2. the index mark of the sheet;
// 3. the start list solved into a buffer of so many bytes as the number says, filled with 170 beforehand: what the solver answers, the records where they take at most 128 bytes,
//    a checksum of the buffer, and the verdict on what was solved;
// 4. places split, which are the further numbers, four bytes each;
// 5. the third term tried: the further numbers are as many cells of a memory as the number says, four bytes each, and then step calls, two bytes each. It prints what the solver
//    answers and, for the run before the first call and after each, whether the sheet has the memory's record at the run's node; then the sheet's index mark.
//
// 16 more asks modes 1, 3 and 5 for document 01's graph by name, 32 more for the deterministic one.
#![tactic(auto)]

ghost use Rattle.std.specs.Prelude.{◌<◌, ◌≤◌, length};

use analysis::{
    Mark, RecordList, Solved, Solving, Split, Unreadable, Verdict, WrongByte, judging, solver,
    splitting,
};
use program::{Construction, Refusal, file};
use semantics::{Run, Stepped};
use std::cmp::Ordering;
use std::io::{BufWriter, Read, Write};
use std::{fs, io};

// What the first twelve bytes of a case say: lengths are in bytes.
#[derive(Clone, Copy)]
struct Head {
    mode: u8,
    title: usize,
    number: u32,
    further: usize,
    length: usize,
    start_chunks: u8,
    sheet_chunks: u8,
}

fn print_list<W: Write>(out: &mut W, list: RecordList) -> io::Result<()> {
    match list {
        RecordList::Initial => write!(out, " of the start list"),
        RecordList::Solution => write!(out, " of the sheet"),
    }
}

fn print_wrong<W: Write>(out: &mut W, x: WrongByte) -> io::Result<()> {
    write!(out, "refused 17 at {}", x.offset)?;
    print_list(out, x.list)
}

fn print_unreadable<W: Write>(out: &mut W, x: Unreadable) -> io::Result<()> {
    match x {
        Unreadable::Refused(y) => printing::refusal(out, y),
        Unreadable::Malformed(w) => print_wrong(out, w),
    }
}

fn print_marking<W: Write>(out: &mut W, marking: Result<Mark, Unreadable>) -> io::Result<()> {
    match marking {
        Ok(mark) => printing::mark(out, mark),
        Err(x) => print_unreadable(out, x),
    }
}

fn print_accepted<W: Write>(out: &mut W, mark: Mark) -> io::Result<()> {
    write!(out, "accepted ")?;
    printing::mark(out, mark)
}

fn print_verdict<W: Write>(out: &mut W, verdict: Result<Verdict, Unreadable>) -> io::Result<()> {
    match verdict {
        Ok(Verdict::InitialMissing { record }) => write!(out, "41 record {record}"),
        Ok(Verdict::ResultMissing { record, edge }) => {
            write!(out, "42 record {record} arrow {edge}")
        }
        Ok(Verdict::Accepted(mark)) => print_accepted(out, mark),
        Err(x) => print_unreadable(out, x),
    }
}

fn print_solving<W: Write>(out: &mut W, solving: Solving) -> io::Result<()> {
    match solving {
        Solving::Finished => write!(out, "finished"),
        Solving::Full => write!(out, "refused 18 at 0"),
    }
}

fn print_solved<W: Write>(out: &mut W, solved: Result<Solved, Unreadable>) -> io::Result<()> {
    match solved {
        Ok(list) => print_solving(out, list.solving),
        Err(x) => print_unreadable(out, x),
    }
}

// The number of records that the solver wrote.
fn written(solved: Result<Solved, Unreadable>) -> u16 {
    match solved {
        Ok(list) => list.count,
        Err(_) => 0,
    }
}

fn print_refused<W: Write>(out: &mut W, x: Refusal) -> io::Result<()> {
    printing::refusal(out, x)?;
    write!(out, " ")
}

fn print_split<W: Write>(out: &mut W, split: Result<Split, Refusal>) -> io::Result<()> {
    let place = match split {
        Ok(place) => place,
        Err(x) => {
            print_refused(out, x)?;
            Split {
                record: 0,
                column: 0,
            }
        }
    };
    write!(out, "record {} column {}; ", place.record, place.column)
}

fn print_bytes<W: Write>(out: &mut W, bytes: &[u8]) -> io::Result<()> {
    for x in bytes {
        write!(out, " {x}")?;
    }
    Ok(())
}

// The calls of the library that are asked about, each in a function of its own.

// Each asks for the graph by a construction, or where the caller names none.

fn answer_judge<W: Write>(
    out: &mut W,
    on: Option<Construction>,
    s: &[u8],
    initial: &[u8],
    sheet: &[u8],
) -> io::Result<()> {
    match on {
        None => print_verdict(out, judging::judge(s, initial, sheet)),
        Some(on) => print_verdict(out, judging::judge_on(on, s, initial, sheet)),
    }
}

// The offending record is a part of either list, so that here and above the two have one lifetime.
fn answer_offending<'a, W: Write>(
    out: &mut W,
    on: Option<Construction>,
    s: &[u8],
    initial: &'a [u8],
    sheet: &'a [u8],
) -> io::Result<()> {
    write!(out, "; offending")?;
    match on {
        None => print_bytes(out, judging::offending(s, initial, sheet)),
        Some(on) => print_bytes(out, judging::offending_on(on, s, initial, sheet)),
    }
}

fn answer_mark<W: Write>(out: &mut W, s: &[u8], sheet: &[u8]) -> io::Result<()> {
    print_marking(out, judging::index_mark(s, sheet))
}

fn solve_by(
    on: Option<Construction>,
    s: &[u8],
    initial: &[u8],
    buffer: &mut [u8],
) -> Result<Solved, Unreadable> {
    match on {
        None => solver::solve(s, initial, buffer),
        Some(on) => solver::solve_on(on, s, initial, buffer),
    }
}

// Says what the solver answers, and gives the number of records that it wrote.
fn answer_solve<W: Write>(
    out: &mut W,
    on: Option<Construction>,
    s: &[u8],
    initial: &[u8],
    buffer: &mut [u8],
) -> io::Result<u16> {
    let solved = solve_by(on, s, initial, buffer);
    print_solved(out, solved)?;
    let count = written(solved);
    write!(out, " with {count}")?;
    Ok(count)
}

fn answer_split<W: Write>(out: &mut W, s: &[u8], at: u32) -> io::Result<()> {
    print_split(out, splitting::split(s, at))
}

// Mode 1: the verdict, and the offending record.
fn answer_verdict<'a, W: Write>(
    out: &mut W,
    on: Option<Construction>,
    s: &[u8],
    initial: &'a [u8],
    sheet: &'a [u8],
) -> io::Result<()> {
    answer_judge(out, on, s, initial, sheet)?;
    answer_offending(out, on, s, initial, sheet)
}

// The width of a record of a sheet. A file that is not well formed may say anything of its names.
fn width_of(s: &[u8]) -> usize
    ensures some { 2 ≤ result }
    ensures within { result ≤ 34 }
{
    usize::from(file::name_count(s).min(32)) + 2
}

// The first records of a list, so many, where it has them.
fn records<'a>(list: &'a [u8], count: u16, width: usize) -> Option<&'a [u8]> {
    list.get(..usize::from(count).saturating_mul(width))
}

// A solved sheet's records, where they are few, with a semicolon before each.
fn print_few<W: Write>(out: &mut W, sheet: &[u8], width: usize) -> io::Result<()>
    requires { 0 < width }
{
    if sheet.len() <= 128 {
        for record in sheet.chunks(width) {
            write!(out, ";")?;
            print_bytes(out, record)?;
        }
    }
    Ok(())
}

// Mode 3: the solver, with so many bytes of room: the solved part of the buffer, a checksum of the whole, and the verdict on the part.
fn answer_solver<W: Write>(
    out: &mut W,
    on: Option<Construction>,
    s: &[u8],
    initial: &[u8],
    room: usize,
) -> io::Result<()> {
    let mut bytes = [170u8; 140000];
    let Some(buffer) = bytes.get_mut(..room) else {
        return Ok(());
    };
    let count = answer_solve(out, on, s, initial, buffer)?;
    let width = width_of(s);
    let solved = records(buffer, count, width);
    if let Some(sheet) = solved {
        print_few(out, sheet, width)?;
    }
    write!(out, " sum {}; ", cases::mix_bytes(buffer))?;
    if let Some(sheet) = solved {
        answer_judge(out, on, s, initial, sheet)?;
    }
    Ok(())
}

// Mode 4: the places, four bytes each.
fn answer_splits<W: Write>(out: &mut W, s: &[u8], places: &[u8]) -> io::Result<()> {
    for place in places.chunks_exact(4) {
        answer_split(out, s, cases::long_at(place, 0))?;
    }
    Ok(())
}

// A sign set of one sign: 1 for minus, 2 for zero, 4 for plus.
fn sign(z: i32) -> u8 {
    match z.cmp(&0) {
        Ordering::Less => 1,
        Ordering::Equal => 2,
        Ordering::Greater => 4,
    }
}

// A name's byte in a memory's record: the signs of its cells. A variable has one cell.
fn name_byte(s: &[u8], name: u16, memory: &[i32]) -> u8 {
    let cells = usize::from(file::size_at(s, name).max(1));
    let first = file::first_cell(s, name);
    memory
        .iter()
        .skip(first)
        .take(cells)
        .fold(0, |set, z| set | sign(*z))
}

// The record of a sheet that a run and its memory are at: two bytes for the node, one for each name.
fn key_of(s: &[u8], node: u16, memory: &[i32]) -> [u8; 34] {
    let mut key = [0u8; 34];
    let [high, low] = node.to_be_bytes();
    key[0] = high;
    key[1] = low;
    for name in 0..32u16 {
        key[usize::from(name) + 2] = name_byte(s, name, memory);
    }
    key
}

// Whether a sheet has a record.
fn has(sheet: &[u8], key: &[u8]) -> bool
    requires { 0 < length key.now }
{
    sheet.chunks_exact(key.len()).any(|record| record == key)
}

// Whether the sheet has the record of a run's memory at its node.
fn print_has<W: Write>(
    out: &mut W,
    run: Run,
    s: &[u8],
    sheet: &[u8],
    memory: &[i32],
) -> io::Result<()> {
    let key = key_of(s, run.node, memory);
    let width = width_of(s);
    if has(sheet, &key[..width]) {
        write!(out, "has; ")
    } else {
        write!(out, "has not; ")
    }
}

fn step_by(run: Run, on: Option<Construction>, s: &[u8], edge: u16, memory: &mut [i32]) -> Stepped {
    match on {
        None => run.step(s, edge, memory),
        Some(on) => run.step_on(on, s, edge, memory),
    }
}

// A step call, and its outcome printed.
fn step_told<W: Write>(
    out: &mut W,
    run: Run,
    on: Option<Construction>,
    s: &[u8],
    edge: u16,
    memory: &mut [i32],
) -> io::Result<Run> {
    let stepped = step_by(run, on, s, edge, memory);
    let outcome = stepped.outcome;
    printing::outcome(out, outcome)?;
    write!(out, " ")?;
    Ok(stepped.run)
}

fn step_looked_up<W: Write>(
    out: &mut W,
    run: Run,
    on: Option<Construction>,
    s: &[u8],
    edge: u16,
    sheet: &[u8],
    memory: &mut [i32],
) -> io::Result<Run> {
    let next = step_told(out, run, on, s, edge, memory)?;
    print_has(out, next, s, sheet, memory)?;
    Ok(next)
}

// The step calls are the words of a list.
fn follow<W: Write>(
    out: &mut W,
    on: Option<Construction>,
    s: &[u8],
    calls: &[u8],
    sheet: &[u8],
    memory: &mut [i32],
) -> io::Result<()> {
    let mut run = Run::fresh();
    for call in calls.chunks_exact(2) {
        run = step_looked_up(out, run, on, s, file::word_at(call, 0), sheet, memory)?;
    }
    Ok(())
}

fn follow_sheet<W: Write>(
    out: &mut W,
    on: Option<Construction>,
    s: &[u8],
    calls: &[u8],
    sheet: &[u8],
    memory: &mut [i32],
) -> io::Result<()> {
    print_has(out, Run::fresh(), s, sheet, memory)?;
    follow(out, on, s, calls, sheet, memory)?;
    answer_mark(out, s, sheet)
}

fn follow_from<W: Write>(
    out: &mut W,
    on: Option<Construction>,
    s: &[u8],
    initial: &[u8],
    calls: &[u8],
    memory: &mut [i32],
) -> io::Result<()> {
    let mut buffer = [170u8; 140000];
    let count = answer_solve(out, on, s, initial, &mut buffer)?;
    write!(out, "; ")?;
    if let Some(sheet) = records(&buffer, count, width_of(s)) {
        follow_sheet(out, on, s, calls, sheet, memory)?;
    }
    Ok(())
}

// Mode 5: step calls from a memory of so many cells, looked up in the sheet that is solved.
fn answer_calls<W: Write>(
    out: &mut W,
    on: Option<Construction>,
    s: &[u8],
    initial: &[u8],
    further: &[u8],
    cells: usize,
) -> io::Result<()> {
    let mut room = [0i32; 512];
    if let Some(memory) = room.get_mut(..cells) {
        cases::set_cells(memory, further);
        let calls = further.get(memory.len() * 4..).unwrap_or(&[]);
        follow_from(out, on, s, initial, calls, memory)?;
    }
    Ok(())
}

fn answer<'a, W: Write>(
    out: &mut W,
    h: Head,
    s: &[u8],
    initial: &'a [u8],
    sheet: &'a [u8],
    further: &[u8],
) -> io::Result<()> {
    let on = cases::named(h.mode);
    match h.mode % 16 {
        1 => answer_verdict(out, on, s, initial, sheet)?,
        2 => answer_mark(out, s, sheet)?,
        3 => answer_solver(out, on, s, initial, h.number as usize)?,
        4 => answer_splits(out, s, further)?,
        5 => answer_calls(out, on, s, initial, further, h.number as usize)?,
        _ => write!(out, "unknown mode")?,
    }
    writeln!(out)
}

// Answers a case whose further numbers and file come next, and says whether all of them are there.
fn answer_further<'a, R: Read, W: Write>(
    input: &mut R,
    out: &mut W,
    h: Head,
    initial: &'a [u8],
    sheet: &'a [u8],
) -> io::Result<bool> {
    let mut further_bytes = [0u8; 4096];
    let Some(further) = cases::read_front(input, &mut further_bytes, h.further) else {
        writeln!(out, "numbers cut")?;
        return Ok(false);
    };
    let mut bytes = [0u8; 8192];
    let Some(s) = cases::read_front(input, &mut bytes, h.length) else {
        writeln!(out, "file cut")?;
        return Ok(false);
    };
    answer(out, h, s, initial, sheet, further)?;
    Ok(true)
}

// Puts bytes into a list from a place on, so many times, each where it has room, and gives the place after them.
fn lay(list: &mut [u8], from: usize, part: &[u8], times: u16) -> usize {
    let mut at = from;
    for _ in 0..times {
        let end = at.saturating_add(part.len());
        if let Some(room) = list.get_mut(at..end) {
            room.copy_from_slice(part);
        }
        at = end;
    }
    at
}

// Reads a chunk into a list from a place on, and gives the place after it. What is cut is laid with zeros for what is missing.
fn read_chunk<R: Read>(input: &mut R, list: &mut [u8], from: usize) -> usize {
    let mut head = [0u8; 4];
    cases::read_full(input, &mut head);
    let times = file::word_at(&head, 0);
    let mut bytes = [0u8; 8192];
    match bytes.get_mut(..usize::from(file::word_at(&head, 2))) {
        None => from,
        Some(part) => {
            cases::read_full(input, part);
            lay(list, from, part, times)
        }
    }
}

// Reads a list's chunks into an array, and gives the list where there is room for it.
fn read_list<'a, R: Read>(input: &mut R, list: &'a mut [u8], chunks: u8) -> Option<&'a [u8]> {
    let mut at = 0;
    for _ in 0..chunks {
        at = read_chunk(input, list, at);
    }
    list.get(..at)
}

// Answers a case whose title has been read.
fn answer_titled<R: Read, W: Write>(input: &mut R, out: &mut W, h: Head) -> io::Result<bool> {
    let mut start = [0u8; 140000];
    let Some(initial) = read_list(input, &mut start, h.start_chunks) else {
        return Ok(false);
    };
    let mut list = [0u8; 140000];
    let Some(sheet) = read_list(input, &mut list, h.sheet_chunks) else {
        return Ok(false);
    };
    answer_further(input, out, h, initial, sheet)
}

fn head_of(bytes: &[u8]) -> Head {
    Head {
        mode: file::byte_at(bytes, 0),
        title: usize::from(file::byte_at(bytes, 1)),
        number: cases::long_at(bytes, 2),
        further: usize::from(file::word_at(bytes, 6)),
        length: usize::from(file::word_at(bytes, 8)),
        start_chunks: file::byte_at(bytes, 10),
        sheet_chunks: file::byte_at(bytes, 11),
    }
}

fn answer_headed<R: Read, W: Write>(input: &mut R, out: &mut W, h: Head) -> io::Result<bool> {
    if cases::title(input, out, h.title)? {
        answer_titled(input, out, h)
    } else {
        Ok(false)
    }
}

// Nothing says that a file ends: the loop counts its turns, up to a number that no run reaches.
fn answer_all<R: Read, W: Write>(input: &mut R, out: &mut W) -> io::Result<()> {
    for _ in 0..u64::MAX {
        let Some(head) = cases::head::<12, R, W>(input, out)? else {
            break;
        };
        if !answer_headed(input, out, head_of(&head))? {
            break;
        }
    }
    Ok(())
}

fn main(rt: HostRuntime) -> io::Result<()> {
    let path = "sheets.bin";
    let mut out = BufWriter::new(rt.alloc(), io::writer(&rt))?;
    match fs::open(&rt, path) {
        Ok(mut file) => answer_all(&mut file, &mut out)?,
        Err(error) => eprintln!(rt; "{path}: {error}")?,
    }
    out.flush()
}
