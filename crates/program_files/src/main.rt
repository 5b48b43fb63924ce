// Reads test files from `files.bin`, which `oracle/` makes, and prints for each its title and what the library replies of it.
//
// A record of `files.bin` is a mode, a room (two bytes), the length of a title, the length of a file (two bytes), the title and the file.
// Numbers have the high byte first. The mode says what is asked of the file: 1 its edges, 2 its graph drawn into a buffer of so much room,
// 3 the questions of the sheet program's input, 4 what the crates above read of a program, 5 the parts of the sheet program's input and its fields' heads. 16 more
// asks for document 01's graph by name, 32 more for the deterministic one.
#![tactic(auto)]

use program::{
    Construction, Drawn, EdgeBytes, Entry, FieldHead, Refusal, Table, drawing, file, reader,
    validation,
};
use std::io::{BufWriter, Read, Write};
use std::{fs, io};

fn print_counts<W: Write>(out: &mut W, d: Drawn) -> io::Result<()> {
    write!(out, "nodes {} arrows {}", d.nodes, d.edges)
}

fn print_drawn<W: Write>(out: &mut W, drawn: Result<Drawn, Refusal>) -> io::Result<()> {
    match drawn {
        Ok(d) => print_counts(out, d),
        Err(x) => printing::refusal(out, x),
    }
}

fn print_edge<W: Write>(out: &mut W, e: EdgeBytes) -> io::Result<()> {
    writeln!(out, "{} {} {} {}", e.source, e.target, e.kind, e.entry)
}

fn print_edges<W: Write>(out: &mut W, edges: &[u8; drawing::BYTES], count: u16) -> io::Result<()> {
    for k in 0..count {
        print_edge(out, drawing::edge_at(edges, k))?;
    }
    Ok(())
}

// The graph by a construction, or where the caller names none.
fn draw_by(on: Option<Construction>, s: &[u8], buffer: &mut [u8]) -> Result<Drawn, Refusal> {
    match on {
        None => drawing::draw(s, buffer),
        Some(on) => drawing::draw_on(on, s, buffer),
    }
}

// Mode 1: the graph, a line for each edge.
fn answer_edges<W: Write>(out: &mut W, on: Option<Construction>, s: &[u8]) -> io::Result<()> {
    let mut edges = [0u8; drawing::BYTES];
    let drawn = draw_by(on, s, &mut edges);
    print_drawn(out, drawn)?;
    writeln!(out)?;
    match drawn {
        Ok(d) => print_edges(out, &edges, d.edges),
        Err(_) => Ok(()),
    }
}

// Mode 2: the graph drawn into the first bytes of a buffer, and a checksum of the whole buffer.
fn answer_sum<W: Write>(
    out: &mut W,
    on: Option<Construction>,
    s: &[u8],
    room: usize,
) -> io::Result<()> {
    let mut buffer = [170u8; 2000];
    let room = room.min(buffer.len());
    print_drawn(out, draw_by(on, s, &mut buffer[..room]))?;
    writeln!(out, " sum {}", cases::mix_bytes(&buffer))
}

// Mode 3: the questions of the sheet program's input.
fn answer_input<W: Write>(out: &mut W, s: &[u8]) -> io::Result<()> {
    match validation::validate_input(s) {
        Ok(()) => write!(out, "fit")?,
        Err(x) => printing::refusal(out, x)?,
    }
    writeln!(out)
}

fn mix_entry(sum: u64, e: Entry) -> u64 {
    let kind = cases::mix(sum, u64::from(e.kind));
    let p = cases::mix(kind, u64::from(e.p));
    let q = cases::mix(p, u64::from(e.q));
    cases::mix(q, u64::from(e.r))
}

fn mix_table(sum: u64, s: &[u8], table: Table) -> u64 {
    let mut mixed = sum;
    for n in 0..file::entry_count(s, table) {
        mixed = mix_entry(mixed, file::entry(s, table, n));
    }
    mixed
}

fn mix_names(s: &[u8]) -> u64 {
    let mut mixed: u64 = 1;
    for i in 0..file::name_count(s) {
        mixed = cases::mix(mixed, u64::from(file::size_at(s, i)));
        mixed = cases::mix(mixed, file::first_cell(s, i) as u64);
    }
    mixed
}

fn print_readings<W: Write>(out: &mut W, s: &[u8]) -> io::Result<()> {
    let names = file::name_count(s);
    let cells = file::cell_count(s);
    write!(out, "names {names} cells {cells} entries")?;
    let mut sum = mix_names(s);
    for table in [Table::Arithmetic, Table::Boolean, Table::Commands] {
        write!(out, " {}", file::entry_count(s, table))?;
        sum = mix_table(sum, s, table);
    }
    write!(out, " sum {sum}")
}

// Mode 4: the counts of a well-formed program, and a checksum of its names and entries.
fn answer_readings<W: Write>(out: &mut W, s: &[u8]) -> io::Result<()> {
    let v = validation::validate(s);
    match v {
        Ok(()) => print_readings(out, s)?,
        Err(x) => printing::refusal(out, x)?,
    }
    writeln!(out)
}

fn print_part<W: Write>(out: &mut W, bytes: &[u8]) -> io::Result<()> {
    write!(out, "{} sum {}", bytes.len(), cases::mix_bytes(bytes))
}

fn print_parts<W: Write>(out: &mut W, s: &[u8]) -> io::Result<()> {
    write!(out, "program ")?;
    print_part(out, validation::program_part(s))?;
    write!(out, " list ")?;
    print_part(out, validation::initial_part(s))
}

fn print_found<W: Write>(out: &mut W, h: FieldHead) -> io::Result<()> {
    write!(
        out,
        "{} tag {} length {} content {} next {}",
        h.start, h.tag, h.length, h.content, h.next
    )
}

fn print_head<W: Write>(out: &mut W, head: Result<FieldHead, usize>) -> io::Result<()> {
    match head {
        Err(at) => write!(out, "none at {at}")?,
        Ok(h) => print_found(out, h)?,
    }
    writeln!(out)
}

fn print_heads<W: Write>(out: &mut W, s: &[u8]) -> io::Result<()> {
    for k in 0..6u8 {
        print_head(out, reader::field_head(s, k))?;
    }
    Ok(())
}

// Mode 5: the parts of the sheet program's input where that is well formed, and what the field reader finds after none to five fields.
fn answer_parts<W: Write>(out: &mut W, s: &[u8]) -> io::Result<()> {
    match validation::validate_input(s) {
        Ok(()) => print_parts(out, s)?,
        Err(x) => printing::refusal(out, x)?,
    }
    writeln!(out)?;
    print_heads(out, s)
}

fn answer<W: Write>(out: &mut W, mode: u8, room: usize, s: &[u8]) -> io::Result<()> {
    let on = cases::named(mode);
    match mode % 16 {
        1 => answer_edges(out, on, s),
        2 => answer_sum(out, on, s, room),
        3 => answer_input(out, s),
        4 => answer_readings(out, s),
        5 => answer_parts(out, s),
        _ => writeln!(out, "unknown mode"),
    }
}

// Answers a file of so many bytes, and says whether all of it is there.
fn answer_file<R: Read, W: Write>(
    input: &mut R,
    out: &mut W,
    mode: u8,
    room: usize,
    n: usize,
) -> io::Result<bool> {
    let mut bytes = [0u8; 32768];
    let Some(s) = cases::read_front(input, &mut bytes, n) else {
        writeln!(out, "file cut")?;
        return Ok(false);
    };
    answer(out, mode, room, s)?;
    Ok(true)
}

// What the six bytes of a head say: the rest of the record is read and answered. Says whether to go on.
fn answer_record<R: Read, W: Write>(input: &mut R, out: &mut W, head: &[u8]) -> io::Result<bool> {
    let mode = file::byte_at(head, 0);
    let room = file::word_at(head, 1);
    let title = file::byte_at(head, 3);
    let length = file::word_at(head, 4);
    if cases::title(input, out, usize::from(title))? {
        answer_file(input, out, mode, usize::from(room), usize::from(length))
    } else {
        Ok(false)
    }
}

// Nothing says that a file ends: the loop counts its turns, up to a number that no run reaches.
fn answer_all<R: Read, W: Write>(input: &mut R, out: &mut W) -> io::Result<()> {
    for _ in 0..u64::MAX {
        let Some(head) = cases::head::<6, R, W>(input, out)? else {
            break;
        };
        if !answer_record(input, out, &head)? {
            break;
        }
    }
    Ok(())
}

fn main(rt: HostRuntime) -> io::Result<()> {
    let path = "files.bin";
    let mut out = BufWriter::new(rt.alloc(), io::writer(&rt))?;
    match fs::open(&rt, path) {
        Ok(mut file) => answer_all(&mut file, &mut out)?,
        Err(error) => eprintln!(rt; "{path}: {error}")?,
    }
    out.flush()
}
