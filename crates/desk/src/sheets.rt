// Sheets judged, and the index mark of one.

ghost use Rattle.std.specs.Prelude.{◌≡◌, Err};
ghost use Rattle.program.specs.Graph;
ghost use Rattle.program.specs.declared.Refusal.{Refusal};
ghost use Rattle.analysis.specs.Records;
ghost use Rattle.desk.specs.Accepting;
ghost use Rattle.desk.specs.Parts.Heads as heads;
ghost use Rattle.desk.specs.Reply as spec;
ghost use Rattle.desk.specs.Rows as row;

use crate::{Head, reply};
use analysis::{Mark, RecordList, Unreadable, Verdict, WrongByte, judging};
use program::{drawing, file};

// The numbers of each row.
const VERDICT: usize = 10;

const MARK: usize = 5;

// An index mark that is clean, and one that is not.
const CLEAN: u32 = 1;

const UNCLEAN: u32 = 2;

// The number of a list: 1 for the start list, 2 for the sheet.
pub(crate) fn list_number(list: RecordList) -> u32
    ensures { result ≡ Records.list_number list }
{
    match list {
        RecordList::Initial => 1,
        RecordList::Solution => 2,
    }
}

// 17, with its list and the place in it.
fn of_wrong_byte(w: WrongByte) -> Head
    requires { spec.Narrow w.offset }
    ensures { result ≡ Head.Malformed (Records.list_number w.list) w.offset }
{
    let list = w.list;
    Head::Malformed(list_number(list), w.offset as u32)
}

// Lists that are not read: a question refused, or 17.
pub(crate) fn of_unreadable(x: Unreadable) -> Head
    requires refused { (y : Refusal) → x ≡ Unreadable.Refused y → spec.Narrow y.offset }
    requires malformed { (w : WrongByte) → x ≡ Unreadable.Malformed w → spec.Narrow w.offset }
    ensures { result ≡ heads.unreadable_head x }
{
    match x {
        Unreadable::Refused(y) => Head::Refused(y.number, y.offset as u32),
        Unreadable::Malformed(w) => of_wrong_byte(w),
    }
}

// A verdict: 0, 41 or 42.
#[tactic(auto, unfolding(crate::specs::Parts::Heads::verdict_head))]
fn of_verdict(v: Result<Verdict, Unreadable>) -> Head
    requires refused { (x : Refusal) → v ≡ Err (Unreadable.Refused x) → spec.Narrow x.offset }
    requires malformed { (w : WrongByte) → v ≡ Err (Unreadable.Malformed w) → spec.Narrow w.offset }
    ensures { result ≡ heads.verdict_head v }
{
    match v {
        Ok(Verdict::InitialMissing { record: _ }) => Head::Answered(41),
        Ok(Verdict::ResultMissing { record: _, edge: _ }) => Head::Answered(42),
        Ok(Verdict::Accepted(_)) => Head::Answered(0),
        Err(x) => of_unreadable(x),
    }
}

// What stands behind it: record and edge, the offending record's offset and length, and the index mark, in a program with so many names.
#[tactic(auto, unfolding(crate::specs::Parts::Heads::verdict_behind))]
fn behind(names: u16, v: Result<Verdict, Unreadable>) -> [u32; 7]
    ensures { result ≡ heads.verdict_behind names v }
{
    let names = names as u32;
    match v {
        Ok(Verdict::InitialMissing { record }) => {
            let record = record as u32;
            [record, 0, names * record, names, 0, 0, 0]
        }
        Ok(Verdict::ResultMissing { record, edge }) => {
            let record = record as u32;
            let width = 2 + names;
            [record, edge as u32, width * record, width, 0, 0, 0]
        }
        Ok(Verdict::Accepted(Mark::Clean)) => [0, 0, 0, 0, CLEAN, 0, 0],
        Ok(Verdict::Accepted(Mark::Unclean { record, edge })) => {
            [0, 0, 0, 0, UNCLEAN, record as u32, edge as u32]
        }
        Err(_) => [0; 7],
    }
}

// The verdict on a sheet, for the graph by the construction that a number names. Where the row written says that it is accepted, the third term holds of it.
#[unsafe(no_mangle)]
pub extern "C" fn pizwoter_judge(
    program: &[u8],
    construction: u32,
    initial: &[u8],
    solution: &[u8],
    reply: &mut [i64],
) -> i32
    ensures tells { spec.Tells row.verdict_room (row.judged (Graph.named construction) program.now initial.now solution.now) reply.old result reply.new }
    ensures third { Accepting.ThirdTermTold (Graph.named construction) program.now initial.now solution.now result reply.new }
{
    if reply.len() < VERDICT {
        return reply::SHORT;
    }
    let verdict = judging::judge_on(drawing::named(construction), program, initial, solution);
    let numbers = behind(file::name_count(program), verdict);
    reply::put(of_verdict(verdict), &numbers, reply)
}

// An index mark by itself.
fn of_marking(m: Result<Mark, Unreadable>) -> Head
    requires refused { (x : Refusal) → m ≡ Err (Unreadable.Refused x) → spec.Narrow x.offset }
    requires malformed { (w : WrongByte) → m ≡ Err (Unreadable.Malformed w) → spec.Narrow w.offset }
    ensures { result ≡ heads.marking_head m }
{
    match m {
        Ok(mark) => of_mark(mark),
        Err(x) => of_unreadable(x),
    }
}

// A mark: 1 where it is clean, else 2.
fn of_mark(mark: Mark) -> Head
    ensures { result ≡ heads.mark_head mark }
{
    match mark {
        Mark::Clean => Head::Answered(CLEAN),
        Mark::Unclean { record: _, edge: _ } => Head::Answered(UNCLEAN),
    }
}

// Its record and edge.
#[tactic(auto, unfolding(crate::specs::Parts::Heads::mark_behind))]
fn spot(m: Result<Mark, Unreadable>) -> [u32; 2]
    ensures { result ≡ heads.mark_behind m }
{
    match m {
        Ok(Mark::Unclean { record, edge }) => [record as u32, edge as u32],
        Ok(Mark::Clean) => [0; 2],
        Err(_) => [0; 2],
    }
}

// The index mark of a sheet by itself.
#[unsafe(no_mangle)]
pub extern "C" fn pizwoter_index_mark(program: &[u8], solution: &[u8], reply: &mut [i64]) -> i32
    ensures { spec.Tells row.mark_room (row.marked program.now solution.now) reply.old result reply.new }
{
    if reply.len() < MARK {
        return reply::SHORT;
    }
    let marking = judging::index_mark(program, solution);
    let numbers = spot(marking);
    reply::put(of_marking(marking), &numbers, reply)
}
