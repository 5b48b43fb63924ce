// Questions 7 to 9 of an entry: every entry is told apart by its kind, which says what its operands are. Where they are answered yes, its operands are
// counted, for question 10; and a jump is noted, for question 20.

ghost use Rattle.std.specs.Prelude.{◌≡◌, List, ℕ};
ghost use Rattle.program.specs.Parts.Checking as spec;
ghost use Rattle.program.specs.File;
ghost use Rattle.program.specs.Kind;
ghost use Rattle.program.specs.Questions;

use super::{Script, ask, jumps, operands};
use crate::{Entry, Refusal, Sort, Table, file};

// An entry with no operand.
fn no_operand(e: Entry, at: usize) -> Result<(), Refusal>
    ensures { (s : List ℕ) (t : Table) (n : ℕ) (counts : List ℕ) → spec.Standing s t n e at
        → Kind.shape t e.kind ≡ Kind.with Kind.Unused Kind.Unused Kind.Unused → spec.EntryChecked s t n counts counts result }
{
    let p = operands::unused(e.p);
    let q = operands::unused(e.q);
    let r = operands::unused(e.r);
    operands::settled(p, q, r, at)
}

impl Script<'_> {
    // An entry whose P is a reference to an entry of a sort, below this number.
    fn one_reference(
        self,
        sort: Sort,
        limit: u16,
        e: Entry,
        at: usize,
        uses: &mut [u8; 1024],
    ) -> Result<(), Refusal>
        ensures { (t : Table) (n : ℕ) → limit ≡ Questions.limit self.entry.bytes.now t n (Kind.table_of sort) → spec.Standing self.entry.bytes.now t n e at
            → Kind.shape t e.kind ≡ Kind.with (Kind.To sort) Kind.Unused Kind.Unused
            → spec.EntryChecked self.entry.bytes.now t n uses.old uses.new result }
    {
        let p = self.reference(sort, limit, e.p, uses);
        let q = operands::unused(e.q);
        let r = operands::unused(e.r);
        operands::settled(p, q, r, at)
    }

    // An entry whose P and Q are.
    fn two_references(
        self,
        sort: Sort,
        limit: u16,
        e: Entry,
        at: usize,
        uses: &mut [u8; 1024],
    ) -> Result<(), Refusal>
        ensures { (t : Table) (n : ℕ) → limit ≡ Questions.limit self.entry.bytes.now t n (Kind.table_of sort) → spec.Standing self.entry.bytes.now t n e at
            → Kind.shape t e.kind ≡ Kind.with (Kind.To sort) (Kind.To sort) Kind.Unused
            → spec.EntryChecked self.entry.bytes.now t n uses.old uses.new result }
    {
        let p = self.reference(sort, limit, e.p, uses);
        let q = self.reference(sort, limit, e.q, uses);
        let r = operands::unused(e.r);
        operands::settled(p, q, r, at)
    }

    // Entry `n` of the arithmetic table, which stands at `at`. Its kind is matched as the byte that it is, as in the two below: any byte may stand there, and what is none is refused.
    fn check_arithmetic(
        self,
        n: u16,
        e: Entry,
        at: usize,
        uses: &mut [u8; 1024],
    ) -> Result<(), Refusal>
        requires { spec.Standing self.bytes.now Table.Arithmetic n e at }
        ensures { spec.EntryChecked self.entry.bytes.now Table.Arithmetic n uses.old uses.new result }
    {
        match e.kind {
            // a number: P and Q together
            0 => {
                let r = operands::unused(e.r);
                operands::settled(Ok(()), Ok(()), r, at)
            }
            // variable P
            1 => {
                let p = self.variable(e.p);
                let q = operands::unused(e.q);
                let r = operands::unused(e.r);
                operands::settled(p, q, r, at)
            }
            // element of array P at index Q
            2 => {
                let p = self.array(e.p);
                let q = self.reference(Sort::Expression, n, e.q, uses);
                let r = operands::unused(e.r);
                operands::settled(p, q, r, at)
            }
            // an operator on P and Q
            3..=7 => self.two_references(Sort::Expression, n, e, at, uses),
            _ => ask(false, 7, at),
        }
    }

    // Entry `n` of the boolean table.
    fn check_boolean(
        self,
        n: u16,
        e: Entry,
        at: usize,
        uses: &mut [u8; 1024],
    ) -> Result<(), Refusal>
        requires { spec.Standing self.bytes.now Table.Boolean n e at }
        ensures { spec.EntryChecked self.entry.bytes.now Table.Boolean n uses.old uses.new result }
    {
        match e.kind {
            // true
            0 => no_operand(e, at),
            // a comparison of P and Q
            1..=3 => self.two_references(
                Sort::Expression,
                self.layout.arithmetic.count,
                e,
                at,
                uses,
            ),
            // P ∧ Q, P && Q
            4..=5 => self.two_references(Sort::Condition, n, e, at, uses),
            // ¬P
            6 => self.one_reference(Sort::Condition, n, e, at, uses),
            _ => ask(false, 7, at),
        }
    }

    // Entry `n` of the commands.
    fn check_command(
        self,
        n: u16,
        e: Entry,
        at: usize,
        uses: &mut [u8; 1024],
    ) -> Result<(), Refusal>
        requires { spec.Standing self.bytes.now Table.Commands n e at }
        ensures { spec.EntryChecked self.entry.bytes.now Table.Commands n uses.old uses.new result }
    {
        match e.kind {
            // skip
            0 => no_operand(e, at),
            // variable P := Q
            1 => {
                let p = self.variable(e.p);
                let q = self.reference(Sort::Expression, self.layout.arithmetic.count, e.q, uses);
                let r = operands::unused(e.r);
                operands::settled(p, q, r, at)
            }
            // array P at Q := R
            2 => {
                let p = self.array(e.p);
                let q = self.reference(Sort::Expression, self.layout.arithmetic.count, e.q, uses);
                let r = self.reference(Sort::Expression, self.layout.arithmetic.count, e.r, uses);
                operands::settled(p, q, r, at)
            }
            // P ; Q
            3 => self.two_references(Sort::Command, n, e, at, uses),
            // if P fi, do P od
            4..=5 => self.one_reference(Sort::Guarded, n, e, at, uses),
            // guarded P → Q
            6 => {
                let p = self.reference(Sort::Condition, self.layout.boolean.count, e.p, uses);
                let q = self.reference(Sort::Command, n, e.q, uses);
                let r = operands::unused(e.r);
                operands::settled(p, q, r, at)
            }
            // choice P [] Q
            7 => self.two_references(Sort::Guarded, n, e, at, uses),
            // break, continue
            8..=9 => no_operand(e, at),
            _ => ask(false, 7, at),
        }
    }

    // Entry `n` of the table that starts at `start`.
    pub(super) fn check_entry(
        self,
        table: Table,
        start: usize,
        n: u16,
        uses: &mut [u8; 1024],
        jumps: &mut bool,
    ) -> Result<(), Refusal>
        requires { start ≡ File.table_start self.bytes.now table }
        ensures { spec.EntryNoted self.entry.bytes.now table n uses.old uses.new jumps.old jumps.new result }
    {
        let at = start + 7 * n as usize;
        let e = file::entry_at(self.bytes, at);
        match table {
            Table::Arithmetic => self.check_arithmetic(n, e, at, uses),
            Table::Boolean => self.check_boolean(n, e, at, uses),
            Table::Commands => {
                jumps::note(jumps, e.kind);
                self.check_command(n, e, at, uses)
            }
        }
    }
}
