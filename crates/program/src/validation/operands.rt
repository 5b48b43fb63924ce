// Questions 8 and 9 of an operand, and the counting of its use for question 10. What an operand is, is known where its entry's kind is told apart, so
// there is a function for each role.

ghost use Rattle.std.specs.Prelude.{◌≡◌, not, List, [], ◌∷◌, ℕ};
ghost use Rattle.program.specs.Asking;
ghost use Rattle.program.specs.Parts.Checking as spec;
ghost use Rattle.program.specs.File;
ghost use Rattle.program.specs.Kind;
ghost use Rattle.program.specs.Questions;

use super::{Script, ask, uses};
use crate::{Refusal, Sort, Table, file, kinds};

// What is wrong with an operand: question 8 is answered no, since it is unused and not zero, or names nothing of the right sort; or question 9, since it is a
// reference that does not point as it must.
#[derive(Clone, Copy, PartialEq, Eq)]
pub(super) enum Flaw {
    Unnamed,
    Astray,
}

// An unused operand is zero.
pub(super) fn unused(x: u16) -> Result<(), Flaw>
    ensures { (s : List ℕ) (t : Table) (n : ℕ) (counts : List ℕ) → spec.OperandChecked s t n Kind.Unused x counts counts result }
{
    if x == 0 { Ok(()) } else { Err(Flaw::Unnamed) }
}

// Questions 8 and 9 of the entry at a place, by the answers of its operands.
pub(super) fn settled(
    p: Result<(), Flaw>,
    q: Result<(), Flaw>,
    r: Result<(), Flaw>,
    at: usize,
) -> Result<(), Refusal>
    ensures { result ≡ Asking.in_turn
        (Asking.ask (not (spec.any_has Flaw.Unnamed p q r)) 8 at ∷ Asking.ask (not (spec.any_has Flaw.Astray p q r)) 9 at ∷ []) }
{
    let answers = [p, q, r];
    ask(!answers.contains(&Err(Flaw::Unnamed)), 8, at)?;
    ask(!answers.contains(&Err(Flaw::Astray)), 9, at)
}

impl Script<'_> {
    // The name of a variable.
    pub(super) fn variable(self, x: u16) -> Result<(), Flaw>
        ensures { (t : Table) (n : ℕ) (counts : List ℕ) → spec.OperandChecked self.entry.bytes.now t n Kind.Variable x counts counts result }
    {
        if x < self.layout.names.count && file::size_at(self.bytes, x) == 0 {
            Ok(())
        } else {
            Err(Flaw::Unnamed)
        }
    }

    // The name of an array.
    pub(super) fn array(self, x: u16) -> Result<(), Flaw>
        ensures { (t : Table) (n : ℕ) (counts : List ℕ) → spec.OperandChecked self.entry.bytes.now t n Kind.Array x counts counts result }
    {
        if x < self.layout.names.count && 0 < file::size_at(self.bytes, x) {
            Ok(())
        } else {
            Err(Flaw::Unnamed)
        }
    }

    // The kind of command entry `n`.
    fn command_kind(self, n: u16) -> u8
        ensures { result ≡ (File.entry self.entry.bytes.now Table.Commands n).kind }
    {
        file::byte_at(self.bytes, self.layout.commands.start + 7 * n as usize)
    }

    // Whether entry `x` of a sort's table is of that sort.
    #[tactic(auto, unfolding(crate::specs::Questions::of_sort))]
    fn of_sort(self, sort: Sort, x: u16) -> bool
        ensures { result ≡ Questions.of_sort self.entry.bytes.now sort x }
    {
        match sort {
            Sort::Expression | Sort::Condition => true,
            Sort::Command => kinds::is_command(self.command_kind(x)),
            Sort::Guarded => kinds::is_guarded(self.command_kind(x)),
        }
    }

    // A reference to an entry of a sort, below this number. One that points as it must is counted.
    pub(super) fn reference(
        self,
        sort: Sort,
        limit: u16,
        x: u16,
        uses: &mut [u8; 1024],
    ) -> Result<(), Flaw>
        ensures { (t : Table) (n : ℕ) → limit ≡ Questions.limit self.entry.bytes.now t n (Kind.table_of sort)
            → spec.OperandChecked self.entry.bytes.now t n (Kind.To sort) x uses.old uses.new result }
    {
        if x < limit && self.of_sort(sort, x) {
            uses::count_reference(uses, sort, x);
            Ok(())
        } else {
            Err(Flaw::Astray)
        }
    }
}
