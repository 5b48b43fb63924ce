// Question 20: break and continue stand inside a do.

ghost use Rattle.std.specs.Prelude.{◌≡◌, false, ℕ, ◌<◌, min, leb};
ghost use Rattle.program.specs.File;
ghost use Rattle.program.specs.Parts.GraphingParts.{part_at};
ghost use Rattle.program.specs.Parts.Jumping as spec;
ghost use Rattle.program.specs.Parts.Node;
ghost use Rattle.program.specs.Questions;

use super::{Script, ask};
use crate::{CommandNode, Refusal, Table, decoding, file};

// Notes a kind of command that may be a jump. Most programs have none, and then no tree is gone through.
pub(super) fn note(jumps: &mut bool, kind: u8)
    ensures { spec.Noted (leb 8 kind) jumps.old jumps.new }
{
    if 8 <= kind {
        *jumps = true;
    }
}

impl Script<'_> {
    // What command entry `n` is as a part of entry `bound`: one that is not lower is a skip.
    fn command_at(&self, bound: u16, n: u16) -> CommandNode
        ensures { result ≡ Node.command_form (File.entry self.now.bytes.now) bound n }
    {
        if bound <= n {
            return CommandNode::Skip;
        }
        let e = file::entry_at(self.bytes, self.layout.commands.start + 7 * n as usize);
        decoding::command_kind(e.kind as u16, e.p, e.q, e.r)
    }

    // The lowest of `found` and of the jumps outside every do in command entry `n`, a part of entry `bound`. The script is lent, since a copy at each level is slower.
    fn lowest(&self, bound: u16, n: u16, found: u16) -> u16
        ensures { result ≡ spec.lowest (part_at (File.entry self.now.bytes.now) bound n) found }
    {
        match self.command_at(bound, n) {
            CommandNode::Sequence(p, q) | CommandNode::Choice(p, q) => {
                let first = self.lowest(n, p, found);
                self.lowest(n, q, first)
            }
            CommandNode::Conditional(p) | CommandNode::Guarded(_, p) => self.lowest(n, p, found),
            CommandNode::Jump(_) => n.min(found),
            CommandNode::Skip
            | CommandNode::Assign(_, _)
            | CommandNode::Store(_, _, _)
            | CommandNode::Iteration(_) => found,
        }
    }

    // Question 20 of all commands.
    fn check_lowest(self) -> Result<(), Refusal>
        ensures { result ≡ Questions.jumps_validity self.entry.bytes.now }
    {
        let count = self.layout.commands.count;
        let found = self.lowest(count, count - 1, count);
        ask(
            count <= found,
            20,
            self.layout.commands.start + 7 * found as usize,
        )
    }

    // Question 20, where it is noted whether a command may be a jump.
    pub(super) fn check_jumps(self, noted: bool) -> Result<(), Refusal>
        requires { noted ≡ false → (n : ℕ) → n < File.entry_count self.bytes.now Table.Commands → spec.may_jump self.bytes.now Table.Commands n ≡ false }
        ensures { result ≡ Questions.jumps_validity self.entry.bytes.now }
    {
        if !noted {
            return Ok(());
        }
        self.check_lowest()
    }
}
