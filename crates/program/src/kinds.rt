// The sorts of entries that an operand can refer to.

ghost use Rattle.std.specs.Prelude.{◌≡◌};
ghost use Rattle.program.specs.Kind as spec;

use crate::{Sort, Table};

// The table that a sort's entries stand in.
#[tactic(auto, unfolding(crate::specs::Kind::table_of))]
pub fn table_of(sort: Sort) -> Table
    ensures { result ≡ spec.table_of sort }
{
    match sort {
        Sort::Expression => Table::Arithmetic,
        Sort::Condition => Table::Boolean,
        Sort::Command | Sort::Guarded => Table::Commands,
    }
}

// Whether a kind of command entry is a command.
#[tactic(auto, unfolding(crate::specs::Kind::is_command))]
pub fn is_command(kind: u8) -> bool
    ensures { result ≡ spec.is_command kind }
{
    matches!(kind, 0..=5 | 8..=9)
}

// Whether a kind of command entry is a guarded command.
#[tactic(auto, unfolding(crate::specs::Kind::is_guarded))]
pub fn is_guarded(kind: u8) -> bool
    ensures { result ≡ spec.is_guarded kind }
{
    matches!(kind, 6..=7)
}
