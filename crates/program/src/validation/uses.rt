// Question 10: how often each entry is used.

ghost use Rattle.std.specs.Prelude.{◌≡◌, ◌<◌, ◌+◌, min, length, get_or, set};
ghost use Rattle.program.specs.Parts.Counting as spec;
ghost use Rattle.program.specs.Kind;
ghost use Rattle.program.specs.Questions;

use crate::{Sort, Table, file, kinds};

// The most entries that a table has.
#[tactic(auto, unfolding(crate::specs::Parts::Counting::capacity))]
pub(crate) fn capacity(table: Table) -> u16
    ensures { result ≡ spec.capacity table }
{
    file::table_field(table).most
}

// The slot of entry `n` of a table.
#[tactic(auto, unfolding(crate::specs::Parts::Counting::slot))]
pub(crate) fn slot(table: Table, n: u16) -> usize
    ensures { result ≡ spec.slot table n }
{
    match table {
        Table::Arithmetic => n as usize,
        Table::Boolean => 512 + n as usize,
        Table::Commands => 768 + n as usize,
    }
}

// Counts a reference `x` to an entry of a sort: one more in its slot, two at most.
pub(super) fn count_reference(uses: &mut [u8; 1024], sort: Sort, x: u16)
    ensures { spec.Counted uses.old uses.new (λ u n. Questions.refers_to u n (Kind.To sort) x) }
{
    let table = kinds::table_of(sort);
    if x < capacity(table) {
        let k = slot(table, x);
        uses[k] = uses[k].saturating_add(1).min(2);
    }
}
