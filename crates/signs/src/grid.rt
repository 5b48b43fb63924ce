// The operators on signs and on sets of signs.
ghost use Rattle.std.specs.Prelude.{◌≡◌};
ghost use Rattle.signs.specs.Grid as spec;

use super::{Operator, Sign};

// The grids of + - * / ^; rows minus, zero, plus are the left side, columns the right.
const GRIDS: [[[u8; 3]; 3]; 5] = [
    [[1, 1, 7], [1, 2, 4], [7, 4, 4]],
    [[7, 1, 1], [4, 2, 1], [4, 4, 7]],
    [[4, 2, 1], [2, 2, 2], [1, 2, 4]],
    [[6, 0, 3], [2, 0, 2], [3, 0, 6]],
    [[0, 4, 5], [0, 4, 2], [0, 4, 4]],
];

// The operators + - * / ^ on sets: eight rows for each, those of left sets 0 to 7, with a column for each right set. Each number is the union of the grid over the pairs of members.
const SET_TABLE: [[u8; 8]; 40] = [
    // +
    [0, 0, 0, 0, 0, 0, 0, 0],
    [0, 1, 1, 1, 7, 7, 7, 7],
    [0, 1, 2, 3, 4, 5, 6, 7],
    [0, 1, 3, 3, 7, 7, 7, 7],
    [0, 7, 4, 7, 4, 7, 4, 7],
    [0, 7, 5, 7, 7, 7, 7, 7],
    [0, 7, 6, 7, 4, 7, 6, 7],
    [0, 7, 7, 7, 7, 7, 7, 7],
    // -
    [0, 0, 0, 0, 0, 0, 0, 0],
    [0, 7, 1, 7, 1, 7, 1, 7],
    [0, 4, 2, 6, 1, 5, 3, 7],
    [0, 7, 3, 7, 1, 7, 3, 7],
    [0, 4, 4, 4, 7, 7, 7, 7],
    [0, 7, 5, 7, 7, 7, 7, 7],
    [0, 4, 6, 6, 7, 7, 7, 7],
    [0, 7, 7, 7, 7, 7, 7, 7],
    // *
    [0, 0, 0, 0, 0, 0, 0, 0],
    [0, 4, 2, 6, 1, 5, 3, 7],
    [0, 2, 2, 2, 2, 2, 2, 2],
    [0, 6, 2, 6, 3, 7, 3, 7],
    [0, 1, 2, 3, 4, 5, 6, 7],
    [0, 5, 2, 7, 5, 5, 7, 7],
    [0, 3, 2, 3, 6, 7, 6, 7],
    [0, 7, 2, 7, 7, 7, 7, 7],
    // /
    [0, 0, 0, 0, 0, 0, 0, 0],
    [0, 6, 0, 6, 3, 7, 3, 7],
    [0, 2, 0, 2, 2, 2, 2, 2],
    [0, 6, 0, 6, 3, 7, 3, 7],
    [0, 3, 0, 3, 6, 7, 6, 7],
    [0, 7, 0, 7, 7, 7, 7, 7],
    [0, 3, 0, 3, 6, 7, 6, 7],
    [0, 7, 0, 7, 7, 7, 7, 7],
    // ^
    [0, 0, 0, 0, 0, 0, 0, 0],
    [0, 0, 4, 4, 5, 5, 5, 5],
    [0, 0, 4, 4, 2, 2, 6, 6],
    [0, 0, 4, 4, 7, 7, 7, 7],
    [0, 0, 4, 4, 4, 4, 4, 4],
    [0, 0, 4, 4, 5, 5, 5, 5],
    [0, 0, 4, 4, 6, 6, 6, 6],
    [0, 0, 4, 4, 7, 7, 7, 7],
];

// An operator's place among the grids, and in the set table.
#[tactic(auto, unfolding(crate::specs::Grid::grid_number))]
fn grid_number(operator: Operator) -> usize
    ensures { result ≡ spec.grid_number operator }
{
    operator as usize
}

// A sign's row and column.
#[tactic(auto, unfolding(crate::specs::Grid::sign_number))]
fn sign_number(s: Sign) -> usize
    ensures { result ≡ spec.sign_number s }
{
    s as usize
}

// The signs that an operator's results can have, by the signs of its sides.
pub fn grid(operator: Operator, l: Sign, r: Sign) -> u8
    ensures { result ≡ spec.grid operator l r }
{
    GRIDS[grid_number(operator)][sign_number(l)][sign_number(r)]
}

// The set table, to be lent.
pub fn set_table() -> [[u8; 8]; 40]
    ensures { result ≡ spec.set_rows }
{
    SET_TABLE
}

// An operator on two sets, read out of a table that is lent, in words. A set above 7 is that of its remainder by 8.
pub fn operate_by(table: &[u16], operator: Operator, a: u8, b: u8) -> u8
    ensures { result ≡ spec.operate_by table.now operator a b }
{
    let at = 64 * grid_number(operator) + 8 * (a % 8) as usize + (b % 8) as usize;
    if at < table.len() {
        return (table[at] % 256) as u8;
    }
    0
}
