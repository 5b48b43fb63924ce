// The splitter: the record and the column of a byte of a solution, by doubled widths taken off, with no division.

ghost use Rattle.std.specs.Prelude.{◌≡◌, ◌<◌};
ghost use Rattle.analysis.specs.Parts.Doubling as doubling;
ghost use Rattle.analysis.specs.Splitter as spec;

use crate::Split;
use program::{Refusal, file, validation};

// Writes a width, its double, the double of that and so on, as many as are at most the place; how many. In 64 bits no sum overflows.
fn double(width: u32, place: u32, widths: &mut [u32; 32]) -> usize
    requires { 0 < width }
    ensures { doubling.Doublings width place widths.new result }
{
    let mut doubled = width as u64;
    let mut count: usize = 0;
    // no `for` over the widths: it would end at two places, where a doubling is past the place and where the widths end
    while doubled <= place as u64 {
        widths[count] = doubled as u32;
        doubled += doubled;
        count += 1;
    }
    count
}

// What is left when a width is taken off where it fits. Where it does not, the difference wraps to more than was left, so the less of the two is right:
// a test of the width itself compiles to a branch, which the machine guesses wrong half the time.
fn take_off(rest: u32, width: u32) -> u32
    ensures { result ≡ doubling.taken_off rest width }
{
    rest.wrapping_sub(width).min(rest)
}

// The record and the column of a place by the width of a record: doubled widths are taken off, the largest first.
fn split_by(width: u32, place: u32) -> Split
    requires { 0 < width }
    ensures { result ≡ spec.split_place width place }
{
    let mut widths = [0u32; 32];
    let count = double(width, place, &mut widths);
    let mut record: u32 = 0;
    let mut rest = place;
    for k in (0..count).rev() {
        let doubled = widths[k];
        record = record + record + (doubled <= rest) as u32;
        rest = take_off(rest, doubled);
    }
    Split {
        record,
        column: rest,
    }
}

// The record and the column of the byte at a place of a solution of a program.
pub fn split(program: &[u8], place: u32) -> Result<Split, Refusal>
    ensures value { result ≡ spec.split program.now place }
    ensures numbers { spec.split_numbers result ≡ spec.split_row program.now place }
{
    validation::validate(program)?;
    Ok(split_by(2 + file::name_count(program) as u32, place))
}
