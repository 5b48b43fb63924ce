// Text into a buffer that is lent: each function puts its part from a place on, and returns the place after it.

ghost use Rattle.listing.specs.Parts.Writing.{Room, Put};
ghost use Rattle.listing.specs.Text as spec;

use crate::digits;

pub(crate) fn put(text: &[u8], at: usize, out: &mut [u8]) -> usize
    requires { Room at text.now out.old }
    ensures { Put at text.now out.old out.new result }
{
    let end = at + text.len();
    out[at..end].copy_from_slice(text);
    end
}

pub(crate) fn put_number(n: u64, at: usize, out: &mut [u8]) -> usize
    requires { Room at (spec.decimal n) out.old }
    ensures { Put at (spec.decimal n) out.old out.new result }
{
    let mut digits = [0u8; 20];
    let count = digits::decimal(n, &mut digits);
    put(&digits[..count], at, out)
}

// A text, and a number after it.
pub(crate) fn put_labelled(label: &[u8], n: u64, at: usize, out: &mut [u8]) -> usize
    requires { Room at (spec.labelled label.now n) out.old }
    ensures { Put at (spec.labelled label.now n) out.old out.new result }
{
    let after = put(label, at, out);
    put_number(n, after, out)
}
