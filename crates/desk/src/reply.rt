// Writing a row into the reply that a caller lends.

ghost use Rattle.std.specs.Prelude.{◌+◌, ◌≤◌, ◌≡◌, [], ◌∷◌, map, pos, length};
ghost use Rattle.desk.specs.Reply as spec;

use crate::Head;

// What a call returns whose reply is too short.
pub(crate) const SHORT: i32 = -1;

// Three numbers at the front of a reply.
fn put_three(a: i64, b: i64, c: i64, reply: &mut [i64])
    requires { 3 ≤ length reply.old }
    ensures { reply.new ≡ spec.over_at 0 (a ∷ b ∷ c ∷ []) reply.old }
{
    reply[..3].copy_from_slice(&[a, b, c]);
}

// How a call went, at the front of its reply; returns what the call returns.
pub(crate) fn put_head(head: Head, reply: &mut [i64]) -> i32
    requires { 3 ≤ length reply.old }
    ensures { (result ≡ pos (spec.tell head []).status) × (reply.new ≡ spec.over_at 0 (spec.tell head []).row reply.old) }
{
    match head {
        Head::Answered(answer) => {
            put_three(answer as i64, 0, 0, reply);
            0
        }
        Head::Refused(number, place) => {
            put_three(-1, place as i64, 0, reply);
            number as i32
        }
        Head::Malformed(list, place) => {
            put_three(-1, place as i64, list as i64, reply);
            17
        }
    }
}

// Numbers behind it.
fn put_numbers(numbers: &[u32], reply: &mut [i64])
    requires { 3 + length numbers.now ≤ length reply.old }
    ensures { reply.new ≡ spec.over_at 3 (map pos numbers.now) reply.old }
{
    for (i, n) in numbers.iter().enumerate() {
        reply[3 + i] = *n as i64;
    }
}

// Both.
pub(crate) fn put(head: Head, numbers: &[u32], reply: &mut [i64]) -> i32
    requires { 3 + length numbers.now ≤ length reply.old }
    ensures { (result ≡ pos (spec.tell head (map pos numbers.now)).status)
        × (reply.new ≡ spec.over_at 0 (spec.tell head (map pos numbers.now)).row reply.old) }
{
    let status = put_head(head, reply);
    put_numbers(numbers, reply);
    status
}
