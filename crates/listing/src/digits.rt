// A number's decimal digits, into a buffer of their own. No number of 64 bits has more than 20.

ghost use Rattle.std.specs.Prelude.{◌≡◌, ◌+◌, ◌<◌, ◌≤◌, length, take, drop};
ghost use Rattle.listing.specs.Digits.{last_digits, IsDigitCount, hex_digit_ascii};

// How many digits a number takes.
fn digit_count(n: u64) -> usize
    ensures { IsDigitCount 10 1 n result }
{
    n.max(1).ilog10() as usize + 1
}

fn digit_to_ascii(d: u64) -> u8
    requires { d < 10 }
    ensures { result ≡ hex_digit_ascii d }
{
    b'0' + d as u8
}

// Puts the last `k` digits of a number at the start of a buffer.
fn write_digits(n: u64, k: usize, out: &mut [u8])
    requires { k ≤ length out.old }
    ensures digits { take k out.new ≡ last_digits 10 k n }
    ensures rest { drop k out.new ≡ drop k out.old }
{
    let mut rest = n;
    for i in (0..k).rev() {
        out[i] = digit_to_ascii(rest % 10);
        rest /= 10;
    }
}

// Puts a number's decimal digits at the start of a buffer, and returns how many there are.
pub(crate) fn decimal(n: u64, out: &mut [u8; 20]) -> usize
    ensures in_bounds { result ≤ length out.new }
    ensures len { IsDigitCount 10 1 n result }
    ensures digits { take result out.new ≡ last_digits 10 result n }
    ensures rest { drop result out.new ≡ drop result out.old }
{
    let k = digit_count(n);
    write_digits(n, k, out);
    k
}
