// Numbers of answers, in decimal, by division: every answer has its line's number, and with digits counted from the table the
// drill took up to a quarter more time.
ghost use Rattle.std.specs.Prelude.{◌≡◌, ◌+◌, ◌≤◌, length};
ghost use Rattle.text.specs.Numbers.{number_text};
ghost use Rattle.text.specs.Writing.{Put};

use crate::{put_byte, put_text};

// A number's digits, written so that the last stands before `end`. Gives where they begin. The loop ends with the number,
// and counts no places.
fn put_divided(out: &mut [u8], end: usize, n: u64) -> usize
    requires { (length (number_text n) ≤ end) × (end ≤ length out.old) }
    ensures { Put out.old result (number_text n) out.new end }
{
    let mut at = end;
    let mut left = n;
    while left >= 10 {
        at -= 1;
        out[at] = b'0' + (left % 10) as u8;
        left /= 10;
    }
    at -= 1;
    out[at] = b'0' + left as u8;
    at
}

// A number's text, written from `at` on; most answers are one digit. Gives where it ends.
pub fn put_number(out: &mut [u8], at: usize, n: u64) -> usize
    requires { at + 20 ≤ length out.old }
    ensures { Put out.old at (number_text n) out.new result × (result ≤ at + 20) }
{
    if n < 10 {
        return put_byte(out, at, b'0' + n as u8);
    }
    let mut text = [0u8; 20];
    let start = put_divided(&mut text, 20, n);
    put_text(out, at, &text[start..]);
    at + (20 - start)
}
