// A number's digits, counted by subtraction from the table of the powers of ten: no division by ten or a power of it.
ghost use Rattle.std.specs.Prelude.{◌≡◌, ◌+◌, ◌-◌, ◌*◌, ◌/◌, ◌%◌, ◌^◌, ◌<◌, ◌≤◌, length, if◌then◌else◌, nat_lt};
ghost use Rattle.text.specs.Numbers.{number_text, last_digits};
ghost use Rattle.text.specs.Powers.{PowersOfTen, Runs};
ghost use Rattle.text.specs.Writing.{Put};

use crate::table::PowerTable;

// `s` less `k` where that fits, else `otherwise`. The highest bit of the wrapped difference tells, so that the compiler makes no
// branch of it: no processor could guess a digit.
fn reduced(s: u64, k: u64, otherwise: u64) -> u64
    requires { (s < k + 2 ^ 63) × (k ≤ s + 2 ^ 63) }
    ensures { result ≡ (if nat_lt s k then otherwise else s - k) }
{
    let rest = s.wrapping_sub(k);
    if rest < 1 << 63 { rest } else { otherwise }
}

// What is left of `s` when `unit` is taken off as often as it fits, and in its low four bits how often that was: to take off
// `unit` less 1 is to take off the unit and to count one more. Both numbers are multiples of 16, which leaves those bits free.
// Eight times and four never fit both, so neither waits for the other.
fn counted(s: u64, unit: u64) -> u64
    requires { (s % 16 ≡ 0) × (unit % 16 ≡ 0) × (s < 10 * unit) × (unit ≤ 10 ^ 18) }
    ensures { result ≡ s % unit + s / unit }
{
    let once = unit - 1;
    let s = reduced(s, 8 * once, reduced(s, 4 * once, s));
    let s = reduced(s, 2 * once, s);
    reduced(s, once, s)
}

// Row, end and first place go side by side: each run writes another stretch of the row, so that no value holds the three.
impl PowerTable<'_> {
    // The digits of `s` at the places from `from` down to the one above `to`. Place k stands k bytes before `end`, and its unit
    // is `scale` times 10^(k - 1). Gives what is left.
    fn put_run(self, out: &mut [u8], end: usize, from: usize, to: usize, scale: u64, s: u64) -> u64
        requires { Runs from to scale s × (from ≤ end) × (end ≤ length out.old) }
        ensures { (result ≡ s % (scale * 10 ^ to))
            × Put out.old (end - from) (last_digits (from - to) (s / (scale * 10 ^ to))) out.new (end - to) }
    {
        let mut left = s;
        for k in (to..from).rev() {
            left = counted(left, scale * self.powers[k]);
            out[end - k - 1] = b'0' + (left % 16) as u8;
            left -= left % 16;
        }
        left
    }

    // The last `from` digits of a number, at most four, up to `end`. The last of them is what the run leaves.
    fn put_last(self, out: &mut [u8], end: usize, from: usize, n: u64)
        requires { (0 < from) × (from ≤ 4) × (n < 10 ^ from) × (from ≤ end) × (end ≤ length out.old) }
        ensures { Put out.old (end - from) (last_digits from n) out.new end }
    {
        let digit = self.put_run(out, end, from, 1, 16, 16 * n) / 16;
        out[end - 1] = b'0' + digit as u8;
    }

    // The last `from` digits of a number, at most nineteen, up to `end`. From 10^4 on a power of ten is a multiple of 16, so the
    // number's own low four bits are put aside; below, all is taken sixteen times.
    fn put_places(self, out: &mut [u8], end: usize, from: usize, n: u64)
        requires { (0 < from) × (from ≤ 19) × (n < 10 ^ from) × (from ≤ end) × (end ≤ length out.old) }
        ensures { Put out.old (end - from) (last_digits from n) out.new end }
    {
        if from > 4 {
            let low = n % 16;
            let left = self.put_run(out, end, from, 4, 1, n - low) + low;
            self.put_last(out, end, 4, left);
        } else {
            self.put_last(out, end, from, n);
        }
    }

    // How many digits a number has: one for each power that it reaches, and at least one.
    fn digits_of(self, n: u64) -> usize
        ensures { result ≡ length (number_text n) }
    {
        for k in 1..20 {
            if n < self.powers[k] {
                return k;
            }
        }
        20
    }
}

// A number's digits, written so that the last stands before `end`. Gives where they begin. Callers lend any array that is such
// a table, as the contract has always let them; from here on the type carries the fact.
pub fn put_digits(powers: &[u64; 20], out: &mut [u8], end: usize, n: u64) -> usize
    requires { PowersOfTen powers.now × (length (number_text n) ≤ end) × (end ≤ length out.old) }
    ensures { Put out.old result (number_text n) out.new end }
{
    let table = PowerTable { powers };
    let digits = table.digits_of(n);
    if digits == 20 {
        out[end - 20] = b'1';
        table.put_places(out, end, 19, n - powers[19]);
    } else {
        table.put_places(out, end, digits, n);
    }
    end - digits
}
