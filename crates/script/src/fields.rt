// The fields of a line and the decimal numbers in them.
ghost use Rattle.std.specs.Prelude.{◌≡◌, ◌==◌, ◌-◌, ◌<◌, ◌≤◌, ◌++◌, ℕ, List, [], ◌∷◌, length, take, drop, true, false, MatchOption};
ghost use Rattle.std.specs.Char.{is_ascii_digit};
ghost use Rattle.text.specs.Ascii.{tab};
ghost use Rattle.script.specs.Grammar.{fields};
ghost use Rattle.script.specs.Fields.{lone_letter, number_of, numbers_of};

use std::marker::Model;

// What parts the fields of a line.
pub fn is_tab(byte: &u8) -> bool
    ensures { result ≡ (byte.now == tab) }
{
    *byte == b'\t'
}

// The letter that a line begins with: its first field, where that is one byte.
#[tactic(auto, unfolding(crate::specs::Grammar::fields, crate::specs::Fields::lone_letter))]
pub fn first_letter(line: &[u8]) -> Option<u8>
    ensures { result ≡ lone_letter (fields line.now) }
{
    match line {
        [b'\t', ..] => None,
        [letter] | [letter, b'\t', ..] => Some(*letter),
        _ => None,
    }
}

// A decimal digit's number.
fn digit(byte: u8) -> Option<u64>
    ensures { MatchOption result (is_ascii_digit byte ≡ false) (λ d. (is_ascii_digit byte ≡ true) × (d ≡ byte - 48)) }
{
    if byte.is_ascii_digit() {
        Some(u64::from(byte - b'0'))
    } else {
        None
    }
}

// A field as a decimal number: one or more digits, not past 2^64 − 1.
pub fn decimal(field: &[u8]) -> Option<u64>
    ensures { result ≡ number_of field.now }
{
    if field.is_empty() {
        return None;
    }
    let mut value = 0u64;
    for byte in field {
        value = value.checked_mul(10)?.checked_add(digit(*byte)?)?;
    }
    Some(value)
}

// The numbers behind a line's letter, five at most. No heap is used, so an array has them, and a count how many there are;
// both are private, and outside it is a list.
#[derive(Drop)]
pub struct Numbers {
    values: [u64; 5],
    count: usize,
}

impl Model for Numbers {
    ghost Value = { List ℕ };

    ghost view = { λ n. take n.count n.values };

    ghost invariant = { λ n. n.count ≤ 5 };
}

impl Numbers {
    fn new() -> Self
        ensures { result ≡ [] }
    {
        Numbers {
            values: [0; 5],
            count: 0,
        }
    }

    // One number more; none where there are five already.
    fn push(&mut self, number: u64) -> Option<()>
        ensures { MatchOption result (length self.old ≡ 5) (λ _. (length self.old < 5) × (self.new ≡ self.old ++ number ∷ [])) }
    {
        if self.count == self.values.len() {
            return None;
        }
        self.values[self.count] = number;
        self.count += 1;
        Some(())
    }

    pub fn as_slice(&self) -> &[u64]
        ensures { result.now ≡ self.now }
    {
        &self.values[..self.count]
    }
}

// The numbers in the fields behind the first; none where a field is no number, or there are more than five.
pub fn read_numbers(line: &[u8]) -> Option<Numbers>
    ensures { result ≡ numbers_of (drop 1 (fields line.now)) }
{
    let mut numbers = Numbers::new();
    for field in line.split(is_tab).skip(1) {
        numbers.push(decimal(field)?)?;
    }
    Some(numbers)
}
