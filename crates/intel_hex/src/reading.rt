// A text looked through: which record stands at its front, and how many bytes the whole of it holds. A text is lent from its
// next record on; that it has the twelve characters of the shortest record is a bound on a slice, and stands where it is used.
ghost use Rattle.std.specs.Prelude.{◌≡◌, true, false, length, MatchOption, ◌+◌, ◌*◌, ◌/◌, ◌≤◌};
ghost use Rattle.board.specs.Hex.{bytes_in, all_bytes, sum_of, count_of, has_record, address_of, type_of, parsed, is_no_file, read_bytes};
ghost use Rattle.intel_hex.specs.Storing.{front_of};

use crate::table::{byte, digit};

// What stands at a text's front: the end record, or a data record of so many bytes.
#[derive(Clone, Copy)]
enum Record {
    End,
    Data(usize),
}

// The sum of the bytes that a text's characters write, where all of them are bytes. What are no digits are counted, and not
// looked for one by one.
fn sum(text: &[u8]) -> Option<usize>
    requires { length text.now ≤ 520 }
    ensures { let bytes = bytes_in (length text.now / 2) text.now in
        MatchOption result (all_bytes bytes ≡ false) (λ n. (all_bytes bytes ≡ true) × (n ≡ sum_of bytes)) }
{
    let mut bytes = 0;
    let mut strays = 0;
    let (pairs, _) = text.as_chunks::<2>();
    for pair in pairs {
        let high = digit(pair[0]) as usize;
        let low = digit(pair[1]) as usize;
        bytes += 16 * high + low;
        strays += high / 16 + low / 16;
    }
    if strays == 0 { Some(bytes) } else { None }
}

// There is a record at the text's front; `count` is how many bytes of data it says that it has.
fn has_record(text: &[u8], count: u8) -> bool
    requires { (12 ≤ length text.now) × (count ≡ count_of text.now) }
    ensures { result ≡ has_record text.now }
{
    let end = 2 * count as usize + 11;
    if (text.len() <= end) || (text[0] != b':') || (text[end] != b'\n') {
        return false;
    }
    match sum(&text[1..end]) {
        Some(all) => all % 256 == 0,
        None => false,
    }
}

// The address of the record at the text's front.
fn address_of(text: &[u8]) -> Option<u16>
    requires { 12 ≤ length text.now }
    ensures { MatchOption result (has_record text.now ≡ false) (λ n. n ≡ address_of text.now) }
{
    Some(u16::from_be_bytes([byte(text[3], text[4])?, byte(text[5], text[6])?]))
}

// The type of the record at the text's front.
fn type_of(text: &[u8]) -> Option<u8>
    requires { 12 ≤ length text.now }
    ensures { MatchOption result (has_record text.now ≡ false) (λ n. n ≡ type_of text.now) }
{
    byte(text[7], text[8])
}

// What stands at the text's front, if its data are for `address`.
fn front(text: &[u8], address: usize) -> Option<Record>
    ensures { result ≡ front_of address text.now }
{
    if text.len() < 12 {
        return None;
    }
    let count = byte(text[1], text[2])?;
    let here = address_of(text)? as usize;
    let kind = type_of(text)?;
    if !has_record(text, count) {
        return None;
    }
    if (kind == 1) & (count == 0) & (here == 0) & (text.len() == 12) {
        return Some(Record::End);
    }
    if (kind == 0) & (count > 0) & (here == address) {
        return Some(Record::Data(count as usize));
    }
    None
}

// How many bytes a text holds, if it is a file: it is looked through to its end.
pub fn measure(text: &[u8]) -> Option<usize>
    ensures { MatchOption result (is_no_file (parsed text.now) ≡ true)
        (λ n. (is_no_file (parsed text.now) ≡ false) × (n ≡ length (read_bytes (parsed text.now)))) }
{
    let mut rest = text;
    let mut address = 0;
    while let Record::Data(n) = front(rest, address)? {
        rest = &rest[2 * n + 12..];
        address += n;
    }
    Some(address)
}
