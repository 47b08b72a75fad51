// The words of a text that was looked through, stored into a row that has just as many. A row is a part of the caller's, so
// its length, which keeps a byte's place from wrapping, is each function's to ask for, and no type's; `from` is a place in the
// whole row, since a byte is stored by what its word holds already.
ghost use Rattle.std.specs.Prelude.{◌≡◌, true, length, take, drop, MatchOption, ◌+◌, ◌*◌, ◌/◌, ◌<◌, ◌≤◌};
ghost use Rattle.board.specs.Hex.{byte_of, bytes_in, all_bytes, count_of, has_record, parsed, read_bytes, word_of, words_of};
ghost use Rattle.intel_hex.specs.Storing.{eight_of, stored, Filling};

use crate::table::digit;

// The byte that two digits write.
fn byte_of(high: u8, low: u8) -> u64
    requires { byte_of high low < 256 }
    ensures { result ≡ byte_of high low }
{
    16 * digit(high) as u64 + digit(low) as u64
}

// The bytes that digits write, stored from byte `from` of the row on.
fn store_bytes(digits: &[u8], row: &mut [u64], from: usize)
    requires { (all_bytes (bytes_in (length digits.now / 2) digits.now) ≡ true) × (from + length digits.now / 2 ≤ 8 * length row.old) × (length row.old ≤ 4096) }
    ensures { row.new ≡ stored row.old from (bytes_in (length digits.now / 2) digits.now) }
{
    let (pairs, _) = digits.as_chunks::<2>();
    for (k, pair) in pairs.iter().enumerate() {
        let word = (from + k) / 8;
        row[word] = row[word] / 256 + byte_of(pair[0], pair[1]) * 0x0100_0000_0000_0000;
    }
}

// A text's first eight characters, the first of them lowest.
fn eight_of(text: &[u8]) -> u64
    requires { 8 ≤ length text.now }
    ensures { result ≡ eight_of text.now }
{
    u64::from_le_bytes(*text.first_chunk::<8>().unwrap())
}

// The half word that a text's first eight digits write: all of them at once, then two by two, then the bytes moved together.
fn half_of(text: &[u8]) -> u64
    requires { (8 ≤ length text.now) × (all_bytes (bytes_in 4 text.now) ≡ true) }
    ensures { result ≡ word_of (bytes_in 4 text.now) }
{
    let places = eight_of(text);
    let digits = (places & 0x0F0F_0F0F_0F0F_0F0F) + (places & 0x4040_4040_4040_4040) / 64 * 9;
    let high = digits & 0x00FF_00FF_00FF_00FF;
    let bytes = high * 16 + (digits - high) / 256;
    let even = bytes & 0x0000_00FF_0000_00FF;
    let twos = even + (bytes - even) / 256;
    twos % 0x1_0000_0000 + twos / 0x1_0000_0000 * 65536
}

// The word that a text's first sixteen digits write.
fn word_of(text: &[u8]) -> u64
    requires { (16 ≤ length text.now) × (all_bytes (bytes_in 8 text.now) ≡ true) }
    ensures { result ≡ word_of (bytes_in 8 text.now) }
{
    half_of(text) + half_of(&text[8..]) * 0x1_0000_0000
}

// The words that digits write, stored from word `from` of the row on.
fn store_words(digits: &[u8], row: &mut [u64], from: usize)
    requires { (all_bytes (bytes_in (8 * (length digits.now / 16)) digits.now) ≡ true) × (from + length digits.now / 16 ≤ length row.old) × (length row.old ≤ 4096) }
    ensures { row.new ≡ stored row.old (8 * from) (bytes_in (8 * (length digits.now / 16)) digits.now) }
{
    let (words, _) = digits.as_chunks::<16>();
    for (i, word) in words.iter().enumerate() {
        row[from + i] = word_of(word);
    }
}

// The bytes that digits write, stored from byte `from` of the row on: word by word where there are only whole words.
fn store_part(digits: &[u8], row: &mut [u64], from: usize)
    requires { (all_bytes (bytes_in (length digits.now / 2) digits.now) ≡ true) × (from + length digits.now / 2 ≤ 8 * length row.old) × (length row.old ≤ 4096) }
    ensures { row.new ≡ stored row.old from (bytes_in (length digits.now / 2) digits.now) }
{
    if (from % 8 == 0) & (digits.len() % 16 == 0) {
        store_words(digits, row, from / 8);
    } else {
        store_bytes(digits, row, from);
    }
}

// The digits of the data in the record at the text's front, and the text behind that record; none where it has no data.
fn split_data(text: &[u8]) -> Option<(&[u8], &[u8])>
    requires { has_record text.now ≡ true }
    ensures { let n = count_of text.now in MatchOption result (n ≡ 0)
        (λ p. (0 < n) × (p.0.now ≡ take (2 * n) (drop 9 text.now)) × (p.1.now ≡ drop (2 * n + 12) text.now)) }
{
    let n = byte_of(text[1], text[2]) as usize;
    if n == 0 {
        return None;
    }
    Some((&text[9..2 * n + 9], &text[2 * n + 12..]))
}

// The words of a text, stored into the row.
pub fn store(text: &[u8], row: &mut [u64])
    requires { Filling text.now row.old × (length row.old ≤ 4096) }
    ensures { row.new ≡ words_of (length row.old) (read_bytes (parsed text.now)) }
{
    let mut rest = text;
    let mut from = 0;
    while let Some((data, behind)) = split_data(rest) {
        store_part(data, row, from);
        from += data.len() / 2;
        rest = behind;
    }
}
