// A memory as text: records of 16 bytes, then the end record. Each function is lent a writer, and leaves it behind what it
// wrote.
ghost use Rattle.std.specs.Prelude.{◌≡◌, false, [], ◌∷◌, ◌++◌, length, ◌+◌, ◌-◌, ◌%◌, ◌^◌, ◌<◌, ◌≤◌};
ghost use Rattle.text.specs.Ascii.{feed, ':'};
ghost use Rattle.text.specs.Appending.{Appended};
ghost use Rattle.text.specs.Writing.{put};
ghost use Rattle.board.specs.Causes.{bad_length};
ghost use Rattle.intel_hex.specs.Lanes.{spaced, Paired};
ghost use Rattle.board.specs.Hex.{bytes_text, sum_of, record_text, low_bytes, word_bytes, hex_text, hex_bytes};

use text::Writer;

// The four bytes of half a word, sixteen bits each, the lowest first.
fn spread(half: u64) -> u64
    requires { half < 2 ^ 32 }
    ensures { result ≡ spaced half }
{
    let twos = half % 65536 + half / 65536 * 0x1_0000_0000;
    let low = twos & 0x0000_00FF_0000_00FF;
    low + (twos - low) * 256
}

// The two characters of each of four bytes, sixteen bits each: a digit over 9 carries into its byte's bit 4 once 6 is added, and is 7 further on.
fn characters(bytes: u64) -> u64
    ensures { Paired bytes result }
{
    let low = bytes & 0x000F_000F_000F_000F;
    let digits = (bytes - low) / 16 + low * 256;
    let letters = (digits + 0x0606_0606_0606_0606) & 0x1010_1010_1010_1010;
    digits + 0x3030_3030_3030_3030 + letters / 16 * 7
}

// The two low bytes of `pair`.
fn put_pair(text: &mut Writer<'_>, pair: u64)
    requires { text.old.at + 2 ≤ length text.old.out.now }
    ensures { Appended text.old (low_bytes 2 pair) text.new × (text.new.at ≡ text.old.at + 2) }
{
    text.put_byte((pair % 256) as u8);
    text.put_byte((pair / 256 % 256) as u8);
}

// A byte as two digits.
fn put_byte(text: &mut Writer<'_>, byte: u8)
    requires { text.old.at + 2 ≤ length text.old.out.now }
    ensures { Appended text.old (bytes_text (byte ∷ [])) text.new × (text.new.at ≡ text.old.at + 2) }
{
    put_pair(text, characters(byte as u64));
}

// The bytes of half a word as digits, the lowest first. The compiler joins the stores; the library's copy of `to_le_bytes`
// would test each time whether it overlaps the row.
fn put_half(text: &mut Writer<'_>, half: u64)
    requires { (half < 2 ^ 32) × (text.old.at + 8 ≤ length text.old.out.now) }
    ensures { Appended text.old (bytes_text (low_bytes 4 half)) text.new × (text.new.at ≡ text.old.at + 8) }
{
    let pairs = characters(spread(half));
    put_pair(text, pairs);
    put_pair(text, pairs / 65536);
    put_pair(text, pairs / 0x1_0000_0000);
    put_pair(text, pairs / 0x1_0000_0000_0000);
}

// A word's bytes as digits, the lowest first.
fn put_word(text: &mut Writer<'_>, word: u64)
    requires { text.old.at + 16 ≤ length text.old.out.now }
    ensures { Appended text.old (bytes_text (low_bytes 8 word)) text.new × (text.new.at ≡ text.old.at + 16) }
{
    put_half(text, word % 0x1_0000_0000);
    put_half(text, word / 0x1_0000_0000);
}

// The sum of a word's bytes: four sums of two, two of four, and one.
fn byte_sum(word: u64) -> u64
    ensures { result ≡ sum_of (low_bytes 8 word) }
{
    let twos = spread(word % 0x1_0000_0000) + spread(word / 0x1_0000_0000);
    let fours = twos % 0x1_0000_0000 + twos / 0x1_0000_0000;
    fours % 65536 + fours / 65536
}

// What stands before a record's data: a colon, 16 bytes of data, the address, the type 00.
fn put_head(text: &mut Writer<'_>, high: u8, low: u8)
    requires { text.old.at + 9 ≤ length text.old.out.now }
    ensures { Appended text.old (':' ∷ bytes_text (16 ∷ high ∷ low ∷ 0 ∷ [])) text.new × (text.new.at ≡ text.old.at + 9) }
{
    text.put_byte(b':');
    put_byte(text, 16);
    put_byte(text, high);
    put_byte(text, low);
    put_byte(text, 0);
}

// What stands behind a record's data: the checksum and a line feed.
fn put_tail(text: &mut Writer<'_>, sum: u64)
    requires { text.old.at + 3 ≤ length text.old.out.now }
    ensures { Appended text.old (bytes_text ((256 - sum % 256) % 256 ∷ []) ++ (feed ∷ [])) text.new × (text.new.at ≡ text.old.at + 3) }
{
    put_byte(text, ((256 - sum % 256) % 256) as u8);
    text.put_byte(b'\n');
}

// The record of two words.
fn put_record(text: &mut Writer<'_>, address: u16, v: u64, w: u64)
    requires { text.old.at + 44 ≤ length text.old.out.now }
    ensures { Appended text.old (record_text address 0 (word_bytes (v ∷ w ∷ []))) text.new × (text.new.at ≡ text.old.at + 44) }
{
    let [high, low] = address.to_be_bytes();
    put_head(text, high, low);
    put_word(text, v);
    put_word(text, w);
    put_tail(
        text,
        16 + high as u64 + low as u64 + byte_sum(v) + byte_sum(w),
    );
}

// A memory's text at the front of the text row.
pub fn put_memory(memory: &[u64], text: &mut [u8])
    requires { (bad_length (length memory.now) ≡ false) × (hex_bytes (length memory.now) ≤ length text.old) }
    ensures { text.new ≡ put text.old 0 (hex_text memory.now) }
{
    let mut writer = Writer { out: text, at: 0 };
    let (pairs, _) = memory.as_chunks::<2>();
    for (i, pair) in pairs.iter().enumerate() {
        put_record(&mut writer, (16 * i) as u16, pair[0], pair[1]);
    }
    writer.put_text(b":00000001FF\n");
}
