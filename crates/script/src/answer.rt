// One line of the answer as text.
ghost use Rattle.std.specs.Prelude.{◌≡◌, ◌+◌, ◌≤◌, length};
ghost use Rattle.script.specs.Answers.{shown_text, answer_text, header_text, letter_of};
ghost use Rattle.text.specs.Appending.{Appended};
ghost use Rattle.text.specs.Writing.{Put};

use crate::Shown;
use text::Writer;

// The call column: the line's own first byte, `?` where the answer is `?`.
pub fn letter(first: u8, answer: Shown) -> u8
    ensures { result ≡ letter_of first answer }
{
    match answer {
        Shown::Unknown => b'?',
        Shown::Nothing | Shown::Number(_) => first,
    }
}

// "line call answer value".
pub fn header() -> [u8; 23]
    ensures { result ≡ header_text }
{
    *b"line\tcall\tanswer\tvalue\n"
}

// `?`, `-` or a number.
fn put_shown(line: &mut Writer<'_>, shown: Shown)
    requires { line.old.at + 20 ≤ length line.old.out.now }
    ensures { Appended line.old (shown_text shown) line.new × (line.new.at ≤ line.old.at + 20) }
{
    match shown {
        Shown::Unknown => line.put_byte(b'?'),
        Shown::Nothing => line.put_byte(b'-'),
        Shown::Number(n) => line.put_number(n),
    }
}

// One line of the answer, written from `at` on, behind those before it; at most 65 bytes. Gives where it ends.
pub fn put_answer(
    out: &mut [u8],
    at: usize,
    number: u64,
    call: u8,
    answer: Shown,
    value: Shown,
) -> usize
    requires { at + 65 ≤ length out.old }
    ensures { Put out.old at (answer_text number call answer value) out.new result × (result ≤ at + 65) }
{
    let mut line = Writer { out, at };
    line.put_number(number);
    line.put_byte(b'\t');
    line.put_byte(call);
    line.put_byte(b'\t');
    put_shown(&mut line, answer);
    line.put_byte(b'\t');
    put_shown(&mut line, value);
    line.put_byte(b'\n');
    line.at
}
