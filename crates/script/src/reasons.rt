// Why a line is answered `?`, by the first reason that fits it: said on standard error of the first such line.
ghost use Rattle.std.specs.Prelude.{◌≡◌, not, drop};
ghost use Rattle.text.specs.Numbers.{all_digits};
ghost use Rattle.script.specs.Grammar.{fields};
ghost use Rattle.script.specs.Reasons.{stands_in, byte_order_mark, letters, unlettered};
ghost use Rattle.script.specs.Reasons.{field_reason, fields_reason, form_reason, unknown_reason, reason, reason_number, Decodes};

use crate::fields::{decimal, first_letter, is_tab};
use crate::{Line, Program, Reason};

// Whether a line begins as UTF-8 or UTF-16 does that says so.
fn begins_marked(line: &[u8]) -> bool
    ensures { result ≡ byte_order_mark line.now }
{
    matches!(line, [239, 187, 191, ..] | [254, 255, ..] | [255, 254, ..])
}

impl Program {
    // The letters that a program has.
    fn letters(self) -> &'static [u8]
        ensures { result.now ≡ letters self }
    {
        match self {
            Program::Drill | Program::Page | Program::Hex => b"FUAPCSEGXRHV",
            Program::Fault => b"FUAPCSEGXRHVfWMNQBKOTpabnhYy",
        }
    }

    // Whether a program has a letter.
    fn has_letter(self, letter: u8) -> bool
        ensures { result ≡ stands_in letter (letters self) }
    {
        self.letters().contains(&letter)
    }
}

// Whether a line begins with one letter of the program and then a tab or the line's end.
#[tactic(auto, using(crate::proofs::SplitLaws::lettered_some, crate::proofs::SplitLaws::lettered_none))]
fn is_lettered(program: Program, line: &[u8]) -> bool
    ensures { not result ≡ unlettered program line.now }
{
    first_letter(line).is_some_and(|letter| program.has_letter(letter))
}

// Whether a field is digits alone.
fn all_digits(field: &[u8]) -> bool
    ensures { result ≡ all_digits field.now }
{
    field.iter().all(|byte| byte.is_ascii_digit())
}

// Why a field that is no number is none.
#[tactic(auto, unfolding(crate::specs::Reasons::field_reason))]
fn why_no_number(field: &[u8]) -> Reason
    ensures { result ≡ field_reason field.now }
{
    if !field.is_empty() && all_digits(field) {
        Reason::Past
    } else {
        Reason::NoNumber
    }
}

// The first of the fields behind the first that is no number decides; where all are, their count is wrong.
fn why_fields(line: &[u8]) -> Reason
    ensures { result ≡ fields_reason (drop 1 (fields line.now)) }
{
    for field in line.split(is_tab).skip(1) {
        if decimal(field).is_none() {
            return why_no_number(field);
        }
    }
    Reason::Count
}

// Why a line of at most 79 bytes asks for nothing, by its letter and its fields.
#[tactic(auto, using(crate::proofs::SplitLaws::fields_behind), unfolding(crate::specs::Reasons::form_reason))]
fn why_form(program: Program, line: &[u8]) -> Reason
    ensures { result ≡ form_reason program line.now }
{
    if line.is_empty() {
        Reason::Empty
    } else if !is_lettered(program, line) {
        Reason::Letter
    } else {
        why_fields(line)
    }
}

// Why a line asks for nothing.
fn why_unknown(program: Program, line: &[u8]) -> Reason
    ensures { result ≡ unknown_reason program line.now }
{
    if line.len() > 79 {
        Reason::Long
    } else if begins_marked(line) {
        Reason::ByteOrderMark
    } else if line.contains(&b'\r') {
        Reason::CarriageReturn
    } else if line.contains(&b' ') {
        Reason::Blanks
    } else {
        why_form(program, line)
    }
}

// Why a line is answered `?`, `asks` being what it asks for: `Unfit` where that is something.
pub fn why(program: Program, line: &[u8], asks: Line) -> Reason
    ensures { result ≡ reason program line.now asks }
{
    match asks {
        Line::Unknown => why_unknown(program, line),
        _ => Reason::Unfit,
    }
}

// A reason's number. What is carried from line to line is words alone, which the compiler can take apart; an enum beside
// them would leave a gap (bench/trials.md).
pub fn reason_number(why: Reason) -> u64
    ensures { result ≡ reason_number why }
{
    why as u64
}

// A number that is no reason's.
#[derive(Clone, Copy, Debug, PartialEq, Eq)]
pub struct UnknownReason(pub u64);

impl TryFrom<u64> for Reason {
    type Error = UnknownReason;

    ghost try_from_gives = { Decodes };

    fn try_from(number: u64) -> Result<Self, UnknownReason> {
        match number {
            1 => Ok(Reason::Long),
            2 => Ok(Reason::ByteOrderMark),
            3 => Ok(Reason::CarriageReturn),
            4 => Ok(Reason::Blanks),
            5 => Ok(Reason::Empty),
            6 => Ok(Reason::Letter),
            7 => Ok(Reason::Past),
            8 => Ok(Reason::NoNumber),
            9 => Ok(Reason::Count),
            10 => Ok(Reason::Unfit),
            _ => Err(UnknownReason(number)),
        }
    }
}
