// What a letter with its numbers asks for (document 01, "The drill program"). A letter that is not the drill's asks for
// `other`: what it asks for in the program at hand.
#![tactic(auto, unfolding(crate::specs::Grammar::drilled))]

ghost use Rattle.std.specs.Prelude.{◌≡◌, [], ◌∷◌, MatchOption};
ghost use Rattle.script.specs.declared.Line.TheVariants.{Unknown};
ghost use Rattle.script.specs.Grammar.{drilled, further, command, fields, formed, meaning};

use crate::damages::damaging;
use crate::fields::{first_letter, read_numbers};
use crate::{Line, Program};
use board::Call;

// The letters by how many numbers they take: one match of all, by letter and numbers, would pass forty lines.

// "C (request), S (step), X (cut), R (recovery's start)".
fn with_none(letter: u8, other: Line) -> Line
    ensures { result ≡ drilled letter [] other }
{
    match letter {
        b'C' => Line::Make {
            call: Call::Request,
        },
        b'S' => Line::Make { call: Call::Step },
        b'X' => Line::Cut,
        b'R' => Line::Make {
            call: Call::RecoveryStart,
        },
        _ => other,
    }
}

// "A worker", "E line", "G cell (read)".
fn with_one(letter: u8, a: u64, other: Line) -> Line
    ensures { result ≡ drilled letter (a ∷ []) other }
{
    match letter {
        b'A' => Line::Make {
            call: Call::Advance { worker: a },
        },
        b'E' => Line::Make {
            call: Call::WriteBack { line: a },
        },
        b'G' => Line::Show {
            call: Call::Read { cell: a },
        },
        _ => other,
    }
}

// "F L W (format to the end)", "P worker number"; document 02, ticket 6: "H (take) and V (give back), worker and lock".
fn with_two(letter: u8, a: u64, b: u64, other: Line) -> Line
    ensures { result ≡ drilled letter (a ∷ b ∷ []) other }
{
    match letter {
        b'F' => Line::Format {
            lines: a,
            workers: b,
        },
        b'P' => Line::Make {
            call: Call::RestartPoint {
                worker: a,
                value: b,
            },
        },
        b'H' => Line::Make {
            call: Call::TakeLock { worker: a, lock: b },
        },
        b'V' => Line::Make {
            call: Call::GiveBackLock { worker: a, lock: b },
        },
        _ => other,
    }
}

// "U worker cell value".
fn with_three(letter: u8, a: u64, b: u64, c: u64, other: Line) -> Line
    ensures { result ≡ drilled letter (a ∷ b ∷ c ∷ []) other }
{
    match letter {
        b'U' => Line::Make {
            call: Call::Update {
                worker: a,
                cell: b,
                value: c,
            },
        },
        _ => other,
    }
}

// What a letter of the drill with its numbers asks for; any other letter asks for `other`.
fn drilled(letter: u8, numbers: &[u64], other: Line) -> Line
    ensures { result ≡ drilled letter numbers.now other }
{
    match numbers {
        [] => with_none(letter, other),
        [a] => with_one(letter, *a, other),
        [a, b] => with_two(letter, *a, *b, other),
        [a, b, c] => with_three(letter, *a, *b, *c, other),
        _ => other,
    }
}

impl Program {
    // What a letter that is not the drill's asks for.
    fn further(self, letter: u8, numbers: &[u64]) -> Line
        ensures { result ≡ further self letter numbers.now }
    {
        match self {
            Program::Fault => damaging(letter, numbers),
            Program::Drill | Program::Page | Program::Hex => Line::Unknown,
        }
    }

    // What a letter with its numbers asks for.
    fn command(self, letter: u8, numbers: &[u64]) -> Line
        ensures { result ≡ command self letter numbers.now }
    {
        drilled(letter, numbers, self.further(letter, numbers))
    }
}

// What a line's fields ask for, where the first is a letter and the others are numbers.
#[tactic(auto, using(crate::proofs::NumberLaws::formed_no_letter, crate::proofs::NumberLaws::formed_no_numbers, crate::proofs::NumberLaws::formed_lettered))]
fn asked(program: Program, line: &[u8]) -> Option<Line>
    ensures { MatchOption result (formed program (fields line.now) ≡ Unknown) (λ asks. asks ≡ formed program (fields line.now)) }
{
    let letter = first_letter(line)?;
    let numbers = read_numbers(line)?;
    Some(program.command(letter, numbers.as_slice()))
}

// What a line of the script, without its line feed, asks for in a program.
#[tactic(auto, unfolding(crate::specs::Grammar::meaning))]
pub fn parse(program: Program, line: &[u8]) -> Line
    ensures { result ≡ meaning program line.now }
{
    if line.len() > 79 {
        return Line::Unknown;
    }
    asked(program, line).unwrap_or(Line::Unknown)
}
