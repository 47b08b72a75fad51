// What the letters ask for that only the fault program has.
#![tactic(auto, unfolding(crate::specs::Grammar::damaging))]

ghost use Rattle.std.specs.Prelude.{◌≡◌, [], ◌∷◌};
ghost use Rattle.script.specs.Grammar.{damaging};

use crate::{Damage, Line, TextWork};
use board::Call;

// "T", "n".
fn with_none(letter: u8) -> Line
    ensures { result ≡ damaging letter [] }
{
    match letter {
        b'T' => Line::Damage {
            damage: Damage::Checksum,
        },
        b'n' => Line::Show { call: Call::Count },
        _ => Line::Unknown,
    }
}

// "p room", "h room", "y n", "a w", "b w".
fn with_one(letter: u8, a: u64) -> Line
    ensures { result ≡ damaging letter (a ∷ []) }
{
    match letter {
        b'p' => Line::Page { room: a },
        b'h' => Line::Text {
            work: TextWork::Write { room: a },
        },
        b'y' => Line::Text {
            work: TextWork::Read { bytes: a },
        },
        b'a' => Line::Make {
            call: Call::GoAway { worker: a },
        },
        b'b' => Line::Make {
            call: Call::ComeBack { worker: a },
        },
        _ => Line::Unknown,
    }
}

// "f L W", "W m c", "M i v", "N i v", "Q i v", "B k v", "O k h", "Y i v".
fn with_two(letter: u8, a: u64, b: u64) -> Line
    ensures { result ≡ damaging letter (a ∷ b ∷ []) }
{
    match letter {
        b'f' => Line::Make {
            call: Call::FormatStart {
                lines: a,
                workers: b,
            },
        },
        b'W' => Line::Damage {
            damage: Damage::Lengths {
                memory: a,
                cache: b,
            },
        },
        b'M' => Line::Damage {
            damage: Damage::Memory { at: a, word: b },
        },
        b'N' => Line::Damage {
            damage: Damage::Cache { at: a, word: b },
        },
        b'Q' => Line::Damage {
            damage: Damage::Dirty { at: a, word: b },
        },
        b'B' => Line::Damage {
            damage: Damage::Field {
                field: a,
                number: b,
            },
        },
        b'O' => Line::Damage {
            damage: Damage::Holder { lock: a, holder: b },
        },
        b'Y' => Line::Text {
            work: TextWork::Put { at: a, byte: b },
        },
        _ => Line::Unknown,
    }
}

// "K w c n a v".
fn with_five(letter: u8, a: u64, b: u64, c: u64, d: u64, e: u64) -> Line
    ensures { result ≡ damaging letter (a ∷ b ∷ c ∷ d ∷ e ∷ []) }
{
    match letter {
        b'K' => Line::Damage {
            damage: Damage::Worker {
                worker: a,
                condition: b,
                next: c,
                cell: d,
                value: e,
            },
        },
        _ => Line::Unknown,
    }
}

// The fault program's own letters with their numbers.
pub fn damaging(letter: u8, numbers: &[u64]) -> Line
    ensures { result ≡ damaging letter numbers.now }
{
    match numbers {
        [] => with_none(letter),
        [a] => with_one(letter, *a),
        [a, b] => with_two(letter, *a, *b),
        [a, b, c, d, e] => with_five(letter, *a, *b, *c, *d, *e),
        _ => Line::Unknown,
    }
}
