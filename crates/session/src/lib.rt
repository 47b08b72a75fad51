// What a line of the script does to the board and to the text.
#![tactic(auto)]

mod desk;
mod texts;

ghost use Rattle.std.specs.Prelude.{◌≡◌, ◌≤◌, length, take, replicate};
ghost use Rattle.board.specs.Board.{shaped};
ghost use Rattle.board.specs.State.{started};
ghost use Rattle.board.specs.Next.{lent};
ghost use Rattle.causes.specs.Refusals.{answer_number};
ghost use Rattle.engine.specs.Answers.{value_left};
ghost use Rattle.script.specs.declared.Line.TheVariants.{Format, Show};
ghost use Rattle.session.specs.Session.{desk_of, SameRows};
ghost use Rattle.session.specs.Lines.{given, repeated, carried_out, left};

use board::{Call, Phase, State};
use damage::Sizes;
pub use desk::{Rows, Session};
use engine::Refusal;
use script::{Damage, Line, Shown};

// The session after a line, with the answer and the value to show.
#[derive(Clone, Copy)]
pub struct Answered {
    pub session: Session,
    pub answer: Shown,
    pub value: Shown,
}

// The record that calls made again and again leave, and what the last one of them gave.
#[derive(Clone, Copy)]
struct Repeated {
    state: State,
    last: Result<u64, Refusal>,
}

// A call's number, to be shown.
fn told<T: Copy>(outcome: Result<T, Refusal>) -> Shown
    ensures { result ≡ Shown.Number (answer_number outcome) }
{
    Shown::Number(u64::from(engine::answer_number(outcome)))
}

// The first `words` words of a row, zeroed. A function of its own: the check does not cover a part that is taken at once of
// an array that a field lends.
fn zero(row: &mut [u64], words: usize)
    requires { words ≤ length row.old }
    ensures { take words row.new ≡ replicate words 0 }
{
    row[..words].fill(0);
}

impl Session {
    // "before one they are empty and the phase is off"; "Before the first `h` the text is empty".
    pub fn new() -> Self
        ensures { (result.state ≡ started Phase.Off (shaped 0) 0) × (result.memory ≡ 0) × (result.cache ≡ 0) × (result.text ≡ 0) }
    {
        Session {
            state: engine::off(),
            memory: 0,
            cache: 0,
            text: 0,
        }
    }

    // Another record, beside the same rows and text.
    fn with_state(self, state: State) -> Self
        ensures state { result.state ≡ state }
        ensures same_lengths { (result.memory ≡ self.memory) × (result.cache ≡ self.cache) × (result.text ≡ self.text) }
    {
        Session {
            state,
            memory: self.memory,
            cache: self.cache,
            text: self.text,
        }
    }

    // A line that leaves the session where it is, and has no value to show.
    fn answered(self, answer: Shown) -> Answered
        ensures { (result.session ≡ self) × (result.answer ≡ answer) × (result.value ≡ Shown.Nothing) }
    {
        Answered {
            session: self,
            answer,
            value: Shown::Nothing,
        }
    }

    // A call made again and again on the parts in use; what is given back is the last one's. All calls are made here, so
    // that `perform` stands in one place of the program and its record is taken apart there (docs/BENCH.md).
    fn repeat(
        self,
        memory: &mut [u64; 4104],
        cache: &mut [u64; 4104],
        call: Call,
        times: u64,
    ) -> Repeated
        ensures { given (answer_number result.last) (value_left result.last) (lent result.state (take self.memory memory.new) (take self.cache cache.new))
            ≡ repeated times call (given 0 0 (lent self.state (take self.memory memory.old) (take self.cache cache.old))) }
    {
        let in_memory = self.memory;
        let in_cache = self.cache;
        let memory = &mut memory[..in_memory];
        let cache = &mut cache[..in_cache];
        let mut state = self.state;
        let mut last = Ok(0);
        for _ in 0..times {
            match engine::perform(call, state, memory, cache) {
                Ok(reading) => {
                    state = reading.state;
                    last = Ok(reading.value);
                }
                Err(refusal) => last = Err(refusal),
            }
        }
        Repeated { state, last }
    }

    // One call of the board, with its value shown.
    fn make(self, rows: &mut Rows<'_>, call: Call) -> Answered
        ensures does { left result rows.new ≡ carried_out (Show call) (desk_of self rows.old) }
        ensures same { SameRows rows.old rows.new }
    {
        let r = self.repeat(rows.memory, rows.cache, call, 1);
        Answered {
            session: self.with_state(r.state),
            answer: told(r.last),
            value: Shown::Number(r.last.unwrap_or(0)),
        }
    }

    // "X (cut: cache zeroed, phase off, answer 0)".
    fn cut(self, rows: &mut Rows<'_>) -> Answered
        ensures does { left result rows.new ≡ carried_out Line.Cut (desk_of self rows.old) }
        ensures same { SameRows rows.old rows.new }
    {
        rows.cache.fill(0);
        let state = self.state;
        self.with_state(State {
            phase: Phase::Off,
            ..state
        })
        .answered(Shown::Number(0))
    }

    // "F L W (format to the end)"; its rows are made to fit, so only its limits can turn it down.
    fn format(self, rows: &mut Rows<'_>, lines: u64, workers: u64) -> Answered
        ensures does { left result rows.new ≡ carried_out (Format lines workers) (desk_of self rows.old) }
        ensures same { SameRows rows.old rows.new }
    {
        if checks::limits::outside(lines, workers) {
            return self.answered(Shown::Number(1));
        }
        let words = board::row_words(lines as u16);
        zero(rows.memory, words);
        zero(rows.cache, words);
        let made = Session {
            state: self.state,
            memory: words,
            cache: words,
            text: self.text,
        };
        let start = Call::FormatStart { lines, workers };
        let begun = made.repeat(rows.memory, rows.cache, start, 1);
        let started = made.with_state(begun.state);
        let ended = started.repeat(rows.memory, rows.cache, Call::Step, lines + 2);
        started.with_state(ended.state).answered(Shown::Number(0))
    }

    // A damaging line of the fault program.
    fn harm(self, rows: &mut Rows<'_>, asked: Damage) -> Answered
        ensures does { left result rows.new ≡ carried_out (Line.Damage asked) (desk_of self rows.old) }
        ensures same { SameRows rows.old rows.new }
    {
        let sizes = Sizes {
            memory: self.memory,
            cache: self.cache,
        };
        let state = self.state;
        let memory = &mut *rows.memory;
        let cache = &mut *rows.cache;
        let r = damage::carry_out(state, sizes, memory, cache, asked);
        let used = r.sizes;
        Answered {
            session: Session {
                state: r.state,
                memory: used.memory,
                cache: used.cache,
                text: self.text,
            },
            answer: r.answer,
            value: r.value,
        }
    }

    // "p room": a page in a text row of `room` bytes, each 0xAA before.
    fn print(self, rows: &Rows<'_>, room: u64) -> Answered
        ensures { left result rows.now ≡ carried_out (Line.Page room) (desk_of self rows.now) }
    {
        if room > 70000 {
            return self.answered(Shown::Unknown);
        }
        let mut row = [0xAAu8; 70000];
        let text = &mut row[..room as usize];
        let state = self.state;
        let in_memory = self.memory;
        let in_cache = self.cache;
        let page = page::page(
            state,
            &rows.memory[..in_memory],
            &rows.cache[..in_cache],
            text,
        );
        Answered {
            session: self,
            answer: told(page),
            value: Shown::Number(damage::bytes_checksum(text)),
        }
    }

    // A line of the script.
    pub fn act(self, rows: &mut Rows<'_>, line: Line) -> Answered
        ensures does { left result rows.new ≡ carried_out line (desk_of self rows.old) }
        ensures same { SameRows rows.old rows.new }
    {
        match line {
            Line::Format { lines, workers } => self.format(rows, lines, workers),
            Line::Make { call } => Answered {
                value: Shown::Nothing,
                ..self.make(rows, call)
            },
            Line::Show { call } => self.make(rows, call),
            Line::Cut => self.cut(rows),
            Line::Damage { damage } => self.harm(rows, damage),
            Line::Page { room } => self.print(rows, room),
            Line::Text { work } => self.work(rows, work),
            Line::Unknown => self.answered(Shown::Unknown),
        }
    }
}
