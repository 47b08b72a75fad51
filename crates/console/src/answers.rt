// The lines of a piece of input, answered one after the other into a buffer. Buffers are fixed, as nothing is allocated: how
// much of one is in use, or where the next answer begins, goes beside it.
ghost use Rattle.std.specs.Prelude.{◌≡◌, ℕ, ◌+◌, ◌≤◌, true, List, ◌++◌, length, take};
ghost use Rattle.script.specs.Reasons.{reason, reason_number};
ghost use Rattle.console.specs.Transcript.{tallied};
ghost use Rattle.console.specs.Pieces.{first, leaving, kept, ended, fed, finished, carried_by, carried_in, SameBuffers, LineRead, LineEnds, Stops};

use crate::input::{feed_at, keep};
pub use crate::progress::{Buffers, Misread, Ongoing};
use script::{Line, Program, Shown};
use session::Session;

// What a line asks for, its first byte, 0 for an empty one, and why it is answered `?`, if it is, by the number that
// `Misread` carries.
// `first` and `why` are words of the definitions (`slice_index`, `reason_number`), for which 0 is what is not there.
#[derive(Clone, Copy)]
pub struct LineAsked {
    pub line: Line,
    pub first: u8,
    pub why: u64,
}

// After a line: what is carried on, and where its answer ends in the buffer.
#[derive(Clone, Copy)]
pub struct LineEnded {
    pub progress: Ongoing,
    pub end: usize,
}

// After a piece: what is carried on, the bytes of it that are used up, and the bytes of answers in the buffer.
#[derive(Clone, Copy)]
pub struct Answers {
    pub progress: Ongoing,
    pub used: usize,
    pub written: usize,
}

// The number of the reason why a line is answered `?`, if that is wanted.
fn reason_if(wanted: bool, program: Program, text: &[u8], line: Line) -> u64
    ensures { wanted ≡ true → result ≡ reason_number (reason program text.now line) }
{
    if wanted {
        return script::reason_number(script::why(program, text, line));
    }
    0
}

// A whole line, read; why it is answered `?` is looked for only if that is `wanted`.
fn asked_by(program: Program, wanted: bool, text: &[u8]) -> LineAsked
    ensures { LineRead program wanted text.now result }
{
    let line = script::parse(program, text);
    LineAsked {
        line,
        first: text.first().copied().unwrap_or(0),
        why: reason_if(wanted, program, text, line),
    }
}

// The line that ends with `rest`, of which `begun` bytes are kept, read.
fn read_line(
    program: Program,
    wanted: bool,
    line: &mut [u8],
    begun: usize,
    rest: &[u8],
) -> LineAsked
    requires { (begun ≤ 80) × (length line.old ≡ 80) }
    ensures { LineRead program wanted (take 80 (take begun line.old ++ rest.now)) result }
{
    if begun == 0 {
        return asked_by(program, wanted, rest);
    }
    let size = keep(line, begun, rest);
    asked_by(program, wanted, &line[..size])
}

impl Misread {
    // One line more that is answered `?`.
    fn one_more(self, number: u64, why: u64) -> Self
        ensures { result ≡ tallied self number why Shown.Unknown }
    {
        if self.lines == 0 {
            return Misread {
                lines: 1,
                first: number,
                why,
            };
        }
        let lines = self.lines.wrapping_add(1);
        Misread { lines, ..self }
    }

    // A line answered, tallied where the answer is `?`.
    fn tally(self, number: u64, why: u64, answer: Shown) -> Self
        ensures { result ≡ tallied self number why answer }
    {
        match answer {
            Shown::Unknown => self.one_more(number, why),
            Shown::Nothing | Shown::Number(_) => self,
        }
    }
}

impl Ongoing {
    // Before the first line.
    pub fn start() -> Self
        ensures { (memory cache text line : List ℕ) → carried_in result memory cache text line ≡ first }
    {
        Ongoing {
            session: Session::new(),
            number: 0,
            misread: Misread {
                lines: 0,
                first: 0,
                why: 0,
            },
            begun: 0,
        }
    }

    // The end of the line begun, of which `rest` are the last bytes: it is read, carried out, and answered behind the
    // first `at` bytes of `out`. A line that is no call leaves the session where it is.
    fn end_line(
        self,
        program: Program,
        buffers: &mut Buffers<'_>,
        rest: &[u8],
        at: usize,
    ) -> LineEnded
        requires { at + 80 ≤ 65536 }
        ensures ends { LineEnds (ended program (kept (carried_by self buffers.old) rest.now)) (carried_by result.progress buffers.new)
            buffers.old.out.now at buffers.new.out.now result.end }
        ensures same { SameBuffers buffers.old buffers.new }
    {
        let session = self.session;
        let misread = self.misread;
        let begun = self.begun;
        let asked = read_line(program, misread.lines == 0, buffers.line, begun, rest);
        let why = asked.why;
        let number = self.number.wrapping_add(1);
        if let Line::Unknown = asked.line {
            let progress = Ongoing {
                session,
                number,
                misread: misread.tally(number, why, Shown::Unknown),
                begun: 0,
            };
            let out = &mut *buffers.out;
            let end = script::put_answer(out, at, number, b'?', Shown::Unknown, Shown::Nothing);
            return LineEnded { progress, end };
        }
        let done = session.act(&mut buffers.rows, asked.line);
        let answer = done.answer;
        let letter = script::letter(asked.first, answer);
        let out = &mut *buffers.out;
        let end = script::put_answer(out, at, number, letter, answer, done.value);
        LineEnded {
            progress: Ongoing {
                session: done.session,
                number,
                misread: misread.tally(number, why, answer),
                begun: 0,
            },
            end,
        }
    }

    // What a piece has of a line that does not end in it, kept.
    fn keep_rest(self, line: &mut [u8], rest: &[u8]) -> Self
        requires { length line.old ≡ 80 }
        ensures { (result.session ≡ self.session) × (result.number ≡ self.number) × (result.misread ≡ self.misread) × (take result.begun line.new ≡ take 80 (take self.begun line.old ++ rest.now)) }
    {
        Ongoing {
            session: self.session,
            number: self.number,
            misread: self.misread,
            begun: keep(line, self.begun, rest),
        }
    }

    // The lines that end in a piece of input, answered from the start of `out`, and what it has of a further line kept.
    // It stops where the buffer might not hold another answer, and does nothing with the rest of the piece. The loop goes
    // from line to line: `at` is where the next one begins, and counts nothing.
    pub fn answer(self, program: Program, buffers: &mut Buffers<'_>, piece: &[u8]) -> Answers
        ensures fed { leaving (carried_by result.progress buffers.new) (take result.written buffers.new.out.now)
            ≡ fed program (carried_by self buffers.old) (take result.used piece.now) }
        ensures stops { Stops piece.now result.used result.written }
        ensures same { SameBuffers buffers.old buffers.new }
    {
        let mut reached = self;
        let mut at = 0;
        let mut end = 0;
        while at < piece.len() && end <= 65456 {
            let stop = feed_at(piece, at);
            let rest = &piece[at..stop];
            if stop == piece.len() {
                return Answers {
                    progress: reached.keep_rest(buffers.line, rest),
                    used: stop,
                    written: end,
                };
            }
            let r = reached.end_line(program, buffers, rest, end);
            reached = r.progress;
            end = r.end;
            at = stop + 1;
        }
        Answers {
            progress: reached,
            used: at,
            written: end,
        }
    }

    // After the input: a last line that lacks its line feed is carried out, and answered at the start of `out`.
    pub fn answer_last(self, program: Program, buffers: &mut Buffers<'_>) -> LineEnded
        ensures finishes { leaving (carried_by result.progress buffers.new) (take result.end buffers.new.out.now)
            ≡ finished program (carried_by self buffers.old) }
        ensures within { result.end ≤ 65536 }
        ensures same { SameBuffers buffers.old buffers.new }
    {
        if self.begun == 0 {
            return LineEnded {
                progress: self,
                end: 0,
            };
        }
        let r = self.answer(program, buffers, b"\n");
        LineEnded {
            progress: r.progress,
            end: r.written,
        }
    }
}
