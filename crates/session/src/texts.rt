// The fault program's text: memory written into it as HEX, a byte of it put, memory read from it.
ghost use Rattle.std.specs.Prelude.{◌≡◌, ◌≤◌, take};
ghost use Rattle.board.specs.Hex.{HexWritePerformed, HexReadPerformed};
ghost use Rattle.causes.specs.Refusals.{answer_number};
ghost use Rattle.session.specs.Session.{desk_of, SameRows};
ghost use Rattle.session.specs.Lines.{text_row, left, worked};

use crate::{Answered, Rows, Session, told};
use engine::Refusal;
use script::{Shown, TextWork};

// Memory written as HEX into the first bytes of the text, each 0xAA before. Whole arrays are lent, here and below: the check
// does not cover a part to be written that is taken at once of an array that a field lends.
fn write_front(memory: &[u64], text: &mut [u8; 90200], bytes: usize) -> Result<(), Refusal>
    requires { bytes ≤ 90200 }
    ensures { HexWritePerformed memory.now (text_row bytes) (answer_number result) (take bytes text.new) }
{
    let front = &mut text[..bytes];
    front.fill(0xAA);
    intel_hex::write(memory, front)
}

// A text read into the first words of memory.
fn read_front(text: &[u8], memory: &mut [u64; 4104], words: usize) -> Result<(), Refusal>
    requires { words ≤ 4104 }
    ensures { HexReadPerformed text.now (take words memory.old) (answer_number result) (take words memory.new) }
{
    intel_hex::read(text, &mut memory[..words])
}

impl Session {
    // "h room": the text becomes `room` bytes, each 0xAA, and memory is written into it.
    fn write(self, rows: &mut Rows<'_>, room: u64) -> Answered
        ensures does { left result rows.new ≡ worked (TextWork.Write room) (desk_of self rows.old) }
        ensures same { SameRows rows.old rows.new }
    {
        if room > 90200 {
            return self.answered(Shown::Unknown);
        }
        let bytes = room as usize;
        let words = self.memory;
        let written = write_front(&rows.memory[..words], rows.text, bytes);
        let sum = damage::bytes_checksum(&rows.text[..bytes]);
        Answered {
            session: Session {
                state: self.state,
                memory: words,
                cache: self.cache,
                text: bytes,
            },
            answer: told(written),
            value: Shown::Number(sum),
        }
    }

    // "Y i v": text byte i := v.
    fn put(self, rows: &mut Rows<'_>, at: u64, byte: u64) -> Answered
        ensures does { left result rows.new ≡ worked (TextWork.Put at byte) (desk_of self rows.old) }
        ensures same { SameRows rows.old rows.new }
    {
        if at >= self.text as u64 || byte > 255 {
            return self.answered(Shown::Unknown);
        }
        let text = &mut *rows.text;
        text[at as usize] = byte as u8;
        self.answered(Shown::Number(0))
    }

    // "y n": the first n bytes of the text are read into memory.
    fn read(self, rows: &mut Rows<'_>, bytes: u64) -> Answered
        ensures does { left result rows.new ≡ worked (TextWork.Read bytes) (desk_of self rows.old) }
        ensures same { SameRows rows.old rows.new }
    {
        if bytes > self.text as u64 {
            return self.answered(Shown::Unknown);
        }
        let n = bytes as usize;
        let words = self.memory;
        let outcome = read_front(&rows.text[..n], rows.memory, words);
        self.answered(told(outcome))
    }

    // A line of the fault program that works with the text.
    pub(crate) fn work(self, rows: &mut Rows<'_>, work: TextWork) -> Answered
        ensures does { left result rows.new ≡ worked work (desk_of self rows.old) }
        ensures same { SameRows rows.old rows.new }
    {
        match work {
            TextWork::Write { room } => self.write(rows, room),
            TextWork::Put { at, byte } => self.put(rows, at, byte),
            TextWork::Read { bytes } => self.read(rows, bytes),
        }
    }
}
