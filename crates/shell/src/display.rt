// The show program: a HEX text on standard input, read whole; the header's line and the page of the board that it holds on
// standard output, or on standard error why there is none. What is shown is by `console::display::show`.
ghost use Rattle.std.specs.Prelude.{◌≡◌, ◌≤◌, length, replicate, IfOk};

use crate::{Failure, messages, tell, write};
use console::display;
use script::Program;
use std::io;
use std::io::Read;

// Standard input, read into a buffer up to its end or the buffer's: how much a turn reads is the system's to say. Gives how
// many bytes were read.
fn read_all<I: Read>(reader: &mut I, buffer: &mut [u8]) -> Result<usize, Failure>
    ensures { IfOk result (λ bytes. bytes ≤ length buffer.new) }
{
    let mut used = 0;
    while used < buffer.len() {
        let n = reader.read(&mut buffer[used..]).map_err(Failure::Reading)?;
        if n == 0 {
            return Ok(used);
        }
        used += n;
    }
    Ok(used)
}

// What is shown of a text, the first bytes of the two rows, written, or why it is turned down.
fn show_text<R: Print + Eprint>(rt: &R, text: &[u8]) -> Result<(), Failure> {
    let mut memory = [0u64; 4096];
    let mut cache = [0u64; 4096];
    let mut heading = [0u8; 75];
    let mut row = page::text_row();
    match display::show(text, &mut memory, &mut cache, &mut heading, &mut row) {
        Ok(shown) => {
            write(rt, &heading[..shown.heading])?;
            write(rt, &row[..shown.bytes])
        }
        Err(refusal) => {
            messages::refused(rt, Program::Hex, refusal);
            Ok(())
        }
    }
}

// Room for one byte more than any file has: 65,535 + 255 bytes of data at most, in records of 14 characters, the shortest,
// and the end record.
fn text_buffer() -> [u8; 921073]
    ensures { result ≡ replicate 921073 0 }
{
    [0; 921073]
}

// A text read whole, and shown. A longer input than any file is read up to the buffer's end, which is no file.
fn show_all<R: io::Input + Print + Eprint>(rt: &R) -> Result<(), Failure> {
    let mut text = text_buffer();
    let mut reader = rt.reader();
    let n = read_all(&mut reader, &mut text)?;
    show_text(rt, &text[..n])
}

// A HEX text on standard input, shown.
pub fn show_input<R: io::Input + Print + Eprint>(rt: &R) {
    if let Err(failure) = show_all(rt) {
        tell(rt, Program::Hex, failure);
    }
}
