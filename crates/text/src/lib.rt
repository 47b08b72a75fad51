// Text written into a lent row of bytes: bytes, texts, and numbers in decimal. A row is written from `at` on and keeps all
// other bytes: `Put` says so of the whole row. A `Writer` has row and place in one, for what is written piece by piece.
#![tactic(auto)]

mod digits;
mod number;
mod table;
mod writer;

ghost use Rattle.std.specs.Prelude.{◌≡◌, ◌+◌, ◌<◌, ◌≤◌, [], ◌∷◌, length};
ghost use Rattle.text.specs.Writing.{put, Put};

pub use digits::put_digits;
pub use number::put_number;
pub use table::powers;
pub use writer::Writer;

// One byte, written at `at`. Gives where it ends.
pub fn put_byte(out: &mut [u8], at: usize, byte: u8) -> usize
    requires { at < length out.old }
    ensures { Put out.old at (byte ∷ []) out.new result }
{
    out[at] = byte;
    at + 1
}

// The whole of `text`, written from `at` on.
pub fn put_text(out: &mut [u8], at: usize, text: &[u8])
    requires { at + length text.now ≤ length out.old }
    ensures { out.new ≡ put out.old at text.now }
{
    out[at..at + text.len()].copy_from_slice(text);
}
