// Intel HEX of the memory (document 02, ticket 9): a memory written as text, and a text read into a row of words. Neither
// call takes a state record.
#![tactic(auto)]

mod reading;
mod storing;
mod table;
mod writing;

ghost use Rattle.std.specs.Prelude.{◌≡◌};
ghost use Rattle.board.specs.Hex.{hex_words, HexWritePerformed, HexReadPerformed};
ghost use Rattle.causes.specs.Refusals.{answer_number};

pub use causes::{Refusal, answer_number};
use checks::rows;

// A memory as text into the text row; bytes past the text stay.
pub fn write(memory: &[u64], text: &mut [u8]) -> Result<(), Refusal>
    ensures performed { HexWritePerformed memory.now text.old (answer_number result) text.new }
{
    if rows::bad_length(memory.len()) {
        return Err(Refusal::Length);
    }
    if text.len() < 22 * memory.len() + 12 {
        return Err(Refusal::Text);
    }
    writing::put_memory(memory, text);
    Ok(())
}

// A text into a row that has just its words. The whole text is looked through before a word is stored.
pub fn read(text: &[u8], row: &mut [u64]) -> Result<(), Refusal>
    ensures performed { HexReadPerformed text.now row.old (answer_number result) row.new }
{
    let bytes = reading::measure(text).ok_or(Refusal::File)?;
    let words = row.len();
    if rows::bad_length(words) | (bytes != 8 * words) {
        return Err(Refusal::Length);
    }
    storing::store(text, row);
    Ok(())
}

// How many words a text holds; 0 where it is no file or its bytes are no whole words.
pub fn words_in(text: &[u8]) -> usize
    ensures { result ≡ hex_words text.now }
{
    match reading::measure(text) {
        Some(bytes) if bytes % 8 == 0 => bytes / 8,
        _ => 0,
    }
}
