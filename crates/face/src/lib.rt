// What a host in C calls: exported functions on numbers and slices, a slice as a pointer and its length. `include/nevrodde.h`
// says each promise in words. Each is one of our calls under a name that begins `nevrodde_`.
#![tactic(auto)]

ghost use Rattle.board.specs.Hex.{HexWritePerformed, HexReadPerformed};

// A memory as HEX text into the text row (document 02, ticket 9).
#[unsafe(no_mangle)]
pub extern "C" fn nevrodde_hex_write(memory: &[u64], text: &mut [u8]) -> u8
    ensures performed { HexWritePerformed memory.now text.old result text.new }
{
    causes::answer_number(intel_hex::write(memory, text))
}

// HEX text into a row of words: "it hands the text over as bytes and gets a number back".
#[unsafe(no_mangle)]
pub extern "C" fn nevrodde_hex_read(text: &[u8], row: &mut [u64]) -> u8
    ensures performed { HexReadPerformed text.now row.old result row.new }
{
    causes::answer_number(intel_hex::read(text, row))
}
