// The page of the board that an input leaves, or its memory as HEX.
ghost use Rattle.std.specs.Prelude.{◌≡◌, ◌≤◌, replicate, IfOk};
ghost use Rattle.script.specs.declared.Program.{Program};
ghost use Rattle.board.specs.Next.{lent};
ghost use Rattle.console.specs.Pieces.{finished, carried_by, SameBuffers};
ghost use Rattle.console.specs.Printing.{printed_by, printed_of, hex_printed_of};

use crate::answers::{Buffers, Misread, Ongoing};
use board::State;
use engine::Refusal;
use script::Program;

// At an input's end: how many bytes of the text row are to be printed, or why none are, and the lines answered `?`.
#[derive(Clone, Copy)]
pub struct LastPrintout {
    pub printed: Result<usize, Refusal>,
    pub misread: Misread,
}

// The page of the board, put at the front of a text row as long as the largest page. Gives how many bytes it has.
pub fn print(
    state: State,
    memory: &[u64],
    cache: &[u64],
    row: &mut [u8; 69564],
) -> Result<usize, Refusal>
    ensures prints { printed_by result row.new ≡ printed_of (lent state memory.now cache.now) }
    ensures within { IfOk result (λ bytes. bytes ≤ 69564) }
{
    page::page(state, memory, cache, row)?;
    Ok(board::page_bytes(state.lines))
}

// A text row with room for the longest HEX text, all 0.
pub fn hex_row() -> [u8; 90124]
    ensures { result ≡ replicate 90124 0 }
{
    [0; 90124]
}

// Memory as HEX, put at the front of a text row as long as the longest such text. Gives how many bytes it has.
fn print_hex(memory: &[u64], row: &mut [u8; 90124]) -> Result<usize, Refusal>
    ensures prints { printed_by result row.new ≡ hex_printed_of memory.now }
    ensures within { IfOk result (λ bytes. bytes ≤ 90124) }
{
    intel_hex::write(memory, row)?;
    Ok(22 * memory.len() + 12)
}

impl Ongoing {
    // After the input: a last line that lacks its line feed is carried out, and the page of the board left is put into
    // the text row; the lines answered `?` are given too.
    pub fn last_page(self, buffers: &mut Buffers<'_>, row: &mut [u8; 69564]) -> LastPrintout
        ensures prints { printed_by result.printed row.new ≡ printed_of (finished Program.Page (carried_by self buffers.old)).after.desk.board }
        ensures within { IfOk result.printed (λ bytes. bytes ≤ 69564) }
        ensures notes { result.misread ≡ (finished Program.Page (carried_by self buffers.old)).after.misread }
        ensures same { SameBuffers buffers.old buffers.new }
    {
        let last = self.answer_last(Program::Page, buffers);
        let left = last.progress;
        let session = left.session;
        let in_memory = session.memory;
        let in_cache = session.cache;
        let rows = &mut buffers.rows;
        let memory = &mut *rows.memory;
        let cache = &mut *rows.cache;
        let state = session.state;
        LastPrintout {
            printed: print(state, &memory[..in_memory], &cache[..in_cache], row),
            misread: left.misread,
        }
    }

    // The same, with memory as HEX in place of the page. Two functions, since one over both would take the row's length and
    // what is put into it as parameters, and be longer than they are.
    pub fn last_hex(self, buffers: &mut Buffers<'_>, row: &mut [u8; 90124]) -> LastPrintout
        ensures prints { printed_by result.printed row.new ≡ hex_printed_of (finished Program.Hex (carried_by self buffers.old)).after.desk.board.memory }
        ensures within { IfOk result.printed (λ bytes. bytes ≤ 90124) }
        ensures notes { result.misread ≡ (finished Program.Hex (carried_by self buffers.old)).after.misread }
        ensures same { SameBuffers buffers.old buffers.new }
    {
        let last = self.answer_last(Program::Hex, buffers);
        let left = last.progress;
        let in_memory = left.session.memory;
        let rows = &mut buffers.rows;
        let memory = &mut *rows.memory;
        LastPrintout {
            printed: print_hex(&memory[..in_memory], row),
            misread: left.misread,
        }
    }
}
