// A page of cells for the van (document 02, ticket 1): the call, and how its text is written.
#![tactic(auto)]

mod lines;
mod merge;
mod order;

ghost use Rattle.std.specs.Prelude.{◌≡◌, length, replicate, ◌+◌, ◌*◌, ◌≤◌};
ghost use Rattle.text.specs.Writing.{put};
ghost use Rattle.board.specs.Board.{shaped, cells, row_words};
ghost use Rattle.board.specs.Next.{lent};
ghost use Rattle.board.specs.Page.{page_text, page_bytes, PagePerformed};
ghost use Rattle.causes.specs.Refusals.{answer_number};
ghost use Rattle.page.specs.Cells.{InCacheUnder};

use board::State;
pub use causes::{Refusal, answer_number};

// The page of as many cells as the row `cells` has room for, written at the front of the text row. `spare` is as long.
fn put_ordered(cache: &[u64], cells: &mut [u16], spare: &mut [u16], text: &mut [u8])
    requires { (length cells.old ≤ 1022) × (length spare.old ≡ length cells.old) × InCacheUnder cache.now (length cells.old) × (68 * (length cells.old + 1) ≤ length text.old) }
    ensures { text.new ≡ put text.old 0 (page_text cache.now (length cells.old)) }
{
    order::number(cells);
    order::number(spare);
    order::sort(cache, cells, spare);
    lines::put_heading(text);
    lines::put_cells(cache, cells, text);
}

// The page of a board with L lines, written at the front of the text row.
fn put_page(cache: &[u64], lines: u16, text: &mut [u8])
    requires { (lines ≤ 511) × (length cache.now ≡ row_words lines) × (page_bytes (shaped lines) ≤ length text.old) }
    ensures { text.new ≡ put text.old 0 (page_text cache.now (cells (shaped lines))) }
{
    let mut cells = [0u16; 1022];
    let mut spare = [0u16; 1022];
    let n = board::cells(lines) as usize;
    put_ordered(cache, &mut cells[..n], &mut spare[..n], text);
}

// A text row with room for the largest page, all 0.
pub fn text_row() -> [u8; 69564]
    ensures { result ≡ replicate 69564 0 }
{
    [0; 69564]
}

// A page of the board's cells into the text row; bytes past the page stay.
pub fn page(state: State, memory: &[u64], cache: &[u64], text: &mut [u8]) -> Result<(), Refusal>
    ensures performed { PagePerformed
        (lent state memory.now cache.now)
        text.old
        (answer_number result)
        (lent state memory.now cache.now)
        text.new }
{
    causes::of_page(state, memory, cache, text)?;
    put_page(cache, state.lines, text);
    Ok(())
}
