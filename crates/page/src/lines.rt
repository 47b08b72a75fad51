// The lines of a page, written into the text row. A number ends at a column of a line that stands there already, blank, and a
// `Writer` writes only behind what it wrote: so each function is lent the whole row and a place in it.
ghost use Rattle.std.specs.Prelude.{◌≡◌, length, ◌+◌, ◌*◌, ◌<◌, ◌≤◌};
ghost use mathlib.Core.List.{[], map, flatten};
ghost use Rattle.text.specs.Numbers.{number_text};
ghost use Rattle.text.specs.Writing.{put, Put};
ghost use Rattle.board.specs.Page.{line_text, heading_text, cell_text};
ghost use Rattle.page.specs.Cells.{InCache, AllInCache};

use line::Field;

// The heading, at the front of the row.
pub fn put_heading(text: &mut [u8])
    requires { 68 ≤ length text.old }
    ensures { text.new ≡ put text.old 0 heading_text }
{
    text::put_text(
        text,
        0,
        b"cell               record               backup                 mark\n",
    );
}

// A line with nothing in its columns, 67 blanks and a line feed, from `at` on. The bytes are a local copy, which the compiler
// knows: lent as the constant they took 7 % longer a page of equal marks.
fn put_blank_line(text: &mut [u8], at: usize)
    requires { at + 68 ≤ length text.old }
    ensures { text.new ≡ put text.old at (line_text [] [] [] []) }
{
    let blank = *b"                                                                   \n";
    text::put_text(text, at, &blank);
}

// A line with a number in each column, from `at` on. Gives where it ends.
fn put_line(text: &mut [u8], at: usize, cell: u16, record: u64, backup: u64, mark: u64) -> usize
    requires { (cell < 10000) × (at + 68 ≤ length text.old) }
    ensures { Put text.old at (line_text (number_text cell) (number_text «record») (number_text backup) (number_text mark)) text.new result × (result ≡ at + 68) }
{
    put_blank_line(text, at);
    let powers = text::powers();
    text::put_digits(&powers, text, at + 4, cell as u64);
    text::put_digits(&powers, text, at + 25, record);
    text::put_digits(&powers, text, at + 46, backup);
    text::put_digits(&powers, text, at + 67, mark);
    at + 68
}

// The line of a cell, from `at` on. Gives where it ends.
fn put_cell(cache: &[u64], cell: u16, text: &mut [u8], at: usize) -> usize
    requires { InCache cache.now cell × (at + 68 ≤ length text.old) }
    ensures { Put text.old at (cell_text cache.now cell) text.new result × (result ≡ at + 68) }
{
    let c = cell as usize;
    let record = line::cell_field(cache, c, Field::Record);
    let backup = line::cell_field(cache, c, Field::Backup);
    let mark = line::cell_field(cache, c, Field::Mark);
    put_line(text, at, cell, record, backup, mark)
}

// A line for each cell, in the order of the cells lent, behind the heading.
pub fn put_cells(cache: &[u64], cells: &[u16], text: &mut [u8])
    requires { AllInCache cache.now cells.now × (68 * (length cells.now + 1) ≤ length text.old) }
    ensures { text.new ≡ put text.old 68 (flatten (map (cell_text cache.now) cells.now)) }
{
    let mut end = 68;
    for cell in cells {
        end = put_cell(cache, *cell, text, end);
    }
}
