// A cell's log.
ghost use Rattle.std.specs.Prelude.{◌≡◌, ◌+◌, ◌≤◌, length};
ghost use Rattle.board.specs.Location;
ghost use Rattle.board.specs.Location.{logged};
ghost use Rattle.line.specs.Line.{line_start};
ghost use Rattle.line.specs.Cell.{cell_line};

use line::Field;

// "a cell whose mark equals the epoch": its old value is logged.
pub fn logged(row: &[u64], cell: usize) -> bool
    requires { line_start (cell_line cell) + 8 ≤ length row.now }
    ensures { result ≡ logged row.now (Location.cell cell) }
{
    line::cell_field(row, cell, Field::Mark) == line::header_word(row, 0)
}
