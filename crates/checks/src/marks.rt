// Cause 14 of document 02: marks that are later than an epoch.
ghost use Rattle.std.specs.Prelude.{◌≡◌, ◌||◌, length};
ghost use Rattle.board.specs.Board.{row_words, lines_of};
ghost use Rattle.board.specs.Causes.{later_mark};
ghost use Rattle.checks.specs.Marks.{later_at};

use line::Field;

// One of the marks of a line's two cells, read in its part, is greater than the epoch.
fn later_in_line(epoch: u64, part: &[u64]) -> bool
    requires { length part.now ≡ 8 }
    ensures { result ≡ later_at epoch part.now 0 || later_at epoch part.now 1 }
{
    (epoch < line::field_in_line(part, 0, Field::Mark))
        | (epoch < line::field_in_line(part, 1, Field::Mark))
}

// "any mark greater than its epoch": one walk over the lines that hold cells
pub fn later_mark(epoch: u64, row: &[u64]) -> bool
    requires { length row.now ≡ row_words (lines_of row.now) }
    ensures { result ≡ later_mark epoch row.now }
{
    let mut found = false;
    for line in 1..row.len() / 8 {
        let start = 8 * line;
        found |= later_in_line(epoch, &row[start..start + 8]);
    }
    found
}
