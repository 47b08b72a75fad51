// A cell's record, backup and mark, in the eight-word part of its line and in a row.
ghost use Rattle.std.specs.Prelude.{◌≡◌, ◌+◌, ◌*◌, ◌<◌, ◌≤◌, length, get_or, set};
ghost use Rattle.line.specs.Line.{line_start};
ghost use Rattle.line.specs.Cell.{cell_line, field_offset, field_of, with_field};

use crate::Field;

// "Cell c stands in line 1 + (c div 2)".
pub fn cell_line(cell: usize) -> usize
    ensures { result ≡ cell_line cell }
{
    1 + cell / 2
}

impl Field {
    // Where the field stands among a cell's three words: they lie in the order of the enum.
    fn offset(self) -> usize
        ensures { (result ≡ field_offset self) × (result < 3) }
    {
        self as usize
    }

    // Where the field stands among its line's eight words; `half` is the cell's number mod 2.
    fn word(self, half: usize) -> usize
        requires { half < 2 }
        ensures { (result ≡ 3 * half + field_offset self) × (result < 8) }
    {
        3 * half + self.offset()
    }
}

// A field of a cell, read in its line's eight-word part. It takes the part as lent, "starting at 8 × line"; as a `[u64; 8]` it
// would come out of `first_chunk` as an Option that is never None.
pub fn field_in_line(part: &[u64], half: usize, field: Field) -> u64
    requires { (length part.now ≡ 8) × (half < 2) }
    ensures { result ≡ get_or part.now (3 * half + field_offset field) 0 }
{
    part[field.word(half)]
}

// A field of a cell, stored in its line's eight-word part.
pub fn store_in_line(part: &mut [u64], half: usize, field: Field, value: u64)
    requires { (length part.old ≡ 8) × (half < 2) }
    ensures { part.new ≡ set part.old (3 * half + field_offset field) value }
{
    part[field.word(half)] = value;
}

// A field of a cell, read in its line's part of the row.
pub fn cell_field(row: &[u64], cell: usize, field: Field) -> u64
    requires { line_start (cell_line cell) + 8 ≤ length row.now }
    ensures { result ≡ field_of row.now cell field }
{
    let start = 8 * cell_line(cell);
    field_in_line(&row[start..start + 8], cell % 2, field)
}

// A field of a cell, stored in its line's part of the row.
pub fn store_field(row: &mut [u64], cell: usize, field: Field, value: u64)
    requires { line_start (cell_line cell) + 8 ≤ length row.old }
    ensures { row.new ≡ with_field row.old cell field value }
{
    let start = 8 * cell_line(cell);
    store_in_line(&mut row[start..start + 8], cell % 2, field, value);
}

// A field of a cell, read in a row, 0 past its end.
pub fn cell_field_or_zero(row: &[u64], cell: u16, field: Field) -> u64
    ensures { result ≡ field_of row.now cell field }
{
    let c = cell as usize;
    let at = 8 * cell_line(c) + field.word(c % 2);
    row.get(at).copied().unwrap_or(0)
}
