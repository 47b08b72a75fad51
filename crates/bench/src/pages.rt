// Pages of a board whose marks are equal, rising or random, or equal with half of the cells unchanged, printed again and again.
ghost use Rattle.std.specs.Prelude.{◌+◌, ◌≤◌, length};
ghost use Rattle.line.specs.Line.{line_start};
ghost use Rattle.line.specs.Cell.{cell_line};

use crate::setup::{self, Random};
use crate::workloads::{Bench, Marks};
use line::Field;

impl Marks {
    // The mark of a cell whose random number this is.
    fn mark_of(self, cell: u16, random: u64) -> u64 {
        match self {
            Marks::Equal | Marks::Mixed => 7,
            Marks::Rising => cell as u64 + 1,
            Marks::Random => random >> 44,
        }
    }

    // The backup of a cell whose record this is: it differs, but in half of the mixed cells.
    fn backup_of(self, record: u64) -> u64 {
        match self {
            Marks::Mixed if record % 2 == 0 => record,
            _ => record >> 32,
        }
    }
}

// The host puts a cell's record, backup and mark.
fn put_cell(cache: &mut [u64], cell: usize, record: u64, backup: u64, mark: u64)
    requires { line_start (cell_line cell) + 8 ≤ length cache.old }
{
    line::store_field(cache, cell, Field::Record, record);
    line::store_field(cache, cell, Field::Backup, backup);
    line::store_field(cache, cell, Field::Mark, mark);
}

impl Bench {
    // The host puts all cells.
    fn put_cells(&mut self, marks: Marks) {
        let plan = self.plan;
        let words = board::row_words(plan.lines);
        let cache = &mut self.rows[words..2 * words];
        let cells = board::cells(plan.lines) as u16;
        let mut random = Random::new(plan.seed);
        for cell in 0..cells {
            let record = random.next();
            put_cell(
                cache,
                cell as usize,
                record,
                marks.backup_of(record),
                marks.mark_of(cell, record),
            );
        }
    }

    // The pages of the board, the host putting a random record between them: the sum of their answers and of the last
    // one's bytes.
    fn print(&mut self, rounds: u32, text: &mut [u8]) -> u64 {
        let plan = self.plan;
        let state = self.state;
        let words = board::row_words(plan.lines);
        let (memory, cache) = self.rows[..2 * words].split_at_mut(words);
        let mut random = Random::new(plan.seed);
        let mut sum: u64 = 0;
        for _ in 0..rounds {
            let answer = page::page(state, memory, cache, text);
            sum = sum.wrapping_add(engine::answer_number(answer) as u64);
            let drawn = plan.draw(&mut random);
            line::store_field(cache, drawn.cell as usize, Field::Record, drawn.random);
        }
        setup::with_all(sum, text)
    }

    // The workload: the cells put, and the pages printed.
    pub fn print_pages(&mut self, marks: Marks, rounds: u32) -> u64 {
        let mut text = page::text_row();
        let bytes = board::page_bytes(self.plan.lines);
        self.put_cells(marks);
        self.print(rounds, &mut text[..bytes])
    }
}
