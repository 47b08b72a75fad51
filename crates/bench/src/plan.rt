// The sizes of a workload, and the cells that it draws.
ghost use Rattle.std.specs.Prelude.{◌<◌, ◌≤◌};
ghost use Rattle.board.specs.Board.{shaped, cells};

use crate::setup::Random;

// A board's L and W, the cell n that a fill stops before (n cells are then marked for a checkpoint), the worker that
// updates, and the seed. L is within its limit, there is a data cell, and a fill stops no sooner than it starts.
#[derive(Clone, Copy)]
pub struct Plan {
    pub lines: u16,
    pub workers: u16,
    pub n: u16,
    pub worker: u64,
    pub seed: u64,
    ghost limited: { lines ≤ 511 },
    ghost has_data: { workers < cells (shaped lines) },
    ghost fillable: { workers ≤ n },
}

// A random number, and the data cell that it picks.
#[derive(Clone, Copy)]
pub struct Drawn {
    pub random: u64,
    pub cell: u64,
}

impl Plan {
    // The plan of these sizes; none where they are no board's, n is no such cell, or the seed is 0.
    pub fn new(lines: u64, workers: u64, n: u64, seed: u64) -> Option<Self> {
        if lines > 511 || workers < 1 || workers > 8 || seed == 0 {
            return None;
        }
        let cells = board::cells(lines as u16);
        if workers >= cells || n < workers || n > cells {
            return None;
        }
        Some(Plan {
            lines: lines as u16,
            workers: workers as u16,
            n: n as u16,
            worker: seed % workers,
            seed,
        })
    }

    // The next draw from a random sequence.
    pub fn draw(self, sequence: &mut Random) -> Drawn
        ensures { result.cell < cells (shaped self.lines) }
    {
        let random = sequence.next();
        let workers = self.workers as u64;
        let data = board::cells(self.lines) - workers;
        Drawn {
            random,
            cell: workers + random % data,
        }
    }

    // How many lines have restart cells.
    pub fn restart_lines(self) -> u32
        ensures { result ≤ 32768 }
    {
        (self.workers as u32 + 1) / 2
    }

    // The lines that a spread and the restart points make dirty.
    pub fn spread_lines(self) -> u32
        ensures { result < 131072 }
    {
        self.restart_lines() + (self.n as u32 - self.workers as u32)
    }
}
