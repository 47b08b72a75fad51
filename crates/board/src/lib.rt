// The declared types of the board: its state record and the calls that a host can make (document 01).
#![tactic(auto)]

ghost use Rattle.std.specs.Prelude.{◌≡◌};
ghost use Rattle.board.specs.Board.{shaped, cells, row_words};
ghost use Rattle.board.specs.Page.{page_bytes};
ghost use Rattle.board.specs.State.{condition_of, is_free, is_updating, is_away, quiescent};

// What the board is doing.
#[derive(Clone, Copy, PartialEq, Eq)]
pub enum Phase {
    Off,
    Formatting,
    Recovering,
    Running,
}

// The next store of an unfinished update.
#[derive(Clone, Copy, PartialEq, Eq)]
pub enum Store {
    Backup,
    Mark,
    Record,
}

// The next step at a recovery's cell.
#[derive(Clone, Copy, PartialEq, Eq)]
pub enum UndoStep {
    Restore,
    Unmark,
    WriteLine,
}

// What a worker is doing; an update of a cell under W is a restart point. A worker that is away (document 02's word)
// waits for something outside, a coin say, and lets checkpoints go on without it. The order of an update's fields,
// with the small ones first, leaves no gap that the compiler could only keep in memory (docs/BENCH.md).
#[derive(Clone, Copy, PartialEq, Eq)]
pub enum Condition {
    Free,
    Waiting,
    Updating { next: Store, cell: u16, value: u64 },
    Away,
}

// A worker, with the data of its update inside.
#[derive(Clone, Copy, PartialEq, Eq)]
pub struct Worker {
    pub condition: Condition,
}

// The state record: phase, L, W, the place reached (with a recovery's step), whether a checkpoint was requested,
// the holders of the locks, four bits a lock (crate `locks`), the dirty lines, which the next checkpoint writes back, a
// bit a line (crate `bitset`), and the eight workers. The order of the small fields leaves no gap after them
// (docs/BENCH.md).
#[derive(Clone, Copy)]
pub struct State {
    pub phase: Phase,
    pub workers: u8,
    pub undo: UndoStep,
    pub requested: bool,
    pub lines: u16,
    pub place: u16,
    pub holders: u64,
    pub dirty: [u64; 8],
    pub worker: [Worker; 8],
}

// The fourteen calls with their arguments, any numbers a host may pass: nine of document 01, five of document 02.
#[derive(Clone, Copy)]
pub enum Call {
    FormatStart { lines: u64, workers: u64 },
    RecoveryStart,
    Step,
    Update { worker: u64, cell: u64, value: u64 },
    RestartPoint { worker: u64, value: u64 },
    Advance { worker: u64 },
    Request,
    WriteBack { line: u64 },
    Read { cell: u64 },
    GoAway { worker: u64 },
    ComeBack { worker: u64 },
    Count,
    TakeLock { worker: u64, lock: u64 },
    GiveBackLock { worker: u64, lock: u64 },
}

// "Lines 1 to L hold two cells each": the number of cells.
pub fn cells(lines: u16) -> u64
    ensures { result ≡ cells (shaped lines) }
{
    2 * u64::from(lines)
}

// "two rows of words of equal length, 8×(L+1) words".
pub fn row_words(lines: u16) -> usize
    ensures { result ≡ row_words lines }
{
    8 * (usize::from(lines) + 1)
}

// The bytes of a page: a heading and a line for each cell, 68 bytes each.
pub fn page_bytes(lines: u16) -> usize
    ensures { result ≡ page_bytes (shaped lines) }
{
    68 * (cells(lines) as usize + 1)
}

impl Condition {
    // "A worker is free".
    pub fn is_free(self) -> bool
        ensures { result ≡ is_free self }
    {
        matches!(self, Condition::Free)
    }

    // "or in the middle of an update".
    pub fn is_updating(self) -> bool
        ensures { result ≡ is_updating self }
    {
        matches!(self, Condition::Updating { .. })
    }

    // 02: "A free worker may go away".
    pub fn is_away(self) -> bool
        ensures { result ≡ is_away self }
    {
        matches!(self, Condition::Away)
    }

    // 02: "away counts as waiting": the worker holds no checkpoint up.
    pub fn is_quiescent(self) -> bool
        ensures { result ≡ quiescent self }
    {
        matches!(self, Condition::Waiting | Condition::Away)
    }
}

impl State {
    // The condition of a worker; a number past the eight has none, and counts as free. Each index is a constant: read by
    // `self.worker.get(..)`, the record is copied, which takes a tenth more instructions in a round of updates.
    pub fn condition_of(self, worker: u64) -> Condition
        ensures { result ≡ condition_of self worker }
    {
        match worker {
            0 => self.worker[0].condition,
            1 => self.worker[1].condition,
            2 => self.worker[2].condition,
            3 => self.worker[3].condition,
            4 => self.worker[4].condition,
            5 => self.worker[5].condition,
            6 => self.worker[6].condition,
            7 => self.worker[7].condition,
            _ => Condition::Free,
        }
    }
}
