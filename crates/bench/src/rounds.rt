// The rounds that are played: how many calls one has, and which.
use crate::plan::{Drawn, Plan};
use board::Call;

// What one round is.
#[derive(Clone, Copy)]
pub enum Round {
    // A format's start and its L + 2 steps.
    Format,
    // The data cells below n updated in rising order, each to its own number: its lock taken, a start, three advances and
    // its lock given back.
    Fill,
    // All data cells updated in the same way.
    FillAll,
    // n − W data cells updated in the same way, each the first cell of a line that has no restart cell.
    Spread,
    // A request, then a restart point of each worker, after which it waits.
    Wait,
    // A request, a restart point of worker 0, after which it waits, and every other worker away.
    Leave,
    // An update of an unmarked cell, with its lock as above. The host then takes the mark and the bits back.
    Update,
    // An update of a marked cell: its lock taken, a start, one advance and its lock given back.
    Again,
    // The lock of a random cell taken and given back.
    Locks,
    // A checkpoint of n cells, the data cells alone in their lines: W/2 + n − W + 3 steps, W/2 rounded up. The host then
    // puts the state record back.
    Checkpoint,
    // The same with cells 0 to n − 1, both cells of n/2 lines: n/2 + 3 steps, n/2 rounded up.
    CheckpointPairs,
    // As `Checkpoint`, with every worker but worker 0 away, whose restart cells are not marked: n − W + 4 steps.
    CheckpointAway,
    // A recovery's start and its 2L steps, with no cell to undo.
    Recovery,
    // A write-back of the line of a random cell.
    WriteBack,
    // A read of every cell.
    Reads,
}

// The lock of a cell.
fn lock_of(cell: u64) -> u64 {
    cell % 16
}

// Call number `k` of an update of `last` + 1 calls: its cell's lock taken, its start, advances, and the lock given back.
fn update_call(worker: u64, k: u64, last: u64, cell: u64, value: u64) -> Call {
    let lock = lock_of(cell);
    match k {
        0 => Call::TakeLock { worker, lock },
        1 => Call::Update {
            worker,
            cell,
            value,
        },
        _ if k == last => Call::GiveBackLock { worker, lock },
        _ => Call::Advance { worker },
    }
}

// Call number `k` of a fill: six calls for each cell.
fn fill_call(plan: Plan, k: u64) -> Call {
    let cell = plan.workers as u64 + k / 6;
    update_call(plan.worker, k % 6, 5, cell, cell)
}

// Call number `k` of a spread: six calls for the first cell of each line after the restart cells'.
fn spread_call(plan: Plan, k: u64) -> Call {
    let cell = 2 * (plan.restart_lines() as u64 + k / 6);
    update_call(plan.worker, k % 6, 5, cell, cell)
}

// Call number `k` of a wait: the request, and four calls of each worker in turn.
fn wait_call(k: u64) -> Call {
    if k == 0 {
        return Call::Request;
    }
    let worker = (k - 1) / 4;
    if (k - 1) % 4 == 0 {
        Call::RestartPoint { worker, value: 3 }
    } else {
        Call::Advance { worker }
    }
}

// Call number `k` of a leave: the request, four calls of worker 0, and the others' going away.
fn leave_call(k: u64) -> Call {
    if k < 5 {
        wait_call(k)
    } else {
        Call::GoAway { worker: k - 4 }
    }
}

// The lock of a cell taken, and then given back.
fn locks_call(worker: u64, k: u64, cell: u64) -> Call {
    let lock = lock_of(cell);
    if k == 0 {
        Call::TakeLock { worker, lock }
    } else {
        Call::GiveBackLock { worker, lock }
    }
}

// A start before the first step, and then steps.
fn step_call(k: u64, start: Call) -> Call {
    if k == 0 { start } else { Call::Step }
}

impl Round {
    // The rounds that mark the cells which this one needs: all data cells, or n with the restart cells of the workers
    // that wait among them.
    pub fn before(self) -> &'static [Round] {
        match self {
            Round::Again => &[Round::FillAll],
            Round::Checkpoint => &[Round::Spread, Round::Wait],
            Round::CheckpointPairs => &[Round::Fill, Round::Wait],
            Round::CheckpointAway => &[Round::Spread, Round::Leave],
            _ => &[],
        }
    }

    // Whether the board has a line for every data cell that is to be alone in one.
    pub fn fits(self, plan: Plan) -> bool {
        match self {
            Round::Checkpoint | Round::CheckpointAway => plan.spread_lines() <= plan.lines as u32,
            _ => true,
        }
    }

    // How many calls a round has.
    pub fn calls(self, plan: Plan) -> u32 {
        let lines = plan.lines as u32;
        let cells = board::cells(plan.lines) as u32;
        let workers = plan.workers as u32;
        let n = plan.n as u32;
        match self {
            Round::Format => 1 + lines + 2,
            Round::Fill | Round::Spread => 6 * (n - workers),
            Round::FillAll => 6 * (cells - workers),
            Round::Wait => 1 + 4 * workers,
            Round::Leave => 4 + workers,
            Round::Update => 6,
            Round::Again => 4,
            Round::Locks => 2,
            Round::Checkpoint => plan.spread_lines() + 3,
            Round::CheckpointPairs => (n + 1) / 2 + 3,
            Round::CheckpointAway => n - workers + 4,
            Round::Recovery => 1 + cells,
            Round::WriteBack => 1,
            Round::Reads => cells,
        }
    }

    // Call number `k` of a round. A closure for each round would be this `match` again, where the closure is picked, and
    // a copy of the loop with `perform` in it for each.
    pub fn call(self, plan: Plan, k: u64, drawn: Drawn) -> Call {
        match self {
            Round::Format => step_call(
                k,
                Call::FormatStart {
                    lines: plan.lines as u64,
                    workers: plan.workers as u64,
                },
            ),
            Round::Fill | Round::FillAll => fill_call(plan, k),
            Round::Spread => spread_call(plan, k),
            Round::Wait => wait_call(k),
            Round::Leave => leave_call(k),
            Round::Update => update_call(plan.worker, k, 5, drawn.cell, drawn.random),
            Round::Again => update_call(plan.worker, k, 3, drawn.cell, drawn.random),
            Round::Locks => locks_call(plan.worker, k, drawn.cell),
            Round::Checkpoint | Round::CheckpointPairs | Round::CheckpointAway => Call::Step,
            Round::Recovery => step_call(k, Call::RecoveryStart),
            Round::WriteBack => Call::WriteBack {
                line: line::cell_line(drawn.cell as usize) as u64,
            },
            Round::Reads => Call::Read { cell: k },
        }
    }
}
