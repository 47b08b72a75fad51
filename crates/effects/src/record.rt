// Every way in which a step makes a new state record.
ghost use Rattle.std.specs.Prelude.{◌≡◌, ◌+◌, ◌<◌};
ghost use Rattle.effects.specs.Progress.{dirty_after, workers_after, progressed};
ghost use Rattle.board.specs.Board.{shaped};
ghost use Rattle.board.specs.State.{started, placed, opened, requesting, after_release, released, conditioned, dirtied, locked};

use board::{Condition, Phase, State, UndoStep, Worker};

// "all eight workers free"
const ALL_FREE: [Worker; 8] = [Worker {
    condition: Condition::Free,
}; 8];

// "Each of the two starts sets every field."
pub fn started(phase: Phase, lines: u16, workers: u8) -> State
    ensures { result ≡ started phase (shaped lines) workers }
{
    State {
        phase,
        lines,
        workers,
        place: 0,
        undo: UndoStep::Restore,
        requested: false,
        holders: 0,
        dirty: [0; 8],
        worker: ALL_FREE,
    }
}

// What a step leaves of the eight workers: data, as the other fields of `Progress`, of which one record is made.
#[derive(Clone, Copy)]
pub enum Workers {
    Kept,
    Freed,
    Released,
}

// What a step leaves of the state record: these fields, whether it cleared the dirty lines, and the eight workers. The
// record is made of it in one place, `progressed`, so that it is copied once at most (docs/BENCH.md).
#[derive(Clone, Copy)]
pub struct Progress {
    pub phase: Phase,
    pub place: u16,
    pub undo: UndoStep,
    pub requested: bool,
    pub cleared: bool,
    pub workers: Workers,
}

// "release, with all eight workers free"; "Release leaves it away": the worker that it leaves.
fn released_worker(worker: Worker) -> Worker
    ensures { result.condition ≡ after_release worker.condition }
{
    match worker.condition {
        Condition::Away => worker,
        _ => Worker {
            condition: Condition::Free,
        },
    }
}

// The eight workers after a step that keeps them, frees them all, or releases them.
fn workers_after(state: State, workers: Workers) -> [Worker; 8]
    ensures { result ≡ workers_after workers state }
{
    match workers {
        Workers::Kept => state.worker,
        Workers::Freed => ALL_FREE,
        Workers::Released => state.worker.map(released_worker),
    }
}

// The state record after a step.
pub fn progressed(state: State, progress: Progress) -> State
    ensures { result ≡ progressed state progress }
{
    State {
        phase: progress.phase,
        place: progress.place,
        undo: progress.undo,
        requested: progress.requested,
        dirty: if progress.cleared {
            [0; 8]
        } else {
            state.dirty
        },
        worker: workers_after(state, progress.workers),
        ..state
    }
}

// The place, and a recovery's step there, put anew.
pub fn placed(state: State, place: u16, undo: UndoStep) -> Progress
    ensures { progressed state result ≡ placed state place undo }
{
    Progress {
        phase: state.phase,
        place,
        undo,
        requested: state.requested,
        cleared: false,
        workers: Workers::Kept,
    }
}

// The next place of a format or a checkpoint.
pub fn next_place(state: State) -> Progress
    requires { state.place < 65535 }
    ensures { progressed state result ≡ placed state (state.place + 1) state.undo }
{
    placed(state, state.place + 1, state.undo)
}

// "Then running, all free": the end of a format, which clears the dirty lines, or of a recovery, which leaves them.
pub fn opened(state: State, cleared: bool) -> Progress
    ensures { progressed state result ≡ opened state (dirty_after cleared state.dirty) }
{
    Progress {
        phase: Phase::Running,
        place: 0,
        undo: UndoStep::Restore,
        requested: state.requested,
        cleared,
        workers: Workers::Freed,
    }
}

// "release, with all eight workers free" but those that are away, "request gone", no line dirty, in the phase that it is
// in.
pub fn released(state: State) -> Progress
    ensures { progressed state result ≡ released state }
{
    Progress {
        phase: state.phase,
        place: 0,
        undo: UndoStep::Restore,
        requested: false,
        cleared: true,
        workers: Workers::Released,
    }
}

// "A request sets the place to 0."
pub fn requesting(state: State) -> State
    ensures { result ≡ requesting state }
{
    State {
        place: 0,
        undo: UndoStep::Restore,
        requested: true,
        ..state
    }
}

// A worker in another condition. Each index is a constant: put by `next.worker[worker]`, the record is copied, which
// takes a fifth more instructions in a round of updates.
pub fn conditioned(state: State, worker: usize, condition: Condition) -> State
    requires { worker < 8 }
    ensures { result ≡ conditioned state worker condition }
{
    let mut next = state;
    let put = Worker { condition };
    match worker {
        0 => next.worker[0] = put,
        1 => next.worker[1] = put,
        2 => next.worker[2] = put,
        3 => next.worker[3] = put,
        4 => next.worker[4] = put,
        5 => next.worker[5] = put,
        6 => next.worker[6] = put,
        _ => next.worker[7] = put,
    }
    next
}

// "a bit for each line": the bit of a line set.
pub fn dirtied(state: State, line: u64) -> State
    requires { line < 512 }
    ensures { result ≡ dirtied state line }
{
    let dirty = bitset::inserted(state.dirty, line);
    State { dirty, ..state }
}

// Other holders of the locks.
pub fn locked(state: State, holders: u64) -> State
    ensures { result ≡ locked state holders }
{
    State { holders, ..state }
}
