// Cause 3, "state record", and the tests of one worker, cell or line against it.
ghost use Rattle.std.specs.Prelude.{◌≡◌, ◌&&◌, ℕ, ◌+◌, ltb};
ghost use Rattle.bitset.specs.Words.{size};
ghost use Rattle.board.specs.State.{others_update};
ghost use Rattle.checks.specs.Head.{bad_head};
ghost use Rattle.board.specs.Causes.{place_past, bad_record, no_worker, no_data_cell, no_cell, no_line, busy, idle, not_away, checkpoint_begun, not_ready, checkpointing};

use crate::limits;
use crate::workers::{any_worker, updates};
use board::{Phase, State};

// "over n+2 when running with a checkpoint requested": the dirty lines are counted only where a request stands
fn past_release(state: State) -> bool
    ensures { result ≡ state.requested && ltb (size state.dirty + 2) state.place }
{
    state.requested && bitset::size(state.dirty) + 2 < u64::from(state.place)
}

// "place over L+1 in a format, a cell over 2L−1 in a recovery, over n+2 when running with a checkpoint requested"
fn place_past(state: State) -> bool
    ensures { result ≡ place_past state.phase state }
{
    match state.phase {
        Phase::Off => false,
        Phase::Formatting => u64::from(state.lines) + 1 < u64::from(state.place),
        Phase::Recovering => board::cells(state.lines) <= u64::from(state.place),
        Phase::Running => past_release(state),
    }
}

// "L or W outside the limits; place ..", "A bit set for line 0 or past L", "each lock's holder, a worker under W or
// none": all of cause 3 but the workers' updates. It is put into its callers: a call would copy the record (bench/trials.md).
#[inline(always)]
fn bad_head(state: State) -> bool
    ensures { result ≡ bad_head state }
{
    let lines = u64::from(state.lines);
    let workers = u64::from(state.workers);
    limits::outside(lines, workers)
        | bitset::strays(state.dirty, lines)
        | locks::held_from(state.holders, workers)
        | place_past(state)
}

// "..; cell 2L or more in an update of a worker under W"
#[inline(always)]
pub fn bad_record(state: State) -> bool
    ensures { result ≡ bad_record state }
{
    let cells = board::cells(state.lines);
    bad_head(state)
        | any_worker(
            state,
            |_, condition| updates(condition, |cell| cells <= cell),
        )
}

// The same of a step, once it is known whether it is ready: all workers of a running step that is ready wait or are
// away, so that there is no update to look for.
pub fn bad_step_record(state: State, unready: bool) -> bool
    requires { unready ≡ not_ready state }
    ensures { result ≡ bad_record state }
{
    if state.phase == Phase::Running && !unready {
        bad_head(state)
    } else {
        bad_record(state)
    }
}

// "worker W or more"
pub fn no_worker(state: State, worker: u64) -> bool
    ensures { result ≡ no_worker state worker }
{
    u64::from(state.workers) <= worker
}

// "update of a cell under W or 2L or more"
pub fn no_data_cell(state: State, cell: u64) -> bool
    ensures { result ≡ no_data_cell state cell }
{
    (cell < u64::from(state.workers)) | (board::cells(state.lines) <= cell)
}

// "read of 2L or more"
pub fn no_cell(state: State, cell: u64) -> bool
    ensures { result ≡ no_cell state cell }
{
    board::cells(state.lines) <= cell
}

// "line over L"
pub fn no_line(state: State, line: u64) -> bool
    ensures { result ≡ no_line state line }
{
    u64::from(state.lines) < line
}

// "update or restart point by a worker not free"; "going away when not free"; a lock taken by one not free
pub fn busy(state: State, worker: u64) -> bool
    ensures { result ≡ busy state worker }
{
    !state.condition_of(worker).is_free()
}

// "advance of one free or waiting", or away
pub fn idle(state: State, worker: u64) -> bool
    ensures { result ≡ idle state worker }
{
    !state.condition_of(worker).is_updating()
}

// "coming back when not away"
pub fn not_away(state: State, worker: u64) -> bool
    ensures { result ≡ not_away state worker }
{
    !state.condition_of(worker).is_away()
}

// "coming back after a checkpoint's first step and before its release"
pub fn checkpoint_begun(state: State) -> bool
    ensures { result ≡ checkpoint_begun state }
{
    state.requested & (0 < state.place)
}

// "another worker under W has an unfinished update of the same cell"
pub fn others_update(state: State, worker: u64, cell: u64) -> bool
    ensures { result ≡ others_update state worker cell }
{
    any_worker(state, |other, condition| {
        other != worker && updates(condition, |updated| cell == updated)
    })
}

// The step at hand is one of a requested checkpoint.
pub fn checkpointing(state: State) -> bool
    ensures { result ≡ checkpointing state }
{
    (state.phase == Phase::Running) & state.requested
}

// "running step with none requested, or with a worker under W not waiting"; "away counts as waiting"
pub fn not_ready(state: State) -> bool
    ensures { result ≡ not_ready state }
{
    state.phase == Phase::Running
        && (!state.requested | any_worker(state, |_, condition| !condition.is_quiescent()))
}
