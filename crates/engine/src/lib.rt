// The calls of documents 01 and 02 that a host can make. Each is lent both rows and says its complete outcome, taken or
// refused, as one equation with a definition of crate `board`; a refused one leaves the record and the rows as they were.
// Record and rows go apart, here and in the crates below: so each signature says which row a call may write, and the
// record goes by value (docs/BENCH.md).
#![tactic(auto)]

mod advances;
mod dispatch;
mod steps;

ghost use Rattle.std.specs.Prelude.{◌≡◌};
ghost use Rattle.board.specs.declared.Call.{Call};
ghost use Rattle.board.specs.declared.Phase.{Phase};
ghost use Rattle.board.specs.Board.{shaped};
ghost use Rattle.board.specs.State.{started};
ghost use Rattle.board.specs.Next.{lent, Performed};
ghost use Rattle.causes.specs.Refusals.{answer_number};
ghost use Rattle.engine.specs.Answers.{state_left, value_left};

use advances::taken_advance;
use board::{Condition, Phase, State};
pub use causes::{Refusal, answer_number};
pub use dispatch::perform;
use effects::{
    conditioned, lock_given_back, lock_taken, noted, progressed, requesting, restart, started,
};
use line::Field;
use steps::taken_step;

// What a taken call gives: the value that a read read or the count counted, 0 for every other call (01's own answer of them),
// and the state record that it leaves.
#[derive(Clone, Copy)]
pub struct Reading {
    pub value: u64,
    pub state: State,
}

// The record that a host begins with: off, all else 0, all eight workers free.
pub fn off() -> State
    ensures { result ≡ started Phase.Off (shaped 0) 0 }
{
    started(Phase::Off, 0, 0)
}

// A format's start; it "changes no row".
pub fn format_start(
    state: State,
    memory: &[u64],
    cache: &[u64],
    lines: u64,
    workers: u64,
) -> Result<State, Refusal>
    ensures performed { Performed (Call.FormatStart lines workers)
        (lent state memory.now cache.now)
        (answer_number result) 0
        (lent (state_left state result) memory.now cache.now) }
{
    causes::of_format_start(state, memory, cache, lines, workers)?;
    Ok(started(Phase::Formatting, lines as u16, workers as u8))
}

// A recovery's start.
pub fn recovery_start(state: State, memory: &[u64], cache: &mut [u64]) -> Result<State, Refusal>
    ensures performed { Performed Call.RecoveryStart
        (lent state memory.now cache.old)
        (answer_number result) 0
        (lent (state_left state result) memory.now cache.new) }
{
    causes::of_recovery_start(state, memory, cache)?;
    Ok(restart(memory, cache))
}

// A step of a format, a recovery or a checkpoint.
pub fn step(state: State, memory: &mut [u64], cache: &mut [u64]) -> Result<State, Refusal>
    ensures performed { Performed Call.Step
        (lent state memory.old cache.old)
        (answer_number result) 0
        (lent (state_left state result) memory.new cache.new) }
{
    causes::of_step(state, memory, cache)?;
    let progress = taken_step(state, memory, cache);
    Ok(progressed(state, progress))
}

// The start of an update (worker, data cell, value).
pub fn update(
    state: State,
    memory: &[u64],
    cache: &[u64],
    worker: u64,
    cell: u64,
    value: u64,
) -> Result<State, Refusal>
    ensures performed { Performed (Call.Update worker cell value)
        (lent state memory.now cache.now)
        (answer_number result) 0
        (lent (state_left state result) memory.now cache.now) }
{
    causes::of_update(state, memory, cache, worker, cell)?;
    Ok(noted(state, cache, worker as usize, cell as u16, value))
}

// The start of a restart point (worker, number), on the worker's own restart cell.
pub fn restart_point(
    state: State,
    memory: &[u64],
    cache: &[u64],
    worker: u64,
    value: u64,
) -> Result<State, Refusal>
    ensures performed { Performed (Call.RestartPoint worker value)
        (lent state memory.now cache.now)
        (answer_number result) 0
        (lent (state_left state result) memory.now cache.now) }
{
    causes::of_restart_point(state, memory, cache, worker)?;
    Ok(noted(state, cache, worker as usize, worker as u16, value))
}

// The next store of a worker's update.
pub fn advance(
    state: State,
    memory: &mut [u64],
    cache: &mut [u64],
    worker: u64,
) -> Result<State, Refusal>
    ensures performed { Performed (Call.Advance worker)
        (lent state memory.old cache.old)
        (answer_number result) 0
        (lent (state_left state result) memory.new cache.new) }
{
    causes::of_advance(state, memory, cache, worker)?;
    Ok(taken_advance(state, memory, cache, worker))
}

// A request of a checkpoint.
pub fn request(state: State, memory: &[u64], cache: &[u64]) -> Result<State, Refusal>
    ensures performed { Performed Call.Request
        (lent state memory.now cache.now)
        (answer_number result) 0
        (lent (state_left state result) memory.now cache.now) }
{
    causes::of_request(state, memory, cache)?;
    Ok(requesting(state))
}

// "A write-back copies a whole line from cache to memory."
pub fn write_back(state: State, memory: &mut [u64], cache: &[u64], line: u64) -> Result<(), Refusal>
    ensures performed { Performed (Call.WriteBack line)
        (lent state memory.old cache.now)
        (answer_number result) 0
        (lent state memory.new cache.now) }
{
    causes::of_write_back(state, memory, cache, line)?;
    line::write_back(memory, cache, line as usize);
    Ok(())
}

// "Read gives a cell's record in the cache"; "read value 0" where it is refused.
pub fn read(state: State, memory: &[u64], cache: &[u64], cell: u64) -> Result<u64, Refusal>
    ensures performed { Performed (Call.Read cell)
        (lent state memory.now cache.now)
        (answer_number result) (value_left result)
        (lent state memory.now cache.now) }
{
    causes::of_read(state, memory, cache, cell)?;
    Ok(line::cell_field(cache, cell as usize, Field::Record))
}

// "the count of set bits plus 3", the steps that a checkpoint of the dirty lines takes; "turned down, it gets 0".
pub fn count(state: State, memory: &[u64], cache: &[u64]) -> Result<u64, Refusal>
    ensures performed { Performed Call.Count
        (lent state memory.now cache.now)
        (answer_number result) (value_left result)
        (lent state memory.now cache.now) }
{
    causes::of_count(state, memory, cache)?;
    Ok(bitset::size(state.dirty) + 3)
}

// "A free worker may go away".
pub fn go_away(state: State, memory: &[u64], cache: &[u64], worker: u64) -> Result<State, Refusal>
    ensures performed { Performed (Call.GoAway worker)
        (lent state memory.now cache.now)
        (answer_number result) 0
        (lent (state_left state result) memory.now cache.now) }
{
    causes::of_go_away(state, memory, cache, worker)?;
    Ok(conditioned(state, worker as usize, Condition::Away))
}

// "and come back free". It differs from going away in a condition only, and is a call of its own, with its own equation.
pub fn come_back(state: State, memory: &[u64], cache: &[u64], worker: u64) -> Result<State, Refusal>
    ensures performed { Performed (Call.ComeBack worker)
        (lent state memory.now cache.now)
        (answer_number result) 0
        (lent (state_left state result) memory.now cache.now) }
{
    causes::of_come_back(state, memory, cache, worker)?;
    Ok(conditioned(state, worker as usize, Condition::Free))
}

// "A free worker .. takes a free lock."
pub fn take_lock(
    state: State,
    memory: &[u64],
    cache: &[u64],
    worker: u64,
    lock: u64,
) -> Result<State, Refusal>
    ensures performed { Performed (Call.TakeLock worker lock)
        (lent state memory.now cache.now)
        (answer_number result) 0
        (lent (state_left state result) memory.now cache.now) }
{
    causes::of_take_lock(state, memory, cache, worker, lock)?;
    Ok(lock_taken(state, worker, lock))
}

// "It gives it back when none of its updates under it is unfinished."
pub fn give_back_lock(
    state: State,
    memory: &[u64],
    cache: &[u64],
    worker: u64,
    lock: u64,
) -> Result<State, Refusal>
    ensures performed { Performed (Call.GiveBackLock worker lock)
        (lent state memory.now cache.now)
        (answer_number result) 0
        (lent (state_left state result) memory.now cache.now) }
{
    causes::of_give_back_lock(state, memory, cache, worker, lock)?;
    Ok(lock_given_back(state, lock))
}
