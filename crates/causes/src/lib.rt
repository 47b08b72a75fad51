// Why a call is refused: for each call the first cause that stands, in the order of document 01's table and of what
// document 02 adds.
#![tactic(auto, using(crate::proofs::Guard::no_refusal_is_taken), unfolding(board::specs::Causes::cause, board::specs::Causes::causes, board::specs::Causes::first_standing, board::specs::Page::page_cause, board::specs::Page::page_causes))]

mod refusals;

ghost use Rattle.std.specs.Prelude.{◌≡◌, ℕ, [], ◌∷◌, MatchResult, true, false};
ghost use Rattle.board.specs.declared.Call.{Call};
ghost use Rattle.board.specs.Causes.{cause, check, guarded, not_running, first_standing};
ghost use Rattle.board.specs.Next.{lent};
ghost use Rattle.board.specs.Page.{page_cause};
ghost use Rattle.causes.specs.Refusals.{answer_number};

use board::State;
use checks::{holders, limits, marks, phases, record, rows};
pub use refusals::{Refusal, answer_number};

// A line of the table: refused where the cause stands, else the lines after it tell.
#[inline]
fn refuse(stands: bool, refusal: Refusal) -> Result<(), Refusal>
    ensures { MatchResult result (λ _. stands ≡ false) (λ e. (stands ≡ true) × (e ≡ refusal)) }
{
    if stands { Err(refusal) } else { Ok(()) }
}

// What a worker's condition refuses, by 8, and then what the lock refuses, by 16: every call that looks at both does so here.
#[inline(always)]
fn condition_then_lock(condition: bool, lock: bool) -> Result<(), Refusal>
    ensures { answer_number result ≡ first_standing (check 8 condition ∷ check 16 lock ∷ []) }
{
    refuse(condition, Refusal::Condition)?;
    refuse(lock, Refusal::Holder)
}

// What can refuse every call but the two starts: 2 where its phase bars it, 3 and 4; then come the call's own. It is put
// into each of them: a call would copy the record (bench/trials.md).
#[inline(always)]
fn guarded(barred: bool, state: State, memory: &[u64], cache: &[u64]) -> Result<(), Refusal>
    ensures { answer_number result ≡ first_standing (guarded barred
        (lent state memory.now cache.now) []) }
{
    refuse(barred, Refusal::Phase)?;
    refuse(record::bad_record(state), Refusal::State)?;
    refuse(rows::bad_rows(state.lines, memory, cache), Refusal::Rows)
}

// "All else needs running."
#[inline(always)]
fn running(state: State, memory: &[u64], cache: &[u64]) -> Result<(), Refusal>
    ensures { answer_number result ≡ first_standing (guarded (not_running (lent state memory.now cache.now))
        (lent state memory.now cache.now) []) }
{
    guarded(phases::not_running(state), state, memory, cache)
}

// Format's start looks at its own L and W, and at the rows for that L.
pub fn of_format_start(
    state: State,
    memory: &[u64],
    cache: &[u64],
    lines: u64,
    workers: u64,
) -> Result<(), Refusal>
    ensures { answer_number result ≡ cause (Call.FormatStart lines workers)
        (lent state memory.now cache.now) }
{
    refuse(limits::outside(lines, workers), Refusal::Limits)?;
    refuse(rows::bad_rows(lines as u16, memory, cache), Refusal::Rows)
}

// Recovery's start looks at the rows and at memory's header and, where those pass, at every mark in memory.
pub fn of_recovery_start(state: State, memory: &[u64], cache: &[u64]) -> Result<(), Refusal>
    ensures { answer_number result ≡ cause Call.RecoveryStart
        (lent state memory.now cache.now) }
{
    refuse(rows::bad_recovery_rows(memory, cache), Refusal::Rows)?;
    refuse(rows::bad_header(memory), Refusal::Header)?;
    refuse(
        marks::later_mark(line::header_word(memory, 0), memory),
        Refusal::Mark,
    )
}

// A step looks at all that its phase and its place ask for.
pub fn of_step(state: State, memory: &[u64], cache: &[u64]) -> Result<(), Refusal>
    ensures { answer_number result ≡ cause Call.Step
        (lent state memory.now cache.now) }
{
    refuse(phases::not_on(state), Refusal::Phase)?;
    let unready = record::not_ready(state);
    refuse(record::bad_step_record(state, unready), Refusal::State)?;
    refuse(rows::bad_rows(state.lines, memory, cache), Refusal::Rows)?;
    refuse(unready, Refusal::Checkpoint)?;
    refuse(rows::stores_spent_epoch(state, cache), Refusal::Epoch)
}

// An update looks at the worker, the data cell and its lock, and at what the other workers update.
pub fn of_update(
    state: State,
    memory: &[u64],
    cache: &[u64],
    worker: u64,
    cell: u64,
) -> Result<(), Refusal>
    ensures { (v : ℕ) → answer_number result ≡ cause (Call.Update worker cell v)
        (lent state memory.now cache.now) }
{
    running(state, memory, cache)?;
    refuse(record::no_worker(state, worker), Refusal::Worker)?;
    refuse(record::no_data_cell(state, cell), Refusal::Address)?;
    condition_then_lock(
        record::busy(state, worker),
        holders::not_holder(state, worker, holders::lock_of(cell)),
    )?;
    refuse(
        record::others_update(state, worker, cell),
        Refusal::Conflict,
    )
}

// A restart point is an update of the worker's own cell, which is no data cell; the worker must hold no lock.
pub fn of_restart_point(
    state: State,
    memory: &[u64],
    cache: &[u64],
    worker: u64,
) -> Result<(), Refusal>
    ensures { (v : ℕ) → answer_number result ≡ cause (Call.RestartPoint worker v)
        (lent state memory.now cache.now) }
{
    running(state, memory, cache)?;
    refuse(record::no_worker(state, worker), Refusal::Worker)?;
    condition_then_lock(record::busy(state, worker), holders::holder(state, worker))?;
    refuse(
        record::others_update(state, worker, worker),
        Refusal::Conflict,
    )
}

// An advance looks at the worker, which must be in the middle of an update.
pub fn of_advance(state: State, memory: &[u64], cache: &[u64], worker: u64) -> Result<(), Refusal>
    ensures { answer_number result ≡ cause (Call.Advance worker)
        (lent state memory.now cache.now) }
{
    running(state, memory, cache)?;
    refuse(record::no_worker(state, worker), Refusal::Worker)?;
    refuse(record::idle(state, worker), Refusal::Condition)
}

// A request looks at whether one stands, and at the cache's epoch.
pub fn of_request(state: State, memory: &[u64], cache: &[u64]) -> Result<(), Refusal>
    ensures { answer_number result ≡ cause Call.Request
        (lent state memory.now cache.now) }
{
    running(state, memory, cache)?;
    refuse(state.requested, Refusal::Checkpoint)?;
    refuse(rows::epoch_spent(cache), Refusal::Epoch)
}

// A write-back looks at the line.
pub fn of_write_back(state: State, memory: &[u64], cache: &[u64], line: u64) -> Result<(), Refusal>
    ensures { answer_number result ≡ cause (Call.WriteBack line)
        (lent state memory.now cache.now) }
{
    guarded(
        phases::not_recovering_or_running(state),
        state,
        memory,
        cache,
    )?;
    refuse(record::no_line(state, line), Refusal::Address)
}

// A read looks at the cell.
pub fn of_read(state: State, memory: &[u64], cache: &[u64], cell: u64) -> Result<(), Refusal>
    ensures { answer_number result ≡ cause (Call.Read cell)
        (lent state memory.now cache.now) }
{
    running(state, memory, cache)?;
    refuse(record::no_cell(state, cell), Refusal::Address)
}

// The count looks at nothing but the phase, the record and the rows.
pub fn of_count(state: State, memory: &[u64], cache: &[u64]) -> Result<(), Refusal>
    ensures { answer_number result ≡ cause Call.Count (lent state memory.now cache.now) }
{
    running(state, memory, cache)
}

// Going away looks at the worker, which must be free and hold no lock.
pub fn of_go_away(state: State, memory: &[u64], cache: &[u64], worker: u64) -> Result<(), Refusal>
    ensures { answer_number result ≡ cause (Call.GoAway worker)
        (lent state memory.now cache.now) }
{
    running(state, memory, cache)?;
    refuse(record::no_worker(state, worker), Refusal::Worker)?;
    condition_then_lock(record::busy(state, worker), holders::holder(state, worker))
}

// Coming back looks at the worker, which must be away, and at whether a checkpoint has begun.
pub fn of_come_back(state: State, memory: &[u64], cache: &[u64], worker: u64) -> Result<(), Refusal>
    ensures { answer_number result ≡ cause (Call.ComeBack worker)
        (lent state memory.now cache.now) }
{
    running(state, memory, cache)?;
    refuse(record::no_worker(state, worker), Refusal::Worker)?;
    refuse(record::not_away(state, worker), Refusal::Condition)?;
    refuse(record::checkpoint_begun(state), Refusal::Begun)
}

// Taking a lock looks at the worker, which must be free, and at the lock, which nobody may hold.
pub fn of_take_lock(
    state: State,
    memory: &[u64],
    cache: &[u64],
    worker: u64,
    lock: u64,
) -> Result<(), Refusal>
    ensures { answer_number result ≡ cause (Call.TakeLock worker lock)
        (lent state memory.now cache.now) }
{
    running(state, memory, cache)?;
    refuse(record::no_worker(state, worker), Refusal::Worker)?;
    refuse(holders::no_lock(lock), Refusal::Lock)?;
    condition_then_lock(record::busy(state, worker), holders::lock_held(state, lock))
}

// Giving a lock back looks at the worker, which must hold it and have no unfinished update under it.
pub fn of_give_back_lock(
    state: State,
    memory: &[u64],
    cache: &[u64],
    worker: u64,
    lock: u64,
) -> Result<(), Refusal>
    ensures { answer_number result ≡ cause (Call.GiveBackLock worker lock)
        (lent state memory.now cache.now) }
{
    running(state, memory, cache)?;
    refuse(record::no_worker(state, worker), Refusal::Worker)?;
    refuse(holders::no_lock(lock), Refusal::Lock)?;
    condition_then_lock(
        holders::updates_under(state, worker, lock),
        holders::not_holder(state, worker, lock),
    )
}

// A page looks at the room in its text row, last of all.
pub fn of_page(state: State, memory: &[u64], cache: &[u64], text: &[u8]) -> Result<(), Refusal>
    ensures { answer_number result ≡ page_cause
        (lent state memory.now cache.now)
        text.now }
{
    running(state, memory, cache)?;
    refuse(rows::short_text(state.lines, text), Refusal::Text)
}
