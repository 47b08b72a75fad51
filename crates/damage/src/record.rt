// The state record with a field, a word of the dirty lines' bits, a worker or a lock's holder put anew; none where a number
// cannot be put where it is to go.
ghost use Rattle.std.specs.Prelude.{◌≡◌, ◌==◌, ◌<◌, ◌≤◌, true, false, MatchOption};
ghost use Rattle.board.specs.State.{conditioned, locked};
ghost use Rattle.damage.specs.Record.{phase_of, undo_of, store_of, field_fits, with_field, word_there, with_word, condition_fits, condition_of, worker_fits, holder_fits, with_holder};

use board::{Condition, Phase, State, Store, UndoStep};

// "0 off, 1 formatting, 2 recovering, 3 running". (`TryFrom` for a type of crate `board` can stand only there; so below.)
fn phase_of(number: u64) -> Option<Phase>
    ensures { MatchOption result (3 < number) (λ phase. (number ≤ 3) × (phase ≡ phase_of number)) }
{
    match number {
        0 => Some(Phase::Off),
        1 => Some(Phase::Formatting),
        2 => Some(Phase::Recovering),
        3 => Some(Phase::Running),
        _ => None,
    }
}

// "a recovery's step, 0 to 2". This and `store_of` are two lists of the fault program's numbers, for two types.
fn undo_of(number: u64) -> Option<UndoStep>
    ensures { MatchOption result (2 < number) (λ undo. (number ≤ 2) × (undo ≡ undo_of number)) }
{
    match number {
        0 => Some(UndoStep::Restore),
        1 => Some(UndoStep::Unmark),
        2 => Some(UndoStep::WriteLine),
        _ => None,
    }
}

// "0 backup, 1 mark, 2 record".
fn store_of(number: u64) -> Option<Store>
    ensures { MatchOption result (2 < number) (λ store. (number ≤ 2) × (store ≡ store_of number)) }
{
    match number {
        0 => Some(Store::Backup),
        1 => Some(Store::Mark),
        2 => Some(Store::Record),
        _ => None,
    }
}

// "request, 0 or 1".
fn request_of(number: u64) -> Option<bool>
    ensures { MatchOption result (1 < number) (λ requested. (number ≤ 1) × (requested ≡ (number == 1))) }
{
    match number {
        0 => Some(false),
        1 => Some(true),
        _ => None,
    }
}

// "B k v": field k of the record := v.
#[tactic(auto, unfolding(crate::specs::Record::field_fits, crate::specs::Record::with_field))]
pub fn put_field(state: State, field: u64, number: u64) -> Option<State>
    ensures { MatchOption result (field_fits field number ≡ false) (λ after. (field_fits field number ≡ true) × (after ≡ with_field state field number)) }
{
    let after = match field {
        0 => State {
            phase: phase_of(number)?,
            ..state
        },
        1 => State {
            lines: u16::try_from(number).ok()?,
            ..state
        },
        2 => State {
            workers: u8::try_from(number).ok()?,
            ..state
        },
        4 => State {
            place: u16::try_from(number).ok()?,
            ..state
        },
        5 => State {
            undo: undo_of(number)?,
            ..state
        },
        6 => State {
            requested: request_of(number)?,
            ..state
        },
        _ => return None,
    };
    Some(after)
}

// "Q i v": word i of the record's line bits := v.
pub fn put_word(state: State, at: u64, word: u64) -> Option<State>
    ensures { MatchOption result (word_there at ≡ false) (λ after. (word_there at ≡ true) × (after ≡ with_word state at word)) }
{
    if at >= 8 {
        return None;
    }
    let mut dirty = state.dirty;
    dirty[at as usize] = word;
    Some(State { dirty, ..state })
}

// The condition that numbers mean; "those that a condition has no use for must be 0".
#[tactic(auto, unfolding(crate::specs::Record::condition_fits, crate::specs::Record::condition_of))]
fn condition_of(condition: u64, next: u64, cell: u64, value: u64) -> Option<Condition>
    ensures { MatchOption result (condition_fits condition next cell value ≡ false) (λ given. (condition_fits condition next cell value ≡ true) × (given ≡ condition_of condition next cell value)) }
{
    let unused = next == 0 && cell == 0 && value == 0;
    match condition {
        0 if unused => Some(Condition::Free),
        1 if unused => Some(Condition::Waiting),
        2 => Some(Condition::Updating {
            next: store_of(next)?,
            cell: u16::try_from(cell).ok()?,
            value,
        }),
        3 if unused => Some(Condition::Away),
        _ => None,
    }
}

// "K w c n a v": worker w gets condition c.
pub fn put_worker(
    state: State,
    worker: u64,
    condition: u64,
    next: u64,
    cell: u64,
    value: u64,
) -> Option<State>
    ensures { MatchOption result (worker_fits worker condition next cell value ≡ false) (λ after. (worker_fits worker condition next cell value ≡ true) × (after ≡ conditioned state worker (condition_of condition next cell value))) }
{
    if worker >= 8 {
        return None;
    }
    let given = condition_of(condition, next, cell, value)?;
    Some(effects::conditioned(state, worker as usize, given))
}

// The holders with a lock held by a worker, or by nobody where the number is 8.
fn with_holder(holders: u64, lock: u64, holder: u64) -> u64
    requires lock_bound { lock < 16 }
    requires holder_bound { holder ≤ 8 }
    ensures { result ≡ with_holder holders lock holder }
{
    if holder == 8 {
        locks::given_back(holders, lock)
    } else {
        locks::held_by(holders, lock, holder)
    }
}

// "O k h": lock k's holder := h.
pub fn put_holder(state: State, lock: u64, holder: u64) -> Option<State>
    ensures { MatchOption result (holder_fits lock holder ≡ false) (λ after. (holder_fits lock holder ≡ true) × (after ≡ locked state (with_holder state.holders lock holder))) }
{
    if lock >= 16 || holder > 8 {
        return None;
    }
    let holders = with_holder(state.holders, lock, holder);
    Some(State { holders, ..state })
}
