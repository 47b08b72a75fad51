// Causes 15 and 16, which are of locks, and cause 8 of giving one back.
ghost use Rattle.std.specs.Prelude.{◌≡◌};
ghost use Rattle.board.specs.State.{lock_of, updates_under};
ghost use Rattle.board.specs.Causes.{no_lock, lock_held, not_holder, holder};

use crate::workers::updates;
use board::State;

// "data cell c lies under lock c mod 16"
pub fn lock_of(cell: u64) -> u64
    ensures { result ≡ lock_of cell }
{
    cell % 16
}

// "a lock number of 16 or more"
pub fn no_lock(lock: u64) -> bool
    ensures { result ≡ no_lock lock }
{
    16 <= lock
}

// "taken and not free", one's own too
pub fn lock_held(state: State, lock: u64) -> bool
    ensures { result ≡ lock_held state lock }
{
    !locks::unheld(state.holders, lock)
}

// "needed or given back and not held": not by this worker
pub fn not_holder(state: State, worker: u64, lock: u64) -> bool
    ensures { result ≡ not_holder state worker lock }
{
    !locks::holds(state.holders, worker, lock)
}

// "held at a restart point or on going away": any lock
pub fn holder(state: State, worker: u64) -> bool
    ensures { result ≡ holder state worker }
{
    locks::holds_any(state.holders, worker)
}

// "when none of its updates under it is unfinished, else 8": one is
pub fn updates_under(state: State, worker: u64, lock: u64) -> bool
    ensures { result ≡ updates_under state worker lock }
{
    let workers = u64::from(state.workers);
    updates(
        state.condition_of(worker),
        |cell| workers <= cell && lock_of(cell) == lock,
    )
}
