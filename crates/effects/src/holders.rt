// A lock taken and given back.
ghost use Rattle.std.specs.Prelude.{◌≡◌, ◌<◌};
ghost use Rattle.locks.specs.Holders.{held_by, given_back};
ghost use Rattle.board.specs.State.{locked};

use crate::record::locked;
use board::State;

// "takes a free lock".
pub fn lock_taken(state: State, worker: u64, lock: u64) -> State
    requires { (worker < 8) × (lock < 16) }
    ensures { result ≡ locked state (held_by state.holders lock worker) }
{
    locked(state, locks::held_by(state.holders, lock, worker))
}

// "gives it back".
pub fn lock_given_back(state: State, lock: u64) -> State
    requires { lock < 16 }
    ensures { result ≡ locked state (given_back state.holders lock) }
{
    locked(state, locks::given_back(state.holders, lock))
}
