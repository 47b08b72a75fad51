// The advance call: the next store of a worker's update.
ghost use Rattle.std.specs.Prelude.{◌≡◌};
ghost use Rattle.board.specs.declared.Call.{Call};
ghost use Rattle.board.specs.Effects.{effect};
ghost use Rattle.board.specs.Next.{lent, Taken};

use board::{Condition, State};
use effects::store_next;

// What a taken advance does.
pub fn taken_advance(state: State, memory: &[u64], cache: &mut [u64], worker: u64) -> State
    requires { Taken (Call.Advance worker) (lent state memory.now cache.old) }
    ensures { lent result memory.now cache.new
        ≡ effect (Call.Advance worker)
        (lent state memory.now cache.old) }
{
    match state.condition_of(worker) {
        Condition::Updating { next, cell, value } => {
            store_next(state, cache, worker as usize, cell, value, next)
        }
        Condition::Free | Condition::Waiting | Condition::Away => state,
    }
}
