// A checkpoint's steps: "A checkpoint writes the set lines in rising order; n is their count"; "epoch := epoch + 1 in the cache; line 0 written back; release".
ghost use Rattle.std.specs.Prelude.{◌≡◌};
ghost use Rattle.board.specs.Checkpoint.{acts};
ghost use Rattle.board.specs.Effects.{perform_first};
ghost use Rattle.board.specs.Next.{lent};
ghost use Rattle.effects.specs.Progress.{progressed};
ghost use Rattle.effects.specs.Bounds.{Checkpoints};

use crate::record::{Progress, next_place, released};
use board::State;

// The first of the acts that are left.
pub fn checkpoint_step(state: State, memory: &mut [u64], cache: &mut [u64]) -> Progress
    requires { Checkpoints state memory.old cache.old }
    ensures { lent (progressed state result) memory.new cache.new
        ≡ perform_first (acts (lent state memory.old cache.old)) state
        (lent state memory.old cache.old) }
{
    let place = u64::from(state.place);
    let next = bitset::ranked(state.dirty, place);
    if let Some(line) = next.nth {
        line::write_back(memory, cache, line as usize);
        return next_place(state);
    }
    let n = next.size;
    if place == n {
        let epoch = line::header_word(cache, 0);
        line::store_header_word(cache, 0, epoch + 1);
        return next_place(state);
    }
    if place == n + 1 {
        line::write_back(memory, cache, 0);
        return next_place(state);
    }
    released(state)
}
