// A format's step: "L+2 steps: memory and cache line 0 become zeros; each of lines 1 to L, rising, becomes zeros in both; line 0 becomes epoch 1, L, W and zeros in both."
ghost use Rattle.std.specs.Prelude.{◌≡◌};
ghost use Rattle.board.specs.Effects.{format_step};
ghost use Rattle.board.specs.Next.{lent};
ghost use Rattle.effects.specs.Progress.{progressed};
ghost use Rattle.effects.specs.Bounds.{Formats};

use crate::record::{Progress, next_place, opened};
use board::State;

// Line `place` becomes zeros in both rows, or the header is made and the board runs.
#[tactic(auto, unfolding(board::specs::Effects::format_step))]
pub fn format_step(state: State, memory: &mut [u64], cache: &mut [u64]) -> Progress
    requires { Formats state memory.old cache.old }
    ensures { lent (progressed state result) memory.new cache.new
        ≡ format_step state (lent state memory.old cache.old) }
{
    let place = state.place;
    let lines = state.lines;
    if place <= lines {
        line::store_line(memory, usize::from(place), [0; 8]);
        line::store_line(cache, usize::from(place), [0; 8]);
        next_place(state)
    } else {
        let header = [1, u64::from(lines), u64::from(state.workers), 0, 0, 0, 0, 0];
        line::store_line(memory, 0, header);
        line::store_line(cache, 0, header);
        opened(state, true)
    }
}
