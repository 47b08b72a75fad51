// The step call, by phase.
ghost use Rattle.std.specs.Prelude.{◌≡◌};
ghost use Rattle.board.specs.declared.Call.{Call};
ghost use Rattle.board.specs.Effects.{effect};
ghost use Rattle.board.specs.Next.{lent, Taken};
ghost use Rattle.effects.specs.Progress.{progressed};

use board::{Phase, State};
use effects::{Progress, checkpoint_step, format_step, placed, recovery_step};

// What a taken step does.
pub fn taken_step(state: State, memory: &mut [u64], cache: &mut [u64]) -> Progress
    requires { Taken Call.Step (lent state memory.old cache.old) }
    ensures { lent (progressed state result) memory.new cache.new
        ≡ effect Call.Step
        (lent state memory.old cache.old) }
{
    match state.phase {
        Phase::Off => placed(state, state.place, state.undo),
        Phase::Formatting => format_step(state, memory, cache),
        Phase::Recovering => recovery_step(state, memory, cache),
        Phase::Running => checkpoint_step(state, memory, cache),
    }
}
