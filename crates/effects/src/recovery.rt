// A recovery's start and its steps.
ghost use Rattle.std.specs.Prelude.{◌≡◌, ◌≤◌};
ghost use Rattle.board.specs.Board.{shape_in, workers_of};
ghost use Rattle.board.specs.State.{started};
ghost use Rattle.board.specs.Effects.{past_stop, recovery_step};
ghost use Rattle.board.specs.Next.{lent};
ghost use Rattle.board.specs.declared.Phase.TheVariants.{Recovering};
ghost use Rattle.board.specs.declared.UndoStep.TheVariants.{Restore};
ghost use Rattle.effects.specs.Progress.{progressed};
ghost use Rattle.effects.specs.Bounds.{Restarts, Recovers};

use crate::cells::logged;
use crate::record::{Progress, opened, placed, started};
use board::{Phase, State, UndoStep};
use line::Field;

// "The start copies memory to cache", with L and W from the header.
pub fn restart(memory: &[u64], cache: &mut [u64]) -> State
    requires { Restarts memory.now cache.old }
    ensures { (result ≡ started Recovering (shape_in memory.now) (workers_of memory.now))
        × (cache.new ≡ memory.now) }
{
    cache.copy_from_slice(memory);
    let lines = line::header_word(memory, 1);
    let workers = line::header_word(memory, 2);
    started(Phase::Recovering, lines as u16, workers as u8)
}

// "Then cells from 0 up .. After the last cell: running."
fn past_cell(state: State) -> Progress
    requires { state.lines ≤ 511 }
    ensures { progressed state result ≡ past_stop state }
{
    let place = u64::from(state.place);
    if place + 1 < board::cells(state.lines) {
        placed(state, state.place + 1, UndoStep::Restore)
    } else {
        opened(state, false)
    }
}

// "record := backup" where the mark equals the epoch; any other cell, "one step that stores nothing".
#[tactic(auto, unfolding(board::specs::Effects::recovery_step))]
fn first_step(state: State, memory: &[u64], cache: &mut [u64]) -> Progress
    requires { Recovers state memory.now cache.old }
    ensures { lent (progressed state result) memory.now cache.new
        ≡ recovery_step Restore state (lent state memory.now cache.old) }
{
    let place = state.place;
    let cell = usize::from(place);
    if logged(cache, cell) {
        let backup = line::cell_field(cache, cell, Field::Backup);
        line::store_field(cache, cell, Field::Record, backup);
        placed(state, place, UndoStep::Unmark)
    } else {
        past_cell(state)
    }
}

// "record := backup; mark := 0; its line written back."
#[tactic(auto, unfolding(board::specs::Effects::recovery_step))]
pub fn recovery_step(state: State, memory: &mut [u64], cache: &mut [u64]) -> Progress
    requires { Recovers state memory.old cache.old }
    ensures { lent (progressed state result) memory.new cache.new
        ≡ recovery_step state.undo state (lent state memory.old cache.old) }
{
    let place = state.place;
    let cell = usize::from(place);
    match state.undo {
        UndoStep::Restore => first_step(state, memory, cache),
        UndoStep::Unmark => {
            line::store_field(cache, cell, Field::Mark, 0);
            placed(state, place, UndoStep::WriteLine)
        }
        UndoStep::WriteLine => {
            line::write_back(memory, cache, line::cell_line(cell));
            past_cell(state)
        }
    }
}
