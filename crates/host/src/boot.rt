// Booting by what a recovery's start answers (docs/HOST.md).
ghost use Rattle.std.specs.Prelude.{◌≡◌};
ghost use Rattle.board.specs.State.{is_running};

use crate::runs::{Reached, Row, is_running, until, until_running};
use board::{Call, State};
use engine::Refusal;

// What a boot finds in the memory.
#[derive(Clone, Copy)]
pub enum Found {
    // 0: a board, this kiosk's or another's
    Board,
    // 5, and word 0 is 0: no board; a new memory, or one whose format was cut
    Blank,
    // 5, and word 0 is not 0: a board of another size, or words that are no board's
    Unknown,
    // 14: a board that is foreign and damaged
    Damaged,
    // 4: rows that no board has, or two lengths
    Misfit,
    // a step that was refused: none is, from a taken start on, while nobody else writes rows and record
    Stopped,
}

// What a boot came to, with a record in any case: what was found, whether the board runs now, the last call's value or why it was refused, and the
// record to pass on.
#[derive(Clone, Copy)]
pub struct Booted {
    pub found: Found,
    pub running: bool,
    pub last: Result<u64, Refusal>,
    pub state: State,
}

// What the last call of a recovery says of the memory.
fn found_by(last: Result<u64, Refusal>, memory: &Row) -> Found {
    match last {
        Ok(_) => Found::Board,
        Err(Refusal::Header) if memory[0] == 0 => Found::Blank,
        Err(Refusal::Header) => Found::Unknown,
        Err(Refusal::Mark) => Found::Damaged,
        Err(Refusal::Rows) => Found::Misfit,
        Err(_) => Found::Stopped,
    }
}

// A start, and its steps until the board runs; a start that is refused has changed nothing.
pub fn start(call: Call, memory: &mut Row, cache: &mut Row) -> Reached
    ensures { result.met ≡ is_running result.state.phase }
{
    let started = until(is_running, call, 1, engine::off(), memory, cache);
    if started.last.is_err() {
        return started;
    }
    until_running(started.state, memory, cache)
}

// What was found, and what it led to.
fn outcome(found: Found, reached: Reached) -> Booted
    ensures { (result.running ≡ reached.met) × (result.state ≡ reached.state) }
{
    Booted {
        found,
        running: reached.met,
        last: reached.last,
        state: reached.state,
    }
}

// A recovery where there is a board, a format to these sizes where the memory is blank; any other memory is left as it
// is, and the board does not run.
pub fn boot(lines: u64, workers: u64, memory: &mut Row, cache: &mut Row) -> Booted
    ensures { result.running ≡ is_running result.state.phase }
{
    let recovered = start(Call::RecoveryStart, memory, cache);
    let found = found_by(recovered.last, memory);
    if let Found::Blank = found {
        let formatted = start(Call::FormatStart { lines, workers }, memory, cache);
        return outcome(found, formatted);
    }
    outcome(found, recovered)
}
