// Any call, by its declared name and arguments.
ghost use Rattle.std.specs.Prelude.{◌≡◌};
ghost use Rattle.board.specs.Next.{lent, Performed};
ghost use Rattle.causes.specs.Refusals.{answer_number};
ghost use Rattle.engine.specs.Answers.{reading_state, reading_value};

use crate::{
    Reading, Refusal, advance, come_back, count, format_start, give_back_lock, go_away, read,
    recovery_start, request, restart_point, step, take_lock, update, write_back,
};
use board::{Call, State};

// The call that is named; the value is what a read read or the count counted, 0 for every other call.
pub fn perform(
    call: Call,
    state: State,
    memory: &mut [u64],
    cache: &mut [u64],
) -> Result<Reading, Refusal>
    ensures performed { Performed call
        (lent state memory.old cache.old)
        (answer_number result) (reading_value result)
        (lent (reading_state state result) memory.new cache.new) }
{
    let (value, next) = match call {
        Call::FormatStart { lines, workers } => {
            (0, format_start(state, memory, cache, lines, workers)?)
        }
        Call::RecoveryStart => (0, recovery_start(state, memory, cache)?),
        Call::Step => (0, step(state, memory, cache)?),
        Call::Update {
            worker,
            cell,
            value,
        } => (0, update(state, memory, cache, worker, cell, value)?),
        Call::RestartPoint { worker, value } => {
            (0, restart_point(state, memory, cache, worker, value)?)
        }
        Call::Advance { worker } => (0, advance(state, memory, cache, worker)?),
        Call::Request => (0, request(state, memory, cache)?),
        Call::WriteBack { line } => {
            write_back(state, memory, cache, line)?;
            (0, state)
        }
        Call::Read { cell } => (read(state, memory, cache, cell)?, state),
        Call::GoAway { worker } => (0, go_away(state, memory, cache, worker)?),
        Call::ComeBack { worker } => (0, come_back(state, memory, cache, worker)?),
        Call::Count => (count(state, memory, cache)?, state),
        Call::TakeLock { worker, lock } => (0, take_lock(state, memory, cache, worker, lock)?),
        Call::GiveBackLock { worker, lock } => {
            (0, give_back_lock(state, memory, cache, worker, lock)?)
        }
    };
    Ok(Reading { value, state: next })
}
