// Runs of calls that end (docs/HOST.md). 'Call until the board is there' alone is refused: nothing says that the loop
// ends. So every run has an aim and a number of calls, and says whether its aim was met.
ghost use Rattle.std.specs.Prelude.{◌≡◌, false, not};
ghost use Rattle.board.specs.State.{condition_of, is_running, is_updating};

use board::{Call, Phase, State};
use engine::Refusal;

// L, the cell lines of this host's board, and its rows: 8 × (L + 1) words each.
pub const LINES: usize = 1;

pub const WORDS: usize = 8 * (LINES + 1);

pub type Row = [u64; WORDS];

// What a run came to: whether its aim is met, the last call's value, `Ok(0)` where none was made, or why it was refused, and the
// record to pass on, which there is in any case. Record and rows go apart, as into the engine's calls: a struct with the three cannot lend two of its
// fields at once from behind a reference.
#[derive(Clone, Copy)]
pub struct Reached {
    pub met: bool,
    pub last: Result<u64, Refusal>,
    pub state: State,
}

// Makes a call again and again: until the record has what is aimed at, until a call is refused, or `most` times. Every
// call of the program is made here.
pub fn until<F: Fn(State) -> bool>(
    aim: F,
    call: Call,
    most: u64,
    s: State,
    memory: &mut Row,
    cache: &mut Row,
) -> Reached
    requires { F.IsAlwaysCallable aim }
    ensures { F.post aim result.state result.met }
{
    let mut state = s;
    let mut last = Ok(0);
    for _ in 0..most {
        if last.is_err() || aim(state) {
            break;
        }
        let answer = engine::perform(call, state, memory, cache);
        if let Ok(reading) = answer {
            state = reading.state;
        }
        last = answer.map(|reading| reading.value);
    }
    Reached {
        met: aim(state),
        last,
        state,
    }
}

// One call.
pub fn make(call: Call, s: State, memory: &mut Row, cache: &mut Row) -> Reached
    ensures { result.met ≡ false }
{
    until(|_| false, call, 1, s, memory, cache)
}

// The board runs.
pub fn is_running(state: State) -> bool
    ensures { result ≡ is_running state.phase }
{
    state.phase == Phase::Running
}

// The steps to a running board, at most: a format's L + 2; a recovery's three for each of 2L cells, where one that is
// not logged takes only one. A board that is off gets one, which is refused by 2.
fn steps_to_run(state: State) -> u64 {
    let lines = state.lines as u64;
    match state.phase {
        Phase::Off => 1,
        Phase::Formatting => lines + 2,
        Phase::Recovering => 6 * lines,
        Phase::Running => 0,
    }
}

// The steps of a format or a recovery, until the board runs.
pub fn until_running(s: State, memory: &mut Row, cache: &mut Row) -> Reached
    ensures { result.met ≡ is_running result.state.phase }
{
    until(is_running, Call::Step, steps_to_run(s), s, memory, cache)
}

// The advances of an update or a restart point, three at most, until the worker is free, or waits: so a restart point
// ends while a checkpoint is requested.
pub fn until_finished(worker: u64, s: State, memory: &mut Row, cache: &mut Row) -> Reached
    ensures { result.met ≡ not (is_updating (condition_of result.state worker)) }
{
    until(
        |state| !state.condition_of(worker).is_updating(),
        Call::Advance { worker },
        3,
        s,
        memory,
        cache,
    )
}

// The steps of a requested checkpoint, as many as the count says, L + 3 at most, until its release. Where none is
// requested no call is made.
pub fn until_released(s: State, memory: &mut Row, cache: &mut Row) -> Reached
    ensures { result.met ≡ not result.state.requested }
{
    let released = |state: State| !state.requested;
    let counted = until(released, Call::Count, 1, s, memory, cache);
    match counted.last {
        Ok(steps) => until(released, Call::Step, steps, counted.state, memory, cache),
        Err(_) => counted,
    }
}
