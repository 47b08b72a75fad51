// An example of a host (docs/HOST.md): it boots on a blank memory, changes a cell under its lock, takes a checkpoint,
// changes the cell again, is cut, boots again, and prints what the cell reads before the cut and after it.
#![tactic(auto)]

mod boot;
mod runs;

use board::{Call, State};
use boot::boot;
use runs::{LINES, Reached, Row, WORDS, make, until_finished, until_released};

// Tells the number of a call that was refused, and passes the record on.
fn told<R: Print>(rt: &R, r: Reached) -> State {
    if r.last.is_err() {
        let _ = println!(rt; "refused by {}", engine::answer_number(r.last));
    }
    r.state
}

// Prints what a cell reads.
fn show<R: Print>(rt: &R, cell: u64, s: State, memory: &mut Row, cache: &mut Row) {
    let read = make(Call::Read { cell }, s, memory, cache);
    let _ = rt.println(read.last.unwrap_or(0));
}

// Worker 0's update of a cell, with the cell's lock taken before and given back after; a worker that is not free begins
// none.
fn update<R: Print>(
    rt: &R,
    cell: u64,
    value: u64,
    s: State,
    memory: &mut Row,
    cache: &mut Row,
) -> State {
    if !s.condition_of(0).is_free() {
        return s;
    }
    let lock = cell % 16;
    let take = Call::TakeLock { worker: 0, lock };
    let change = Call::Update {
        worker: 0,
        cell,
        value,
    };
    let give_back = Call::GiveBackLock { worker: 0, lock };
    let holding = told(rt, make(take, s, memory, cache));
    let begun = told(rt, make(change, holding, memory, cache));
    let changed = told(rt, until_finished(0, begun, memory, cache));
    told(rt, make(give_back, changed, memory, cache))
}

// A checkpoint of a board with one worker: requested; the worker brought to a restart point, where it waits; the steps
// up to the release. It is complete where the aim is met.
fn checkpoint<R: Print>(
    rt: &R,
    point: u64,
    s: State,
    memory: &mut Row,
    cache: &mut Row,
) -> Reached {
    let asked = make(Call::Request, s, memory, cache);
    if asked.last.is_err() {
        return asked;
    }
    let restart = Call::RestartPoint {
        worker: 0,
        value: point,
    };
    let begun = told(rt, make(restart, asked.state, memory, cache));
    let waiting = told(rt, until_finished(0, begun, memory, cache));
    until_released(waiting, memory, cache)
}

// Before the cut: 7 in cell 1 and a checkpoint; then 9 in cell 1, and its line written back, as hardware may do.
fn work<R: Print>(rt: &R, memory: &mut Row, cache: &mut Row) {
    let fresh = boot(LINES as u64, 1, memory, cache);
    if fresh.running {
        let seven = update(rt, 1, 7, fresh.state, memory, cache);
        let kept = told(rt, checkpoint(rt, 3, seven, memory, cache));
        let nine = update(rt, 1, 9, kept, memory, cache);
        let written = told(rt, make(Call::WriteBack { line: 1 }, nine, memory, cache));
        show(rt, 1, written, memory, cache);
    }
}

// After the cut: what the checkpoint held.
fn recover<R: Print>(rt: &R, memory: &mut Row, cache: &mut Row) {
    let again = boot(LINES as u64, 1, memory, cache);
    if again.running {
        show(rt, 1, again.state, memory, cache);
    }
}

// The memory stays; after the cut cache and record are new.
fn main(rt: HostRuntime) {
    let mut memory = [0u64; WORDS];
    work(&rt, &mut memory, &mut [0u64; WORDS]);
    recover(&rt, &mut memory, &mut [0u64; WORDS]);
}
