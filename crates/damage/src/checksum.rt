// The checksum of everything, and of a text row.
ghost use Rattle.std.specs.Prelude.{◌≡◌};
ghost use Rattle.board.specs.Next.{lent};
ghost use Rattle.damage.specs.Checksum.{mixed, summed, field_numbers, condition_numbers, workers_numbers, dirty_numbers, holder_number, holders_numbers, row_numbers, checksum_of, checksum};

use board::{Condition, State, Worker};

// "h is 14695981039346656037".
const BASIS: u64 = 14695981039346656037;

// One number more.
#[tactic(auto, unfolding(crate::specs::Checksum::mixed))]
fn mix(sum: u64, number: u64) -> u64
    ensures { result ≡ mixed sum number }
{
    (sum ^ number).wrapping_mul(1099511628211)
}

// Numbers, one after the other.
fn mix_all(sum: u64, numbers: &[u64]) -> u64
    ensures { result ≡ summed sum numbers.now }
{
    numbers.iter().fold(sum, |sum, number| mix(sum, *number))
}

// "its length, then its words".
#[tactic(auto, unfolding(crate::specs::Checksum::summed))]
fn mix_row(sum: u64, row: &[u64]) -> u64
    ensures { result ≡ summed sum (row_numbers row.now) }
{
    mix_all(mix(sum, row.len() as u64), row)
}

// "the bytes of the text row".
pub fn bytes_checksum(bytes: &[u8]) -> u64
    ensures { result ≡ checksum_of bytes.now }
{
    bytes
        .iter()
        .fold(BASIS, |sum, byte| mix(sum, u64::from(*byte)))
}

// The fields of the record, rising.
fn mix_fields(sum: u64, state: State) -> u64
    ensures { result ≡ summed sum (field_numbers state) }
{
    let numbers = [
        state.phase as u64,
        u64::from(state.lines),
        u64::from(state.workers),
        u64::from(state.place),
        state.undo as u64,
        u64::from(state.requested),
    ];
    mix_all(sum, &numbers)
}

// "c, n, a, v as in K".
fn mix_worker(sum: u64, worker: Worker) -> u64
    ensures { result ≡ summed sum (condition_numbers worker.condition) }
{
    let numbers = match worker.condition {
        Condition::Free => [0, 0, 0, 0],
        Condition::Waiting => [1, 0, 0, 0],
        Condition::Updating { next, cell, value } => [2, next as u64, u64::from(cell), value],
        Condition::Away => [3, 0, 0, 0],
    };
    mix_all(sum, &numbers)
}

// "for each of the eight workers".
fn mix_workers(sum: u64, state: State) -> u64
    ensures { result ≡ summed sum (workers_numbers state) }
{
    state
        .worker
        .iter()
        .fold(sum, |sum, worker| mix_worker(sum, *worker))
}

// "the eight words of bits".
fn mix_dirty(sum: u64, state: State) -> u64
    ensures { result ≡ summed sum (dirty_numbers state) }
{
    mix_all(sum, &state.dirty)
}

// A lock's holder as in "O": 8 for none.
fn holder_number(holders: u64, lock: u64) -> u64
    ensures { result ≡ holder_number holders lock }
{
    match locks::digit(holders, lock) {
        0 => 8,
        digit => digit - 1,
    }
}

// "the sixteen holders".
fn mix_holders(sum: u64, state: State) -> u64
    ensures { result ≡ summed sum (holders_numbers state) }
{
    (0..16).fold(sum, |sum, lock| {
        mix(sum, holder_number(state.holders, lock))
    })
}

// "the checksum of everything".
pub fn checksum(state: State, memory: &[u64], cache: &[u64]) -> u64
    ensures { result ≡ checksum (lent state memory.now cache.now) }
{
    let fields = mix_fields(BASIS, state);
    let workers = mix_workers(fields, state);
    let bits = mix_dirty(workers, state);
    let holders = mix_holders(bits, state);
    let words = mix_row(holders, memory);
    mix_row(words, cache)
}
