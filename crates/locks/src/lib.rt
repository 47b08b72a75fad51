// The holders of sixteen locks in one word, four bits a lock (document 02, ticket 6): 0 where nobody holds the lock, else
// the number of the worker that does and 1.
#![tactic(auto)]

ghost use Rattle.std.specs.Prelude.{◌≡◌, ◌*◌, ◌<◌, ltb};
ghost use Rattle.predicate.specs.Passing.{any_under};
ghost use Rattle.locks.specs.Holders.{digit_of, unheld, holds, holds_any, held_from, held_by, given_back, with_digit};

// The four bits of a lock.
pub fn digit(holders: u64, lock: u64) -> u64
    ensures value { result ≡ digit_of holders lock }
    ensures upper_bound { result < 16 }
{
    if lock < 16 {
        (holders >> (4 * lock)) % 16
    } else {
        0
    }
}

// Nobody holds the lock.
pub fn unheld(holders: u64, lock: u64) -> bool
    ensures { result ≡ unheld holders lock }
{
    digit(holders, lock) == 0
}

// The worker holds the lock.
pub fn holds(holders: u64, worker: u64, lock: u64) -> bool
    ensures { result ≡ holds holders worker lock }
{
    if worker < 15 {
        digit(holders, lock) == worker + 1
    } else {
        false
    }
}

// The worker holds a lock. The loop ends behind the last held one, which a `for` over the sixteen would not.
pub fn holds_any(holders: u64, worker: u64) -> bool
    ensures { result ≡ holds_any holders worker }
{
    let mut rest = holders;
    let mut found = false;
    while rest != 0 {
        found |= holds(rest, worker, 0);
        rest /= 16;
    }
    found
}

// Of locks 0, 2, 4 and so on to 14 one is held by worker `workers` or one past it. Each has a byte for itself; with
// 15 - workers added, bit 4 of the byte is set where the lock's four bits are over `workers`.
fn even_held_from(holders: u64, workers: u64) -> bool
    requires { workers < 16 }
    ensures { result ≡ any_under 8 (λ k. ltb workers (digit_of holders (2 * k))) }
{
    ((holders & 0x0F0F0F0F0F0F0F0F) + (15 - workers) * 0x0101010101010101) & 0x1010101010101010 != 0
}

// A lock is held by worker `workers` or one past it: it is tested in every call, and no loop goes over the locks.
pub fn held_from(holders: u64, workers: u64) -> bool
    ensures { result ≡ held_from holders workers }
{
    if workers < 16 {
        even_held_from(holders, workers) | even_held_from(holders >> 4, workers)
    } else {
        false
    }
}

// The word with other bits for a lock. A lock is a plain number wherever it is passed, as 01's calls have it, so its bound
// stands in each contract.
fn with_digit(holders: u64, lock: u64, bits: u64) -> u64
    requires lock_bound { lock < 16 }
    requires bits_bound { bits < 16 }
    ensures { result ≡ with_digit holders lock bits }
{
    holders - (digit(holders, lock) << (4 * lock)) + (bits << (4 * lock))
}

// The lock held by the worker.
pub fn held_by(holders: u64, lock: u64, worker: u64) -> u64
    requires lock_bound { lock < 16 }
    requires worker_bound { worker < 15 }
    ensures { result ≡ held_by holders lock worker }
{
    with_digit(holders, lock, worker + 1)
}

// The lock held by nobody.
pub fn given_back(holders: u64, lock: u64) -> u64
    requires { lock < 16 }
    ensures { result ≡ given_back holders lock }
{
    with_digit(holders, lock, 0)
}
