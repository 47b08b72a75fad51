// The scans over the workers under W, and what they look for.
ghost use Rattle.std.specs.Prelude.{◌≡◌, ◌<◌, ◌&&◌, ℕ, Bool, ltb};
ghost use Rattle.predicate.specs.Passing.{any_under};
ghost use Rattle.board.specs.declared.Condition.{Condition};
ghost use Rattle.board.specs.State.{condition_of, updates};

use board::{Condition, State};

// An unfinished update of a cell that passes the test.
pub fn updates<F: FnOnce(u64) -> bool>(condition: Condition, test: F) -> bool
    requires { F.IsAlwaysCallable test }
    ensures { (told : ℕ → Bool) →
        ((c : ℕ) (r : Bool) → F.post test c r → r ≡ told c) → result ≡ updates told condition }
{
    match condition {
        Condition::Updating { cell, .. } => test(u64::from(cell)),
        _ => false,
    }
}

// One of the workers under W passes the test. The loop is over all eight, so that the compiler makes each index a constant;
// with W as its end the eight would go through memory (bench/trials.md).
pub fn any_worker<F: Fn(u64, Condition) -> bool>(state: State, test: F) -> bool
    requires { F.IsAlwaysCallable test }
    ensures { (told : ℕ → Condition → Bool) →
        ((i : ℕ) (k : Condition) (r : Bool) → F.post test i k r → r ≡ told i k) →
        result ≡ any_under 8 (λ i. ltb i state.workers && told i (condition_of state i)) }
{
    let mut found = false;
    for i in 0..8 {
        if i < state.workers {
            found |= test(u64::from(i), state.worker[usize::from(i)].condition);
        }
    }
    found
}
