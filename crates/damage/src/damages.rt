// The fault program's own letters, each on a board whose rows are the first words of two arrays.
ghost use Rattle.std.specs.Prelude.{◌≡◌};
ghost use Rattle.std.specs.Option.{is_some, unwrap_or};
ghost use Rattle.damage.specs.Damages.{outcome, answer_if, in_use, left, HasRoom};
ghost use Rattle.script.specs.declared.Damage.TheVariants.{Lengths};

use crate::checksum::checksum;
use crate::record::{put_field, put_holder, put_word, put_worker};
use crate::rows::{resize, store};
use crate::{Damaged, Sizes};
use board::State;
use script::{Damage, Shown};

// The record after a line, or the one before and `?` where a number cannot be put where it is to go.
fn answered(state: State, sizes: Sizes, after: Option<State>) -> Damaged
    ensures { (result.state ≡ unwrap_or after state) × (result.sizes ≡ sizes) × (result.answer ≡ answer_if (is_some after)) × (result.value ≡ Shown.Nothing) }
{
    let answer = match after {
        Some(_) => Shown::Number(0),
        None => Shown::Unknown,
    };
    Damaged {
        state: after.unwrap_or(state),
        sizes,
        answer,
        value: Shown::Nothing,
    }
}

// "W m c: the rows' lengths".
fn put_lengths(
    state: State,
    sizes: Sizes,
    memory: &mut [u64],
    cache: &mut [u64],
    m: u64,
    c: u64,
) -> Damaged
    requires { HasRoom memory.old cache.old }
    ensures { left result memory.new cache.new ≡ outcome (Lengths m c) (in_use state sizes memory.old cache.old) }
{
    if m > 4104 || c > 4104 {
        return answered(state, sizes, None);
    }
    let new = Sizes {
        memory: m as usize,
        cache: c as usize,
    };
    resize(memory, sizes.memory, new.memory);
    resize(cache, sizes.cache, new.cache);
    answered(state, new, Some(state))
}

// A line that leaves everything as it is, and shows a number.
fn shown(state: State, sizes: Sizes, number: u64) -> Damaged
    ensures { (result.state ≡ state) × (result.sizes ≡ sizes) × (result.answer ≡ Shown.Number 0) × (result.value ≡ Shown.Number number) }
{
    Damaged {
        state,
        sizes,
        answer: Shown::Number(0),
        value: Shown::Number(number),
    }
}

// A damaging line of the fault program. `HasRoom` is asked of slices, so rows longer than 4104 words may be lent too: as
// `&mut [u64; 4104]` they could not, and `carry_out` would take less than it promises to (docs/CLAIMS.md).
pub fn carry_out(
    state: State,
    sizes: Sizes,
    memory: &mut [u64],
    cache: &mut [u64],
    damage: Damage,
) -> Damaged
    requires { HasRoom memory.old cache.old }
    ensures { left result memory.new cache.new ≡ outcome damage (in_use state sizes memory.old cache.old) }
{
    match damage {
        Damage::Lengths {
            memory: m,
            cache: c,
        } => put_lengths(state, sizes, memory, cache, m, c),
        Damage::Memory { at, word } => {
            let stored = store(&mut memory[..sizes.memory], at, word);
            answered(state, sizes, stored.and(Some(state)))
        }
        Damage::Cache { at, word } => {
            let stored = store(&mut cache[..sizes.cache], at, word);
            answered(state, sizes, stored.and(Some(state)))
        }
        Damage::Dirty { at, word } => answered(state, sizes, put_word(state, at, word)),
        Damage::Field { field, number } => answered(state, sizes, put_field(state, field, number)),
        Damage::Worker {
            worker,
            condition,
            next,
            cell,
            value,
        } => {
            let after = put_worker(state, worker, condition, next, cell, value);
            answered(state, sizes, after)
        }
        Damage::Holder { lock, holder } => answered(state, sizes, put_holder(state, lock, holder)),
        // "T: the checksum of everything", of the words in use.
        Damage::Checksum => {
            let sum = checksum(state, &memory[..sizes.memory], &cache[..sizes.cache]);
            shown(state, sizes, sum)
        }
    }
}
