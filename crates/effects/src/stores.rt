// Updates and restart points: the start, and the three stores of an advance.
ghost use Rattle.std.specs.Prelude.{◌≡◌, List, ℕ, ◌+◌, ◌<◌, ◌≤◌, length};
ghost use Rattle.board.specs.Effects.{first_store, noted, after_last, advance};
ghost use Rattle.board.specs.Next.{lent};
ghost use Rattle.board.specs.State.{conditioned};
ghost use Rattle.board.specs.declared.Condition.TheVariants.{Updating};
ghost use Rattle.board.specs.declared.Store.TheVariants.{Backup, Mark, Record};
ghost use Rattle.line.specs.Line.{line_start};
ghost use Rattle.line.specs.Cell.{cell_line};
ghost use Rattle.effects.specs.Bounds.{Stores};

use crate::cells::logged;
use crate::record::{conditioned, dirtied};
use board::{Condition, State, Store};
use line::Field;

// "If the mark differs from the cache's epoch, three advances follow .. If the mark equals the epoch, only the last."
fn first_store(row: &[u64], cell: usize) -> Store
    requires { line_start (cell_line cell) + 8 ≤ length row.now }
    ensures { result ≡ first_store row.now cell }
{
    if logged(row, cell) {
        Store::Record
    } else {
        Store::Backup
    }
}

// "At the last store the worker becomes waiting if a checkpoint is requested by then" (a restart point's), "else free".
fn after_last(state: State, cell: u16) -> Condition
    ensures { result ≡ after_last state cell }
{
    if (cell < u16::from(state.workers)) & state.requested {
        Condition::Waiting
    } else {
        Condition::Free
    }
}

// An unfinished update: the worker that makes it, its cell and the value. That the cell stands in the cache (`Stores`) ties
// it to the row that is lent, so each method asks for it: no type holds both.
#[derive(Clone, Copy)]
struct Update {
    worker: usize,
    cell: u16,
    value: u64,
}

impl Update {
    // The record with this store as the update's next.
    fn with_next(self, state: State, next: Store) -> State
        requires { self.worker < 8 }
        ensures { result ≡ conditioned state self.worker (Updating next self.cell self.value) }
    {
        let condition = Condition::Updating {
            next,
            cell: self.cell,
            value: self.value,
        };
        conditioned(state, self.worker, condition)
    }

    // "backup := record".
    #[tactic(auto, unfolding(board::specs::Effects::advance))]
    fn back_up(self, state: State, cache: &mut [u64]) -> State
        requires { Stores cache.old self.worker self.cell }
        ensures { (m : List ℕ) →
            lent result m cache.new
            ≡ advance Backup self.worker self.cell self.value state (lent state m cache.old) }
    {
        let cell = usize::from(self.cell);
        let old = line::cell_field(cache, cell, Field::Record);
        line::store_field(cache, cell, Field::Backup, old);
        self.with_next(state, Store::Mark)
    }

    // "mark := epoch"; "Marking a cell now promises its line's bit too".
    #[tactic(auto, unfolding(board::specs::Effects::advance))]
    fn mark(self, state: State, cache: &mut [u64]) -> State
        requires { Stores cache.old self.worker self.cell }
        ensures { (m : List ℕ) →
            lent result m cache.new
            ≡ advance Mark self.worker self.cell self.value state (lent state m cache.old) }
    {
        let cell = usize::from(self.cell);
        let epoch = line::header_word(cache, 0);
        line::store_field(cache, cell, Field::Mark, epoch);
        let marked = self.with_next(state, Store::Record);
        dirtied(marked, line::cell_line(cell) as u64)
    }

    // "record := value".
    #[tactic(auto, unfolding(board::specs::Effects::advance))]
    fn store_record(self, state: State, cache: &mut [u64]) -> State
        requires { Stores cache.old self.worker self.cell }
        ensures { (m : List ℕ) →
            lent result m cache.new
            ≡ advance Record self.worker self.cell self.value state (lent state m cache.old) }
    {
        line::store_field(cache, usize::from(self.cell), Field::Record, self.value);
        conditioned(state, self.worker, after_last(state, self.cell))
    }
}

// "The start notes it."
pub fn noted(state: State, cache: &[u64], worker: usize, cell: u16, value: u64) -> State
    requires { Stores cache.now worker cell }
    ensures { (m : List ℕ) →
        lent result m cache.now ≡ noted worker cell value (lent state m cache.now) }
{
    let update = Update {
        worker,
        cell,
        value,
    };
    update.with_next(state, first_store(cache, usize::from(cell)))
}

// "backup := record; mark := epoch; record := value".
pub fn store_next(
    state: State,
    cache: &mut [u64],
    worker: usize,
    cell: u16,
    value: u64,
    next: Store,
) -> State
    requires { Stores cache.old worker cell }
    ensures { (m : List ℕ) →
        lent result m cache.new
        ≡ advance next worker cell value state (lent state m cache.old) }
{
    let update = Update {
        worker,
        cell,
        value,
    };
    match next {
        Store::Backup => update.back_up(state, cache),
        Store::Mark => update.mark(state, cache),
        Store::Record => update.store_record(state, cache),
    }
}
