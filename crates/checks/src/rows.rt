// Cause 4, "rows", the header's cause 5, the epoch's cause 11 and the text row's cause 12.
ghost use Rattle.std.specs.Prelude.{◌≡◌, List, ℕ, ltb, length};
ghost use Rattle.board.specs.declared.State.{State};
ghost use Rattle.board.specs.Causes.{bad_rows, bad_length, bad_recovery_rows, bad_header, epoch_spent, stores_spent_epoch};
ghost use Rattle.board.specs.Board.{shaped, rest_not_zero};
ghost use Rattle.board.specs.Next.{lent};
ghost use Rattle.board.specs.Page.{page_bytes};

use crate::{limits, record};
use board::State;

// "2^64 − 1"
const LAST_EPOCH: u64 = u64::MAX;

// "cache or memory not 8×(L+1) words"
pub fn bad_rows(lines: u16, memory: &[u64], cache: &[u64]) -> bool
    ensures { (s : State) →
        result ≡ bad_rows lines (lent s memory.now cache.now) }
{
    let words = board::row_words(lines);
    (cache.len() != words) | (memory.len() != words)
}

// A page's text row is shorter than the page.
pub fn short_text(lines: u16, text: &[u8]) -> bool
    ensures { result ≡ ltb (length text.now) (page_bytes (shaped lines)) }
{
    text.len() < board::page_bytes(lines)
}

// "at recovery's start: memory not a multiple of 8 in 16 to 4,096 words"
pub fn bad_length(words: usize) -> bool
    ensures { result ≡ bad_length words }
{
    (words % 8 != 0) | !(16..=4096).contains(&words)
}

// "cache of another length"
pub fn bad_recovery_rows(memory: &[u64], cache: &[u64]) -> bool
    ensures { (s : State) →
        result ≡ bad_recovery_rows (lent s memory.now cache.now) }
{
    let words = memory.len();
    bad_length(words) | (cache.len() != words)
}

// "words 3 to 7 not all zero"
fn rest_not_zero(row: &[u64]) -> bool
    ensures { result ≡ rest_not_zero row.now }
{
    (3..8).any(|word| line::header_word_or_zero(row, word) != 0)
}

// "epoch 0, L not (words div 8) − 1, W outside the limits, or words 3 to 7 not all zero"
pub fn bad_header(row: &[u64]) -> bool
    ensures { result ≡ bad_header row.now }
{
    let lines = line::header_word_or_zero(row, 1);
    (line::header_word_or_zero(row, 0) == 0)
        | (lines != (row.len() / 8).saturating_sub(1) as u64)
        | limits::outside(lines, line::header_word_or_zero(row, 2))
        | rest_not_zero(row)
}

// "the cache's epoch 2^64 − 1, at a request"
pub fn epoch_spent(cache: &[u64]) -> bool
    ensures { (s : State) (m : List ℕ) → result ≡ epoch_spent (lent s m cache.now) }
{
    line::header_word_or_zero(cache, 0) == LAST_EPOCH
}

// "or at the epoch's store": the dirty lines are counted only where a checkpoint steps in the last epoch
pub fn stores_spent_epoch(state: State, cache: &[u64]) -> bool
    ensures { (m : List ℕ) → result ≡ stores_spent_epoch (lent state m cache.now) }
{
    (record::checkpointing(state) & epoch_spent(cache))
        && u64::from(state.place) == bitset::size(state.dirty)
}
