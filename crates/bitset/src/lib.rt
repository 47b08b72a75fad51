// A set of numbers below 512, a bit each, in eight words (document 02, ticket 5: the dirty lines).
#![tactic(auto)]

ghost use Rattle.std.specs.Prelude.{◌≡◌, [], ◌∷◌, ℕ, ◌+◌, ◌-◌, ◌*◌, ◌/◌, ◌^◌, ◌≤◌, ◌<◌, get_or, ltb, sum, MatchOption};
ghost use Rattle.predicate.specs.Passing.{any_under, count_under, nth_under};
ghost use Rattle.bitset.specs.Words.{bit_of, with_bit, inserted, size, nth, strays};

// How many bits of a word are set.
fn ones(word: u64) -> u64
    ensures value { result ≡ count_under 64 (bit_of word) }
    ensures upper_bound { result ≤ 64 }
{
    u64::from(word.count_ones())
}

// How many numbers each word of a set has.
fn counted(words: [u64; 8]) -> [u64; 8]
    ensures by_index { (k : ℕ) → k < 8 → get_or result k 0 ≡ count_under 64 (bit_of (get_or words k 0)) }
{
    words.map(ones)
}

// The counts of all words together.
fn total(counts: &[u64]) -> u64
    requires { sum counts.now < 2 ^ 64 }
    ensures { result ≡ sum counts.now }
{
    counts.iter().sum()
}

// How many numbers the set has.
pub fn size(words: [u64; 8]) -> u64
    ensures { result ≡ size words }
{
    total(&counted(words))
}

// The p-th set bit of a word, from 0, rising: each round clears the lowest.
fn nth_bit(word: u64, p: u64) -> u64
    requires { p < count_under 64 (bit_of word) }
    ensures value { result ≡ nth_under 64 (bit_of word) p }
    ensures upper_bound { result < 64 }
{
    let mut rest = word;
    for _ in 0..p {
        rest &= rest - 1;
    }
    u64::from(rest.trailing_zeros())
}

// How many numbers a set has, and its p-th where there is one.
#[derive(Clone, Copy)]
pub struct Rank {
    pub size: u64,
    pub nth: Option<u64>,
}

// The p-th number from 0, rising. The words before its own are passed over by their counts.
pub fn ranked(words: [u64; 8], p: u64) -> Rank
    ensures size { result.size ≡ size words }
    ensures nth { MatchOption result.nth (size words ≤ p) (λ i. (p < size words) × (i ≡ nth words p)) }
{
    let counts = counted(words);
    let size = total(&counts);
    let mut left = p;
    for k in 0..8 {
        if left < counts[k] {
            let nth = 64 * (k as u64) + nth_bit(words[k], left);
            return Rank {
                size,
                nth: Some(nth),
            };
        }
        left -= counts[k];
    }
    Rank { size, nth: None }
}

// The word with a bit set.
fn with_bit(word: u64, b: u64) -> u64
    requires { b < 64 }
    ensures { result ≡ with_bit word b }
{
    word | (1 << b)
}

// The set with number `i`. Each index is a constant, so that the words need not lie in memory: with `next[(i / 64) as usize]`
// a trial took half as long again.
pub fn inserted(words: [u64; 8], i: u64) -> [u64; 8]
    requires { i < 512 }
    ensures { result ≡ inserted words i }
{
    let mut next = words;
    let b = i % 64;
    match i / 64 {
        0 => next[0] = with_bit(words[0], b),
        1 => next[1] = with_bit(words[1], b),
        2 => next[2] = with_bit(words[2], b),
        3 => next[3] = with_bit(words[3], b),
        4 => next[4] = with_bit(words[4], b),
        5 => next[5] = with_bit(words[5], b),
        6 => next[6] = with_bit(words[6], b),
        _ => next[7] = with_bit(words[7], b),
    }
    next
}

// The lowest bit of a word is set.
fn lowest(word: u64) -> bool
    ensures { result ≡ bit_of word 0 }
{
    word % 2 == 1
}

// A word's bits after bit `bit`, shifted down.
fn after(word: u64, bit: u64) -> u64
    requires { bit < 64 }
    ensures { result ≡ word / 2 ^ bit / 2 }
{
    (word >> bit) >> 1
}

// Of eight words one has a number past `last`. Only the word that `last` stands in is shifted, and those after it are
// tested at once: it is tested in every call, and a test of each word by itself, or a loop over them, took a recovery a quarter
// more time (bench/trials.md, ticket 5).
fn past(a: u64, b: u64, c: u64, d: u64, e: u64, f: u64, g: u64, h: u64, last: u64) -> bool
    ensures { result ≡ any_under 8 (λ k. ltb 0 (get_or (a ∷ b ∷ c ∷ d ∷ e ∷ f ∷ g ∷ h ∷ []) k 0 / 2 ^ (last + 1 - 64 * k))) }
{
    let bit = last % 64;
    match last / 64 {
        0 => (after(a, bit) | b | c | d | e | f | g | h) != 0,
        1 => (after(b, bit) | c | d | e | f | g | h) != 0,
        2 => (after(c, bit) | d | e | f | g | h) != 0,
        3 => (after(d, bit) | e | f | g | h) != 0,
        4 => (after(e, bit) | f | g | h) != 0,
        5 => (after(f, bit) | g | h) != 0,
        6 => (after(g, bit) | h) != 0,
        7 => after(h, bit) != 0,
        _ => false,
    }
}

// The set has 0, or a number past `last`.
pub fn strays(words: [u64; 8], last: u64) -> bool
    ensures { result ≡ strays words last }
{
    lowest(words[0])
        | past(
            words[0], words[1], words[2], words[3], words[4], words[5], words[6], words[7], last,
        )
}
