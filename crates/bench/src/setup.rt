// The random sequence of a workload, and the sums of texts and words.

// A xorshift sequence, by its last number.
#[derive(Clone, Copy)]
pub struct Random {
    last: u64,
}

impl Random {
    // The sequence behind a seed.
    pub fn new(seed: u64) -> Self {
        Random { last: seed }
    }

    // The next number.
    pub fn next(&mut self) -> u64 {
        let a = self.last ^ (self.last << 13);
        let b = a ^ (a >> 7);
        self.last = b ^ (b << 17);
        self.last
    }
}

// A sum with a number more: 31 times the sum and the number, in 64 bits.
fn with(sum: u64, number: u64) -> u64 {
    (sum << 5).wrapping_sub(sum).wrapping_add(number)
}

// The sum of the bytes of a text or the words of a row, each with all before it.
pub fn with_all<T: Copy + Into<u64>>(sum: u64, items: &[T]) -> u64 {
    items
        .iter()
        .fold(sum, |all, item| with(all, (*item).into()))
}
