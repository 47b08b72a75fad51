// HEX texts of a memory of random words, written or read again and again.
use crate::setup::{self, Random};
use crate::workloads::{Bench, Direction};

impl Bench {
    // The host puts all words.
    fn fill(&mut self) {
        let words = board::row_words(self.plan.lines);
        let mut random = Random::new(self.plan.seed);
        for word in &mut self.rows[..words] {
            *word = random.next();
        }
    }

    // The host puts a random number into the word that it picks.
    fn put_word(&mut self, random: u64) {
        let words = board::row_words(self.plan.lines) as u64;
        self.rows[(random % words) as usize] = random;
    }

    // Texts written, the host putting a random word after each: the sum of their answers and of the last one's bytes.
    fn write(&mut self, rounds: u32, text: &mut [u8]) -> u64 {
        let words = board::row_words(self.plan.lines);
        let mut random = Random::new(self.plan.seed);
        let mut sum: u64 = 0;
        for _ in 0..rounds {
            let written = intel_hex::write(&self.rows[..words], text);
            sum = sum.wrapping_add(engine::answer_number(written) as u64);
            self.put_word(random.next());
        }
        setup::with_all(sum, text)
    }

    // A text written once and read again and again, the host putting a random word before each: the sum of their answers
    // and of memory's words.
    fn read(&mut self, rounds: u32, text: &mut [u8]) -> u64 {
        let words = board::row_words(self.plan.lines);
        let mut random = Random::new(self.plan.seed);
        let written = intel_hex::write(&self.rows[..words], text);
        let mut sum = engine::answer_number(written) as u64;
        for _ in 0..rounds {
            self.put_word(random.next());
            let read = intel_hex::read(text, &mut self.rows[..words]);
            sum = sum.wrapping_add(engine::answer_number(read) as u64);
        }
        setup::with_all(sum, &self.rows[..words])
    }

    // The workload: memory filled, and its text written or read. The text row has just the room that the text needs.
    pub fn copy_texts(&mut self, direction: Direction, rounds: u32) -> u64 {
        let mut text = [0u8; 90124];
        let bytes = 22 * board::row_words(self.plan.lines) + 12;
        self.fill();
        match direction {
            Direction::Write => self.write(rounds, &mut text[..bytes]),
            Direction::Read => self.read(rounds, &mut text[..bytes]),
        }
    }
}
