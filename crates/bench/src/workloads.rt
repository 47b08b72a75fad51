// What is measured, and a workload played on a board from its format to its checksum. What is played is chosen by a number on
// the command line, so it is data, and matched where it is used.
use crate::plan::Plan;
use crate::rounds::Round;
use crate::setup::Random;
use board::State;
use line::Field;

// The marks of the cells of which pages are printed. `Mixed` are equal ones, half of the cells being unchanged.
#[derive(Clone, Copy)]
pub enum Marks {
    Equal,
    Rising,
    Random,
    Mixed,
}

// What is done with HEX texts of the memory.
#[derive(Clone, Copy)]
pub enum Direction {
    Write,
    Read,
}

// What a KIND on the command line stands for.
#[derive(Clone, Copy)]
pub enum Workload {
    Calls(Round),
    Pages(Marks),
    Texts(Direction),
}

impl Workload {
    // The workloads that are measured, by their number.
    pub fn numbered(kind: u64) -> Option<Self> {
        let workload = match kind {
            1 => Workload::Calls(Round::Update),
            2 => Workload::Calls(Round::Again),
            3 => Workload::Calls(Round::Checkpoint),
            4 => Workload::Calls(Round::Recovery),
            5 => Workload::Calls(Round::WriteBack),
            6 => Workload::Pages(Marks::Equal),
            7 => Workload::Pages(Marks::Rising),
            8 => Workload::Pages(Marks::Random),
            9 => Workload::Calls(Round::CheckpointAway),
            10 => Workload::Calls(Round::CheckpointPairs),
            11 => Workload::Calls(Round::Locks),
            12 => Workload::Pages(Marks::Mixed),
            13 => Workload::Texts(Direction::Write),
            14 => Workload::Texts(Direction::Read),
            _ => return None,
        };
        Some(workload)
    }

    // Whether the plan's board is large enough.
    pub fn fits(self, plan: Plan) -> bool {
        match self {
            Workload::Calls(round) => round.fits(plan),
            _ => true,
        }
    }
}

// A board of a plan's sizes: its state record, and the words of memory and then of the cache, with room for the largest:
// one array, which `split_at_mut` parts, since two fields behind a reference cannot be lent at once.
#[derive(Drop)]
pub struct Bench {
    pub plan: Plan,
    pub state: State,
    pub rows: [u64; 8192],
}

impl Bench {
    // A board that is off, on rows of zeros.
    pub fn new(plan: Plan) -> Self {
        Bench {
            plan,
            state: engine::off(),
            rows: [0; 8192],
        }
    }

    // Plays rounds, and gives the sum of their answers. This has the one call of `perform` of the program, so that the
    // compiler puts the call into the loop; a loop of calls in one of rounds would copy the record once more a round.
    fn play(&mut self, round: Round, rounds: u32) -> u64 {
        let plan = self.plan;
        let from = self.state;
        let words = board::row_words(plan.lines);
        let (memory, cache) = self.rows[..2 * words].split_at_mut(words);
        let calls = round.calls(plan);
        let all = rounds as usize * calls as usize;
        let mut random = Random::new(plan.seed);
        let mut drawn = plan.draw(&mut random);
        let mut state = from;
        let mut sum: u64 = 0;
        for k in (0..calls).cycle().take(all) {
            let call = round.call(plan, k as u64, drawn);
            let answer = engine::perform(call, state, memory, cache);
            sum = sum.wrapping_add(engine::answer_number(answer) as u64);
            if let Ok(reading) = answer {
                state = reading.state;
                sum = sum.wrapping_add(reading.value);
            }
            if k as u64 + 1 == calls as u64 {
                match round {
                    Round::Update => {
                        line::store_field(cache, drawn.cell as usize, Field::Mark, 0);
                        state.dirty = [0; 8];
                    }
                    Round::Checkpoint | Round::CheckpointPairs | Round::CheckpointAway => {
                        state = from
                    }
                    _ => {}
                }
                drawn = plan.draw(&mut random);
            }
        }
        self.state = state;
        sum
    }

    // Rounds of calls, after those that they need.
    fn prepare_and_play(&mut self, round: Round, rounds: u32) -> u64 {
        for first in round.before() {
            self.play(*first, 1);
        }
        self.play(round, rounds)
    }

    // A workload's checksum: the sum of its rounds after a format, and of a read of every cell after them.
    pub fn run(&mut self, kind: Workload, rounds: u32) -> u64 {
        self.play(Round::Format, 1);
        let sum = match kind {
            Workload::Calls(round) => self.prepare_and_play(round, rounds),
            Workload::Pages(marks) => self.print_pages(marks, rounds),
            Workload::Texts(direction) => self.copy_texts(direction, rounds),
        };
        sum.wrapping_add(self.play(Round::Reads, 1))
    }
}
