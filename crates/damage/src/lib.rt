// What a line of the fault program does to a board: the damage that a repair workshop puts in, and checksums.
#![tactic(auto)]

mod checksum;
mod damages;
mod record;
mod rows;

ghost use Rattle.std.specs.Prelude.{◌≤◌};

use board::State;
pub use checksum::bytes_checksum;
pub use damages::carry_out;
use script::Shown;

// How many words of the memory and cache arrays are in use, within the room.
#[derive(Clone, Copy)]
pub struct Sizes {
    pub memory: usize,
    pub cache: usize,
    pub ghost memory_within: { memory ≤ 4104 },
    pub ghost cache_within: { cache ≤ 4104 },
}

// After a line: the state record, the words in use, and the answer and the value to show.
#[derive(Clone, Copy)]
pub struct Damaged {
    pub state: State,
    pub sizes: Sizes,
    pub answer: Shown,
    pub value: Shown,
}
