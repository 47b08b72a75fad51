// What a session works on: arrays with room for the largest board and the longest text, and how much of each is in use.
ghost use Rattle.std.specs.Prelude.{◌≤◌};

use board::State;

// Memory, cache and text, each lent by the caller. Nothing is allocated, so the arrays are fixed, and a session has how much
// of each is in use.
#[derive(Drop)]
pub struct Rows<'a> {
    pub memory: &'a mut [u64; 4104],
    pub cache: &'a mut [u64; 4104],
    pub text: &'a mut [u8; 90200],
}

// The board's state record, and how many words of the memory and cache arrays and bytes of the text array are in use.
#[derive(Clone, Copy)]
pub struct Session {
    pub state: State,
    pub memory: usize,
    pub cache: usize,
    pub text: usize,
    pub ghost memory_within: { memory ≤ 4104 },
    pub ghost cache_within: { cache ≤ 4104 },
    pub ghost text_within: { text ≤ 90200 },
}
