// What is carried from piece to piece of an input, and the arrays beside it.
ghost use Rattle.std.specs.Prelude.{◌≡◌, ◌≤◌, length};

use session::{Rows, Session};

// What a program works in, lent by the caller: the session's arrays, 80 bytes for those kept of the line
// begun, and the answers.
#[derive(Drop)]
pub struct Buffers<'a> {
    pub rows: Rows<'a>,
    pub line: &'a mut [u8],
    pub out: &'a mut [u8; 65536],
    pub ghost line_long: { length line.now ≡ 80 },
}

// The lines answered `?`: how many, and the first one's number and the number of its reason. Words alone, 0 where there
// are none: an enum, and an `Option` is one, leaves a gap in what is carried, and was a quarter slower (bench/trials.md).
#[derive(Clone, Copy)]
pub struct Misread {
    pub lines: u64,
    pub first: u64,
    pub why: u64,
}

// What is carried from piece to piece: the session, the lines answered and those answered `?`, and how many bytes of the
// line begun are kept.
#[derive(Clone, Copy)]
pub struct Ongoing {
    pub session: Session,
    pub number: u64,
    pub misread: Misread,
    pub begun: usize,
    pub ghost begun_within: { begun ≤ 80 },
}
