// The lines of the drill (document 01, "The drill program"), of the fault program, the drill with damage, and of the page
// and HEX programs, which have the drill's: a line of the script read, a line of the answer written.
#![tactic(auto)]

mod answer;
mod commands;
mod damages;
mod fields;
mod names;
mod reasons;

pub use answer::{header, letter, put_answer};
use board::Call;
pub use commands::parse;
pub use fields::decimal;
pub use reasons::{UnknownReason, reason_number, why};

// The programs, each with its letters.
#[derive(Clone, Copy, PartialEq, Eq)]
pub enum Program {
    Drill,
    Fault,
    Page,
    Hex,
}

// What a line of the script asks for: a format to the end, one call of the board, one call whose value is shown, a cut,
// damage, a page in a text row of `room` bytes, work with the text, or nothing that is known: that is a line as any other,
// which is answered, by `?`, and no absence of one.
#[derive(Clone, Copy)]
pub enum Line {
    Format { lines: u64, workers: u64 },
    Make { call: Call },
    Show { call: Call },
    Cut,
    Damage { damage: Damage },
    Page { room: u64 },
    Text { work: TextWork },
    Unknown,
}

// What a line of the fault program puts into the board: the rows' lengths, a word of memory, one of the cache, one of
// the dirty lines' bits, a field of the record, a worker, a lock's holder; or nothing, with the checksum of everything
// shown.
#[derive(Clone, Copy)]
pub enum Damage {
    Lengths {
        memory: u64,
        cache: u64,
    },
    Memory {
        at: u64,
        word: u64,
    },
    Cache {
        at: u64,
        word: u64,
    },
    Dirty {
        at: u64,
        word: u64,
    },
    Field {
        field: u64,
        number: u64,
    },
    Worker {
        worker: u64,
        condition: u64,
        next: u64,
        cell: u64,
        value: u64,
    },
    Holder {
        lock: u64,
        holder: u64,
    },
    Checksum,
}

// What a line of the fault program does with the text: memory written as HEX into a text of `room` bytes, a byte of it put,
// or its first bytes read into memory.
#[derive(Clone, Copy)]
pub enum TextWork {
    Write { room: u64 },
    Put { at: u64, byte: u64 },
    Read { bytes: u64 },
}

// Why a line is answered `?`: over 79 bytes, a byte-order mark at its start, a carriage return, blanks where tabs belong,
// nothing in it, a letter that the program has not, a number past 2^64 − 1, a field that is no number, too few or too many
// numbers; or, in the fault program, a number that cannot be put where it is to go.
#[derive(Clone, Copy, PartialEq, Eq)]
pub enum Reason {
    Long = 1,
    ByteOrderMark,
    CarriageReturn,
    Blanks,
    Empty,
    Letter,
    Past,
    NoNumber,
    Count,
    Unfit,
}

// What stands in the column of the answer or the value: `?`, `-` or a number; two of the three are words of the format.
#[derive(Clone, Copy)]
pub enum Shown {
    Unknown,
    Nothing,
    Number(u64),
}
