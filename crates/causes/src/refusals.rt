// Why a call is refused, in the order tested, with the papers' numbers and the words that a person is told.
ghost use Rattle.std.specs.Prelude.{◌≡◌, Some};
ghost use Rattle.causes.specs.Refusals.{number_of, answer_number, words_of};

use std::fmt;

// The cause by which a call is refused, with its number: the first that stands, in this order.
#[derive(Clone, Copy, PartialEq, Eq, Debug, Drop)]
pub enum Refusal {
    // "format: L or W outside the limits above"
    Limits = 1,
    // "phase doesn't allow the call (never for the two starts)"
    Phase = 2,
    // "state record (not for the starts)"
    State = 3,
    // "rows"
    Rows = 4,
    // "recovery's start: epoch 0, L not (words div 8) − 1, W outside the limits, or words 3 to 7 not all zero"
    Header = 5,
    // "memory with any mark greater than its epoch", "14 for such a mark, after 5"
    Mark = 14,
    // "worker W or more"
    Worker = 6,
    // "update of a cell under W or 2L or more; read of 2L or more; line over L"
    Address = 7,
    // "a lock number of 16 or more, after 7"
    Lock = 15,
    // "update or restart point by a worker not free; advance of one free or waiting"; "going away when not free or coming
    // back when not away"; a lock taken by one not free, or given back in the middle of an update under it
    Condition = 8,
    // "coming back after a checkpoint's first step and before its release, after 8"
    Begun = 13,
    // "a lock needed or given back and not held, taken and not free, or held at a restart point or on going away, after 8"
    Holder = 16,
    // "start of an update or restart point: another worker under W has an unfinished update of the same cell"
    Conflict = 9,
    // "request while one stands; running step with none requested, or with a worker under W not waiting"
    Checkpoint = 10,
    // "the cache's epoch 2^64 − 1, at a request or at the epoch's store"
    Epoch = 11,
    // "19 for text that isn't such a file", before 20 and 12
    File = 19,
    // "20 for a length that recovery would not take or the lent row doesn't have", after 19
    Length = 20,
    // "12 where the row is too short": a page's text row; "12 for a text row too short", after 20
    Text = 12,
}

impl From<Refusal> for u8 {
    ghost from_gives = { λ refusal number. number ≡ number_of refusal };

    fn from(refusal: Refusal) -> u8 {
        refusal as u8
    }
}

// "A taken call returns 0", a refused one the number of its cause.
#[inline]
pub fn answer_number<T: Copy>(outcome: Result<T, Refusal>) -> u8
    ensures { result ≡ answer_number outcome }
{
    match outcome {
        Ok(_) => 0,
        Err(refusal) => u8::from(refusal),
    }
}

impl Refusal {
    // The cause in words.
    fn words(self) -> &'static str
        ensures { result.now ≡ words_of self }
    {
        match self {
            Refusal::Limits => "cause 1: L or W outside the limits",
            Refusal::Phase => "cause 2: phase doesn't allow the call",
            Refusal::State => "cause 3: state record",
            Refusal::Rows => "cause 4: rows",
            Refusal::Header => "cause 5: header",
            Refusal::Worker => "cause 6: no such worker",
            Refusal::Address => "cause 7: no such cell or line",
            Refusal::Condition => "cause 8: the worker's condition",
            Refusal::Conflict => "cause 9: another worker updates the cell",
            Refusal::Checkpoint => "cause 10: request or waiting",
            Refusal::Epoch => "cause 11: the last epoch",
            Refusal::Text => "cause 12: text row too short",
            Refusal::Begun => "cause 13: coming back in the middle of a checkpoint",
            Refusal::Mark => "cause 14: a mark greater than the epoch",
            Refusal::Lock => "cause 15: no such lock",
            Refusal::Holder => "cause 16: lock not held or not free",
            Refusal::File => "cause 19: text that isn't such a file",
            Refusal::Length => "cause 20: length",
        }
    }
}

impl fmt::Display for Refusal {
    ghost output = { λ refusal. Some (words_of refusal) };

    fn fmt<W: fmt::Write>(&self, f: &mut fmt::Formatter<W>) -> fmt::Result {
        f.write_str(self.words())
    }
}
