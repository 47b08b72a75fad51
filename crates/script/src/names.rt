// How a program and a reason are called in messages. Document 01 fixes standard output alone; these words are ours, and the
// second program has the same.
ghost use Rattle.std.specs.Prelude.{◌≡◌, Some};
ghost use Rattle.script.specs.Names.{name_of, words_of};

use crate::{Program, Reason};
use std::fmt;

impl Program {
    fn name(self) -> &'static str
        ensures { result.now ≡ name_of self }
    {
        match self {
            Program::Drill => "drill",
            Program::Fault => "fault",
            Program::Page => "page",
            Program::Hex => "hex",
        }
    }
}

impl Reason {
    fn words(self) -> &'static str
        ensures { result.now ≡ words_of self }
    {
        match self {
            Reason::Long => "over 79 bytes",
            Reason::ByteOrderMark => "it begins with a byte-order mark",
            Reason::CarriageReturn => "a carriage return",
            Reason::Blanks => "blanks where tabs belong",
            Reason::Empty => "an empty line",
            Reason::Letter => "unknown letter",
            Reason::Past => "a number past 2^64 - 1",
            Reason::NoNumber => "a field that is no number",
            Reason::Count => "too few or too many numbers",
            Reason::Unfit => "a number that cannot be put there",
        }
    }
}

impl fmt::Display for Program {
    ghost output = { λ program. Some (name_of program) };

    fn fmt<W: fmt::Write>(&self, f: &mut fmt::Formatter<W>) -> fmt::Result {
        f.write_str(self.name())
    }
}

impl fmt::Display for Reason {
    ghost output = { λ reason. Some (words_of reason) };

    fn fmt<W: fmt::Write>(&self, f: &mut fmt::Formatter<W>) -> fmt::Result {
        f.write_str(self.words())
    }
}
