// What a program says on standard error: why it stops, why nothing is printed, and which lines were no calls. Document 01
// fixes standard output alone; these words are ours, and the second program has the same. Where a message cannot be written
// there is nobody to tell.
use causes::Refusal;
use console::answers::Misread;
use script::{Program, Reason};
use std::io;

// What failed, and why by the system's words.
pub fn failed<R: Eprint>(rt: &R, program: Program, what: &str, error: io::Error) {
    let _ = eprintln!(rt; "{program}: {what} failed: {error}");
}

// Why nothing is printed.
pub fn refused<R: Eprint>(rt: &R, program: Program, refusal: Refusal) {
    let _ = eprintln!(rt; "{program}: refused by {refusal}");
}

// Which lines of an input were no calls: nothing where none was.
pub fn lines_misread<R: Eprint>(rt: &R, program: Program, misread: Misread) {
    let Misread { lines, first, why } = misread;
    let reason = Reason::try_from(why).unwrap_or(Reason::Unfit);
    let _ = match lines {
        0 => Ok(()),
        1 => eprintln!(rt; "{program}: note: line {first} is no call: {reason}"),
        _ => {
            eprintln!(rt;
                "{program}: note: {lines} lines are no calls, the first is line {first}: {reason}"
            )
        }
    };
}
