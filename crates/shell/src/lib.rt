// The loop of a program: read, answer, write. No contract says what `read` and `write` do, so this file is what is left
// to read with the eye: the pieces read are answered in the order in which they came, each answer is written once and in
// order, and the header stands before all and the answer to a last line without its line feed behind; or, in the page
// and HEX programs, none of that is written, and at the end the page or memory's HEX text is. That the outputs are then
// the transcript of the whole input, or what is printed of the board that it leaves, however it was cut into pieces, is
// proved (`AnyPieces`, `AnyPiecesPrinted`, `AnyPiecesHexPrinted`); that what is carried of lines that were no calls is
// the whole input's, `AnyPiecesMisread`.
#![tactic(auto)]

mod display;
mod messages;

ghost use Rattle.std.specs.Prelude.{◌≡◌, ◌≤◌, length, IfOk};
ghost use Rattle.console.specs.Pieces.{fed, carried_by, SameBuffers};

use causes::Refusal;
use console::answers::{Buffers, Ongoing};
use console::printing;
pub use display::show_input;
use script::Program;
use session::Rows;
use std::io;
use std::io::Read;

// Why a program stops before the end.
#[derive(Drop)]
enum Failure {
    Reading(io::Error),
    Writing(io::Error),
}

// Bytes, written to standard output.
fn write<R: Print>(rt: &R, out: &[u8]) -> Result<(), Failure> {
    rt.write_all(out).map_err(Failure::Writing)
}

// What failed, told.
fn tell<R: Eprint>(rt: &R, program: Program, failure: Failure) {
    match failure {
        Failure::Reading(error) => messages::failed(rt, program, "reading", error),
        Failure::Writing(error) => messages::failed(rt, program, "writing", error),
    }
}

// Answers, written where the program answers line by line, and not at the end of the input alone: which program runs is data
// here, one value in all functions.
fn show<R: Print>(rt: &R, program: Program, out: &[u8]) -> Result<(), Failure> {
    match program {
        Program::Drill | Program::Fault => write(rt, out),
        Program::Page | Program::Hex => Ok(()),
    }
}

// A piece, answered and written as much at a time as the buffer holds: how much a turn uses up is the answer's to say.
fn converse<R: Print>(
    rt: &R,
    program: Program,
    progress: Ongoing,
    buffers: &mut Buffers<'_>,
    piece: &[u8],
) -> Result<Ongoing, Failure>
    ensures fed { IfOk result (λ reached. carried_by reached buffers.new ≡ (fed program (carried_by progress buffers.old) piece.now).after) }
    ensures same { SameBuffers buffers.old buffers.new }
{
    let mut reached = progress;
    let mut used = 0;
    while used < piece.len() {
        let r = reached.answer(program, buffers, &piece[used..]);
        show(rt, program, &buffers.out[..r.written])?;
        used += r.used;
        reached = r.progress;
    }
    Ok(reached)
}

// What is to be printed at the input's end, the first bytes of the text row, written, or why there is nothing.
fn print_last<R: Print + Eprint>(
    rt: &R,
    program: Program,
    printed: Result<usize, Refusal>,
    row: &[u8],
) -> Result<(), Failure>
    requires { IfOk printed (λ bytes. bytes ≤ length row.now) }
{
    match printed {
        Ok(bytes) => write(rt, &row[..bytes]),
        Err(refusal) => {
            messages::refused(rt, program, refusal);
            Ok(())
        }
    }
}

// The end of the input: the page program prints the page, the HEX program memory's text, any other answers the last
// line, where it lacks its line feed; and it is said which lines were no calls. The program is data, as in `show`.
fn finish<R: Print + Eprint>(
    rt: &R,
    program: Program,
    progress: Ongoing,
    buffers: &mut Buffers<'_>,
) -> Result<(), Failure> {
    let misread = match program {
        Program::Drill | Program::Fault => {
            let last = progress.answer_last(program, buffers);
            write(rt, &buffers.out[..last.end])?;
            last.progress.misread
        }
        Program::Page => {
            let mut row = page::text_row();
            let last = progress.last_page(buffers, &mut row);
            print_last(rt, program, last.printed, &row)?;
            last.misread
        }
        Program::Hex => {
            let mut row = printing::hex_row();
            let last = progress.last_hex(buffers, &mut row);
            print_last(rt, program, last.printed, &row)?;
            last.misread
        }
    };
    messages::lines_misread(rt, program, misread);
    Ok(())
}

// Read, answer, write, up to the input's end. Nothing says that the input ends, so the turns are counted, up to a number
// that no run reaches.
fn converse_all<R: Input + Print + Eprint>(rt: &R, program: Program) -> Result<(), Failure> {
    let mut memory = [0u64; 4104];
    let mut cache = [0u64; 4104];
    let mut text = [0u8; 90200];
    let mut line = [0u8; 80];
    let mut out = [0u8; 65536];
    let mut buffers = Buffers {
        rows: Rows {
            memory: &mut memory,
            cache: &mut cache,
            text: &mut text,
        },
        line: &mut line,
        out: &mut out,
    };
    let mut input = [0u8; 65536];
    let mut reader = rt.reader();
    let header = script::header();
    show(rt, program, &header)?;
    let mut progress = Ongoing::start();
    for _ in 0..u64::MAX {
        let n = reader.read(&mut input).map_err(Failure::Reading)?;
        if n == 0 {
            return finish(rt, program, progress, &mut buffers);
        }
        progress = converse(rt, program, progress, &mut buffers, &input[..n])?;
    }
    Ok(())
}

// A script on standard input, its answers or what is printed at its end on standard output.
pub fn run<R: Input + Print + Eprint>(rt: &R, program: Program) {
    if let Err(failure) = converse_all(rt, program) {
        tell(rt, program, failure);
    }
}
