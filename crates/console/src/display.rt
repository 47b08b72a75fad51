// What is shown of a HEX text: the header's numbers and the page of the board that it holds, recovered to its end.
ghost use Rattle.std.specs.Prelude.{◌≡◌, ◌+◌, ◌≤◌, length, replicate, IfOk};
ghost use Rattle.board.specs.declared.Call.TheVariants.{RecoveryStart};
ghost use Rattle.board.specs.Causes.{cause};
ghost use Rattle.board.specs.Next.{lent};
ghost use Rattle.board.specs.Statements.{steps_from};
ghost use Rattle.causes.specs.Refusals.{answer_number};
ghost use Rattle.text.specs.Writing.{Put};
ghost use Rattle.console.specs.Display.{words_for, header_line, unrecovered, recovered, shown_by, memory_shown, text_shown};

use crate::printing::print;
use board::State;
use engine::Refusal;
use text::Writer;

// How many bytes of the two rows are to be shown.
#[derive(Clone, Copy)]
pub struct Displayed {
    pub heading: usize,
    pub bytes: usize,
}

// How many words a text is read into.
fn words_for(text: &[u8]) -> usize
    ensures { (result ≡ words_for text.now) × (result ≤ 4096) }
{
    intel_hex::words_in(text).min(4096)
}

// Steps, one after the other.
fn steps(state: State, memory: &mut [u64], cache: &mut [u64], times: u64) -> State
    ensures { lent result memory.new cache.new ≡ steps_from times (lent state memory.old cache.old) }
{
    let mut now = state;
    for _ in 0..times {
        now = engine::step(now, memory, cache).unwrap_or(now);
    }
    now
}

// A recovery to its end. It takes at most three steps a cell; steps past its end change nothing.
fn recover(memory: &mut [u64], cache: &mut [u64]) -> Result<State, Refusal>
    requires { cache.old ≡ replicate (length memory.old) 0 }
    ensures told { answer_number result ≡ cause RecoveryStart (unrecovered memory.old) }
    ensures leaves { IfOk result (λ state. lent state memory.new cache.new ≡ recovered (unrecovered memory.old)) }
{
    let started = engine::recovery_start(engine::off(), memory, cache)?;
    let times = 6 * (started.lines as u64);
    Ok(steps(started, memory, cache, times))
}

// "epoch E, L l, W w", written at the front of a row. Gives where it ends.
fn put_heading(memory: &[u64], row: &mut [u8]) -> usize
    requires { (3 ≤ length memory.now) × (75 ≤ length row.old) }
    ensures { Put row.old 0 (header_line memory.now) row.new result × (result ≤ 75) }
{
    let mut line = Writer { out: row, at: 0 };
    line.put_text(b"epoch ");
    line.put_number(memory[0]);
    line.put_text(b", L ");
    line.put_number(memory[1]);
    line.put_text(b", W ");
    line.put_number(memory[2]);
    line.put_byte(b'\n');
    line.at
}

// The board of a memory, recovered to its end: its header's line and its page.
fn show_memory(
    memory: &mut [u64],
    cache: &mut [u64],
    heading: &mut [u8],
    row: &mut [u8; 69564],
) -> Result<Displayed, Refusal>
    requires { (cache.old ≡ replicate (length memory.old) 0) × (length heading.old ≡ 75) }
    ensures shows { shown_by result heading.new row.new ≡ memory_shown memory.old }
    ensures within { IfOk result (λ shown. (shown.heading ≤ 75) × (shown.bytes ≤ 69564)) }
{
    let state = recover(memory, cache)?;
    let bytes = print(state, memory, cache, row)?;
    let heading = put_heading(memory, heading);
    Ok(Displayed { heading, bytes })
}

// A text read into a row that has just its words, and shown; memory and cache are all 0 before.
pub fn show(
    text: &[u8],
    memory: &mut [u64],
    cache: &mut [u64],
    heading: &mut [u8],
    row: &mut [u8; 69564],
) -> Result<Displayed, Refusal>
    requires { (memory.old ≡ replicate 4096 0) × (cache.old ≡ replicate 4096 0) × (length heading.old ≡ 75) }
    ensures shows { shown_by result heading.new row.new ≡ text_shown text.now }
    ensures within { IfOk result (λ shown. (shown.heading ≤ 75) × (shown.bytes ≤ 69564)) }
{
    let words = words_for(text);
    intel_hex::read(text, &mut memory[..words])?;
    show_memory(&mut memory[..words], &mut cache[..words], heading, row)
}
