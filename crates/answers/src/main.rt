// Answers cases: reads one a line from standard input, and writes for each how both engines answer and what the lent slices then hold.
#![tactic(auto)]

mod buffers;
mod cases;
mod output;

use buffers::Buffers;
use cases::Case;
use input::Lines;
use output::Output;
use std::io;

// The answers to all lines. What is held is written before a failed read is handed on. The turns have a bound that no run uses up, since
// nothing says that the input ends.
fn answer_all(
    rt: &impl Print,
    out: &mut Output,
    lines: &mut Lines,
    case: &mut Case,
    buffers: &mut Buffers,
) -> io::Result<()> {
    for _ in 0..u64::MAX {
        match lines.next_line() {
            Ok(None) => break,
            Ok(Some(Ok(len))) => buffers.put_answer(rt, out, case, lines.held(len))?,
            Ok(Some(Err(_))) => out.put_piece(rt, b"too long\n")?,
            Err(e) => {
                out.flush(rt)?;
                return Err(e);
            }
        }
    }
    out.flush(rt)
}

fn main(rt: HostRuntime) -> io::Result<()> {
    let mut chunk = [0; 65536];
    let mut line = [0; 60000];
    let mut lines = Lines::of(rt.stdin(), &mut chunk, &mut line);
    let mut out = Output::new();
    let mut case = Case::new();
    let mut buffers = Buffers::new();
    answer_all(&rt, &mut out, &mut lines, &mut case, &mut buffers)
}
