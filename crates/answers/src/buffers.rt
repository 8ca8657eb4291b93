// The words that are lent to the rewriter, case by case.
ghost use Rattle.std.specs.Prelude.{◌≡◌, replicate, IfOk};
ghost use Rattle.answers.specs.Fields.{Reads};
ghost use Rattle.answers.specs.Answered.{Unread, Refused};

use crate::cases::Case;
use crate::output::Output;
use bridge::report::Report;
use std::io;

#[derive(Drop)]
pub struct Buffers {
    own: [u16; 15504],
    first: [u16; 4096],
    second: [u16; 4096],
}

// The words before the first that is 0.
fn stored(words: &[u16]) -> &[u16] {
    match words.iter().position(|w| *w == 0) {
        None => words,
        Some(n) => &words[..n],
    }
}

// The first `room` words without the zeros at their end.
fn kept(words: &[u16], room: usize) -> &[u16] {
    let n = room.min(words.len());
    match words[..n].iter().rposition(|w| *w != 0) {
        None => &[],
        Some(last) => &words[..=last],
    }
}

impl Buffers {
    // All zeros.
    pub fn new() -> Self
        ensures own { result.own ≡ replicate 15504 0 }
        ensures first { result.first ≡ replicate 4096 0 }
        ensures second { result.second ≡ replicate 4096 0 }
    {
        Buffers {
            own: [0; 15504],
            first: [0; 4096],
            second: [0; 4096],
        }
    }

    // What the lent slices hold, and the line's end.
    fn put_slices(&self, rt: &impl Print, out: &mut Output, room: usize) -> io::Result<()> {
        out.put_words(rt, stored(&self.own))?;
        out.put_words(rt, kept(&self.first, room))?;
        out.put_words(rt, kept(&self.second, room))?;
        out.put_piece(rt, b"\n")
    }

    // The rewriter on a case. A slice that is longer than those here would answer the same. No word of a stored rule is 0, so zeros show
    // where the list that is stored there ends.
    fn rewrite(&mut self, case: &Case) -> Report {
        let own = &mut self.own[..];
        let first = &mut self.first[..];
        let second = &mut self.second[..];
        own.fill(0);
        let own_len = own.len().min(case.own as usize);
        let first_len = first.len().min(case.first as usize);
        let second_len = second.len().min(case.second as usize);
        bridge::rewrite(
            case.program.as_slice(),
            case.question.as_slice(),
            case.steps,
            case.room,
            &mut own[..own_len],
            &mut first[..first_len],
            &mut second[..second_len],
        )
    }

    // The answer to a case. What refuses the evaluator comes before what refuses the rewriter alone.
    fn put_case(&mut self, rt: &impl Print, out: &mut Output, case: &Case) -> io::Result<()>
        ensures { IfOk result (λ u. Refused case.now out.old.held.items out.new.held.items) }
    {
        let evaluated = bridge::evaluate(
            case.program.as_slice(),
            case.question.as_slice(),
            case.steps,
            case.levels,
        );
        if evaluated.is_refusal() {
            return out.put_refused(rt, evaluated);
        }
        let rewritten = self.rewrite(case);
        if rewritten.is_refusal() {
            return out.put_refused(rt, rewritten);
        }
        out.put_engines(rt, evaluated, rewritten)?;
        self.put_slices(rt, out, case.room as usize)
    }

    // The answer to a line, which is read into a case that is lent.
    pub fn put_answer(
        &mut self,
        rt: &impl Print,
        out: &mut Output,
        case: &mut Case,
        line: &[u8],
    ) -> io::Result<()>
        ensures unread { IfOk result (λ u. Unread line.now out.old.held.items out.new.held.items) }
        ensures refused { (c : Case) → Reads line.now c → IfOk result (λ u. Refused c out.old.held.items out.new.held.items) }
    {
        match case.read(line) {
            None => out.put_piece(rt, b"bad line\n"),
            Some(()) => self.put_case(rt, out, case),
        }
    }
}
