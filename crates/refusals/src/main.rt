// Reads lines `PROGRAM QUESTION` in hexadecimal digits, and prints for each by which number and at which place the checker refuses it.
#![tactic(auto)]

use arrayvec::ArrayVec;
use input::Lines;
use std::io;

// The program first, and the question only for a program that is accepted: the number and the place by which either is refused.
#[tactic(auto, using(checker::proofs::Callers::within))]
fn judge(rt: &impl Print, program: &[u8], question: &[u8]) -> io::Result<()> {
    let checked = match checker::check_program(program) {
        Ok(checked) => checked,
        Err(refusal) => return println!(rt; "program {refusal}"),
    };
    match checker::check_question(question, checked.exceptions, checked.own_arities()) {
        Ok(()) => println!(rt; "accepted"),
        Err(refusal) => println!(rt; "question {refusal}"),
    }
}

// The program and the question of a line. There is room for every field of 20,000 bytes.
#[derive(Drop)]
struct Fields {
    program: ArrayVec<u8, 10000>,
    question: ArrayVec<u8, 10000>,
}

impl Fields {
    // Nothing is read yet.
    fn new() -> Self {
        Fields {
            program: ArrayVec::new(),
            question: ArrayVec::new(),
        }
    }

    // Reads those of a line: two fields with one space between them.
    fn read(&mut self, line: &[u8]) -> Option<()> {
        let mut fields = line.split(|b| *b == b' ');
        lines::decode(fields.next()?, &mut self.program)?;
        lines::decode(fields.next()?, &mut self.question)?;
        fields.next().is_none().then_some(())
    }
}

// The answer to a line.
fn answer_line(rt: &impl Print, line: &[u8], fields: &mut Fields) -> io::Result<()> {
    match fields.read(line) {
        None => println!(rt; "bad line"),
        Some(()) => judge(rt, fields.program.as_slice(), fields.question.as_slice()),
    }
}

// Every line of the input. A proved loop has to end, and nothing says that the input does: its turns have a bound that no run uses up.
fn answer_all(rt: &impl Print, lines: &mut Lines) -> io::Result<()> {
    let mut fields = Fields::new();
    for _ in 0..u64::MAX {
        match lines.next_line()? {
            None => break,
            Some(Ok(len)) => answer_line(rt, lines.held(len), &mut fields)?,
            Some(Err(_)) => println!(rt; "too long")?,
        }
    }
    Ok(())
}

// A question has no ceiling of its own in bytes: this one goes past its words at the 513th.
fn long_question(rt: &impl Print) -> io::Result<()> {
    let program = [0x04u8];
    let question = [0x11u8; 100000];
    judge(rt, &program, &question)
}

fn main(rt: HostRuntime) -> io::Result<()> {
    let mut chunk = [0; 65536];
    let mut line = [0; 20000];
    let mut lines = Lines::of(rt.stdin(), &mut chunk, &mut line);
    answer_all(&rt, &mut lines)?;
    long_question(&rt)
}
