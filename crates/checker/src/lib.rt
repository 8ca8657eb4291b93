// The checker: which strings of bytes are rule programs and questions, and for which reason and at which place the others are refused.
#![tactic(auto)]

pub mod builtins;
mod declarations;
mod node;
mod overlap;
mod program;
pub mod refusal;
mod side;

ghost use Rattle.std.specs.Prelude.{◌≡◌, ◌≤◌, [], take, drop};
ghost use Rattle.checker.specs.Declarations.{Kept, own_arities};
ghost use Rattle.checker.specs.Overlap.{first_clash};
ghost use Rattle.checker.specs.Answer.{checked_of, declared, verdict_of, SameNumber};
ghost use Rattle.checker.specs.Program.{settled, own_openings};
ghost use Rattle.theory.specs.Bytes.{read_question, read_program};

use declarations::Top;
use node::Declared;
use overlap::Rules;
use program::parse;
use refusal::{Reason, Refusal};
use side::{Side, Stand};

// What is read of a program: its declarations, the arities by function number (built-in b is b, declared f is 16 + f), and the
// places where its rules open.
#[derive(Clone, Copy)]
pub struct Checked {
    pub exceptions: usize,
    pub functions: usize,
    pub rules: usize,
    pub arities: [u8; 48],
    pub openings: [usize; 64],
}

impl Checked {
    // The arities of the declared functions.
    pub fn own_arities(&self) -> &[u8]
        requires { self.now.functions ≤ 32 }
        ensures { result.now ≡ take self.now.functions (drop 16 self.now.arities) }
    {
        &self.arities[16..16 + self.functions]
    }

    // The places where the rules open.
    pub fn own_openings(&self) -> &[usize]
        requires { self.now.rules ≤ 64 }
        ensures { result.now ≡ take self.now.rules self.now.openings }
    {
        &self.openings[..self.rules]
    }
}

// A program that was read, unless two of its rules clash.
#[tactic(auto, unfolding(crate::specs::Declarations::own_arities, crate::specs::Program::settled, crate::specs::Program::own_openings))]
fn settle(program: &[u8], top: &Top) -> Result<Checked, Refusal>
    requires { Kept top.now }
    ensures { result ≡ settled top.now (first_clash program.now (own_arities top.now) [] (own_openings top.now)) }
{
    let rules = Rules {
        program,
        arities: top.read.own_arities(),
    };
    match rules.first_overlap(top.read.own_openings()) {
        Some(q) => Err(Reason::RulesOverlap.at(q)),
        None => Ok(top.read),
    }
}

// Checks a program, whatever its bytes.
#[tactic(auto, using(crate::proofs::Callers::program_same, crate::proofs::Answer::program_long, crate::proofs::Answer::program_stops, crate::proofs::Answer::program_settled))]
pub fn check_program(program: &[u8]) -> Result<Checked, Refusal>
    ensures value { result ≡ checked_of (read_program program.now) }
    ensures numbered { SameNumber (read_program program.now) }
{
    if 8192 < program.len() {
        return Err(Reason::ProgramTooLong.at(0));
    }
    let top = parse(program)?;
    settle(program, &top)
}

// Reads a question for a program with so many exceptions and declared functions of these arities.
#[tactic(auto, using(crate::proofs::Callers::question_same, crate::proofs::Answer::asked_refused, crate::proofs::Answer::asked_more, crate::proofs::Answer::asked_good))]
pub fn check_question(question: &[u8], exceptions: usize, arities: &[u8]) -> Result<(), Refusal>
    ensures value { result ≡ verdict_of (read_question (declared exceptions arities.now) question.now) }
    ensures numbered { SameNumber (read_question (declared exceptions arities.now) question.now) }
{
    let declared = Declared {
        exceptions,
        arities,
    };
    let none = Side {
        at: 0,
        seen: [false; 8],
    };
    let s = Stand::Asked.read_side(question, declared, none, 1)?;
    if s.at < question.len() {
        return Err(Reason::BytesLeftOver.at(s.at));
    }
    Ok(())
}
