// The two public calls: they refuse by the numbers 1 to 13 and 17, or run one engine.
#![tactic(auto)]

mod accepted;
pub mod door;
mod evaluating;
mod judge;
pub mod report;
mod rewriting;

ghost use Rattle.std.specs.Prelude.{◌≡◌};
ghost use Rattle.theory.specs.Answers.{evaluate, rewrite};
ghost use Rattle.bridge.specs.Report.{report_of};
ghost use Rattle.bridge.specs.Calls.{Leaves};

use judge::{allowed, judge, limit};
use report::{Report, refused};

// THE EVALUATOR'S CALL, whatever the bytes and the allowances.
pub fn evaluate(program: &[u8], question: &[u8], steps: u32, levels: u32) -> Report
    ensures { result ≡ report_of (evaluate program.now question.now steps levels) }
{
    let accepted = match judge(program, question) {
        Ok(accepted) => accepted,
        Err(refusal) => return refusal,
    };
    if !allowed(steps, levels, 1000) {
        return refused(12, 1, 0);
    }
    accepted.evaluate(steps, levels)
}

// THE REWRITER'S CALL, whatever the bytes, the allowances and the slices. The slices are tested before any is written.
pub fn rewrite(
    program: &[u8],
    question: &[u8],
    steps: u32,
    room: u32,
    own: &mut [u16],
    first: &mut [u16],
    second: &mut [u16],
) -> Report
    ensures { Leaves (rewrite program.now question.now steps room own.old first.old second.old) result own.new first.new second.new }
{
    let accepted = match judge(program, question) {
        Ok(accepted) => accepted,
        Err(refusal) => return refusal,
    };
    match limit(steps, room, first.len(), second.len()) {
        Ok(()) => accepted.rewrite(steps, room, own, first, second),
        Err(refusal) => refusal,
    }
}
