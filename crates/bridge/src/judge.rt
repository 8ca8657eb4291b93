// Refusals 1 to 13 and 17 but for the own list's: the program's, then the question's, then the allowances' and the buffers'.
ghost use Rattle.std.specs.Prelude.{◌≡◌, ◌<◌, Err, IfOk, IfErr};
ghost use Rattle.checker.specs.Refusal.{number_of};
ghost use Rattle.bridge.specs.Report.{refusal_report};
ghost use Rattle.bridge.specs.Judged.{judged_as, allowances, buffers_hold, limit_of};

use crate::accepted::Accepted;
use crate::report::{Report, refused};
use checker::refusal::Refusal;

// The checker's refusal as a report.
fn report_of(refusal: Refusal, about: u32) -> Report
    requires { refusal.place < 4294967296 }
    ensures { result ≡ refusal_report (number_of refusal.reason) about refusal.place }
{
    refused(
        u32::from(u8::from(refusal.reason)),
        about,
        refusal.place as u32,
    )
}

// Refusals 1 to 11 and 17, whatever the bytes; or both, where they are accepted.
pub fn judge<'a>(program: &'a [u8], question: &'a [u8]) -> Result<Accepted<'a>, Report>
    ensures accepted { IfOk result (λ a. (a.program ≡ program.entry) × (a.question ≡ question.entry)) }
    ensures refused { IfErr result (λ r. Err r ≡ judged_as program.now question.now) }
{
    let checked = checker::check_program(program).map_err(|refusal| report_of(refusal, 1))?;
    let declared = checked.own_arities();
    checker::check_question(question, checked.exceptions, declared).map_err(|refusal| report_of(
        refusal, 2,
    ))?;
    Ok(Accepted {
        program,
        question,
        checked,
    })
}

// Whether the steps are within 1,000,000, and the levels or the room from 1 to their most.
#[tactic(auto, using(std::proofs::lemmas::Bool::Decides::nat_tests), unfolding(crate::specs::Judged::allowances))]
pub fn allowed(steps: u32, other: u32, most: u32) -> bool
    ensures { result ≡ allowances steps other most }
{
    steps <= 1000000 && (1..=most).contains(&other)
}

// Whether both buffers, of so many words, have at least the room's.
#[tactic(auto, using(std::proofs::lemmas::Bool::Decides::nat_tests), unfolding(crate::specs::Judged::buffers_hold))]
fn buffers_hold(room: u32, first: usize, second: usize) -> bool
    ensures { result ≡ buffers_hold room first second }
{
    let most = room as usize;
    most <= first && most <= second
}

// 12 where an allowance of the rewriter's call is out of range, then 13 where a buffer is too short.
#[tactic(auto, using(std::proofs::lemmas::Bool::Decides::nat_tests), unfolding(crate::specs::Judged::limit_of))]
pub fn limit(steps: u32, room: u32, first: usize, second: usize) -> Result<(), Report>
    ensures { result ≡ limit_of steps room first second }
{
    if !allowed(steps, room, 4096) {
        return Err(refused(12, 1, 0));
    }
    if !buffers_hold(room, first, second) {
        return Err(refused(13, 1, 0));
    }
    Ok(())
}
