// The hosts' door: the two calls with the report as seven words of a slice that is lent. The static library bridge_c hands them to C.
ghost use Rattle.std.specs.Prelude.{◌≡◌, ◌≤◌, length};
ghost use Rattle.theory.specs.Buffers.{over};
ghost use Rattle.theory.specs.Answers.{evaluate, rewrite};
ghost use Rattle.bridge.specs.Report.{report_words};
ghost use Rattle.bridge.specs.Calls.{told, Opens};

use crate::report::Report;
use crate::{evaluate, rewrite};

// A report's words into the first seven of a slice.
#[tactic(auto, using(crate::proofs::Telling::words_told))]
fn tell(report: &mut [u32], r: Report)
    requires { 7 ≤ length report.old }
    ensures { report.new ≡ over (report_words r) report.old }
{
    report[..7].copy_from_slice(&<[u32; 7]>::from(r));
}

#[tactic(auto, using(crate::proofs::Telling::told_short, crate::proofs::Telling::told_long))]
pub fn puffinest_evaluate(
    program: &[u8],
    question: &[u8],
    steps: u32,
    levels: u32,
    report: &mut [u32],
)
    ensures { report.new ≡ told (evaluate program.now question.now steps levels) report.old }
{
    if report.len() < 7 {
        return;
    }
    let r = evaluate(program, question, steps, levels);
    tell(report, r);
}

pub fn puffinest_rewrite(
    program: &[u8],
    question: &[u8],
    steps: u32,
    room: u32,
    own: &mut [u16],
    first: &mut [u16],
    second: &mut [u16],
    report: &mut [u32],
)
    ensures { Opens (rewrite program.now question.now steps room own.old first.old second.old) own.old first.old second.old report.old own.new first.new second.new report.new }
{
    if report.len() < 7 {
        return;
    }
    let r = rewrite(program, question, steps, room, own, first, second);
    tell(report, r);
}
