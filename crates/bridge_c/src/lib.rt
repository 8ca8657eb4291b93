// The hosts' door under C's calling convention: each function is the one of its name in bridge. A slice passes as its pointer and its length.
#![tactic(auto)]

ghost use Rattle.std.specs.Prelude.{◌≡◌};
ghost use Rattle.theory.specs.Answers.{evaluate, rewrite};
ghost use Rattle.bridge.specs.Calls.{told, Opens};

use bridge::door;

#[unsafe(no_mangle)]
pub extern "C" fn puffinest_evaluate(
    program: &[u8],
    question: &[u8],
    steps: u32,
    levels: u32,
    report: &mut [u32],
)
    ensures { report.new ≡ told (evaluate program.now question.now steps levels) report.old }
{
    door::puffinest_evaluate(program, question, steps, levels, report);
}

#[unsafe(no_mangle)]
pub extern "C" fn puffinest_rewrite(
    program: &[u8],
    question: &[u8],
    steps: u32,
    room: u32,
    own: &mut [u16],
    first: &mut [u16],
    second: &mut [u16],
    report: &mut [u32],
)
    ensures { Opens (rewrite program.now question.now steps room own.old first.old second.old) own.old first.old second.old report.old own.new first.new second.new report.new }
{
    door::puffinest_rewrite(program, question, steps, room, own, first, second, report);
}
