// The rewriter, on what it is lent for an accepted program and question, and its answer as a report.
ghost use Rattle.std.specs.Prelude.{◌≡◌, ◌≤◌, length};
ghost use Rattle.theory.specs.Answers.{rewrite};
ghost use Rattle.bridge.specs.Accepted.{Accepts, Runs, own_words};
ghost use Rattle.bridge.specs.Calls.{Leaves};
ghost use Rattle.bridge.specs.RewriterReport.{rewriting_report, Fits};

use crate::accepted::Accepted;
use crate::report::{Report, const_number, ended, refused};
use rewriter::Answer;
use rewriter::ending::Said;
use rules::index::index_of;
use rules::table::standing_list;

#[tactic(auto, unfolding(crate::specs::RewriterReport::rewriting_report))]
fn answer_report(answer: Answer) -> Report
    requires { Fits answer }
    ensures { result ≡ rewriting_report answer }
{
    let steps = answer.steps as u32;
    match answer.said {
        Said::Value(k, base) => ended(1, k as u32, const_number(base), steps),
        Said::Raised(e) => ended(2, u32::from(e), 0, steps),
        Said::Stuck(s) => ended(3, s as u32, 0, steps),
        Said::Out => ended(4, 0, 0, steps),
        Said::Big => ended(6, 0, 0, steps),
    }
}

impl Accepted<'_> {
    // The rewriter's answer, and its two buffers afterwards, where the program's own list is lent.
    fn rewrite_listed(
        &self,
        own: &[u16],
        steps: u32,
        room: u32,
        first: &mut [u16],
        second: &mut [u16],
    ) -> Report
        requires own_is { (a : Accepts self.now.program.now self.now.question.now self.now.checked) → own.now ≡ own_words a.checks.book }
        requires steps_bound { (steps ≤ 1000000) × (room ≤ 4096) × (room ≤ length first.old) × (room ≤ length second.old) }
        ensures { (a : Accepts self.now.program.now self.now.question.now self.now.checked) → Runs a steps room first.old second.old result first.new second.new }
    {
        let standing = standing_list();
        let standing_index = index_of(&standing);
        let own_index = index_of(own);
        let lists = self.lists(&standing, &standing_index, own, &own_index);
        let mut asked = [0u16; 512];
        let n = self.question_words(&mut asked);
        let steps = steps as usize;
        let answer = rewriter::rewrite(lists, &asked[..n], first, second, steps, room as usize);
        answer_report(answer)
    }

    // Where the own list fits its slice too, it is written, and the rewriter runs.
    pub(crate) fn rewrite(
        &self,
        steps: u32,
        room: u32,
        own: &mut [u16],
        first: &mut [u16],
        second: &mut [u16],
    ) -> Report
        requires { (steps ≤ 1000000) × (1 ≤ room) × (room ≤ 4096) × (room ≤ length first.old) × (room ≤ length second.old) }
        ensures { Leaves (rewrite self.now.program.now self.now.question.now steps room own.old first.old second.old) result own.new first.new second.new }
    {
        match self.own_words(own) {
            Some(m) => self.rewrite_listed(&own[..m], steps, room, first, second),
            None => refused(13, 1, 0),
        }
    }
}
