// The evaluator, on what it is lent for an accepted program and question, and its answer as a report.
ghost use Rattle.std.specs.Prelude.{◌≡◌, ◌<◌, ◌≤◌, IfSome, None, length};
ghost use Rattle.theory.specs.Bytes.{program_of};
ghost use Rattle.theory.specs.Cost.{evaluator};
ghost use Rattle.theory.specs.Answers.{evaluate};
ghost use Rattle.bridge.specs.Report.{answer_report, report_of};
ghost use Rattle.bridge.specs.Accepted.{Accepts, own_words};
ghost use Rattle.bridge.specs.EvaluatorReport.{outcome_report};

use crate::accepted::Accepted;
use crate::report::{Report, const_number, ended, refused};
use evaluator::values::{Ending, Outcome};
use rules::index::index_of;
use rules::table::standing_list;

// An outcome in a report's numbers.
impl From<Outcome> for Report {
    ghost from_gives = { λ outcome report. report ≡ outcome_report outcome };

    #[tactic(auto, unfolding(crate::specs::EvaluatorReport::outcome_report))]
    fn from(outcome: Outcome) -> Report
        ensures { result ≡ outcome_report outcome }
    {
        let steps = outcome.steps;
        match outcome.end {
            Ending::Done(v) => ended(1, v.succs, const_number(v.base), steps),
            Ending::Raised(e) => ended(2, u32::from(e), 0, steps),
            Ending::Stuck(s) => ended(3, s, 0, steps),
            Ending::Out => ended(4, 0, 0, steps),
            Ending::Deep => ended(5, 0, 0, steps),
        }
    }
}

impl Accepted<'_> {
    // The evaluator's answer, where the program's own list is lent.
    fn evaluate_listed(&self, own: &[u16], steps: u32, levels: u32) -> Report
        requires own_is { (a : Accepts self.now.program.now self.now.question.now self.now.checked) → own.now ≡ own_words a.checks.book }
        requires steps_bound { (steps ≤ 1000000) × (levels ≤ 1000) }
        ensures { (a : Accepts self.now.program.now self.now.question.now self.now.checked) → result ≡ answer_report (evaluator (program_of a.checks.book) levels steps a.term) }
    {
        let standing = standing_list();
        let standing_index = index_of(&standing);
        let own_index = index_of(own);
        let lists = self.lists(&standing, &standing_index, own, &own_index);
        let mut asked = [0u16; 512];
        let n = self.question_words(&mut asked);
        let outcome = evaluator::evaluate(&asked[..n], lists, levels as usize, steps);
        Report::from(outcome)
    }

    // The same, where the own list fits an array of so many words; else none.
    fn evaluate_within<const WORDS: usize>(&self, steps: u32, levels: u32) -> Option<Report>
        requires words_bound { WORDS ≤ 65536 }
        requires steps_bound { (steps ≤ 1000000) × (levels ≤ 1000) }
        ensures answers { (a : Accepts self.now.program.now self.now.question.now self.now.checked) → IfSome result (λ r. r ≡ answer_report (evaluator (program_of a.checks.book) levels steps a.term)) }
        ensures short { (a : Accepts self.now.program.now self.now.question.now self.now.checked) → result ≡ None → WORDS < length (own_words a.checks.book) }
    {
        let mut own = [0u16; WORDS];
        let own = &mut own[..];
        let n = self.own_words(own)?;
        Some(self.evaluate_listed(&own[..n], steps, levels))
    }

    // The evaluator's answer. The own list of most books fits the first array, which is sooner filled with zeros; no own list is longer
    // than the second.
    pub(crate) fn evaluate(&self, steps: u32, levels: u32) -> Report
        requires { (steps ≤ 1000000) × (1 ≤ levels) × (levels ≤ 1000) }
        ensures { result ≡ report_of (evaluate self.now.program.now self.now.question.now steps levels) }
    {
        if let Some(report) = self.evaluate_within::<1024>(steps, levels) {
            return report;
        }
        self.evaluate_within::<15504>(steps, levels)
            .unwrap_or(refused(13, 1, 0))
    }
}
