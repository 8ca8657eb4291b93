// A report: document 01's numbers for what a call answers. A number without meaning is 0.
ghost use Rattle.std.specs.Prelude.{◌≡◌, ◌<◌, eqb, not};
ghost use Rattle.bridge.specs.Report.{const_number, refusal_report, ending_report, report_words};

use words::base::Base;

#[derive(Clone, Copy)]
pub struct Report {
    // The refusal's number, what it is about (1 the program, 2 the question), and the byte place there.
    pub number: u32,
    pub about: u32,
    pub place: u32,
    // 1 value, 2 exception, 3 stuck, 4 out of steps, 5 too deep, 6 too big.
    pub ending: u32,
    // k of a value, the exception's number, or s of a stuck ending.
    pub amount: u32,
    // 1 zero, 2 true, 3 false.
    pub base: u32,
    pub steps: u32,
}

impl Report {
    // Whether the call refused: an answer has the number 0.
    pub fn is_refusal(self) -> bool
        ensures { result ≡ not (eqb self.number 0) }
    {
        self.number != 0
    }
}

// Its words, in the order in which C reads them.
impl From<Report> for [u32; 7] {
    ghost from_gives = { λ report words. words ≡ report_words report };

    #[tactic(auto, unfolding(crate::specs::Report::report_words))]
    fn from(report: Report) -> [u32; 7]
        ensures { result ≡ report_words report }
    {
        [
            report.number,
            report.about,
            report.place,
            report.ending,
            report.amount,
            report.base,
            report.steps,
        ]
    }
}

#[tactic(auto, unfolding(crate::specs::Report::refusal_report))]
pub fn refused(number: u32, about: u32, place: u32) -> Report
    ensures { result ≡ refusal_report number about place }
{
    Report {
        number,
        about,
        place,
        ending: 0,
        amount: 0,
        base: 0,
        steps: 0,
    }
}

#[tactic(auto, unfolding(crate::specs::Report::ending_report))]
pub fn ended(ending: u32, amount: u32, base: u32, steps: u32) -> Report
    ensures { result ≡ ending_report ending amount base steps }
{
    Report {
        number: 0,
        about: 0,
        place: 0,
        ending,
        amount,
        base,
        steps,
    }
}

// The constant of a value.
pub(crate) fn const_number(base: Base) -> u32
    ensures { result ≡ const_number base }
{
    match base {
        Base::Zero => 1,
        Base::True => 2,
        Base::False => 3,
    }
}
