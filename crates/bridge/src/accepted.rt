// A program and a question that are accepted, and what an engine is lent for them.
ghost use Rattle.std.specs.Prelude.{◌≡◌, ◌≤◌, Ok, length};
ghost use Rattle.theory.specs.Buffers.{over};
ghost use Rattle.translator.specs.Answered.{answered, filled};
ghost use Rattle.rules.specs.Index.{index_of};
ghost use Rattle.bridge.specs.Judged.{judged_as};
ghost use Rattle.bridge.specs.Accepted.{Accepts, Lends, own_words, question_words, standing_words};

use checker::Checked;
use rules::index::Index;
use rules::indexed::Indexed;
use rules::lists::Lists;
use translator::Source;

// Both, with what is read of the program.
#[derive(Drop)]
pub(crate) struct Accepted<'a> {
    pub(crate) program: &'a [u8],
    pub(crate) question: &'a [u8],
    pub(crate) checked: Checked,
    ghost judged: { Ok checked ≡ judged_as program.now question.now },
}

impl Accepted<'_> {
    // The program's own list, from the start of a slice, and how many words it is; none where the slice is shorter, and then nothing is
    // written.
    pub(crate) fn own_words(&self, dst: &mut [u16]) -> Option<usize>
        ensures value { (a : Accepts self.now.program.now self.now.question.now self.now.checked) → result ≡ answered (own_words a.checks.book) dst.old }
        ensures dst_after { (a : Accepts self.now.program.now self.now.question.now self.now.checked) → dst.new ≡ filled (own_words a.checks.book) dst.old }
    {
        translator::own_list(&Source::of(self.program, &self.checked), dst)
    }

    // The question's words, of which no accepted question has more than 512, and how many they are.
    pub(crate) fn question_words(&self, dst: &mut [u16]) -> usize
        requires { 512 ≤ length dst.old }
        ensures value { (a : Accepts self.now.program.now self.now.question.now self.now.checked) → result ≡ length (question_words a.term) }
        ensures dst_after { (a : Accepts self.now.program.now self.now.question.now self.now.checked) → dst.new ≡ over (question_words a.term) dst.old }
    {
        translator::question_words(&self.checked.arities, self.question, dst)
    }

    // The two lists, each with its index. A value that held the indexes would be copied, which takes longer than a short question.
    pub(crate) fn lists<'a>(
        &'a self,
        standing: &'a [u16],
        standing_index: &'a Index,
        own: &'a [u16],
        own_index: &'a Index,
    ) -> Lists<'a>
        requires standing_is { standing.now ≡ standing_words }
        requires standing_indexed { standing_index.now ≡ index_of standing.now }
        requires own_is { (a : Accepts self.now.program.now self.now.question.now self.now.checked) → own.now ≡ own_words a.checks.book }
        requires own_indexed { own_index.now ≡ index_of own.now }
        ensures { (a : Accepts self.now.program.now self.now.question.now self.now.checked) → Lends a.checks.book result }
    {
        Lists {
            arities: &self.checked.arities,
            standing: Indexed {
                list: standing,
                index: standing_index,
            },
            own: Indexed {
                list: own,
                index: own_index,
            },
        }
    }
}
