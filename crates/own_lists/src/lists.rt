// A program's own list by way of the checker.
ghost use Rattle.std.specs.Prelude.{◌≡◌};
ghost use Rattle.own_lists.specs.declared.lists.NoList.TheVariants.{Refused};
ghost use Rattle.own_lists.specs.Lists.{list_length, list_answer, list_written};

use checker::refusal::Refusal;
use translator::Source;

// Why there is no list: the program is refused, or the slice is shorter than the list.
#[derive(Clone, Copy)]
pub enum NoList {
    Refused,
    Short,
}

// A program that the checker refuses has no list, whatever its reason.
impl From<Refusal> for NoList {
    ghost from_gives = { λ _ e. e ≡ Refused };

    fn from(_refusal: Refusal) -> NoList {
        NoList::Refused
    }
}

// The own list, into dst where it fits; how many words are written.
#[tactic(auto, using(crate::proofs::Answers::answer_refused, crate::proofs::Answers::written_refused, crate::proofs::Answers::answer_read))]
pub(crate) fn write_list(program: &[u8], dst: &mut [u16]) -> Result<usize, NoList>
    ensures value { result ≡ list_answer program.now dst.old }
    ensures dst_after { dst.new ≡ list_written program.now dst.old }
{
    let checked = checker::check_program(program)?;
    translator::own_list(&Source::of(program, &checked), dst).ok_or(NoList::Short)
}

// How many words it is; `None` for a program that is refused.
#[tactic(auto, using(crate::proofs::Answers::length_refused))]
pub(crate) fn list_length(program: &[u8]) -> Option<usize>
    ensures { result ≡ list_length program.now }
{
    let checked = checker::check_program(program).ok()?;
    Some(translator::own_length(&Source::of(program, &checked)))
}

// The words of a question to the program, into dst; how many they are, or why there are none.
#[tactic(auto, using(checker::proofs::Callers::within, translator::proofs::Given::asked))]
pub(crate) fn write_question(
    program: &[u8],
    question: &[u8],
    dst: &mut [u16],
) -> Result<usize, NoList> {
    let checked = checker::check_program(program)?;
    checker::check_question(question, checked.exceptions, checked.own_arities())?;
    let arities = &checked.arities;
    if dst.len() < translator::question_length(arities, question) {
        return Err(NoList::Short);
    }
    Ok(translator::question_words(arities, question, dst))
}
