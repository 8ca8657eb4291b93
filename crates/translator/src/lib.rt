// An accepted program's own list of rewrite rules, and a question's words, written from the start of a lent slice.
#![tactic(auto)]

mod lengths;
mod program;
mod rules;

ghost use Rattle.std.specs.Prelude.{◌≡◌, ◌≤◌, Ok, length};
ghost use Rattle.theory.specs.Buffers.{over};
ghost use Rattle.theory.specs.Bytes.{read_program};
ghost use Rattle.checker.specs.Answer.{checked_of};
ghost use Rattle.translator.specs.Accepted.{Accepted, OfOwnList, Asked, OfQuestion};
ghost use Rattle.translator.specs.Answered.{answered, filled};

use checker::Checked;
use generated::writing::Writer;
use program::Ready;
use term_words::TermBytes;

// A program's bytes, with what the checker hands over once it has accepted them: the arities by function number, the openings of the
// rules, and how many exceptions and functions are declared.
#[derive(Clone, Copy)]
pub struct Source<'a> {
    pub arities: &'a [u8],
    pub program: &'a [u8],
    pub openings: &'a [usize],
    pub exceptions: usize,
    pub functions: usize,
}

impl<'a> Source<'a> {
    // An accepted program with what the checker reads of it.
    #[tactic(auto, using(checker::proofs::Callers::within, crate::proofs::Given::given))]
    pub fn of(program: &'a [u8], checked: &'a Checked) -> Source<'a>
        requires { Ok checked.now ≡ checked_of (read_program program.now) }
        ensures same_program { result.program ≡ program.entry }
        ensures accepted { Accepted result }
    {
        Source {
            arities: &checked.arities,
            program,
            openings: checked.own_openings(),
            exceptions: checked.exceptions,
            functions: checked.functions,
        }
    }

    // The bytes in which its terms stand.
    pub(crate) fn terms(&self) -> TermBytes<'a>
        ensures { result ≡ record { arities = self.now.arities; bytes = self.now.program } }
    {
        TermBytes {
            arities: self.arities,
            bytes: self.program,
        }
    }
}

// How many words an accepted program's own list is.
pub fn own_length(source: &Source) -> usize
    requires { Accepted source.now }
    ensures { OfOwnList source.now.program.now (λ ws. result ≡ length ws) }
{
    Ready::of(source).list_length()
}

// That list, written where it fits: how many words it is. None where the slice is shorter, and then nothing is written.
pub fn own_list(source: &Source, dst: &mut [u16]) -> Option<usize>
    requires { Accepted source.now }
    ensures of_own_list { OfOwnList source.now.program.now (λ ws. result ≡ answered ws dst.old) }
    ensures of_own_list_2 { OfOwnList source.now.program.now (λ ws. dst.new ≡ filled ws dst.old) }
{
    let ready = Ready::of(source);
    if dst.len() < ready.list_length() {
        return None;
    }
    let mut out = Writer::new(dst);
    ready.put_list(&mut out);
    Some(out.written())
}

// How many words an accepted question is.
pub fn question_length(arities: &[u8], question: &[u8]) -> usize
    requires { Asked arities.now question.now }
    ensures { OfQuestion arities.now question.now (λ ws. result ≡ length ws) }
{
    let terms = TermBytes {
        arities,
        bytes: question,
    };
    terms.size_of(0, 1).words
}

// Those words, into a slice that is long enough; how many they are.
pub fn question_words(arities: &[u8], question: &[u8], dst: &mut [u16]) -> usize
    requires asked { Asked arities.now question.now }
    requires of_question { OfQuestion arities.now question.now (λ ws. length ws ≤ length dst.old) }
    ensures of_question_2 { OfQuestion arities.now question.now (λ ws. result ≡ length ws) }
    ensures of_question_3 { OfQuestion arities.now question.now (λ ws. dst.new ≡ over ws dst.old) }
{
    let terms = TermBytes {
        arities,
        bytes: question,
    };
    let mut out = Writer::new(dst);
    terms.put_term(0, &mut out);
    out.written()
}
