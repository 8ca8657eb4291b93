// Does a rule's left side fit the words of a term, and which of the words does each of its variables take?
ghost use Rattle.std.specs.Prelude.{◌≡◌, replicate};
ghost use Rattle.rules.specs.Matching.{no_words, takes, fits, binds};
ghost use Rattle.theory.specs.Words.{is_var};

use crate::index::Span;
use words::symbols::{LAST_VARIABLE, VARIABLE};
use words::terms::skip;

// Whether a word is a variable's.
pub fn is_var(w: u16) -> bool
    ensures { result ≡ is_var w }
{
    (VARIABLE..=LAST_VARIABLE).contains(&w)
}

// Where each variable's words stand in the subject, a slot for each of eight variables; a variable that the left side has not takes none.
pub type Bound = [Span; 8];

// The place past what the left side's word p takes of the subject from j on: a variable a whole term, any other word itself.
#[tactic(auto, using(std::proofs::lemmas::Bool::Decides::nat_tests), unfolding(crate::specs::Matching::takes))]
fn take_word(arities: &[u8], p: u16, subject: &[u16], j: usize) -> Option<usize>
    ensures { result ≡ takes arities.now subject.now p j }
{
    if is_var(p) {
        return skip(arities, subject, j);
    }
    if j < subject.len() && p == subject[j] {
        return Some(j + 1);
    }
    None
}

// Whether the term at the front of subject fits the left side.
#[tactic(auto, using(crate::proofs::Takes::fit_steps))]
pub fn does_fit(arities: &[u8], left: &[u16], subject: &[u16]) -> bool
    ensures { result ≡ fits arities.now subject.now left.now 0 }
{
    let mut j = 0;
    for &p in left {
        let Some(e) = take_word(arities, p, subject, j) else {
            return false;
        };
        j = e;
    }
    true
}

// The words of subject that the left side's variables take.
#[tactic(auto, using(crate::proofs::Takes::bind_steps))]
pub fn bind(arities: &[u8], left: &[u16], subject: &[u16]) -> Bound
    ensures { result ≡ binds arities.now subject.now left.now 0 (replicate 8 no_words) }
{
    let mut bound = [Span::EMPTY; 8];
    let mut j = 0;
    for &p in left {
        let Some(e) = take_word(arities, p, subject, j) else {
            return bound;
        };
        if is_var(p) {
            bound[usize::from(p - VARIABLE)] = Span { from: j, to: e };
        }
        j = e;
    }
    bound
}
