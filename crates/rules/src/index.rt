// An index of a stored list by root symbol, so that a search looks only at the rules that can fit.
ghost use Rattle.std.specs.Prelude.{◌≡◌, ◌≤◌, ◌-◌, length, IfSome};
ghost use Rattle.words.specs.Parts.{PartOf};
ghost use Rattle.rules.specs.Index.{slot_of, extended, clipped, index_of, span_of, at_slot};

use crate::stored_rule::stored_at;
use words::slices::get_or;
use words::symbols::FUNCTION;

// A part of a list: from one place to another.
#[derive(Clone, Copy, PartialEq, Eq)]
pub struct Span {
    pub from: usize,
    pub to: usize,
}

impl Span {
    // No words.
    pub(crate) const EMPTY: Span = Span { from: 0, to: 0 };

    // The words there.
    pub fn part_of<'a>(self, list: &'a [u16]) -> &'a [u16]
        requires { (self.from ≤ self.to) × (self.to ≤ length list.now) }
        ensures { PartOf list.entry self.from (self.to - self.from) result }
    {
        &list[self.from..self.to]
    }

    // The same places, those past the end of a list of so many words moved to its end.
    #[tactic(auto, using(std::proofs::lemmas::Bool::Decides::nat_tests), unfolding(crate::specs::Index::least_of))]
    fn clipped(self, len: usize) -> Span
        ensures value { result ≡ clipped len self }
        ensures inside { (result.from ≤ result.to) × (result.to ≤ len) }
    {
        let to = self.to.min(len);
        Span {
            from: self.from.min(to),
            to,
        }
    }
}

// For each slot, from the place of the first rule whose root has that slot to the place past the last; an empty part, which ends at 0, where
// there is none. What is read of it is an Option (`at_slot`); a slot that is one itself takes longer to make than a short question can spare.
pub type Index = [Span; 401];

// The slot of a root symbol; all that is neither a small symbol nor a function's shares the last.
#[tactic(auto, using(std::proofs::lemmas::Bool::Decides::nat_tests), unfolding(crate::specs::Index::slot_of))]
pub fn slot_of(w: u16) -> usize
    ensures value { result ≡ slot_of w }
    ensures small { result ≤ 400 }
{
    match w {
        0..=15 => usize::from(w),
        FUNCTION..=639 => usize::from(w - FUNCTION) + 16,
        _ => 400,
    }
}

// Where an index has the rules of a slot; nowhere past its end.
pub(crate) fn at_slot(index: &[Span], slot: usize) -> Option<Span>
    ensures { result ≡ at_slot index.now slot }
{
    let part = get_or(index, slot, Span::EMPTY);
    (0 < part.to).then_some(part)
}

// A slot's part of the list after one more rule, from `at` to `past`.
fn extended(part: Option<Span>, at: usize, past: usize) -> Span
    ensures { result ≡ extended part at past }
{
    let from = part.map_or(at, |span| span.from);
    Span { from, to: past }
}

// The index of a stored list. The pass stops where a rule's counts lead past the end; a rule with no left word stands under the word
// behind its counts.
#[tactic(auto, using(crate::proofs::Pass::pass_steps), unfolding(crate::specs::Index::index_of))]
pub fn index_of(list: &[u16]) -> Index
    ensures { result ≡ index_of list.now }
{
    let mut index = [Span::EMPTY; 401];
    let mut at = 0;
    while let Some(rule) = stored_at(list, at) {
        let slot = slot_of(get_or(list, rule.left.from, 0));
        index[slot] = extended(at_slot(&index, slot), at, rule.past);
        at = rule.past;
    }
    index
}

// The part of a list of so many words in which the rules with the root w stand, clipped to the list whatever the index holds; None where
// there are none.
#[tactic(auto, unfolding(crate::specs::Index::span_of))]
pub fn span_of(index: &[Span], len: usize, w: u16) -> Option<Span>
    ensures value { result ≡ span_of index.now len w }
    ensures inside { IfSome result (λ s. (s.from ≤ s.to) × (s.to ≤ len)) }
{
    let span = at_slot(index, slot_of(w))?;
    Some(span.clipped(len))
}
