// A stored list with its index: the rules of a root as a part of the list, and the first of them that fits.
ghost use Rattle.std.specs.Prelude.{◌≡◌};
ghost use Rattle.rules.specs.Index.{rules_with};
ghost use Rattle.rules.specs.Finding.{first_at};

use crate::finding::first_in;
use crate::index::{Span, span_of};
use words::slices::get_or;

#[derive(Clone, Copy)]
pub struct Indexed<'a> {
    pub list: &'a [u16],
    pub index: &'a [Span],
}

impl<'a> Indexed<'a> {
    // The rules with the root w; an empty part where there are none.
    #[tactic(auto, unfolding(crate::specs::Index::rules_with))]
    pub fn rules_with(self, w: u16) -> &'a [u16]
        ensures { result.now ≡ rules_with self.entry.list.now self.entry.index.now w }
    {
        span_of(self.index, self.list.len(), w).map_or(&[], |span| span.part_of(self.list))
    }

    // The first rule that fits among those of the subject's root. Most roots have rules in one list only: the other is not searched, and
    // left by a test in the caller's place.
    #[inline(always)]
    #[tactic(auto, unfolding(crate::specs::Finding::first_at))]
    pub(crate) fn first_at(self, arities: &[u8], subject: &[u16]) -> Option<Span>
        ensures { result ≡ first_at arities.now self.entry.list.now self.entry.index.now subject.now }
    {
        let w = get_or(subject, 0, 0);
        let span = span_of(self.index, self.list.len(), w)?;
        first_in(arities, self.list, span, subject)
    }
}
