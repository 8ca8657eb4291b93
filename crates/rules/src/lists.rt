// The two stored lists that a term is rewritten by, and the numbers of parts: what is lent for one program. The rule that fits is looked for
// in the standing list before the own one.
ghost use Rattle.std.specs.Prelude.{◌≡◌, length};
ghost use Rattle.rules.specs.Finding.{RuleWithin, Handed};
ghost use Rattle.rules.specs.Lists.{fitting_by};

use crate::finding::Fitting;
use crate::index::Span;
use crate::indexed::Indexed;

#[derive(Clone, Copy)]
pub struct Lists<'a> {
    // Function k has arities[k] parts.
    pub arities: &'a [u8],
    pub standing: Indexed<'a>,
    pub own: Indexed<'a>,
}

impl<'a> Lists<'a> {
    // Where the rule that fits stands, among those of the subject's root.
    #[tactic(auto, unfolding(crate::specs::Finding::fitting_of))]
    pub fn find(self, subject: &[u16]) -> Option<Fitting>
        ensures { result ≡ fitting_by self.entry subject.now }
    {
        match self.standing.first_at(self.arities, subject) {
            Some(rule) => Some(Fitting::Standing(rule)),
            None => self.own.first_at(self.arities, subject).map(Fitting::Own),
        }
    }

    // A rule that was found, handed back as a part of the list that holds it; an empty part of the own list's start where none was.
    #[tactic(auto, unfolding(crate::specs::Finding::Handed))]
    pub fn rule(self, fitting: Option<Fitting>) -> &'a [u16]
        requires { RuleWithin fitting (length self.standing.list.now) (length self.own.list.now) }
        ensures { Handed self.entry.standing.list self.entry.own.list result fitting }
    {
        match fitting {
            Some(Fitting::Standing(rule)) => rule.part_of(self.standing.list),
            Some(Fitting::Own(rule)) => rule.part_of(self.own.list),
            None => Span::EMPTY.part_of(self.own.list),
        }
    }
}
