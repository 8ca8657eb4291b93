// Stored rules, one after the other in a list of words: each is a left count, a right count, and then so many words of either side.
ghost use Rattle.std.specs.Prelude.{◌≤◌, length, MatchOption};
ghost use Rattle.rules.specs.Stored.{NoneStored, StoredAt};

use crate::index::Span;
use words::slices::get_or;

// A rule of a stored list: where the words of its left side stand, and the place past it.
#[derive(Clone, Copy)]
pub struct Stored {
    pub left: Span,
    pub past: usize,
}

// The rule at a place of a stored list; None where the list ends, or the rule's counts lead past its end.
pub fn stored_at(list: &[u16], at: usize) -> Option<Stored>
    requires { at ≤ length list.now }
    ensures { MatchOption result (NoneStored list.now at) (λ r. StoredAt list.now at r) }
{
    let l = usize::from(get_or(list, at, 0));
    let r = usize::from(get_or(list, at + 1, 0));
    let from = at + 2;
    let past = from + (l + r);
    if list.len() < past {
        return None;
    }
    Some(Stored {
        left: Span { from, to: from + l },
        past,
    })
}
