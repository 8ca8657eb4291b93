// The lists with the answer whether they are the usual ones, which is asked once for the many searches of a run.
ghost use Rattle.std.specs.Prelude.{◌≡◌, true};
ghost use Rattle.rules.specs.Usual.{Usual};

use crate::lists::Lists;

#[derive(Clone, Copy)]
pub struct Search<'a> {
    pub lists: Lists<'a>,
    pub usual: bool,
    pub ghost known: { usual ≡ true → Usual lists.standing.list.now lists.standing.index.now lists.own.index.now },
}

impl<'a> Search<'a> {
    pub fn over(lists: Lists<'a>) -> Search<'a>
        ensures { result.lists ≡ lists.entry }
    {
        Search {
            lists,
            usual: lists.is_usual(),
        }
    }
}
