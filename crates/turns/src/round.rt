// A round of a run: from the buffer that holds the term, the next term is made in the other, and what follows is decided. There is more
// than one way to make a round; a run takes any of them.
ghost use Rattle.std.specs.Prelude.{◌≡◌, ◌≤◌, ◌<◌, length};
ghost use Rattle.place.specs.Noted.{OnPath};
ghost use Rattle.step.specs.Next.{next_by};
ghost use Rattle.turns.specs.Run.{Rounded, decided};

use crate::run::Ending;
use place::Trail;
use rules::search::Search;
use std::ops::ControlFlow;
use step::Next;

// Where a run stops: how it ends, and after how many steps.
#[derive(Clone, Copy)]
pub struct Stop {
    pub ending: Ending,
    pub steps: usize,
}

// What a round comes to: the run stops, or it goes on with a term of so many words; and the steps made up to the
// round's turn.
#[derive(Clone, Copy)]
pub struct Outcome {
    pub next: ControlFlow<Stop, usize>,
    pub steps: usize,
}

// A way to make a round.
pub trait Round {
    // A round from the term, with so many steps made before: it is changed where it stands, and the next one made in the other buffer. The
    // trail leads to the place that was rewritten last, and then to the one that the turn rewrites.
    fn round(
        search: Search,
        term: &mut [u16],
        other: &mut [u16],
        room: usize,
        steps: usize,
        allowance: usize,
        trail: &mut Trail,
    ) -> Outcome
        requires term_len_bound { (length term.old ≤ room) × ((room ≤ length other.old) × ((room ≤ 65536) × (room < length trail.old.places.now))) }
        requires on_path { OnPath search.lists.arities.now term.old trail.old.places.now trail.old.last }
        requires steps_le_allowance { (steps ≤ allowance) × (allowance ≤ 1000000) }
        ensures rounded { Rounded search.entry.lists.arities.now (next_by search.entry.lists) room steps allowance term.old other.old term.new other.new trail.new result }
        ensures kept { length trail.new.places.now ≡ length trail.old.places.now }
        ensures lent { trail.new.places.ghost_name ≡ trail.old.places.ghost_name };
}

// What follows a turn after so many steps: where nothing fits, the run is done; else where the steps are used up, it is out of them;
// else where the next term does not fit the room, it is too big, that step counted; else it goes on.
#[tactic(auto, unfolding(crate::specs::Run::decided))]
pub(crate) fn decide(next: Next, steps: usize, allowance: usize) -> ControlFlow<Stop, usize>
    ensures { result ≡ decided next steps allowance }
{
    match next {
        Next::Nothing => ControlFlow::Break(Stop {
            ending: Ending::Done,
            steps,
        }),
        _ if allowance <= steps => ControlFlow::Break(Stop {
            ending: Ending::Out,
            steps,
        }),
        Next::Over => ControlFlow::Break(Stop {
            ending: Ending::Big,
            steps: steps + 1,
        }),
        Next::Made(n) => ControlFlow::Continue(n),
    }
}
