// The run in which every step goes from the buffer that holds the term into the other, and none is made in place: each turn finds the
// site in the one buffer, writes the next term into the other, and decides what follows.
ghost use Rattle.std.specs.Prelude.{◌≡◌, ◌≤◌, ◌<◌, length};
ghost use Rattle.place.specs.Noted.{OnPath};
ghost use Rattle.step.specs.Next.{next_by};
ghost use Rattle.turns.specs.Run.{Rounded, ran_of, run_from, Leaves};

use crate::round::{Outcome, Round, decide};
use crate::run::{Ran, start_by};
use place::Trail;
use rules::lists::Lists;
use rules::search::Search;
use splice::term::Term;
use step::next_into;

// A round of one turn, and no step in place: the buffer that holds the term is as it was, and one step at the most is made, into the other.
pub struct EachStep;

impl Round for EachStep {
    #[tactic(auto, using(crate::proofs::Runs::round_laws))]
    fn round(
        search: Search,
        term: &mut [u16],
        other: &mut [u16],
        room: usize,
        steps: usize,
        allowance: usize,
        trail: &mut Trail,
    ) -> Outcome
        requires term_len_bound { (length term.old ≤ room) × ((room ≤ length other.old) × ((room ≤ 65536) × (room < length trail.old.places.now))) }
        requires on_path { OnPath search.lists.arities.now term.old trail.old.places.now trail.old.last }
        requires steps_le_allowance { (steps ≤ allowance) × (allowance ≤ 1000000) }
        ensures rounded { Rounded search.entry.lists.arities.now (next_by search.entry.lists) room steps allowance term.old other.old term.new other.new trail.new result }
        ensures kept { length trail.new.places.now ≡ length trail.old.places.now }
        ensures lent { trail.new.places.ghost_name ≡ trail.old.places.ghost_name }
        ensures each { (term.new ≡ term.old) × (result.steps ≡ steps) }
    {
        let site = trail.site_on(search, term);
        let made = next_into(search.lists, site, Term { words: term, room }, other);
        Outcome {
            next: decide(made, steps, allowance),
            steps,
        }
    }
}

// The run from a term that is handed over, in two lent buffers of at least the room: what `start_by::<InPlace>` answers and leaves in them.
pub fn start_each(
    lists: Lists,
    term: &[u16],
    first: &mut [u16],
    second: &mut [u16],
    allowance: usize,
    room: usize,
) -> Ran
    requires room_in_bounds { (room ≤ length first.old) × ((room ≤ length second.old) × (room ≤ 4096)) }
    requires allowance_bound { allowance ≤ 1000000 }
    ensures { Leaves ran_of (run_from (next_by lists.entry) room allowance term.now) room result first.old first.new second.old second.new }
{
    start_by::<EachStep>(lists, term, first, second, allowance, room)
}
