// The run in two lent buffers that take turns. It takes any way to make its rounds; `InPlace` makes steps in place as long as it can.
ghost use Rattle.std.specs.Prelude.{◌≤◌, length, take};
ghost use Rattle.step.specs.Next.{next_by};
ghost use Rattle.turns.specs.Run.{ran_of, run, run_from, Leaves};

use crate::buffers::Buffers;
use crate::round::{Outcome, Round, decide};
use in_place::pass;
use place::Trail;
use rules::lists::Lists;
use rules::search::Search;
use splice::term::Term;
use step::next_into;
use words::slices::{copy_into, zero_from};

// How a run ends.
#[derive(Clone, Copy)]
pub enum Ending {
    // Nothing fits any more.
    Done,
    // The steps are used up.
    Out,
    // The next term does not fit the room.
    Big,
}

// How a run ended, after how many steps, and the words of its last term.
#[derive(Clone, Copy)]
pub struct Ran {
    pub ending: Ending,
    pub steps: usize,
    pub len: usize,
}

// A round of steps in place, as long as the next ones are of that kind and there are steps left, and then a turn.
pub struct InPlace;

impl Round for InPlace {
    #[tactic(auto, using(crate::proofs::Runs::round_laws))]
    fn round(
        search: Search,
        term: &mut [u16],
        other: &mut [u16],
        room: usize,
        steps: usize,
        allowance: usize,
        trail: &mut Trail,
    ) -> Outcome {
        let passed = pass(search, term, room, allowance - steps, trail);
        let done = steps + passed.steps;
        let made = next_into(search.lists, passed.site, Term { words: term, room }, other);
        Outcome {
            next: decide(made, done, allowance),
            steps: done,
        }
    }
}

// A run: the first buffer begins with the term of len words; at the end it holds the last term that fitted, then zeros up to the
// room, and the second zeros up to the room. Words past the room are untouched.
pub fn run_in<R: Round>(
    lists: Lists,
    first: &mut [u16],
    second: &mut [u16],
    len: usize,
    allowance: usize,
    room: usize,
) -> Ran
    requires len_le_room { (len ≤ room) × ((room ≤ length first.old) × ((room ≤ length second.old) × (room ≤ 4096))) }
    requires allowance_bound { allowance ≤ 1000000 }
    ensures { Leaves ran_of (run (next_by lists.entry) room allowance 0 (take len first.old)) room result first.old first.new second.old second.new }
{
    let mut buffers = Buffers {
        term: first,
        other: second,
        flip: false,
        size: len,
        room,
    };
    buffers.run::<R>(lists, allowance)
}

// A run from a term that is handed over, in two lent buffers of at least the room, its rounds made in any of the ways.
pub fn start_by<R: Round>(
    lists: Lists,
    term: &[u16],
    first: &mut [u16],
    second: &mut [u16],
    allowance: usize,
    room: usize,
) -> Ran
    requires room_in_bounds { (room ≤ length first.old) × ((room ≤ length second.old) × (room ≤ 4096)) }
    requires allowance_bound { allowance ≤ 1000000 }
    ensures { Leaves ran_of (run_from (next_by lists.entry) room allowance term.now) room result first.old first.new second.old second.new }
{
    let len = term.len();
    if room < len {
        zero_from(first, 0, room);
        zero_from(second, 0, room);
        return Ran {
            ending: Ending::Big,
            steps: 0,
            len: 0,
        };
    }
    copy_into(first, term);
    run_in::<R>(lists, first, second, len, allowance, room)
}
