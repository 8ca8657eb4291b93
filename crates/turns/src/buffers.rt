// Two lent buffers that take turns: the term lives in the one, and the next one is made in the other.
ghost use Rattle.std.specs.Prelude.{◌≡◌, ◌≤◌, length, replicate};
ghost use Rattle.theory.specs.Buffers.{over};

use crate::round::{Round, Stop};
use crate::run::Ran;
use place::Trail;
use rules::lists::Lists;
use rules::search::Search;
use std::mem;
use std::ops::ControlFlow;
use words::slices::{copy_into, zero_from};

// The term is the first `size` words of its buffer. It fits the room, and both buffers are at least as long as that. `flip` says whether
// they have changed over, so that the term is in the one that came second.
#[derive(Drop)]
pub(crate) struct Buffers<'b> {
    pub(crate) term: &'b mut [u16],
    pub(crate) other: &'b mut [u16],
    pub(crate) flip: bool,
    pub(crate) size: usize,
    pub(crate) room: usize,
    ghost size_le_room: { size ≤ room },
    ghost room_le_term: { room ≤ length term.now },
    ghost room_le_other: { room ≤ length other.now },
    ghost room_small: { room ≤ 4096 },
}

// Carries the words over to the front of the other buffer, and leaves zeros.
fn carry(from: &mut [u16], to: &mut [u16])
    requires { length from.old ≤ length to.old }
    ensures to_after { to.new ≡ over from.old to.old }
    ensures from_after { from.new ≡ replicate (length from.old) 0 }
{
    copy_into(to, from);
    from.fill(0);
}

impl<'b> Buffers<'b> {
    ghost use Rattle.std.specs.Prelude.{◌≡◌, ◌≤◌, ◌<◌, ◌+◌, false, not, length, get_or, take, drop, replicate};
    ghost use Rattle.theory.specs.Buffers.{over, padded};
    ghost use Rattle.step.specs.Next.{next_by};
    ghost use Rattle.turns.specs.Buffers.{source, first_of, second_of, term_of, Lent};
    ghost use Rattle.turns.specs.Run.{Drove, ran_of, run, Leaves};

    // The buffers change over: the term has so many words, in what was the other one.
    fn change_over(&mut self, size: usize)
        requires { size ≤ self.old.room }
        ensures swapped { (self.new.term ≡ self.old.other) × (self.new.other ≡ self.old.term) }
        ensures size_value { self.new.size ≡ size }
        ensures flipped { self.new.flip ≡ not self.old.flip }
        ensures room_kept { self.new.room ≡ self.old.room }
    {
        mem::swap(&mut self.term, &mut self.other);
        self.flip = !self.flip;
        self.size = size;
    }

    // The rounds of a run, and where it stops. The trail leads to the place that was rewritten last, from the root on.
    fn drive<R: Round>(&mut self, search: Search, allowance: usize, trail: &mut Trail) -> Stop
        requires trail_long { self.old.room < length trail.old.places.now }
        requires at_root { (trail.old.last ≡ 0) × (get_or trail.old.places.now 0 0 ≡ 0) }
        requires allowance_bound { allowance ≤ 1000000 }
        ensures drove { Drove (run (next_by search.entry.lists) self.old.room allowance 0 (term_of self.old)) result self.old self.new }
        ensures lent { Lent self.old self.new }
    {
        let mut steps = 0;
        loop {
            let done = R::round(
                search,
                &mut self.term[..self.size],
                self.other,
                self.room,
                steps,
                allowance,
                trail,
            );
            match done.next {
                ControlFlow::Break(stop) => return stop,
                ControlFlow::Continue(n) => {
                    self.change_over(n);
                    steps = done.steps + 1;
                }
            }
        }
    }

    // Brings the term to the buffer that came first.
    #[tactic(auto, using(crate::proofs::Runs::back_laws))]
    fn bring_back(&mut self)
        ensures flip_value { self.new.flip ≡ false }
        ensures first_after { self.new.term.now ≡ over (term_of self.old) (first_of self.old) }
        ensures second_rest { drop self.old.room self.new.other.now ≡ drop self.old.room (second_of self.old) }
        ensures same { (self.new.size ≡ self.old.size) × (self.new.room ≡ self.old.room) }
        ensures lent { Lent self.old self.new }
    {
        if self.flip {
            carry(&mut self.term[..self.size], self.other);
            self.change_over(self.size);
        }
    }

    // Sets the buffers in order: the term in the one that came first, then zeros; zeros in the other.
    fn tidy(&mut self)
        ensures first_after { self.new.term.now ≡ over (padded self.old.room (term_of self.old)) (first_of self.old) }
        ensures second_after { self.new.other.now ≡ over (replicate self.old.room 0) (second_of self.old) }
        ensures flip_value { self.new.flip ≡ false }
        ensures lent { Lent self.old self.new }
    {
        self.bring_back();
        zero_from(self.term, self.size, self.room);
        zero_from(self.other, 0, self.room);
    }

    // A run from the term. At the end the buffer that came first holds the last term that fitted, then zeros up to the room, and the other
    // zeros up to the room.
    pub(crate) fn run<R: Round>(&mut self, lists: Lists, allowance: usize) -> Ran
        requires allowance_bound { allowance ≤ 1000000 }
        ensures leaves { Leaves ran_of (run (next_by lists.entry) self.old.room allowance 0 (term_of self.old)) self.old.room result (first_of self.old) self.new.term.now (second_of self.old) self.new.other.now }
        ensures lent { (self.new.term.ghost_name ≡ source self.old.flip self.old.term.ghost_name self.old.other.ghost_name) × (self.new.other.ghost_name ≡ source self.old.flip self.old.other.ghost_name self.old.term.ghost_name) }
    {
        let search = Search::over(lists);
        let mut places = [0usize; 4097];
        let mut trail = Trail {
            places: &mut places,
            last: 0,
        };
        let stop = self.drive::<R>(search, allowance, &mut trail);
        let len = self.size;
        self.tidy();
        Ran {
            ending: stop.ending,
            steps: stop.steps,
            len,
        }
    }
}
