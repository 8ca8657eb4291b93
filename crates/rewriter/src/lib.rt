// The rewriter: a question's words are rewritten in two lent buffers until nothing fits, and the ending is read off.
#![tactic(auto)]

pub mod ending;

ghost use Rattle.std.specs.Prelude.{◌≤◌, length};
ghost use Rattle.turns.specs.Run.{Leaves};
ghost use Rattle.rewriter.specs.Read.{answer_w, run_by};

use crate::ending::{Said, said_of};
use rules::lists::Lists;
use turns::each::EachStep;
use turns::round::Round;
use turns::run::{InPlace, start_by};

// How rewriting ended, after how many steps.
#[derive(Clone, Copy, PartialEq, Eq)]
pub struct Answer {
    pub said: Said,
    pub steps: usize,
}

// The answer of rewriting the question, by a run whose rounds are made in any of the ways.
#[tactic(auto, unfolding(crate::specs::Read::run_on))]
fn rewrite_by<R: Round>(
    lists: Lists,
    question: &[u16],
    first: &mut [u16],
    second: &mut [u16],
    allowance: usize,
    room: usize,
) -> Answer
    requires room_in_bounds { (room ≤ length first.old) × ((room ≤ length second.old) × (room ≤ 4096)) }
    requires allowance_bound { allowance ≤ 1000000 }
    ensures { Leaves answer_w (run_by lists.entry question.now room allowance) room result first.old first.new second.old second.new }
{
    let ran = start_by::<R>(lists, question, first, second, allowance, room);
    let said = said_of(ran.ending, &first[..ran.len]);
    Answer {
        said,
        steps: ran.steps,
    }
}

// The answer of rewriting the question within the allowance and the room. At the end the first buffer holds the last term that fitted,
// then zeros up to the room, and the second zeros up to the room; words past the room are untouched.
pub fn rewrite(
    lists: Lists,
    question: &[u16],
    first: &mut [u16],
    second: &mut [u16],
    allowance: usize,
    room: usize,
) -> Answer
    requires room_in_bounds { (room ≤ length first.old) × ((room ≤ length second.old) × (room ≤ 4096)) }
    requires allowance_bound { allowance ≤ 1000000 }
    ensures { Leaves answer_w (run_by lists.entry question.now room allowance) room result first.old first.new second.old second.new }
{
    rewrite_by::<InPlace>(lists, question, first, second, allowance, room)
}

// The same answer and the same words in both buffers, from the run that makes every step into the other buffer and none in place.
pub fn rewrite_each(
    lists: Lists,
    question: &[u16],
    first: &mut [u16],
    second: &mut [u16],
    allowance: usize,
    room: usize,
) -> Answer
    requires room_in_bounds { (room ≤ length first.old) × ((room ≤ length second.old) × (room ≤ 4096)) }
    requires allowance_bound { allowance ≤ 1000000 }
    ensures { Leaves answer_w (run_by lists.entry question.now room allowance) room result first.old first.new second.old second.new }
{
    rewrite_by::<EachStep>(lists, question, first, second, allowance, room)
}
