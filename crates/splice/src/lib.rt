// A rewrite step's new term, written into a second buffer: what stands before the rewritten place, the right side with its
// variables replaced by the parts that they are bound to, what stands behind.
//
// A variable v is bound to the part bound[v] of the subject, the words from the rewritten place on. One that the left side has not is bound
// to no words: no right side of an accepted program has such a variable.
#![tactic(auto)]

pub mod term;

ghost use Rattle.std.specs.Prelude.{◌≡◌, ◌+◌, ◌-◌, ◌≤◌, length, take, drop};
ghost use Rattle.theory.specs.Buffers.{over, put};
ghost use Rattle.splice.specs.Right.{Parts, step_of, placed, written_of};

use crate::term::Term;
use rules::index::Span;
use rules::matching::{Bound, is_var};
use words::slices::{copy_into, put};
use words::symbols::VARIABLE;

// What a word of a right side stands for.
#[derive(Clone, Copy)]
pub enum Shown {
    // One word.
    Word(u16),
    // A part of the subject.
    Part(Span),
}

// A subject, and what the variables are bound to: a part of it each.
#[derive(Clone, Copy)]
pub struct Bindings<'a> {
    pub subject: &'a [u16],
    pub bound: &'a Bound,
    pub ghost parts: { Parts bound.now (length subject.now) },
    pub ghost small: { length subject.now ≤ 65536 },
}

impl Bindings<'_> {
    ghost use Rattle.std.specs.Prelude.{◌≡◌, ◌+◌, ◌≤◌, length};
    ghost use Rattle.theory.specs.Buffers.{put};
    ghost use Rattle.splice.specs.Right.{shown_by, word_len, word_for, new_len, new, placed, written_of};

    fn shown_by(self, w: u16) -> Shown
        ensures { result ≡ shown_by self.entry.bound.now w }
    {
        if is_var(w) {
            return Shown::Part(self.bound[usize::from(w - VARIABLE)]);
        }
        Shown::Word(w)
    }

    // How many words stand for the right side's word w.
    #[tactic(auto, unfolding(crate::specs::Right::word_len))]
    fn len_of(self, w: u16) -> usize
        ensures { result ≡ word_len self.entry.bound.now w }
    {
        match self.shown_by(w) {
            Shown::Word(_) => 1,
            Shown::Part(part) => part.to - part.from,
        }
    }

    // Writes the words that stand for w into dst from index n on, and answers the index past them.
    #[tactic(auto, using(words::proofs::Writes::put_one), unfolding(crate::specs::Right::word_len, crate::specs::Right::word_for))]
    fn put_word(self, dst: &mut [u16], n: usize, w: u16) -> usize
        requires { n + word_len self.bound.now w ≤ length dst.old }
        ensures value { result ≡ n + word_len self.entry.bound.now w }
        ensures dst_after { dst.new ≡ put n (word_for self.entry.subject.now self.entry.bound.now w) dst.old }
    {
        match self.shown_by(w) {
            Shown::Word(x) => {
                dst[n] = x;
                n + 1
            }
            Shown::Part(part) => {
                put(dst, n, part.part_of(self.subject));
                n + (part.to - part.from)
            }
        }
    }

    // How many words the right side comes to.
    #[tactic(auto, using(crate::proofs::Laws::count_steps))]
    fn new_len(self, right: &[u16]) -> usize
        requires { length right.now ≤ 65536 }
        ensures { result ≡ new_len self.entry.bound.now right.now }
    {
        let mut n = 0;
        for &w in right {
            n += self.len_of(w);
        }
        n
    }

    // Writes the right side, with its variables replaced, over the front of dst, and answers how many words that is; None, and nothing is
    // written, where it does not fit.
    #[tactic(auto, using(crate::proofs::Laws::write_steps))]
    pub fn write_right(self, right: &[u16], dst: &mut [u16]) -> Option<usize>
        requires { length right.now ≤ 65536 }
        ensures value { result ≡ written_of (length dst.old) (new self.entry.subject.now self.entry.bound.now right.now) }
        ensures dst_after { dst.new ≡ placed (length dst.old) (new self.entry.subject.now self.entry.bound.now right.now) dst.old }
    {
        if dst.len() < self.new_len(right) {
            return None;
        }
        let mut at = 0;
        for &w in right {
            at = self.put_word(dst, at, w);
        }
        Some(at)
    }
}

// Copies what stands before the rewritten part to the front of second, and what stands behind it to index next on.
fn put_around(second: &mut [u16], term: &[u16], part: Span, next: usize)
    requires { (part.from ≤ part.to) × ((part.to ≤ length term.now) × ((part.from ≤ next) × (next + (length term.now - part.to) ≤ length second.old))) }
    ensures { second.new ≡ put next (drop part.to term.now) (over (take part.from term.now) second.old) }
{
    copy_into(second, &term[..part.from]);
    put(second, next, &term[part.to..]);
}

// Makes the next term in the second buffer, within the room: the term with the words of the part replaced by what the right side
// comes to. It answers how many words that is; None, and nothing is written, where it does not fit.
pub fn step_into(
    term: Term,
    part: Span,
    right: &[u16],
    bound: &Bound,
    second: &mut [u16],
) -> Option<usize>
    requires at_le_end { (part.from ≤ part.to) × ((part.to ≤ length term.words.now) × (term.room ≤ length second.old)) }
    requires parts { Parts bound.now (length term.words.now - part.from) }
    requires right_len_bound { length right.now ≤ 65536 }
    ensures value { result ≡ written_of term.entry.room (step_of term.entry.words.now part.from part.to right.now bound.now) }
    ensures second_after { second.new ≡ placed term.entry.room (step_of term.entry.words.now part.from part.to right.now bound.now) second.old }
{
    let words = term.words;
    let rest = words.len() - part.to;
    let most = term.room - rest;
    let bindings = Bindings {
        subject: &words[part.from..],
        bound,
    };
    let n = bindings.write_right(right, &mut second[part.from..most])?;
    put_around(second, words, part, part.from + n);
    Some(part.from + n + rest)
}
