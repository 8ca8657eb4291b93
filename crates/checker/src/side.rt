// A term's records one after another: on a left side, on a right side, or in a question.
ghost use Rattle.std.specs.Prelude.{◌≡◌, ℕ, ◌<◌};
ghost use Rattle.theory.specs.Bytes.{variable_record};
ghost use Rattle.checker.specs.Node.{tok_at};
ghost use Rattle.checker.specs.Side.{passed, admitted, step_of, most_of, base_of, scan_from};

use crate::node::{Declared, Node};
use crate::refusal::{Reason, Refusal};
use record::{Record, record_at};

// Where a term stands: on a left side, on a right side, or in a question.
#[derive(Clone, Copy)]
pub enum Stand {
    Left,
    Right,
    Asked,
}

// One record of a term that is let in: its parts and words, and the variables seen after it.
#[derive(Clone, Copy)]
pub struct Step {
    pub parts: u8,
    pub words: u8,
    pub seen: [bool; 8],
}

impl Step {
    // A record with these parts and words.
    fn of(parts: u8, words: u8, seen: [bool; 8]) -> Step
        ensures { result ≡ passed parts words seen }
    {
        Step { parts, words, seen }
    }
}

// How far a side is read: the place, and the variables seen.
#[derive(Clone, Copy)]
pub struct Side {
    pub at: usize,
    pub seen: [bool; 8],
}

impl Stand {
    // A variable: not twice on a left side, on a right side only if it is on the left, in no question.
    #[tactic(auto, unfolding(crate::specs::Side::admitted))]
    fn variable(self, mut seen: [bool; 8], x: u8) -> Result<Step, Reason>
        requires { x < 8 }
        ensures { result ≡ admitted self seen (variable_record x) }
    {
        let at = usize::from(x);
        match self {
            Stand::Left if seen[at] => Err(Reason::VariableTwice),
            Stand::Left => {
                seen[at] = true;
                Ok(Step::of(0, 1, seen))
            }
            Stand::Right if seen[at] => Ok(Step::of(0, 1, seen)),
            Stand::Right | Stand::Asked => Err(Reason::VariableUnknown),
        }
    }

    // One record of a term, by where the term stands and the variables seen.
    #[tactic(auto, unfolding(crate::specs::Side::step_of, crate::specs::Side::admitted, crate::specs::Node::node_of))]
    fn step_over(self, seen: [bool; 8], r: Record, declared: Declared) -> Result<Step, Reason>
        ensures { (p : ℕ) → result ≡ step_of self seen (tok_at declared.entry.exceptions declared.entry.arities.now p r.kind r.body) }
    {
        match declared.node_of(r.kind, r.body)? {
            Node::Leaf => Ok(Step::of(0, 1, seen)),
            Node::Succ => Ok(Step::of(1, 1, seen)),
            Node::Variable(x) => self.variable(seen, x),
            Node::Inner { parts, words } => match self {
                Stand::Left => Err(Reason::NotOnLeft),
                Stand::Right | Stand::Asked => Ok(Step::of(parts, words, seen)),
            },
        }
    }

    // The words that a side or a question may have.
    #[tactic(auto, unfolding(crate::specs::Side::most_of))]
    fn most(self) -> usize
        ensures { result ≡ most_of self }
    {
        match self {
            Stand::Left => 32,
            Stand::Right => 128,
            Stand::Asked => 512,
        }
    }

    // The words that count before any is read: on a left side that of the function.
    fn base(self) -> usize
        ensures { result ≡ base_of self }
    {
        match self {
            Stand::Left => 1,
            Stand::Right | Stand::Asked => 0,
        }
    }

    // Reads `owed` terms on from `start`.
    pub fn read_side(
        self,
        bytes: &[u8],
        declared: Declared,
        start: Side,
        owed: u8,
    ) -> Result<Side, Refusal>
        ensures { result ≡ scan_from declared.entry.exceptions declared.entry.arities.now bytes.now self start.seen owed (base_of self) start.at }
    {
        let mut seen = start.seen;
        let mut at = start.at;
        let mut due = usize::from(owed);
        let mut count = self.base();
        while 0 < due {
            let r = record_at(bytes, at).ok_or(Reason::BytesEnd.at(at))?;
            let s = self
                .step_over(seen, r, declared)
                .map_err(|reason| reason.at(at))?;
            count += usize::from(s.words);
            if self.most() < count {
                return Err(Reason::TooManyWords.at(at));
            }
            due = due - 1 + usize::from(s.parts);
            at += r.len;
            seen = s.seen;
        }
        Ok(Side { at, seen })
    }
}
