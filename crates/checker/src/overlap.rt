// Refusal 10: two rules of one function whose left sides have a common instance.
ghost use Rattle.std.specs.Prelude.{◌≡◌, [], drop};
ghost use Rattle.checker.specs.Overlap.{pat_len, heads_meet, args_meet, clash_at, any_clash, first_clash};

use record::Kind;
use words::slices::get_or;

// The bytes of a succ, which a pattern follows, and of a variable, which has a body; the other patterns are one byte.
const SUCC: u8 = Kind::Succ as u8;

const VARIABLE: u8 = Kind::Variable as u8;

// How many bytes the pattern takes that these begin with: some succ, then a constant or a variable.
fn pattern_len(bytes: &[u8]) -> usize
    ensures { result ≡ pat_len bytes.now }
{
    match bytes.iter().position(|b| *b != SUCC) {
        None => bytes.len(),
        Some(succs) if bytes[succs] == VARIABLE => succs + 2,
        Some(succs) => succs + 1,
    }
}

// Whether the patterns that the two strings of bytes begin with have a common instance.
fn patterns_meet(first: &[u8], second: &[u8]) -> bool
    ensures { result ≡ heads_meet first.now second.now }
{
    for (a, b) in first.iter().zip(second) {
        if *a == VARIABLE || *b == VARIABLE {
            return true;
        }
        if a != b {
            return false;
        }
        if *a != SUCC {
            return true;
        }
    }
    true
}

// The bytes from a place on, none past the end.
fn bytes_from(bytes: &[u8], at: usize) -> &[u8]
    ensures { result.now ≡ drop at bytes.now }
{
    &bytes[at.min(bytes.len())..]
}

// Whether the `count` patterns that the two strings of bytes begin with have common instances, one by one.
#[tactic(auto, using(crate::proofs::overlap::Laws::args_no, crate::proofs::overlap::Laws::args_yes, crate::proofs::overlap::Laws::args_none))]
fn lefts_meet(first: &[u8], second: &[u8], count: usize) -> bool
    ensures { result ≡ args_meet count first.now second.now }
{
    let mut left = first;
    let mut right = second;
    for _ in 0..count {
        if !patterns_meet(left, right) {
            return false;
        }
        left = bytes_from(left, pattern_len(left));
        right = bytes_from(right, pattern_len(right));
    }
    true
}

// The rules of a program: its bytes, and the arities of its functions.
#[derive(Clone, Copy)]
pub struct Rules<'a> {
    pub program: &'a [u8],
    pub arities: &'a [u8],
}

impl<'a> Rules<'a> {
    // Whether the rules opened at the two places are of one function and have left sides that meet.
    #[tactic(auto, unfolding(crate::specs::Overlap::clash_at))]
    fn clash(self, first: usize, second: usize) -> bool
        ensures { result ≡ clash_at self.entry.program.now self.entry.arities.now first second }
    {
        let len = self.program.len();
        if len <= first || len <= second {
            return false;
        }
        let f = get_or(self.program, first + 1, 0);
        let g = get_or(self.program, second + 1, 0);
        if f != g {
            return false;
        }
        let n = get_or(self.arities, usize::from(g), 0);
        lefts_meet(
            bytes_from(self.program, first + 2),
            bytes_from(self.program, second + 2),
            usize::from(n),
        )
    }

    // Whether the rule opened at `second` clashes with one of these.
    fn clashes_with(self, before: &[usize], second: usize) -> bool
        ensures { result ≡ any_clash self.entry.program.now self.entry.arities.now before.now second }
    {
        before.iter().any(|first| self.clash(*first, second))
    }

    // Where the first rule opens that clashes with an earlier one, of the rules that open at these places.
    #[tactic(auto, using(crate::proofs::overlap::Laws::first_yes, crate::proofs::overlap::Laws::first_no, crate::proofs::overlap::Laws::first_out))]
    pub fn first_overlap(self, openings: &[usize]) -> Option<usize>
        ensures { result ≡ first_clash self.entry.program.now self.entry.arities.now [] openings.now }
    {
        for (j, q) in openings.iter().enumerate() {
            if self.clashes_with(&openings[..j], *q) {
                return Some(*q);
            }
        }
        None
    }
}
