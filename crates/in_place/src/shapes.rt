// The rules after which a term differs in one word: which stored rules have their shape.
ghost use Rattle.std.specs.Prelude.{◌≡◌, ◌↔◌, true, ◌+◌, ◌≤◌, length, take, drop};
ghost use Rattle.words.specs.Terms.{arity_of};
ghost use Rattle.in_place.specs.InPlace.{vars, Calls};

use words::symbols::{FUNCTION, GUARD, IS_DATA, VARIABLE};
use words::terms::arity;

// The variables in order.
const VARS: [u16; 8] = [64, 65, 66, 67, 68, 69, 70, 71];

// Whether the words are the first n variables in order.
fn are_vars(words: &[u16], n: usize) -> bool
    requires { n ≤ 8 }
    ensures { (result ≡ true) ↔ (words.now ≡ vars 64 n) }
{
    words == &VARS[..n]
}

// The number of parts of the symbol w.
pub fn parts(arities: &[u8], w: u16) -> usize
    ensures value { result ≡ arity_of arities.now w }
    ensures small { result ≤ 255 }
{
    usize::from(arity(arities, w))
}

// Whether the rule's left side is a(x1..xn).
pub fn is_call(rule: &[u16], a: u16, n: usize) -> bool
    requires { n ≤ 255 }
    ensures { (result ≡ true) ↔ Calls rule.now a n }
{
    n <= 8
        && a >= FUNCTION
        && rule.len() >= n + 3
        && usize::from(rule[0]) == n + 1
        && rule[2] == a
        && are_vars(&rule[3..n + 3], n)
}

// A rule whose left side is a(x1..xn), where a has n parts.
#[derive(Clone, Copy)]
pub struct Call<'a> {
    pub rule: &'a [u16],
    pub n: usize,
    pub ghost few: { n ≤ 8 },
}

// What a test looks at, the part before which there are so many others, and the symbol that it leads to.
#[derive(Clone, Copy)]
pub struct Test {
    pub before: u16,
    pub word: u16,
}

impl<'a> Call<'a> {
    ghost use Rattle.std.specs.Prelude.{◌≡◌, ◌+◌, ◌-◌, get_or, drop, MatchOption};
    ghost use Rattle.words.specs.Terms.{arity_of};
    ghost use Rattle.in_place.specs.InPlace.{Calls, Renames, Tests, Never};

    // The rule as such a one, where it is one.
    pub fn of(arities: &[u8], rule: &'a [u16], a: u16) -> Option<Call<'a>>
        ensures { MatchOption result (Never (Calls rule.now a (arity_of arities.now a))) (λ c. (c.rule.now ≡ rule.now) × ((c.n ≡ arity_of arities.now a) × Calls c.rule.now a c.n)) }
    {
        let n = parts(arities, a);
        if !is_call(rule, a, n) {
            return None;
        }
        Some(Call { rule, n })
    }

    // The words behind its left side; none in a rule that ends before.
    fn right(self) -> &'a [u16]
        ensures { result.now ≡ drop (self.entry.n + 3) self.entry.rule.now }
    {
        self.rule.get(self.n + 3..).unwrap_or(&[])
    }

    // The symbol b, where its right side is b(x1..xn).
    pub fn renamed(self) -> Option<u16>
        ensures { MatchOption result (Never (Renames self.entry.rule.now self.entry.n)) (λ b. Renames self.entry.rule.now self.entry.n × (b ≡ get_or self.entry.rule.now (self.entry.n + 3) 0)) }
    {
        match *self.right() {
            [b, ref vars @ ..] if b >= FUNCTION && are_vars(vars, self.n) => Some(b),
            _ => None,
        }
    }

    // The test, where its right side is guard(isData(x), b(x1..xn)), where x is one of the variables and b has n parts.
    pub fn test(self, arities: &[u8]) -> Option<Test>
        ensures { MatchOption result (Never (Tests arities.now self.entry.rule.now self.entry.n)) (λ t. Tests arities.now self.entry.rule.now self.entry.n × ((t.before ≡ get_or self.entry.rule.now (self.entry.n + 5) 0 - 64) × (t.word ≡ get_or self.entry.rule.now (self.entry.n + 6) 0))) }
    {
        match *self.right() {
            [GUARD, IS_DATA, x, b, ref vars @ ..]
                if x >= VARIABLE
                    && usize::from(x - VARIABLE) < self.n
                    && b >= FUNCTION
                    && parts(arities, b) == self.n
                    && are_vars(vars, self.n) => {
                Some(Test {
                    before: x - VARIABLE,
                    word: b,
                })
            }
            _ => None,
        }
    }
}
