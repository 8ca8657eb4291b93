// What stands at a place of words: what its root is, how many arguments it has, and the place past it.
ghost use Rattle.std.specs.Prelude.{◌≡◌, ◌-◌, ◌≤◌, get_or};
ghost use Rattle.evaluator.specs.Places.{kind_of, arguments_of, place_past};

use words::base::Base;
use words::slices::get_or;
use words::symbols::{EXCEPTION, FUNCTION, HANDLE, IF, LAST_VARIABLE, RAISE, SUCC, VARIABLE};
use words::terms::{arity, skip_many};

// What has a first part that is evaluated before all else.
#[derive(Clone, Copy)]
pub enum Op {
    Succ,
    Handle,
    If,
}

// What a word is the root of: a constant, a variable, raise, a term with such a first part, a call of function number so and so.
#[derive(Clone, Copy)]
pub enum Kind {
    Data(Base),
    Var(usize),
    Raise,
    Part(Op),
    Call(usize),
    Other,
}

// What a word is the root of.
impl From<u16> for Kind {
    ghost from_gives = { λ w kind. kind ≡ kind_of w };

    #[tactic(auto, unfolding(crate::specs::Places::kind_of))]
    fn from(w: u16) -> Kind
        ensures { result ≡ kind_of w }
    {
        if let Some(base) = Base::of(w) {
            return Kind::Data(base);
        }
        match w {
            SUCC => Kind::Part(Op::Succ),
            IF => Kind::Part(Op::If),
            RAISE => Kind::Raise,
            HANDLE => Kind::Part(Op::Handle),
            VARIABLE..=LAST_VARIABLE => Kind::Var(usize::from(w - VARIABLE)),
            FUNCTION.. => Kind::Call(usize::from((w - FUNCTION) / 8)),
            _ => Kind::Other,
        }
    }
}

// The number of the exception whose word stands at a place.
pub fn exception_at(ws: &[u16], at: usize) -> u16
    ensures { result ≡ get_or ws.now at 0 - 32 }
{
    get_or(ws, at, 0).saturating_sub(EXCEPTION)
}

// The number of arguments of a call whose root is w. A number over four is no arity, and counts as none.
#[tactic(auto, unfolding(crate::specs::Places::arguments_of))]
pub fn arguments_of(arities: &[u8], w: u16) -> usize
    ensures value { result ≡ arguments_of arities.now w }
    ensures few { result ≤ 4 }
{
    let n = arity(arities, w);
    if n <= 4 { usize::from(n) } else { 0 }
}

// The place past n terms, the first of which starts at `at`; the end of the words where they end before that.
#[tactic(auto, unfolding(crate::specs::Places::place_past))]
pub fn place_past(arities: &[u8], ws: &[u16], at: usize, n: u16) -> usize
    ensures { result ≡ place_past arities.now ws.now at n }
{
    skip_many(arities, ws, at, n).unwrap_or(ws.len())
}
