// The ending that a term's words show: so many succ over a constant, fire of an exception, or else stuck.
ghost use Rattle.std.specs.Prelude.{◌≡◌};
ghost use Rattle.rewriter.specs.Read.{fire_w, root_w, read_w, said_w};

use std::fmt;
use turns::run::Ending;
use words::base::Base;
use words::slices::get_or;
use words::symbols::{EXCEPTION, FIRE, LAST_EXCEPTION, SUCC};

// How rewriting ends.
#[derive(Clone, Copy, PartialEq, Eq)]
pub enum Said {
    // So many succ over a constant.
    Value(usize, Base),
    // Fire of the exception.
    Raised(u16),
    // Stuck, with so many succ on the outside.
    Stuck(usize),
    // Out of steps.
    Out,
    // The next term does not fit the room.
    Big,
}

// The ending in three words: its kind, its amount and its constant, with "-" for what it has not.
impl fmt::Display for Said {
    fn fmt<W: fmt::Write>(&self, f: &mut fmt::Formatter<W>) -> fmt::Result {
        match *self {
            Said::Value(k, base) => write!(f, "value {k} {base}"),
            Said::Raised(e) => write!(f, "exception {e} -"),
            Said::Stuck(k) => write!(f, "stuck {k} -"),
            Said::Out => write!(f, "out - -"),
            Said::Big => write!(f, "big - -"),
        }
    }
}

// Fire over the word x: an exception, where it is one's; over anything else it is stuck.
#[tactic(auto, unfolding(crate::specs::Read::fire_w))]
fn fire_of(x: u16) -> Said
    ensures { result ≡ fire_w x }
{
    match x {
        EXCEPTION..=LAST_EXCEPTION => Said::Raised(x - EXCEPTION),
        _ => Said::Stuck(0),
    }
}

// The ending of a term under k succ whose root is w, and whose next word is x.
#[tactic(auto, unfolding(crate::specs::Read::root_w))]
fn at_root(w: u16, k: usize, x: u16) -> Said
    ensures { result ≡ root_w w k x }
{
    match Base::of(w) {
        Some(base) => Said::Value(k, base),
        None if w == FIRE && k == 0 => fire_of(x),
        None => Said::Stuck(k),
    }
}

// The ending that a term shows on which no rule fits.
fn read_off(term: &[u16]) -> Said
    ensures { result ≡ read_w term.now 0 }
{
    match term.iter().position(|w| *w != SUCC) {
        Some(k) => at_root(term[k], k, get_or(term, k + 1, 0)),
        None => Said::Stuck(term.len()),
    }
}

// What a run says that ends so, with this term.
pub fn said_of(ending: Ending, term: &[u16]) -> Said
    ensures { result ≡ said_w ending term.now }
{
    match ending {
        Ending::Done => read_off(term),
        Ending::Out => Said::Out,
        Ending::Big => Said::Big,
    }
}
