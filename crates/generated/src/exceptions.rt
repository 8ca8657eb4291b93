// The rules of exceptions: raise, handle, and select where something was fired.
ghost use Rattle.std.specs.Prelude.{◌≡◌, ◌+◌, ◌<◌, ◌≤◌};
ghost use Rattle.generated.specs.Wrote.{Room, Wrote};
ghost use Rattle.theory.specs.Words.{stored_rules};
ghost use Rattle.theory.specs.Translation.{raise_rule, handle_rule, same_rule, other_rule, exn_rules, gather, numbers};

use super::writing::{Writer, put_each};
use words::symbols::{EXCEPTION, FIRE, HANDLE, IS_DATA, RAISE, SELECT, VARIABLE};

// The variables of these rules.
const X: u16 = VARIABLE;

const Z: u16 = VARIABLE + 1;

// An exception: its number.
#[derive(Clone, Copy)]
struct Exception {
    number: u16,
    ghost number_bound: { number < 16 },
}

impl Exception {
    fn of(number: u16) -> Exception
        requires { number < 16 }
        ensures { result.number ≡ number }
    {
        Exception { number }
    }

    // Its word.
    fn word(self) -> u16
        ensures { result ≡ 32 + self.number }
    {
        EXCEPTION + self.number
    }

    // raise(E) → fire(E)
    fn raise_rule(self, out: &mut Writer)
        requires { Room (stored_rules (raise_rule self.number)) out.old }
        ensures { Wrote (stored_rules (raise_rule self.number)) out.old out.new }
    {
        let e = self.word();
        out.put(&[2, 2, RAISE, e, FIRE, e]);
    }

    // handle(x,E,z) → select(isData(x),x,E,z)
    fn handle_rule(self, out: &mut Writer)
        requires { Room (stored_rules (handle_rule self.number)) out.old }
        ensures { Wrote (stored_rules (handle_rule self.number)) out.old out.new }
    {
        let e = self.word();
        out.put(&[4, 6, HANDLE, X, e, Z, SELECT, IS_DATA, X, X, e, Z]);
    }

    // select(fire(E),x,E,z) → z
    fn equal_rule(self, out: &mut Writer)
        requires { Room (stored_rules (same_rule self.number)) out.old }
        ensures { Wrote (stored_rules (same_rule self.number)) out.old out.new }
    {
        let e = self.word();
        out.put(&[6, 1, SELECT, FIRE, e, X, e, Z, Z]);
    }

    // select(fire(D),x,E,z) → fire(D), where D, which is fired, is not E; nothing where it is
    #[tactic(auto, using(crate::proofs::RuleWords::none_of_same))]
    fn unequal_rule(self, out: &mut Writer, other: Exception)
        requires { Room (stored_rules (other_rule self.number other.number)) out.old }
        ensures { Wrote (stored_rules (other_rule self.number other.number)) out.old out.new }
    {
        if self.number != other.number {
            let d = self.word();
            let e = other.word();
            out.put(&[6, 2, SELECT, FIRE, d, X, e, Z, FIRE, d]);
        }
    }

    // The rules of this exception, which is fired, with each other below n.
    fn unequal_rules(self, out: &mut Writer, n: u16)
        requires n_bound { n ≤ 16 }
        requires room { Room (stored_rules (gather (other_rule self.number) (numbers 0 n))) out.old }
        ensures { Wrote (stored_rules (gather (other_rule self.number) (numbers 0 n))) out.old out.new }
    {
        put_each(out, n, move |out, number| {
            self.unequal_rule(out, Exception::of(number))
        });
    }
}

// All rules of n exceptions, in the document's order.
#[tactic(auto, using(crate::proofs::ExceptionRules::rooms))]
pub fn exception_rules(out: &mut Writer, n: u16)
    requires n_bound { n ≤ 16 }
    requires room { Room (stored_rules (exn_rules n)) out.old }
    ensures { Wrote (stored_rules (exn_rules n)) out.old out.new }
{
    put_each(out, n, |out, number| Exception::of(number).raise_rule(out));
    put_each(out, n, |out, number| Exception::of(number).handle_rule(out));
    put_each(out, n, |out, number| Exception::of(number).equal_rule(out));
    put_each(out, n, move |out, number| {
        Exception::of(number).unequal_rules(out, n)
    });
}
