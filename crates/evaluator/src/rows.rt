// The rows of document 01's table of steps: what follows each ending of a part. An Err is how the evaluation ends here. A charge of k + 3
// is paid in two parts, so that no bound on k is asked for.
ghost use Rattle.std.specs.Prelude.{◌≡◌, ◌≤◌};
ghost use Rattle.evaluator.specs.Values.{size};
ghost use Rattle.evaluator.specs.Rows.{left_of, pay_of, go_of, after_succ, after_guard, chosen_part, after_test, took_of};

use crate::values::{Answer, Ending, Value};
use words::base::Base;

// What follows, and the steps left.
#[derive(Clone, Copy)]
pub struct Then<T> {
    pub next: T,
    pub left: u32,
}

// What is left of p steps once c are paid; it ends out of steps where they do not suffice.
#[tactic(auto, unfolding(crate::specs::Rows::left_of))]
pub fn spend(c: u32, p: u32) -> Result<u32, Answer>
    ensures { result ≡ left_of c p }
{
    p.checked_sub(c).ok_or(Ending::Out.leaving(0))
}

// Ends with e once c steps are paid.
#[tactic(auto, unfolding(crate::specs::Rows::pay_of, crate::specs::Rows::left_of, crate::specs::Rows::answer_then))]
pub fn pay(c: u32, p: u32, e: Ending) -> Answer
    ensures { result ≡ pay_of c p e }
{
    match spend(c, p) {
        Ok(left) => e.leaving(left),
        Err(out) => out,
    }
}

// Goes on with what follows once c steps are paid.
#[tactic(auto, unfolding(crate::specs::Rows::go_of, crate::specs::Rows::left_of, crate::specs::Rows::result_then))]
pub fn go<T: Copy>(c: u32, p: u32, next: T) -> Result<Then<T>, Answer>
    ensures { result ≡ go_of c p next }
{
    let left = spend(c, p)?;
    Ok(Then { next, left })
}

// After the part of a succ.
#[tactic(auto, unfolding(crate::specs::Rows::after_succ))]
pub fn after_succ(end: Ending, p: u32) -> Answer
    requires { size end ≤ 1002000 }
    ensures { result ≡ after_succ end p }
{
    match end {
        Ending::Done(v) => {
            let succs = v.succs + 1;
            Ending::Done(Value { succs, ..v }).leaving(p)
        }
        Ending::Raised(_) => pay(1, p, end),
        Ending::Stuck(s) => Ending::Stuck(s + 1).leaving(p),
        Ending::Out | Ending::Deep => end.leaving(p),
    }
}

// After the guarded part of a handle with the exception e: how many parts further it goes on.
#[tactic(auto, using(crate::proofs::Paying::pay_steps), unfolding(crate::specs::Rows::after_guard))]
pub fn after_guard(e: u16, end: Ending, p: u32) -> Result<Then<u16>, Answer>
    ensures { result ≡ after_guard e end p }
{
    match end {
        Ending::Done(v) => Err(pay(v.succs, spend(3, p)?, end)),
        Ending::Raised(x) if x == e => go(3, p, 2),
        Ending::Raised(_) => Err(pay(3, p, end)),
        Ending::Stuck(s) => Err(pay(1, spend(s, p)?, Ending::Stuck(0))),
        Ending::Out | Ending::Deep => Err(end.leaving(p)),
    }
}

// The part of an if that its test's constant chooses; zero chooses none.
fn chosen_part(base: Base, p: u32) -> Result<Then<u16>, Answer>
    ensures { result ≡ chosen_part base p }
{
    match base {
        Base::Zero => Err(Ending::Stuck(0).leaving(p)),
        Base::True => go(1, p, 1),
        Base::False => go(1, p, 2),
    }
}

// After the first part of an if.
#[tactic(auto, unfolding(crate::specs::Rows::after_test))]
pub fn after_test(end: Ending, p: u32) -> Result<Then<u16>, Answer>
    ensures { result ≡ after_test end p }
{
    match end {
        Ending::Done(v) if v.succs == 0 => chosen_part(v.base, p),
        Ending::Done(_) | Ending::Stuck(_) => Err(Ending::Stuck(0).leaving(p)),
        Ending::Raised(_) => Err(pay(1, p, end)),
        Ending::Out | Ending::Deep => Err(end.leaving(p)),
    }
}

// After an argument of a call.
#[tactic(auto, using(crate::proofs::Paying::pay_steps), unfolding(crate::specs::Rows::took_of, crate::specs::Rows::after_arg))]
pub fn take_value(r: Answer) -> Result<Then<Value>, Answer>
    ensures { result ≡ took_of r }
{
    let Answer { end, left: p } = r;
    match end {
        Ending::Done(value) => go(value.succs, spend(3, p)?, value),
        Ending::Raised(_) => Err(pay(3, p, end)),
        Ending::Stuck(succs) => Err(pay(1, spend(succs, p)?, Ending::Stuck(0))),
        Ending::Out | Ending::Deep => Err(r),
    }
}
