// A term and a list of arguments, each evaluated by means of the other. Levels fall from a term to each thing evaluated for it; a list
// costs no level, and its positions fall.
ghost use Rattle.std.specs.Prelude.{◌≡◌, ◌+◌, ◌-◌, ◌≤◌, get_or};
ghost use Rattle.evaluator.specs.Values.{none, size, most, Small};
ghost use Rattle.evaluator.specs.Places.{place_past};
ghost use Rattle.evaluator.specs.Rows.{turn_of};
ghost use Rattle.evaluator.specs.Evaluation.{Fine, FineList, entered_of, ev_by, list_of};

use crate::fitting::{Found, find, rules_of};
use crate::places::{Kind, Op, arguments_of, exception_at, place_past};
use crate::rows::{Then, after_guard, after_succ, after_test, go, pay, spend, take_value};
use crate::values::{Answer, Ending, Value};
use rules::lists::Lists;
use words::slices;

// The value of variable v; 0 for a number that is no variable's. It takes the slots by value: indexed in eval, they would stand a second
// time in the frame of each level.
fn bound(b: [Value; 8], v: usize) -> Value
    ensures { result ≡ get_or b v none }
{
    slices::get_or(&b, v, Value::ZERO)
}

// After the first part, which stands at a place, of succ, handle or if: how many parts further it goes on.
#[tactic(auto, unfolding(crate::specs::Rows::turn_of))]
fn turned(ws: &[u16], arities: &[u8], at: usize, o: Op, r: Answer) -> Result<Then<u16>, Answer>
    requires { size r.end ≤ 1002000 }
    ensures { result ≡ turn_of o (get_or ws.now (place_past arities.now ws.now at 1) 0 - 32) r }
{
    match o {
        Op::Succ => Err(after_succ(r.end, r.left)),
        Op::Handle => {
            let e = exception_at(ws, place_past(arities, ws, at, 1));
            after_guard(e, r.end, r.left)
        }
        Op::If => after_test(r.end, r.left),
    }
}

// From the n arguments of a function to the right side of the first of its rules that fits. It is kept out of eval, whose frame stands
// once for each level.
#[inline(never)]
#[tactic(auto, unfolding(crate::specs::Evaluation::entered_of, crate::specs::Rows::result_then))]
fn enter(
    rules: &[u16],
    n: usize,
    arguments: Result<Then<[Value; 8]>, Answer>,
) -> Result<Then<Found>, Answer>
    requires { n ≤ 4 }
    ensures { result ≡ entered_of rules.now n arguments }
{
    let l = arguments?;
    let found = find(rules, &l.next[..n]).ok_or(Ending::Stuck(0).leaving(l.left))?;
    go(1, l.left, found)
}

// The term at a place of ws, with its bindings, so many levels and so many steps.
#[cycle(eval_eval_list)]
#[tactic(auto, using(crate::proofs::Levels::level_steps, crate::proofs::Bounds::bound_steps))]
pub fn eval(ws: &[u16], at: usize, lists: &Lists, b: [Value; 8], levels: usize, left: u32) -> Answer
    requires { (levels ≤ 1000) × (left ≤ most) × Small b }
    ensures { (result ≡ ev_by lists.now levels ws.now b at left) × Fine levels left result }
{
    if levels == 0 {
        return Ending::Deep.leaving(left);
    }
    if ws.len() <= at {
        return Ending::Stuck(0).leaving(left);
    }
    match Kind::from(ws[at]) {
        Kind::Data(base) => Ending::Done(Value { succs: 0, base }).leaving(left),
        Kind::Var(v) => Ending::Done(bound(b, v)).leaving(left),
        Kind::Raise => pay(1, left, Ending::Raised(exception_at(ws, at + 1))),
        Kind::Part(o) => {
            let r = eval(ws, at + 1, lists, b, levels - 1, left);
            match turned(ws, lists.arities, at + 1, o, r) {
                Err(end) => end,
                Ok(on) => {
                    let next = place_past(lists.arities, ws, at + 1, on.next);
                    eval(ws, next, lists, b, levels - 1, on.left)
                }
            }
        }
        Kind::Call(k) => match spend(1, left) {
            Err(out) => out,
            Ok(p) => {
                let n = arguments_of(lists.arities, ws[at]);
                let l = eval_list(ws, at + 1, n, 0, [Value::ZERO; 8], lists, b, levels - 1, p);
                let rules = rules_of(*lists, k, n);
                match enter(rules, n, l) {
                    Err(end) => end,
                    Ok(on) => eval(rules, on.next.at, lists, on.next.b, levels - 1, on.left),
                }
            }
        },
        Kind::Other => Ending::Stuck(0).leaving(left),
    }
}

// The n arguments from at on, the first of them number i, after the values in vals.
#[cycle(eval_eval_list)]
#[tactic(auto, using(crate::proofs::Levels::level_steps, crate::proofs::Bounds::bound_steps))]
pub fn eval_list(
    ws: &[u16],
    at: usize,
    n: usize,
    i: usize,
    mut vals: [Value; 8],
    lists: &Lists,
    b: [Value; 8],
    levels: usize,
    left: u32,
) -> Result<Then<[Value; 8]>, Answer>
    requires { (levels ≤ 1000) × (left ≤ most) × Small b × Small vals × (i + n ≤ 4) }
    ensures { (result ≡ list_of lists.now.arities.now (ev_by lists.now levels) ws.now b n at i vals left) × FineList levels left result }
{
    if n == 0 {
        return Ok(Then { next: vals, left });
    }
    let r = eval(ws, at, lists, b, levels, left);
    let t = take_value(r)?;
    vals[i] = t.next;
    let next = place_past(lists.arities, ws, at, 1);
    eval_list(ws, next, n - 1, i + 1, vals, lists, b, levels, t.left)
}
