// The rules of a function, and the first of them whose patterns fit the values of a call.
ghost use Rattle.std.specs.Prelude.{◌≡◌, ◌≤◌};
ghost use Rattle.evaluator.specs.Fitting.{rules_of, bind, fit_word, fit_in, fits_of, found_from};
ghost use Rattle.evaluator.specs.Values.{nones};

use crate::values::Value;
use rules::lists::Lists;
use words::base::Base;
use words::slices::get_or;
use words::symbols::{SUCC, VARIABLE, symbol};

// A rule that fits: the place of its right side, and the bindings.
#[derive(Clone, Copy)]
pub struct Found {
    pub at: usize,
    pub b: [Value; 8],
}

// A variable's number, and the value that it is bound to.
#[derive(Clone, Copy)]
pub struct Binding {
    pub slot: usize,
    pub value: Value,
}

// A pattern that fits: the place after it, and its variable, bound to what is left of the value; a pattern has one variable at most.
#[derive(Clone, Copy)]
pub struct Fitted {
    pub at: usize,
    pub binding: Option<Binding>,
}

// The rules of function k, which has n arguments: those in its list whose root is its last auxiliary. There are 48 functions.
#[tactic(auto, unfolding(crate::specs::Fitting::rules_of))]
pub fn rules_of<'a>(lists: Lists<'a>, k: usize, n: usize) -> &'a [u16]
    requires { n ≤ 4 }
    ensures { result.now ≡ rules_of lists.entry.standing.list.now lists.entry.own.list.now lists.entry.standing.index.now lists.entry.own.index.now k n }
{
    if 48 <= k {
        return &[];
    }
    let root = symbol(k as u16, n as u16 + 1);
    if k < 16 {
        lists.standing.rules_with(root)
    } else {
        lists.own.rules_with(root)
    }
}

// The word w of a pattern, which is no succ, against k times succ over base; next is the place after it.
#[tactic(auto, unfolding(crate::specs::Fitting::fit_word))]
fn fit_word(w: u16, k: u32, base: Base, next: usize) -> Option<Fitted>
    ensures { result ≡ fit_word k base next w }
{
    if VARIABLE <= w {
        let slot = usize::from(w - VARIABLE);
        let value = Value { succs: k, base };
        return Some(Fitted {
            at: next,
            binding: Some(Binding { slot, value }),
        });
    }
    (k == 0 && u16::from(base) == w).then_some(Fitted {
        at: next,
        binding: None,
    })
}

// The pattern at a place against a value: a succ of the one takes a succ of the other.
#[tactic(auto, using(crate::proofs::Fits::fit_steps))]
fn fit(rules: &[u16], at: usize, v: Value) -> Option<Fitted>
    ensures { result ≡ fit_in rules.now v.base v.succs at }
{
    let mut k = v.succs;
    for (i, &w) in rules.get(at..)?.iter().enumerate() {
        if w != SUCC {
            return fit_word(w, k, v.base, at + i + 1);
        }
        k = k.checked_sub(1)?;
    }
    None
}

// One more binding, if there is one. A number over seven is no variable's.
fn bind(b: &mut [Value; 8], binding: Option<Binding>)
    ensures { b.new ≡ bind b.old binding }
{
    if let Some(x) = binding {
        if x.slot < 8 {
            b[x.slot] = x.value;
        }
    }
}

// The bindings of the patterns from `at` on, one for each value, where all of them fit.
#[tactic(auto, using(crate::proofs::Fits::fits_steps))]
fn fit_all(rules: &[u16], at: usize, vals: &[Value]) -> Option<[Value; 8]>
    ensures { result ≡ fits_of rules.now at vals.now nones }
{
    let mut next = at;
    let mut b = [Value::ZERO; 8];
    for &v in vals {
        let f = fit(rules, next, v)?;
        bind(&mut b, f.binding);
        next = f.at;
    }
    Some(b)
}

// The first of the rules that fits. Behind a rule's two counts and its root stand its patterns, and behind them its right side.
#[tactic(auto, using(crate::proofs::Fits::find_steps))]
pub fn find(rules: &[u16], vals: &[Value]) -> Option<Found>
    ensures { result ≡ found_from rules.now vals.now 0 }
{
    let mut at = 0;
    while at < rules.len() {
        let body = at + 2 + usize::from(get_or(rules, at, 0));
        if let Some(b) = fit_all(rules, at + 3, vals) {
            return Some(Found { at: body, b });
        }
        at = body + usize::from(get_or(rules, at + 1, 0));
    }
    None
}
