// The rules that every function has besides its own: its entry, and one for each argument.
ghost use Rattle.std.specs.Prelude.{◌<◌, ◌≤◌};
ghost use Rattle.generated.specs.Wrote.{Room, Wrote};
ghost use Rattle.generated.specs.CallRules.{call_rules};
ghost use Rattle.theory.specs.Tree.{node};
ghost use Rattle.theory.specs.Words.{words, stored_rules, stored_rule};
ghost use Rattle.theory.specs.Translation.{entry_rule, arg_rule, variables, aux};

use super::writing::{Writer, put_each};
use words::symbols::{GUARD, IS_DATA, VARIABLE, symbol};

// A function: its number, and how many arguments it has.
#[derive(Clone, Copy)]
struct Call {
    k: u16,
    n: u16,
    ghost k_bound: { k < 300 },
    ghost n_bound: { n ≤ 4 },
}

impl Call {
    // A side of a rule: the function, where j is 0, or its auxiliary j, over its variables.
    fn put_side(self, out: &mut Writer, j: u16)
        requires j_bound { j < 8 }
        requires room { Room (words (node (aux self.k j) (variables 0 self.n))) out.old }
        ensures { Wrote (words (node (aux self.k j) (variables 0 self.n))) out.old out.new }
    {
        let words = [
            symbol(self.k, j),
            VARIABLE,
            VARIABLE + 1,
            VARIABLE + 2,
            VARIABLE + 3,
        ];
        out.put(&words[..usize::from(self.n) + 1]);
    }

    // f(x..) → f1(x..)
    #[tactic(auto, using(crate::proofs::RuleWords::rooms))]
    fn entry_rule(self, out: &mut Writer)
        requires { Room (stored_rule (entry_rule self.k self.n)) out.old }
        ensures { Wrote (stored_rule (entry_rule self.k self.n)) out.old out.new }
    {
        out.put(&[self.n + 1, self.n + 1]);
        self.put_side(out, 0);
        self.put_side(out, 1);
    }

    // fi(x..) → guard(isData(xi),fi+1(x..)), where i counts from 0
    #[tactic(auto, using(crate::proofs::RuleWords::rooms))]
    fn argument_rule(self, out: &mut Writer, i: u16)
        requires i_bound { i < self.n }
        requires room { Room (stored_rules (arg_rule self.k self.n i)) out.old }
        ensures { Wrote (stored_rules (arg_rule self.k self.n i)) out.old out.new }
    {
        out.put(&[self.n + 1, self.n + 4]);
        self.put_side(out, i + 1);
        out.put(&[GUARD, IS_DATA, VARIABLE + i]);
        self.put_side(out, i + 2);
    }
}

// The entry rule of function k with n arguments, and then the rule of each argument, from the first.
#[tactic(auto, using(crate::proofs::CallRules::rooms))]
pub fn call_rules(out: &mut Writer, k: u16, n: u16)
    requires k_bound { (k < 300) × (n ≤ 4) }
    requires room { Room (stored_rules (call_rules k n)) out.old }
    ensures { Wrote (stored_rules (call_rules k n)) out.old out.new }
{
    let call = Call { k, n };
    call.entry_rule(out);
    put_each(out, n, move |out, i| call.argument_rule(out, i));
}
