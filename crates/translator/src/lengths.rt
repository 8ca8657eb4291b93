// How many words a program's rules are, before they are written.
ghost use Rattle.std.specs.Prelude.{◌≡◌, ◌*◌, ◌≤◌, length};
ghost use Rattle.translator.specs.Opened.{OpenedFor, rule_if};
ghost use Rattle.translator.specs.Listed.{rules_in, rules_words};
ghost use Rattle.translator.specs.List.{rules_for, own_in};
ghost use Rattle.theory.specs.Words.{stored_rules};
ghost use Rattle.theory.specs.Translation.{gather, numbers, exn_rules};

use super::program::{Function, Ready};

// The rules of n exceptions.
#[tactic(auto, using(crate::proofs::Counts::exn_count))]
fn exception_length(n: usize) -> usize
    requires { n ≤ 16 }
    ensures value { result ≡ length (stored_rules (exn_rules n)) }
    ensures upper_bound { result ≤ 3000 }
{
    17 * n + 10 * n * n
}

impl Function<'_> {
    // The rule at p where it is one of this function; none where it is another's.
    fn rule_length(&self, p: usize) -> usize
        requires { OpenedFor self.now.source p self.now.number self.now.arity }
        ensures value { result ≡ length (rule_if self.now.source p self.now.number self.now.arity) }
        ensures upper_bound { result ≤ 2002 }
    {
        if u16::from(self.source.program[p + 1]) == self.number {
            let s = self.rule_sizes(p);
            return 2 + usize::from(s.left) + usize::from(s.right);
        }
        0
    }

    // The program's rules of this function.
    fn own_rules_length(&self) -> usize
        ensures value { result ≡ length (rules_words self.now.number self.now.arity (rules_in self.now.source)) }
        ensures upper_bound { result ≤ 128128 }
    {
        let mut count = 0;
        for p in self.source.openings {
            count += self.rule_length(*p);
        }
        count
    }

    // All rules of this function.
    #[tactic(auto, using(crate::proofs::Counts::fun_count))]
    fn rules_length(&self) -> usize
        ensures value { result ≡ length (stored_rules (rules_for self.now.source self.now.number)) }
        ensures upper_bound { result ≤ 128200 }
    {
        let n = usize::from(self.arity);
        2 * n + 4 + n * (2 * n + 7) + self.own_rules_length()
    }
}

impl Ready<'_> {
    // The rules of all functions.
    fn functions_length(&self) -> usize
        ensures value { result ≡ length (stored_rules (gather (rules_for self.now.source) (numbers 0 self.now.source.functions))) }
        ensures upper_bound { result ≤ 128200 * self.now.source.functions }
    {
        let mut count = 0;
        for number in 0..self.source.functions as u16 {
            let f = Function::of(self, number);
            count += f.rules_length();
        }
        count
    }

    // The program's own list.
    #[tactic(auto, using(generated::proofs::Writes::length_both))]
    pub(crate) fn list_length(&self) -> usize
        ensures { result ≡ length (stored_rules (own_in self.now.source)) }
    {
        exception_length(self.source.exceptions) + self.functions_length()
    }
}
