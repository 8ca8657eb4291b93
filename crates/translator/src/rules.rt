// A program's rules, found by their openings in its bytes, and written as words.
ghost use Rattle.std.specs.Prelude.{◌≡◌, ◌+◌};
ghost use Rattle.generated.specs.Wrote.{Room, Wrote};
ghost use Rattle.translator.specs.Opened.{Opened, OpenedFor, rule_at, rule_if};
ghost use Rattle.translator.specs.Sized.{sizes_at};
ghost use Rattle.translator.specs.Listed.{rules_in, rules_words};
ghost use Rattle.translator.specs.List.{rules_for, own_in};
ghost use Rattle.theory.specs.Words.{stored_rule, stored_rules};
ghost use Rattle.theory.specs.Translation.{gather, numbers};

use super::program::{Function, Ready};
use generated::exceptions::exception_rules;
use generated::functions::call_rules;
use generated::writing::Writer;
use words::symbols::symbol;

// Slots for the exceptions that wait in a rule's side: more than its words, which are 128 at the most.
const SLOTS: usize = 129;

// A rule in the bytes: the words of its left side and of its right side.
#[derive(Clone, Copy)]
pub struct Sizes {
    pub left: u16,
    pub right: u16,
}

impl Function<'_> {
    // The sizes of the rule at p.
    pub(crate) fn rule_sizes(&self, p: usize) -> Sizes
        requires { Opened self.now.source p self.now.arity }
        ensures { result ≡ sizes_at self.now.source p self.now.arity }
    {
        let terms = self.source.terms();
        let left = terms.size_of(p + 2, self.arity);
        let right = terms.size_of(left.end, 1);
        Sizes {
            left: left.words as u16 + 1,
            right: right.words as u16,
        }
    }

    // The rewrite rule of this function that stands at p.
    fn put_rule(&self, p: usize, out: &mut Writer)
        requires opened { Opened self.now.source p self.now.arity }
        requires room { Room (stored_rule (rule_at self.now.source p (16 + self.now.number) self.now.arity)) out.old }
        ensures { Wrote (stored_rule (rule_at self.now.source p (16 + self.now.number) self.now.arity)) out.old out.new }
    {
        let terms = self.source.terms();
        let s = self.rule_sizes(p);
        let auxiliary = symbol(16 + self.number, u16::from(self.arity) + 1);
        out.put(&[s.left, s.right, auxiliary]);
        let mut late = [None; SLOTS];
        let middle = terms.put_with(p + 2, self.arity, out, &mut late);
        terms.put_with(middle, 1, out, &mut late);
    }

    // The rule at p where it is one of this function; nothing where it is another's.
    #[tactic(auto, using(crate::proofs::Laws::none_of_others))]
    fn put_rule_if(&self, p: usize, out: &mut Writer)
        requires opened_for { OpenedFor self.now.source p self.now.number self.now.arity }
        requires room { Room (rule_if self.now.source p self.now.number self.now.arity) out.old }
        ensures { Wrote (rule_if self.now.source p self.now.number self.now.arity) out.old out.new }
    {
        if u16::from(self.source.program[p + 1]) == self.number {
            self.put_rule(p, out);
        }
    }

    // The program's rules of this function, in program order.
    fn put_own_rules(&self, out: &mut Writer)
        requires { Room (rules_words self.now.number self.now.arity (rules_in self.now.source)) out.old }
        ensures { Wrote (rules_words self.now.number self.now.arity (rules_in self.now.source)) out.old out.new }
    {
        for p in self.source.openings {
            self.put_rule_if(*p, out);
        }
    }

    // All rules of this function: its entry, its arguments from the first, its own.
    #[tactic(auto, using(crate::proofs::Counts::fun_rooms))]
    fn put_rules(&self, out: &mut Writer)
        requires { Room (stored_rules (rules_for self.now.source self.now.number)) out.old }
        ensures { Wrote (stored_rules (rules_for self.now.source self.now.number)) out.old out.new }
    {
        call_rules(out, 16 + self.number, u16::from(self.arity));
        self.put_own_rules(out);
    }
}

impl Ready<'_> {
    // The rules of all functions.
    fn put_functions(&self, out: &mut Writer)
        requires { Room (stored_rules (gather (rules_for self.now.source) (numbers 0 self.now.source.functions))) out.old }
        ensures { Wrote (stored_rules (gather (rules_for self.now.source) (numbers 0 self.now.source.functions))) out.old out.new }
    {
        for number in 0..self.source.functions as u16 {
            let f = Function::of(self, number);
            f.put_rules(out);
        }
    }

    // The program's own list.
    #[tactic(auto, using(generated::proofs::Writes::rooms))]
    pub(crate) fn put_list(&self, out: &mut Writer)
        requires { Room (stored_rules (own_in self.now.source)) out.old }
        ensures { Wrote (stored_rules (own_in self.now.source)) out.old out.new }
    {
        exception_rules(out, self.source.exceptions as u16);
        self.put_functions(out);
    }
}
