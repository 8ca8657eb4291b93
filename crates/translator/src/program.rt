// A program whose rules are known to stand at its openings, and a function of it: what is asked of both is said once, by their types.
ghost use Rattle.std.specs.Prelude.{◌≡◌, ◌+◌, ◌<◌, ◌≤◌, get_or};
ghost use Rattle.translator.specs.Listed.{Listed, Small};
ghost use Rattle.translator.specs.Accepted.{Accepted};

use super::Source;
use words::slices::get_or;

// An accepted program. That each rule stands at its opening goes by cases, so the struct holds it truncated, as one proof at most.
#[derive(Clone, Copy)]
pub(crate) struct Ready<'a> {
    pub(crate) source: Source<'a>,
    ghost listed: { ∥ Listed source ∥₁ },
    ghost small: { Small source },
}

impl<'a> Ready<'a> {
    pub(crate) fn of(source: &Source<'a>) -> Ready<'a>
        requires { Accepted source.now }
        ensures { result.source ≡ source.now }
    {
        Ready { source: *source }
    }
}

// A function that such a program declares: its number, and how many arguments it has.
#[derive(Clone, Copy)]
pub(crate) struct Function<'a> {
    pub(crate) source: Source<'a>,
    pub(crate) number: u16,
    pub(crate) arity: u8,
    ghost listed: { ∥ Listed source ∥₁ },
    ghost arity_value: { arity ≡ get_or source.arities.now (16 + number) 0 },
    ghost number_bound: { number < 32 },
    ghost arity_bound: { arity ≤ 4 },
}

impl<'a> Function<'a> {
    pub(crate) fn of(ready: &Ready<'a>, number: u16) -> Function<'a>
        requires { number < ready.now.source.functions }
        ensures source { result.source ≡ ready.now.source }
        ensures number { result.number ≡ number }
    {
        let source = ready.source;
        Function {
            source,
            number,
            arity: get_or(source.arities, usize::from(16 + number), 0),
        }
    }
}
