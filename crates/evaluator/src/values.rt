// Values, and how an evaluation ends.
ghost use Rattle.std.specs.Prelude.{◌≡◌};
ghost use Rattle.evaluator.specs.Values.{answer};

use std::fmt;
use words::base::Base;

// succ so many times over a constant.
#[derive(Clone, Copy)]
pub struct Value {
    pub succs: u32,
    pub base: Base,
}

impl Value {
    // What a variable stands for before it is bound: 0.
    pub const ZERO: Value = Value {
        succs: 0,
        base: Base::Zero,
    };
}

// Its succ signs, and its constant.
impl fmt::Display for Value {
    fn fmt<W: fmt::Write>(&self, f: &mut fmt::Formatter<W>) -> fmt::Result {
        let Value { succs, base } = *self;
        write!(f, "{succs} {base}")
    }
}

// A value; an exception; stuck with so many succ signs outside; out of steps; too deep.
#[derive(Clone, Copy)]
pub enum Ending {
    Done(Value),
    Raised(u16),
    Stuck(u32),
    Out,
    Deep,
}

// In the words of document 01: what it is, how much of it, and a value's constant.
impl fmt::Display for Ending {
    fn fmt<W: fmt::Write>(&self, f: &mut fmt::Formatter<W>) -> fmt::Result {
        match *self {
            Ending::Done(v) => write!(f, "value {v}"),
            Ending::Raised(x) => write!(f, "exception {x} -"),
            Ending::Stuck(s) => write!(f, "stuck {s} -"),
            Ending::Out => write!(f, "out - -"),
            Ending::Deep => write!(f, "deep - -"),
        }
    }
}

// How an evaluation ended, and the steps left of those allowed.
#[derive(Clone, Copy)]
pub struct Answer {
    pub end: Ending,
    pub left: u32,
}

impl Ending {
    // The answer that ends so, with so many steps left.
    pub fn leaving(self, left: u32) -> Answer
        ensures { result ≡ answer self left }
    {
        Answer { end: self, left }
    }
}

// How an evaluation ended, and the steps that it took.
#[derive(Clone, Copy)]
pub struct Outcome {
    pub end: Ending,
    pub steps: u32,
}
