// What has been read of a program, and its declarations of exceptions and functions.
ghost use Rattle.std.specs.Prelude.{◌≡◌};
ghost use Rattle.checker.specs.Declarations.{start_top, exception_turn, function_turn, came_to};

use crate::Checked;
use crate::builtins::start_arities;
use crate::refusal::{Reason, Refusal};

// How far the reading of a program has come: exceptions are declared first, then functions, then rules stand up to the end.
#[derive(Clone, Copy, PartialEq, Eq, PartialOrd)]
pub enum Stage {
    Exceptions,
    Functions,
    Rules,
    End,
}

// Where the reading of a program stands, what has been read of it, and which of the declared functions have a rule.
#[derive(Clone, Copy)]
pub struct Top {
    pub place: usize,
    pub stage: Stage,
    pub read: Checked,
    pub ruled: [bool; 32],
}

// A turn reads one record and notes in place what it says; a turn that is refused is the last.
impl Top {
    // Nothing read yet: the built-ins' arities.
    #[tactic(auto, unfolding(crate::specs::Declarations::start_top))]
    pub fn start() -> Top
        ensures { result ≡ start_top }
    {
        let arities = start_arities();
        Top {
            place: 0,
            stage: Stage::Exceptions,
            read: Checked {
                exceptions: 0,
                functions: 0,
                rules: 0,
                arities,
                openings: [0; 64],
            },
            ruled: [false; 32],
        }
    }

    // 01: the next exception.
    #[tactic(auto, unfolding(crate::specs::Declarations::exception_turn))]
    pub fn declare_exception(&mut self, body: u8, next: usize) -> Result<(), Refusal>
        ensures { came_to result self.new ≡ exception_turn self.old body next }
    {
        let place = self.place;
        if self.stage != Stage::Exceptions {
            return Err(Reason::KindNotAllowed.at(place));
        }
        if 16 <= self.read.exceptions {
            return Err(Reason::PastCeiling.at(place));
        }
        if usize::from(body) != self.read.exceptions {
            return Err(Reason::WrongNumber.at(place));
        }
        self.read.exceptions += 1;
        self.place = next;
        Ok(())
    }

    // 02: the next function, of an arity up to 4.
    #[tactic(auto, unfolding(crate::specs::Declarations::function_turn))]
    pub fn declare_function(&mut self, body: u8, arity: u8, next: usize) -> Result<(), Refusal>
        ensures { came_to result self.new ≡ function_turn self.old body arity next }
    {
        let here = self.place;
        if Stage::Functions < self.stage {
            return Err(Reason::KindNotAllowed.at(here));
        }
        if 32 <= self.read.functions {
            return Err(Reason::PastCeiling.at(here));
        }
        if usize::from(body) != self.read.functions || 4 < arity {
            return Err(Reason::WrongNumber.at(here));
        }
        self.read.arities[16 + self.read.functions] = arity;
        self.read.functions += 1;
        self.stage = Stage::Functions;
        self.place = next;
        Ok(())
    }
}
