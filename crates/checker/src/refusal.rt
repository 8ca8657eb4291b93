// Why a program or a question is refused, and where.
ghost use Rattle.std.specs.Prelude.{◌≡◌};
ghost use Rattle.checker.specs.Refusal.{number_of};
ghost use Rattle.checker.specs.declared.refusal.Reason.TheVariants.{KindNotAllowed};

use record::UnknownKind;
use std::fmt;

// The reasons by the documents' numbers, in the order in which they are tested.
#[derive(Clone, Copy, PartialEq, Eq)]
pub enum Reason {
    ProgramTooLong = 1,
    BytesEnd = 2,
    KindNotAllowed = 3,
    PastCeiling = 9,
    WrongNumber = 4,
    NotOnLeft = 5,
    VariableTwice = 6,
    VariableUnknown = 7,
    TooManyWords = 8,
    FunctionWithoutRule = 17,
    BytesLeftOver = 11,
    RulesOverlap = 10,
}

// A refusal: its reason, and the place in the bytes.
#[derive(Clone, Copy, PartialEq, Eq)]
pub struct Refusal {
    pub reason: Reason,
    pub place: usize,
}

// The number that reports give.
impl From<Reason> for u8 {
    ghost from_gives = { λ reason number. number ≡ number_of reason };

    fn from(reason: Reason) -> u8
        ensures { result ≡ number_of reason }
    {
        reason as u8
    }
}

// A byte that stands for no kind is of no kind that is allowed.
impl From<UnknownKind> for Reason {
    ghost from_gives = { λ unknown reason. reason ≡ KindNotAllowed };

    fn from(_unknown: UnknownKind) -> Reason
        ensures { result ≡ KindNotAllowed }
    {
        Reason::KindNotAllowed
    }
}

impl Reason {
    // A refusal for this reason.
    pub fn at(self, place: usize) -> Refusal
        ensures { result ≡ record { reason = self; place = place } }
    {
        Refusal {
            reason: self,
            place,
        }
    }
}

// The number and the place.
impl fmt::Display for Refusal {
    fn fmt<W: fmt::Write>(&self, f: &mut fmt::Formatter<W>) -> fmt::Result {
        write!(f, "{} {}", u8::from(self.reason), self.place)
    }
}
