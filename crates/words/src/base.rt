// The constants 0, True and False, and their words.
ghost use Rattle.std.specs.Prelude.{◌≡◌};
ghost use Rattle.words.specs.Base.{base_of, word_of};

use std::fmt;

// The constants; each has its word for its number.
#[derive(Clone, Copy, PartialEq, Eq)]
pub enum Base {
    Zero = 1,
    True = 3,
    False = 4,
}

impl Base {
    // The constant whose word is w, if w is a constant's.
    pub fn of(w: u16) -> Option<Base>
        ensures { result ≡ base_of w }
    {
        match w {
            1 => Some(Base::Zero),
            3 => Some(Base::True),
            4 => Some(Base::False),
            _ => None,
        }
    }
}

// Its word.
impl From<Base> for u16 {
    ghost from_gives = { λ base w. w ≡ word_of base };

    fn from(base: Base) -> u16
        ensures { result ≡ word_of base }
    {
        base as u16
    }
}

// The name that answers give it.
impl fmt::Display for Base {
    fn fmt<W: fmt::Write>(&self, f: &mut fmt::Formatter<W>) -> fmt::Result {
        match *self {
            Base::Zero => write!(f, "zero"),
            Base::True => write!(f, "true"),
            Base::False => write!(f, "false"),
        }
    }
}
