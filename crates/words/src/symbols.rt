// The words of the symbols, by name. The constants' are said by `Base`; a function's are counted from FUNCTION, eight to a function.
ghost use Rattle.std.specs.Prelude.{◌≡◌, ◌<◌};
ghost use Rattle.theory.specs.Translation.{aux};

pub const SUCC: u16 = 2;

pub const TT: u16 = 5;

pub const FIRE: u16 = 6;

pub const GUARD: u16 = 7;

pub const SELECT: u16 = 8;

pub const IS_DATA: u16 = 9;

pub const IF: u16 = 10;

pub const RAISE: u16 = 11;

pub const HANDLE: u16 = 12;

// The first exception's word, and the last's.
pub const EXCEPTION: u16 = 32;

pub const LAST_EXCEPTION: u16 = 47;

// The first variable's word, and the last's.
pub const VARIABLE: u16 = 64;

pub const LAST_VARIABLE: u16 = 71;

// The first function's word.
pub const FUNCTION: u16 = 256;

// The symbol of function k, where j is 0, and of its auxiliary j.
pub fn symbol(k: u16, j: u16) -> u16
    requires { (k < 300) × (j < 8) }
    ensures { result ≡ aux k j }
{
    FUNCTION + 8 * k + j
}
