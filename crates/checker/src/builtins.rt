// The arities by function number before anything is declared: the built-ins', said here and nowhere else in the code.
ghost use Rattle.std.specs.Prelude.{◌≡◌, [], ◌<◌};
ghost use Rattle.theory.specs.Builtins.{nth_fun, builtin_funs};
ghost use Rattle.checker.specs.Answer.{table};

// Built-in b is function b; the declared functions' numbers begin at 16.
const ARITIES: [u8; 48] = [
    2, 2, 1, 2, 2, 2, 2, 2, 2, 2, 2, 2, 0, 0, 0, 0, 0, 0, 0, 0, 0, 0, 0, 0, 0, 0, 0, 0, 0, 0, 0, 0,
    0, 0, 0, 0, 0, 0, 0, 0, 0, 0, 0, 0, 0, 0, 0, 0,
];

// A program or a question may call the built-ins up to this one.
pub const LAST_CALLED: u8 = 10;

#[tactic(auto, unfolding(crate::specs::Answer::table, crate::specs::Answer::padded))]
pub fn start_arities() -> [u8; 48]
    ensures { result ≡ table [] }
{
    ARITIES
}

// The arity of a built-in.
#[tactic(auto, using(crate::proofs::Table::table_builtin))]
pub fn builtin_arity(b: u8) -> u8
    requires { b < 16 }
    ensures { result ≡ (nth_fun builtin_funs b).arity }
{
    start_arities()[usize::from(b)]
}
