// A case as a line: PROGRAM QUESTION STEPS LEVELS ROOM OWN FIRST SECOND, one space apart, bytes in hexadecimal digits, numbers in decimal ones.
ghost use Rattle.std.specs.Prelude.{ℕ, [], ◌≡◌, suc, ◌+◌, ◌<◌, length, drop, IfSome, MatchOption, option_map};
ghost use Rattle.answers.specs.Fields.{number_in, space_in, field_in, Reads};

use arrayvec::ArrayVec;

// The program and the question, the allowances, and the lengths of the lent slices.
#[derive(Drop)]
pub struct Case {
    pub program: ArrayVec<u8, 30000>,
    pub question: ArrayVec<u8, 30000>,
    pub steps: u32,
    pub levels: u32,
    pub room: u32,
    pub own: u32,
    pub first: u32,
    pub second: u32,
}

// A field of decimal digits, of which there is at least one. Past 32 bits it is the largest number of 32.
#[tactic(auto, unfolding(crate::specs::Fields::digits_from, crate::specs::Fields::number_in))]
fn number(field: &[u8]) -> Option<u32>
    ensures { result ≡ number_in field.now }
{
    if field.is_empty() {
        return None;
    }
    let mut value = 0u32;
    for c in field {
        let digit = char::from(*c).to_digit(10)?;
        value = value.saturating_mul(10).saturating_add(digit);
    }
    Some(value)
}

// Where the first space stands.
fn space_in(bytes: &[u8]) -> Option<usize>
    ensures value { result ≡ space_in bytes.now }
    ensures inside { IfSome result (λ k. k < length bytes.now) }
{
    bytes.iter().position(|b| *b == b' ')
}

// What stands behind a place.
fn behind(bytes: &[u8], at: usize) -> &[u8]
    requires { at < length bytes.now }
    ensures { result.now ≡ drop (at + 1) bytes.now }
{
    &bytes[at + 1..]
}

// What of a line is still to be cut into fields, with one space between fields; nothing once the last one is cut off.
#[derive(Drop)]
struct Fields<'l> {
    rest: Option<&'l [u8]>,
}

impl<'l> Fields<'l> {
    // The next field, if there is one. The one behind it comes next then.
    fn next(&mut self) -> Option<&'l [u8]>
        ensures field { option_map (λ f. f.now) result ≡ field_in 0 (option_map (λ r. r.now) self.old.rest) }
        ensures later { (n : ℕ) → field_in n (option_map (λ r. r.now) self.new.rest) ≡ field_in (suc n) (option_map (λ r. r.now) self.old.rest) }
    {
        let rest = self.rest.take()?;
        match space_in(rest) {
            None => Some(rest),
            Some(space) => {
                self.rest = Some(behind(rest, space));
                Some(&rest[..space])
            }
        }
    }
}

impl Case {
    // Nothing is read yet.
    pub fn new() -> Self
        ensures bytes { (result.program.items ≡ []) × (result.question.items ≡ []) }
        ensures numbers { (result.steps ≡ 0) × (result.levels ≡ 0) × (result.room ≡ 0) × (result.own ≡ 0) × (result.first ≡ 0) × (result.second ≡ 0) }
    {
        Case {
            program: ArrayVec::new(),
            question: ArrayVec::new(),
            steps: 0,
            levels: 0,
            room: 0,
            own: 0,
            first: 0,
            second: 0,
        }
    }

    // Reads a line's eight fields, and nothing behind the last. Where the line is no case, what is held then is not said.
    pub fn read(&mut self, line: &[u8]) -> Option<()>
        ensures { MatchOption result ((c : Case) → Reads line.now c → ⊥) (λ u. Reads line.now self.new) }
    {
        let mut fields = Fields { rest: Some(line) };
        let program = fields.next()?;
        lines::decode(program, &mut self.program)?;
        let question = fields.next()?;
        lines::decode(question, &mut self.question)?;
        self.steps = number(fields.next()?)?;
        self.levels = number(fields.next()?)?;
        self.room = number(fields.next()?)?;
        self.own = number(fields.next()?)?;
        self.first = number(fields.next()?)?;
        self.second = number(fields.next()?)?;
        if fields.next().is_some() {
            return None;
        }
        Some(())
    }
}
