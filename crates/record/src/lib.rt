// One record of a program's or a question's bytes: the checker and the reading of terms as words share this one reading.
#![tactic(auto)]

ghost use Rattle.std.specs.Prelude.{◌≡◌};
ghost use Rattle.record.specs.Kind.{byte_of, ReadsAs};
ghost use Rattle.record.specs.Record.{record_at};
ghost use Rattle.theory.specs.Bytes.{body_length};

// The kinds of records, by their first bytes: of a program, and of terms from 0x10 on.
#[derive(Clone, Copy, PartialEq, Eq)]
pub enum Kind {
    Exception = 0x01,
    Function = 0x02,
    Rule = 0x03,
    End = 0x04,
    Zero = 0x10,
    Succ = 0x11,
    True = 0x12,
    False = 0x13,
    Variable = 0x14,
    Raise = 0x15,
    Handle = 0x16,
    If = 0x17,
    Builtin = 0x18,
    Call = 0x19,
}

// What a byte that stands for no kind is read as.
#[derive(Clone, Copy, PartialEq, Eq)]
pub struct UnknownKind;

// The kind that a byte stands for, if it is one.
impl TryFrom<u8> for Kind {
    type Error = UnknownKind;

    ghost try_from_gives = { ReadsAs };

    fn try_from(byte: u8) -> Result<Kind, UnknownKind>
        ensures { ReadsAs byte result }
    {
        match byte {
            0x01 => Ok(Kind::Exception),
            0x02 => Ok(Kind::Function),
            0x03 => Ok(Kind::Rule),
            0x04 => Ok(Kind::End),
            0x10 => Ok(Kind::Zero),
            0x11 => Ok(Kind::Succ),
            0x12 => Ok(Kind::True),
            0x13 => Ok(Kind::False),
            0x14 => Ok(Kind::Variable),
            0x15 => Ok(Kind::Raise),
            0x16 => Ok(Kind::Handle),
            0x17 => Ok(Kind::If),
            0x18 => Ok(Kind::Builtin),
            0x19 => Ok(Kind::Call),
            _ => Err(UnknownKind),
        }
    }
}

impl Kind {
    // The bytes of a record of this kind after its first.
    fn body_len(self) -> usize
        ensures { result ≡ body_length (byte_of self) }
    {
        match self {
            Kind::Function => 2,
            Kind::Exception
            | Kind::Rule
            | Kind::Variable
            | Kind::Raise
            | Kind::Handle
            | Kind::Builtin
            | Kind::Call => 1,
            Kind::End | Kind::Zero | Kind::Succ | Kind::True | Kind::False | Kind::If => 0,
        }
    }
}

// A record: the byte of its kind, its body (zero where the kind has none), and how many bytes it takes.
#[derive(Clone, Copy)]
pub struct Record {
    pub kind: u8,
    pub body: u8,
    pub second: u8,
    pub len: usize,
}

// The bytes after the first of a record that begins with this byte: an unknown kind has none.
fn body_len(byte: u8) -> usize
    ensures { result ≡ body_length byte }
{
    Kind::try_from(byte).map_or(0, Kind::body_len)
}

// The record that starts at `at`: none where the bytes end before it or in it.
#[tactic(auto, using(crate::proofs::Laws::nothing_left, crate::proofs::Laws::ends_within, crate::proofs::Laws::whole))]
pub fn record_at(bytes: &[u8], at: usize) -> Option<Record>
    ensures { result ≡ record_at bytes.now at }
{
    let kind = *bytes.get(at)?;
    let body = bytes.get(at + 1..at + 1 + body_len(kind))?;
    Some(Record {
        kind,
        body: body.first().copied().unwrap_or(0),
        second: body.get(1).copied().unwrap_or(0),
        len: 1 + body.len(),
    })
}
