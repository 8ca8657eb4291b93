// The record at a term's root: its word, its parts, its exception.
ghost use Rattle.std.specs.Prelude.{◌≡◌, ◌<◌, None, get_or};
ghost use Rattle.theory.specs.Bytes.{call_record};
ghost use Rattle.record.specs.Kind.{byte_of};
ghost use Rattle.term_words.specs.Records.{plain_record, long_record, Whole, from};
ghost use Rattle.term_words.specs.Roots.{root_of, root_at, words_of};

use super::TermBytes;
use record::{Kind, record_at};
use words::base::Base;
use words::slices::get_or;
use words::symbols::{EXCEPTION, HANDLE, IF, RAISE, SUCC, VARIABLE, symbol};

// The root of a term: its word, how many parts follow, and the place behind it. The exception of raise stands right behind its word; that
// of handle waits until the guarded part is passed.
#[derive(Clone, Copy)]
pub struct Root {
    pub word: u16,
    pub parts: u8,
    pub raised: Option<u16>,
    pub handled: Option<u16>,
    pub next: usize,
}

impl Root {
    // A root without an exception.
    fn new(word: u16, parts: u8, next: usize) -> Root
        ensures { result ≡ record { word = word; parts = parts; raised = None; handled = None; next = next } }
    {
        Root {
            word,
            parts,
            raised: None,
            handled: None,
            next,
        }
    }

    // How many words it is, the exception's among them.
    pub(crate) fn words(self) -> usize
        ensures { result ≡ words_of self }
    {
        1 + usize::from(self.raised.is_some()) + usize::from(self.handled.is_some())
    }
}

// A root without a body, which ends before `next`.
fn plain_root(kind: Kind, next: usize) -> Root
    ensures { result ≡ root_of (plain_record (byte_of kind)) next }
{
    match kind {
        Kind::Zero => Root::new(u16::from(Base::Zero), 0, next),
        Kind::Succ => Root::new(SUCC, 1, next),
        Kind::True => Root::new(u16::from(Base::True), 0, next),
        Kind::False => Root::new(u16::from(Base::False), 0, next),
        _ => Root::new(IF, 3, next),
    }
}

impl TermBytes<'_> {
    // The root of a call of function k.
    fn call_root(self, k: u16, next: usize) -> Root
        requires { k < 272 }
        ensures { result ≡ root_of (call_record k (get_or self.entry.arities.now k 0)) next }
    {
        Root::new(symbol(k, 0), get_or(self.arities, usize::from(k), 0), next)
    }

    // A root with a body.
    fn long_root(self, kind: Kind, body: u8, next: usize) -> Root
        ensures { result ≡ root_of (long_record self.entry.arities.now (byte_of kind) body) next }
    {
        let b = u16::from(body);
        match kind {
            Kind::Variable => Root::new(VARIABLE + b, 0, next),
            Kind::Raise => Root {
                raised: Some(EXCEPTION + b),
                ..Root::new(RAISE, 0, next)
            },
            Kind::Handle => Root {
                handled: Some(EXCEPTION + b),
                ..Root::new(HANDLE, 2, next)
            },
            Kind::Builtin => self.call_root(b, next),
            _ => self.call_root(16 + b, next),
        }
    }

    // The root of the term that stands at the place p. What the checker lets through has no unknown kind: it may be read as any.
    pub(crate) fn root_at(self, p: usize) -> Root
        requires { Whole (from self.arities.now self.bytes.now p) 1 }
        ensures { result ≡ root_at self.entry.arities.now self.entry.bytes.now p }
    {
        let r = record_at(self.bytes, p).unwrap();
        let next = p + r.len;
        let kind = Kind::try_from(r.kind).unwrap_or(Kind::If);
        if r.len == 1 {
            return plain_root(kind, next);
        }
        self.long_root(kind, r.body, next)
    }
}
