// The program with the largest own list: 16 exceptions, 32 functions of arity 4, 64 rules, and no byte of a term without its word. Each
// left side has 32 words, its root among them; 63 right sides have 93 words, and one has 92: 8,192 bytes.
use arrayvec::ArrayVec;
use record::Kind;

// A program's bytes, as many as one may have. What would pass the last is dropped.
#[derive(Drop)]
pub(crate) struct Book {
    bytes: ArrayVec<u8, 8192>,
}

impl Book {
    pub(crate) fn bytes(&self) -> &[u8] {
        self.bytes.as_slice()
    }

    fn put(&mut self, byte: u8) {
        let _ = self.bytes.try_push(byte);
    }

    fn put_kind(&mut self, kind: Kind) {
        self.put(kind as u8);
    }

    // n times succ over 0.
    fn put_value(&mut self, n: u8) {
        for _ in 0..n {
            self.put_kind(Kind::Succ);
        }
        self.put_kind(Kind::Zero);
    }

    fn put_exceptions(&mut self) {
        for e in 0..16 {
            self.put_kind(Kind::Exception);
            self.put(e);
        }
    }

    fn put_functions(&mut self) {
        for f in 0..32 {
            self.put_kind(Kind::Function);
            self.put(f);
            self.put(4);
        }
    }

    // raise of e, handled by n times succ over 0.
    fn put_right(&mut self, e: u8, n: u8) {
        self.put_kind(Kind::Handle);
        self.put(e);
        self.put_kind(Kind::Raise);
        self.put(e);
        self.put_value(n);
    }

    // A rule of each function: two values on the left, then 0 and 0. The program's last rule has a word less on its right.
    fn put_rules(&mut self, first: u8, second: u8, last_right: u8) {
        for f in 0..32 {
            self.put_kind(Kind::Rule);
            self.put(f);
            self.put_value(first);
            self.put_value(second);
            self.put_value(0);
            self.put_value(0);
            self.put_right(f % 16, if f < 31 { 88 } else { last_right });
        }
    }
}

// The program: the first rule of each function, and then the second.
pub(crate) fn largest_program() -> Book {
    let mut book = Book {
        bytes: ArrayVec::new(),
    };
    book.put_exceptions();
    book.put_functions();
    book.put_rules(27, 0, 88);
    book.put_rules(0, 27, 87);
    book.put_kind(Kind::End);
    book
}
