// The output, through a buffer that is written out when it is full: a line can have tens of thousands of numbers.
ghost use Rattle.std.specs.Prelude.{[], ◌≡◌, ◌+◌, ◌≤◌, ◌++◌, length, codes, IfOk};
ghost use Rattle.arrayvec.specs.ArrayVec.{array_vec_len};
ghost use Rattle.wording.specs.Words.{ending_of, refusal_of};
ghost use Rattle.answers.specs.Held.{before_piece, with_word, with_words};

use arrayvec::ArrayVec;
use bridge::report::Report;
use std::io;

// The room that every piece of text has.
const PIECE: usize = 128;

// What is not written out yet.
#[derive(Drop)]
pub struct Output {
    held: ArrayVec<u8, 65536>,
}

impl Output {
    // Nothing is held.
    pub fn new() -> Self
        ensures { result.held.items ≡ [] }
    {
        Output {
            held: ArrayVec::new(),
        }
    }

    // Writes out what is held.
    pub fn flush(&mut self, rt: &impl Print) -> io::Result<()>
        ensures { self.new.held.items ≡ [] }
    {
        let written = rt.write_all(self.held.as_slice());
        self.held.clear();
        written
    }

    // Makes room for a piece of text: what is held is written out where too little is left.
    fn make_room(&mut self, rt: &impl Print) -> io::Result<()>
        ensures value { IfOk result (λ u. self.new.held.items ≡ before_piece self.old.held.items) }
        ensures room { IfOk result (λ u. array_vec_len self.new.held + 128 ≤ 65536) }
    {
        if self.held.remaining_capacity() < PIECE {
            self.flush(rt)?;
        }
        Ok(())
    }

    // A short text.
    pub fn put_piece(&mut self, rt: &impl Print, text: &[u8]) -> io::Result<()>
        requires { length text.now ≤ 128 }
        ensures { IfOk result (λ u. self.new.held.items ≡ before_piece self.old.held.items ++ text.now) }
    {
        self.make_room(rt)?;
        wording::put_text(&mut self.held, text);
        Ok(())
    }

    // A refusal's line.
    pub fn put_refused(&mut self, rt: &impl Print, report: Report) -> io::Result<()>
        ensures { IfOk result (λ u. self.new.held.items ≡ before_piece self.old.held.items ++ refusal_of report ++ codes "\n") }
    {
        self.make_room(rt)?;
        wording::put_refusal(&mut self.held, report);
        wording::put_text(&mut self.held, b"\n");
        Ok(())
    }

    // How both engines ended.
    pub fn put_engines(
        &mut self,
        rt: &impl Print,
        evaluated: Report,
        rewritten: Report,
    ) -> io::Result<()>
        ensures { IfOk result (λ u. self.new.held.items ≡ before_piece self.old.held.items ++ codes "ok " ++ ending_of evaluated ++ codes " ; " ++ ending_of rewritten) }
    {
        self.make_room(rt)?;
        wording::put_text(&mut self.held, b"ok ");
        wording::put_ending(&mut self.held, evaluated);
        wording::put_text(&mut self.held, b" ; ");
        wording::put_ending(&mut self.held, rewritten);
        Ok(())
    }

    // A word behind the sign that parts it from what stands before.
    fn put_word(&mut self, rt: &impl Print, sign: &[u8], word: u16) -> io::Result<()>
        requires { length sign.now ≤ 3 }
        ensures { IfOk result (λ u. self.new.held.items ≡ with_word self.old.held.items sign.now word) }
    {
        self.make_room(rt)?;
        wording::put_text(&mut self.held, sign);
        wording::put_number(&mut self.held, u32::from(word));
        Ok(())
    }

    // A list of words, with commas between them; "-" for none.
    #[tactic(auto, unfolding(crate::specs::Held::with_words, crate::specs::Held::with_more))]
    pub fn put_words(&mut self, rt: &impl Print, words: &[u16]) -> io::Result<()>
        ensures { IfOk result (λ u. self.new.held.items ≡ with_words self.old.held.items words.now) }
    {
        let Some((first, rest)) = words.split_first() else {
            return self.put_piece(rt, b" ; -");
        };
        self.put_word(rt, b" ; ", *first)?;
        for word in rest {
            self.put_word(rt, b",", *word)?;
        }
        Ok(())
    }
}
