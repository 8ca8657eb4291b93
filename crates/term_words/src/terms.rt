// Terms one after the other: their words written, and counted.
ghost use Rattle.std.specs.Prelude.{◌≡◌, ◌+◌, ◌<◌, ◌≤◌, length};
ghost use Rattle.generated.specs.Wrote.{Room, Wrote};
ghost use Rattle.term_words.specs.Records.{Whole, count_of, from, terms_at, term_at, Passed};
ghost use Rattle.term_words.specs.Roots.{root_words, exception_words};
ghost use Rattle.term_words.specs.Late.{most_owed, Clear};
ghost use Rattle.theory.specs.Words.{words, all_words};
ghost use Rattle.theory.specs.Translation.{tree, trees};
ghost use Rattle.theory.specs.Bytes.{first_terms};

use super::TermBytes;
use super::roots::Root;
use generated::writing::Writer;

// An exception's word, where there is one.
#[tactic(auto, using(generated::proofs::Writes::nothing_written))]
fn put_exception(out: &mut Writer, exception: Option<u16>)
    requires { Room (exception_words exception) out.old }
    ensures { Wrote (exception_words exception) out.old out.new }
{
    if let Some(word) = exception {
        out.put(&[word]);
    }
}

impl Root {
    // The word at a root, and behind raise its exception.
    #[tactic(auto, using(generated::proofs::Writes::rooms))]
    fn put(self, out: &mut Writer)
        requires { Room (root_words self.word self.raised) out.old }
        ensures { Wrote (root_words self.word self.raised) out.old out.new }
    {
        out.put(&[self.word]);
        put_exception(out, self.raised);
    }
}

// Where terms end in the bytes, and how many words they are.
#[derive(Clone, Copy)]
pub struct Size {
    pub end: usize,
    pub words: usize,
}

impl TermBytes<'_> {
    // The words of n terms, one after the other: record by record, with the number of terms still owed. The exception of a handle stands
    // behind its guarded part. Once that is passed as many terms are owed as now, the handler in place of the handle; so the exception
    // waits in the slot of that number, and every slot is empty again at the end. Answered is the place past the terms in the bytes.
    pub fn put_with(self, p: usize, n: u8, out: &mut Writer, late: &mut [Option<u16>]) -> usize
        requires p_in_bounds { (p ≤ length self.bytes.now) × Whole (from self.arities.now self.bytes.now p) n }
        requires room { Room (all_words (trees (first_terms n (terms_at self.arities.now self.bytes.now p)))) out.old }
        requires n_in_bounds { (count_of (from self.arities.now self.bytes.now p) n < length late.old) × Clear late.old 0 }
        ensures passed { Passed self.entry.arities.now self.entry.bytes.now p n result }
        ensures wrote { Wrote (all_words (trees (first_terms n (terms_at self.entry.arities.now self.entry.bytes.now p)))) out.old out.new }
        ensures late_after { Clear late.new 0 × (length late.new ≡ length late.old) }
    {
        let mut owed = usize::from(n);
        let mut next = p;
        while 0 < owed {
            let root = self.root_at(next);
            root.put(out);
            late[owed] = root.handled;
            owed = owed - 1 + usize::from(root.parts);
            next = root.next;
            put_exception(out, late[owed].take());
        }
        next
    }

    // The same, with slots of its own.
    pub fn put_terms(self, p: usize, n: u8, out: &mut Writer) -> usize
        requires p_in_bounds { (p ≤ length self.bytes.now) × Whole (from self.arities.now self.bytes.now p) n }
        requires n_bound { count_of (from self.arities.now self.bytes.now p) n ≤ most_owed }
        requires room { Room (all_words (trees (first_terms n (terms_at self.arities.now self.bytes.now p)))) out.old }
        ensures passed { Passed self.entry.arities.now self.entry.bytes.now p n result }
        ensures wrote { Wrote (all_words (trees (first_terms n (terms_at self.entry.arities.now self.entry.bytes.now p)))) out.old out.new }
    {
        let mut late = [None; 513];
        self.put_with(p, n, out, &mut late)
    }

    // The words of the term that stands at the place p.
    pub fn put_term(self, p: usize, out: &mut Writer) -> usize
        requires whole { Whole (from self.arities.now self.bytes.now p) 1 }
        requires p_bound { count_of (from self.arities.now self.bytes.now p) 1 ≤ most_owed }
        requires room { Room (words (tree (term_at self.arities.now self.bytes.now p))) out.old }
        ensures passed { Passed self.entry.arities.now self.entry.bytes.now p 1 result }
        ensures wrote { Wrote (words (tree (term_at self.entry.arities.now self.entry.bytes.now p))) out.old out.new }
    {
        self.put_terms(p, 1, out)
    }

    // The place past n terms, and how many words they are: record by record, with the number of terms still owed.
    pub fn size_of(self, p: usize, n: u8) -> Size
        requires p_in_bounds { (p ≤ length self.bytes.now) × Whole (from self.arities.now self.bytes.now p) n }
        requires n_bound { count_of (from self.arities.now self.bytes.now p) n < 65536 }
        ensures passed { Passed self.entry.arities.now self.entry.bytes.now p n result.end }
        ensures words { result.words ≡ count_of (from self.entry.arities.now self.entry.bytes.now p) n }
    {
        let mut owed = usize::from(n);
        let mut next = p;
        let mut words = 0;
        while 0 < owed {
            let root = self.root_at(next);
            words += root.words();
            owed = owed - 1 + usize::from(root.parts);
            next = root.next;
        }
        Size { end: next, words }
    }
}
