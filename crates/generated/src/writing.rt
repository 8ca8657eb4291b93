// Words written into a lent slice, one after the other.
ghost use Rattle.std.specs.Prelude.{◌≡◌, ℕ, List};
ghost use Rattle.generated.specs.Wrote.{Room, Wrote, WritesEach};
ghost use Rattle.theory.specs.Tree.{Rule};
ghost use Rattle.theory.specs.Words.{stored_rules};
ghost use Rattle.theory.specs.Translation.{gather, numbers};

use words::slices::put;

// A lent slice, and the place in it that is written next.
#[derive(Drop)]
pub struct Writer<'a> {
    dst: &'a mut [u16],
    at: usize,
}

impl<'a> Writer<'a> {
    // A writer at the start of a slice.
    pub fn new(dst: &'a mut [u16]) -> Writer<'a>
        ensures same_slice { result.dst.ghost_name ≡ dst.entry.ghost_name }
        ensures words { result.dst.now ≡ dst.old }
        ensures start { result.at ≡ 0 }
    {
        Writer { dst, at: 0 }
    }

    // How many words stand before the place that is written next.
    pub fn written(&self) -> usize
        ensures { result ≡ self.now.at }
    {
        self.at
    }

    // The words, at the place that is written next; the writer is past them then.
    pub fn put(&mut self, words: &[u16])
        requires { Room words.now self.old }
        ensures { Wrote words.now self.old self.new }
    {
        let Writer { dst, at } = self;
        put(dst, *at, words);
        *at += words.len();
    }
}

// What `rules` writes for each number below n, from 0 on: the rules that `rule` gives for it.
pub fn put_each<F: Fn(&mut Writer, u16)>(out: &mut Writer, n: u16, rules: F)
    ghost rule: { ℕ → List Rule }
    requires writes { WritesEach F.Fn rules n rule }
    requires room { Room (stored_rules (gather rule (numbers 0 n))) out.old }
    ensures { Wrote (stored_rules (gather rule (numbers 0 n))) out.old out.new }
{
    for i in 0..n {
        rules(out, i);
    }
}
