// Lists and answers on standard output.
ghost use Rattle.std.specs.Prelude.{◌≡◌};
ghost use Rattle.own_lists.specs.Shown.{unchanged_in, mixed_of, sum_from};

use super::lists::NoList;
use rules::stored_rule::stored_at;
use std::{fmt, io};
use words::shown::Spaced;

impl fmt::Display for NoList {
    fn fmt<W: fmt::Write>(&self, f: &mut fmt::Formatter<W>) -> fmt::Result {
        match *self {
            NoList::Refused => write!(f, "refused"),
            NoList::Short => write!(f, "short"),
        }
    }
}

// How many words were written, or why none.
pub(crate) fn show_answer(rt: &impl Print, answer: Result<usize, NoList>) -> io::Result<()> {
    match answer {
        Ok(n) => print!(rt; "count {n}"),
        Err(e) => print!(rt; "{e}"),
    }
}

// A rule to a line. Its two counts stand before its words.
pub(crate) fn show_rules(rt: &impl Print, own: &[u16]) -> io::Result<()> {
    let mut at = 0;
    while let Some(rule) = stored_at(own, at) {
        println!(rt; "{}", Spaced(&own[at..rule.past]))?;
        at = rule.past;
    }
    Ok(())
}

// How many words are as they were before.
pub(crate) fn unchanged(own: &[u16]) -> usize
    ensures { result ≡ unchanged_in own.now }
{
    own.iter().filter(|w| **w == 65535).count()
}

// One number by which lists that differ are told apart.
pub(crate) fn sum_of(own: &[u16]) -> usize
    ensures { result ≡ sum_from 0 own.now }
{
    own.iter().fold(0, |sum, w| mixed(sum, usize::from(*w)))
}

fn mixed(sum: usize, w: usize) -> usize
    ensures { result ≡ mixed_of sum w }
{
    (sum % 1000003 * 31 + w % 65536) % 1000003
}
