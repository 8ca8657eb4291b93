// Words as text.
use std::fmt;

// A list of words, a space between them.
#[derive(Clone, Copy)]
pub struct Spaced<'a>(pub &'a [u16]);

impl fmt::Display for Spaced<'_> {
    fn fmt<W: fmt::Write>(&self, f: &mut fmt::Formatter<W>) -> fmt::Result {
        let Some((first, rest)) = self.0.split_first() else {
            return Ok(());
        };
        write!(f, "{first}")?;
        for word in rest {
            write!(f, " {word}")?;
        }
        Ok(())
    }
}
