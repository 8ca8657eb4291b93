// Standard input: its lines, one at a time, through two slices that the caller lends, or its first bytes, into one. A read that fails is
// an error.
#![tactic(auto)]

ghost use Rattle.std.specs.Prelude.{◌≡◌, ◌≤◌, length, IfOk};

use arrayvec::CapacityError;
use memchr::memchr;
use std::io;
use std::io::{Read, Stdin};

// The lines of standard input. `chunk` is a lent slice that holds what was read at a time, of which the bytes from `at` up to `end` are
// still to come; `line` is one that holds a line.
#[derive(Drop)]
pub struct Lines<'c, 'l> {
    pub stdin: Stdin,
    pub chunk: &'c mut [u8],
    pub at: usize,
    pub end: usize,
    pub line: &'l mut [u8],
    ghost within: { (at ≤ end) × (end ≤ length chunk.now) },
}

// What is held of a line, and one part more of it behind, where that fits.
fn hold(
    line: &mut [u8],
    held: Result<usize, CapacityError>,
    part: &[u8],
) -> Result<usize, CapacityError>
    requires { IfOk held (λ len. len ≤ length line.old) }
    ensures { IfOk result (λ len. len ≤ length line.new) }
{
    let len = held?;
    let end = len + part.len();
    let Some(room) = line.get_mut(len..end) else {
        return Err(CapacityError::new(()));
    };
    room.copy_from_slice(part);
    Ok(end)
}

impl<'c, 'l> Lines<'c, 'l> {
    ghost use Rattle.std.specs.Prelude.{◌≡◌, ◌≤◌, length, take, IfOk, IfSome};
    ghost use Rattle.input.specs.Lent.{Lent};

    // Nothing is read yet. Where a chunk is read already, they are made by their fields.
    pub fn of(stdin: Stdin, chunk: &'c mut [u8], line: &'l mut [u8]) -> Lines<'c, 'l>
        ensures same_slices { (result.chunk.ghost_name ≡ chunk.entry.ghost_name) × (result.line.ghost_name ≡ line.entry.ghost_name) }
        ensures bytes { (result.chunk.now ≡ chunk.old) × (result.line.now ≡ line.old) }
        ensures nothing_to_come { (result.at ≡ 0) × (result.end ≡ 0) }
    {
        Lines {
            stdin,
            chunk,
            at: 0,
            end: 0,
            line,
        }
    }

    // Where all is passed, more are read; none: the input has ended.
    fn fill(&mut self) -> io::Result<()>
        ensures { Lent self.old self.new }
    {
        if self.at == self.end {
            let n = self.stdin.read(self.chunk)?;
            self.at = 0;
            self.end = n;
        }
        Ok(())
    }

    // The next line, without its newline: how long it is, or that it is too long; or that there is none. One without a newline at the
    // input's end is a line too, and of one that is too long the rest is passed over. A proved loop has to end, and nothing says that a
    // line does: its turns have a bound that no run uses up.
    pub fn next_line(&mut self) -> io::Result<Option<Result<usize, CapacityError>>>
        ensures within { IfOk result (λ next. IfSome next (λ line. IfOk line (λ len. len ≤ length self.new.line.now))) }
        ensures lent { Lent self.old self.new }
    {
        let mut held = Ok(0);
        for _ in 0..u64::MAX {
            self.fill()?;
            let part = &self.chunk[self.at..self.end];
            match memchr(b'\n', part) {
                Some(newline) => {
                    held = hold(self.line, held, &part[..newline]);
                    self.at += newline + 1;
                    return Ok(Some(held));
                }
                None if part.is_empty() => break,
                None => {
                    held = hold(self.line, held, part);
                    self.at = self.end;
                }
            }
        }
        match held {
            Ok(0) => Ok(None),
            _ => Ok(Some(held)),
        }
    }

    // The line of so many bytes that was read last.
    pub fn held(&self, len: usize) -> &[u8]
        requires { len ≤ length self.now.line.now }
        ensures { result.now ≡ take len self.now.line.now }
    {
        &self.line[..len]
    }
}

// Reads until the buffer is full or the input ends: how many bytes are read, which stand at the buffer's start.
pub fn read_full(stdin: Stdin, buf: &mut [u8]) -> io::Result<usize>
    ensures within { IfOk result (λ n. n ≤ length buf.new) }
    ensures length { length buf.new ≡ length buf.old }
{
    let mut from = stdin;
    let mut done = 0;
    while done < buf.len() {
        let n = from.read(&mut buf[done..])?;
        if n == 0 {
            return Ok(done);
        }
        done += n;
    }
    Ok(done)
}
