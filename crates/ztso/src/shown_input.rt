//! An input of which a terminal shows how much is read, and which says whether it gave anything.

ghost use Rattle.std.specs.Prelude.{◌≡◌, IsTrue};

use crate::reading_line::ReadingLine;
use std::io;
use std::io::Read;
use std::rt::Clock;

/// A reader, the line that shows how much it gave, if it is shown, and whether it has given no byte so far.
#[derive(Drop)]
pub struct ShownInput<'a, R: Clock + Eprint, I: Read> {
    input: I,
    line: Option<ReadingLine<'a, R>>,
    is_empty: bool,
}

impl<'a, R: Clock + Eprint, I: Read> ShownInput<'a, R, I> {
    /// Nothing was read yet.
    pub fn new(input: I, line: Option<ReadingLine<'a, R>>) -> ShownInput<'a, R, I>
        ensures input { result.input ≡ input }
        ensures line { result.line ≡ line.entry }
        ensures empty { IsTrue result.is_empty }
    {
        ShownInput {
            input,
            line,
            is_empty: true,
        }
    }

    /// Whether it has given no byte so far.
    pub fn is_empty(&self) -> bool
        ensures { result ≡ self.now.is_empty }
    {
        self.is_empty
    }

    /// Leaves nothing of what was shown.
    pub fn wipe(&self) {
        if let Some(line) = &self.line {
            line.wipe();
        }
    }
}

impl<'a, R: Clock + Eprint, I: Read> Read for ShownInput<'a, R, I> {
    ghost remaining = { λ r. I.remaining r.input };

    fn read(&mut self, buf: &mut [u8]) -> io::Result<usize> {
        let count = self.input.read(buf)?;
        if let Some(line) = &mut self.line {
            line.note(count);
        }
        if count > 0 {
            self.is_empty = false;
        }
        Ok(count)
    }
}
