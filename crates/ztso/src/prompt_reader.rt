//! A user's commands.

ghost use Rattle.std.specs.Prelude.{◌≡◌, None, option_and_then, true};

use std::io;
use std::io::{Input, IsTerminal, Read};

/// The first line at a terminal.
const HINT: &str = "s: next event, g: go on, u K: back, r H: registers, q: end; \
    all commands: docs/debugging.md; rlwrap keeps a history";

/// Standard input as a user's commands. It is opened at the first read. Where it is a terminal, a line on
/// standard error then names the commands, and a prompt there asks for each line.
#[derive(Drop)]
pub struct PromptReader<'a, R: Input + Eprint> {
    rt: &'a R,
    reader: Option<R::Reader>,
    /// Whether the next byte begins a line.
    begins: bool,
}

impl<'a, R: Input + Eprint> PromptReader<'a, R> {
    /// Nothing was read yet.
    pub fn new(rt: &'a R) -> PromptReader<'a, R>
        ensures unopened { result.reader ≡ None }
        ensures begins { result.begins ≡ true }
    {
        PromptReader {
            rt,
            reader: None,
            begins: true,
        }
    }
}

impl<'a, R: Input + Eprint> Read for PromptReader<'a, R>
where
    R::Reader: IsTerminal,
{
    ghost remaining = { λ r. option_and_then R.Reader.remaining r.reader };

    fn read(&mut self, buf: &mut [u8]) -> io::Result<usize> {
        if self.reader.is_none() {
            let reader = self.rt.reader();
            if reader.is_terminal() {
                let _ = eprintln!(self.rt; "{HINT}");
            }
            self.reader = Some(reader);
        }
        let Some(reader) = &mut self.reader else {
            return Ok(0);
        };
        if self.begins && reader.is_terminal() {
            let _ = eprint!(self.rt; "> ");
        }
        let count = reader.read(buf)?;
        self.begins = buf[..count].ends_with(b"\n");
        Ok(count)
    }
}
