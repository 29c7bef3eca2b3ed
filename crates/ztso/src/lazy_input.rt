//! Inputs that are opened at their first read.

ghost use Rattle.std.specs.Prelude.{◌≡◌, None};
ghost use Rattle.ztso.specs.Streams.{IsOpening};

use command_line::job::Input;
use std::io::{ErrorKind, Input as StandardInput, Read};
use std::rt::Files;
use std::{fs, io};

/// An input as a reader. It is opened at the first read, so what is never read is never touched, and a
/// file that can't be opened is a failed read. A file is closed at its end: where standard input is closed
/// the file has its descriptor, and a later read of standard input must not find the file.
#[derive(Drop)]
pub struct LazyInput<'a, R: Files + StandardInput> {
    rt: &'a R,
    input: Option<Input<'a>>,
    opened: Option<Opened<R>>,
}

#[derive(Drop)]
enum Opened<R: Files + StandardInput> {
    Standard(R::Reader),
    File(R::File),
    Ended,
}

impl<'a, R: Files + StandardInput> LazyInput<'a, R> {
    /// This input, not opened yet. Where there is none each read fails.
    pub fn new(rt: &'a R, input: Option<Input<'a>>) -> LazyInput<'a, R>
        ensures input { result.input ≡ input.entry }
        ensures unopened { result.opened ≡ None }
    {
        LazyInput {
            rt,
            input,
            opened: None,
        }
    }
}

/// Opens an input, which fails where there is none.
fn open<R: Files + StandardInput>(rt: &R, input: Option<Input<'_>>) -> io::Result<Opened<R>>
    ensures { IsOpening input.entry result }
{
    Ok(match input.ok_or(ErrorKind::NotFound)? {
        Input::Standard => Opened::Standard(rt.reader()),
        Input::File(path) => Opened::File(fs::open(rt, path)?),
    })
}

impl<R: Files + StandardInput> Read for Opened<R> {
    ghost use Rattle.ztso.specs.Streams.{left_of};

    ghost remaining = { left_of R.Reader.remaining R.File.remaining };

    fn read(&mut self, buf: &mut [u8]) -> io::Result<usize> {
        match self {
            Opened::Standard(reader) => reader.read(buf),
            Opened::File(file) => {
                let count = file.read(buf)?;
                if count == 0 && !buf.is_empty() {
                    *self = Opened::Ended;
                }
                Ok(count)
            }
            Opened::Ended => Ok(0),
        }
    }
}

impl<'a, R: Files + StandardInput> Read for LazyInput<'a, R> {
    ghost use Rattle.ztso.specs.Streams.{left_in};

    ghost remaining = { λ r. left_in R.Reader.remaining R.File.remaining r.opened };

    fn read(&mut self, buf: &mut [u8]) -> io::Result<usize> {
        if self.opened.is_none() {
            self.opened = Some(open(self.rt, self.input)?);
        }
        match &mut self.opened {
            Some(opened) => opened.read(buf),
            None => Ok(0),
        }
    }
}
