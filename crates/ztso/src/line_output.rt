//! An output that is written by lines.

ghost use Rattle.std.specs.Prelude.{◌≡◌, ◌++◌, ◌+◌, ◌≤◌, [], drop, length, vec_len, vec_capacity, IfOk, OnOk};
ghost use Rattle.std.specs.Io.KnownBytes.{Appends, Keeps};
ghost use Rattle.ztso.specs.Streams.{held_after};

use std::alloc::{AllocError, Global};
use std::io::{self, ErrorKind, Write};

/// How many bytes of a long line are written at once.
const WRITTEN_AT_ONCE: usize = 4096;

/// A writer that holds what it is given until a line ends, or until it is more than is written at once, and then writes it
/// on: so what makes a line bit by bit costs one call. Where a write fails, only a further call writes again: what is held
/// is lost when this is dropped.
#[derive(Drop)]
pub struct LineOutput<W> {
    to: W,
    held: Vec<u8>,
}

/// Appends bytes for which there is room.
fn append(held: &mut Vec<u8>, bytes: &[u8])
    requires { vec_len held.old + length bytes.now ≤ vec_capacity held.old }
    ensures held { held.new.items ≡ held.old.items ++ bytes.now }
    ensures room { vec_capacity held.old ≤ vec_capacity held.new }
{
    let Ok(()) = held.extend_from_slice(bytes) else {
        unreachable!()
    };
}

/// Takes the first bytes away.
fn lose_front(held: &mut Vec<u8>, count: usize)
    requires { count ≤ vec_len held.old }
    ensures left { held.new.items ≡ drop count held.old.items }
    ensures room { vec_capacity held.new ≡ vec_capacity held.old }
{
    let len = held.len();
    held.as_mut_slice().copy_within(count..len, 0);
    held.truncate(len - count);
}

impl<W: Write + Drop> LineOutput<W> {
    /// Nothing is held yet.
    pub fn new(alloc: Global, to: W) -> Result<LineOutput<W>, AllocError>
        ensures { IfOk result (λ output. (output.to ≡ to) × (output.held.items ≡ [])) }
    {
        Ok(LineOutput {
            to,
            held: Vec::with_capacity(alloc, WRITTEN_AT_ONCE)?,
        })
    }

    /// Writes what is held by one call, if that takes it all. What was written is held no more.
    fn write_some(&mut self) -> io::Result<()>
        ensures bytes { Keeps (held_after W.contents self.old.to self.old.held) (held_after W.contents self.new.to self.new.held) }
        ensures room { vec_capacity self.new.held ≡ vec_capacity self.old.held }
    {
        match self.to.write(&self.held) {
            Ok(0) => Err(io::Error::from(ErrorKind::WriteZero)),
            Ok(count) => {
                lose_front(&mut self.held, count);
                Ok(())
            }
            Err(error) if error.kind() == ErrorKind::Interrupted => Ok(()),
            Err(error) => Err(error),
        }
    }

    /// Writes what is held. Where that fails, what was written is held no more.
    fn write_held(&mut self) -> io::Result<()>
        ensures bytes { Keeps (held_after W.contents self.old.to self.old.held) (held_after W.contents self.new.to self.new.held) }
        ensures all { OnOk result (self.new.held.items ≡ []) }
        ensures room { vec_capacity self.new.held ≡ vec_capacity self.old.held }
    {
        for _ in 0..u64::MAX {
            if self.held.is_empty() {
                return Ok(());
            }
            self.write_some()?;
        }
        Err(io::Error::from(ErrorKind::TimedOut))
    }

    /// Holds bytes for which an empty room has room. Where that fails, they aren't held.
    fn hold(&mut self, bytes: &[u8]) -> io::Result<()>
        requires { length bytes.now ≤ vec_capacity self.old.held }
        ensures { OnOk result (Appends (held_after W.contents self.old.to self.old.held) (held_after W.contents self.new.to self.new.held) bytes.now) }
    {
        if bytes.len() > self.held.capacity() - self.held.len() {
            self.write_held()?;
        }
        append(&mut self.held, bytes);
        Ok(())
    }
}

impl<W: Write + Drop> Write for LineOutput<W> {
    ghost use Rattle.ztso.specs.Streams.{held_after};

    ghost contents = { λ output. held_after W.contents output.to output.held };

    fn write(&mut self, buf: &[u8]) -> io::Result<usize> {
        self.write_held()?;
        self.to.write(buf)
    }

    fn flush(&mut self) -> io::Result<()> {
        self.write_held()?;
        self.to.flush()
    }

    fn write_all(&mut self, buf: &[u8]) -> io::Result<()> {
        if buf.len() > self.held.capacity() {
            self.write_held()?;
            return self.to.write_all(buf);
        }
        self.hold(buf)?;
        if buf.contains(&b'\n') {
            return self.write_held();
        }
        Ok(())
    }
}
