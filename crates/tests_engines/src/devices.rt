//! A reader and a writer over memory, and what may go wrong with their calls.

use std::alloc::Global;
use std::io;
use std::io::{ErrorKind, Read, Write};

/// What the calls of a device do beside their work.
#[derive(Clone, Copy)]
pub struct Trouble {
    /// The most bytes of a call.
    pub size: usize,
    /// Whether every other call is interrupted, from the first one on.
    pub interrupts: bool,
    /// The number of the call that fails, counted from 1.
    pub fails_at: Option<usize>,
}

/// Many bytes a call, and nothing goes wrong.
pub const SOUND: Trouble = Trouble {
    size: usize::MAX,
    interrupts: false,
    fails_at: None,
};

/// The calls of a device so far.
#[derive(Drop)]
struct Calls {
    trouble: Trouble,
    made: usize,
    failed: bool,
}

impl Calls {
    fn new(trouble: Trouble) -> Calls {
        Calls {
            trouble,
            made: 0,
            failed: false,
        }
    }

    /// One more call. The answer is the most bytes that it may move.
    fn next(&mut self) -> io::Result<usize> {
        self.made = self.made.saturating_add(1);
        if self.trouble.fails_at == Some(self.made) {
            self.failed = true;
            return Err(io::Error::from(ErrorKind::TimedOut));
        }
        if self.trouble.interrupts && self.made % 2 == 1 {
            return Err(io::Error::from(ErrorKind::Interrupted));
        }
        Ok(self.trouble.size)
    }
}

/// Gives these bytes.
#[derive(Drop)]
pub struct Reader<'a> {
    left: &'a [u8],
    reads: Calls,
}

impl<'a> Reader<'a> {
    pub fn new(bytes: &'a [u8], trouble: Trouble) -> Reader<'a> {
        Reader {
            left: bytes,
            reads: Calls::new(trouble),
        }
    }

    /// Whether a call failed.
    pub fn failed(&self) -> bool {
        self.reads.failed
    }
}

impl<'a> Read for Reader<'a> {
    fn read(&mut self, buf: &mut [u8]) -> io::Result<usize> {
        let most = self.reads.next()?;
        let count = self.left.len().min(buf.len()).min(most);
        let (now, later) = self.left.split_at(count);
        buf[..count].copy_from_slice(now);
        self.left = later;
        Ok(count)
    }
}

/// Keeps what is written.
#[derive(Drop)]
pub struct Writer {
    /// What was taken, whether it was passed on or not.
    pub taken: Vec<u8>,
    /// How much of it was passed on by a flush.
    pub passed: usize,
    writes: Calls,
    flushes: Calls,
}

impl Writer {
    pub fn new(alloc: Global, writes: Trouble, flushes: Trouble) -> Writer {
        Writer {
            taken: Vec::new(alloc),
            passed: 0,
            writes: Calls::new(writes),
            flushes: Calls::new(flushes),
        }
    }

    /// Whether a call failed.
    pub fn failed(&self) -> bool {
        self.writes.failed || self.flushes.failed
    }
}

impl Write for Writer {
    fn write(&mut self, buf: &[u8]) -> io::Result<usize> {
        let most = self.writes.next()?;
        let count = buf.len().min(most);
        self.taken.extend_from_slice(&buf[..count])?;
        Ok(count)
    }

    fn flush(&mut self) -> io::Result<()> {
        self.flushes.next()?;
        self.passed = self.taken.len();
        Ok(())
    }
}
