//! How much of an input was read, on a line of a terminal.

ghost use Rattle.std.specs.Prelude.{◌≡◌, ◌≤◌, ◌+◌, min};

use crate::clock_line::{ClockLine, WIPE};
use std::rt::Clock;

/// A line that is written about once a second. Its clock begins with the first read.
#[derive(Drop)]
pub struct ReadingLine<'a, R: Clock + Eprint> {
    line: ClockLine<'a, R>,
    /// How many bytes were read.
    bytes: u64,
    /// How many seconds after the first read the line was written.
    shown: u64,
}

impl<'a, R: Clock + Eprint> ReadingLine<'a, R> {
    /// Before the first read.
    pub fn new(rt: &'a R) -> ReadingLine<'a, R>
        ensures bytes { result.bytes ≡ 0 }
        ensures shown { result.shown ≡ 0 }
    {
        ReadingLine {
            line: ClockLine::new(rt),
            bytes: 0,
            shown: 0,
        }
    }

    /// Counts further bytes that were read.
    pub fn note(&mut self, count: usize)
        ensures bytes { self.new.bytes ≡ min (self.old.bytes + count) 18446744073709551615 }
        ensures shown { self.old.shown ≤ self.new.shown }
    {
        self.line.begin_once();
        self.bytes = self.bytes.saturating_add(count as u64);
        let seconds = self.line.seconds();
        if seconds > self.shown {
            self.shown = seconds;
            let kilobytes = self.bytes / 1000;
            let pace = kilobytes / seconds;
            let _ = eprint!(self.line.rt; "{WIPE}{kilobytes} kB read, {pace} a second");
        }
    }

    /// Nothing is left in the line.
    pub fn wipe(&self) {
        self.line.wipe();
    }
}
