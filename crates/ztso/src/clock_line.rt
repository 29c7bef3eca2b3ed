//! A line of a terminal that is written over, and a clock beside it.

ghost use Rattle.std.specs.Prelude.{◌≡◌, None};

use std::rt::Clock;
use std::time::Instant;

/// What wipes a terminal's line: a return to its beginning, and ECMA-48's erasing from there to its end.
pub const WIPE: &str = "\r\x1b[K";

/// A line on standard error, and how long something takes so far.
#[derive(Drop)]
pub struct ClockLine<'a, R: Clock + Eprint> {
    pub rt: &'a R,
    /// When that began, where the clock could be read.
    pub begun: Option<Instant>,
}

impl<'a, R: Clock + Eprint> ClockLine<'a, R> {
    /// Nothing is written, and nothing began.
    pub fn new(rt: &'a R) -> ClockLine<'a, R>
        ensures { result.begun ≡ None }
    {
        ClockLine { rt, begun: None }
    }

    /// It begins now.
    pub fn begin(&mut self) {
        self.begun = Instant::now(self.rt).ok();
    }

    /// It begins now, if it didn't before.
    pub fn begin_once(&mut self) {
        if self.begun.is_none() {
            self.begin();
        }
    }

    /// How long it takes, in milliseconds, where the clock can be read.
    pub fn milliseconds(&self) -> Option<u128>
        ensures { self.now.begun ≡ None → result ≡ None }
    {
        let took = self.begun?.elapsed(self.rt).ok()?;
        Some(took.as_millis())
    }

    /// How many whole seconds it takes; none where the clock can't be read.
    pub fn seconds(&self) -> u64
        ensures { self.now.begun ≡ None → result ≡ 0 }
    {
        let Some(begun) = self.begun else {
            return 0;
        };
        begun.elapsed(self.rt).map_or(0, |took| took.as_secs())
    }

    /// Nothing is left in the line.
    pub fn wipe(&self) {
        let _ = eprint!(self.rt; "{WIPE}");
    }
}
