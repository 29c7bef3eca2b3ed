//! How far a search is, for whoever waits for it.

ghost use Rattle.std.specs.Prelude.{◌≡◌, None, false};

use hart::Stop;

/// What is reported of a search while it goes on. What it finds depends on none of it.
pub trait SearchProgress {
    /// `states` distinct states were seen, each after at most `depth + 1` events.
    fn report(&mut self, states: u32, depth: u32);

    /// Whether it is to learn which harts are stopped.
    fn shows_stops(&self) -> bool;

    /// In one more of the states that were seen this hart is stopped, for this reason.
    fn stopped(&mut self, hart: u32, why: Stop);

    /// No report follows: the search is over, or memory ran out.
    fn end(&mut self);
}

/// With `None` nobody gets the report.
impl<P: SearchProgress> SearchProgress for Option<P> {
    fn report(&mut self, states: u32, depth: u32) {
        if let Some(progress) = self {
            progress.report(states, depth);
        }
    }

    fn shows_stops(&self) -> bool
        ensures { self.now ≡ None → result ≡ false }
    {
        match self {
            Some(progress) => progress.shows_stops(),
            None => false,
        }
    }

    fn stopped(&mut self, hart: u32, why: Stop) {
        if let Some(progress) = self {
            progress.stopped(hart, why);
        }
    }

    fn end(&mut self) {
        if let Some(progress) = self {
            progress.end();
        }
    }
}
