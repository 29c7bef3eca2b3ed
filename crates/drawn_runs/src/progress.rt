//! How far runs are, for whoever waits for them.

ghost use Rattle.std.specs.Prelude.{◌≡◌, None};

use hart::Stop;

/// What is reported of runs while they are made. They come in rounds, with a report after each.
///
/// What is known of the runs depends on none of it.
pub trait Progress {
    /// How many of the runs that are left are made before the next report. Any answer is taken: a round has
    /// at least one run, and at most those that are left.
    fn next_round(&mut self, left: u32) -> u32;

    /// `done` of all `runs` are made, and showed this many outcomes, where outcomes are counted.
    fn report(&mut self, done: u32, runs: u32, outcomes: Option<usize>);

    /// How many of the runs end with this hart stopped, for this reason.
    fn stopped(&mut self, hart: u32, why: Stop, runs: u32);

    /// No report follows: all runs are made, no further one is wanted, or memory ran out.
    fn end(&mut self);
}

/// With `None` all runs are one round, and nobody gets the report.
impl<P: Progress> Progress for Option<P> {
    fn next_round(&mut self, left: u32) -> u32
        ensures whole { self.old ≡ None → result ≡ left }
    {
        match self {
            Some(progress) => progress.next_round(left),
            None => left,
        }
    }

    fn report(&mut self, done: u32, runs: u32, outcomes: Option<usize>) {
        if let Some(progress) = self {
            progress.report(done, runs, outcomes);
        }
    }

    fn stopped(&mut self, hart: u32, why: Stop, runs: u32) {
        if let Some(progress) = self {
            progress.stopped(hart, why, runs);
        }
    }

    fn end(&mut self) {
        if let Some(progress) = self {
            progress.end();
        }
    }
}
