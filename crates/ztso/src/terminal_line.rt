//! A line of a terminal that tells how far `try`, `callers`, `ring` or `find` is, and which harts stopped.

ghost use Rattle.std.specs.Prelude.{◌≡◌, ◌≤◌, ◌*◌, ◌/◌, max, min, None, replicate, true};
ghost use Rattle.sampling.specs.declared.stops.TheConstants.{PLACES};
ghost use Rattle.ztso.specs.declared.terminal_line.TheConstants.{FIRST_ROUND, MOST_GROWTH};

use crate::clock_line::{ClockLine, WIPE};
use drawn_runs::progress::Progress;
use finding::SearchProgress;
use hart::Stop;
use sampling::stops::{PLACES, Stopped, Stops};
use std::rt::Clock;

/// How many runs the first round has. How long one takes isn't known before it.
const FIRST_ROUND: u32 = 1;

/// How many times as many runs as the round before it a round has at most.
const MOST_GROWTH: u32 = 8;

/// A line on standard error, which is written over the one before it about once a second. A round of runs is as long
/// as a second lasts at the pace of the round before it; a search reports more often.
#[derive(Drop)]
pub struct TerminalLine<'a, R: Clock + Eprint> {
    /// Its clock begins with each round, and with the first report of a search.
    line: ClockLine<'a, R>,
    /// How many runs the round has that is next or goes on.
    round: u32,
    /// How many seconds after a search's first report the line was written.
    shown: u64,
    /// In how many runs each hart is stopped, and in how many states that a search saw.
    stopped_runs: Stops,
    stopped_states: Stops,
}

impl<'a, R: Clock + Eprint> TerminalLine<'a, R> {
    /// Nothing was reported yet.
    pub fn new(rt: &'a R) -> TerminalLine<'a, R>
        ensures begun { result.line.begun ≡ None }
        ensures round { result.round ≡ FIRST_ROUND }
        ensures shown { result.shown ≡ 0 }
        ensures runs { result.stopped_runs ≡ replicate PLACES 0 }
        ensures states { result.stopped_states ≡ replicate PLACES 0 }
    {
        TerminalLine {
            line: ClockLine::new(rt),
            round: FIRST_ROUND,
            shown: 0,
            stopped_runs: Stops::new(),
            stopped_states: Stops::new(),
        }
    }

    /// Writes a line for each hart that is stopped at the end of runs.
    pub fn tell_stopped_runs(&self) {
        self.tell_stops(&self.stopped_runs, "runs");
    }

    /// Writes a line for each hart that is stopped in states that a search saw.
    pub fn tell_stopped_states(&self) {
        self.tell_stops(&self.stopped_states, "of them");
    }

    fn tell_stops(&self, stops: &Stops, whose: &str) {
        for place in 0..PLACES {
            if let Some((Stopped { hart, why }, times)) = stops.counted(place) {
                let _ = eprintln!(self.line.rt;
                    "  hart {hart} stopped by {} {why:?} in {times} {whose}",
                    why.number()
                );
            }
        }
    }
}

impl<'a, R: Clock + Eprint> Progress for TerminalLine<'a, R> {
    fn next_round(&mut self, _left: u32) -> u32
        ensures round { result ≡ self.old.round }
        ensures kept { self.new.round ≡ self.old.round }
    {
        self.line.begin();
        self.round
    }

    fn report(&mut self, done: u32, runs: u32, outcomes: Option<usize>)
        ensures some { 1 ≤ self.old.round → 1 ≤ self.new.round }
        ensures growth { self.new.round ≤ max 1 (self.old.round * MOST_GROWTH) }
        ensures begun { self.new.line.begun ≡ self.old.line.begun }
    {
        let _ = eprint!(self.line.rt; "{WIPE}runs {done} of {runs}");
        if let Some(outcomes) = outcomes {
            let _ = eprint!(self.line.rt; ", outcomes {outcomes}");
        }
        if let Some(milliseconds) = self.line.milliseconds() {
            self.round = for_a_second(self.round, milliseconds);
        }
    }

    fn stopped(&mut self, hart: u32, why: Stop, runs: u32) {
        self.stopped_runs.note(Stopped { hart, why }, runs);
    }

    fn end(&mut self)
        ensures { self.new ≡ self.old }
    {
        self.line.wipe();
    }
}

impl<'a, R: Clock + Eprint> SearchProgress for TerminalLine<'a, R> {
    fn report(&mut self, states: u32, depth: u32)
        ensures { self.old.shown ≤ self.new.shown }
    {
        self.line.begin_once();
        let seconds = self.line.seconds();
        if seconds > self.shown {
            self.shown = seconds;
            let pace = u64::from(states) / seconds;
            let _ = eprint!(self.line.rt; "{WIPE}{states} states, {pace} a second, depth {depth}");
        }
    }

    fn shows_stops(&self) -> bool
        ensures { result ≡ true }
    {
        true
    }

    fn stopped(&mut self, hart: u32, why: Stop) {
        self.stopped_states.note(Stopped { hart, why }, 1);
    }

    fn end(&mut self)
        ensures { self.new ≡ self.old }
    {
        self.line.wipe();
    }
}

/// How many runs last a second where `runs` of them took `milliseconds`: at least one, and at most
/// [`MOST_GROWTH`] times as many.
fn for_a_second(runs: u32, milliseconds: u128) -> u32
    ensures { result ≡ max 1 (min (runs * 1000 / max 1 milliseconds) (min 4294967295 (runs * MOST_GROWTH))) }
{
    let paced = u128::from(runs) * 1000 / milliseconds.max(1);
    let most = runs.saturating_mul(MOST_GROWTH);
    (paced.min(u128::from(most)) as u32).max(1)
}
