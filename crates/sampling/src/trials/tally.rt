//! What is kept of a test's runs.

ghost use Rattle.std.specs.Prelude.{◌≡◌, ◌+◌, ◌<◌, ℕ, List, [], false, IsTrue, IfSome, OnOk};
ghost use Rattle.step_machine.specs.History.{History, OpeningValue};
ghost use Rattle.step_machine.specs.Runs.{Run};
ghost use Rattle.step_machine.specs.Standing.{RepresentsHistory, RepresentsRunFrom};
ghost use Rattle.sampling.specs.Trials.{is_finished};
ghost use Rattle.sampling.specs.Outcomes.{schedule_text};
ghost use Rattle.engine_support.specs.Counting.{counted, counted_both, Counts};
ghost use Rattle.sampling.specs.inner.Tallies.{IsTallyOf, Tallies};
ghost use Rattle.sampling.specs.inner.Merging.{Merges};
ghost use Rattle.sampling.specs.inner.Stops.{NotesStops, TakesStops};

use crate::stops::{Stopped, Stops};
use engine_support::outcomes::{FirstRun, Outcomes};
use litmus::Verdict;
use std::alloc::{AllocError, Global};
use std::mem;
use step_machine::{Event, MachineState};

/// The outcomes of the runs, and what else is known of them.
#[derive(Drop)]
pub struct Tally<F> {
    pub outcomes: Outcomes<F>,
    /// How many runs left a hart that hasn't ended, or a store pending. They have no outcome.
    pub unfinished: u32,
    /// The first of these, if there is one.
    pub first_unfinished: Option<F>,
    /// In how many of these each hart is stopped at the end, for each reason.
    pub stops: Stops,
    pub some_hold: bool,
    pub some_fail: bool,
}

/// Counts one more run with this outcome, and keeps it if it is the first.
fn count_outcome<F: FirstRun>(
    alloc: Global,
    outcomes: &mut Outcomes<F>,
    outcome: &[u32],
    run: F,
) -> Result<(), AllocError>
    requires { IfSome (counted F.name outcomes.old outcome.now) (λ seen. seen.0 < 18446744073709551615) }
    ensures { OnOk result (Counts outcome.now (1, F.name run) (counted F.name outcomes.old) (counted F.name outcomes.new)) }
{
    if outcomes.count_again(outcome) {
        return Ok(());
    }
    let outcome = Vec::from_slice(alloc, outcome)?;
    outcomes.count_first(outcome, run)
}

/// Runs these events from the machine's opening, whatever it did before.
pub fn run_anew<const B: usize, const M: usize>(
    machine: &mut MachineState<B, M>,
    events: &[Event],
) -> Result<(), AllocError>
    ensures { OnOk result ((o : OpeningValue) → RepresentsRunFrom B M o machine.old
        → (u : History) × Run B M o events.now u × RepresentsHistory B M u machine.new × (u.opening ≡ o)) }
{
    machine.restart();
    match machine.run(events) {
        Ok(()) => Ok(()),
        Err((_, error)) => Err(error),
    }
}

impl<F: FirstRun> Tally<F> {
    /// Takes in the runs of a later tally, after its own.
    pub fn take_in(&mut self, mut later: Tally<F>) -> Result<(), AllocError>
        requires counts { (outcome : List ℕ)
            → IfSome (counted_both (counted F.name self.old.outcomes outcome) (counted F.name later.outcomes outcome))
            (λ seen. seen.0 < 18446744073709551616) }
        requires unfinished { self.old.unfinished + later.unfinished < 4294967296 }
        ensures merged { OnOk result (Merges F.name self.old later self.new) }
        ensures stops { OnOk result (TakesStops later.stops self.old.stops self.new.stops) }
    {
        if self.unfinished == 0 {
            mem::swap(&mut self.first_unfinished, &mut later.first_unfinished);
        }
        self.outcomes.take_in(later.outcomes)?;
        self.unfinished += later.unfinished;
        self.stops.take_in(&later.stops);
        self.some_hold = self.some_hold || later.some_hold;
        self.some_fail = self.some_fail || later.some_fail;
        Ok(())
    }

    /// The tally of no run, to which runs are added.
    pub fn new(alloc: Global) -> Tally<F>
        ensures { IsTallyOf F.name [] result }
    {
        Tally {
            outcomes: Outcomes::new(alloc),
            unfinished: 0,
            first_unfinished: None,
            stops: Stops::new(),
            some_hold: false,
            some_fail: false,
        }
    }

    /// Takes in one more run, with this verdict and these last values, and with these harts stopped.
    pub fn add(
        &mut self,
        alloc: Global,
        run: F,
        verdict: Verdict,
        values: &[u32],
        stopped: &[Stopped],
    ) -> Result<(), AllocError>
        requires counts { (outcome : List ℕ) → IfSome (counted F.name self.old.outcomes outcome) (λ seen. seen.0 < 18446744073709551615) }
        requires unfinished { self.old.unfinished < 4294967295 }
        ensures tallied { OnOk result ((events : List Event) → F.name run ≡ schedule_text events
            → Tallies F.name (record { events = events; verdict = verdict; values = values.now }) self.old self.new) }
        ensures stops { OnOk result (NotesStops (is_finished verdict) stopped.now self.old.stops self.new.stops) }
    {
        match verdict {
            Verdict::Holds => {
                self.some_hold = true;
                count_outcome(alloc, &mut self.outcomes, values, run)
            }
            Verdict::Fails => {
                self.some_fail = true;
                count_outcome(alloc, &mut self.outcomes, values, run)
            }
            Verdict::Unfinished => {
                let mut first = Some(run);
                if self.unfinished == 0 {
                    mem::swap(&mut self.first_unfinished, &mut first);
                }
                self.unfinished += 1;
                self.stops.note_each(stopped);
                Ok(())
            }
        }
    }

    /// Takes in one more run with this verdict and these last values, and with these harts stopped, unless it is the
    /// first with a new outcome or the first that didn't finish, and answers whether it did.
    pub fn add_again(&mut self, verdict: Verdict, values: &[u32], stopped: &[Stopped]) -> bool
        requires counts { (outcome : List ℕ) → IfSome (counted F.name self.old.outcomes outcome) (λ seen. seen.0 < 18446744073709551615) }
        requires unfinished { self.old.unfinished < 4294967295 }
        ensures again { IsTrue result → (events : List Event)
            → Tallies F.name (record { events = events; verdict = verdict; values = values.now }) self.old self.new }
        ensures stops { IsTrue result → NotesStops (is_finished verdict) stopped.now self.old.stops self.new.stops }
        ensures none { result ≡ false → self.new ≡ self.old }
        ensures new { result ≡ false → IsTrue (is_finished verdict) → counted F.name self.old.outcomes values.now ≡ None }
        ensures first { result ≡ false → is_finished verdict ≡ false → self.old.unfinished ≡ 0 }
    {
        if verdict == Verdict::Unfinished {
            if self.unfinished == 0 {
                return false;
            }
            self.unfinished += 1;
            self.stops.note_each(stopped);
            return true;
        }
        if !self.outcomes.count_again(values) {
            return false;
        }
        match verdict {
            Verdict::Holds => self.some_hold = true,
            Verdict::Fails => self.some_fail = true,
            Verdict::Unfinished => {}
        }
        true
    }
}
