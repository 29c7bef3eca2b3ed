//! One run, judged as its events happen.

ghost use Rattle.std.specs.Prelude.{◌≡◌, ◌<◌, ◌+◌, ◌-◌, ◌^◌, ℕ, None, IfOk, OnOk};
ghost use Rattle.step_machine.specs.Runs.{Run};
ghost use Rattle.ownership_runs.specs.Protocols.{run_counts};
ghost use Rattle.ownership_runs.specs.Violations.{first_ownership_violation};
ghost use Rattle.ownership_runs.specs.inner.Bounds.{ROOM, AreCountsWithin};
ghost use Rattle.ownership_runs.specs.inner.Noting.{nothing_noted, noted_all, AreNotesWithin, IsEventJudged};

use crate::counts::Counts;
use crate::deciding::{RunNotes, note_more, nothing_noted};
use queue_layouts::AnyQueue;
use std::alloc::AllocError;
use step_machine::{Event, Machine, Outcome};

/// Lets an event happen, and takes in what it did.
fn note_event<const B: usize, const M: usize>(
    queue: &AnyQueue,
    machine: &mut Machine<B, M>,
    notes: RunNotes,
    event: Event,
) -> Result<RunNotes, AllocError>
    requires counts { AreCountsWithin ROOM ROOM notes.counts }
    requires place { notes.place < 2 ^ 64 - 1 }
    ensures noted { IfOk result (λ new. IsEventJudged B M queue.now event machine.old.history notes machine.new.history new) }
    ensures opening { machine.new.history.opening ≡ machine.old.history.opening }
    ensures within { IfOk result (λ new. (i : ℕ) → AreNotesWithin i notes → AreNotesWithin (i + 1) new) }
{
    match machine.step(event)? {
        Outcome::Did(entry) => Ok(note_more(queue, notes, entry)),
        Outcome::Waited => Ok(notes),
        Outcome::NothingToLand => Ok(notes),
        Outcome::Over => Ok(notes),
        Outcome::NoHart => Ok(notes),
    }
}

/// What is noted of the run of these events. The machine ends at its end, whatever it did before.
pub(crate) fn judge<const B: usize, const M: usize>(
    queue: &AnyQueue,
    start: Counts,
    machine: &mut Machine<B, M>,
    events: &[Event],
) -> Result<RunNotes, AllocError>
    ensures run { OnOk result (Run B M machine.old.history.opening events.now machine.new.history) }
    ensures noted { IfOk result (λ notes. notes ≡ noted_all queue.now (nothing_noted start) machine.new.history.entries) }
    ensures found { IfOk result (λ notes. notes.found ≡ first_ownership_violation queue.now start machine.new.history.entries) }
    ensures counts { IfOk result (λ notes. notes.found ≡ None → notes.counts ≡ run_counts queue.now start machine.new.history.entries) }
    ensures opening { machine.new.history.opening ≡ machine.old.history.opening }
{
    machine.restart();
    let mut notes = nothing_noted(start);
    for event in events {
        notes = note_event(queue, machine, notes, *event)?;
    }
    Ok(notes)
}
