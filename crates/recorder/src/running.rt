//! Runs that keep no history: of events, with their outcomes noted, and of records, which are checked.

ghost use Rattle.std.specs.Prelude.{◌≡◌, ◌≤◌, IfOk, IfErr};
ghost use Rattle.step_machine.specs.History.{History, FitsIn};
ghost use Rattle.step_machine.specs.Runs.{Run};
ghost use Rattle.step_machine.specs.Standing.{RepresentsHistory};
ghost use Rattle.recorder.specs.Records.{events_in};
ghost use Rattle.recorder.specs.Replaying.{IsRunRecord, DiffersAt, Differs as SaysDiffers};

use crate::replaying::{CheckError, are_same_outcomes};
use std::alloc::{AllocError, Global};
use step_machine::events::{Event, Outcome};
use step_machine::{MachineState, Opening};

/// The machine that these events make of the opening, one after the other, without its history.
pub fn replay_state<const B: usize, const M: usize>(
    alloc: Global,
    opening: &Opening,
    events: &[Event],
) -> Result<MachineState<B, M>, AllocError>
    requires capacity { B ≤ 64 }
    requires size { M ≤ 65536 }
    requires fits { FitsIn M opening.now }
    ensures { IfOk result (λ machine. (history : History) × Run B M opening.now events.now history × RepresentsHistory B M history machine) }
{
    let mut machine = MachineState::open(alloc, opening)?;
    match machine.run(events) {
        Ok(()) => Ok(machine),
        Err((_, error)) => Err(error),
    }
}

/// The record of the run of these events from the opening: each event, in order, with its outcome.
pub fn record<const B: usize, const M: usize>(
    alloc: Global,
    opening: Opening,
    events: &[Event],
) -> Result<Vec<(Event, Outcome)>, AllocError>
    requires capacity { B ≤ 64 }
    requires size { M ≤ 65536 }
    requires fits { FitsIn M opening }
    ensures events { IfOk result (λ steps. events_in steps.items ≡ events.now) }
    ensures outcomes { IfOk result (λ steps. (history : History) × IsRunRecord B M opening steps.items history) }
{
    let mut machine = MachineState::<B, M>::open(alloc, &opening)?;
    let mut steps = Vec::with_capacity(alloc, events.len())?;
    for event in events {
        let outcome = machine.step(*event)?;
        steps.push((*event, outcome))?;
    }
    Ok(steps)
}

/// The machine that the events of a record make of the opening, without its history, where each has the
/// outcome that the record says. Else the first whose outcome is another one is answered by its place.
pub fn check_record<const B: usize, const M: usize>(
    alloc: Global,
    opening: &Opening,
    steps: &[(Event, Outcome)],
) -> Result<MachineState<B, M>, CheckError>
    requires capacity { B ≤ 64 }
    requires size { M ≤ 65536 }
    requires fits { FitsIn M opening.now }
    ensures checked { IfOk result (λ machine. (history : History) × IsRunRecord B M opening.now steps.now history × RepresentsHistory B M history machine) }
    ensures differs { IfErr result (SaysDiffers (DiffersAt B M opening.now steps.now)) }
{
    let mut machine = MachineState::open(alloc, opening)?;
    for (place, step) in steps.iter().enumerate() {
        let (event, recorded) = *step;
        let outcome = machine.step(event)?;
        if !are_same_outcomes(outcome, recorded) {
            return Err(CheckError::Differs { event: place });
        }
    }
    Ok(machine)
}
