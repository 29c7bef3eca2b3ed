//! Replaying schedules, and checking records as they are replayed.

ghost use Rattle.std.specs.Prelude.{◌≡◌, ◌≤◌, ◌↔◌, IsTrue, IfOk, IfErr, OnOk};
ghost use Rattle.step_machine.specs.History.{FitsIn, at_opening};
ghost use Rattle.step_machine.specs.Runs.{Run};
ghost use Rattle.recorder.specs.Outcomes.{is_same_outcome};
ghost use Rattle.recorder.specs.Replaying.{IsRunRecord, DiffersAt, Differs as SaysDiffers};

use std::alloc::{AllocError, Global};
use step_machine::events::{Event, Outcome};
use step_machine::{Machine, Opening};
use texts::Numbered;
use thiserror::Error;

/// The machine that these events make of the opening, one after the other.
pub fn replay<const B: usize, const M: usize>(
    alloc: Global,
    opening: Opening,
    events: &[Event],
) -> Result<Machine<B, M>, AllocError>
    requires some_capacity { 1 ≤ B }
    requires capacity { B ≤ 64 }
    requires some_word { 1 ≤ M }
    requires size { M ≤ 65536 }
    requires fits { FitsIn M opening }
    ensures { IfOk result (λ machine. Run B M opening events.now machine.history) }
{
    let mut machine = Machine::open(alloc, opening)?;
    match machine.run(events) {
        Ok(()) => Ok(machine),
        Err((_, error)) => Err(error),
    }
}

/// Why a record is not replayed.
#[derive(Clone, Copy, Debug, PartialEq, Eq, Error)]
pub enum CheckError {
    #[error("no memory")]
    NoMemory,
    /// The event of this place, counted from 0, is the first with another outcome than the record says.
    #[error("other outcome at event {event}")]
    Differs { event: usize },
}

impl From<AllocError> for CheckError {
    ghost use Rattle.recorder.specs.declared.replaying.CheckError.TheVariants.{NoMemory};

    ghost from_gives = { λ _ e. e ≡ NoMemory };

    fn from(_error: AllocError) -> CheckError {
        CheckError::NoMemory
    }
}

/// The number of what went wrong: 38 where an outcome differs, and 0 where memory ran out.
impl Numbered for CheckError {
    ghost use Rattle.recorder.specs.Reading.{check_number};

    ghost number = { check_number };

    fn number(self) -> u8 {
        match self {
            CheckError::NoMemory => 0,
            CheckError::Differs { .. } => 38,
        }
    }
}

/// Whether two outcomes are the same, also in each number of their entries.
pub fn are_same_outcomes(outcome: Outcome, other: Outcome) -> bool
    ensures same { IsTrue result ↔ (outcome ≡ other) }
    ensures test { result ≡ is_same_outcome outcome other }
{
    outcome == other
}

/// Does the steps of a record on a machine that stands at its opening, as [`replay_checked`] does. It owns
/// no machine, so that its ways out drop none.
fn do_steps<const B: usize, const M: usize>(
    machine: &mut Machine<B, M>,
    steps: &[(Event, Outcome)],
) -> Result<(), CheckError>
    requires { machine.old.history ≡ at_opening machine.old.history.opening }
    ensures checked { OnOk result (IsRunRecord B M machine.old.history.opening steps.now machine.new.history) }
    ensures differs { IfErr result (SaysDiffers (DiffersAt B M machine.old.history.opening steps.now)) }
{
    for (place, step) in steps.iter().enumerate() {
        let (event, recorded) = *step;
        let outcome = machine.step(event)?;
        if !are_same_outcomes(outcome, recorded) {
            return Err(CheckError::Differs { event: place });
        }
    }
    Ok(())
}

/// The machine that the events of a record make of the opening, one after the other, where each has the
/// outcome that the record says. Else the first whose outcome is another one is answered by its place,
/// and the machine is given up.
pub fn replay_checked<const B: usize, const M: usize>(
    alloc: Global,
    opening: Opening,
    steps: &[(Event, Outcome)],
) -> Result<Machine<B, M>, CheckError>
    requires some_capacity { 1 ≤ B }
    requires capacity { B ≤ 64 }
    requires some_word { 1 ≤ M }
    requires size { M ≤ 65536 }
    requires fits { FitsIn M opening }
    ensures checked { IfOk result (λ machine. IsRunRecord B M opening steps.now machine.history) }
    ensures differs { IfErr result (SaysDiffers (DiffersAt B M opening steps.now)) }
{
    let mut machine = Machine::open(alloc, opening)?;
    do_steps::<B, M>(&mut machine, steps)?;
    Ok(machine)
}
