//! What a machine's last registers and words say of a condition, whatever led to them.

ghost use Rattle.std.specs.Prelude.{◌≡◌, ◌↔◌, ◌<◌, ◌≤◌, IsTrue, IfOk, OnOk, All, true, length, map};
ghost use Rattle.step_machine.specs.Positions.{position_of};
ghost use Rattle.step_machine.specs.declared.opening.TheConstants.{MAX_HARTS};
ghost use Rattle.litmus.specs.Formulas.{truth, places};
ghost use Rattle.litmus.specs.LitmusTests.{IsThere};
ghost use Rattle.litmus.specs.inner.Running.{done, all_done, AsksThere};
ghost use Rattle.litmus.specs.Verdicts.{HasFinishedAt, IsFinishedAt, value_there, is_satisfied as satisfied};

use crate::condition::Condition;
use crate::symbols::{Place, Step};
use crate::verdict::Quantifier;
use hart::status::Status;
use std::alloc::{AllocError, Global};
use step_machine::MachineState;

/// Whether the outcome is one that the test asks for, where the condition is so in it.
pub(crate) fn is_satisfied(quantifier: Quantifier, is_true: bool) -> bool
    ensures { result ≡ satisfied quantifier is_true }
{
    match quantifier {
        Quantifier::Exists | Quantifier::ForAll => is_true,
        Quantifier::NotExists => !is_true,
    }
}

fn has_finished<const B: usize, const M: usize>(machine: &MachineState<B, M>, hart: u32) -> bool
    requires { hart < length machine.now.harts }
    ensures { IsTrue result ↔ HasFinishedAt (position_of machine.now) hart }
{
    machine.status(hart) == Status::Ended && machine.pending(hart).is_empty()
}

/// Whether each hart has ended, and all its stores have landed.
pub(crate) fn is_finished<const B: usize, const M: usize>(machine: &MachineState<B, M>) -> bool
    requires { length machine.now.harts ≤ MAX_HARTS }
    ensures { IsTrue result ↔ IsFinishedAt (position_of machine.now) }
{
    for hart in 0..machine.harts() {
        if !has_finished(machine, hart) {
            return false;
        }
    }
    true
}

fn value_at<const B: usize, const M: usize>(place: Place, machine: &MachineState<B, M>) -> u32
    requires { IsThere (length machine.now.harts) M place }
    ensures { result ≡ value_there (position_of machine.now) place }
{
    match place {
        Place::Register { hart, number } => machine.register(hart, number),
        Place::Word { address } => machine.word(address),
    }
}

/// The last values of some places, in their order.
pub(crate) fn values_of<const B: usize, const M: usize>(
    alloc: Global,
    places: &[Place],
    machine: &MachineState<B, M>,
) -> Result<Vec<u32>, AllocError>
    requires { All (IsThere (length machine.now.harts) M) places.now }
    ensures { IfOk result (λ values. values.items ≡ map (value_there (position_of machine.now)) places.now) }
{
    let mut values = Vec::new(alloc);
    values_into(&mut values, places, machine)?;
    Ok(values)
}

/// The same in the place of what a vector holds.
pub(crate) fn values_into<const B: usize, const M: usize>(
    values: &mut Vec<u32>,
    places: &[Place],
    machine: &MachineState<B, M>,
) -> Result<(), AllocError>
    requires { All (IsThere (length machine.now.harts) M) places.now }
    ensures { OnOk result (values.new.items ≡ map (value_there (position_of machine.now)) places.now) }
{
    values.clear();
    for place in places {
        values.push(value_at(*place, machine))?;
    }
    Ok(())
}

/// The truth value after a step, and how many steps to skip.
fn after_step<const B: usize, const M: usize>(
    step: Step,
    so_far: bool,
    machine: &MachineState<B, M>,
) -> (bool, usize)
    requires { AsksThere (length machine.now.harts) M step }
    ensures { result ≡ done (value_there (position_of machine.now)) step so_far }
{
    match step {
        Step::Is { place, value } => (value_at(place, machine) == value, 0),
        Step::Not => (!so_far, 0),
        Step::And { skip } => (so_far, if so_far { 0 } else { skip }),
        Step::Or { skip } => (so_far, if so_far { skip } else { 0 }),
    }
}

fn run_steps<const B: usize, const M: usize>(steps: &[Step], machine: &MachineState<B, M>) -> bool
    requires { All (AsksThere (length machine.now.harts) M) steps.now }
    ensures { result ≡ all_done (value_there (position_of machine.now)) true 0 steps.now }
{
    let mut so_far = true;
    let mut skip = 0;
    for step in steps {
        if skip > 0 {
            skip -= 1;
        } else {
            (so_far, skip) = after_step(*step, so_far, machine);
        }
    }
    so_far
}

/// Whether the condition is true of the last registers and words.
pub(crate) fn is_true<const B: usize, const M: usize>(
    condition: &Condition,
    machine: &MachineState<B, M>,
) -> bool
    requires { All (IsThere (length machine.now.harts) M) (places condition.now) }
    ensures { result ≡ truth (value_there (position_of machine.now)) condition.now }
{
    run_steps(condition.steps(), machine)
}
