//! A test's run made short, given as a machine that stands at its end or as a schedule.

ghost use Rattle.std.specs.Prelude.{◌≡◌, ◌≤◌, List, length, IfOk, IfErr};
ghost use Rattle.step_machine.specs.Runs.{Run};
ghost use Rattle.step_machine.specs.declared.events.Event.{Event};
ghost use Rattle.litmus.specs.declared.litmus_test.TheConstants.{MAX_LOCATIONS};
ghost use Rattle.shrink.specs.Shrinking.{IsShrunk, RefusesTest, RefusesRun};

use crate::faults::ShrinkError;
use crate::passes::leave_out;
use crate::trying::{SameEnd, is_finished, run_again};
use litmus::Test;
use std::alloc::{AllocError, Global};
use step_machine::laws::laws_of_runs;
use step_machine::{Event, Machine};

/// Leaves events out of the run whose end the machine stands at, as [`shrink_run`] does. The machine ends
/// elsewhere.
fn shrink_from_end<const B: usize, const M: usize>(
    alloc: Global,
    test: &Test,
    machine: &mut Machine<B, M>,
) -> Result<Vec<Event>, ShrinkError>
    requires opening { machine.old.history.opening ≡ test.now.opening }
    requires names { length test.now.names ≤ M }
    ensures shrunk { (given : List Event) → Run B M test.now.opening given machine.old.history
        → IfOk result (λ answer. IsShrunk B M test.now given answer.items) }
    ensures refused { IfErr result (λ why. RefusesRun M machine.old.history why) }
{
    if !is_finished(test, machine) {
        return Err(ShrinkError::NotFinished);
    }
    let last = test.values(alloc, machine.machine_state())?;
    let mut left = machine.entries().into_events(alloc)?;
    let same_end = SameEnd::<B, M> { test, last: &last };
    leave_out(alloc, &same_end, machine, &mut left)?;
    Ok(left)
}

/// Leaves events out of a test's run, until each one that is left is needed for the outcome: for a run
/// that is finished, with the same last values of the observed locations. The machine stands at the end of the
/// run; it has store buffers of `B` stores and `M` words of memory.
///
/// Events without an entry go first, then pieces of half the length, of half that and so on, then single
/// events. So n entries usually take some 2 n runs of at most n events.
pub fn shrink_run<const B: usize, const M: usize>(
    alloc: Global,
    test: &Test,
    machine: Machine<B, M>,
) -> Result<Vec<Event>, ShrinkError>
    requires opening { machine.history.opening ≡ test.now.opening }
    requires names { length test.now.names ≤ M }
    ensures shrunk { (given : List Event) → Run B M test.now.opening given machine.entry.history
        → IfOk result (λ answer. IsShrunk B M test.now given answer.items) }
    ensures refused { IfErr result (λ why. RefusesRun M machine.entry.history why) }
{
    let mut again = machine;
    shrink_from_end(alloc, test, &mut again)
}

/// Leaves events out of a schedule of the test, as [`shrink_run`] does of the schedule's run.
pub fn shrink<const B: usize, const M: usize>(
    alloc: Global,
    test: &Test,
    events: &[Event],
) -> Result<Vec<Event>, ShrinkError>
    requires some_capacity { 1 ≤ B }
    requires capacity { B ≤ 64 }
    requires words { MAX_LOCATIONS ≤ M }
    requires size { M ≤ 65536 }
    ensures shrunk { IfOk result (λ answer. IsShrunk B M test.now events.now answer.items) }
    ensures refused { IfErr result (λ why. RefusesTest B M test.now events.now why) }
{
    laws_of_runs();
    let opening = test.opening(alloc)?;
    let mut machine: Machine<B, M> = Machine::open(alloc, opening)?;
    run_again(&mut machine, events)?;
    shrink_run(alloc, test, machine)
}
