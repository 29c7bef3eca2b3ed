//! Whether a list of events ends as it should.

ghost use Rattle.std.specs.Prelude.{◌≡◌, ◌≤◌, ◌↔◌, IsTrue, OnOk, length};
ghost use Rattle.step_machine.specs.Runs.{Run};
ghost use Rattle.litmus.specs.Verdicts.{IsFinished};
ghost use Rattle.shrink.specs.Shrinking.{EndsWith};

use crate::passes::Question;
use litmus::{Test, Verdict};
use std::alloc::{AllocError, Global};
use step_machine::laws::laws_of_runs;
use step_machine::{Event, Machine};

/// Runs events from the machine's opening.
pub(crate) fn run_again<const B: usize, const M: usize>(
    machine: &mut Machine<B, M>,
    events: &[Event],
) -> Result<(), AllocError>
    ensures run { OnOk result (Run B M machine.old.history.opening events.now machine.new.history) }
    ensures opening { machine.new.history.opening ≡ machine.old.history.opening }
{
    machine.restart();
    match machine.run(events) {
        Ok(()) => Ok(()),
        Err((_, error)) => Err(error),
    }
}

/// Whether each hart has ended, and all its stores have landed.
pub(crate) fn is_finished<const B: usize, const M: usize>(
    test: &Test,
    machine: &Machine<B, M>,
) -> bool
    requires opening { machine.now.history.opening ≡ test.now.opening }
    requires names { length test.now.names ≤ M }
    ensures { IsTrue result ↔ IsFinished M machine.now.history }
{
    match test.verdict(machine.machine_state()) {
        Verdict::Holds => true,
        Verdict::Fails => true,
        Verdict::Unfinished => false,
    }
}

fn are_same(values: &[u32], last: &[u32]) -> bool
    ensures { IsTrue result ↔ (values.now ≡ last.now) }
{
    values == last
}

/// The question whether the run of a list of events is finished and leaves the test's observed locations with these values.
#[derive(Drop)]
pub(crate) struct SameEnd<'a, const B: usize, const M: usize> {
    pub(crate) test: &'a Test,
    pub(crate) last: &'a [u32],
}

impl<'a, const B: usize, const M: usize> Question for SameEnd<'a, B, M> {
    type Bench = Machine<B, M>;

    ghost stands = { λ it machine. (machine.history.opening ≡ it.test.now.opening) × (length it.test.now.names ≤ M) };

    ghost holds = { λ it events. EndsWith B M it.test.now events it.last.now };

    fn holds_of(
        &self,
        alloc: Global,
        machine: &mut Machine<B, M>,
        events: &[Event],
    ) -> Result<bool, AllocError> {
        laws_of_runs();
        run_again(machine, events)?;
        if !is_finished(self.test, machine) {
            return Ok(false);
        }
        let values = self.test.values(alloc, machine.machine_state())?;
        Ok(are_same(&values, self.last))
    }
}
