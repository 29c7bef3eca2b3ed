//! What whoever waits for a search learns of it.

ghost use Rattle.std.specs.Prelude.{◌≡◌, ◌≤◌, ◌<◌, length};

use crate::progress::SearchProgress;
use crate::steps::{Stepper, number_at};
use hart::Status;
use std::alloc::AllocError;
use step_machine::MachineState;

/// From how many states the search goes on between two reports.
const REPORT_STATES: usize = 1024;

/// How far a search was reported, which may begin anew.
#[derive(Drop)]
pub(crate) struct Reports {
    /// From which state on it is reported next.
    next: usize,
    /// Of how many states the stopped harts were reported.
    seen: usize,
}

impl Reports {
    pub fn new() -> Self {
        Reports { next: 0, seen: 0 }
    }

    /// Reports how far the search is that goes on from this state.
    pub fn go_on<P: SearchProgress>(
        &mut self,
        from: usize,
        states: usize,
        depth: u32,
        progress: &mut P,
    ) {
        if from >= self.next {
            progress.report(states.min(u32::MAX as usize) as u32, depth);
            self.next = from.saturating_add(REPORT_STATES);
        }
    }

    /// Reports each hart that is stopped in the state of this number, whose parts are those of the row, unless it was.
    pub fn see<const B: usize, const M: usize, P: SearchProgress>(
        &mut self,
        machine: &mut MachineState<B, M>,
        stepper: &mut Stepper,
        number: usize,
        row: &[u32],
        progress: &mut P,
    ) -> Result<(), AllocError>
        ensures { length machine.new.harts ≡ length machine.old.harts }
    {
        if number < self.seen {
            return Ok(());
        }
        self.seen = number.saturating_add(1);
        for hart in 0..machine.harts() {
            let facts = stepper.facts(machine, hart, number_at(row, hart as usize))?;
            if let Status::Stopped(why) = facts.status {
                progress.stopped(hart, why);
            }
        }
        Ok(())
    }
}
