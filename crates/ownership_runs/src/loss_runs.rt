//! The runs of an opening, each judged by its first loss.

ghost use Rattle.std.specs.Prelude.{◌≡◌, ◌≤◌, IfOk, OnOk};
ghost use Rattle.step_machine.specs.History.{FitsIn};
ghost use Rattle.step_machine.specs.Runs.{Run};
ghost use Rattle.ownership_runs.specs.Keeping.{slots_in};
ghost use Rattle.ownership_runs.specs.Protocols.{HasSlot};
ghost use Rattle.ownership_runs.specs.Runs.{LosesNothing, HasLoss, IsLossOfOneKind, CountsNothing, judged_loss};

use crate::counts::Counts;
use crate::judging::judge;
use crate::judging_losses::first_loss;
use crate::losses::Loss;
use crate::sent::ByteLog;
use judged_runs::Judge;
use queue_layouts::AnyQueue;
use std::alloc::{AllocError, Global};
use step_machine::{Event, Machine, Opening};

/// The loss that is judged of the run of these events: its first one, or the first one after a violation that is described. The machine ends at
/// its end, whatever it did before.
fn judged_loss<const B: usize, const M: usize>(
    queue: &AnyQueue,
    start: Counts,
    broken: bool,
    machine: &mut Machine<B, M>,
    log: &mut Vec<ByteLog>,
    events: &[Event],
) -> Result<Option<Loss>, AllocError>
    requires size { M ≤ 65536 }
    requires some_slot { HasSlot queue.now }
    ensures run { OnOk result (Run B M machine.old.history.opening events.now machine.new.history) }
    ensures found { IfOk result (λ found. found ≡ judged_loss broken queue.now machine.old.history.opening start machine.new.history.entries) }
    ensures opening { machine.new.history.opening ≡ machine.old.history.opening }
{
    if !broken {
        return first_loss(None, queue, start, machine, log, events);
    }
    match judge(queue, start, machine, events)?.found {
        None => Ok(None),
        Some(violation) => {
            if violation.described {
                first_loss(Some(violation.place), queue, start, machine, log, events)
            } else {
                Ok(None)
            }
        }
    }
}

/// What runs are judged on: a machine of the opening, and the log of what was sent in the last run.
#[derive(Drop)]
pub struct LossBench<const B: usize, const M: usize> {
    pub machine: Machine<B, M>,
    log: Vec<ByteLog>,
}

/// What judges the runs of an opening by what is lost of a queue's records, over buffers of `B` stores and `M` words of memory. The
/// parties have come as far as `start` there. Good runs count to nothing.
#[derive(Drop)]
pub struct LossJudge<'a, const B: usize, const M: usize> {
    pub opening: &'a Opening,
    pub queue: &'a AnyQueue,
    pub start: Counts,
    /// Whether only what is lost after a first violation that is described counts.
    pub broken: bool,
    ghost can: { (1 ≤ B) × (B ≤ 64) × (1 ≤ M) × (M ≤ 65536) × FitsIn M opening.now × (1 ≤ slots_in queue.now) },
}

impl<'a, const B: usize, const M: usize> Judge for LossJudge<'a, B, M> {
    ghost use Rattle.std.specs.Prelude.{length, refl};

    type Bench = LossBench<B, M>;

    type Flaw = Loss;

    type Tally = ();

    ghost harts = { λ it. length it.opening.now.harts };

    ghost stands = { λ it bench. (bench.machine.history.opening ≡ it.opening.now) × FitsIn M it.opening.now };

    ghost noted = { λ it events bench. CountsNothing };

    ghost is_good = { λ it events. LosesNothing B M it.opening.now it.queue.now it.start it.broken events };

    ghost has = { λ it events loss. HasLoss B M it.opening.now it.queue.now it.start it.broken events loss };

    ghost alike = { λ it loss other. IsLossOfOneKind loss other };

    ghost counts = { λ it all nothing. CountsNothing };

    fn bench(&self, alloc: Global) -> Result<LossBench<B, M>, AllocError> {
        let opening = self.opening.copy(alloc)?;
        let machine = Machine::open(alloc, opening)?;
        Ok(LossBench {
            machine,
            log: Vec::new(alloc),
        })
    }

    fn harts(&self, bench: &LossBench<B, M>) -> u32 {
        bench.machine.harts()
    }

    fn judge(
        &self,
        bench: &mut LossBench<B, M>,
        events: &[Event],
    ) -> Result<Option<Loss>, AllocError> {
        judged_loss(
            self.queue,
            self.start,
            self.broken,
            &mut bench.machine,
            &mut bench.log,
            events,
        )
    }

    /// A part of a run's events shows its loss if the same hart loses first.
    fn is_alike(&self, loss: Loss, other: Loss) -> bool {
        loss.hart == other.hart
    }

    fn none(&self, _alloc: Global) -> Result<(), AllocError> {
        Ok(())
    }

    fn add(&self, _bench: &LossBench<B, M>, _nothing: &mut ()) {}

    fn join(&self, _nothing: &mut (), _later: ()) {}

    ghost same = { λ it loss. refl };
}
