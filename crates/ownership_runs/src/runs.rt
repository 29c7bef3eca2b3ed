//! The runs of an opening, each judged by its first violation.

ghost use Rattle.std.specs.Prelude.{◌≡◌, ◌≤◌, ◌+◌, ◌-◌, min};
ghost use Rattle.step_machine.specs.History.{FitsIn};
ghost use Rattle.judged_runs.specs.Telling.{MOST};
ghost use Rattle.ownership_runs.specs.Runs.{IsOfOneKind, BreaksNothing, HasBrokenRun, HasMoved, AreMovesOf};

use crate::counts::{Counts, RunCounts};
use crate::judging::judge;
use crate::violations::Violation;
use judged_runs::Judge;
use queue_layouts::AnyQueue;
use std::alloc::{AllocError, Global};
use step_machine::{Event, Machine, Opening};

/// By how many positions the parties moved on in runs, each counted up to 18,446,744,073,709,551,615.
#[derive(Clone, Copy, PartialEq, Eq)]
pub struct Moved {
    /// How many the sender published.
    pub published: u64,
    /// How many the receiver took.
    pub taken: u64,
}

/// What no run moves on by.
const NOTHING_MOVED: Moved = Moved {
    published: 0,
    taken: 0,
};

/// A number of positions, counted up to 18,446,744,073,709,551,615.
fn capped(n: u128) -> u64
    ensures { result ≡ min n MOST }
{
    n.min(u128::from(u64::MAX)) as u64
}

/// By how much the parties of one run moved on, from these counts to those.
fn moved_by(start: Counts, counts: RunCounts) -> Moved
    ensures published { result.published ≡ min (counts.published - start.published) MOST }
    ensures taken { result.taken ≡ min (counts.taken - start.taken) MOST }
{
    let published = counts.published.saturating_sub(u128::from(start.published));
    let taken = counts.taken.saturating_sub(u128::from(start.taken));
    Moved {
        published: capped(published),
        taken: capped(taken),
    }
}

/// By how much the parties moved on in some runs and in further ones together.
fn both(moved: Moved, more: Moved) -> Moved
    ensures published { result.published ≡ min (moved.published + more.published) MOST }
    ensures taken { result.taken ≡ min (moved.taken + more.taken) MOST }
{
    Moved {
        published: moved.published.saturating_add(more.published),
        taken: moved.taken.saturating_add(more.taken),
    }
}

/// What runs are judged on: a machine of the opening, and by how much the parties moved on in the last run.
#[derive(Drop)]
pub struct OwnershipBench<const B: usize, const M: usize> {
    pub machine: Machine<B, M>,
    pub moved: Moved,
}

/// What judges the runs of an opening by a queue's protocol, over buffers of `B` stores and `M` words of memory. The
/// parties have come as far as `start` there.
#[derive(Drop)]
pub struct OwnershipJudge<'a, const B: usize, const M: usize> {
    pub opening: &'a Opening,
    pub queue: &'a AnyQueue,
    pub start: Counts,
    ghost can: { (1 ≤ B) × (B ≤ 64) × (1 ≤ M) × (M ≤ 65536) × FitsIn M opening.now },
}

impl<'a, const B: usize, const M: usize> Judge for OwnershipJudge<'a, B, M> {
    ghost use Rattle.std.specs.Prelude.{length, refl};

    type Bench = OwnershipBench<B, M>;

    type Flaw = Violation;

    type Tally = Moved;

    ghost harts = { λ it. length it.opening.now.harts };

    ghost stands = { λ it bench. (bench.machine.history.opening ≡ it.opening.now) × FitsIn M it.opening.now };

    ghost noted = { λ it events bench. HasMoved B M it.opening.now it.queue.now it.start events bench.machine.history bench.moved };

    ghost is_good = { λ it events. BreaksNothing B M it.opening.now it.queue.now it.start events };

    ghost has = { λ it events violation. HasBrokenRun B M it.opening.now it.queue.now it.start events violation };

    ghost alike = { λ it violation other. IsOfOneKind violation other };

    ghost counts = { λ it all moved. AreMovesOf B M it.opening.now it.queue.now it.start all moved };

    fn bench(&self, alloc: Global) -> Result<OwnershipBench<B, M>, AllocError> {
        let opening = self.opening.copy(alloc)?;
        let machine = Machine::open(alloc, opening)?;
        Ok(OwnershipBench {
            machine,
            moved: NOTHING_MOVED,
        })
    }

    fn harts(&self, bench: &OwnershipBench<B, M>) -> u32 {
        bench.machine.harts()
    }

    fn judge(
        &self,
        bench: &mut OwnershipBench<B, M>,
        events: &[Event],
    ) -> Result<Option<Violation>, AllocError> {
        let notes = judge(self.queue, self.start, &mut bench.machine, events)?;
        bench.moved = moved_by(self.start, notes.counts);
        Ok(notes.found)
    }

    /// A part of a run's events shows its violation if the same hart breaks the protocol first, by a store that is described or by another.
    fn is_alike(&self, violation: Violation, other: Violation) -> bool {
        violation.hart == other.hart && violation.described == other.described
    }

    fn none(&self, _alloc: Global) -> Result<Moved, AllocError> {
        Ok(NOTHING_MOVED)
    }

    fn add(&self, bench: &OwnershipBench<B, M>, moved: &mut Moved) {
        *moved = both(*moved, bench.moved);
    }

    fn join(&self, moved: &mut Moved, later: Moved) {
        *moved = both(*moved, later);
    }

    ghost same = { λ it violation. (refl, refl) };
}
