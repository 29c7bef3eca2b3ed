//! The runs of a channel, each judged by its first violation, and their totals.

ghost use Rattle.std.specs.Prelude.{◌≡◌, ◌≤◌, ◌<◌, ◌+◌, ◌++◌, ◌∷◌, ℕ, [], List, Some, None, IfOk, length};
ghost use Rattle.std.specs.List.{slice_get};
ghost use Rattle.step_machine.specs.History.{History};
ghost use Rattle.step_machine.specs.Entries.{reported};
ghost use Rattle.poll_close.specs.Violations.{AreNotes};
ghost use Rattle.ring_trials.specs.UserChannel.{OpensOver, start_of};
ghost use Rattle.ring_trials.specs.Trials.{AreTotals, AreTotalsOf, IsBenchOf, IsChannelJudged, IsClean, HasViolation};

use crate::judging::judge;
use crate::user_channel::{UserChannel, senders};
use judged_runs::Judge;
use poll_close::{Share, Violation, no_shares};
use std::alloc::{AllocError, Global};
use step_machine::{Event, MachineState, Opening};

/// A sender's totals over many runs.
#[derive(Clone, Copy, PartialEq, Eq)]
pub struct Total {
    /// How many of its words a run took at most.
    pub most: usize,
    /// In how many runs it was reported closed.
    pub closed: u32,
}

pub(crate) fn no_totals(alloc: Global, senders: usize) -> Result<Vec<Total>, AllocError>
    ensures totals { IfOk result (λ totals. AreTotals [] totals.items) }
    ensures count { IfOk result (λ totals. length totals.items ≡ senders) }
{
    let none = Total { most: 0, closed: 0 };
    vec![in alloc; none; senders]
}

/// Takes in what is noted of one run more.
#[tactic(auto, using(crate::proofs::RunsLaws::taken_more, crate::proofs::RunsLaws::taken_none, crate::proofs::RunsLaws::totals_more))]
fn take_in(totals: &mut [Total], shares: &[Share])
    requires count { length totals.old ≡ length shares.now }
    requires few { (k : ℕ) (s : Total) → slice_get totals.old k ≡ Some s → s.closed < 4294967295 }
    ensures totals { (ts : List History) (t : History) → AreTotals ts totals.old → AreNotes (reported 0 t.entries) shares.now → AreTotals
        (ts ++ t ∷ []) totals.new }
    ensures count { length totals.new ≡ length totals.old }
{
    for index in 0..totals.len() {
        let share = shares[index];
        let total = totals[index];
        totals[index] = Total {
            most: total.most.max(share.taken),
            closed: if share.closed {
                total.closed + 1
            } else {
                total.closed
            },
        };
    }
}

/// Takes in the totals of later runs.
#[tactic(auto, using(crate::proofs::RunsLaws::taken_more, crate::proofs::RunsLaws::taken_none, crate::proofs::RunsLaws::totals_both))]
fn join(totals: &mut [Total], later: &[Total])
    requires count { length totals.old ≡ length later.now }
    requires few { (k : ℕ) (s l : Total) → slice_get totals.old k ≡ Some s → slice_get later.now k ≡ Some l → s.closed + l.closed ≤ 4294967295 }
    ensures totals { (ts us : List History) → AreTotals ts totals.old → AreTotals us later.now → AreTotals (ts ++ us) totals.new }
    ensures count { length totals.new ≡ length totals.old }
{
    for index in 0..totals.len() {
        let total = totals[index];
        let more = later[index];
        totals[index] = Total {
            most: total.most.max(more.most),
            closed: total.closed + more.closed,
        };
    }
}

/// What runs of a channel are judged on: a machine of its opening, and what is noted of each sender.
#[derive(Drop)]
pub struct Bench<const B: usize, const M: usize> {
    pub machine: MachineState<B, M>,
    pub shares: Vec<Share>,
}

/// What judges the runs of a channel from this opening, over buffers of `B` stores and `M` words of memory.
#[derive(Drop)]
pub struct ChannelJudge<'a, const B: usize, const M: usize> {
    pub channel: &'a UserChannel,
    pub opening: &'a Opening,
    ghost can: { (B ≤ 64) × (M ≤ 65536) × OpensOver M channel.now opening.now },
}

impl<'a, const B: usize, const M: usize> Judge for ChannelJudge<'a, B, M> {
    ghost use Rattle.std.specs.Prelude.{length};

    type Bench = Bench<B, M>;

    type Flaw = Violation;

    type Tally = Vec<Total>;

    ghost harts = { λ it. length (start_of it.channel.now).harts };

    ghost stands = { λ it bench. IsBenchOf B M it.channel.now bench.machine bench.shares.items };

    ghost noted = { λ it events bench. IsChannelJudged B M it.channel.now events None bench.shares.items };

    ghost is_good = { λ it events. IsClean B M it.channel.now events };

    ghost has = { λ it events violation. HasViolation B M it.channel.now events violation };

    ghost alike = { λ it violation other. Unit {0} };

    ghost counts = { λ it all totals. AreTotalsOf B M it.channel.now all totals.items };

    fn bench(&self, alloc: Global) -> Result<Bench<B, M>, AllocError> {
        let machine = MachineState::<B, M>::open(alloc, self.opening)?;
        let shares = no_shares(alloc, senders(self.channel))?;
        Ok(Bench { machine, shares })
    }

    fn harts(&self, bench: &Bench<B, M>) -> u32 {
        bench.machine.harts()
    }

    fn judge(
        &self,
        bench: &mut Bench<B, M>,
        events: &[Event],
    ) -> Result<Option<Violation>, AllocError> {
        judge(self.channel, &mut bench.machine, &mut bench.shares, events)
    }

    /// A part of an unclean run's events is wanted if it is unclean, whatever it breaks.
    fn is_alike(&self, _violation: Violation, _other: Violation) -> bool {
        true
    }

    fn none(&self, alloc: Global) -> Result<Vec<Total>, AllocError> {
        no_totals(alloc, senders(self.channel))
    }

    fn add(&self, bench: &Bench<B, M>, totals: &mut Vec<Total>) {
        take_in(totals, &bench.shares);
    }

    fn join(&self, totals: &mut Vec<Total>, later: Vec<Total>) {
        join(totals, &later);
    }

    ghost same = { λ it violation. tt };
}
