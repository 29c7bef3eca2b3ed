//! A channel that runs event by event.

ghost use Rattle.std.specs.Prelude.{◌≡◌, ◌≤◌, ◌<◌, ◌+◌, ℕ, List, IsOk, IfOk, IfErr, OnOk, OnErr, map, take, length};
ghost use Rattle.poll_close.specs.Laws.{Accepted, AcceptedAt, opening_of, opening_over};
ghost use Rattle.poll_close.specs.Layout.{layout_of};
ghost use Rattle.poll_close.specs.Refusals.{Refuses, RefusesAt};

use crate::faults::{Refused, RefusedAt};
use crate::kind::RingKind;
use crate::openings::opening_at;
use crate::place::BlockPlace;
use crate::plans::{Finish, plan_of};
use hart::need::Report;
use std::alloc::{AllocError, Global};
use std::marker::{Model, PhantomData};
use step_machine::laws::laws_of_runs;
use step_machine::{Event, Machine, Outcome, Trace};

/// A channel of a kind of ring, over harts with store buffers of `B` pairs and a memory of `M` words. A
/// contract sees its machine: the history, which stands as the ring's laws say, and for how many more
/// steps it has room.
#[derive(Drop)]
pub struct Channel<K: RingKind, const B: usize, const M: usize> {
    machine: Machine<B, M>,
    kind: PhantomData<K>,
}

impl<K: RingKind, const B: usize, const M: usize> Model for Channel<K, B, M> {
    ghost use Rattle.std.specs.Prelude.{◌≤◌};
    ghost use Rattle.step_machine.specs.History.{HistoryWithRoom};
    ghost use Rattle.poll_close.specs.Standing.{Stands};

    ghost Value = { HistoryWithRoom };

    ghost view = { λ c. c.machine };

    ghost invariant = { λ c. (1 ≤ B) × Stands K.ring K.meaning B M c.machine.history × (B ≤ 64) × (1 ≤ M) × (M ≤ 65536) };
}

impl<K: RingKind, const B: usize, const M: usize> Channel<K, B, M> {
    ghost use Rattle.step_machine.specs.History.{at_opening};
    ghost use Rattle.step_machine.specs.Entries.{reported};
    ghost use Rattle.step_machine.specs.Runs.{Happens, RunFrom, IsOwnRun};
    ghost use Rattle.poll_close.specs.Laws.{AllGoOn};
    ghost use Rattle.poll_close.specs.Reports.{Clean};
    ghost use Rattle.poll_close.specs.Standing.{IsOpeningOf, opening_lists};

    /// A channel over these lists at its opening, with rings of `ring` slots in the dense layout. Err as
    /// [`opening`](crate::openings::opening).
    #[tactic(auto, using(crate::proofs::Opened::dense_refusal))]
    pub fn open(alloc: Global, lists: &[Vec<u32>], ring: u32) -> Result<Self, Refused>
        requires some_capacity { 1 ≤ B }
        requires capacity { B ≤ 64 }
        requires some_word { 1 ≤ M }
        requires memory { M ≤ 65536 }
        ensures value { IfOk result (λ c. c.history ≡ at_opening (opening_of K.ring (map (λ v. v.items) lists.now) ring)) }
        ensures accepted { OnOk result (Accepted K.ring M (map (λ v. v.items) lists.now) ring) }
        ensures refused { IfErr result (λ e. Refuses K.ring M (map (λ v. v.items) lists.now) ring e) }
    {
        match Self::open_at(alloc, lists, BlockPlace::dense(ring), &[]) {
            Ok(channel) => Ok(channel),
            Err(why) => Err(why.of_lists()),
        }
    }

    /// A channel over these lists at a place, over a memory that opens with these words, at its opening.
    /// Err as [`opening_at`].
    pub fn open_at(
        alloc: Global,
        lists: &[Vec<u32>],
        place: BlockPlace,
        words: &[u32],
    ) -> Result<Self, RefusedAt>
        requires some_capacity { 1 ≤ B }
        requires capacity { B ≤ 64 }
        requires some_word { 1 ≤ M }
        requires memory { M ≤ 65536 }
        ensures value { IfOk result (λ c. c.history ≡ at_opening (opening_over K.ring (map (λ v. v.items) lists.now) (layout_of place words.now))) }
        ensures accepted { OnOk result (AcceptedAt K.ring M (map (λ v. v.items) lists.now) (layout_of place words.now)) }
        ensures refused { IfErr result (λ e. RefusesAt K.ring M (map (λ v. v.items) lists.now) (layout_of place words.now) e) }
    {
        K::laws();
        let opening = opening_at::<K>(alloc, lists, place, words, M)?;
        let machine = Machine::open(alloc, opening)?;
        Ok(Channel {
            machine,
            kind: PhantomData,
        })
    }

    /// One event, as the machine's `step`: an error changes nothing.
    pub fn step(&mut self, event: Event) -> Result<Outcome, AllocError>
        ensures happens { IfOk result (λ o. Happens B M self.old.history event o self.new.history) }
        ensures opening { self.new.history.opening ≡ self.old.history.opening }
        ensures err { OnErr result (self.new ≡ self.old) }
        ensures reserved { 0 < self.old.room → IsOk result }
        ensures room { self.old.room ≤ self.new.room + 1 }
    {
        K::laws();
        self.machine.step(event)
    }

    /// The events one after the other. An error names how many of them came before it, which is fewer
    /// than there are: the channel stands after those.
    pub fn run(&mut self, events: &[Event]) -> Result<(), (usize, AllocError)>
        ensures ok { OnOk result (RunFrom B M self.old.history events.now self.new.history) }
        ensures err { IfErr result (λ e. RunFrom B M self.old.history (take e.0 events.now) self.new.history) }
        ensures below { IfErr result (λ e. e.0 < length events.now) }
        ensures opening { self.new.history.opening ≡ self.old.history.opening }
        ensures reserved { length events.now ≤ self.old.room → IsOk result }
        ensures room { self.old.room ≤ self.new.room + length events.now }
    {
        K::laws();
        self.machine.run(events)
    }

    /// Makes room for `n` events. Neither outcome changes the history.
    pub fn reserve(&mut self, n: usize) -> Result<(), AllocError>
        ensures history { self.new.history ≡ self.old.history }
        ensures room { OnOk result (n ≤ self.new.room) }
        ensures kept { self.old.room ≤ self.new.room }
        ensures err { OnErr result (self.new ≡ self.old) }
    {
        self.machine.reserve(n)
    }

    /// What the receiver reported, oldest first.
    pub fn reports(&self) -> &[Report]
        ensures value { result.now ≡ reported 0 self.now.history.entries }
        ensures clean { Clean result.now (opening_lists self.now.history.opening) }
    {
        K::laws();
        self.machine.reports(0)
    }

    /// A copy of the history: the run of its own entries' events from an opening of this kind. No hart
    /// in it is stopped.
    pub fn trace(&self, alloc: Global) -> Result<Trace, AllocError>
        ensures value { IfOk result (λ t. t ≡ self.now.history) }
        ensures opening { IsOpeningOf K.ring M self.now.history.opening }
        ensures own { IsOwnRun B M self.now.history }
        ensures goes { AllGoOn self.now.history.entries }
    {
        K::laws();
        laws_of_runs();
        self.machine.trace(alloc)
    }
}

impl<K: Finish<B, M>, const B: usize, const M: usize> Channel<K, B, M> {
    ghost use Rattle.std.specs.Prelude.{[], true};
    ghost use Rattle.poll_close.specs.Plans.{Finishes, is_done};

    /// Events that finish the channel from where it stands: after them every sender is reported closed
    /// and its whole list is taken. There are none where that is so already. The channel is left as it
    /// is: the plan is found on a second machine, which runs the entries' events first.
    pub fn finish_plan(&self, alloc: Global) -> Result<Vec<Event>, AllocError>
        ensures finishes { IfOk result (λ plan. Finishes B M self.now.history plan.items) }
        ensures none { IfOk result (λ plan. is_done self.now.history ≡ true → plan.items ≡ []) }
    {
        let machine = run_again(alloc, &self.machine)?;
        plan_of::<K, B, M>(alloc, machine)
    }
}

/// A second machine with the same history.
fn run_again<const B: usize, const M: usize>(
    alloc: Global,
    machine: &Machine<B, M>,
) -> Result<Machine<B, M>, AllocError>
    requires some_capacity { 1 ≤ B }
    requires capacity { B ≤ 64 }
    requires some_word { 1 ≤ M }
    requires memory { M ≤ 65536 }
    ensures { IfOk result (λ m. m.history ≡ machine.now.history) }
{
    let events = machine.entries().into_events(alloc)?;
    let mut second = Machine::open(alloc, machine.opening().copy(alloc)?)?;
    match second.run(&events) {
        Ok(()) => Ok(second),
        Err((_, error)) => Err(error),
    }
}
