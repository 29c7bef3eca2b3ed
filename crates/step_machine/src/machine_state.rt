//! What the machine holds: its harts, their store buffers and the memory, and what an event makes of
//! them. Nothing here knows a history.

ghost use Rattle.std.specs.Prelude.{◌≡◌, ◌≤◌, ◌<◌, ℕ, true, false, IsTrue, [], length, slice_get, map, replicate, All};
ghost use Rattle.std.specs.Prelude.{IfOk, IfSome, IsSomeAnd, OnOk, OnErr, unwrap_or, is_some};
ghost use Rattle.memory.specs.Words.{IsAddress};
ghost use Rattle.hart.specs.Steps.{reads, restarted};
ghost use Rattle.step_machine.specs.Snapshots.{AreSaved, IsSavedFrom};
ghost use Rattle.step_machine.specs.inner.Config.{opened_hart};
ghost use Rattle.step_machine.specs.inner.Stored.{InMemory};
ghost use Rattle.step_machine.specs.inner.Restored.{AreWithin, restored_harts, restored_config};
ghost use Rattle.rv_decode.specs.declared.instruction.TheConstants.{MAX_CODE};

use crate::events::{Event, Outcome};
use crate::needs::is_over;
use crate::opening::{Opening, open_harts};
use crate::snapshot::Snapshot;
use crate::stores::Stores;
use hart::need::Need;
use hart::status::Status;
use hart::{Hart, SavedHart};
use memory::writes::Write;
use std::alloc::{AllocError, Global};
use std::marker::Model;

mod packing;
mod parts;

/// For how many steps a hart gets room that has none.
const STEPS_AT_ONCE: usize = 64;

/// Harts, a store buffer of `B` stores for each, and a memory of `M` words.
pub struct MachineState<const B: usize, const M: usize> {
    harts: Vec<Hart>,
    stores: Stores<B, M>,
}

impl<const B: usize, const M: usize> Model for MachineState<B, M> {
    ghost use Rattle.std.specs.Prelude.{◌≤◌};
    ghost use Rattle.step_machine.specs.inner.Config.{Config, Fit};

    ghost Value = { Config };

    ghost view = { λ c. record { harts = c.harts.items; stored = c.stores } };

    ghost invariant = { λ c. (B ≤ 64) × Fit M (record { harts = c.harts.items; stored = c.stores }) };
}

// One call at each way out of a function that owns one, as of a `Machine`.
impl<const B: usize, const M: usize> Drop for MachineState<B, M> {
    fn drop(self) {
        let MachineState {
            harts: _,
            stores: _,
        } = self;
    }
}

impl<const B: usize, const M: usize> MachineState<B, M> {
    ghost use Rattle.step_machine.specs.History.{FitsIn};
    ghost use Rattle.step_machine.specs.Access.{IsInRange};
    ghost use Rattle.step_machine.specs.inner.Stored.{outcome_for, buffer_of, word_at};
    ghost use Rattle.step_machine.specs.inner.Config.{Fit, opened_config, HasRoom, outcome_of, act_outcome};
    ghost use Rattle.step_machine.specs.inner.Config.{land_outcome, after_outcome, step_hart, roomy_at};
    ghost use Rattle.step_machine.specs.inner.Config.{restarted_config, HasRoomAt, SameButRoom, AllHaveRoom, IsNext};

    /// What an opening gives: harts at their beginnings, empty buffers, and the opening's words.
    pub(crate) fn opened(alloc: Global, opening: &Opening) -> Result<Self, AllocError>
        requires capacity { B ≤ 64 }
        requires size { M ≤ 65536 }
        requires fits { FitsIn M opening.now }
        ensures { IfOk result (λ c. c ≡ opened_config M opening.now) }
    {
        let harts = open_harts(alloc, &opening.harts, M)?;
        let stores = Stores::open(alloc, &opening.words, opening.harts.len())?;
        Ok(MachineState { harts, stores })
    }

    /// What the event answers, and does.
    #[inline(always)]
    pub(crate) fn happen(&mut self, event: Event) -> Outcome
        requires room { HasRoom self.old.harts event }
        ensures outcome { result ≡ outcome_of B self.old event }
        ensures after { self.new ≡ after_outcome self.old result }
        ensures fit { Fit M self.new }
    {
        let outcome = match event {
            Event::Act(hart) => self.act(hart),
            Event::Land(hart) => self.land(hart),
        };
        // the proof knows from here on what holds of the fields (`invariant`)
        let _ = &self.harts;
        outcome
    }

    #[inline(always)]
    fn act(&mut self, hart: u32) -> Outcome
        requires room { IfSome (slice_get self.old.harts hart) (λ v. 0 < v.room) }
        ensures outcome { result ≡ act_outcome B self.old hart (slice_get self.old.harts hart) }
        ensures after { self.new ≡ after_outcome self.old result }
    {
        if hart as usize >= self.harts.len() {
            return Outcome::NoHart;
        }
        let here = &self.harts[hart as usize];
        match here.status() {
            Status::Running => {
                let need = here.next_need();
                self.meet(hart, need)
            }
            Status::Ended => Outcome::Over,
            Status::Stopped(_) => Outcome::Over,
        }
    }

    /// Does what a running hart needs, or lets it wait.
    #[inline(always)]
    fn meet(&mut self, hart: u32, need: Need) -> Outcome
        requires next { IsNext self.old hart need }
        requires within { hart < length self.old.harts }
        requires address { IsInRange M need }
        ensures outcome { result ≡ outcome_for B self.old.stored hart need }
        ensures after { self.new ≡ after_outcome self.old result }
    {
        let outcome = self.stores.serve(hart, need);
        if let Outcome::Did(entry) = outcome {
            self.advance(hart, need, entry.read());
        }
        outcome
    }

    /// Lets a running hart do what it needs, given the word that it read.
    #[inline(always)]
    #[tactic(auto, using(crate::proofs::Fitting::stepped_in_place, crate::proofs::Fitting::fit_step))]
    fn advance(&mut self, hart: u32, need: Need, value: Option<u32>)
        requires within { hart < length self.old.harts }
        requires next { IsNext self.old hart need }
        requires read { is_some value ≡ reads need }
        ensures { self.new ≡ record self.old { harts = step_hart self.old hart (unwrap_or value 0) } }
    {
        self.harts[hart as usize].meet(need, value);
    }

    #[inline(always)]
    fn land(&mut self, hart: u32) -> Outcome
        ensures outcome { result ≡ land_outcome self.old hart (slice_get self.old.harts hart) }
        ensures after { self.new ≡ after_outcome self.old result }
    {
        if hart as usize >= self.harts.len() {
            return Outcome::NoHart;
        }
        let over = is_over(self.harts[hart as usize].status());
        self.stores.land(hart, over)
    }

    /// Puts all back as it opened. It goes over the harts, and over the words of memory up to the last
    /// that was written.
    pub(crate) fn put_back(&mut self)
        ensures { self.new ≡ restarted_config self.old }
    {
        restart_harts(&mut self.harts);
        self.stores.restart();
    }

    /// What it holds, as it stands after this number of entries.
    pub(crate) fn save(&self, alloc: Global, entries: u128) -> Result<Snapshot<B, M>, AllocError>
        ensures count { IfOk result (λ s. s.count ≡ entries) }
        ensures saved { IfOk result (IsSavedFrom self.now) }
    {
        let harts = save_harts(alloc, &self.harts)?;
        let (buffers, words) = self.stores.save(alloc)?;
        Ok(Snapshot {
            entries,
            harts,
            buffers,
            words,
        })
    }

    /// Puts back what it held. It takes no memory.
    pub(crate) fn restore(&mut self, saved: &Snapshot<B, M>)
        requires harts { AreWithin self.old.harts saved.now.harts }
        requires count { length saved.now.buffers ≡ length self.old.stored.buffers }
        requires few { length saved.now.words ≤ M }
        requires pending { All (InMemory M) saved.now.buffers }
        ensures { self.new ≡ restored_config saved.now self.old }
    {
        restore_harts(&mut self.harts, &saved.harts);
        self.stores.restore(&saved.buffers, &saved.words);
    }

    /// Makes room for a step of the hart that the event lets act. An error leaves all as it was.
    pub(crate) fn reserve_for(&mut self, event: Event) -> Result<(), AllocError>
        ensures room { OnOk result (HasRoom self.new.harts event) }
        ensures same { SameButRoom self.old self.new }
        ensures err { OnErr result (self.new ≡ self.old) }
    {
        match event {
            Event::Act(hart) => self.reserve_some_at(hart as usize),
            Event::Land(_) => Ok(()),
        }
    }

    /// Makes room for a step of one hart, and where it has none for some more: so few steps ask for it.
    #[inline(always)]
    fn reserve_some_at(&mut self, index: usize) -> Result<(), AllocError>
        ensures ok { OnOk result (HasRoomAt self.new.harts index) }
        ensures same { SameButRoom self.old self.new }
        ensures err { OnErr result (self.new ≡ self.old) }
    {
        if self.has_room_at(index) {
            Ok(())
        } else {
            self.reserve_at(index, STEPS_AT_ONCE)
        }
    }

    /// Whether the hart has room for a step, if there is one.
    #[inline(always)]
    fn has_room_at(&self, index: usize) -> bool
        ensures { IsTrue result → HasRoomAt self.now.harts index }
    {
        match self.harts.get(index) {
            Some(hart) => hart.has_room(),
            None => true,
        }
    }

    /// Makes room for `n` steps. After an error some harts may have it.
    pub(crate) fn reserve(&mut self, n: usize) -> Result<(), AllocError>
        ensures room { OnOk result (AllHaveRoom n self.new.harts) }
        ensures more { (r : ℕ) → AllHaveRoom r self.old.harts → AllHaveRoom r self.new.harts }
        ensures same { SameButRoom self.old self.new }
    {
        for index in 0..self.harts.len() {
            self.reserve_at(index, n)?;
        }
        Ok(())
    }

    fn reserve_at(&mut self, index: usize, n: usize) -> Result<(), AllocError>
        ensures ok { OnOk result (self.new ≡ record self.old { harts = roomy_at self.old.harts index n }) }
        ensures err { OnErr result (self.new ≡ self.old) }
    {
        match self.harts.get_mut(index) {
            Some(hart) => hart.reserve(n),
            None => Ok(()),
        }
    }

    pub(crate) fn count(&self) -> usize
        ensures { result ≡ length self.now.harts }
    {
        self.harts.len()
    }

    pub(crate) fn hart(&self, hart: u32) -> &Hart
        requires { hart < length self.now.harts }
        ensures { slice_get self.now.harts hart ≡ Some result.now }
    {
        &self.harts[hart as usize]
    }

    pub(crate) fn buffer(&self, hart: u32) -> &[Write]
        requires { hart < length self.now.harts }
        ensures { result.now ≡ buffer_of self.now.stored hart }
    {
        self.stores.pending(hart)
    }

    pub(crate) fn held_word(&self, addr: u32) -> u32
        requires { IsAddress M addr }
        ensures { result ≡ word_at self.now.stored addr }
    {
        self.stores.word(addr)
    }
}

fn save_harts(alloc: Global, harts: &[Hart]) -> Result<Vec<SavedHart>, AllocError>
    ensures { IfOk result (λ saved. AreSaved harts.now saved.items) }
{
    let mut saved = Vec::with_capacity(alloc, harts.len())?;
    for hart in harts {
        saved.push(hart.save())?;
    }
    Ok(saved)
}

fn restore_harts(harts: &mut [Hart], saved: &[SavedHart])
    requires { AreWithin harts.old saved.now }
    ensures { harts.new ≡ restored_harts harts.old saved.now }
{
    for index in 0..harts.len() {
        harts[index].restore(&saved[index]);
    }
}

fn restart_harts(harts: &mut [Hart])
    ensures { harts.new ≡ map restarted harts.old }
{
    for hart in harts.iter_mut() {
        hart.restart();
    }
}
