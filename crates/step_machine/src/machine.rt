//! The machine: an opening, the entries since, and what the harts, buffers and memory hold by now.

ghost use Rattle.std.specs.Prelude.{◌≡◌, ◌+◌, ◌≤◌, ◌<◌, ℕ, List, All, length, take, IfOk, IfErr, IsOk, IsErr, OnOk, OnErr};
ghost use Rattle.hart.specs.State.{HartState};
ghost use Rattle.memory.specs.Words.{IsAddress};
ghost use Rattle.step_machine.specs.inner.Config.{AllHaveRoom, HasRoom, SameButRoom, entries_after};
ghost use Rattle.step_machine.specs.declared.opening.TheConstants.{MAX_HARTS};

use crate::events::{Event, Outcome};
use crate::machine_state::MachineState;
use crate::opening::{Opening, Trace};
use crate::packed::{Entries, PackedEntries};
use crate::snapshot::Snapshot;
use hart::need::Report;
use hart::status::Status;
use memory::writes::Write;
use std::alloc::{AllocError, Global};
use std::marker::Model;

/// Harts with store buffers of `B` stores over one memory of `M` words. A contract sees its history
/// and for how many more steps it has room.
pub struct Machine<const B: usize, const M: usize> {
    opening: Opening,
    entries: PackedEntries,
    machine_state: MachineState<B, M>,
    room: usize,
}

impl<const B: usize, const M: usize> Model for Machine<B, M> {
    ghost use Rattle.std.specs.Prelude.{◌≤◌};
    ghost use Rattle.step_machine.specs.History.{HistoryWithRoom};
    ghost use Rattle.step_machine.specs.inner.Representation.{IsMachineAt};

    ghost Value = { HistoryWithRoom };

    ghost view = { λ m. record { history = record { opening = m.opening; entries = m.entries.entries }; room = m.room } };

    ghost invariant = { λ m. IsMachineAt B M (record { opening = m.opening; entries = m.entries.entries }) m.machine_state m.room × (m.room ≤ m.entries.room) };
}

// With a `drop` of its own, a machine goes by one call at each way out of a function that owns one. Derived,
// each of its vectors goes there, and the check of such a function takes four times as long.
impl<const B: usize, const M: usize> Drop for Machine<B, M> {
    fn drop(self) {
        let Machine {
            opening: _,
            entries: _,
            machine_state: _,
            room: _,
        } = self;
    }
}

impl<const B: usize, const M: usize> Machine<B, M> {
    ghost use Rattle.step_machine.specs.History.{FitsIn, at_opening, up_to};
    ghost use Rattle.step_machine.specs.Snapshots.{IsTakenAt};
    ghost use Rattle.step_machine.specs.Entries.{pending, reported, memory_word};
    ghost use Rattle.step_machine.specs.Standing.{RepresentsHistory};
    ghost use Rattle.step_machine.specs.Paths.{IsStatus, IsPc, IsRegister};
    ghost use Rattle.step_machine.specs.Legal.{IsOfHarts, WellFormed};
    ghost use Rattle.step_machine.specs.Runs.{Happens, RunFrom, IsOwnRun};

    /// A machine at its opening.
    pub fn open(alloc: Global, opening: Opening) -> Result<Self, AllocError>
        requires some_capacity { 1 ≤ B }
        requires capacity { B ≤ 64 }
        requires some_word { 1 ≤ M }
        requires size { M ≤ 65536 }
        requires fits { FitsIn M opening }
        ensures { IfOk result (λ m. m.history ≡ at_opening opening) }
    {
        let machine_state = MachineState::opened(alloc, &opening)?;
        Ok(Machine {
            opening,
            entries: PackedEntries::new(alloc),
            machine_state,
            room: 0,
        })
    }

    /// One event. All growth comes first, so an error changes nothing; within reserved room there is
    /// no error.
    #[inline(always)]
    pub fn step(&mut self, event: Event) -> Result<Outcome, AllocError>
        ensures happens { IfOk result (λ o. Happens B M self.old.history event o self.new.history) }
        ensures opening { self.new.history.opening ≡ self.old.history.opening }
        ensures err { OnErr result (self.new ≡ self.old) }
        ensures reserved { 0 < self.old.room → IsOk result }
        ensures room { self.old.room ≤ self.new.room + 1 }
    {
        make_room(&mut self.entries, &mut self.machine_state, self.room, event)?;
        let outcome = self.machine_state.happen(event);
        add_entry(&mut self.entries, outcome);
        self.room = self.room.saturating_sub(1);
        Ok(outcome)
    }

    /// Makes room for `n` entries, which is asked for once and not as they come.
    fn reserve_entries(&mut self, n: usize) -> Result<(), AllocError>
        ensures same { self.new ≡ self.old }
        ensures few { IsErr result → self.old.room < n }
    {
        self.entries.reserve(n)
    }

    /// The events one after the other. An error names how many of them came before it, which is fewer
    /// than there are: the machine stands after those.
    pub fn run(&mut self, events: &[Event]) -> Result<(), (usize, AllocError)>
        ensures ok { OnOk result (RunFrom B M self.old.history events.now self.new.history) }
        ensures err { IfErr result (λ e. RunFrom B M self.old.history (take e.0 events.now) self.new.history) }
        ensures below { IfErr result (λ e. e.0 < length events.now) }
        ensures opening { self.new.history.opening ≡ self.old.history.opening }
        ensures reserved { length events.now ≤ self.old.room → IsOk result }
        ensures room { self.old.room ≤ self.new.room + length events.now }
    {
        if let Err(error) = self.reserve_entries(events.len()) {
            return Err((0, error));
        }
        for (done, event) in events.iter().enumerate() {
            match self.step(*event) {
                Ok(_) => {}
                Err(error) => return Err((done, error)),
            }
        }
        Ok(())
    }

    /// Puts the machine back at its opening, in the room that it has. It takes no memory, and its time
    /// depends on the harts and on the highest address that was written since, however long it ran.
    pub fn restart(&mut self)
        ensures { self.new ≡ record self.old { history = at_opening self.old.history.opening } }
    {
        self.machine_state.put_back();
        self.entries.clear();
    }

    /// What the machine holds now, without its history.
    pub fn snapshot(&self) -> Result<Snapshot<B, M>, AllocError>
        ensures { IfOk result (IsTakenAt B M self.now.history) }
    {
        let alloc = *self.opening.words.allocator();
        let snapshot = self.machine_state.save(alloc, self.entries.len() as u128)?;
        Ok(snapshot)
    }

    /// Puts the machine back to where it stood at a snapshot of its own, in the room that it has. It takes no
    /// memory.
    pub fn back_to(&mut self, snapshot: &Snapshot<B, M>)
        requires { IsTakenAt B M (up_to snapshot.now.count self.old.history) snapshot.now }
        ensures { self.new ≡ record self.old { history = up_to snapshot.now.count self.old.history } }
    {
        self.machine_state.restore(snapshot);
        self.entries.truncate(snapshot.entries);
    }

    /// Makes room for `n` steps. Neither outcome changes the history.
    pub fn reserve(&mut self, n: usize) -> Result<(), AllocError>
        ensures history { self.new.history ≡ self.old.history }
        ensures room { OnOk result (n ≤ self.new.room) }
        ensures kept { self.old.room ≤ self.new.room }
        ensures err { OnErr result (self.new ≡ self.old) }
    {
        if self.room < n {
            self.entries.reserve(n)?;
            self.machine_state.reserve(n)?;
            self.room = n;
        }
        Ok(())
    }

    /// The machine without its history, which stands at its end.
    pub fn machine_state(&self) -> &MachineState<B, M>
        ensures stands { RepresentsHistory B M self.now.history result.now }
        ensures harts { length result.now.harts ≡ length self.now.history.opening.harts }
    {
        &self.machine_state
    }

    /// Where the machine began.
    pub fn opening(&self) -> &Opening
        ensures value { result.now ≡ self.now.history.opening }
        ensures fits { FitsIn M self.now.history.opening }
    {
        &self.opening
    }

    /// What was done since the opening, oldest first, one after the other. It is the run of its own entries'
    /// events.
    pub fn entries(&self) -> Entries<'_>
        ensures value { result ≡ self.now.history.entries }
        ensures kept { WellFormed B M self.now.history }
        ensures own { IsOwnRun B M self.now.history }
        ensures harts { All (IsOfHarts self.now.history.opening) self.now.history.entries }
    {
        self.entries.iter()
    }

    /// A copy of the history.
    pub fn trace(&self, alloc: Global) -> Result<Trace, AllocError>
        ensures value { IfOk result (λ t. t ≡ self.now.history) }
        ensures kept { WellFormed B M self.now.history }
        ensures own { IsOwnRun B M self.now.history }
        ensures harts { All (IsOfHarts self.now.history.opening) self.now.history.entries }
    {
        let opening = self.opening.copy(alloc)?;
        let entries = self.entries.iter().collect(alloc)?;
        Ok(Trace { opening, entries })
    }

    /// How many harts there are, 1 to 64.
    pub fn harts(&self) -> u32
        ensures value { result ≡ length self.now.history.opening.harts }
        ensures some { 1 ≤ result }
        ensures most { result ≤ MAX_HARTS }
    {
        self.opening.harts.len() as u32
    }

    /// Whether the hart goes on, has ended, or has stopped and why.
    pub fn status(&self, hart: u32) -> Status
        requires { hart < length self.now.history.opening.harts }
        ensures { IsStatus M self.now.history hart result }
    {
        self.machine_state.status(hart)
    }

    /// The address in bytes of the hart's next instruction.
    pub fn pc(&self, hart: u32) -> u32
        requires { hart < length self.now.history.opening.harts }
        ensures { IsPc M self.now.history hart result }
    {
        self.machine_state.pc(hart)
    }

    /// The word in the hart's register x`number`.
    pub fn register(&self, hart: u32, number: u8) -> u32
        requires hart { hart < length self.now.history.opening.harts }
        requires number { number < 32 }
        ensures { IsRegister M self.now.history hart number result }
    {
        self.machine_state.register(hart, number)
    }

    /// The hart's reports, oldest first.
    pub fn reports(&self, hart: u32) -> &[Report]
        requires { hart < length self.now.history.opening.harts }
        ensures { result.now ≡ reported hart self.now.history.entries }
    {
        self.machine_state.reports(hart)
    }

    /// The hart's pending stores, oldest first.
    pub fn pending(&self, hart: u32) -> &[Write]
        requires { hart < length self.now.history.opening.harts }
        ensures { result.now ≡ pending hart self.now.history.entries }
    {
        self.machine_state.pending(hart)
    }

    /// The word of memory at an address, a multiple of 4 below 4 times `M`.
    pub fn word(&self, addr: u32) -> u32
        requires { IsAddress M addr }
        ensures { result ≡ memory_word self.now.history.opening self.now.history.entries addr }
    {
        self.machine_state.word(addr)
    }
}

/// Makes room for one more entry and for a step of the hart that the event lets act, where none of
/// either is reserved.
fn make_room<const B: usize, const M: usize>(
    entries: &mut PackedEntries,
    machine_state: &mut MachineState<B, M>,
    room: usize,
    event: Event,
) -> Result<(), AllocError>
    requires harts { AllHaveRoom room machine_state.old.harts }
    requires entries { room ≤ entries.old.room }
    ensures items { entries.new.entries ≡ entries.old.entries }
    ensures grown { entries.old.room ≤ entries.new.room }
    ensures same { SameButRoom machine_state.old machine_state.new }
    ensures harts { AllHaveRoom room machine_state.new.harts }
    ensures hart { OnOk result (HasRoom machine_state.new.harts event) }
    ensures space { OnOk result (0 < entries.new.room) }
    ensures reserved { 0 < room → IsOk result }
{
    if room == 0 {
        entries.reserve(1)?;
        machine_state.reserve_for(event)?;
    }
    Ok(())
}

/// Adds the entry of an outcome that has one.
#[inline(always)]
pub(crate) fn add_entry(entries: &mut PackedEntries, outcome: Outcome)
    requires { 0 < entries.old.room }
    ensures items { entries.new.entries ≡ entries_after entries.old.entries outcome }
    ensures room { entries.old.room ≤ entries.new.room + 1 }
{
    if let Outcome::Did(entry) = outcome {
        entries.push(entry);
    }
}
