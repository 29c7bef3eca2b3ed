//! A machine that keeps no history. What it holds is what some history says, and a contract speaks of each
//! history of which this is so, and of the position at which it stands, whatever led there.

ghost use Rattle.std.specs.Prelude.{◌≡◌, ◌≤◌, ◌<◌, length, min, take, slice_get, slice_index, option_map, IfOk, IfErr, OnOk, OnErr};
ghost use Rattle.memory.specs.Words.{IsAddress};
ghost use Rattle.step_machine.specs.History.{FitsIn, at_opening};
ghost use Rattle.step_machine.specs.Entries.{pending, reported, memory_word};
ghost use Rattle.step_machine.specs.Paths.{IsStatus, IsPc, IsRegister};
ghost use Rattle.step_machine.specs.Standing.{RepresentsHistory, ForEachHistory, MovesBy, RunsBy, BeginsAnew};
ghost use Rattle.step_machine.specs.Positions.{AreOfOneOpening, position_of, opening_position, outcome_at, next_position};
ghost use Rattle.step_machine.specs.inner.Stored.{buffer_of, word_at};
ghost use Rattle.step_machine.specs.declared.opening.TheConstants.{MAX_HARTS};

use crate::events::{Event, Outcome};
use crate::machine_state::MachineState;
use crate::opening::{MAX_HARTS, Opening};
use hart::need::Report;
use hart::status::Status;
use memory::writes::Write;
use std::alloc::{AllocError, Global};

impl<const B: usize, const M: usize> MachineState<B, M> {
    /// A machine at its opening.
    pub fn open(alloc: Global, opening: &Opening) -> Result<Self, AllocError>
        requires capacity { B ≤ 64 }
        requires size { M ≤ 65536 }
        requires fits { FitsIn M opening.now }
        ensures { IfOk result (λ c. RepresentsHistory B M (at_opening opening.now) c) }
    {
        let machine_state = MachineState::opened(alloc, opening)?;
        Ok(machine_state)
    }

    /// One event. An error changes nothing. The answer, and where the machine then stands, depend on where it
    /// stood, whatever led there.
    #[inline(always)]
    pub fn step(&mut self, event: Event) -> Result<Outcome, AllocError>
        ensures ok { IfOk result (λ o. MovesBy B M event o self.old self.new) }
        ensures answers { IfOk result (λ o. o ≡ outcome_at B (position_of self.old) event) }
        ensures position { IfOk result (λ o. position_of self.new ≡ next_position B (position_of self.old) event) }
        ensures opening { AreOfOneOpening self.old self.new }
        ensures err { OnErr result (self.new ≡ self.old) }
        ensures harts { length self.new.harts ≡ length self.old.harts }
    {
        self.reserve_for(event)?;
        Ok(self.happen(event))
    }

    /// The events one after the other. An error names how many of them came before it, which is fewer than
    /// there are.
    pub fn run(&mut self, events: &[Event]) -> Result<(), (usize, AllocError)>
        ensures ok { OnOk result (RunsBy B M events.now self.old self.new) }
        ensures err { IfErr result (λ e. RunsBy B M (take e.0 events.now) self.old self.new) }
        ensures below { IfErr result (λ e. e.0 < length events.now) }
    {
        for (done, event) in events.iter().enumerate() {
            match self.step(*event) {
                Ok(_) => {}
                Err(error) => return Err((done, error)),
            }
        }
        Ok(())
    }

    /// Puts the machine back at its opening. It takes no memory, and its time depends on the harts and on
    /// the highest address that was written since.
    pub fn restart(&mut self)
        ensures history { BeginsAnew B M self.old self.new }
        ensures position { position_of self.new ≡ opening_position self.old }
        ensures opening { AreOfOneOpening self.old self.new }
    {
        self.put_back();
    }

    /// How many harts there are. No opening has more than [`MAX_HARTS`].
    pub fn harts(&self) -> u32
        ensures value { result ≡ min (length self.now.harts) MAX_HARTS }
        ensures within { result ≤ length self.now.harts }
        ensures most { result ≤ MAX_HARTS }
        ensures opening { ForEachHistory B M self.now (λ t. result ≡ length t.opening.harts) }
    {
        self.count().min(MAX_HARTS) as u32
    }

    /// Whether the hart goes on, has ended, or has stopped and why.
    #[tactic(auto, using(crate::proofs::PositionLaws::read_there))]
    pub fn status(&self, hart: u32) -> Status
        requires { hart < length self.now.harts }
        ensures history { ForEachHistory B M self.now (λ t. IsStatus M t hart result) }
        ensures position { option_map (λ s. s.status) (slice_get (position_of self.now).harts hart) ≡ Some result }
    {
        self.hart(hart).status()
    }

    /// The address in bytes of the hart's next instruction.
    #[tactic(auto, using(crate::proofs::PositionLaws::read_there))]
    pub fn pc(&self, hart: u32) -> u32
        requires { hart < length self.now.harts }
        ensures history { ForEachHistory B M self.now (λ t. IsPc M t hart result) }
        ensures position { option_map (λ s. s.pc) (slice_get (position_of self.now).harts hart) ≡ Some result }
    {
        self.hart(hart).pc()
    }

    /// The word in the hart's register x`number`.
    #[tactic(auto, using(crate::proofs::PositionLaws::read_there))]
    pub fn register(&self, hart: u32, number: u8) -> u32
        requires hart { hart < length self.now.harts }
        requires number { number < 32 }
        ensures history { ForEachHistory B M self.now (λ t. IsRegister M t hart number result) }
        ensures position { option_map (λ s. slice_index s.registers number) (slice_get (position_of self.now).harts hart) ≡ Some result }
    {
        self.hart(hart).register(number)
    }

    /// The hart's reports, oldest first.
    pub fn reports(&self, hart: u32) -> &[Report]
        requires { hart < length self.now.harts }
        ensures { ForEachHistory B M self.now (λ t. result.now ≡ reported hart t.entries) }
    {
        self.hart(hart).reports()
    }

    /// The hart's pending stores, oldest first.
    pub fn pending(&self, hart: u32) -> &[Write]
        requires { hart < length self.now.harts }
        ensures history { ForEachHistory B M self.now (λ t. result.now ≡ pending hart t.entries) }
        ensures position { result.now ≡ buffer_of (position_of self.now).stored hart }
    {
        self.buffer(hart)
    }

    /// The word of memory at an address, a multiple of 4 below 4 times `M`.
    pub fn word(&self, addr: u32) -> u32
        requires { IsAddress M addr }
        ensures history { ForEachHistory B M self.now (λ t. result ≡ memory_word t.opening t.entries addr) }
        ensures position { result ≡ word_at (position_of self.now).stored addr }
    {
        self.held_word(addr)
    }
}
