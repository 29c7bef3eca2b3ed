//! The states that one event leads to from a state, by the numbers of their parts.

ghost use Rattle.std.specs.Prelude.{◌≡◌, ◌<◌, length};

use crate::steps::{Act, Facts, Step, Stepper, number_at};
use std::alloc::{AllocError, Global};
use step_machine::MachineState;

/// An event that does something in a state: it gives its hart and memory these parts.
#[derive(Clone, Copy)]
pub(crate) struct Move {
    /// The number of the state.
    pub from: u32,
    pub hart: u32,
    pub step: Step,
    /// Whether each hart has then ended, and all stores have landed.
    pub is_finished: bool,
}

/// The moves of some states, in the order in which a search makes them.
#[derive(Drop)]
pub(crate) struct Moves {
    moves: Vec<Move>,
    /// What is known of each hart's part in the state that is gone on from.
    facts: Vec<Facts>,
    /// What the landing of each hart makes there.
    landings: Vec<Option<Step>>,
}

impl Moves {
    pub fn new(alloc: Global) -> Self {
        Moves {
            moves: Vec::new(alloc),
            facts: Vec::new(alloc),
            landings: Vec::new(alloc),
        }
    }

    pub fn clear(&mut self) {
        self.moves.clear();
    }

    pub fn as_slice(&self) -> &[Move] {
        &self.moves
    }

    /// Adds the moves of the state of this number, whose parts are those of the row: the acts of all harts, then their
    /// landings.
    pub fn add<const B: usize, const M: usize>(
        &mut self,
        machine: &mut MachineState<B, M>,
        stepper: &mut Stepper,
        from: u32,
        row: &[u32],
    ) -> Result<(), AllocError>
        ensures { length machine.new.harts ≡ length machine.old.harts }
    {
        let unfinished = self.look(machine, stepper, row)?;
        self.landings.clear();
        for hart in 0..machine.harts() {
            self.add_act(machine, stepper, from, row, hart, unfinished == 1)?;
        }
        for hart in 0..machine.harts() {
            if let Some(Some(step)) = self.landings.get(hart as usize).copied() {
                self.push(machine, stepper, from, hart, step, unfinished == 1)?;
            }
        }
        Ok(())
    }

    /// Notes what is known of each hart's part, and answers how many harts aren't finished.
    fn look<const B: usize, const M: usize>(
        &mut self,
        machine: &mut MachineState<B, M>,
        stepper: &mut Stepper,
        row: &[u32],
    ) -> Result<u32, AllocError>
        ensures { length machine.new.harts ≡ length machine.old.harts }
    {
        self.facts.clear();
        let mut unfinished = 0u32;
        for hart in 0..machine.harts() {
            let facts = stepper.facts(machine, hart, number_at(row, hart as usize))?;
            if !facts.is_finished() {
                unfinished = unfinished.saturating_add(1);
            }
            self.facts.push(facts)?;
        }
        Ok(unfinished)
    }

    /// Adds the act of a hart, and notes its landing.
    #[inline(always)]
    fn add_act<const B: usize, const M: usize>(
        &mut self,
        machine: &mut MachineState<B, M>,
        stepper: &mut Stepper,
        from: u32,
        row: &[u32],
        hart: u32,
        is_last: bool,
    ) -> Result<(), AllocError>
        requires { hart < length machine.old.harts }
        ensures { length machine.new.harts ≡ length machine.old.harts }
    {
        let Some(facts) = self.facts.get(hart as usize).copied() else {
            return Ok(());
        };
        let memory = number_at(row, machine.harts() as usize);
        let mut act = None;
        let mut landing = None;
        if facts.needs_memory() {
            let steps = stepper.steps(machine, hart, number_at(row, hart as usize), memory)?;
            act = steps.act;
            landing = steps.landing;
        } else if let Act::Part(part) = facts.act {
            act = Some(Step { part, memory });
        }
        self.landings.push(landing)?;
        if let Some(step) = act {
            self.push(machine, stepper, from, hart, step, is_last)?;
        }
        Ok(())
    }

    /// Adds a move. `is_last` says whether all other harts are finished.
    #[inline(always)]
    fn push<const B: usize, const M: usize>(
        &mut self,
        machine: &mut MachineState<B, M>,
        stepper: &mut Stepper,
        from: u32,
        hart: u32,
        step: Step,
        is_last: bool,
    ) -> Result<(), AllocError>
        requires { hart < length machine.old.harts }
        ensures { length machine.new.harts ≡ length machine.old.harts }
    {
        let is_finished = is_last && stepper.facts(machine, hart, step.part)?.is_finished();
        self.moves.push(Move {
            from,
            hart,
            step,
            is_finished,
        })?;
        Ok(())
    }
}
