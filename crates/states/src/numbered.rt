//! Numbers of states, in the order in which they are met first.

ghost use Rattle.std.specs.Prelude.{◌≡◌, ◌+◌, ◌<◌, ◌≤◌, [], length, IfOk, OnOk, OnErr};
ghost use Rattle.step_machine.specs.Positions.{packed, IsSoundMachine};

use indexmap::IndexSet;
use std::alloc::{AllocError, Global};
use std::marker::Model;
use step_machine::MachineState;

/// The numbered states of one opening, over store buffers of `B` stores and `M` words of memory; seen as the
/// list of their positions, each packed as words.
#[derive(Drop)]
pub struct States<const B: usize, const M: usize> {
    positions: IndexSet<Vec<u32>>,
    /// Room for the words of one position.
    draft: Vec<u32>,
}

impl<const B: usize, const M: usize> Model for States<B, M> {
    ghost use Rattle.std.specs.Prelude.{ℕ, List, map};

    ghost Value = { List (List ℕ) };

    ghost view = { λ s. map (λ position. position.items) s.positions.keys };
}

impl<const B: usize, const M: usize> States<B, M> {
    ghost use Rattle.states.specs.States.{IsNumbered};

    /// None is numbered yet.
    pub fn new(alloc: Global) -> Self
        ensures { result ≡ [] }
    {
        States {
            positions: IndexSet::new(alloc),
            draft: Vec::new(alloc),
        }
    }

    /// How many are numbered, which is the number of the next new one.
    pub fn len(&self) -> usize
        ensures { result ≡ length self.now }
    {
        self.positions.len()
    }

    /// The number of the machine's position: its old one, else the next. An error changes nothing.
    pub fn number(&mut self, machine: &MachineState<B, M>) -> Result<usize, AllocError>
        ensures numbered { IfOk result (IsNumbered self.old (packed machine.now) self.new) }
        ensures sound { OnOk result (IsSoundMachine B M machine.now) }
        ensures within { IfOk result (λ number. number < length self.new) }
        ensures kept { length self.old ≤ length self.new }
        ensures next { length self.new ≤ length self.old + 1 }
        ensures err { OnErr result (self.new ≡ self.old) }
    {
        self.draft.clear();
        machine.pack(&mut self.draft)?;
        if let Some(number) = self.positions.get_index_of(self.draft.as_slice()) {
            return Ok(number);
        }
        let number = self.positions.len();
        let position = Vec::from_slice(*self.draft.allocator(), &self.draft)?;
        self.positions.insert(position)?;
        Ok(number)
    }
}
