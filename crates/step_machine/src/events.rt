//! What may happen to a machine, what did, and what a step answers.

ghost use Rattle.std.specs.Prelude.{◌≡◌};

use hart::status::Stop;

/// One atomic step. Harts are numbered from 0.
#[derive(Clone, Copy, Debug, PartialEq, Eq)]
pub enum Event {
    /// This hart executes one instruction.
    Act(u32),
    /// This hart's oldest pending store reaches memory.
    Land(u32),
}

/// What an event did. Addresses are in bytes, widths are 1, 2 or 4 bytes, and a value is the unsigned
/// number of those bytes, the lowest first.
#[derive(Clone, Copy, Debug, PartialEq, Eq)]
pub enum Entry {
    /// An instruction that does nothing of the others.
    Inner {
        hart: u32,
    },
    Load {
        hart: u32,
        addr: u32,
        width: u32,
        value: u32,
    },
    /// A store joined the hart's store buffer.
    Store {
        hart: u32,
        addr: u32,
        width: u32,
        value: u32,
    },
    /// An AMO replaced the word `old` by `new` in one step.
    Amo {
        hart: u32,
        addr: u32,
        old: u32,
        new: u32,
    },
    Fence {
        hart: u32,
        full: bool,
    },
    /// The hart asked for its inbox's next word, and got it or learned that there is none.
    Next {
        hart: u32,
        word: Option<u32>,
    },
    /// The hart reported a word taken from this sender.
    Took {
        hart: u32,
        sender: u32,
        word: u32,
    },
    /// The hart reported that this sender has nothing more.
    Closed {
        hart: u32,
        sender: u32,
    },
    /// The exit call.
    Ended {
        hart: u32,
    },
    Stopped {
        hart: u32,
        why: Stop,
    },
    /// The hart's oldest pending store reached memory.
    Land {
        hart: u32,
    },
}

impl Entry {
    ghost use Rattle.step_machine.specs.Entries.{hart_of, is_land};
    ghost use Rattle.step_machine.specs.Runs.{event_of};
    ghost use Rattle.step_machine.specs.Paths.{read_of};
    ghost use Rattle.step_machine.specs.Access.{is_memory};

    /// The event by which the entry comes about.
    pub fn event(self) -> Event
        ensures { result ≡ event_of self }
    {
        if self.is_land() {
            Event::Land(self.hart())
        } else {
            Event::Act(self.hart())
        }
    }

    /// The hart that acted, or whose store landed.
    pub fn hart(self) -> u32
        ensures { result ≡ hart_of self }
    {
        match self {
            Entry::Inner { hart } => hart,
            Entry::Load { hart, .. } => hart,
            Entry::Store { hart, .. } => hart,
            Entry::Amo { hart, .. } => hart,
            Entry::Fence { hart, .. } => hart,
            Entry::Next { hart, .. } => hart,
            Entry::Took { hart, .. } => hart,
            Entry::Closed { hart, .. } => hart,
            Entry::Ended { hart } => hart,
            Entry::Stopped { hart, .. } => hart,
            Entry::Land { hart } => hart,
        }
    }

    /// The number that was read, by an entry that reads.
    #[inline(always)]
    pub fn read(self) -> Option<u32>
        ensures { result ≡ read_of self }
    {
        match self {
            Entry::Load { value, .. } => Some(value),
            Entry::Amo { old, .. } => Some(old),
            _ => None,
        }
    }

    /// Whether memory or a buffer took part in it, or it is a fence.
    pub fn is_memory(self) -> bool
        ensures { result ≡ is_memory self }
    {
        matches!(
            self,
            Entry::Load { .. }
                | Entry::Store { .. }
                | Entry::Amo { .. }
                | Entry::Fence { .. }
                | Entry::Land { .. }
        )
    }

    /// Whether it is a landing. An AMO, which writes memory too, is none.
    pub fn is_land(self) -> bool
        ensures { result ≡ is_land self }
    {
        matches!(self, Entry::Land { .. })
    }
}

/// What a step answers.
#[derive(Clone, Copy, Debug, PartialEq, Eq)]
pub enum Outcome {
    /// The event happened, and this entry was added.
    Did(Entry),
    /// The hart has to wait: for its store buffer to be empty, or for room in it.
    Waited,
    /// The event is a landing, and the hart has no pending store but still goes on.
    NothingToLand,
    /// The hart has ended or stopped (and, for a landing, has no pending store).
    Over,
    /// There is no hart of this number.
    NoHart,
}
