//! What is gathered, and why nothing is.

ghost use Rattle.std.specs.Prelude.{◌≡◌};
ghost use Rattle.hart_threads.specs.declared.record.Gather.TheVariants.{NoMemory};

use std::alloc::AllocError;
use step_machine::{Entry, Event, Machine, Trace};
use thiserror::Error;

/// A run: its events, what they did one by one, and the machine as it stands after them.
#[derive(Drop)]
pub struct Record<const B: usize, const M: usize> {
    pub events: Vec<Event>,
    pub trace: Trace,
    pub machine: Machine<B, M>,
}

/// Why nothing is gathered. Texts name each by the number of the [`crate::Fault`] that it becomes.
#[derive(Debug, Drop, Error)]
pub enum Gather {
    #[error("no memory")]
    NoMemory,
    /// The least number that is a hart without exactly one seat of each role, or that is no hart and
    /// has a seat.
    #[error("the seats of hart {hart} are missing, or there are too many")]
    Missing { hart: u32 },
    /// The least hart of which a diary doesn't belong to these memory entries.
    #[error("a diary of hart {hart} is not its part of the history")]
    Mismatch { hart: u32, history: Vec<Entry> },
}

impl From<AllocError> for Gather {
    ghost from_gives = { λ _ e. e ≡ NoMemory };

    fn from(_error: AllocError) -> Gather {
        Gather::NoMemory
    }
}
