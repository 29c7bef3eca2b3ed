//! Why threads give no record.

ghost use Rattle.std.specs.Prelude.{◌≡◌};
ghost use Rattle.hart_threads.specs.Faults.{fault_of, channel_fault_at};
ghost use Rattle.hart_threads.specs.declared.fault.Fault.TheVariants.{NoMemory};
ghost use Rattle.hart_threads.specs.declared.fault.ChannelFault.TheVariants.{Lists, Threads};
ghost use Rattle.hart_threads.specs.declared.fault.ChannelFaultAt.TheVariants.{Place};
ghost use Rattle.poll_close.specs.declared.faults.Refused.TheVariants.{NoMemory as NoMemoryToOpen};

use crate::record::Gather;
use poll_close::{Refused, RefusedAt};
use std::alloc::AllocError;
use step_machine::Entry;
use thiserror::Error;

/// Why threads give no record. Each has the number by which texts name it.
#[derive(Debug, Drop, Error)]
pub enum Fault {
    #[error("no memory")]
    NoMemory,
    /// The system refused a thread. Those that ran were joined.
    #[error("no thread")]
    NoThread,
    /// As [`Gather::Missing`].
    #[error("the seats of hart {hart} are missing, or there are too many")]
    Missing { hart: u32 },
    /// As [`Gather::Mismatch`].
    #[error("a diary of hart {hart} is not its part of the history")]
    Mismatch { hart: u32, history: Vec<Entry> },
}

impl Fault {
    ghost use Rattle.hart_threads.specs.Faults.{threads_number};

    /// The number by which texts name the fault, 0 where memory ran out.
    pub fn number(&self) -> u8
        ensures { result ≡ threads_number self.now }
    {
        match self {
            Fault::NoMemory => 0,
            Fault::Mismatch { .. } => 32,
            Fault::Missing { .. } => 33,
            Fault::NoThread => 35,
        }
    }
}

impl From<AllocError> for Fault {
    ghost from_gives = { λ _ e. e ≡ NoMemory };

    fn from(_error: AllocError) -> Fault {
        Fault::NoMemory
    }
}

impl From<Gather> for Fault {
    ghost from_gives = { λ g e. e ≡ fault_of g };

    fn from(error: Gather) -> Fault {
        match error {
            Gather::NoMemory => Fault::NoMemory,
            Gather::Missing { hart } => Fault::Missing { hart },
            Gather::Mismatch { hart, history } => Fault::Mismatch { hart, history },
        }
    }
}

/// Why a channel on threads delivers nothing. Each has the number by which texts name it.
#[derive(Debug, Drop, Error)]
pub enum ChannelFault {
    /// There is no such channel, or no memory for it and for what it reports.
    #[error(transparent)]
    Lists(Refused),
    /// Its threads gave no record.
    #[error(transparent)]
    Threads(Fault),
}

impl ChannelFault {
    ghost use Rattle.hart_threads.specs.Faults.{channel_number};

    /// The number by which texts name the fault, 0 where memory ran out.
    pub fn number(&self) -> u8
        ensures { result ≡ channel_number self.now }
    {
        match self {
            ChannelFault::Lists(refused) => refused.number(),
            ChannelFault::Threads(fault) => fault.number(),
        }
    }
}

impl From<AllocError> for ChannelFault {
    ghost from_gives = { λ _ e. e ≡ Lists NoMemoryToOpen };

    fn from(_error: AllocError) -> ChannelFault {
        ChannelFault::Lists(Refused::NoMemory)
    }
}

impl From<Fault> for ChannelFault {
    ghost from_gives = { λ fault e. e ≡ Threads fault };

    fn from(error: Fault) -> ChannelFault {
        ChannelFault::Threads(error)
    }
}

/// Why a channel at a place on threads delivers nothing. Each has the number by which texts name it.
#[derive(Debug, Drop, Error)]
pub enum ChannelFaultAt {
    /// There is no such channel, or no memory for it and for what it reports.
    #[error(transparent)]
    Place(RefusedAt),
    /// Its threads gave no record.
    #[error(transparent)]
    Threads(Fault),
}

impl ChannelFaultAt {
    ghost use Rattle.hart_threads.specs.Faults.{channel_number_at};

    /// The number by which texts name the fault, 0 where memory ran out.
    pub fn number(&self) -> u8
        ensures { result ≡ channel_number_at self.now }
    {
        match self {
            ChannelFaultAt::Place(refused) => refused.number(),
            ChannelFaultAt::Threads(fault) => fault.number(),
        }
    }
}

impl From<RefusedAt> for ChannelFaultAt {
    ghost from_gives = { λ refused e. e ≡ Place refused };

    fn from(error: RefusedAt) -> ChannelFaultAt {
        ChannelFaultAt::Place(error)
    }
}

impl From<ChannelFault> for ChannelFaultAt {
    ghost from_gives = { λ fault e. e ≡ channel_fault_at fault };

    fn from(error: ChannelFault) -> ChannelFaultAt {
        match error {
            ChannelFault::Lists(refused) => ChannelFaultAt::Place(RefusedAt::Lists(refused)),
            ChannelFault::Threads(fault) => ChannelFaultAt::Threads(fault),
        }
    }
}
