//! Why there is no channel over some lists.

ghost use Rattle.std.specs.Prelude.{◌≡◌};
ghost use Rattle.poll_close.specs.declared.faults.Refused.TheVariants.{NoMemory};
ghost use Rattle.poll_close.specs.declared.faults.RefusedAt.TheVariants.{Lists};

use std::alloc::{AllocError, AllocFailed};
use thiserror::Error;

/// Why lists are refused, or that memory ran out. Each has the number by which texts name it. The
/// cases are tried in this order: no sender, too many, ring too small, does not fit, zero word.
#[derive(Clone, Copy, Debug, PartialEq, Eq, Error)]
pub enum Refused {
    #[error("no memory")]
    NoMemory,
    /// A word to be sent is 0: the least such sender, and its least such place.
    #[error("zero word at sender {sender} place {place}")]
    ZeroWord { sender: usize, place: usize },
    /// There is no list.
    #[error("no senders")]
    NoSenders,
    /// There are more than 63 lists.
    #[error("too many senders")]
    TooManySenders,
    /// The ring has fewer slots than its kind needs.
    #[error("ring too small")]
    RingTooSmall,
    /// The blocks of all senders are more words than the memory has.
    #[error("does not fit")]
    DoesNotFit,
}

impl Refused {
    ghost use Rattle.poll_close.specs.Refusals.{refusal_number};

    /// The number by which texts name it.
    pub fn number(self) -> u8
        ensures { result ≡ refusal_number self }
    {
        match self {
            Refused::NoMemory => 0,
            Refused::ZeroWord { .. } => 16,
            Refused::NoSenders => 17,
            Refused::TooManySenders => 18,
            Refused::RingTooSmall => 19,
            Refused::DoesNotFit => 20,
        }
    }
}

impl From<AllocError> for Refused {
    ghost from_gives = { λ _ e. e ≡ NoMemory };

    fn from(_error: AllocError) -> Refused {
        Refused::NoMemory
    }
}

impl<T: Drop> From<AllocFailed<T>> for Refused {
    ghost from_gives = { λ _ e. e ≡ NoMemory };

    fn from(_error: AllocFailed<T>) -> Refused {
        Refused::NoMemory
    }
}

/// Why there is no channel over some lists at a place. The cases are tried in this order: no sender, too
/// many, ring too small, uneven base, uneven stride, blocks meet, does not fit, filled block, zero word.
#[derive(Clone, Copy, Debug, PartialEq, Eq, Error)]
pub enum RefusedAt {
    /// As without a place, or that memory ran out.
    #[error(transparent)]
    Lists(Refused),
    /// The first block begins at no multiple of 4.
    #[error("uneven base")]
    UnevenBase,
    /// The stride is no multiple of 4.
    #[error("uneven stride")]
    UnevenStride,
    /// The stride is less than a block's bytes.
    #[error("blocks meet")]
    BlocksMeet,
    /// Memory opens with another word than 0 in a block: the least such word.
    #[error("filled block at word {word}")]
    FilledBlock { word: usize },
}

impl RefusedAt {
    ghost use Rattle.poll_close.specs.Refusals.{refusal_number_at, IsOfLists};

    /// The number by which texts name it.
    pub fn number(self) -> u8
        ensures { result ≡ refusal_number_at self }
    {
        match self {
            RefusedAt::Lists(refused) => refused.number(),
            RefusedAt::UnevenBase => 41,
            RefusedAt::UnevenStride => 42,
            RefusedAt::BlocksMeet => 43,
            RefusedAt::FilledBlock { .. } => 44,
        }
    }

    /// The refusal of the lists, where the place is not why.
    pub fn of_lists(self) -> Refused
        requires lists { IsOfLists self }
        ensures { self ≡ Lists result }
    {
        match self {
            RefusedAt::Lists(refused) => refused,
            _ => unreachable!(),
        }
    }
}

impl From<AllocError> for RefusedAt {
    ghost from_gives = { λ _ e. e ≡ Lists NoMemory };

    fn from(_error: AllocError) -> RefusedAt {
        RefusedAt::Lists(Refused::NoMemory)
    }
}
