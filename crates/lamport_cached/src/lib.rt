//! Lamport's ring whose sender keeps the tail that it read last in a register, and reads it anew only where the ring
//! looks full by it, as MCRingBuffer does with the indices of both sides. The receiver is Lamport's. The crate's
//! contract is its instance of `RingKind`: the laws by which a channel over this ring delivers.
//!
//! Called by `ztso`.

#![tactic(auto)]

ghost use Rattle.rv_decode.specs.Listings.{lines_of};
ghost use Rattle.lamport_cached.specs.Listing.{listing, lamport_cached};
ghost use Rattle.poll_close.specs.Listing.{AllMean};

use poll_close::{Finish, RingKind, is_ready_at, receiver};
use step_machine::Machine;

/// The words of the sender's listing.
const SENDER: [u32; 18] = [
    0x00100893, 0x00000073, 0x02058863, 0x00428313, 0x00931463, 0x00000313, 0x00639663, 0x00842383,
    0xFE638EE3, 0x00540E33, 0x00AE2823, 0x00642023, 0x00030293, 0xFCDFF06F, 0x00100313, 0x00642223,
    0x05D00893, 0x00000073,
];

/// The words of the receiver's listing.
const RECEIVER: [u32; 32] = receiver![0x00042303, 0x00842383, 0x02730663, 0x00740E33, 0x010E2583];

/// The ring as a type that channels take. It needs two slots at least, since one stays free.
pub struct LamportCached;

impl RingKind for LamportCached {
    ghost use Rattle.lamport_cached.specs.LamportCached.{lamport_cached_means};

    ghost ring = { lamport_cached };

    ghost meaning = { lamport_cached_means };

    fn sender() -> &'static [u32] {
        &SENDER
    }

    fn receiver() -> &'static [u32] {
        &RECEIVER
    }

    fn least_size() -> u32 {
        2
    }

    #[tactic(auto, using(crate::proofs::LamportCachedLaws::lamport_cached_laws))]
    fn laws() {}
}

impl<const B: usize, const M: usize> Finish<B, M> for LamportCached {
    ghost use Rattle.lamport_cached.specs.LamportCached.{lamport_cached_ranking};

    ghost ranking = { lamport_cached_ranking };

    fn is_ready(machine: &Machine<B, M>, hart: u32) -> bool {
        is_ready_at(machine, hart, 0x1C, 8, 8, Some(6))
    }

    #[tactic(auto, using(crate::proofs::LamportCachedLaws::lamport_cached_decreases))]
    fn ranking_decreases() {}
}

/// Each word of the ring's tables means its line's instruction. It does nothing.
#[tactic(auto, using(crate::proofs::Means::sender_decoded, lamport_ring::proofs::Means::receiver_decoded, poll_close::proofs::SenderLines::all_mean))]
pub fn tables_mean()
    ensures sender { AllMean lamport_cached.sender (lines_of listing.sender) }
    ensures receiver { AllMean lamport_cached.receiver (lines_of listing.receiver) }
{}
