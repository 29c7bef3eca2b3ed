//! Lamport's ring: the sender stores a word into its slot and then the head, the receiver takes it and
//! stores the tail; equal head and tail mean empty, and one slot stays free. The crate's contract is
//! its instance of `RingKind`: the laws by which a channel over this ring delivers.
//!
//! Called by `lamport_cached` and `ztso`.

#![tactic(auto)]

ghost use Rattle.rv_decode.specs.Listings.{lines_of};
ghost use Rattle.lamport_ring.specs.Listing.{listing, lamport};
ghost use Rattle.poll_close.specs.Listing.{AllMean};

use poll_close::{Finish, RingKind, is_ready_at, receiver};
use step_machine::Machine;

/// The words of the sender's listing.
const SENDER: [u32; 17] = [
    0x00100893, 0x00000073, 0x02058663, 0x00428313, 0x00931463, 0x00000313, 0x00842383, 0xFE638EE3,
    0x00540E33, 0x00AE2823, 0x00642023, 0x00030293, 0xFD1FF06F, 0x00100313, 0x00642223, 0x05D00893,
    0x00000073,
];

/// The words of the receiver's listing.
const RECEIVER: [u32; 32] = receiver![0x00042303, 0x00842383, 0x02730663, 0x00740E33, 0x010E2583];

/// The ring as a type that channels take. It needs two slots at least, since one stays free.
pub struct Lamport;

impl RingKind for Lamport {
    ghost use Rattle.lamport_ring.specs.Lamport.{lamport_means};

    ghost ring = { lamport };

    ghost meaning = { lamport_means };

    fn sender() -> &'static [u32] {
        &SENDER
    }

    fn receiver() -> &'static [u32] {
        &RECEIVER
    }

    fn least_size() -> u32 {
        2
    }

    #[tactic(auto, using(crate::proofs::LamportLaws::lamport_laws))]
    fn laws() {}
}

impl<const B: usize, const M: usize> Finish<B, M> for Lamport {
    ghost use Rattle.lamport_ring.specs.Lamport.{lamport_ranking};

    ghost ranking = { lamport_ranking };

    fn is_ready(machine: &Machine<B, M>, hart: u32) -> bool {
        is_ready_at(machine, hart, 0x18, 8, 8, Some(6))
    }

    #[tactic(auto, using(crate::proofs::LamportLaws::lamport_decreases))]
    fn ranking_decreases() {}
}

/// Each word of the ring's tables means its line's instruction. It does nothing.
#[tactic(auto, using(crate::proofs::Means::sender_decoded, crate::proofs::Means::receiver_decoded, poll_close::proofs::SenderLines::all_mean))]
pub fn tables_mean()
    ensures sender { AllMean lamport.sender (lines_of listing.sender) }
    ensures receiver { AllMean lamport.receiver (lines_of listing.receiver) }
{}
