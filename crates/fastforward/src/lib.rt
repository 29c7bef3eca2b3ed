//! FastForward: the sender stores a word into a slot that holds 0, the receiver takes it and stores 0
//! there again. Neither looks at the other's index. The crate's contract is its instance of
//! `RingKind`: the laws by which a channel over this ring delivers.
//!
//! Called by `ztso`.

#![tactic(auto)]

ghost use Rattle.rv_decode.specs.Listings.{lines_of};
ghost use Rattle.fastforward.specs.Listing.{listing, fastforward};
ghost use Rattle.poll_close.specs.Listing.{AllMean};

use poll_close::{Finish, RingKind, is_ready_at, receiver};
use step_machine::Machine;

/// The words of the sender's listing.
const SENDER: [u32; 15] = [
    0x00100893, 0x00000073, 0x02058263, 0x00540E33, 0x010E2383, 0xFE039EE3, 0x00AE2823, 0x00428293,
    0xFE9290E3, 0x00000293, 0xFD9FF06F, 0x00100313, 0x00642223, 0x05D00893, 0x00000073,
];

/// The words of the receiver's listing.
const RECEIVER: [u32; 32] = receiver![0x00842383, 0x00740E33, 0x010E2583, 0x02058463, 0x000E2823];

/// The ring as a type that channels take. One slot is enough, and no word that is sent may be 0.
pub struct FastForward;

impl RingKind for FastForward {
    ghost use Rattle.fastforward.specs.FastForward.{fastforward_means};

    ghost ring = { fastforward };

    ghost meaning = { fastforward_means };

    fn sender() -> &'static [u32] {
        &SENDER
    }

    fn receiver() -> &'static [u32] {
        &RECEIVER
    }

    fn least_size() -> u32 {
        1
    }

    #[tactic(auto, using(crate::proofs::FastForwardLaws::fastforward_laws))]
    fn laws() {}
}

impl<const B: usize, const M: usize> Finish<B, M> for FastForward {
    ghost use Rattle.fastforward.specs.FastForward.{fastforward_ranking};

    ghost ranking = { fastforward_ranking };

    fn is_ready(machine: &Machine<B, M>, hart: u32) -> bool {
        is_ready_at(machine, hart, 0x10, 28, 16, None)
    }

    #[tactic(auto, using(crate::proofs::Decreasing::fastforward_decreases))]
    fn ranking_decreases() {}
}

/// Each word of the ring's tables means its line's instruction. It does nothing.
#[tactic(auto, using(crate::proofs::Means::sender_decoded, crate::proofs::Means::receiver_decoded, poll_close::proofs::SenderLines::all_mean))]
pub fn tables_mean()
    ensures sender { AllMean fastforward.sender (lines_of listing.sender) }
    ensures receiver { AllMean fastforward.receiver (lines_of listing.receiver) }
{}
