//! The counts of a run by party: its own, and what it knows of the other's.

ghost use Rattle.std.specs.Prelude.{◌≡◌};
ghost use Rattle.queue_parties.specs.Parties.{count, known, with_count, with_known};
ghost use Rattle.queue_layouts.specs.Sides.{the_party};

use crate::counts::RunCounts;
use queue_layouts::Party;

/// How many positions a party published or took.
pub(crate) fn count(party: Party, counts: RunCounts) -> u128
    ensures { result ≡ count (the_party party) counts }
{
    match party {
        Party::Sender => counts.published,
        Party::Receiver => counts.taken,
    }
}

/// How many of the other's positions it knows of.
pub(crate) fn known(party: Party, counts: RunCounts) -> u128
    ensures { result ≡ known (the_party party) counts }
{
    match party {
        Party::Sender => counts.known_taken,
        Party::Receiver => counts.known_published,
    }
}

/// The counts with this one as a party's own.
pub(crate) fn with_count(party: Party, n: u128, counts: RunCounts) -> RunCounts
    ensures { result ≡ with_count (the_party party) n counts }
{
    match party {
        Party::Sender => RunCounts {
            published: n,
            ..counts
        },
        Party::Receiver => RunCounts { taken: n, ..counts },
    }
}

/// The counts with this one as what a party knows of the other's.
pub(crate) fn with_known(party: Party, n: u128, counts: RunCounts) -> RunCounts
    ensures { result ≡ with_known (the_party party) n counts }
{
    match party {
        Party::Sender => RunCounts {
            known_taken: n,
            ..counts
        },
        Party::Receiver => RunCounts {
            known_published: n,
            ..counts
        },
    }
}
