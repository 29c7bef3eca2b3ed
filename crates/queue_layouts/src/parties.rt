//! The two parties of a queue.

ghost use Rattle.std.specs.Prelude.{◌≡◌, option_map};
ghost use Rattle.queue_parties.specs.Parties.{other, party_among};
ghost use Rattle.queue_layouts.specs.Sides.{the_party};

/// The hart that sends, or the one that receives.
#[derive(Clone, Copy, PartialEq, Eq)]
pub enum Party {
    Sender,
    Receiver,
}

/// The other one.
pub fn other(party: Party) -> Party
    ensures { the_party result ≡ other (the_party party) }
{
    match party {
        Party::Sender => Party::Receiver,
        Party::Receiver => Party::Sender,
    }
}

/// Which party a hart is; `None`, if it is neither.
pub fn party_among(sender: u32, receiver: u32, hart: u32) -> Option<Party>
    ensures { option_map the_party result ≡ party_among sender receiver hart }
{
    if hart == sender {
        Some(Party::Sender)
    } else if hart == receiver {
        Some(Party::Receiver)
    } else {
        None
    }
}
