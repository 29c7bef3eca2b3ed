//! Seats on their way through threads.

ghost use Rattle.std.specs.Prelude.{◌≡◌, ◌≤◌, [], map, IfOk, vec_len, vec_capacity};

use crate::gather::spend;
use crate::seat::Seat;
use crate::turns::Returned;
use std::alloc::{AllocError, Global};

/// A seat that can be let go, as all must that a thread holds or returns: letting it go gives it up.
pub(crate) struct Held<const M: usize> {
    pub(crate) seat: Seat<M>,
}

impl<const M: usize> Held<M> {
    fn release(self) -> Seat<M>
        ensures { result ≡ self.entry.seat }
    {
        let Held { seat } = self;
        seat
    }
}

impl<const M: usize> Drop for Held<M> {
    fn drop(self) {
        let Held { seat } = self;
        seat.give_up();
    }
}

/// The seats, so that threads may hold them. Without memory all are given up.
pub(crate) fn hold<const M: usize>(
    alloc: Global,
    seats: Vec<Seat<M>>,
) -> Result<Vec<Held<M>>, AllocError>
    ensures { IfOk result (λ r. map (λ h. h.seat) r.items ≡ seats.entry.items) }
{
    let Ok(mut held) = Vec::with_capacity(alloc, seats.len()) else {
        spend(seats);
        return Err(AllocError);
    };
    let mut seats = seats.into_iter();
    while let Some(seat) = seats.next() {
        held.push_reserved(Held { seat });
    }
    seats.destroy_empty();
    Ok(held)
}

/// The seats that came back, in a vector that has the room.
pub(crate) fn release_all<const M: usize>(
    back: Vec<Returned<M>>,
    mut seats: Vec<Seat<M>>,
) -> Vec<Seat<M>>
    requires room { vec_len back ≤ vec_capacity seats }
    requires empty { seats.items ≡ [] }
    ensures { result.items ≡ map (λ r. r.0.seat) back.entry.items }
{
    for (held, _, _) in back {
        seats.push_reserved(held.release());
    }
    seats
}
