//! Whether all seats are there. Nothing here takes memory.

ghost use Rattle.std.specs.Prelude.{◌≡◌, ◌≤◌, ◌<◌, MatchOption};
ghost use Rattle.hart_threads.specs.Missing.{is_missing, is_seated, IsFirst, IsComplete};
ghost use Rattle.hart_threads.specs.inner.{lesser, Found};

use crate::seat::Seat;

/// The least number that is one of `harts` harts without exactly one seat of each role, or that is no hart
/// and has a seat.
pub(crate) fn first_missing<const M: usize>(harts: u32, seats: &[Seat<M>]) -> Option<u32>
    ensures { MatchOption result (IsComplete harts seats.now) (IsFirst (is_missing harts seats.now)) }
{
    for hart in 0..harts {
        if !is_seated(hart, seats) {
            return Some(hart);
        }
    }
    least_past(harts, seats)
}

/// Whether the hart has exactly one seat of each role.
fn is_seated<const M: usize>(hart: u32, seats: &[Seat<M>]) -> bool
    ensures { result ≡ is_seated hart seats.now }
{
    let mut acting: usize = 0;
    let mut landing: usize = 0;
    for seat in seats {
        if seat.hart() == hart {
            if seat.acts() {
                acting += 1;
            } else {
                landing += 1;
            }
        }
    }
    acting == 1 && landing == 1
}

/// The least hart of a seat that is none of `harts` harts.
#[tactic(auto, using(crate::proofs::Least::good_more, crate::proofs::Least::bad_more))]
fn least_past<const M: usize>(harts: u32, seats: &[Seat<M>]) -> Option<u32>
    ensures { Found (λ s. s.hart) (λ s. s.hart < harts) (λ s. harts ≤ s.hart) seats.now result }
{
    let mut least = None;
    for seat in seats {
        if seat.hart() >= harts {
            least = Some(lesser(least, seat.hart()));
        }
    }
    least
}

/// The lesser of a number that was found and another.
pub(crate) fn lesser(found: Option<u32>, hart: u32) -> u32
    ensures { result ≡ lesser found hart }
{
    match found {
        Some(least) if hart >= least => least,
        _ => hart,
    }
}
