//! What a certificate says of a hart, by numbers.

ghost use Rattle.std.specs.Prelude.{◌≡◌, ◌+◌, IfOk, length};
ghost use Rattle.queue_certificates.specs.Certificates.{own_of, part_of};

use crate::certificate::{KnownState, ListedState, QueueCertificate};
use known_values::Lack;
use queue_certificates::OwnWord;

/// Where a hart stands: in this state of a certificate.
#[derive(Clone, Copy)]
pub(crate) struct Site<'a> {
    pub certificate: &'a QueueCertificate,
    pub hart: u32,
    pub state: &'a KnownState,
}

/// A count as a number; that there are more is a lack.
pub fn small(count: usize) -> Result<u32, Lack>
    ensures { IfOk result (λ n. n ≡ count) }
{
    u32::try_from(count).map_err(|_| Lack::TooLarge)
}

/// The number of queue `t` with tags among all queues, where there are `count` with indices.
pub(crate) fn place_after(count: u32, t: u32) -> Result<u32, Lack>
    ensures { IfOk result (λ n. n ≡ count + t) }
{
    count.checked_add(t).ok_or(Lack::TooLarge)
}

/// How many queues with indices there are.
pub(crate) fn queue_count(certificate: &QueueCertificate) -> Result<u32, Lack>
    ensures { IfOk result (λ n. n ≡ length certificate.now.queues) }
{
    small(certificate.queues.len())
}

/// The hart's own words; none, if there are fewer harts.
pub(crate) fn own_words(certificate: &QueueCertificate, hart: u32) -> &[OwnWord]
    ensures { result.now ≡ own_of certificate.now hart }
{
    match certificate.harts.get(hart as usize) {
        Some(part) => &part.own,
        None => &[],
    }
}

/// The hart's states; none, if there are fewer harts.
pub fn listed_states(certificate: &QueueCertificate, hart: u32) -> &[ListedState]
    ensures { result.now ≡ (part_of certificate.now hart).states }
{
    match certificate.harts.get(hart as usize) {
        Some(part) => &part.states,
        None => &[],
    }
}
