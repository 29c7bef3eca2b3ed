//! Whether a hart opens with what a state says of its queues with tags.

ghost use Rattle.std.specs.Prelude.{◌≡◌, ◌+◌, IfOk, length, get_or};
ghost use Rattle.queue_certificates.specs.States.{no_share};
ghost use Rattle.queue_certificates.specs.Steps.{all_below};
ghost use Rattle.queue_certificates.specs.Tags.{party_in};
ghost use Rattle.queue_certificates.specs.Certificates.{tagged_at, tagged_start, opens_told};

use crate::certificate::{QueueCertificate, Share};
use crate::sites::queue_count;
use crate::states::share_after;
use crate::tagged_queues::{tagged_count, tagged_in, tagged_start_in};
use known_values::Lack;
use known_values::forms::form_value;
use known_values::lack::sum;
use queue_layouts::TaggedQueue;
use std::alloc::Global;

/// Whether a queue with tags opens with this share of the hart's, where it is a party.
fn opens_told(
    queue: TaggedQueue,
    hart: u32,
    start: u64,
    share: &Share,
    numbers: &[u64],
) -> Result<bool, Lack>
    ensures { IfOk result (λ opens. opens ≡ opens_told queue (party_in queue hart) start share.now numbers.now) }
{
    let own = form_value(&share.own, numbers)?;
    let upto = sum(own, form_value(&share.owned, numbers)?)?;
    let all_free = sum(start, u64::from(queue.size))?;
    if hart == queue.sender {
        Ok(start == own && upto <= all_free)
    } else if hart == queue.receiver {
        Ok(start == own && upto <= start)
    } else {
        Ok(true)
    }
}

fn opens_told_at(
    alloc: Global,
    certificate: &QueueCertificate,
    hart: u32,
    shares: &[Share],
    numbers: &[u64],
    t: u32,
) -> Result<bool, Lack>
    ensures { IfOk result (λ opens. opens ≡ opens_told (tagged_at certificate.now t) (party_in (tagged_at certificate.now t) hart)
        (tagged_start certificate.now t) (get_or shares.now (length certificate.now.queues + t) no_share) numbers.now) }
{
    let share = share_after(alloc, shares, queue_count(certificate)?, t)?;
    let queue = tagged_in(&certificate.tagged, t);
    let start = tagged_start_in(&certificate.tagged, t);
    opens_told(queue, hart, start, &share, numbers)
}

/// Whether the hart opens with these shares of all queues with tags, where its variables are these numbers.
pub(crate) fn opens_all_told(
    alloc: Global,
    certificate: &QueueCertificate,
    hart: u32,
    shares: &[Share],
    numbers: &[u64],
) -> Result<bool, Lack>
    ensures { IfOk result (λ opens. opens ≡ all_below (length certificate.now.tagged) (λ t. opens_told (tagged_at certificate.now t)
        (party_in (tagged_at certificate.now t) hart) (tagged_start certificate.now t) (get_or shares.now (length certificate.now.queues + t)
        no_share) numbers.now)) }
{
    let mut all = true;
    for t in 0..tagged_count(certificate)? {
        all = opens_told_at(alloc, certificate, hart, shares, numbers, t)? && all;
    }
    Ok(all)
}
