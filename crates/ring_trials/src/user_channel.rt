//! A channel over two programs of a user's own.

ghost use Rattle.std.specs.Prelude.{◌≡◌, ◌≤◌, IfOk, IfErr, OnOk, length};
ghost use Rattle.poll_close.specs.Laws.{AcceptedAt};
ghost use Rattle.poll_close.specs.Refusals.{RefusesAt};
ghost use Rattle.ring_trials.specs.UserChannel.{ring_of, lists_of, layout_from, start_of};

use poll_close::{BlockPlace, RefusedAt, opening_of_programs};
use std::alloc::Global;
use step_machine::Opening;

/// Two programs, the senders' lists, and where the channel's blocks lie.
#[derive(Drop)]
pub struct UserChannel {
    pub sender: Vec<u32>,
    pub receiver: Vec<u32>,
    pub lists: Vec<Vec<u32>>,
    pub place: BlockPlace,
}

/// How such a channel opens over a memory of `m` words. Err with the first refusal that applies, or that memory
/// ran out where none does.
pub fn open_channel(alloc: Global, channel: &UserChannel, m: usize) -> Result<Opening, RefusedAt>
    requires memory { m ≤ 65536 }
    ensures accepted { OnOk result (AcceptedAt (ring_of channel.now) m (lists_of channel.now) (layout_from channel.now)) }
    ensures value { IfOk result (λ o. o ≡ start_of channel.now) }
    ensures refused { IfErr result (λ e. RefusesAt (ring_of channel.now) m (lists_of channel.now) (layout_from channel.now) e) }
{
    opening_of_programs(
        alloc,
        &channel.sender,
        &channel.receiver,
        1,
        &channel.lists,
        channel.place,
        &[],
        m,
    )
}

/// How many senders the channel has: one for each list.
pub fn senders(channel: &UserChannel) -> usize
    ensures { result ≡ length (lists_of channel.now) }
{
    let lists: &[Vec<u32>] = &channel.lists;
    lists.len()
}
