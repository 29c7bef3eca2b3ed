//! One run, judged as its entries come.

ghost use Rattle.std.specs.Prelude.{◌≡◌, ◌≤◌, ◌<◌, ◌^◌, [], List, IfOk, OnOk, length};
ghost use Rattle.step_machine.specs.declared.events.Entry.{Entry};
ghost use Rattle.step_machine.specs.Standing.{RepresentsRunFrom};
ghost use Rattle.poll_close.specs.Layout.{base_of};
ghost use Rattle.poll_close.specs.Violations.{AreNotes};
ghost use Rattle.ring_trials.specs.UserChannel.{lists_of, layout_from, start_of};
ghost use Rattle.ring_trials.specs.Trials.{AreNoted, entries_with, IsChannelJudged};

use crate::user_channel::UserChannel;
use poll_close::{Share, Violation, note_entry};
use std::alloc::AllocError;
use step_machine::{Event, MachineState, Outcome};

/// Notes that there was no report yet.
fn begin(shares: &mut [Share])
    ensures notes { AreNotes [] shares.new }
    ensures count { length shares.new ≡ length shares.old }
{
    for share in shares.iter_mut() {
        *share = Share {
            taken: 0,
            closed: false,
        };
    }
}

/// Takes in what an event did, where there was no violation before it; gives the first violation after it.
fn note_outcome(
    channel: &UserChannel,
    shares: &mut [Share],
    found: Option<Violation>,
    outcome: Outcome,
) -> Option<Violation>
    requires ends { base_of (layout_from channel.now) (length (lists_of channel.now)) < 2 ^ 32 }
    requires count { length shares.old ≡ length (lists_of channel.now) }
    ensures noted { (es : List Entry) → AreNoted channel.now es found shares.old → AreNoted channel.now (entries_with es outcome) result shares.new }
    ensures count { length shares.new ≡ length shares.old }
{
    match outcome {
        Outcome::Did(entry) => match found {
            None => note_entry(shares, &channel.lists, channel.place, entry),
            Some(first) => Some(first),
        },
        Outcome::Waited => found,
        Outcome::NothingToLand => found,
        Outcome::Over => found,
        Outcome::NoHart => found,
    }
}

/// The first violation in the run of these events, if there is one, on a machine of the channel's opening, whatever
/// it did before. Where there is none, `shares` has what is noted of each sender.
#[tactic(auto, using(crate::proofs::JudgingLaws::judged_at))]
pub fn judge<const B: usize, const M: usize>(
    channel: &UserChannel,
    machine: &mut MachineState<B, M>,
    shares: &mut [Share],
    events: &[Event],
) -> Result<Option<Violation>, AllocError>
    requires stands { RepresentsRunFrom B M (start_of channel.now) machine.old }
    requires ends { base_of (layout_from channel.now) (length (lists_of channel.now)) < 2 ^ 32 }
    requires count { length shares.old ≡ length (lists_of channel.now) }
    ensures judged { IfOk result (λ found. IsChannelJudged B M channel.now events.now found shares.new) }
    ensures stands { OnOk result (RepresentsRunFrom B M (start_of channel.now) machine.new) }
    ensures count { length shares.new ≡ length (lists_of channel.now) }
{
    machine.restart();
    begin(shares);
    let mut found = None;
    for event in events {
        let outcome = machine.step(*event)?;
        found = note_outcome(channel, shares, found, outcome);
    }
    Ok(found)
}
