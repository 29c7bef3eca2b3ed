//! The command `channel own`: two programs, a schedule and the senders' lists in, what the receiver reports out.

ghost use Rattle.std.specs.Prelude.{◌≡◌, ◌≤◌, ◌⊎◌, []};
ghost use Rattle.recorder.specs.Versions.{schedule_value};
ghost use Rattle.poll_close.specs.Laws.{FitsHart};
ghost use Rattle.poll_close.specs.Layout.{layout_of};
ghost use Rattle.engine_support.specs.Engines.{Ends};
ghost use Rattle.engine_support.specs.Faults.{AnswersAs};
ghost use Rattle.engine_support.specs.Inputs.{IsRefused, schedules};
ghost use Rattle.engine_support.specs.declared.fault.Role.TheVariants.{Sender, Receiver};
ghost use Rattle.engine_support.specs.inner.{FindsUpToReads, text_and_value};
ghost use Rattle.ring_trials.specs.UserChannel.{layout_from, lists_of, ring_of};
ghost use Rattle.channel_engines.specs.UserChannels.{IsUserAnswer, programs};
ghost use Rattle.channel_engines.specs.inner.{UserReports};

use crate::channel::{channel_fault, reports_text};
use crate::lists::read_lists;
use crate::programs::read_program;
use engine_support::fault::{Fault, Role};
use engine_support::output::end_with;
use engine_support::running::state_after;
use engine_support::schedule::read_schedule;
use hart::need::Report;
use poll_close::BlockPlace;
use recorder::Schedule;
use ring_trials::user_channel::{UserChannel, open_channel};
use std::alloc::Global;
use std::io::{Read, Write};

/// What the receiver reports in the run of a schedule, or why there is no channel or no such run.
fn reports_of_user_channel<const B: usize, const M: usize>(
    alloc: Global,
    channel: &UserChannel,
    parsed: Schedule,
) -> Result<Vec<Report>, Fault>
    requires capacity { B ≤ 64 }
    requires size { M ≤ 65536 }
    requires short { FitsHart (ring_of channel.now) }
    ensures { AnswersAs (UserReports (ring_of channel.now) B M (layout_from channel.now) (schedule_value parsed) (lists_of channel.now)) (λ r. r.items) result }
{
    match open_channel(alloc, channel, M) {
        Ok(opening) => {
            let machine = state_after::<B, M>(alloc, &opening, parsed)?;
            Ok(Vec::from_slice(alloc, machine.reports(0))?)
        }
        Err(why) => Err(channel_fault(why)),
    }
}

/// What is to be written for the inputs that the readers give.
fn made<const B: usize, const M: usize, S: Read, R: Read, C: Read, L: Read>(
    alloc: Global,
    place: BlockPlace,
    sender: &mut S,
    receiver: &mut R,
    schedule: &mut C,
    lists: &mut L,
) -> Result<(String, ()), Fault>
    requires capacity { B ≤ 64 }
    requires size { M ≤ 65536 }
    ensures made { FindsUpToReads (IsUserAnswer B M (layout_of place []) (S.remaining sender.old) (R.remaining receiver.old)
        (C.remaining schedule.old) (L.remaining lists.old)) text_and_value result }
    ensures unread { IsRefused (programs Sender) (S.remaining sender.old) → receiver.new ≡ receiver.old }
    ensures unread_others { IsRefused (programs Sender) (S.remaining sender.old) ⊎ IsRefused (programs Receiver) (R.remaining receiver.old)
        → (schedule.new ≡ schedule.old) × (lists.new ≡ lists.old) }
    ensures unread_lists { IsRefused schedules (C.remaining schedule.old) → lists.new ≡ lists.old }
{
    let sender = read_program(alloc, Role::Sender, sender)?;
    let receiver = read_program(alloc, Role::Receiver, receiver)?;
    let parsed = read_schedule(alloc, schedule)?;
    let lists = read_lists(alloc, lists)?;
    let channel = UserChannel {
        sender,
        receiver,
        lists,
        place,
    };
    let reports = reports_of_user_channel::<B, M>(alloc, &channel, parsed)?;
    let text = reports_text(alloc, &reports)?;
    Ok((text, ()))
}

/// Reads the assembly of the sender and that of the receiver, then a schedule of either version and the senders' lists,
/// each to its end, and runs the schedule's events from the opening of the channel over these programs and lists at a
/// place, with store buffers of `B` pairs and `M` words of memory that open as 0. It writes what the receiver reports,
/// `took I W` or `closed I` on a line each. No theorem is about these programs, so the reports needn't be clean.
///
/// The programs are refused as [`crate::ring::ring_engine`] refuses them. Then the schedule, the lists and a record are
/// refused as [`crate::channel::channel_engine`] refuses them, for a ring of one slot or more. What comes after a refused
/// input is not read, and nothing was written.
pub fn user_channel_engine<
    const B: usize,
    const M: usize,
    S: Read,
    R: Read,
    C: Read,
    L: Read,
    W: Write,
>(
    alloc: Global,
    place: BlockPlace,
    sender: &mut S,
    receiver: &mut R,
    schedule: &mut C,
    lists: &mut L,
    writer: &mut W,
) -> Result<(), Fault>
    requires capacity { B ≤ 64 }
    requires size { M ≤ 65536 }
    ensures ends { Ends (IsUserAnswer B M (layout_of place []) (S.remaining sender.old) (R.remaining receiver.old) (C.remaining schedule.old)
        (L.remaining lists.old)) result W.contents writer.old writer.new }
    ensures unread { IsRefused (programs Sender) (S.remaining sender.old) → receiver.new ≡ receiver.old }
    ensures unread_others { IsRefused (programs Sender) (S.remaining sender.old) ⊎ IsRefused (programs Receiver) (R.remaining receiver.old)
        → (schedule.new ≡ schedule.old) × (lists.new ≡ lists.old) }
    ensures unread_lists { IsRefused schedules (C.remaining schedule.old) → lists.new ≡ lists.old }
{
    end_with(
        made::<B, M, S, R, C, L>(alloc, place, sender, receiver, schedule, lists),
        writer,
    )
}
