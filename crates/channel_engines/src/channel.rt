//! The command `channel`: a schedule and the senders' lists in, what the receiver reports out.

ghost use Rattle.std.specs.Prelude.{◌≡◌, ◌≤◌, ◌++◌, [], IfOk, OnOk, map};
ghost use Rattle.std.specs.List.{flat_map};
ghost use Rattle.std.specs.String.{string_bytes};
ghost use Rattle.engine_support.specs.Engines.{Ends};
ghost use Rattle.engine_support.specs.Faults.{AnswersAs};
ghost use Rattle.poll_close.specs.Layout.{layout_of};
ghost use Rattle.recorder.specs.Versions.{schedule_value};
ghost use Rattle.channel_engines.specs.Channels.{report_line, fault_from, IsChannelAnswer};
ghost use Rattle.engine_support.specs.Inputs.{IsRefused, schedules};
ghost use Rattle.engine_support.specs.inner.{FindsUpToReads, text_and_value};
ghost use Rattle.channel_engines.specs.inner.{Reports};

use crate::lists::read_lists;
use engine_support::fault::{Fault, Position};
use engine_support::output::end_with;
use engine_support::running::{machine_after, state_after};
use engine_support::schedule::read_schedule;
use hart::need::Report;
use poll_close::plans::Finish;
use poll_close::{
    BlockPlace, Refused, RefusedAt, laws_of_channels, opening_at, reports_of, whole_reports_of,
};
use recorder::Schedule;
use std::alloc::{AllocError, Global};
use std::io::{Read, Write};

/// Why there is no channel, as a fault.
pub(crate) fn channel_fault(why: RefusedAt) -> Fault
    ensures { result ≡ fault_from why }
{
    match why {
        RefusedAt::Lists(Refused::NoMemory) => Fault::NoMemory,
        RefusedAt::Lists(Refused::ZeroWord { sender, place }) => {
            Fault::refused(why.number(), Position::Word { sender, place })
        }
        _ => Fault::refused(why.number(), Position::Nowhere),
    }
}

/// Appends a report's text, and a line end.
fn push_report_line(out: &mut String, report: Report) -> Result<(), AllocError>
    ensures { OnOk result (string_bytes out.new ≡ string_bytes out.old ++ report_line report) }
{
    match report {
        Report::Took { sender, word } => writeln!(out, "took {sender} {word}"),
        Report::Closed { sender } => writeln!(out, "closed {sender}"),
    }
}

/// The lines of all reports.
pub(crate) fn reports_text(alloc: Global, reports: &[Report]) -> Result<String, AllocError>
    ensures { IfOk result (λ text. string_bytes text ≡ flat_map report_line reports.now) }
{
    let mut text = String::new(alloc);
    for report in reports {
        push_report_line(&mut text, *report)?;
    }
    Ok(text)
}

/// What the receiver reports when a schedule runs, and then a plan if the channel is to be finished. All memory opens
/// as 0. A record is refused at the first event whose outcome isn't the run's. A history is kept only for a plan, whose
/// end is counted by it.
fn reports_of_schedule<K: Finish<B, M>, const B: usize, const M: usize>(
    alloc: Global,
    place: BlockPlace,
    finish: bool,
    lists: &[Vec<u32>],
    parsed: Schedule,
) -> Result<Vec<Report>, Fault>
    requires some_capacity { 1 ≤ B }
    requires capacity { B ≤ 64 }
    requires some_word { 1 ≤ M }
    requires size { M ≤ 65536 }
    ensures { AnswersAs (Reports K.RingKind.ring B M (layout_of place []) finish (schedule_value parsed) (map (λ v. v.items) lists.now)) (λ r. r.items) result }
{
    laws_of_channels::<K>();
    let opening = match opening_at::<K>(alloc, lists, place, &[], M) {
        Ok(opening) => opening,
        Err(why) => return Err(channel_fault(why)),
    };
    if finish {
        let mut machine = machine_after::<B, M>(alloc, opening, parsed)?;
        Ok(whole_reports_of::<K, B, M>(alloc, &mut machine)?)
    } else {
        let machine = state_after::<B, M>(alloc, &opening, parsed)?;
        Ok(reports_of::<K, B, M>(alloc, &machine)?)
    }
}

/// What is to be written for the inputs that the readers give.
fn made<K: Finish<B, M>, const B: usize, const M: usize, S: Read, L: Read>(
    alloc: Global,
    place: BlockPlace,
    finish: bool,
    schedule: &mut S,
    input: &mut L,
) -> Result<(String, ()), Fault>
    requires some_capacity { 1 ≤ B }
    requires capacity { B ≤ 64 }
    requires some_word { 1 ≤ M }
    requires size { M ≤ 65536 }
    ensures made { FindsUpToReads (IsChannelAnswer K.RingKind.ring B M (layout_of place []) finish
        (S.remaining schedule.old) (L.remaining input.old)) text_and_value result }
    ensures unread { IsRefused schedules (S.remaining schedule.old) → input.new ≡ input.old }
{
    let parsed = read_schedule(alloc, schedule)?;
    let lists = read_lists(alloc, input)?;
    let reports = reports_of_schedule::<K, B, M>(alloc, place, finish, &lists, parsed)?;
    let text = reports_text(alloc, &reports)?;
    Ok((text, ()))
}

/// Reads a schedule of either version and then the senders' lists, each to its end: a line of words in
/// decimal, parted by spaces, for each sender. Runs the schedule's events from the opening of a channel of kind `K` with
/// these lists at a place, with store buffers of `B` pairs and `M` words of memory that open as 0, and writes
/// what the receiver reports, `took I W` or `closed I` on a line each. Whatever the schedule is, these
/// reports are clean.
///
/// If it is to `finish` the channel, a plan runs after the schedule. Then each sender's whole list is
/// reported, and that it is closed.
///
/// The schedule is refused as `run` refuses it, and the lists are not read then.
/// An input of lists is refused as too large ([`engine_support::fault::TOO_LARGE`]), as no text
/// ([`engine_support::fault::NOT_TEXT`]), else at its first line that holds anything but such words
/// ([`engine_support::fault::BAD_LINE`]). Lists are refused by the numbers of [`poll_close::RefusedAt`], but never for a
/// filled block. At last a schedule of version 2 is refused by [`engine_support::fault::DIFFERS`] at the first
/// event whose outcome isn't the run's. Then nothing was written.
pub fn channel_engine<K: Finish<B, M>, const B: usize, const M: usize, S: Read, L: Read, W: Write>(
    alloc: Global,
    place: BlockPlace,
    finish: bool,
    schedule: &mut S,
    input: &mut L,
    writer: &mut W,
) -> Result<(), Fault>
    requires some_capacity { 1 ≤ B }
    requires capacity { B ≤ 64 }
    requires some_word { 1 ≤ M }
    requires size { M ≤ 65536 }
    ensures ends { Ends (IsChannelAnswer K.RingKind.ring B M (layout_of place []) finish
        (S.remaining schedule.old) (L.remaining input.old)) result W.contents writer.old writer.new }
    ensures unread { IsRefused schedules (S.remaining schedule.old) → input.new ≡ input.old }
{
    end_with(
        made::<K, B, M, S, L>(alloc, place, finish, schedule, input),
        writer,
    )
}
