//! Inputs that are schedules.

ghost use Rattle.std.specs.Prelude.{◌≡◌, ◌≤◌, IfOk, IsErr, length};
ghost use Rattle.std.specs.Io.KnownBytes.{IsAtEnd};
ghost use Rattle.recorder.specs.Schedule.{OfHarts};
ghost use Rattle.recorder.specs.Versions.{SaysSchedule, events_of_schedule, schedule_value};
ghost use Rattle.recorder.specs.declared.reading.TheConstants.{MAX_EVENTS};
ghost use Rattle.engine_support.specs.Faults.{Answers, fault_for};
ghost use Rattle.engine_support.specs.Inputs.{refused_at_byte, schedule_of as schedule_in_text, schedules, TakesFew, IsRefused, Reads};
ghost use Rattle.engine_support.specs.inner.{FindsUpToReads};

use crate::fault::{Fault, Position};
use crate::input::read_text;
use recorder::{AtByte, Schedule, ScheduleError, read_either};
use std::alloc::Global;
use std::io::Read;
use texts::Numbered;

impl From<ScheduleError> for Fault {
    ghost from_gives = { λ error fault. fault ≡ fault_for refused_at_byte error };

    fn from(error: ScheduleError) -> Fault {
        match error {
            ScheduleError::NoMemory => Fault::NoMemory,
            ScheduleError::Refused(AtByte { fault, place }) => {
                Fault::refused(fault.number(), Position::Byte(place))
            }
        }
    }
}

/// What a text says as a schedule of either version.
#[tactic(auto, unfolding(crate::specs::Inputs::schedule_of))]
fn schedule_of_text(alloc: Global, text: &str) -> Result<Schedule, Fault>
    ensures found { IfOk result (λ schedule. SaysSchedule text.now (schedule_value schedule)) }
    ensures exact { Answers schedule_value result (schedule_in_text text.now) }
    ensures harts { IfOk result (λ schedule. OfHarts (events_of_schedule (schedule_value schedule))) }
    ensures few { IfOk result (λ schedule. length (events_of_schedule (schedule_value schedule)) ≤ MAX_EVENTS) }
{
    Ok(read_either(alloc, text)?)
}

/// The schedule of either version that a reader gives. A record's outcomes are not checked here.
pub fn read_schedule<R: Read>(alloc: Global, reader: &mut R) -> Result<Schedule, Fault>
    ensures schedule { FindsUpToReads (Reads schedules (R.remaining reader.old)) schedule_value result }
    ensures refused { IsRefused schedules (R.remaining reader.old) → IsErr result }
    ensures taken { TakesFew (R.remaining reader.old) (R.remaining reader.new) }
    ensures end { IfOk result (λ schedule. IsAtEnd (R.remaining reader.new)) }
    ensures harts { IfOk result (λ schedule. OfHarts (events_of_schedule (schedule_value schedule))) }
    ensures few { IfOk result (λ schedule. length (events_of_schedule (schedule_value schedule)) ≤ MAX_EVENTS) }
{
    let text = read_text(alloc, reader)?;
    schedule_of_text(alloc, &text)
}
