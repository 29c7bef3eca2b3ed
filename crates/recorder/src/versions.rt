//! Schedules of both versions.

ghost use Rattle.std.specs.Prelude.{◌≡◌, ◌≤◌, List, length, false, Ok, Err, IfOk};
ghost use Rattle.step_machine.specs.declared.events.Event.{Event};
ghost use Rattle.texts.specs.Results.{GivesUpToMemory, refusal_of};
ghost use Rattle.texts.specs.declared.errors.TextError.TheVariants.{Refused};
ghost use Rattle.recorder.specs.declared.faults.ScheduleFault.TheVariants.{BadHead};
ghost use Rattle.recorder.specs.Schedule.{OfHarts};
ghost use Rattle.recorder.specs.Reading.{head, has_head};
ghost use Rattle.recorder.specs.Records.{events_in, record_head};
ghost use Rattle.recorder.specs.Versions.{ScheduleValue, schedule_value, events_of_schedule, SaysSchedule, schedule_at, events_at, IsScheduleOf};

use crate::faults::ScheduleError;
use crate::heads::{HEAD, has_head};
use crate::reading::{MAX_EVENTS, tokens_within};
use crate::records::record_in;
use std::alloc::{AllocError, Global};
use step_machine::{Event, Outcome};

/// What a schedule says.
#[derive(Drop)]
pub enum Schedule {
    /// Events alone.
    Plain(Vec<Event>),
    /// Each event with its outcome.
    Record(Vec<(Event, Outcome)>),
}

#[tactic(auto, using(crate::proofs::RunRecords::events_more))]
fn events_of(alloc: Global, steps: &[(Event, Outcome)]) -> Result<Vec<Event>, AllocError>
    ensures { IfOk result (λ events. events.items ≡ events_in steps.now) }
{
    let mut events = Vec::new(alloc);
    for step in steps {
        events.push(step.0)?;
    }
    Ok(events)
}

impl Schedule {
    /// The events alone.
    pub fn into_events(self, alloc: Global) -> Result<Vec<Event>, AllocError>
        ensures { IfOk result (λ events. events.items ≡ events_of_schedule (schedule_value self)) }
    {
        match self {
            Schedule::Plain(events) => Ok(events),
            Schedule::Record(steps) => events_of(alloc, &steps),
        }
    }
}

/// What the schedule says that stands in these bytes.
#[tactic(auto, unfolding(crate::specs::Versions::schedule_at))]
fn schedule_in(alloc: Global, text: &[u8]) -> Result<Schedule, ScheduleError>
    ensures exact { GivesUpToMemory refusal_of schedule_value result (schedule_at text.now) }
    ensures headless { has_head head text.now ≡ false → has_head record_head text.now ≡ false → result ≡ Err (Refused (record { fault = BadHead; place = 0 })) }
{
    if has_head(HEAD, text) {
        let events = tokens_within(alloc, text, HEAD.len(), MAX_EVENTS)?;
        return Ok(Schedule::Plain(events));
    }
    let steps = record_in(alloc, text)?;
    Ok(Schedule::Record(steps))
}

/// What a schedule of either version says: `ztso-schedule 1` as its first line, ended by LF, CR LF or
/// the end of the text, and tokens after it, or a record, as [`crate::read_record`] reads it.
///
/// Another first line is `BadHead` at byte 0; then the first faulty token or line is answered as
/// [`crate::read_tokens`] or [`crate::read_record`] answers it, its place counted from the text's first
/// byte.
#[tactic(auto, using(texts::proofs::FormatLaws::found_of, texts::proofs::FormatLaws::found_as, texts::proofs::FormatLaws::only_of, crate::proofs::HeadLaws::value_settles, crate::proofs::HeadLaws::schedule_OfHarts, crate::proofs::HeadLaws::schedule_few))]
pub fn read_either(alloc: Global, text: &str) -> Result<Schedule, ScheduleError>
    ensures found { IfOk result (λ schedule. SaysSchedule text.now (schedule_value schedule)) }
    ensures only { (parsed : ScheduleValue) → SaysSchedule text.now parsed → GivesUpToMemory refusal_of schedule_value result (Ok parsed) }
    ensures exact { GivesUpToMemory refusal_of schedule_value result (schedule_at text.now) }
    ensures headless { has_head head text.now ≡ false → has_head record_head text.now ≡ false → result ≡ Err (Refused (record { fault = BadHead; place = 0 })) }
    ensures harts { IfOk result (λ schedule. OfHarts (events_of_schedule (schedule_value schedule))) }
    ensures few { IfOk result (λ schedule. length (events_of_schedule (schedule_value schedule)) ≤ MAX_EVENTS) }
{
    schedule_in(alloc, text.as_bytes())
}

/// The events of a schedule of either version, which is refused as [`read_either`] refuses it. What a
/// record says of their outcomes is left out.
#[tactic(auto, unfolding(crate::specs::Versions::events_at))]
fn events_read(alloc: Global, text: &str) -> Result<Vec<Event>, ScheduleError>
    ensures exact { GivesUpToMemory refusal_of (λ events. events.items) result (events_at text.now) }
    ensures headless { has_head head text.now ≡ false → has_head record_head text.now ≡ false → result ≡ Err (Refused (record { fault = BadHead; place = 0 })) }
    ensures harts { IfOk result (λ events. OfHarts events.items) }
    ensures few { IfOk result (λ events. length events.items ≤ MAX_EVENTS) }
{
    let schedule = read_either(alloc, text)?;
    let events = schedule.into_events(alloc)?;
    Ok(events)
}

/// The events of a schedule of either version. What a record says of their outcomes is left out.
///
/// A text is refused as [`read_either`] refuses it.
#[tactic(auto, using(texts::proofs::FormatLaws::found_of, texts::proofs::FormatLaws::found_as, texts::proofs::FormatLaws::only_of, crate::proofs::HeadLaws::schedule_settles))]
pub fn read_schedule(alloc: Global, text: &str) -> Result<Vec<Event>, ScheduleError>
    ensures found { IfOk result (λ events. IsScheduleOf text.now events.items) }
    ensures only { (events : List Event) → IsScheduleOf text.now events → GivesUpToMemory refusal_of (λ read. read.items) result (Ok events) }
    ensures exact { GivesUpToMemory refusal_of (λ events. events.items) result (events_at text.now) }
    ensures headless { has_head head text.now ≡ false → has_head record_head text.now ≡ false → result ≡ Err (Refused (record { fault = BadHead; place = 0 })) }
    ensures harts { IfOk result (λ events. OfHarts events.items) }
    ensures few { IfOk result (λ events. length events.items ≤ MAX_EVENTS) }
{
    events_read(alloc, text)
}
