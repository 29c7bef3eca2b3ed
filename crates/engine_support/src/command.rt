//! The commands that read a litmus text and then a schedule, and the one engine of all of them.

ghost use Rattle.std.specs.Prelude.{◌≡◌, ◌≤◌, length};
ghost use Rattle.recorder.specs.Schedule.{OfHarts};
ghost use Rattle.recorder.specs.Versions.{events_of_schedule, schedule_value};
ghost use Rattle.recorder.specs.declared.reading.TheConstants.{MAX_EVENTS};
ghost use Rattle.engine_support.specs.Engines.{Ends};
ghost use Rattle.engine_support.specs.Faults.{AnswersAs};
ghost use Rattle.engine_support.specs.Histories.{BySchedule};
ghost use Rattle.engine_support.specs.Inputs.{IsRefused, tests};
ghost use Rattle.engine_support.specs.inner.{FindsUpToReads, text_and_value};
ghost use Rattle.litmus.specs.declared.litmus_test.TheConstants.{MAX_LOCATIONS};

use crate::fault::Fault;
use crate::output::end_with;
use crate::running::read_both;
use litmus::Test;
use recorder::Schedule;
use std::alloc::Global;
use std::io::{Read, Write};

/// A command that reads a litmus text and then a schedule of either version.
pub trait ScheduleCommand<const B: usize, const M: usize> {
    ghost use Rattle.std.specs.Prelude.{ℕ, List, Result};
    ghost use Rattle.litmus.specs.LitmusTests.{LitmusTest};
    ghost use Rattle.recorder.specs.Versions.{ScheduleValue};
    ghost use Rattle.engine_support.specs.declared.fault.Refusal.{Refusal};

    /// What its engine returns beside the output.
    type Value: Copy;

    /// What answers a test and what a schedule says.
    ghost is_answer: { LitmusTest → ScheduleValue → Result (List ℕ × Self.Value) Refusal → Type 0 };

    /// The text to be written for a test and a schedule, and the value.
    fn answer(alloc: Global, test: &Test, parsed: Schedule) -> Result<(String, Self::Value), Fault>
        requires some_capacity { 1 ≤ B }
        requires capacity { B ≤ 64 }
        requires words { MAX_LOCATIONS ≤ M }
        requires size { M ≤ 65536 }
        requires harts { OfHarts (events_of_schedule (schedule_value parsed)) }
        requires few { length (events_of_schedule (schedule_value parsed)) ≤ MAX_EVENTS }
        ensures { AnswersAs (is_answer test.now (schedule_value parsed)) text_and_value result };
}

/// What is to be written for the inputs that the readers give.
fn made<C: ScheduleCommand<B, M>, const B: usize, const M: usize, F: Read, S: Read>(
    alloc: Global,
    file: &mut F,
    schedule: &mut S,
) -> Result<(String, C::Value), Fault>
    requires some_capacity { 1 ≤ B }
    requires capacity { B ≤ 64 }
    requires words { MAX_LOCATIONS ≤ M }
    requires size { M ≤ 65536 }
    ensures made { FindsUpToReads (BySchedule C.is_answer (F.remaining file.old) (S.remaining schedule.old)) text_and_value result }
    ensures unread { IsRefused tests (F.remaining file.old) → schedule.new ≡ schedule.old }
{
    let (test, parsed) = read_both(alloc, file, schedule)?;
    C::answer(alloc, &test, parsed)
}

/// Reads a litmus text and then a schedule of either version, each to its end, writes what the command
/// answers, and returns the value beside it. After a refused litmus text the schedule is not read. Where
/// there is a refusal nothing was written.
pub fn schedule_engine<
    C: ScheduleCommand<B, M>,
    const B: usize,
    const M: usize,
    F: Read,
    S: Read,
    W: Write,
>(alloc: Global, file: &mut F, schedule: &mut S, writer: &mut W) -> Result<C::Value, Fault>
    requires some_capacity { 1 ≤ B }
    requires capacity { B ≤ 64 }
    requires words { MAX_LOCATIONS ≤ M }
    requires size { M ≤ 65536 }
    ensures ends { Ends (BySchedule C.is_answer (F.remaining file.old) (S.remaining schedule.old)) result W.contents writer.old writer.new }
    ensures unread { IsRefused tests (F.remaining file.old) → schedule.new ≡ schedule.old }
{
    end_with(made::<C, B, M, F, S>(alloc, file, schedule), writer)
}
