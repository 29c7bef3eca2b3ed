//! The command `move`: a litmus text and a schedule in, the schedule's text of version 2 out.

ghost use Rattle.std.specs.Prelude.{◌≡◌, ◌≤◌};
ghost use Rattle.engine_support.specs.Engines.{Ends};
ghost use Rattle.engine_support.specs.Inputs.{IsRefused, tests};
ghost use Rattle.run_engines.specs.Run.{IsMoved, IsMoveAnswer};
ghost use Rattle.litmus.specs.declared.litmus_test.TheConstants.{MAX_LOCATIONS};

use engine_support::command::{ScheduleCommand, schedule_engine};
use engine_support::fault::Fault;
use engine_support::running::record_of_schedule;
use litmus::Test;
use recorder::{Schedule, records_can_be_written, write_record};
use std::alloc::Global;
use std::io::{Read, Write};

struct Move;

impl<const B: usize, const M: usize> ScheduleCommand<B, M> for Move {
    type Value = ();

    ghost is_answer = { IsMoved B M };

    fn answer(alloc: Global, test: &Test, parsed: Schedule) -> Result<(String, ()), Fault> {
        records_can_be_written();
        let steps = record_of_schedule::<B, M>(alloc, test, parsed)?;
        let text = write_record(alloc, &steps)?;
        Ok((text, ()))
    }
}

/// Reads a litmus text and then a schedule of either version, each to its end, runs the schedule from the
/// test's opening with store buffers of `B` pairs and `M` words of memory, and writes its text of version 2:
/// its events, each with its outcome in the run. As a schedule this text is read as these again.
///
/// Inputs are refused as [`crate::run::run_engine`] refuses them, a schedule of version 2 also where an
/// outcome isn't the run's; then nothing was written. After a refused litmus text the schedule is not read.
pub fn move_engine<const B: usize, const M: usize, F: Read, S: Read, W: Write>(
    alloc: Global,
    file: &mut F,
    schedule: &mut S,
    writer: &mut W,
) -> Result<(), Fault>
    requires some_capacity { 1 ≤ B }
    requires capacity { B ≤ 64 }
    requires words { MAX_LOCATIONS ≤ M }
    requires size { M ≤ 65536 }
    ensures ends { Ends (IsMoveAnswer B M (F.remaining file.old) (S.remaining schedule.old)) result W.contents writer.old writer.new }
    ensures unread { IsRefused tests (F.remaining file.old) → schedule.new ≡ schedule.old }
{
    schedule_engine::<Move, B, M, F, S, W>(alloc, file, schedule, writer)
}
