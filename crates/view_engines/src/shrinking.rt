//! The command `shrink`: a litmus text and a schedule in, a schedule with the same outcome out, from which
//! nothing can be left out.

ghost use Rattle.std.specs.Prelude.{◌≡◌, ◌≤◌};
ghost use Rattle.engine_support.specs.Engines.{Ends};
ghost use Rattle.engine_support.specs.Inputs.{IsRefused, tests};
ghost use Rattle.view_engines.specs.Shrink.{IsShrink, IsShrinkAnswer, fault_of_shrink};
ghost use Rattle.litmus.specs.declared.litmus_test.TheConstants.{MAX_LOCATIONS};

use engine_support::command::{ScheduleCommand, schedule_engine};
use engine_support::fault::{Fault, Position};
use engine_support::running::machine_of_schedule;
use litmus::Test;
use recorder::{Schedule, write_schedule};
use shrink::{ShrinkError, shrink_run};
use std::alloc::Global;
use std::io::{Read, Write};

/// Why a run isn't shrunk, as a fault.
fn shrink_fault(error: ShrinkError) -> Fault
    ensures { result ≡ fault_of_shrink error }
{
    match error {
        ShrinkError::NoMemory => Fault::NoMemory,
        ShrinkError::NotFinished => Fault::refused(error.number(), Position::Nowhere),
    }
}

struct Shrink;

impl<const B: usize, const M: usize> ScheduleCommand<B, M> for Shrink {
    type Value = ();

    ghost is_answer = { IsShrink B M };

    fn answer(alloc: Global, test: &Test, parsed: Schedule) -> Result<(String, ()), Fault> {
        let machine = machine_of_schedule::<B, M>(alloc, test, parsed)?;
        match shrink_run(alloc, test, machine) {
            Ok(events) => {
                let text = write_schedule(alloc, &events)?;
                Ok((text, ()))
            }
            Err(error) => Err(shrink_fault(error)),
        }
    }
}

/// Reads a litmus text and then a schedule of either version, each to its end, runs the schedule from the
/// test's opening with store buffers of `B` pairs and `M` words of memory, leaves events out until each
/// one that is left is needed for the run's outcome, and writes the canonical schedule of these.
///
/// The outcome is that the run is finished and leaves the condition's observed locations with their values. Which
/// events are left depends on the order in which they are tried ([`shrink::shrink_run`]).
///
/// Inputs are refused as too large ([`engine_support::fault::TOO_LARGE`]), else as no text
/// ([`engine_support::fault::NOT_TEXT`]), else as [`litmus_reader::read`] says, at the line, or as
/// [`recorder::read_either`] says, at the byte; a record is refused where it differs from its run
/// ([`engine_support::fault::DIFFERS`]), and a run that isn't finished as a whole
/// ([`shrink::ShrinkError::NotFinished`]). Then nothing was written. A schedule after a refused litmus text
/// is not read. A memory of 1,024 words has room for each test's locations.
pub fn shrink_engine<const B: usize, const M: usize, F: Read, S: Read, W: Write>(
    alloc: Global,
    file: &mut F,
    schedule: &mut S,
    writer: &mut W,
) -> Result<(), Fault>
    requires some_capacity { 1 ≤ B }
    requires capacity { B ≤ 64 }
    requires words { MAX_LOCATIONS ≤ M }
    requires size { M ≤ 65536 }
    ensures ends { Ends (IsShrinkAnswer B M (F.remaining file.old) (S.remaining schedule.old)) result W.contents writer.old writer.new }
    ensures unread { IsRefused tests (F.remaining file.old) → schedule.new ≡ schedule.old }
{
    schedule_engine::<Shrink, B, M, F, S, W>(alloc, file, schedule, writer)
}
