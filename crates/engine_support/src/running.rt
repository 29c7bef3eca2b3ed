//! A test's runs.

ghost use Rattle.std.specs.Prelude.{◌≡◌, ◌≤◌, ℕ, List, Result, length, IfOk};
ghost use Rattle.step_machine.specs.History.{FitsIn, OpeningValue, History};
ghost use Rattle.step_machine.specs.Standing.{RepresentsHistory};
ghost use Rattle.recorder.specs.Records.{Step};
ghost use Rattle.recorder.specs.Schedule.{OfHarts};
ghost use Rattle.recorder.specs.Versions.{ScheduleValue, events_of_schedule, schedule_value};
ghost use Rattle.recorder.specs.declared.reading.TheConstants.{MAX_EVENTS};
ghost use Rattle.engine_support.specs.Faults.{AnswersAs, AnswersBy};
ghost use Rattle.engine_support.specs.Histories.{BySchedule};
ghost use Rattle.engine_support.specs.Inputs.{IsRefused, tests};
ghost use Rattle.engine_support.specs.Runs.{Records, Runs, fault_of_check};
ghost use Rattle.engine_support.specs.declared.fault.Refusal.{Refusal};
ghost use Rattle.engine_support.specs.inner.{FindsUpToReads, AreRead, test_and_value};
ghost use Rattle.litmus.specs.declared.litmus_test.TheConstants.{MAX_LOCATIONS};

use crate::fault::{DIFFERS, Fault, Position};
use crate::litmus_text::read_test;
use crate::schedule::read_schedule;
use litmus::Test;
use recorder::{CheckError, Schedule, check_record, record, replay, replay_checked, replay_state};
use std::alloc::Global;
use std::io::Read;
use step_machine::{Event, Machine, MachineState, Opening, Outcome};

/// Why a record isn't replayed, as a fault.
impl From<CheckError> for Fault {
    ghost from_gives = { λ error fault. fault ≡ fault_of_check error };

    fn from(error: CheckError) -> Fault {
        match error {
            CheckError::NoMemory => Fault::NoMemory,
            CheckError::Differs { event } => Fault::refused(DIFFERS, Position::Event(event)),
        }
    }
}

/// The machine that a schedule of either version makes of an opening. A record is checked as it runs: it is refused by
/// [`DIFFERS`] at the first event whose outcome isn't the run's.
pub fn machine_after<const B: usize, const M: usize>(
    alloc: Global,
    opening: Opening,
    parsed: Schedule,
) -> Result<Machine<B, M>, Fault>
    requires some_capacity { 1 ≤ B }
    requires capacity { B ≤ 64 }
    requires some_word { 1 ≤ M }
    requires size { M ≤ 65536 }
    requires fits { FitsIn M opening }
    ensures { AnswersAs (Runs B M opening (schedule_value parsed)) (λ machine. machine.history) result }
{
    match parsed {
        Schedule::Plain(events) => Ok(replay(alloc, opening, &events)?),
        Schedule::Record(steps) => Ok(replay_checked(alloc, opening, &steps)?),
    }
}

/// The same machine without its history.
pub fn state_after<const B: usize, const M: usize>(
    alloc: Global,
    opening: &Opening,
    parsed: Schedule,
) -> Result<MachineState<B, M>, Fault>
    requires capacity { B ≤ 64 }
    requires size { M ≤ 65536 }
    requires fits { FitsIn M opening.now }
    ensures { AnswersBy (Runs B M opening.now (schedule_value parsed)) (RepresentsHistory B M) result }
{
    match parsed {
        Schedule::Plain(events) => Ok(replay_state(alloc, opening, &events)?),
        Schedule::Record(steps) => Ok(check_record(alloc, opening, &steps)?),
    }
}

/// The machine that a schedule makes of the test's opening.
pub fn machine_of_schedule<const B: usize, const M: usize>(
    alloc: Global,
    test: &Test,
    schedule: Schedule,
) -> Result<Machine<B, M>, Fault>
    requires some_capacity { 1 ≤ B }
    requires capacity { B ≤ 64 }
    requires words { MAX_LOCATIONS ≤ M }
    requires size { M ≤ 65536 }
    ensures ran { AnswersAs (Runs B M test.now.opening (schedule_value schedule)) (λ machine. machine.history) result }
    ensures harts { IfOk result (λ machine. length machine.history.opening.harts ≡ length test.now.opening.harts) }
    ensures names { IfOk result (λ _. length test.now.names ≤ M) }
{
    let opening = test.opening(alloc)?;
    machine_after(alloc, opening, schedule)
}

/// The same machine without its history.
pub fn state_of_schedule<const B: usize, const M: usize>(
    alloc: Global,
    test: &Test,
    schedule: Schedule,
) -> Result<MachineState<B, M>, Fault>
    requires capacity { B ≤ 64 }
    requires words { MAX_LOCATIONS ≤ M }
    requires size { M ≤ 65536 }
    ensures ran { AnswersBy (Runs B M test.now.opening (schedule_value schedule)) (RepresentsHistory B M) result }
    ensures harts { IfOk result (λ machine. length machine.harts ≡ length test.now.opening.harts) }
    ensures names { IfOk result (λ _. length test.now.names ≤ M) }
{
    let opening = test.opening(alloc)?;
    state_after(alloc, &opening, schedule)
}

/// The record of a test's run by a schedule of either version: its events, each with its outcome. A record
/// is checked, as [`machine_of_schedule`] checks it.
pub fn record_of_schedule<const B: usize, const M: usize>(
    alloc: Global,
    test: &Test,
    schedule: Schedule,
) -> Result<Vec<(Event, Outcome)>, Fault>
    requires capacity { B ≤ 64 }
    requires words { MAX_LOCATIONS ≤ M }
    requires size { M ≤ 65536 }
    ensures { AnswersAs (Records B M test.now.opening (schedule_value schedule)) (λ steps. steps.items) result }
{
    let opening = test.opening(alloc)?;
    match schedule {
        Schedule::Plain(events) => Ok(record::<B, M>(alloc, opening, &events)?),
        Schedule::Record(steps) => {
            check_record::<B, M>(alloc, &opening, &steps)?;
            Ok(steps)
        }
    }
}

/// The test that a litmus text stands for, and what a schedule of either version says. The schedule is read
/// after an accepted test only, and its outcomes are not checked here.
pub fn read_both<F: Read, S: Read>(
    alloc: Global,
    file: &mut F,
    schedule: &mut S,
) -> Result<(Test, Schedule), Fault>
    ensures read { FindsUpToReads (BySchedule AreRead (F.remaining file.old) (S.remaining schedule.old)) test_and_value result }
    ensures unread { IsRefused tests (F.remaining file.old) → schedule.new ≡ schedule.old }
    ensures harts { IfOk result (λ read. OfHarts (events_of_schedule (schedule_value read.1))) }
    ensures few { IfOk result (λ read. length (events_of_schedule (schedule_value read.1)) ≤ MAX_EVENTS) }
{
    let test = read_test(alloc, file)?;
    let parsed = read_schedule(alloc, schedule)?;
    Ok((test, parsed))
}

/// Running a schedule from an opening gives one history, or one event that differs first; noting its
/// outcomes gives one record. It does nothing.
pub fn laws_of_schedules()
    ensures runs { (B M : ℕ) (o : OpeningValue) (parsed : ScheduleValue) (a b : Result History Refusal) → Runs B M o parsed a → Runs B M o parsed b → a ≡ b }
    ensures records { (B M : ℕ) (o : OpeningValue) (parsed : ScheduleValue) (a b : Result (List Step) Refusal)
        → Records B M o parsed a → Records B M o parsed b → a ≡ b }
{}
