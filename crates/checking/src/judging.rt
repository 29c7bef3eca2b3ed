//! The judgement of one text.

ghost use Rattle.std.specs.Prelude.{◌≡◌, ◌↔◌, ◌<◌, ◌≤◌, IsTrue, length, IfErr, IfOk, IfSome, OnOk};
ghost use Rattle.step_machine.specs.History.{OpeningValue};
ghost use Rattle.step_machine.specs.Standing.{ForEachHistory, RepresentsRunFrom};
ghost use Rattle.litmus.specs.declared.verdict.Verdict.TheVariants.{Unfinished};
ghost use Rattle.recorder.specs.Records.{IsRecordOf};
ghost use Rattle.engine_support.specs.Engines.{AcceptedInput, decoded};
ghost use Rattle.engine_support.specs.Faults.{Answers};
ghost use Rattle.engine_support.specs.declared.fault.Fault.TheVariants.{NoMemory};
ghost use Rattle.checking.specs.Judgements.{EndsAs, IsTextJudged, IsRecordJudged, record_of};
ghost use Rattle.checking.specs.inner.{Follows, judged_by};

use crate::event_lines::line_of_event;
use engine_support::fault::{Fault, NOT_TEXT, Position, Refusal, TOO_LARGE};
use engine_support::input::INPUT_BYTES;
use litmus::{Test, Verdict};
use recorder::{are_same_outcomes, read_record};
use std::alloc::{AllocError, Global};
use std::str;
use step_machine::{Event, MachineState, Outcome};

/// The first event of a record whose outcome isn't the run's.
#[derive(Clone, Copy)]
pub struct Difference {
    /// Its place among the events, counted from 0.
    pub event: usize,
    /// The line on which it stands, counted from 1.
    pub line: usize,
    /// The event, and the outcome that the record has.
    pub step: (Event, Outcome),
    /// The run's outcome.
    pub found: Outcome,
}

/// The judgement of a text.
#[derive(Clone, Copy)]
pub enum Judgement {
    /// A record of a run that finished.
    Finished,
    /// A record of a run that did not finish.
    Unfinished,
    /// A record of no run.
    Differs(Difference),
    /// Why the text is no record.
    NoRecord(Refusal),
}

/// The steps of a text within the limit.
#[tactic(auto, unfolding(crate::specs::Judgements::record_of))]
fn steps_of(alloc: Global, text: &str) -> Result<Vec<(Event, Outcome)>, Fault>
    ensures found { IfOk result (λ steps. IsRecordOf text.now steps.items) }
    ensures exact { Answers (λ steps. steps.items) result (record_of text.now) }
{
    Ok(read_record(alloc, text)?)
}

/// The steps of a text, or why it is no record: it is too large, no UTF-8, or has a fault at one of its bytes.
fn read_steps(alloc: Global, text: &[u8]) -> Result<Vec<(Event, Outcome)>, Fault>
    ensures found { IfOk result (λ steps. AcceptedInput IsRecordOf text.now steps.items) }
    ensures exact { Answers (λ steps. steps.items) result (decoded record_of text.now) }
{
    if text.len() > INPUT_BYTES {
        return Err(Fault::refused(TOO_LARGE, Position::Nowhere));
    }
    match str::from_utf8(text) {
        Ok(text) => steps_of(alloc, text),
        Err(_) => Err(Fault::refused(NOT_TEXT, Position::Nowhere)),
    }
}

/// Runs these steps from the machine's opening, whatever it did before, up to the first one whose outcome
/// isn't the run's: its place, and the run's outcome.
fn first_difference<const B: usize, const M: usize>(
    machine: &mut MachineState<B, M>,
    steps: &[(Event, Outcome)],
) -> Result<Option<(usize, Outcome)>, AllocError>
    ensures follows { IfOk result (λ found. (o : OpeningValue) → RepresentsRunFrom B M o machine.old → Follows B M o steps.now found machine.new) }
    ensures within { IfOk result (λ found. IfSome found (λ difference. difference.0 < length steps.now)) }
{
    machine.restart();
    for (place, step) in steps.iter().enumerate() {
        let (event, recorded) = *step;
        let found = machine.step(event)?;
        if !are_same_outcomes(found, recorded) {
            return Ok(Some((place, found)));
        }
    }
    Ok(None)
}

fn is_unfinished(verdict: Verdict) -> bool
    ensures { IsTrue result ↔ (verdict ≡ Unfinished) }
{
    matches!(verdict, Verdict::Unfinished)
}

/// The judgement of a run that stands at its end, whose last values go into `values`.
fn judge_end<const B: usize, const M: usize>(
    test: &Test,
    machine: &MachineState<B, M>,
    values: &mut Vec<u32>,
) -> Result<Judgement, AllocError>
    requires harts { length machine.now.harts ≡ length test.now.opening.harts }
    requires names { length test.now.names ≤ M }
    ensures { IfOk result (λ judgement. ForEachHistory B M machine.now (EndsAs M test.now (judged_by judgement values.new.items))) }
{
    if is_unfinished(test.verdict(machine)) {
        return Ok(Judgement::Unfinished);
    }
    test.values_into(values, machine)?;
    Ok(Judgement::Finished)
}

/// The judgement of a record of these steps.
fn judge_steps<const B: usize, const M: usize>(
    test: &Test,
    machine: &mut MachineState<B, M>,
    text: &[u8],
    steps: &[(Event, Outcome)],
    values: &mut Vec<u32>,
) -> Result<Judgement, AllocError>
    requires stands { RepresentsRunFrom B M test.now.opening machine.old }
    requires names { length test.now.names ≤ M }
    ensures judged { IfOk result (λ judgement. IsRecordJudged B M test.now text.now steps.now (judged_by judgement values.new.items)) }
    ensures stands { OnOk result (RepresentsRunFrom B M test.now.opening machine.new) }
{
    match first_difference(machine, steps)? {
        None => judge_end(test, machine, values),
        Some((event, found)) => Ok(Judgement::Differs(Difference {
            event,
            line: line_of_event(text, event),
            step: steps[event],
            found,
        })),
    }
}

/// The judgement of a text, on a machine of the test's opening, whatever it did before. The last values of a
/// finished run go into `values`, in the place of what it holds.
pub fn judge<const B: usize, const M: usize>(
    alloc: Global,
    test: &Test,
    machine: &mut MachineState<B, M>,
    text: &[u8],
    values: &mut Vec<u32>,
) -> Result<Judgement, Fault>
    requires stands { RepresentsRunFrom B M test.now.opening machine.old }
    requires names { length test.now.names ≤ M }
    ensures judged { IfOk result (λ judgement. IsTextJudged B M test.now text.now (judged_by judgement values.new.items)) }
    ensures stands { OnOk result (RepresentsRunFrom B M test.now.opening machine.new) }
    ensures err { IfErr result (λ fault. fault ≡ NoMemory) }
{
    match read_steps(alloc, text) {
        Ok(steps) => Ok(judge_steps(test, machine, text, &steps, values)?),
        Err(Fault::Refused(refusal)) => Ok(Judgement::NoRecord(refusal)),
        Err(_) => Err(Fault::NoMemory),
    }
}
