//! Records: schedules that say what came of each event.

ghost use Rattle.std.specs.Prelude.{◌≡◌, ◌+◌, ◌-◌, ◌≤◌, ◌++◌, List, All, length, false, Ok, Err, IfOk, IfErr, OnOk, OnErr, vec_len, flat_map, if◌then◌else◌};
ghost use Rattle.std.specs.Option.{is_none};
ghost use Rattle.std.specs.Str.Lines.{strip_carriage_return};
ghost use Rattle.std.specs.String.{string_bytes};
ghost use Rattle.step_machine.specs.declared.events.Event.{Event};
ghost use Rattle.texts.specs.Pieces.{is_blank};
ghost use Rattle.texts.specs.Cutting.{after, without_front};
ghost use Rattle.texts.specs.Results.{GivesUpToMemory, refusal_of};
ghost use Rattle.texts.specs.Runs.{repetitions_of};
ghost use Rattle.texts.specs.declared.errors.TextError.TheVariants.{Refused};
ghost use Rattle.recorder.specs.declared.faults.ScheduleFault.TheVariants.{BadHead};
ghost use Rattle.recorder.specs.Schedule.{OfHarts};
ghost use Rattle.recorder.specs.Outcomes.{OutcomeHasWords};
ghost use Rattle.recorder.specs.Reading.{has_head, Pushes};
ghost use Rattle.recorder.specs.Records.{Step, events_in, ends_early, steps_at, records_from, record_head, record_at};
ghost use Rattle.recorder.specs.Records.{IsRecordOf, is_same_step, record_line, record_text, CanBeWritten};

use crate::faults::{ScheduleError, ScheduleFault};
use crate::heads::{RECORD_HEAD, has_head};
use crate::outcomes::{outcome_in, push_outcome_line};
use crate::reading::{MAX_EVENTS, push_run};
use crate::replaying::are_same_outcomes;
use crate::tokens::{may_begin, run_of};
use crate::writing::{are_same as are_same_events, push_token};
use std::alloc::{AllocError, Global};
use step_machine::{Event, Outcome};
use texts::cutting::{cut_at_any, without_front};
use texts::{Separators, first_piece, first_token, without_carriage_return};

/// Whether nothing follows a line's token.
fn is_alone(line: &[u8]) -> bool
    ensures { result ≡ is_none (after is_blank (without_front line.now)) }
{
    cut_at_any(Separators::Blanks, without_front(line))
        .1
        .is_none()
}

/// Whether the text ends right after the token with which its last line begins, or within it.
fn ends_after(line: &[u8], token: &[u8], rest: &[u8], place: usize, end: usize) -> bool
    requires { place + length line.now ≤ end }
    ensures { result ≡ ends_early end place line.now token.now rest.now }
{
    place + line.len() == end && rest.is_empty() && is_alone(line) && may_begin(token)
}

/// Appends the steps of one line, where `room` steps may stand in all.
#[tactic(auto, unfolding(crate::specs::Records::steps_at))]
fn push_line(
    steps: &mut Vec<(Event, Outcome)>,
    line: &[u8],
    size: usize,
    place: usize,
    end: usize,
) -> Result<(), ScheduleError>
    requires within { place + length line.now ≤ end }
    requires few { vec_len steps.old ≤ MAX_EVENTS }
    ensures exact { Pushes steps.old.items steps.new.items result (steps_at end place (MAX_EVENTS - vec_len steps.old) (line.now, size)) }
    ensures few { OnOk result (vec_len steps.new ≤ MAX_EVENTS) }
{
    let Some((token, rest)) = first_token(line) else {
        return Ok(());
    };
    if ends_after(line, token, rest, place, end) {
        return Err(ScheduleFault::Truncated.at(end));
    }
    let (event, times) = run_of(token, place, end, MAX_EVENTS - steps.len())?;
    let Some(outcome) = outcome_in(event, rest) else {
        return Err(ScheduleFault::BadOutcome.at(place));
    };
    push_run(steps, (event, outcome), times)?;
    Ok(())
}

/// The line that stands in a part of a text, which an LF follows or nothing.
fn line_in(part: &[u8], is_ended: bool) -> &[u8]
    ensures line { result.now ≡ (if is_ended then strip_carriage_return part.now else part.now) }
    ensures within { length result.now ≤ length part.now }
{
    if is_ended {
        without_carriage_return(part)
    } else {
        part
    }
}

/// The steps of the lines that a text has from the byte `start` on.
fn lines_within(
    alloc: Global,
    text: &[u8],
    start: usize,
) -> Result<Vec<(Event, Outcome)>, ScheduleError>
    requires { start ≤ length text.now }
    ensures { GivesUpToMemory refusal_of (λ steps. steps.items) result (records_from start text.now) }
{
    let mut steps = Vec::new(alloc);
    let mut place = start;
    let mut rest = Some(&text[start..]);
    while let Some(bytes) = rest {
        let (part, after) = first_piece(Separators::Byte(b'\n'), bytes);
        let line = line_in(part, after.is_some());
        push_line(&mut steps, line, part.len() + 1, place, text.len())?;
        place += part.len() + 1;
        rest = after;
    }
    Ok(steps)
}

/// The steps of the record that stands in these bytes.
#[tactic(auto, unfolding(crate::specs::Records::record_at))]
pub(crate) fn record_in(alloc: Global, text: &[u8]) -> Result<Vec<(Event, Outcome)>, ScheduleError>
    ensures exact { GivesUpToMemory refusal_of (λ steps. steps.items) result (record_at text.now) }
    ensures headless { has_head record_head text.now ≡ false → result ≡ Err (Refused (record { fault = BadHead; place = 0 })) }
{
    if !has_head(RECORD_HEAD, text) {
        return Err(ScheduleFault::BadHead.at(0));
    }
    lines_within(alloc, text, RECORD_HEAD.len())
}

/// The events of a record, each with its outcome: its first line is `ztso-schedule 2`, ended by LF,
/// CR LF or the end of the text, and each line after it is blank, or a token and an outcome's text.
///
/// Another first line is `BadHead` at byte 0, also that of a schedule of events alone. Then the first
/// faulty line is answered: `Truncated`, at the text's length, where the text ends right after a token's
/// letter, its `*` or the token; else, at the line's first byte, `BadToken`, `BadHart` and `BadCount` as
/// [`crate::read_tokens`] answers them, and `BadOutcome` where no outcome's text follows, one of another
/// hart, or one that the event can't have.
#[tactic(auto, using(texts::proofs::FormatLaws::found_of, texts::proofs::FormatLaws::found_as, texts::proofs::FormatLaws::only_of, crate::proofs::HeadLaws::record_settles, crate::proofs::HeadLaws::record_harts, crate::proofs::HeadLaws::record_few))]
pub fn read_record(alloc: Global, text: &str) -> Result<Vec<(Event, Outcome)>, ScheduleError>
    ensures found { IfOk result (λ steps. IsRecordOf text.now steps.items) }
    ensures only { (steps : List Step) → IsRecordOf text.now steps → GivesUpToMemory refusal_of (λ read. read.items) result (Ok steps) }
    ensures exact { GivesUpToMemory refusal_of (λ steps. steps.items) result (record_at text.now) }
    ensures headless { has_head record_head text.now ≡ false → result ≡ Err (Refused (record { fault = BadHead; place = 0 })) }
    ensures harts { IfOk result (λ steps. OfHarts (events_in steps.items)) }
    ensures few { IfOk result (λ steps. length steps.items ≤ MAX_EVENTS) }
{
    record_in(alloc, text.as_bytes())
}

fn are_same(step: (Event, Outcome), other: (Event, Outcome)) -> bool
    ensures { result ≡ is_same_step step other }
{
    are_same_events(step.0, other.0) && are_same_outcomes(step.1, other.1)
}

/// Appends the line of a run: the event with its outcome, `times` times.
fn push_record_line(
    out: &mut String,
    event: Event,
    outcome: Outcome,
    times: usize,
) -> Result<(), AllocError>
    ensures { OnOk result (string_bytes out.new ≡ string_bytes out.old ++ record_line ((event, outcome), times)) }
{
    push_token(out, event, times)?;
    out.push_str(" ")?;
    push_outcome_line(out, event, outcome)
}

/// Each number of an outcome is a word, as its type says. It does nothing.
fn numbers_are_words(outcome: Outcome)
    ensures { OutcomeHasWords outcome }
{}

/// The lines of the steps, and that their numbers are words.
fn lines(alloc: Global, steps: &[(Event, Outcome)]) -> Result<String, AllocError>
    ensures lines { IfOk result (λ text. string_bytes text ≡ flat_map record_line (repetitions_of is_same_step steps.now)) }
    ensures words { IfOk result (λ _. All (λ step. OutcomeHasWords step.1) steps.now) }
{
    let mut text = String::new(alloc);
    let Some(first) = steps.first() else {
        return Ok(text);
    };
    let mut step = *first;
    let mut times = 0;
    for next in steps {
        numbers_are_words(next.1);
        let goes_on = are_same(step, *next);
        if goes_on {
            times += 1;
        } else {
            push_record_line(&mut text, step.0, step.1, times)?;
            step = *next;
            times = 1;
        }
    }
    push_record_line(&mut text, step.0, step.1, times)?;
    Ok(text)
}

/// The record of these steps: the head line, and a line for each of the longest runs of equal events
/// with equal outcomes. Words have one space between them, numbers no leading zeros, and lines end with LF.
///
/// It is read as these steps again where they are at most [`MAX_EVENTS`], of harts below 64, and each
/// event can have its outcome, which speaks of the event's hart and of widths 1, 2 and 4 alone. So are the
/// steps of a text and of a run ([`crate::records_can_be_written`]).
pub fn write_record(alloc: Global, steps: &[(Event, Outcome)]) -> Result<String, AllocError>
    ensures canonical { IfOk result (λ text. string_bytes text ≡ record_text steps.now) }
    ensures again { All CanBeWritten steps.now → length steps.now ≤ MAX_EVENTS → IfOk result (λ text. IsRecordOf (string_bytes text) steps.now) }
{
    let mut text = String::from_str(alloc, RECORD_HEAD)?;
    text.push_str("\n")?;
    let lines = lines(alloc, steps)?;
    text.push_str(&lines)?;
    Ok(text)
}
