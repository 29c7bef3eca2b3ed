//! Writing schedules.

ghost use Rattle.std.specs.Prelude.{◌≡◌, ◌≤◌, ◌++◌, length, IfOk, OnOk, OnErr};
ghost use Rattle.std.specs.String.{string_bytes};
ghost use Rattle.recorder.specs.Schedule.{OfHarts};
ghost use Rattle.recorder.specs.Versions.{IsScheduleOf};
ghost use Rattle.recorder.specs.Writing.{is_same, repetition_text, schedule_tokens, canon};

use crate::heads::HEAD;
use crate::reading::MAX_EVENTS;
use std::alloc::{AllocError, Global};
use step_machine::events::Event;
use texts::push_decimal;

pub(crate) fn are_same(event: Event, other: Event) -> bool
    ensures { result ≡ is_same event other }
{
    event == other
}

/// Appends the token of a run: the event, `times` times.
pub(crate) fn push_token(out: &mut String, event: Event, times: usize) -> Result<(), AllocError>
    ensures { OnOk result (string_bytes out.new ≡ string_bytes out.old ++ repetition_text (event, times)) }
{
    let (letter, hart) = match event {
        Event::Act(hart) => ("a", hart),
        Event::Land(hart) => ("l", hart),
    };
    out.push_str(letter)?;
    push_decimal(out, u64::from(hart))?;
    if times > 1 {
        out.push_str("*")?;
        push_decimal(out, times as u64)?;
    }
    Ok(())
}

fn tokens(alloc: Global, events: &[Event]) -> Result<String, AllocError>
    ensures { IfOk result (λ text. string_bytes text ≡ schedule_tokens events.now) }
{
    let mut text = String::new(alloc);
    let Some(first) = events.first() else {
        return Ok(text);
    };
    let mut event = *first;
    let mut times = 0;
    for next in events {
        let goes_on = are_same(event, *next);
        if goes_on {
            times += 1;
        } else {
            push_token(&mut text, event, times)?;
            text.push_str(" ")?;
            event = *next;
            times = 1;
        }
    }
    push_token(&mut text, event, times)?;
    Ok(text)
}

/// Appends the tokens of the events as a schedule has them, without a head and without a line end.
/// Where memory runs out, the text stays as it was.
pub fn push_tokens(out: &mut String, events: &[Event]) -> Result<(), AllocError>
    ensures pushed { OnOk result (string_bytes out.new ≡ string_bytes out.old ++ schedule_tokens events.now) }
    ensures kept { OnErr result (string_bytes out.new ≡ string_bytes out.old) }
{
    // written apart, so that the text grows in one step or not at all
    let tokens = tokens(*out.allocator(), events)?;
    out.push_str(&tokens)
}

/// The schedule of these events, however many they are: the head line, and, if there are events, a line of tokens.
///
/// The tokens are the longest runs of equal events, without leading zeros, with `*` and a count only
/// where an event comes more than once, and with one space between two. Lines end with LF.
pub fn schedule_text(alloc: Global, events: &[Event]) -> Result<String, AllocError>
    ensures { IfOk result (λ text. string_bytes text ≡ canon events.now) }
{
    let mut text = String::from_str(alloc, HEAD)?;
    text.push_str("\n")?;
    if !events.is_empty() {
        push_tokens(&mut text, events)?;
        text.push_str("\n")?;
    }
    Ok(text)
}

/// The schedule of these events as [`schedule_text`] writes it, which is read back as the same events.
pub fn write_schedule(alloc: Global, events: &[Event]) -> Result<String, AllocError>
    requires harts { OfHarts events.now }
    requires few { length events.now ≤ MAX_EVENTS }
    ensures canonical { IfOk result (λ text. string_bytes text ≡ canon events.now) }
    ensures again { IfOk result (λ text. IsScheduleOf (string_bytes text) events.now) }
{
    let text = schedule_text(alloc, events)?;
    Ok(text)
}
