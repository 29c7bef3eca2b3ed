//! The texts of answers.

ghost use Rattle.std.specs.Prelude.{◌≡◌, ◌++◌, IfOk, OnOk};
ghost use Rattle.std.specs.String.{string_bytes};
ghost use Rattle.recorder.specs.Writing.{canon};
ghost use Rattle.callers.specs.Answers.{calls_line, violation_text, violation_line, head_line, head_words, kept_text, receive_name, send_name};
ghost use Rattle.callers.specs.Answers.{runs_unfinished_line};

use crate::counts::{Counts, are_none};
use crate::judging::Calls;
use crate::queue::{Queue, QueueKind};
use crate::violations::CallerViolation;
use recorder::schedule_text;
use std::alloc::{AllocError, Global};
use step_machine::Event;

/// The name of the function that the sender of such a queue calls.
fn send_name(kind: QueueKind) -> &'static str
    ensures { result.now ≡ send_name kind }
{
    match kind {
        QueueKind::Lamport => "lamport_try_send",
        QueueKind::Cached => "cached_try_send",
        QueueKind::FastForward => "fastforward_try_send",
    }
}

/// The name of the function that its receiver calls.
fn receive_name(kind: QueueKind) -> &'static str
    ensures { result.now ≡ receive_name kind }
{
    match kind {
        QueueKind::Lamport | QueueKind::Cached => "lamport_try_receive",
        QueueKind::FastForward => "fastforward_try_receive",
    }
}

fn push_violation(out: &mut String, violation: CallerViolation) -> Result<(), AllocError>
    ensures { OnOk result (string_bytes out.new ≡ string_bytes out.old ++ violation_text violation) }
{
    match violation {
        CallerViolation::NoBlock => out.push_str(
            "the block isn't aligned to 4 bytes, has no slot, or ends past the memory",
        ),
        CallerViolation::OneParty { hart } => write!(out, "hart {hart} both sends and receives"),
        CallerViolation::NoSend { kind, hart } => {
            write!(out, "hart {hart} has no {} in its code", send_name(kind))
        }
        CallerViolation::NoReceive { kind, hart } => {
            write!(out, "hart {hart} has no {} in its code", receive_name(kind))
        }
        CallerViolation::NoOffset { address, word } => write!(
            out,
            "the index at {address} opens as {word}, not as the offset of a slot"
        ),
        CallerViolation::NoCopy { address, word } => write!(
            out,
            "the copy of the tail at {address} opens as {word}, not as an offset that the tail can have had"
        ),
        CallerViolation::NotFree { address, word } => {
            write!(out, "the slot at {address} opens as {word} and not as 0")
        }
        CallerViolation::NoWord { address } => {
            write!(out, "the slot at {address} opens as 0, where a word waits")
        }
        CallerViolation::Wrote { hart, pc, address } => write!(
            out,
            "hart {hart} wrote to the block at {address} outside of a call, at pc {pc}"
        ),
        CallerViolation::PassedBytes { hart, bytes } => write!(
            out,
            "hart {hart} called with a2 = {bytes}, not the bytes of the slots"
        ),
        CallerViolation::PassedWord { hart } => {
            write!(out, "hart {hart} called with a1 = 0, which is no word")
        }
        CallerViolation::PassedReturn { hart, back } => {
            write!(
                out,
                "hart {hart} called with ra = {back}, no place to return to"
            )
        }
    }
}

fn push_violation_line(out: &mut String, violation: CallerViolation) -> Result<(), AllocError>
    ensures { OnOk result (string_bytes out.new ≡ string_bytes out.old ++ violation_line violation) }
{
    push_violation(out, violation)?;
    out.push_str("\n")
}

/// The text of these events as a schedule, and of what their run owes.
pub(crate) fn owing_text(
    alloc: Global,
    events: &[Event],
    violation: CallerViolation,
) -> Result<String, AllocError>
    ensures { IfOk result (λ text. string_bytes text ≡ canon events.now ++ violation_line violation) }
{
    let mut text = schedule_text(alloc, events)?;
    push_violation_line(&mut text, violation)?;
    Ok(text)
}

/// What stands before the number of runs, where no call returned and where some did.
fn head_words(none: bool) -> &'static str
    ensures { result.now ≡ head_words none }
{
    if none {
        "no call returned in "
    } else {
        "kept "
    }
}

/// Appends the line of how many runs keep what callers owe, or that no call returned in them.
fn push_head(out: &mut String, runs: u32, calls: Calls) -> Result<(), AllocError>
    ensures { OnOk result (string_bytes out.new ≡ string_bytes out.old ++ head_line runs calls) }
{
    writeln!(out, "{}{runs} runs", head_words(are_none(calls)))
}

/// Appends what a party's calls came to.
fn push_calls(
    out: &mut String,
    hart: u32,
    did: &str,
    words: u64,
    found: &str,
    times: u64,
) -> Result<(), AllocError>
    ensures { OnOk result (string_bytes out.new ≡ string_bytes out.old ++ calls_line hart did.now words found.now times) }
{
    writeln!(
        out,
        "hart {hart} {did} {words} words and found the queue {found} {times} times"
    )
}

/// Appends the line of how many runs weren't finished.
fn push_unfinished(out: &mut String, runs: u32) -> Result<(), AllocError>
    ensures { OnOk result (string_bytes out.new ≡ string_bytes out.old ++ runs_unfinished_line runs) }
{
    writeln!(out, "unfinished {runs}")
}

/// The text of this number of runs, all of which keep what callers owe, and what they count to.
pub(crate) fn kept_text(
    alloc: Global,
    queue: Queue,
    runs: u32,
    counts: Counts,
) -> Result<String, AllocError>
    ensures { IfOk result (λ text. string_bytes text ≡ kept_text queue runs counts) }
{
    let calls = counts.calls;
    let mut out = String::new(alloc);
    push_head(&mut out, runs, calls)?;
    push_calls(
        &mut out,
        queue.sender,
        "sent",
        calls.sent,
        "full",
        calls.full,
    )?;
    push_calls(
        &mut out,
        queue.receiver,
        "received",
        calls.received,
        "empty",
        calls.empty,
    )?;
    push_unfinished(&mut out, counts.unfinished)?;
    Ok(out)
}
