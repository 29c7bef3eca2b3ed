//! The texts of what is found of runs.

ghost use Rattle.std.specs.Prelude.{◌≡◌, ◌++◌, ◌∷◌, ◌≤◌, IfOk, OnOk, length, map};
ghost use Rattle.std.specs.String.{string_bytes};
ghost use Rattle.recorder.specs.Writing.{canon};
ghost use Rattle.ring_trials.specs.Answers.{blocks_text, outside_text, violation_text, violation_line, sender_line, sender_lines, clean_text};

use crate::runs::Total;
use poll_close::Violation;
use recorder::schedule_text;
use std::alloc::{AllocError, Global};
use step_machine::Event;

/// What the blocks of a hart are called.
fn blocks_of(hart: u32) -> &'static str
    ensures { result.now ≡ blocks_text hart }
{
    if hart == 0 { "the blocks" } else { "its block" }
}

/// Appends what a hart did outside its blocks, and where.
fn push_outside(out: &mut String, hart: u32, did: &str, addr: u32) -> Result<(), AllocError>
    ensures { OnOk result (string_bytes out.new ≡ string_bytes out.old ++ outside_text hart did.now addr) }
{
    write!(
        out,
        "hart {hart} {did} outside {} at {addr}",
        blocks_of(hart)
    )
}

fn push_violation(out: &mut String, violation: Violation) -> Result<(), AllocError>
    ensures { OnOk result (string_bytes out.new ≡ string_bytes out.old ++ violation_text violation) }
{
    match violation {
        Violation::Another { sender, word, next } => {
            write!(out, "sender {sender}: took {word} where {next} was next")
        }
        Violation::AfterWhole { sender, word } => {
            write!(out, "sender {sender}: took {word} after its whole list")
        }
        Violation::AfterClosed { sender, word } => {
            write!(out, "sender {sender}: took {word} after it was closed")
        }
        Violation::ClosedEarly { sender, taken, all } => {
            write!(out, "sender {sender}: closed after {taken} of {all} words")
        }
        Violation::ClosedAgain { sender } => {
            write!(out, "sender {sender}: closed after it was closed")
        }
        Violation::TookOfNone { sender, word } => {
            write!(
                out,
                "sender {sender}: took {word} but there is no such sender"
            )
        }
        Violation::ClosedNone { sender } => {
            write!(out, "sender {sender}: closed but there is no such sender")
        }
        Violation::Stopped { hart, why } => write!(out, "hart {hart} stopped {}", why.number()),
        Violation::LoadedOutside { hart, addr } => push_outside(out, hart, "loaded", addr),
        Violation::StoredOutside { hart, addr } => push_outside(out, hart, "stored", addr),
        Violation::ExchangedOutside { hart, addr } => push_outside(out, hart, "exchanged", addr),
    }
}

fn push_violation_line(out: &mut String, violation: Violation) -> Result<(), AllocError>
    ensures { OnOk result (string_bytes out.new ≡ string_bytes out.old ++ violation_line violation) }
{
    push_violation(out, violation)?;
    out.push_str("\n")
}

/// The text of these events as a schedule, and of what their run breaks.
pub fn unclean_text(
    alloc: Global,
    events: &[Event],
    violation: Violation,
) -> Result<String, AllocError>
    ensures { IfOk result (λ text. string_bytes text ≡ canon events.now ++ violation_line violation) }
{
    let mut out = schedule_text(alloc, events)?;
    push_violation_line(&mut out, violation)?;
    Ok(out)
}

fn push_sender_line(
    out: &mut String,
    sender: usize,
    total: Total,
    words: usize,
) -> Result<(), AllocError>
    ensures { OnOk result (string_bytes out.new ≡ string_bytes out.old ++ sender_line sender total words) }
{
    let Total { most, closed } = total;
    writeln!(
        out,
        "sender {sender} took at most {most} of {words} words, closed in {closed} runs"
    )
}

/// The text of this number of runs, all of which are clean.
pub fn clean_text(
    alloc: Global,
    runs: u32,
    totals: &[Total],
    lists: &[Vec<u32>],
) -> Result<String, AllocError>
    requires { length totals.now ≡ length lists.now }
    ensures { IfOk result (λ text. string_bytes text ≡ clean_text runs totals.now (map (λ v. v.items) lists.now)) }
{
    let mut out = String::new(alloc);
    writeln!(out, "clean {runs} runs")?;
    for index in 0..totals.len() {
        push_sender_line(&mut out, index, totals[index], lists[index].len())?;
    }
    Ok(out)
}
