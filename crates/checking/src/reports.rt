//! The line of one text.

ghost use Rattle.std.specs.Prelude.{◌≡◌, ◌++◌, List, ℕ, IfOk, OnOk};
ghost use Rattle.std.specs.String.{string_bytes};
ghost use Rattle.checking.specs.Reports.{difference_place, difference_text, judged_text, position_text, refusal_text, judgement_line};
ghost use Rattle.checking.specs.inner.{difference_of, judged_by};

use crate::judging::{Difference, Judgement};
use engine_support::fault::{Position, Refusal, Role};
use recorder::push_outcome;
use std::alloc::{AllocError, Global};

fn push_position(out: &mut String, place: Position) -> Result<(), AllocError>
    ensures { OnOk result (string_bytes out.new ≡ string_bytes out.old ++ position_text place) }
{
    match place {
        Position::Nowhere => Ok(()),
        Position::Line(line) => write!(out, " at line {line}"),
        Position::ProgramLine {
            role: Role::Sender,
            line,
        } => write!(out, " at line {line} of the sender"),
        Position::ProgramLine {
            role: Role::Receiver,
            line,
        } => write!(out, " at line {line} of the receiver"),
        Position::Byte(byte) => write!(out, " at byte {byte}"),
        Position::Word { sender, place } => write!(out, " at sender {sender} place {place}"),
        Position::Event(event) => write!(out, " at event {event}"),
    }
}

fn push_refusal(out: &mut String, refusal: Refusal) -> Result<(), AllocError>
    ensures { OnOk result (string_bytes out.new ≡ string_bytes out.old ++ refusal_text refusal) }
{
    write!(out, " refused {}", refusal.number)?;
    push_position(out, refusal.place)
}

/// Where a record differs.
fn push_place(out: &mut String, event: usize, line: usize) -> Result<(), AllocError>
    ensures { OnOk result (string_bytes out.new ≡ string_bytes out.old ++ difference_place event line) }
{
    write!(out, " refused 38 at event {event}")?;
    write!(out, " line {line}: ")
}

fn push_difference(out: &mut String, difference: Difference) -> Result<(), AllocError>
    ensures { OnOk result (string_bytes out.new ≡ string_bytes out.old ++ difference_text (difference_of difference)) }
{
    let Difference {
        event,
        line,
        step,
        found,
    } = difference;
    push_place(out, event, line)?;
    push_outcome(out, step.0, step.1)?;
    out.push_str(", the run has ")?;
    push_outcome(out, step.0, found)
}

fn push_judgement(out: &mut String, judgement: Judgement) -> Result<(), AllocError>
    ensures { OnOk result ((values : List ℕ) → string_bytes out.new ≡ string_bytes out.old ++ judged_text (judged_by judgement values)) }
{
    match judgement {
        Judgement::Finished => out.push_str(" accepted"),
        Judgement::Unfinished => out.push_str(" unfinished"),
        Judgement::Differs(difference) => push_difference(out, difference),
        Judgement::NoRecord(refusal) => push_refusal(out, refusal),
    }
}

/// The line of the text of this number.
pub fn report(alloc: Global, number: u64, judgement: Judgement) -> Result<String, AllocError>
    ensures { IfOk result (λ text. (values : List ℕ) → string_bytes text ≡ judgement_line number (judged_by judgement values)) }
{
    let mut out = String::new(alloc);
    write!(out, "{number}")?;
    push_judgement(&mut out, judgement)?;
    out.push_str("\n")?;
    Ok(out)
}
