//! Writing what is known in a state.

ghost use Rattle.std.specs.Prelude.{◌≡◌, ◌++◌, ◌∷◌, [], codes, map, if◌then◌else◌, OnOk};
ghost use Rattle.std.specs.String.{string_bytes};
ghost use Rattle.std.specs.Fmt.{decimal};
ghost use Rattle.certificate_reader.specs.Writing.{lines_text, line_if, range_text, form_text, bits_text, value_text, value_line, value_lines, share_line};
ghost use Rattle.certificate_reader.specs.Writing.{share_lines, known_lines, slot_line, slot_lines, filled_lines, described_lines};

use crate::form_texts::{push_form, push_numbers, push_ranges};
use known_values::{Form, Known, KnownValue};
use queue_checker::{Filled, FilledSlot, KnownState, ListedState, Share};
use std::alloc::AllocError;
use texts::push_decimal;

/// Appends how a line of a place begins.
fn push_place(out: &mut String, front: &str, name: &str, place: usize) -> Result<(), AllocError>
    ensures { OnOk result (string_bytes out.new ≡ string_bytes out.old ++ (front.now ++ name.now ++ 32 ∷ decimal place ++ 32 ∷ [])) }
{
    out.push_str(front)?;
    out.push_str(name)?;
    out.push_str(" ")?;
    push_decimal(out, place as u64)?;
    out.push_str(" ")
}

/// Appends a number and a form after a mark, one character.
fn push_marked(out: &mut String, mark: &str, number: u32, form: &Form) -> Result<(), AllocError>
    ensures { OnOk result (string_bytes out.new ≡ string_bytes out.old ++ mark.now ++ decimal number ++ 58 ∷ form_text form.now) }
{
    out.push_str(mark)?;
    push_decimal(out, u64::from(number))?;
    out.push_str(":")?;
    push_form(out, form)
}

/// Appends a mask and the bits under it.
fn push_bits(out: &mut String, mask: u32, bits: u32) -> Result<(), AllocError>
    ensures { OnOk result (string_bytes out.new ≡ string_bytes out.old ++ bits_text mask bits) }
{
    out.push_str("&")?;
    push_decimal(out, u64::from(mask))?;
    out.push_str(":")?;
    push_decimal(out, u64::from(bits))
}

/// Appends the line of a value at a place, if anything is known of it.
fn push_value(
    out: &mut String,
    front: &str,
    name: &str,
    place: usize,
    value: &KnownValue,
) -> Result<(), AllocError>
    ensures { OnOk result (string_bytes out.new ≡ string_bytes out.old ++ lines_text front.now (value_line name.now place (value_text value.now))) }
{
    match &value.known {
        Known::Any => Ok(()),
        Known::Linear(form) => {
            push_place(out, front, name, place)?;
            push_form(out, form)?;
            out.push_str("\n")
        }
        Known::IndexFor(queue, form) => {
            push_place(out, front, name, place)?;
            push_marked(out, "@", *queue, form)?;
            out.push_str("\n")
        }
        Known::SignedFor(queue, form) => {
            push_place(out, front, name, place)?;
            push_marked(out, "~", *queue, form)?;
            out.push_str("\n")
        }
        Known::EndsAs(bits, form) => {
            push_place(out, front, name, place)?;
            push_marked(out, "^", *bits, form)?;
            out.push_str("\n")
        }
        Known::HasBits(mask, bits) => {
            push_place(out, front, name, place)?;
            push_bits(out, *mask, *bits)?;
            out.push_str("\n")
        }
    }
}

/// Appends the lines of values, whose places count from 0.
fn push_values(
    out: &mut String,
    front: &str,
    name: &str,
    values: &[KnownValue],
) -> Result<(), AllocError>
    ensures { OnOk result (string_bytes out.new ≡ string_bytes out.old ++ lines_text front.now (value_lines name.now 0 values.now)) }
{
    let mut place = 0;
    let mut rest = values;
    'values: while let [value, others @ ..] = rest {
        push_value(out, front, name, place, value)?;
        place += 1;
        rest = others;
    }
    Ok(())
}

/// Appends the line of the hart's share of a queue.
fn push_share(out: &mut String, front: &str, place: usize, share: &Share) -> Result<(), AllocError>
    ensures { OnOk result (string_bytes out.new ≡ string_bytes out.old ++ lines_text front.now (share_line place share.now ∷ [])) }
{
    push_place(out, front, "share", place)?;
    push_form(out, &share.own)?;
    out.push_str(" ")?;
    push_form(out, &share.owned)?;
    out.push_str("\n")
}

/// Appends the lines of the hart's shares.
fn push_shares(out: &mut String, front: &str, shares: &[Share]) -> Result<(), AllocError>
    ensures { OnOk result (string_bytes out.new ≡ string_bytes out.old ++ lines_text front.now (share_lines 0 shares.now)) }
{
    let mut place = 0;
    let mut rest = shares;
    'shares: while let [share, others @ ..] = rest {
        push_share(out, front, place, share)?;
        place += 1;
        rest = others;
    }
    Ok(())
}

/// Appends the line of the variables' ranges, if there are variables.
fn push_most(out: &mut String, front: &str, ranges: &[Option<u64>]) -> Result<(), AllocError>
    ensures { OnOk result (string_bytes out.new ≡ string_bytes out.old ++ lines_text front.now (line_if (codes "most") (map range_text ranges.now))) }
{
    match ranges {
        [] => Ok(()),
        [_, ..] => {
            out.push_str(front)?;
            out.push_str("most")?;
            push_ranges(out, ranges)?;
            out.push_str("\n")
        }
    }
}

/// Appends the lines of what is known in a state, each after `front`.
fn push_known(out: &mut String, front: &str, state: &KnownState) -> Result<(), AllocError>
    ensures { OnOk result (string_bytes out.new ≡ string_bytes out.old ++ lines_text front.now (known_lines state.now)) }
{
    push_most(out, front, &state.ranges)?;
    push_values(out, front, "reg", &state.registers)?;
    push_values(out, front, "word", &state.words)?;
    push_shares(out, front, &state.shares)
}

/// Appends the line of the fields that are right in a slot, if one is.
fn push_slot(
    out: &mut String,
    front: &str,
    queue: usize,
    position: usize,
    fields: &[u64],
) -> Result<(), AllocError>
    ensures { OnOk result (string_bytes out.new ≡ string_bytes out.old ++ lines_text front.now (slot_line queue position fields.now)) }
{
    match fields {
        [] => Ok(()),
        [_, ..] => {
            push_place(out, front, "filled", queue)?;
            push_decimal(out, position as u64)?;
            push_numbers(out, fields)?;
            out.push_str("\n")
        }
    }
}

/// Appends the lines of a queue's slots, whose positions count from the hart's own count on.
fn push_slots(
    out: &mut String,
    front: &str,
    queue: usize,
    slots: &[FilledSlot],
) -> Result<(), AllocError>
    ensures { OnOk result (string_bytes out.new ≡ string_bytes out.old ++ lines_text front.now (slot_lines queue 0 slots.now)) }
{
    let mut position = 0;
    let mut rest = slots;
    'slots: while let [slot, others @ ..] = rest {
        push_slot(out, front, queue, position, &slot.fields)?;
        position += 1;
        rest = others;
    }
    Ok(())
}

/// Appends the lines of the fields that are right in the slots of each queue.
fn push_filled(out: &mut String, front: &str, filled: &[Filled]) -> Result<(), AllocError>
    ensures { OnOk result (string_bytes out.new ≡ string_bytes out.old ++ lines_text front.now (filled_lines 0 filled.now)) }
{
    let mut queue = 0;
    let mut rest = filled;
    'queues: while let [of_queue, others @ ..] = rest {
        push_slots(out, front, queue, &of_queue.slots)?;
        queue += 1;
        rest = others;
    }
    Ok(())
}

/// Appends the lines of a state except its pc and its cases, each after `front`.
pub fn push_described(out: &mut String, front: &str, state: &ListedState) -> Result<(), AllocError>
    ensures { OnOk result (string_bytes out.new ≡ string_bytes out.old ++ lines_text front.now (described_lines state.now)) }
{
    push_known(out, front, &state.known)?;
    push_filled(out, front, &state.filled)
}
