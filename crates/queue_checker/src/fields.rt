//! Fields of records: the number that a load of one leaves in its register.

ghost use Rattle.std.specs.Prelude.{◌≡◌, Some, IfOk, length};
ghost use Rattle.rv_decode.specs.declared.instruction.Instr.TheVariants.{Load};
ghost use Rattle.queue_certificates.specs.Certificates.{queue_at, fields_at};
ghost use Rattle.queue_certificates.specs.Fields.{field_number, keeps_numbers, field_there, field_or, field_in, field_below, after_field, next_received};

use crate::certificate::{KnownState, QueueCertificate};
use crate::loads::{last_look, load_width};
use crate::places::{anywhere, offset_at};
use crate::sites::{Site, queue_count};
use crate::slots::is_owned;
use crate::states::{next_pc, share_in, with_result};
use crate::steps::address_value;
use crate::successors::Successors;
use known_values::fields::last_number;
use known_values::numbers::bounds;
use known_values::queues::{fields_in, queue_in};
use known_values::values::linear;
use known_values::{Field, Form, Known, KnownValue, Lack, Outcome};
use rv_decode::instruction::LoadOp;
use rv_decode::{Instr, Reg};
use std::alloc::Global;

/// One of the field's numbers.
fn field_number(alloc: Global, field: Field) -> Result<Outcome, Lack>
    ensures { IfOk result (λ r. r ≡ field_number field) }
{
    let form = Form {
        constant: field.low,
        factors: vec![in alloc; field.step]?,
    };
    Ok(Outcome {
        most: field.count,
        value: linear(form),
    })
}

/// Whether a load leaves each of the field's numbers as it is.
fn keeps_numbers(op: LoadOp, field: Field) -> Result<bool, Lack>
    ensures { IfOk result (λ keeps. keeps ≡ keeps_numbers op field) }
{
    match op {
        LoadOp::Byte => Ok(last_number(field)? < 1 << 7),
        LoadOp::Half => Ok(last_number(field)? < 1 << 15),
        LoadOp::Word | LoadOp::ByteUnsigned | LoadOp::HalfUnsigned => Ok(true),
    }
}

/// The first of these fields that has just `width` bytes from `at` on.
fn field_there(mut fields: &[Field], at: u64, width: u64) -> Option<Field>
    ensures { result ≡ field_there fields.now at width }
{
    'fields: loop {
        match fields {
            [] => return None,
            [field, others @ ..] => {
                if u64::from(field.at) == at && u64::from(field.width) == width {
                    return Some(*field);
                }
                fields = others;
            }
        }
    }
}

fn field_or(first: Option<Field>, other: Option<Field>) -> Option<Field>
    ensures { result ≡ field_or first other }
{
    match first {
        None => other,
        Some(field) => Some(field),
    }
}

/// The field of queue `i` of which a load is, where the hart receives and owns the record.
fn field_in(
    alloc: Global,
    certificate: &QueueCertificate,
    hart: u32,
    state: &KnownState,
    place: &KnownValue,
    width: u64,
    i: u32,
) -> Result<Option<Field>, Lack>
    ensures { IfOk result (λ field. field ≡ field_in (queue_at certificate.now) (fields_at certificate.now) hart state.now place.now width i) }
{
    match &place.known {
        Known::Any => Ok(None),
        Known::IndexFor(_, _) => Ok(None),
        Known::SignedFor(_, _) => Ok(None),
        Known::EndsAs(_, _) => Ok(None),
        Known::HasBits(_, _) => Ok(None),
        Known::Linear(form) => {
            let queue = queue_in(&certificate.queues, i);
            let share = share_in(alloc, &state.shares, i as usize)?;
            let owned = is_owned(alloc, &state.ranges, queue, &share, place, width)?;
            if queue.receiver == hart && owned {
                let offset = offset_at(queue, form.constant);
                Ok(field_there(fields_in(&certificate.queues, i), offset, width))
            } else {
                Ok(None)
            }
        }
    }
}

/// The field of which a load is, of any queue.
fn field_of_any(
    alloc: Global,
    certificate: &QueueCertificate,
    hart: u32,
    state: &KnownState,
    place: &KnownValue,
    width: u64,
) -> Result<Option<Field>, Lack>
    ensures { IfOk result (λ field. field ≡ field_below (queue_at certificate.now) (fields_at certificate.now) hart state.now place.now width (length
        certificate.now.queues)) }
{
    let mut found = None;
    for i in 0..queue_count(certificate)? {
        found = field_or(
            field_in(alloc, certificate, hart, state, place, width, i)?,
            found,
        );
    }
    Ok(found)
}

/// The states that follow a load, if it is of this field and no look, and else these.
fn after_field(
    alloc: Global,
    state: &KnownState,
    op: LoadOp,
    rd: u8,
    look: Option<u32>,
    field: Option<Field>,
    states: Vec<KnownState>,
) -> Result<Vec<KnownState>, Lack>
    ensures { IfOk result (λ next. next.items ≡ after_field state.now op rd look field states.items) }
{
    match (look, field) {
        (None, Some(field)) => {
            if keeps_numbers(op, field)? {
                let outcome = field_number(alloc, field)?;
                Ok(vec![in alloc; with_result(alloc, state, rd, next_pc(state.pc), outcome)?]?)
            } else {
                Ok(states)
            }
        }
        _ => Ok(states),
    }
}

fn load_received(
    alloc: Global,
    site: &Site<'_>,
    op: LoadOp,
    rd: Reg,
    rs1: Reg,
    offset: i32,
    next: Successors,
) -> Result<Successors, Lack>
    ensures { IfOk result (λ received. received ≡ next_received (queue_at site.now.certificate.now) (fields_at site.now.certificate.now)
        (length site.now.certificate.now.queues) site.now.hart site.now.state.now (Some (Load op rd rs1 offset)) next) }
{
    let (certificate, hart, state) = (site.certificate, site.hart, site.state);
    let place = address_value(alloc, certificate, state, rs1, offset)?;
    let bounds = anywhere(bounds(alloc, &state.ranges, &place)?);
    let width = load_width(op);
    let look = last_look(certificate, hart, bounds, width)?;
    let field = field_of_any(alloc, certificate, hart, state, &place, width)?;
    if next.shown {
        let states = after_field(alloc, state, op, rd.number, look, field, next.states)?;
        Ok(Successors {
            shown: true,
            states,
        })
    } else {
        Ok(next)
    }
}

/// The states that may follow an instruction, with what is known of a record that it loads.
pub(crate) fn next_received(
    alloc: Global,
    certificate: &QueueCertificate,
    hart: u32,
    state: &KnownState,
    instruction: Option<Instr>,
    next: Successors,
) -> Result<Successors, Lack>
    ensures { IfOk result (λ received. received ≡ next_received (queue_at certificate.now) (fields_at certificate.now) (length certificate.now.queues)
        hart state.now instruction next) }
{
    match instruction {
        Some(
            Instr::Load {
                op,
                rd,
                rs1,
                offset,
            },
        ) => {
            let site = Site {
                certificate,
                hart,
                state,
            };
            load_received(alloc, &site, op, rd, rs1, offset, next)
        }
        _ => Ok(next),
    }
}
