//! Which bytes an instruction accesses.

ghost use Rattle.std.specs.Prelude.{◌≡◌, IfOk};
ghost use Rattle.queue_checker.specs.Operands.{accessed_in, exchanged_in, load_target, store_target};

use crate::certificate::{KnownState, QueueCertificate};
use crate::loads::load_width;
use crate::places::anywhere;
use crate::steps::{address_value, operand};
use crate::stores::store_width;
use known_values::numbers::bounds;
use known_values::{Bounds, KnownValue, Lack};
use rv_decode::{Instr, Reg};
use std::alloc::Global;

/// `width` bytes, from an address on of which `place` is known, and which lies in the bounds.
#[derive(Drop)]
pub struct Target {
    pub place: KnownValue,
    pub bounds: Bounds,
    pub width: u64,
}

/// The bytes of a load or of a store, `offset` from where a register points.
pub fn accessed(
    alloc: Global,
    certificate: &QueueCertificate,
    state: &KnownState,
    rs1: Reg,
    offset: i32,
    width: u64,
) -> Result<Target, Lack>
    ensures { IfOk result (λ target. target ≡ accessed_in certificate.now state.now rs1 offset width) }
{
    let place = address_value(alloc, certificate, state, rs1, offset)?;
    let bounds = anywhere(bounds(alloc, &state.ranges, &place)?);
    Ok(Target {
        place,
        bounds,
        width,
    })
}

/// The word of an AMO, where a register points.
pub fn exchanged(
    alloc: Global,
    certificate: &QueueCertificate,
    state: &KnownState,
    rs1: Reg,
) -> Result<Target, Lack>
    ensures { IfOk result (λ target. target ≡ exchanged_in certificate.now state.now rs1) }
{
    let place = operand(alloc, certificate, state, rs1)?;
    let bounds = anywhere(bounds(alloc, &state.ranges, &place)?);
    Ok(Target {
        place,
        bounds,
        width: 4,
    })
}

/// The bytes that an instruction loads, if it loads any.
pub fn load_target(
    alloc: Global,
    certificate: &QueueCertificate,
    state: &KnownState,
    instruction: Option<Instr>,
) -> Result<Option<Target>, Lack>
    ensures { IfOk result (λ target. target ≡ load_target certificate.now state.now instruction) }
{
    match instruction {
        Some(
            Instr::Load {
                op,
                rs1,
                offset,
                ..
            },
        ) => Ok(Some(accessed(alloc, certificate, state, rs1, offset, load_width(op))?)),
        Some(Instr::Amo { rs1, .. }) => Ok(Some(exchanged(alloc, certificate, state, rs1)?)),
        _ => Ok(None),
    }
}

/// The bytes to which an instruction may store, if it stores any.
pub fn store_target(
    alloc: Global,
    certificate: &QueueCertificate,
    state: &KnownState,
    instruction: Option<Instr>,
) -> Result<Option<Target>, Lack>
    ensures { IfOk result (λ target. target ≡ store_target certificate.now state.now instruction) }
{
    match instruction {
        Some(
            Instr::Store {
                op,
                rs1,
                offset,
                ..
            },
        ) => Ok(Some(accessed(alloc, certificate, state, rs1, offset, store_width(op))?)),
        Some(Instr::Amo { rs1, .. }) => Ok(Some(exchanged(alloc, certificate, state, rs1)?)),
        _ => Ok(None),
    }
}
