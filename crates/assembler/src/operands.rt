//! What an operand says.

ghost use Rattle.std.specs.Prelude.{◌≡◌, ◌<◌, ◌^◌, ◌<ℤ◌, ◌≤ℤ◌, pos, negsuc, neg_ℤ, IfOk, IsTrue, ◌≤◌, option_map, IfSome};
ghost use Rattle.std.specs.Option.{option_copied};
ghost use Rattle.rv_decode.specs.Fits.{IsSigned};
ghost use Rattle.assembler.specs.Operands.{register_in, in_range, number_in, natural_in, base_in, offset_in};
ghost use Rattle.assembler.specs.Operands.{address_in, address_of, target_of, in_reach, target_in, or_zero, IsInReach};
ghost use Rattle.assembler.specs.Operands.{is_reached, bytes, Tells, set_in};

use crate::faults::AsmFault;
use crate::names::is_name;
use crate::tables::set_named;
use rv_decode::{Reg, register_named};
use texts::cutting::{cut_at, trimmed};
use texts::integer;

/// Where a jump or a branch goes.
#[derive(Clone, Copy)]
pub enum JumpTarget<'a> {
    /// So many bytes from the instruction itself.
    Bytes(i32),
    /// To the label of this name.
    Label(&'a [u8]),
}

/// The register and the number of an address.
#[derive(Clone, Copy)]
pub struct Address {
    pub base: Reg,
    pub offset: i32,
}

/// The register that an operand names. `UnknownName` is the only fault.
pub fn register(operand: &[u8]) -> Result<Reg, AsmFault>
    ensures { result ≡ register_in operand.now }
{
    match register_named(operand) {
        Some(register) => Ok(register),
        None => Err(AsmFault::UnknownName),
    }
}

fn in_range(number: Option<i64>, low: i64, high: i64) -> Result<i64, AsmFault>
    ensures value { result ≡ in_range low high number }
    ensures within { IfOk result (λ n. (low ≤ℤ n) × (n ≤ℤ high)) }
{
    match number {
        None => Err(AsmFault::BadOperand),
        Some(number) if number < low || high < number => Err(AsmFault::OutOfRange),
        Some(number) => Ok(number),
    }
}

/// A number from `low` to `high`.
pub fn number_from(operand: &[u8], low: i64, high: i64) -> Result<i64, AsmFault>
    ensures value { result ≡ number_in low high operand.now }
    ensures within { IfOk result (λ n. (low ≤ℤ n) × (n ≤ℤ high)) }
{
    in_range(integer(operand), low, high)
}

/// A signed number of 12 bits.
pub fn short_number(operand: &[u8]) -> Result<i32, AsmFault>
    ensures value { result ≡ number_in (negsuc 2047) (pos 2047) operand.now }
    ensures short { IfOk result (IsSigned 11) }
{
    match number_from(operand, -2048, 2047) {
        Ok(number) => Ok(number as i32),
        Err(fault) => Err(fault),
    }
}

/// A number from 0 to `most`.
pub fn natural(operand: &[u8], most: u32) -> Result<u32, AsmFault>
    ensures value { result ≡ natural_in most operand.now }
    ensures within { IfOk result (λ n. n ≤ most) }
{
    match number_from(operand, 0, i64::from(most)) {
        Ok(number) => Ok(number.unsigned_abs() as u32),
        Err(fault) => Err(fault),
    }
}

/// The register between the parentheses of `n(rs1)`.
fn base(operand: &[u8]) -> Result<Reg, AsmFault>
    ensures { result ≡ base_in operand.now }
{
    let (_, inner) = cut_at(operand, b'(');
    let Some(inner) = inner else {
        return Err(AsmFault::BadOperand);
    };
    match cut_at(inner, b')') {
        (name, Some([])) => register(trimmed(name)),
        _ => Err(AsmFault::BadOperand),
    }
}

fn number_or_zero(text: &[u8], low: i64, high: i64) -> Result<i64, AsmFault>
    requires low { low ≤ℤ pos 0 }
    requires high { pos 0 ≤ℤ high }
    ensures value { result ≡ or_zero low high text.now }
    ensures within { IfOk result (λ n. (low ≤ℤ n) × (n ≤ℤ high)) }
{
    if text.is_empty() {
        Ok(0)
    } else {
        number_from(text, low, high)
    }
}

fn offset(operand: &[u8], low: i64, high: i64) -> Result<i64, AsmFault>
    requires low { low ≤ℤ pos 0 }
    requires high { pos 0 ≤ℤ high }
    ensures value { result ≡ offset_in low high operand.now }
    ensures within { IfOk result (λ n. (low ≤ℤ n) × (n ≤ℤ high)) }
{
    number_or_zero(trimmed(cut_at(operand, b'(').0), low, high)
}

/// The register and the number of `n(rs1)`, of 12 bits; the number is 0 where it is left out.
pub fn short_address(operand: &[u8]) -> Result<Address, AsmFault>
    ensures value { Tells address_of result (address_in (negsuc 2047) (pos 2047) operand.now) }
    ensures short { IfOk result (λ at. IsSigned 11 at.offset) }
{
    let base = base(operand)?;
    let offset = offset(operand, -2048, 2047)? as i32;
    Ok(Address { base, offset })
}

/// The register of `(rs1)`, with no number in front, or 0.
pub fn pointer(operand: &[u8]) -> Result<Address, AsmFault>
    ensures { Tells address_of result (address_in (pos 0) (pos 0) operand.now) }
{
    let base = base(operand)?;
    let offset = offset(operand, 0, 0)? as i32;
    Ok(Address { base, offset })
}

/// Whether the number of bytes is even, and from `-bound` on and below `bound`.
pub fn is_reached(number: i64, bound: i64) -> bool
    requires low { pos 0 ≤ℤ bound }
    requires high { bound <ℤ pos (2 ^ 31) }
    ensures value { result ≡ is_reached bound number }
    ensures reached { IsTrue result → IsInReach bound (bytes number) }
{
    number.unsigned_abs() % 2 == 0 && number >= -bound && number < bound
}

fn in_reach<'a>(number: Option<i64>, bound: i64) -> Result<JumpTarget<'a>, AsmFault>
    requires low { pos 0 ≤ℤ bound }
    requires high { bound <ℤ pos (2 ^ 31) }
    ensures place { Tells target_of result (in_reach bound number) }
    ensures reached { IfOk result (λ place. IsInReach bound (target_of place)) }
{
    match number {
        None => Err(AsmFault::BadOperand),
        Some(number) if is_reached(number, bound) => Ok(JumpTarget::Bytes(number as i32)),
        Some(_) => Err(AsmFault::OutOfRange),
    }
}

/// Where to: a label, or an even number of bytes from `-bound` on and below `bound`.
pub fn target(operand: &[u8], bound: i64) -> Result<JumpTarget<'_>, AsmFault>
    requires low { pos 0 ≤ℤ bound }
    requires high { bound <ℤ pos (2 ^ 31) }
    ensures place { Tells target_of result (target_in bound operand.now) }
    ensures reached { IfOk result (λ place. IsInReach bound (target_of place)) }
{
    if is_name(operand) {
        return Ok(JumpTarget::Label(operand));
    }
    in_reach(integer(operand), bound)
}

/// A set of accesses, as a fence orders them.
pub fn set(operand: &[u8]) -> Result<u32, AsmFault>
    ensures value { result ≡ set_in operand.now }
    ensures small { IfOk result (λ set. set < 2 ^ 4) }
{
    match set_named(operand) {
        Some(set) => Ok(u32::from(set)),
        None => Err(AsmFault::BadOperand),
    }
}
