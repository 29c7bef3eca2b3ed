//! The states that may follow an instruction.

ghost use Rattle.std.specs.Prelude.{◌≡◌, ◌+◌, ◌/◌, ◌*◌, ◌%◌, ◌^◌, ◌<◌, ◌∷◌, [], ℕ, List, Some, None, IfOk, length, Bool};
ghost use Rattle.hart.specs.Effects.{address, next_pc, store_width};
ghost use Rattle.queue_certificates.specs.Results.{just, as_number, bounds, exactly, is_branch_taken, of_immediate, of_registers, of_shift};
ghost use Rattle.queue_certificates.specs.Certificates.{queue_at, own_of};
ghost use Rattle.queue_certificates.specs.States.{is_any};
ghost use Rattle.queue_certificates.specs.Steps.{is_copy, immediate_result, with_result, shared, with_equal, when_taken, when_passed};
ghost use Rattle.queue_certificates.specs.Steps.{goes_by, jumping, register_at, instruction_at, loading, storing, exchanging, follow};
ghost use Rattle.queue_certificates.specs.Steps.{address_value, addresses, operand};

use crate::certificate::{KnownState, QueueCertificate};
use crate::loads::{load_width, loading};
use crate::sites::Site;
use crate::states::{called, copied_state, going_to, next_pc, value_in, with_result, with_value};
use crate::stores::{Exchange, exchanging, store_width, storing};
use crate::successors::{Successors, none, not_shown, one, two};
use crate::targets::accessed;
use crate::words::storable;
use known_values::forms::number;
use known_values::lack::{product, sum};
use known_values::numbers::{as_number, bounds};
use known_values::results::{
    exactly, is_branch_taken, just, of_immediate, of_registers, of_shift, sum_of,
};
use known_values::values::{linear, plain};
use known_values::{Form, Known, KnownValue, Lack, Outcome};
use rv_decode::{
    AmoOp, BranchOp, ImmediateOp, Instr, LoadOp, Reg, RegisterOp, ShiftOp, StoreOp, decode,
};
use std::alloc::Global;

const WORDS: u64 = 1 << 32;

/// Where a jump by `offset` from `base` goes.
pub fn address(base: u32, offset: i32) -> u32
    ensures { result ≡ address base offset }
{
    base.wrapping_add(offset.cast_unsigned())
}

/// What the pc says.
pub fn instruction_at(code: &[u32], pc: u32) -> Option<Instr>
    ensures { result ≡ instruction_at code.now pc }
{
    match code.get((pc / 4) as usize) {
        Some(word) => decode(*word),
        None => None,
    }
}

/// What a register holds; x0 is 0.
fn register_at(alloc: Global, state: &KnownState, register: Reg) -> Result<KnownValue, Lack>
    ensures { IfOk result (λ v. v ≡ register_at state.now register) }
{
    if register.number == 0 {
        Ok(linear(number(alloc, 0)))
    } else {
        value_in(alloc, &state.registers, register.number as usize)
    }
}

/// What a register holds, as a form where it is one.
pub fn operand(
    alloc: Global,
    certificate: &QueueCertificate,
    state: &KnownState,
    register: Reg,
) -> Result<KnownValue, Lack>
    ensures { IfOk result (λ v. v ≡ operand (queue_at certificate.now) state.now register) }
{
    let value = register_at(alloc, state, register)?;
    plain(alloc, &certificate.queues, &state.ranges, &value)
}

/// The address `offset` bytes from where a register points.
pub fn address_value(
    alloc: Global,
    certificate: &QueueCertificate,
    state: &KnownState,
    register: Reg,
    offset: i32,
) -> Result<KnownValue, Lack>
    ensures { IfOk result (λ v. v ≡ address_value (queue_at certificate.now) state.now register offset) }
{
    let base = operand(alloc, certificate, state, register)?;
    let offset = linear(number(alloc, u64::from(offset.cast_unsigned())));
    sum_of(alloc, &base, &offset)
}

/// A state where two registers hold the same number: where nothing is known of one, what is known of the other.
fn shared(
    alloc: Global,
    state: &KnownState,
    rs1: Reg,
    rs2: Reg,
    left: &KnownValue,
    right: &KnownValue,
) -> Result<KnownState, Lack>
    ensures { IfOk result (λ s. s ≡ shared state.now rs1 rs2 left.now right.now) }
{
    if is_any(left) {
        with_value(alloc, state, rs1.number, right.copy(alloc)?)
    } else if is_any(right) {
        with_value(alloc, state, rs2.number, left.copy(alloc)?)
    } else {
        copied_state(alloc, state)
    }
}

/// Whether nothing is known of a value.
fn is_any(value: &KnownValue) -> bool
    ensures { result ≡ is_any value.now }
{
    matches!(value.known, Known::Any)
}

fn with_equal(alloc: Global, state: &KnownState, rs1: Reg, rs2: Reg) -> Result<KnownState, Lack>
    ensures { IfOk result (λ s. s ≡ with_equal state.now rs1 rs2) }
{
    let left = register_at(alloc, state, rs1)?;
    let right = register_at(alloc, state, rs2)?;
    shared(alloc, state, rs1, rs2, &left, &right)
}

/// The state before a branch that is taken.
fn when_taken(
    alloc: Global,
    state: &KnownState,
    op: BranchOp,
    rs1: Reg,
    rs2: Reg,
) -> Result<KnownState, Lack>
    ensures { IfOk result (λ s. s ≡ when_taken state.now op rs1 rs2) }
{
    match op {
        BranchOp::Equal => with_equal(alloc, state, rs1, rs2),
        _ => copied_state(alloc, state),
    }
}

/// The state before a branch that isn't taken.
fn when_passed(
    alloc: Global,
    state: &KnownState,
    op: BranchOp,
    rs1: Reg,
    rs2: Reg,
) -> Result<KnownState, Lack>
    ensures { IfOk result (λ s. s ≡ when_passed state.now op rs1 rs2) }
{
    match op {
        BranchOp::NotEqual => with_equal(alloc, state, rs1, rs2),
        _ => copied_state(alloc, state),
    }
}

/// The states that may follow a branch to `target`, from the one state where it is taken, and from the other where it isn't.
fn goes_by(
    alloc: Global,
    taken: &KnownState,
    passed: &KnownState,
    target: u32,
    next: u32,
    known: Option<bool>,
) -> Result<Successors, Lack>
    ensures { IfOk result (λ states. states ≡ Some (goes_by taken.now passed.now target next known)) }
{
    match known {
        None => {
            let far = going_to(alloc, taken, target)?;
            two(alloc, far, going_to(alloc, passed, next)?)
        }
        Some(true) => one(alloc, going_to(alloc, taken, target)?),
        Some(false) => one(alloc, going_to(alloc, passed, next)?),
    }
}

/// The states that may follow a jump by a register.
fn jumping(
    alloc: Global,
    state: &KnownState,
    rd: u8,
    offset: i32,
    base: Option<u32>,
) -> Result<Successors, Lack>
    ensures { IfOk result (λ next. next ≡ jumping state.now rd offset base) }
{
    match base {
        None => Ok(not_shown(alloc)),
        Some(base) => {
            let link = exactly(alloc, u64::from(next_pc(state.pc)))?;
            let target = address(base, offset) / 2 * 2;
            one(alloc, with_result(alloc, state, rd, target, link)?)
        }
    }
}

fn follow_load(
    alloc: Global,
    site: &Site<'_>,
    op: LoadOp,
    rd: Reg,
    rs1: Reg,
    offset: i32,
) -> Result<Successors, Lack>
    ensures { IfOk result (λ next. next ≡ loading (queue_at site.now.certificate.now) (length site.now.certificate.now.queues) (own_of site.now.certificate.now)
        site.now.hart site.now.state.now op rd.number (addresses (queue_at site.now.certificate.now) site.now.state.now rs1 offset)) }
{
    let (certificate, state) = (site.certificate, site.state);
    let target = accessed(alloc, certificate, state, rs1, offset, load_width(op))?;
    loading(alloc, site, op, rd.number, target.bounds)
}

fn follow_store(
    alloc: Global,
    site: &Site<'_>,
    handed: &Form,
    op: StoreOp,
    rs1: Reg,
    rs2: Reg,
    offset: i32,
) -> Result<Successors, Lack>
    ensures { IfOk result (λ next. next ≡ storing (queue_at site.now.certificate.now) (length site.now.certificate.now.queues) (own_of site.now.certificate.now)
        (length site.now.certificate.now.harts) site.now.hart site.now.state.now handed.now (store_width op)
        (register_at site.now.state.now rs2) (address_value (queue_at site.now.certificate.now) site.now.state.now rs1 offset)
        (addresses (queue_at site.now.certificate.now) site.now.state.now rs1 offset)) }
{
    let (certificate, state) = (site.certificate, site.state);
    let target = accessed(alloc, certificate, state, rs1, offset, store_width(op))?;
    let value = register_at(alloc, state, rs2)?;
    storing(alloc, site, handed, &value, &target)
}

fn follow_amo(
    alloc: Global,
    site: &Site<'_>,
    handed: &Form,
    op: AmoOp,
    rd: Reg,
    rs1: Reg,
    rs2: Reg,
) -> Result<Successors, Lack>
    ensures { IfOk result (λ next. next ≡ exchanging (queue_at site.now.certificate.now) (length site.now.certificate.now.queues) (own_of
        site.now.certificate.now) (length site.now.certificate.now.harts) site.now.hart site.now.state.now handed.now op rd.number (register_at
        site.now.state.now rs2) (operand (queue_at site.now.certificate.now) site.now.state.now rs1) (bounds site.now.state.now.ranges (operand
        (queue_at site.now.certificate.now) site.now.state.now rs1))) }
{
    let state = site.state;
    let place = operand(alloc, site.certificate, state, rs1)?;
    let bounds = bounds(alloc, &state.ranges, &place)?;
    let amo = Exchange {
        op,
        rd: rd.number,
        with: register_at(alloc, state, rs2)?,
    };
    exchanging(alloc, site, handed, &amo, place, bounds)
}

fn follow_upper(alloc: Global, state: &KnownState, rd: Reg, upper: u32) -> Result<Successors, Lack>
    ensures { IfOk result (λ next. next ≡ Some (with_result state.now rd.number (next_pc state.now.pc) (exactly (upper * 2 ^ 12)) ∷ [])) }
{
    let outcome = exactly(alloc, product(u64::from(upper), 1 << 12)?)?;
    one(
        alloc,
        with_result(alloc, state, rd.number, next_pc(state.pc), outcome)?,
    )
}

fn follow_upper_pc(
    alloc: Global,
    state: &KnownState,
    rd: Reg,
    upper: u32,
) -> Result<Successors, Lack>
    ensures { IfOk result (λ next. next ≡ Some (with_result state.now rd.number (next_pc state.now.pc) (exactly ((state.now.pc + upper * 2 ^ 12) % 2
        ^ 32)) ∷ [])) }
{
    let sum = sum(u64::from(state.pc), product(u64::from(upper), 1 << 12)?)?;
    let outcome = exactly(alloc, sum % WORDS)?;
    one(
        alloc,
        with_result(alloc, state, rd.number, next_pc(state.pc), outcome)?,
    )
}

fn follow_jal(alloc: Global, state: &KnownState, rd: Reg, offset: i32) -> Result<Successors, Lack>
    ensures { IfOk result (λ next. next ≡ Some (with_result state.now rd.number (address state.now.pc offset) (exactly (next_pc state.now.pc)) ∷ [])) }
{
    let outcome = exactly(alloc, u64::from(next_pc(state.pc)))?;
    one(
        alloc,
        with_result(alloc, state, rd.number, address(state.pc, offset), outcome)?,
    )
}

fn follow_jalr(
    alloc: Global,
    certificate: &QueueCertificate,
    state: &KnownState,
    rd: Reg,
    rs1: Reg,
    offset: i32,
) -> Result<Successors, Lack>
    ensures { IfOk result (λ next. next ≡ jumping state.now rd.number offset (as_number (operand (queue_at certificate.now) state.now rs1))) }
{
    let value = operand(alloc, certificate, state, rs1)?;
    jumping(alloc, state, rd.number, offset, as_number(&value))
}

/// Whether a branch by two values is taken, where that is known.
fn branch_result(
    alloc: Global,
    certificate: &QueueCertificate,
    state: &KnownState,
    op: BranchOp,
    left: &KnownValue,
    right: &KnownValue,
) -> Result<Option<bool>, Lack>
    ensures { IfOk result (λ known. known ≡ is_branch_taken (queue_at certificate.now) state.now.ranges op left.now right.now) }
{
    is_branch_taken(alloc, &certificate.queues, &state.ranges, op, left, right)
}

/// Whether a branch is taken, where that is known.
fn branch_known(
    alloc: Global,
    certificate: &QueueCertificate,
    state: &KnownState,
    op: BranchOp,
    rs1: Reg,
    rs2: Reg,
) -> Result<Option<bool>, Lack>
    ensures { IfOk result (λ known. known ≡ is_branch_taken (queue_at certificate.now) state.now.ranges op
        (operand (queue_at certificate.now) state.now rs1) (operand (queue_at certificate.now) state.now rs2)) }
{
    let left = operand(alloc, certificate, state, rs1)?;
    let right = operand(alloc, certificate, state, rs2)?;
    branch_result(alloc, certificate, state, op, &left, &right)
}

/// The states that may follow a branch, if this is known of it.
fn branch_by(
    alloc: Global,
    state: &KnownState,
    op: BranchOp,
    rs1: Reg,
    rs2: Reg,
    offset: i32,
    known: Option<bool>,
) -> Result<Successors, Lack>
    ensures { IfOk result (λ next. next ≡ Some (goes_by (when_taken state.now op rs1 rs2) (when_passed state.now op rs1 rs2)
        (address state.now.pc offset) (next_pc state.now.pc) known)) }
{
    let taken = when_taken(alloc, state, op, rs1, rs2)?;
    let passed = when_passed(alloc, state, op, rs1, rs2)?;
    let target = address(state.pc, offset);
    goes_by(alloc, &taken, &passed, target, next_pc(state.pc), known)
}

fn follow_branch(
    alloc: Global,
    certificate: &QueueCertificate,
    state: &KnownState,
    op: BranchOp,
    rs1: Reg,
    rs2: Reg,
    offset: i32,
) -> Result<Successors, Lack>
    ensures { IfOk result (λ next. next ≡ Some (goes_by (when_taken state.now op rs1 rs2) (when_passed state.now op rs1 rs2)
        (address state.now.pc offset) (next_pc state.now.pc) (is_branch_taken (queue_at certificate.now) state.now.ranges op
        (operand (queue_at certificate.now) state.now rs1) (operand (queue_at certificate.now) state.now rs2)))) }
{
    let known = branch_known(alloc, certificate, state, op, rs1, rs2)?;
    branch_by(alloc, state, op, rs1, rs2, offset, known)
}

fn is_copy(op: ImmediateOp, immediate: i32) -> bool
    ensures { result ≡ is_copy op immediate }
{
    match op {
        ImmediateOp::Add => immediate == 0,
        _ => false,
    }
}

/// What an operation with an immediate leaves of a value.
fn operation_result(
    alloc: Global,
    certificate: &QueueCertificate,
    state: &KnownState,
    op: ImmediateOp,
    value: &KnownValue,
    immediate: i32,
) -> Result<Outcome, Lack>
    ensures { IfOk result (λ r. r ≡ of_immediate (queue_at certificate.now) (length certificate.now.queues) state.now.ranges op value.now immediate) }
{
    of_immediate(
        alloc,
        &certificate.queues,
        &state.ranges,
        op,
        value,
        immediate,
    )
}

/// The same, except that a copy keeps what is known.
fn immediate_result(
    alloc: Global,
    certificate: &QueueCertificate,
    state: &KnownState,
    op: ImmediateOp,
    value: &KnownValue,
    immediate: i32,
) -> Result<Outcome, Lack>
    ensures { IfOk result (λ r. r ≡ immediate_result (queue_at certificate.now) (length certificate.now.queues) state.now op value.now immediate) }
{
    if is_copy(op, immediate) {
        let kept = storable(alloc, certificate, value)?;
        just(alloc, &kept)
    } else {
        operation_result(alloc, certificate, state, op, value, immediate)
    }
}

fn follow_immediate(
    alloc: Global,
    site: &Site<'_>,
    op: ImmediateOp,
    rd: Reg,
    rs1: Reg,
    immediate: i32,
) -> Result<Successors, Lack>
    ensures { IfOk result (λ next. next ≡ Some (with_result site.now.state.now rd.number (next_pc site.now.state.now.pc)
        (immediate_result (queue_at site.now.certificate.now) (length site.now.certificate.now.queues)
        site.now.state.now op (operand (queue_at site.now.certificate.now) site.now.state.now rs1) immediate) ∷ [])) }
{
    let (certificate, state) = (site.certificate, site.state);
    let value = operand(alloc, certificate, state, rs1)?;
    let outcome = immediate_result(alloc, certificate, state, op, &value, immediate)?;
    one(
        alloc,
        with_result(alloc, state, rd.number, next_pc(state.pc), outcome)?,
    )
}

/// What a shift of a value leaves.
fn shift_result(
    alloc: Global,
    certificate: &QueueCertificate,
    state: &KnownState,
    op: ShiftOp,
    value: &KnownValue,
    amount: u32,
) -> Result<Outcome, Lack>
    requires { amount < 32 }
    ensures { IfOk result (λ r. r ≡ of_shift (queue_at certificate.now) (length certificate.now.queues) state.now.ranges op value.now amount) }
{
    of_shift(alloc, &certificate.queues, &state.ranges, op, value, amount)
}

fn follow_shift(
    alloc: Global,
    certificate: &QueueCertificate,
    state: &KnownState,
    op: ShiftOp,
    rd: Reg,
    rs1: Reg,
    amount: u32,
) -> Result<Successors, Lack>
    ensures { IfOk result (λ next. next ≡ Some (with_result state.now rd.number (next_pc state.now.pc) (of_shift (queue_at certificate.now)
        (length certificate.now.queues) state.now.ranges op (operand (queue_at certificate.now) state.now rs1) amount) ∷ [])) }
{
    // An instruction has no such amount.
    if amount >= 32 {
        return Err(Lack::TooLarge);
    }
    let value = operand(alloc, certificate, state, rs1)?;
    let outcome = shift_result(alloc, certificate, state, op, &value, amount)?;
    one(
        alloc,
        with_result(alloc, state, rd.number, next_pc(state.pc), outcome)?,
    )
}

/// What an operation of two values leaves.
fn register_result(
    alloc: Global,
    certificate: &QueueCertificate,
    state: &KnownState,
    op: RegisterOp,
    left: &KnownValue,
    right: &KnownValue,
) -> Result<Outcome, Lack>
    ensures { IfOk result (λ r. r ≡ of_registers (queue_at certificate.now) (length certificate.now.queues) state.now.ranges op left.now right.now) }
{
    of_registers(alloc, &certificate.queues, &state.ranges, op, left, right)
}

fn follow_registers(
    alloc: Global,
    certificate: &QueueCertificate,
    state: &KnownState,
    op: RegisterOp,
    rd: Reg,
    rs1: Reg,
    rs2: Reg,
) -> Result<Successors, Lack>
    ensures { IfOk result (λ next. next ≡ Some (with_result state.now rd.number (next_pc state.now.pc) (of_registers (queue_at certificate.now)
        (length certificate.now.queues) state.now.ranges op (operand (queue_at certificate.now) state.now rs1) (operand (queue_at certificate.now)
        state.now rs2)) ∷ [])) }
{
    let left = operand(alloc, certificate, state, rs1)?;
    let right = operand(alloc, certificate, state, rs2)?;
    let outcome = register_result(alloc, certificate, state, op, &left, &right)?;
    one(
        alloc,
        with_result(alloc, state, rd.number, next_pc(state.pc), outcome)?,
    )
}

/// The states that may follow an instruction, where it hands over this many positions.
pub(crate) fn follow(
    alloc: Global,
    certificate: &QueueCertificate,
    hart: u32,
    state: &KnownState,
    handed: &Form,
    instruction: Option<Instr>,
) -> Result<Successors, Lack>
    ensures { IfOk result (λ next. next ≡ follow (queue_at certificate.now) (length certificate.now.queues) (own_of certificate.now) (length
        certificate.now.harts) hart state.now handed.now instruction) }
{
    let Some(instruction) = instruction else {
        return Ok(none(alloc));
    };
    let site = Site {
        certificate,
        hart,
        state,
    };
    match instruction {
        Instr::Lui { rd, upper } => follow_upper(alloc, state, rd, upper),
        Instr::Auipc { rd, upper } => follow_upper_pc(alloc, state, rd, upper),
        Instr::Jal { rd, offset } => follow_jal(alloc, state, rd, offset),
        Instr::Jalr { rd, rs1, offset } => {
            follow_jalr(alloc, certificate, state, rd, rs1, offset)
        }
        Instr::Branch {
            op,
            rs1,
            rs2,
            offset,
        } => { follow_branch(alloc, certificate, state, op, rs1, rs2, offset) }
        Instr::Load {
            op,
            rd,
            rs1,
            offset,
        } => { follow_load(alloc, &site, op, rd, rs1, offset) }
        Instr::Store {
            op,
            rs1,
            rs2,
            offset,
        } => { follow_store(alloc, &site, handed, op, rs1, rs2, offset) }
        Instr::Immediate {
            op,
            rd,
            rs1,
            immediate,
        } => { follow_immediate(alloc, &site, op, rd, rs1, immediate) }
        Instr::Shift {
            op,
            rd,
            rs1,
            amount,
        } => { follow_shift(alloc, certificate, state, op, rd, rs1, amount) }
        Instr::Register { op, rd, rs1, rs2 } => {
            follow_registers(alloc, certificate, state, op, rd, rs1, rs2)
        }
        Instr::Fence { .. } | Instr::FenceTso => {
            one(alloc, going_to(alloc, state, next_pc(state.pc))?)
        }
        Instr::Ecall => one(alloc, called(alloc, state)?),
        Instr::Ebreak => Ok(none(alloc)),
        Instr::Amo {
            op,
            rd,
            rs1,
            rs2,
            ..
        } => { follow_amo(alloc, &site, handed, op, rd, rs1, rs2) }
    }
}
