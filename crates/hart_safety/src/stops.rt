//! Whether a hart surely goes on from where a certificate lists it, and doesn't end there.

ghost use Rattle.std.specs.Prelude.{◌≡◌, ◌<◌, IfOk, length};
ghost use Rattle.queue_certificates.specs.Certificates.{queue_at, part_of, state_at};
ghost use Rattle.queue_certificates.specs.Cases.{each_leaf};
ghost use Rattle.queue_checker.specs.Flaws.{hart_at, first_of, unless};
ghost use Rattle.hart_safety.specs.Leaves.{first_failing};
ghost use Rattle.hart_safety.specs.Stops.{is_aligned, is_within_memory, may_be_target, jumps_to_target, is_known_call, call_in};
ghost use Rattle.hart_safety.specs.Stops.{goes_on, goes_on_at, first_stop};
ghost use Rattle.hart_safety.specs.Ends.{is_no_exit, makes_no_exit, runs_on_at, first_end};

use known_values::forms::{is_same, number};
use known_values::lack::product;
use known_values::numbers::as_number;
use known_values::values::plain;
use known_values::{Form, Known, KnownValue, Lack};
use queue_checker::leaves::{LeafCheck, each_leaf};
use queue_checker::loads::load_width;
use queue_checker::owning::code_of;
use queue_checker::sites::{listed_states, small};
use queue_checker::states::value_in;
use queue_checker::steps::{address, instruction_at, operand};
use queue_checker::stores::store_width;
use queue_checker::targets::{Target, accessed, exchanged};
use queue_checker::{Arrow, KnownState, QueueCertificate};
use rv_decode::Instr;
use std::alloc::Global;
use step_machine::Opening;

fn is_aligned(alloc: Global, value: &KnownValue, width: u64) -> bool
    ensures { result ≡ is_aligned value.now width }
{
    match &value.known {
        Known::Linear(form) => is_same(width, form, &number(alloc, 0)),
        Known::Any => false,
        Known::IndexFor(_, _) => false,
        Known::SignedFor(_, _) => false,
        Known::EndsAs(_, _) => false,
        Known::HasBits(_, _) => false,
    }
}

/// Whether an access of these bytes is aligned and within `words` words of memory.
fn is_within_memory(alloc: Global, words: u64, target: &Target) -> Result<bool, Lack>
    ensures { IfOk result (λ within. within ≡ is_within_memory words target.now) }
{
    let bytes = product(4, words)?;
    Ok(is_aligned(alloc, &target.place, target.width) && target.bounds.high < bytes)
}

fn may_be_target(pc: u32) -> bool
    ensures { result ≡ may_be_target pc }
{
    pc % 4 == 0
}

fn jumps_to_target(base: Option<u32>, offset: i32) -> bool
    ensures { result ≡ jumps_to_target base offset }
{
    match base {
        None => false,
        Some(base) => may_be_target(address(base, offset) / 2 * 2),
    }
}

fn is_known_call(number: Option<u32>) -> bool
    ensures { result ≡ is_known_call number }
{
    matches!(number, Some(1 | 2 | 3 | 93))
}

/// The number of an environment call, where it is known.
fn call_in(
    alloc: Global,
    certificate: &QueueCertificate,
    state: &KnownState,
) -> Result<Option<u32>, Lack>
    ensures { IfOk result (λ number. number ≡ call_in certificate.now state.now) }
{
    let value = value_in(alloc, &state.registers, 17)?;
    let value = plain(alloc, &certificate.queues, &state.ranges, &value)?;
    Ok(as_number(&value))
}

/// Whether the instruction doesn't stop a hart with `words` words of memory.
fn goes_on(
    alloc: Global,
    words: u64,
    certificate: &QueueCertificate,
    state: &KnownState,
    instruction: Option<Instr>,
) -> Result<bool, Lack>
    ensures { IfOk result (λ goes. goes ≡ goes_on words certificate.now state.now instruction) }
{
    match instruction {
        None => Ok(false),
        Some(Instr::Ebreak) => Ok(false),
        Some(Instr::Ecall) => Ok(is_known_call(call_in(alloc, certificate, state)?)),
        Some(Instr::Jal { offset, .. }) => Ok(may_be_target(address(state.pc, offset))),
        Some(Instr::Jalr { rs1, offset, .. }) => {
            let base = operand(alloc, certificate, state, rs1)?;
            Ok(jumps_to_target(as_number(&base), offset))
        }
        Some(Instr::Branch { offset, .. }) => Ok(may_be_target(address(state.pc, offset))),
        Some(
            Instr::Load {
                op,
                rs1,
                offset,
                ..
            },
        ) => {
            let target = accessed(alloc, certificate, state, rs1, offset, load_width(op))?;
            is_within_memory(alloc, words, &target)
        }
        Some(
            Instr::Store {
                op,
                rs1,
                offset,
                ..
            },
        ) => {
            let target = accessed(alloc, certificate, state, rs1, offset, store_width(op))?;
            is_within_memory(alloc, words, &target)
        }
        Some(Instr::Amo { rs1, .. }) => {
            let target = exchanged(alloc, certificate, state, rs1)?;
            is_within_memory(alloc, words, &target)
        }
        _ => Ok(true),
    }
}

fn goes_on_at(
    alloc: Global,
    words: u64,
    certificate: &QueueCertificate,
    code: &[u32],
    state: &KnownState,
) -> Result<bool, Lack>
    ensures { IfOk result (λ goes. goes ≡ goes_on_at words certificate.now code.now state.now) }
{
    if u64::from(state.pc) == product(4, code.len() as u64)? {
        Ok(true)
    } else {
        let instruction = instruction_at(code, state.pc);
        goes_on(alloc, words, certificate, state, instruction)
    }
}

/// State `n`, if it has a leaf of which it isn't so; `first` is the first such state before it.
fn failing_at<C: LeafCheck>(
    alloc: Global,
    check: &C,
    certificate: &QueueCertificate,
    hart: u32,
    first: Option<u32>,
    n: u32,
) -> Result<Option<u32>, Lack>
    requires { n < length (part_of certificate.now hart).states }
    ensures { IfOk result (λ state. state ≡ first_of first
        (unless (each_leaf (C.holds check.now) (state_at certificate.now hart n).known (state_at certificate.now hart n).cases) n)) }
{
    match first {
        Some(state) => Ok(Some(state)),
        None => {
            let listed = &listed_states(certificate, hart)[n as usize];
            if each_leaf(alloc, check, &listed.known, &listed.cases)? {
                Ok(None)
            } else {
                Ok(Some(n))
            }
        }
    }
}

/// The hart's first state with a leaf of which something isn't so.
fn first_failing<C: LeafCheck>(
    alloc: Global,
    check: &C,
    certificate: &QueueCertificate,
    hart: u32,
) -> Result<Option<u32>, Lack>
    ensures { IfOk result (λ state. state ≡ first_failing (C.holds check.now) certificate.now hart) }
{
    let mut first = None;
    for n in 0..small(listed_states(certificate, hart).len())? {
        first = failing_at(alloc, check, certificate, hart, first, n)?;
    }
    Ok(first)
}

/// Asks of a leaf whether its instruction goes on.
#[derive(Clone, Copy)]
struct Going<'a> {
    words: u64,
    opening: &'a Opening,
    certificate: &'a QueueCertificate,
    hart: u32,
}

impl LeafCheck for Going<'_> {
    ghost holds = { λ g k d arrows. goes_on_at g.words g.certificate.now (hart_at g.opening.now g.hart).code k };

    fn holds(
        &self,
        alloc: Global,
        state: &KnownState,
        _handed: &Form,
        _arrows: &[Arrow],
    ) -> Result<bool, Lack> {
        let code = code_of(self.opening, self.hart);
        goes_on_at(alloc, self.words, self.certificate, code, state)
    }
}

/// The hart's first state whose instruction isn't shown to go on, with `words` words of memory.
pub fn first_stop(
    alloc: Global,
    opening: &Opening,
    certificate: &QueueCertificate,
    words: u64,
    hart: u32,
) -> Result<Option<u32>, Lack>
    ensures { IfOk result (λ state. state ≡ first_stop words opening.now certificate.now hart) }
{
    let going = Going {
        words,
        opening,
        certificate,
        hart,
    };
    first_failing(alloc, &going, certificate, hart)
}

fn is_no_exit(number: Option<u32>) -> bool
    ensures { result ≡ is_no_exit number }
{
    match number {
        None => false,
        Some(n) => n != 93,
    }
}

/// Whether the instruction surely makes no exit call.
fn makes_no_exit(
    alloc: Global,
    certificate: &QueueCertificate,
    state: &KnownState,
    instruction: Option<Instr>,
) -> Result<bool, Lack>
    ensures { IfOk result (λ none. none ≡ makes_no_exit certificate.now state.now instruction) }
{
    match instruction {
        Some(Instr::Ecall) => Ok(is_no_exit(call_in(alloc, certificate, state)?)),
        _ => Ok(true),
    }
}

/// Asks of a leaf whether the hart surely runs on.
#[derive(Clone, Copy)]
struct Running<'a> {
    opening: &'a Opening,
    certificate: &'a QueueCertificate,
    hart: u32,
}

impl LeafCheck for Running<'_> {
    ghost holds = { λ r k d arrows. runs_on_at r.certificate.now (hart_at r.opening.now r.hart).code k };

    fn holds(
        &self,
        alloc: Global,
        state: &KnownState,
        _handed: &Form,
        _arrows: &[Arrow],
    ) -> Result<bool, Lack> {
        let code = code_of(self.opening, self.hart);
        if u64::from(state.pc) == product(4, code.len() as u64)? {
            Ok(false)
        } else {
            let instruction = instruction_at(code, state.pc);
            makes_no_exit(alloc, self.certificate, state, instruction)
        }
    }
}

/// The hart's first state where it may end: just past its code, or at what may be the exit call.
pub fn first_end(
    alloc: Global,
    opening: &Opening,
    certificate: &QueueCertificate,
    hart: u32,
) -> Result<Option<u32>, Lack>
    ensures { IfOk result (λ state. state ≡ first_end opening.now certificate.now hart) }
{
    let running = Running {
        opening,
        certificate,
        hart,
    };
    first_failing(alloc, &running, certificate, hart)
}
