//! Which instructions may access a queue's slots.

ghost use Rattle.std.specs.Prelude.{◌≡◌, ◌<◌, ◌*◌, ◌++◌, ◌&&◌, ◌==◌, not, IfOk, length};
ghost use Rattle.queue_certificates.specs.Steps.{instruction_at};
ghost use Rattle.queue_certificates.specs.Certificates.{part_of};
ghost use Rattle.queue_checker.specs.Flaws.{hart_at};
ghost use Rattle.queue_checker.specs.Operands.{load_target, store_target};
ghost use Rattle.queue_checker.specs.Accesses.{reaches, touches, any_below, touches_at, access_at};
ghost use Rattle.queue_checker.specs.Accesses.{kept_access, accesses_of, accesses_below, accesses_to, slot_accesses, tagged_accesses};

use crate::certificate::{Arrow, KnownState, QueueCertificate};
use crate::leaves::{LeafCheck, each_leaf};
use crate::owning::code_of;
use crate::places::misses_slots;
use crate::sites::{listed_states, small};
use crate::steps::instruction_at;
use crate::tagged_queues::{bare, tagged_in};
use crate::targets::{Target, load_target, store_target};
use known_values::queues::queue_in;
use known_values::{Form, Lack, Queue};
use rv_decode::Instr;
use std::alloc::Global;
use step_machine::Opening;

/// An instruction that in some state may access a byte of a queue's slots.
#[derive(Clone, Copy, PartialEq, Eq)]
pub struct SlotAccess {
    pub hart: u32,
    pub pc: u32,
    pub stores: bool,
    pub loads: bool,
}

fn reaches(queue: Queue, target: Option<Target>) -> Result<bool, Lack>
    ensures { IfOk result (λ may. may ≡ reaches queue target) }
{
    match target {
        Some(target) => {
            let misses = misses_slots(queue, target.bounds, target.width)?;
            Ok(!misses)
        }
        None => Ok(false),
    }
}

/// Whether an instruction may store to the slots, or else whether it may load from them.
fn touches(
    alloc: Global,
    certificate: &QueueCertificate,
    queue: Queue,
    stores: bool,
    state: &KnownState,
    instruction: Option<Instr>,
) -> Result<bool, Lack>
    ensures { IfOk result (λ may. may ≡ touches certificate.now queue stores state.now instruction) }
{
    if stores {
        reaches(queue, store_target(alloc, certificate, state, instruction)?)
    } else {
        reaches(queue, load_target(alloc, certificate, state, instruction)?)
    }
}

/// Asks of a leaf whether its instruction may not store to the slots, or else whether it may not load from them.
#[derive(Clone, Copy)]
struct Sparing<'a> {
    certificate: &'a QueueCertificate,
    queue: Queue,
    stores: bool,
    code: &'a [u32],
}

impl LeafCheck for Sparing<'_> {
    ghost holds = { λ s k d arrows. not (touches s.certificate.now s.queue s.stores k (instruction_at s.code.now k.pc)) };

    fn holds(
        &self,
        alloc: Global,
        state: &KnownState,
        _handed: &Form,
        _arrows: &[Arrow],
    ) -> Result<bool, Lack> {
        let instruction = instruction_at(self.code, state.pc);
        let (certificate, queue, stores) = (self.certificate, self.queue, self.stores);
        let may = touches(alloc, certificate, queue, stores, state, instruction)?;
        Ok(!may)
    }
}

/// A hart's stores to the slots of a queue, or else its loads from them.
#[derive(Clone, Copy)]
struct Accessing<'a> {
    opening: &'a Opening,
    certificate: &'a QueueCertificate,
    queue: Queue,
    stores: bool,
    hart: u32,
}

fn touches_at(alloc: Global, accessing: &Accessing<'_>, pc: u32, n: u32) -> Result<bool, Lack>
    requires { n < length (part_of accessing.now.certificate.now accessing.now.hart).states }
    ensures { IfOk result (λ may. may ≡ touches_at accessing.now.opening.now accessing.now.certificate.now accessing.now.queue accessing.now.stores
        accessing.now.hart pc n) }
{
    let (certificate, hart) = (accessing.certificate, accessing.hart);
    let listed = &listed_states(certificate, hart)[n as usize];
    if listed.known.pc == pc {
        let sparing = Sparing {
            certificate,
            queue: accessing.queue,
            stores: accessing.stores,
            code: code_of(accessing.opening, hart),
        };
        let spares = each_leaf(alloc, &sparing, &listed.known, &listed.cases)?;
        Ok(!spares)
    } else {
        Ok(false)
    }
}

/// Whether the hart's instruction at a pc may in some state.
fn any_touches(alloc: Global, accessing: &Accessing<'_>, pc: u32) -> Result<bool, Lack>
    ensures { IfOk result (λ may. may ≡ any_below (length (part_of accessing.now.certificate.now accessing.now.hart).states)
        (touches_at accessing.now.opening.now accessing.now.certificate.now accessing.now.queue accessing.now.stores accessing.now.hart pc)) }
{
    let mut any = false;
    for n in 0..small(listed_states(accessing.certificate, accessing.hart).len())? {
        any = touches_at(alloc, accessing, pc, n)? || any;
    }
    Ok(any)
}

fn access_at(
    alloc: Global,
    opening: &Opening,
    certificate: &QueueCertificate,
    queue: Queue,
    hart: u32,
    pc: u32,
) -> Result<SlotAccess, Lack>
    ensures { IfOk result (λ access. access ≡ access_at opening.now certificate.now queue hart pc) }
{
    let storing = Accessing {
        opening,
        certificate,
        queue,
        stores: true,
        hart,
    };
    let loading = Accessing {
        opening,
        certificate,
        queue,
        stores: false,
        hart,
    };
    let stores = any_touches(alloc, &storing, pc)?;
    let loads = any_touches(alloc, &loading, pc)?;
    Ok(SlotAccess {
        hart,
        pc,
        stores,
        loads,
    })
}

fn push_kept(out: &mut Vec<SlotAccess>, access: SlotAccess) -> Result<(), Lack>
    ensures { IfOk result (λ _. out.new.items ≡ out.old.items ++ kept_access access) }
{
    if access.stores || access.loads {
        out.push(access)?;
    }
    Ok(())
}

fn push_accesses(
    alloc: Global,
    out: &mut Vec<SlotAccess>,
    opening: &Opening,
    certificate: &QueueCertificate,
    queue: Queue,
    hart: u32,
) -> Result<(), Lack>
    ensures { IfOk result (λ _. out.new.items ≡ out.old.items ++ accesses_of opening.now certificate.now queue hart (length (hart_at opening.now hart).code)) }
{
    for n in 0..small(code_of(opening, hart).len())? {
        let pc = small_pc(n)?;
        push_kept(
            out,
            access_at(alloc, opening, certificate, queue, hart, pc)?,
        )?;
    }
    Ok(())
}

fn small_pc(n: u32) -> Result<u32, Lack>
    ensures { IfOk result (λ pc. pc ≡ 4 * n) }
{
    n.checked_mul(4).ok_or(Lack::TooLarge)
}

/// The instructions that in some state may access a byte of these slots, each once, by hart and pc.
fn accesses_to(
    alloc: Global,
    opening: &Opening,
    certificate: &QueueCertificate,
    queue: Queue,
) -> Result<Vec<SlotAccess>, Lack>
    ensures { IfOk result (λ accesses. accesses.items ≡ accesses_to opening.now certificate.now queue) }
{
    let mut out = Vec::new(alloc);
    for hart in 0..small(opening.harts.len())? {
        push_accesses(alloc, &mut out, opening, certificate, queue, hart)?;
    }
    Ok(out)
}

/// The instructions that in some state may access a byte of the queue's slots, each once, by hart and pc.
pub fn slot_accesses(
    alloc: Global,
    opening: &Opening,
    certificate: &QueueCertificate,
    queue: u32,
) -> Result<Vec<SlotAccess>, Lack>
    ensures { IfOk result (λ accesses. accesses.items ≡ slot_accesses opening.now certificate.now queue) }
{
    let its = queue_in(&certificate.queues, queue);
    accesses_to(alloc, opening, certificate, its)
}

/// The same of a queue with tags.
pub fn tagged_accesses(
    alloc: Global,
    opening: &Opening,
    certificate: &QueueCertificate,
    tagged: u32,
) -> Result<Vec<SlotAccess>, Lack>
    ensures { IfOk result (λ accesses. accesses.items ≡ tagged_accesses opening.now certificate.now tagged) }
{
    let its = bare(tagged_in(&certificate.tagged, tagged));
    accesses_to(alloc, opening, certificate, its)
}
