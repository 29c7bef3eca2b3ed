//! The first load of a queue's slots that is shown neither to be of one that its party owns nor of a tag.

ghost use Rattle.std.specs.Prelude.{◌≡◌, ◌++◌, IfOk, OnOk};
ghost use Rattle.std.specs.String.{string_bytes};
ghost use Rattle.queue_certificates.specs.Certificates.{state_at};
ghost use Rattle.queue_checker.specs.Flaws.{first_of};
ghost use Rattle.certifying.specs.Queues.{tagged_number};
ghost use Rattle.certifying.specs.Unread.{first_unread, pc_place, state_place, unowned_by, unread_between, unread_by, unread_end, unread_front};
ghost use Rattle.certifying.specs.Unread.{unread_line, unread_of};

use crate::instructions::{push_at_pc, push_place};
use crate::queues::{queue_count, slots_at, tagged_number};
use known_values::{Lack, Queue};
use queue_checker::{QueueCertificate, first_unowned, first_unowned_rest};
use std::alloc::{AllocError, Global};
use step_machine::Opening;

/// A state of a hart with a load of a queue's slots that is shown neither to be of an owned one nor of a tag.
#[derive(Clone, Copy)]
pub struct Unread {
    pub queue: u32,
    pub hart: u32,
    pub state: u32,
}

/// The number of the first such state of a hart.
fn unowned_by(
    alloc: Global,
    opening: &Opening,
    certificate: &QueueCertificate,
    queue: u32,
    hart: u32,
) -> Result<Option<u32>, Lack>
    ensures { IfOk result (λ state. state ≡ unowned_by opening.now certificate.now queue (tagged_number certificate.now queue) hart) }
{
    match tagged_number(certificate, queue) {
        None => first_unowned(alloc, opening, certificate, queue, hart),
        Some(t) => first_unowned_rest(alloc, opening, certificate, t, hart),
    }
}

/// The first such state of a hart.
fn unread_by(
    alloc: Global,
    opening: &Opening,
    certificate: &QueueCertificate,
    queue: u32,
    hart: u32,
) -> Result<Option<Unread>, Lack>
    ensures { IfOk result (λ unread. unread ≡ unread_by opening.now certificate.now queue hart) }
{
    match unowned_by(alloc, opening, certificate, queue, hart)? {
        None => Ok(None),
        Some(state) => Ok(Some(Unread { queue, hart, state })),
    }
}

/// The first such state of the queue's sender, else of its receiver.
fn unread_between(
    alloc: Global,
    opening: &Opening,
    certificate: &QueueCertificate,
    index: u32,
    sender: u32,
    receiver: u32,
) -> Result<Option<Unread>, Lack>
    ensures { IfOk result (λ unread. unread ≡ unread_between opening.now certificate.now index sender receiver) }
{
    match unread_by(alloc, opening, certificate, index, sender)? {
        None => unread_by(alloc, opening, certificate, index, receiver),
        found => Ok(found),
    }
}

/// What was found at earlier queues, else the first such state of this one.
fn unread_after(
    alloc: Global,
    opening: &Opening,
    certificate: &QueueCertificate,
    first: Option<Unread>,
    index: u32,
) -> Result<Option<Unread>, Lack>
    ensures { IfOk result (λ unread. unread ≡ first_of first (unread_of opening.now certificate.now index)) }
{
    match first {
        Some(unread) => Ok(Some(unread)),
        None => {
            let Queue {
                sender,
                receiver,
                ..
            } = slots_at(certificate, index);
            unread_between(alloc, opening, certificate, index, sender, receiver)
        }
    }
}

/// The first such state of all queues.
pub fn first_unread(
    alloc: Global,
    opening: &Opening,
    certificate: &QueueCertificate,
) -> Result<Option<Unread>, Lack>
    ensures { IfOk result (λ unread. unread ≡ first_unread opening.now certificate.now) }
{
    let mut first = None;
    for index in 0..queue_count(certificate)? {
        first = unread_after(alloc, opening, certificate, first, index)?;
    }
    Ok(first)
}

/// The pc of a hart's state; 0 where there is none.
pub fn pc_of(certificate: &QueueCertificate, hart: u32, state: u32) -> u32
    ensures { result ≡ (state_at certificate.now hart state).known.pc }
{
    match certificate.harts.get(hart as usize) {
        None => 0,
        Some(part) => match part.states.get(state as usize) {
            None => 0,
            Some(listed) => listed.known.pc,
        },
    }
}

/// Appends the place of the instruction of a hart's state.
#[tactic(auto, unfolding(crate::specs::Unread::state_place))]
pub fn push_state_place(
    out: &mut String,
    opening: &Opening,
    certificate: &QueueCertificate,
    hart: u32,
    state: u32,
) -> Result<(), AllocError>
    ensures { OnOk result (string_bytes out.new ≡ string_bytes out.old ++ state_place opening.now certificate.now hart state) }
{
    push_place(out, opening, hart, pc_of(certificate, hart, state))?;
    write!(out, ", state {state}")
}

/// Appends the place of the instruction of a hart's state, after the hart's number.
#[tactic(auto, unfolding(crate::specs::Unread::pc_place))]
pub fn push_pc_place(
    out: &mut String,
    opening: &Opening,
    certificate: &QueueCertificate,
    hart: u32,
    state: u32,
) -> Result<(), AllocError>
    ensures { OnOk result (string_bytes out.new ≡ string_bytes out.old ++ pc_place opening.now certificate.now hart state) }
{
    push_at_pc(out, opening, hart, pc_of(certificate, hart, state))?;
    write!(out, ", state {state}")
}

#[tactic(auto, unfolding(crate::specs::Unread::unread_front))]
fn push_unread_front(out: &mut String) -> Result<(), AllocError>
    ensures { OnOk result (string_bytes out.new ≡ string_bytes out.old ++ unread_front) }
{
    write!(out, "kept, but reads not shown: ")
}

#[tactic(auto, unfolding(crate::specs::Unread::unread_end))]
fn push_unread_end(out: &mut String, queue: u32) -> Result<(), AllocError>
    ensures { OnOk result (string_bytes out.new ≡ string_bytes out.old ++ unread_end queue) }
{
    writeln!(out, ", of queue {queue}")
}

pub fn push_unread(
    out: &mut String,
    opening: &Opening,
    certificate: &QueueCertificate,
    unread: Unread,
) -> Result<(), AllocError>
    ensures { OnOk result (string_bytes out.new ≡ string_bytes out.old ++ unread_line opening.now certificate.now unread) }
{
    push_unread_front(out)?;
    push_state_place(out, opening, certificate, unread.hart, unread.state)?;
    push_unread_end(out, unread.queue)
}
