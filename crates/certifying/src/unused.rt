//! Certificates of no queue, and queues that a text doesn't use.

ghost use Rattle.std.specs.Prelude.{◌≡◌, ◌++◌, IfOk, OnOk, length};
ghost use Rattle.std.specs.String.{string_bytes};
ghost use Rattle.queue_checker.specs.Flaws.{first_below, first_of};
ghost use Rattle.certifying.specs.Queues.{accesses_at, queue_count, slots_at};
ghost use Rattle.certifying.specs.Unused.{first_unused, has_load, has_store, no_load_line, no_store_line, unused_by, unused_line};

use crate::queues::{accesses_at, queue_count, slots_at};
use known_values::{Lack, Queue};
use queue_checker::{QueueCertificate, SlotAccess};
use std::alloc::{AllocError, Global};
use step_machine::Opening;

/// Why a certificate says nothing of a text: it has no queue, or this queue's slots have no byte, none of them may be in use, one of its
/// parties is no hart of the text, or no instruction of its sender, this hart, stores to them, or of its receiver loads from them.
#[derive(Clone, Copy)]
pub enum Unused {
    NoQueue,
    NoBytes(u32),
    NoRoom(u32),
    NoHart(u32),
    NoStore(u32, u32),
    NoLoad(u32, u32),
}

fn has_store(hart: u32, accesses: &[SlotAccess]) -> bool
    ensures { result ≡ has_store hart accesses.now }
{
    accesses
        .iter()
        .any(|access| access.hart == hart && access.stores)
}

fn has_load(hart: u32, accesses: &[SlotAccess]) -> bool
    ensures { result ≡ has_load hart accesses.now }
{
    accesses
        .iter()
        .any(|access| access.hart == hart && access.loads)
}

/// Why a queue with these accesses to its slots isn't used, in a text of this number of harts.
fn unused_by(harts: usize, index: u32, queue: Queue, accesses: &[SlotAccess]) -> Option<Unused>
    ensures { result ≡ unused_by harts index queue accesses.now }
{
    if queue.width == 0 {
        return Some(Unused::NoBytes(index));
    }
    if queue.capacity == 0 {
        return Some(Unused::NoRoom(index));
    }
    if queue.sender as usize >= harts || queue.receiver as usize >= harts {
        return Some(Unused::NoHart(index));
    }
    if !has_store(queue.sender, accesses) {
        return Some(Unused::NoStore(index, queue.sender));
    }
    if !has_load(queue.receiver, accesses) {
        return Some(Unused::NoLoad(index, queue.receiver));
    }
    None
}

/// What was found at earlier queues, else why this one isn't used.
fn unused_after(
    alloc: Global,
    opening: &Opening,
    certificate: &QueueCertificate,
    first: Option<Unused>,
    index: u32,
) -> Result<Option<Unused>, Lack>
    ensures { IfOk result (λ unused. unused ≡ first_of first
        (unused_by (length opening.now.harts) index (slots_at certificate.now index) (accesses_at opening.now certificate.now index))) }
{
    match first {
        Some(unused) => Ok(Some(unused)),
        None => {
            let accesses = accesses_at(alloc, opening, certificate, index)?;
            let queue = slots_at(certificate, index);
            Ok(unused_by(opening.harts.len(), index, queue, &accesses))
        }
    }
}

fn unused_of_queues(
    alloc: Global,
    opening: &Opening,
    certificate: &QueueCertificate,
) -> Result<Option<Unused>, Lack>
    ensures { IfOk result (λ unused. unused ≡ first_below (queue_count certificate.now)
        (λ i. unused_by (length opening.now.harts) i (slots_at certificate.now i) (accesses_at opening.now certificate.now i))) }
{
    let mut first = None;
    for index in 0..queue_count(certificate)? {
        first = unused_after(alloc, opening, certificate, first, index)?;
    }
    Ok(first)
}

/// The first queue of a certificate that the text doesn't use.
pub fn first_unused(
    alloc: Global,
    opening: &Opening,
    certificate: &QueueCertificate,
) -> Result<Option<Unused>, Lack>
    ensures { IfOk result (λ unused. unused ≡ first_unused opening.now certificate.now) }
{
    if certificate.queues.is_empty() && certificate.tagged.is_empty() {
        return Ok(Some(Unused::NoQueue));
    }
    unused_of_queues(alloc, opening, certificate)
}

#[tactic(auto, unfolding(crate::specs::Unused::no_store_line))]
fn push_no_store(out: &mut String, index: u32, hart: u32) -> Result<(), AllocError>
    ensures { OnOk result (string_bytes out.new ≡ string_bytes out.old ++ no_store_line index hart) }
{
    writeln!(
        out,
        "not shown: no instruction of hart {hart} stores to a slot of queue {index}"
    )
}

#[tactic(auto, unfolding(crate::specs::Unused::no_load_line))]
fn push_no_load(out: &mut String, index: u32, hart: u32) -> Result<(), AllocError>
    ensures { OnOk result (string_bytes out.new ≡ string_bytes out.old ++ no_load_line index hart) }
{
    writeln!(
        out,
        "not shown: no instruction of hart {hart} loads from a slot of queue {index}"
    )
}

pub fn push_unused(out: &mut String, unused: Unused) -> Result<(), AllocError>
    ensures { OnOk result (string_bytes out.new ≡ string_bytes out.old ++ unused_line unused) }
{
    match unused {
        Unused::NoQueue => writeln!(out, "not shown: the certificate has no queue"),
        Unused::NoBytes(index) => {
            writeln!(out, "not shown: queue {index} has slots without a byte")
        }
        Unused::NoRoom(index) => {
            writeln!(
                out,
                "not shown: queue {index} has no slot that may be in use"
            )
        }
        Unused::NoHart(index) => writeln!(
            out,
            "not shown: queue {index} has a party that is no hart of the text"
        ),
        Unused::NoStore(index, hart) => push_no_store(out, index, hart),
        Unused::NoLoad(index, hart) => push_no_load(out, index, hart),
    }
}
