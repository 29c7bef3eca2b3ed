//! Where a certificate isn't accepted, and what is likely.

ghost use Rattle.std.specs.Prelude.{◌≡◌, ◌++◌, IfOk, OnOk};
ghost use Rattle.std.specs.String.{string_bytes};
ghost use Rattle.certifying.specs.NotShown.{flaw_line, is_unlisted, likely_opening, opening_line, queue_fault, tagged_fault};
ghost use Rattle.certifying.specs.NotShown.{likely_at, likely_jump, likely_line, likely_load, likely_of, likely_other, likely_store};

use crate::instructions::instruction_of;
use crate::unread::{pc_of, push_state_place};
use queue_checker::{Flaw, QueueCertificate, QueueFlaw, TaggedFlaw};
use rv_decode::Instr;
use std::alloc::AllocError;
use step_machine::Opening;

/// Whether a certificate lists no state of a hart.
fn is_unlisted(certificate: &QueueCertificate, hart: u32) -> bool
    ensures { result ≡ is_unlisted certificate.now hart }
{
    match certificate.harts.get(hart as usize) {
        None => true,
        Some(part) => part.states.is_empty(),
    }
}

fn push_opening(out: &mut String, unlisted: bool, hart: u32) -> Result<(), AllocError>
    ensures { OnOk result (string_bytes out.new ≡ string_bytes out.old ++ opening_line unlisted hart) }
{
    if unlisted {
        writeln!(
            out,
            "not shown: the certificate has no state of hart {hart}"
        )
    } else {
        writeln!(
            out,
            "not shown: hart {hart} opens in another state than the certificate says"
        )
    }
}

fn push_likely_opening(out: &mut String, unlisted: bool) -> Result<(), AllocError>
    ensures { OnOk result (string_bytes out.new ≡ string_bytes out.old ++ likely_opening unlisted) }
{
    if unlisted {
        writeln!(
            out,
            "likely: the search for its states found none, which says nothing of the queue"
        )
    } else {
        writeln!(
            out,
            "likely: the certificate is of another text, or of another opening of this one"
        )
    }
}

/// What is wrong with a queue with indices.
fn push_queue_fault(out: &mut String, why: QueueFlaw) -> Result<(), AllocError>
    ensures { OnOk result (string_bytes out.new ≡ string_bytes out.old ++ queue_fault why) }
{
    match why {
        QueueFlaw::OneHart => out.push_str(" has one hart as its sender and its receiver"),
        QueueFlaw::IndicesMeet => out.push_str(" has a head and a tail that overlap"),
        QueueFlaw::IndexMeetsSlots => out.push_str(" has an index that overlaps its slots"),
        QueueFlaw::NoSlot => out.push_str(" has no slot"),
        QueueFlaw::FewSlots => out.push_str(" has fewer slots than may be in use"),
        QueueFlaw::NoCounts => out.push_str(" has a modulus or a scale of 0"),
        QueueFlaw::NoIndex => out.push_str(" has indices without a byte"),
        QueueFlaw::WideIndex => out.push_str(
            " has words that don't fit the bytes of its indices, which are at most 4",
        ),
        QueueFlaw::FewCounts => out.push_str(
            " has indices that don't tell all slots in use from none",
        ),
        QueueFlaw::Head => out.push_str(
            " has a head that opens as another word than that of its count",
        ),
        QueueFlaw::Tail => out.push_str(
            " has a tail that opens as another word than that of its count",
        ),
        QueueFlaw::WideField => out.push_str(
            " has a field that reaches past its slot, or a number that doesn't fit its bytes",
        ),
    }
}

/// What is wrong with a queue with tags.
fn push_tagged_fault(out: &mut String, why: TaggedFlaw) -> Result<(), AllocError>
    ensures { OnOk result (string_bytes out.new ≡ string_bytes out.old ++ tagged_fault why) }
{
    match why {
        TaggedFlaw::OneHart => out.push_str(" has one hart as its sender and its receiver"),
        TaggedFlaw::NoSlot => out.push_str(" has no slot"),
        TaggedFlaw::NoTag => out.push_str(" has a tag without a byte"),
        TaggedFlaw::WideTag => out.push_str(" has a tag of more than 4 bytes"),
        TaggedFlaw::PastSlot => out.push_str(" has a tag that reaches past its slot"),
        TaggedFlaw::Overlapping => out.push_str(" has tags that overlap its slots"),
        TaggedFlaw::NarrowNumber => out.push_str(" has numbers in a tag that isn't a word"),
        TaggedFlaw::SameNumbers => out.push_str(
            " has numbers that are the same for free and for full slots",
        ),
        TaggedFlaw::WideMask => { out.push_str(" has a mask with bits that its tag doesn't have") }
        TaggedFlaw::SameBits => {
            out.push_str(" has bits that are the same for free and for full slots")
        }
        TaggedFlaw::OutsideMask => {
            out.push_str(" has bits for free or full slots that its mask doesn't have")
        }
        TaggedFlaw::NotFree => out.push_str(" has a slot that isn't free where it opens"),
    }
}

pub fn push_flaw(
    out: &mut String,
    opening: &Opening,
    certificate: &QueueCertificate,
    flaw: Flaw,
) -> Result<(), AllocError>
    ensures { OnOk result (string_bytes out.new ≡ string_bytes out.old ++ flaw_line opening.now certificate.now flaw) }
{
    match flaw {
        Flaw::Queue(queue, why) => {
            write!(out, "not shown: queue {queue}")?;
            push_queue_fault(out, why)?;
            writeln!(out, "")
        }
        Flaw::Tagged(tagged, why) => {
            let queue = certificate.queues.len() + tagged as usize;
            write!(out, "not shown: queue {queue}")?;
            push_tagged_fault(out, why)?;
            writeln!(out, "")
        }
        Flaw::Opening(hart) => push_opening(out, is_unlisted(certificate, hart), hart),
        Flaw::State { hart, state } => {
            write!(out, "not shown: ")?;
            push_state_place(out, opening, certificate, hart, state)?;
            writeln!(out, "")
        }
    }
}

#[tactic(auto, unfolding(crate::specs::NotShown::likely_store))]
fn push_likely_store(out: &mut String) -> Result<(), AllocError>
    ensures { OnOk result (string_bytes out.new ≡ string_bytes out.old ++ likely_store) }
{
    writeln!(
        out,
        "likely: it may store to a slot that the hart doesn't own, to another hart's words, or another count to its index"
    )
}

#[tactic(auto, unfolding(crate::specs::NotShown::likely_load))]
fn push_likely_load(out: &mut String) -> Result<(), AllocError>
    ensures { OnOk result (string_bytes out.new ≡ string_bytes out.old ++ likely_load) }
{
    writeln!(
        out,
        "likely: it may load a part of the other party's index, or leads to a state that isn't listed"
    )
}

#[tactic(auto, unfolding(crate::specs::NotShown::likely_jump))]
fn push_likely_jump(out: &mut String) -> Result<(), AllocError>
    ensures { OnOk result (string_bytes out.new ≡ string_bytes out.old ++ likely_jump) }
{
    writeln!(
        out,
        "likely: where it jumps isn't known, or it leads to a state that isn't listed"
    )
}

#[tactic(auto, unfolding(crate::specs::NotShown::likely_other))]
fn push_likely_other(out: &mut String) -> Result<(), AllocError>
    ensures { OnOk result (string_bytes out.new ≡ string_bytes out.old ++ likely_other) }
{
    writeln!(
        out,
        "likely: it leads to a state that isn't listed, as where the certificate is of another text"
    )
}

/// What is likely where a hart's state isn't closed under this instruction.
fn push_likely_of(out: &mut String, instr: Instr) -> Result<(), AllocError>
    ensures { OnOk result (string_bytes out.new ≡ string_bytes out.old ++ likely_of instr) }
{
    match instr {
        Instr::Store { .. } => push_likely_store(out),
        Instr::Amo { .. } => push_likely_store(out),
        Instr::Load { .. } => push_likely_load(out),
        Instr::Jalr { .. } => push_likely_jump(out),
        Instr::Lui { .. } => push_likely_other(out),
        Instr::Auipc { .. } => push_likely_other(out),
        Instr::Jal { .. } => push_likely_other(out),
        Instr::Branch { .. } => push_likely_other(out),
        Instr::Immediate { .. } => push_likely_other(out),
        Instr::Shift { .. } => push_likely_other(out),
        Instr::Register { .. } => push_likely_other(out),
        Instr::Fence { .. } => push_likely_other(out),
        Instr::FenceTso => push_likely_other(out),
        Instr::Ecall => push_likely_other(out),
        Instr::Ebreak => push_likely_other(out),
    }
}

fn push_likely_at(out: &mut String, instr: Option<Instr>) -> Result<(), AllocError>
    ensures { OnOk result (string_bytes out.new ≡ string_bytes out.old ++ likely_at instr) }
{
    match instr {
        None => push_likely_other(out),
        Some(instr) => push_likely_of(out, instr),
    }
}

/// What is likely where a certificate has this flaw.
pub fn push_likely(
    out: &mut String,
    opening: &Opening,
    certificate: &QueueCertificate,
    flaw: Flaw,
) -> Result<(), AllocError>
    ensures { OnOk result (string_bytes out.new ≡ string_bytes out.old ++ likely_line opening.now certificate.now flaw) }
{
    match flaw {
        Flaw::Queue(..) | Flaw::Tagged(..) => {
            writeln!(out, "likely: the queue isn't described as the text has it")
        }
        Flaw::Opening(hart) => push_likely_opening(out, is_unlisted(certificate, hart)),
        Flaw::State { hart, state } => {
            push_likely_at(
                out,
                instruction_of(opening, hart, pc_of(certificate, hart, state)),
            )
        }
    }
}
