//! Whether the parties of queues go on, in lines.

ghost use Rattle.std.specs.Prelude.{◌≡◌, ◌++◌, IfOk, OnOk, true};
ghost use Rattle.std.specs.String.{string_bytes};
ghost use Rattle.certifying.specs.Answers.{texts};
ghost use Rattle.certifying.specs.Going.{arrives_line, arrives_or_ends_line, arriving_line, blind_front, elsewhere_line, few_text, goes_on, idle_front};
ghost use Rattle.certifying.specs.Going.{level_end, many_text, moves_front, moves_line, moving_line, moving_lines, none_text, one_text, party_line};
ghost use Rattle.certifying.specs.Going.{still_line, unranked_end, waiting_end, waiting_front, waiting_line, within_end};
ghost use Rattle.certifying.specs.Lines.{all_going, all_going_lines, going_lines, is_going, party_at};

use crate::endings::{Endings, both_run, endings_at, neither_stops};
use crate::queues::{number_in, queue_count, slots_at, tagged_number};
use crate::records::doing_hart;
use crate::together::{Both, Bound, PartyProgress, both_in, party_in, push_together};
use crate::unread::push_pc_place;
use certificate_reader::push_known_at;
use known_values::lack::sum;
use known_values::{Lack, Queue};
use queue_checker::{Flaw, QueueCertificate};
use std::alloc::{AllocError, Global};
use step_machine::Opening;

// ---- of one party: whether it sends

#[tactic(auto, unfolding(crate::specs::Going::moves_front))]
fn push_moves_front(out: &mut String, sends: bool, index: u32, hart: u32) -> Result<(), AllocError>
    ensures { OnOk result (string_bytes out.new ≡ string_bytes out.old ++ moves_front sends index hart) }
{
    if sends {
        write!(
            out,
            "queue {index}: hart {hart} publishes, or looks and finds "
        )
    } else {
        write!(out, "queue {index}: hart {hart} takes, or looks and finds ")
    }
}

fn push_none(out: &mut String, sends: bool) -> Result<(), AllocError>
    ensures { OnOk result (string_bytes out.new ≡ string_bytes out.old ++ none_text sends) }
{
    if sends {
        out.push_str("no slot free")
    } else {
        out.push_str("no record")
    }
}

fn push_one(out: &mut String, sends: bool) -> Result<(), AllocError>
    ensures { OnOk result (string_bytes out.new ≡ string_bytes out.old ++ one_text sends) }
{
    if sends {
        out.push_str("at most 1 slot free")
    } else {
        out.push_str("at most 1 record")
    }
}

#[tactic(auto, unfolding(crate::specs::Going::many_text))]
fn push_many(out: &mut String, sends: bool, number: u64) -> Result<(), AllocError>
    ensures { OnOk result (string_bytes out.new ≡ string_bytes out.old ++ many_text sends number) }
{
    if sends {
        write!(out, "at most {number} slots free")
    } else {
        write!(out, "at most {number} records")
    }
}

fn push_few(out: &mut String, sends: bool, number: u64) -> Result<(), AllocError>
    ensures { OnOk result (string_bytes out.new ≡ string_bytes out.old ++ few_text sends number) }
{
    if number == 0 {
        push_none(out, sends)
    } else if number == 1 {
        push_one(out, sends)
    } else {
        push_many(out, sends, number)
    }
}

#[tactic(auto, unfolding(crate::specs::Going::within_end))]
fn push_within(out: &mut String, number: u64, other: u32) -> Result<(), AllocError>
    ensures { OnOk result (string_bytes out.new ≡ string_bytes out.old ++ within_end number other) }
{
    writeln!(
        out,
        ", within {number} of its instructions, whatever hart {other} does"
    )
}

fn push_moves(
    out: &mut String,
    sends: bool,
    index: u32,
    hart: u32,
    other: u32,
    bound: Bound,
) -> Result<(), AllocError>
    ensures { OnOk result (string_bytes out.new ≡ string_bytes out.old ++ moves_line sends index hart other bound) }
{
    push_moves_front(out, sends, index, hart)?;
    push_few(out, sends, bound.owned)?;
    push_within(out, bound.within, other)
}

#[tactic(auto, unfolding(crate::specs::Going::idle_front))]
fn push_idle_front(out: &mut String, sends: bool, index: u32, hart: u32) -> Result<(), AllocError>
    ensures { OnOk result (string_bytes out.new ≡ string_bytes out.old ++ idle_front sends index hart) }
{
    if sends {
        write!(
            out,
            "queue {index}: not shown that hart {hart} publishes, or finds no slot free: "
        )
    } else {
        write!(
            out,
            "queue {index}: not shown that hart {hart} takes, or finds no record: "
        )
    }
}

#[tactic(auto, unfolding(crate::specs::Going::blind_front))]
fn push_blind_front(out: &mut String, sends: bool, index: u32, hart: u32) -> Result<(), AllocError>
    ensures { OnOk result (string_bytes out.new ≡ string_bytes out.old ++ blind_front sends index hart) }
{
    if sends {
        write!(
            out,
            "queue {index}: not shown that hart {hart} publishes, or looks for a free slot: "
        )
    } else {
        write!(
            out,
            "queue {index}: not shown that hart {hart} takes, or looks for a record: "
        )
    }
}

/// A state of which the rank doesn't fall, with what is known there.
fn push_level(
    out: &mut String,
    opening: &Opening,
    certificate: &QueueCertificate,
    hart: u32,
    state: u32,
) -> Result<(), AllocError>
    ensures { OnOk result (string_bytes out.new ≡ string_bytes out.old ++ level_end opening.now certificate.now hart state) }
{
    push_pc_place(out, opening, certificate, hart, state)?;
    writeln!(out, "")?;
    push_known_at(out, certificate, Flaw::State { hart, state })
}

fn push_unranked(out: &mut String) -> Result<(), AllocError>
    ensures { OnOk result (string_bytes out.new ≡ string_bytes out.old ++ unranked_end) }
{
    out.push_str("the certificate has no ranks for it (tools/certify --rank finds them)\n")
}

/// The lines of a party.
fn push_party(
    out: &mut String,
    opening: &Opening,
    certificate: &QueueCertificate,
    sends: bool,
    index: u32,
    hart: u32,
    other: u32,
    progress: PartyProgress,
) -> Result<(), AllocError>
    ensures { OnOk result (string_bytes out.new ≡ string_bytes out.old ++ party_line opening.now certificate.now sends index hart other progress) }
{
    match progress {
        PartyProgress::Alone(bound) => push_moves(out, sends, index, hart, other, bound),
        PartyProgress::Together(bound) => push_together(out, index, hart, bound),
        PartyProgress::NoPace(state) => {
            push_idle_front(out, sends, index, hart)?;
            push_level(out, opening, certificate, hart, state)
        }
        PartyProgress::NoLook(state) => {
            push_blind_front(out, sends, index, hart)?;
            push_level(out, opening, certificate, hart, state)
        }
        PartyProgress::Unranked => {
            push_idle_front(out, sends, index, hart)?;
            push_unranked(out)
        }
    }
}

// ---- of both parties

#[tactic(auto, unfolding(crate::specs::Going::moving_line))]
fn push_moving(out: &mut String, tags: bool, index: u32) -> Result<(), AllocError>
    ensures { OnOk result (string_bytes out.new ≡ string_bytes out.old ++ moving_line tags index) }
{
    if tags {
        writeln!(
            out,
            "queue {index}: whenever no store to a tag is pending and both harts run on, more is published or taken"
        )
    } else {
        writeln!(
            out,
            "queue {index}: whenever both indices have landed and both harts run on, more is published or taken"
        )
    }
}

/// The lines of both parties, and that they move on.
fn push_moving_both(
    out: &mut String,
    tags: bool,
    index: u32,
    queue: Queue,
    both: Both,
) -> Result<(), AllocError>
    ensures { OnOk result (string_bytes out.new ≡ string_bytes out.old ++ moving_lines tags index queue both) }
{
    let Queue {
        sender,
        receiver,
        ..
    } = queue;
    push_moves(out, true, index, sender, receiver, both.sends)?;
    push_moves(out, false, index, receiver, sender, both.receives)?;
    push_moving(out, tags, index)
}

#[tactic(auto, unfolding(crate::specs::Going::waiting_front))]
fn push_waiting_front(
    out: &mut String,
    index: u32,
    sender: u32,
    slots: u64,
) -> Result<(), AllocError>
    ensures { OnOk result (string_bytes out.new ≡ string_bytes out.old ++ waiting_front index sender slots) }
{
    write!(
        out,
        "queue {index}: not shown that more is published or taken: hart {sender} may wait for {slots} free slots and hart "
    )
}

#[tactic(auto, unfolding(crate::specs::Going::waiting_end))]
fn push_waiting_end(
    out: &mut String,
    receiver: u32,
    records: u64,
    capacity: u32,
) -> Result<(), AllocError>
    ensures { OnOk result (string_bytes out.new ≡ string_bytes out.old ++ waiting_end receiver records capacity) }
{
    writeln!(out, "{receiver} for {records} records, of {capacity}")
}

fn push_waiting(
    out: &mut String,
    index: u32,
    queue: Queue,
    slots: u64,
    records: u64,
) -> Result<(), AllocError>
    ensures { OnOk result (string_bytes out.new ≡ string_bytes out.old ++ waiting_line index queue slots records) }
{
    push_waiting_front(out, index, queue.sender, slots)?;
    push_waiting_end(out, queue.receiver, records, queue.capacity)
}

#[tactic(auto, unfolding(crate::specs::Going::elsewhere_line))]
fn push_elsewhere(out: &mut String, index: u32) -> Result<(), AllocError>
    ensures { OnOk result (string_bytes out.new ≡ string_bytes out.old ++ elsewhere_line index) }
{
    writeln!(
        out,
        "queue {index}: not shown that more is published or taken: its harts may move on elsewhere, or wait for one another"
    )
}

/// Whether it goes on, in this queue or in all its queues together.
fn goes_on(progress: PartyProgress) -> bool
    ensures { result ≡ goes_on progress }
{
    match progress {
        PartyProgress::Alone(_) => true,
        PartyProgress::Together(_) => true,
        PartyProgress::NoPace(_) => false,
        PartyProgress::NoLook(_) => false,
        PartyProgress::Unranked => false,
    }
}

#[tactic(auto, unfolding(crate::specs::Going::arrives_line))]
fn push_arrives(out: &mut String, index: u32) -> Result<(), AllocError>
    ensures { OnOk result (string_bytes out.new ≡ string_bytes out.old ++ arrives_line index) }
{
    writeln!(
        out,
        "queue {index}: every run can go on until more is published or taken"
    )
}

#[tactic(auto, unfolding(crate::specs::Going::arrives_or_ends_line))]
fn push_arrives_or_ends(out: &mut String, index: u32) -> Result<(), AllocError>
    ensures { OnOk result (string_bytes out.new ≡ string_bytes out.old ++ arrives_or_ends_line index) }
{
    writeln!(
        out,
        "queue {index}: every run can go on until more is published or taken, or one of its harts has ended"
    )
}

/// The line of whether more arrives, of two parties that move on, if neither is ever stopped, and by whether both always run.
fn push_arriving(out: &mut String, index: u32, unstopped: bool, run: bool) -> Result<(), AllocError>
    ensures { OnOk result (string_bytes out.new ≡ string_bytes out.old ++ arriving_line index unstopped run) }
{
    if !unstopped {
        Ok(())
    } else if run {
        push_arrives(out, index)
    } else {
        push_arrives_or_ends(out, index)
    }
}

/// The line of parties that aren't shown to move on, where both go on.
fn push_still(
    out: &mut String,
    index: u32,
    queue: Queue,
    sender: PartyProgress,
    receiver: PartyProgress,
) -> Result<(), Lack>
    ensures { OnOk result (string_bytes out.new ≡ string_bytes out.old ++ still_line index queue sender receiver) }
{
    match (sender, receiver) {
        (PartyProgress::Alone(sends), PartyProgress::Alone(receives)) => {
            let slots = sum(sends.owned, 1)?;
            let records = sum(receives.owned, 1)?;
            push_waiting(out, index, queue, slots, records)?;
        }
        _ => {
            if goes_on(sender) && goes_on(receiver) {
                push_elsewhere(out, index)?;
            }
        }
    }
    Ok(())
}

// ---- of a queue

/// What is found of a party.
#[tactic(auto, unfolding(crate::specs::Lines::party_at))]
fn party_at(
    alloc: Global,
    opening: &Opening,
    certificate: &QueueCertificate,
    index: u32,
    sends: bool,
) -> Result<PartyProgress, Lack>
    ensures { IfOk result (λ found. found ≡ party_at opening.now certificate.now index sends) }
{
    let hart = doing_hart(certificate, sends, index);
    let queue = number_in(certificate, index);
    party_in(alloc, opening, certificate, queue, hart)
}

/// Appends the lines of a queue, and returns whether it is shown to go on.
#[tactic(auto, unfolding(crate::specs::Lines::going_lines, crate::specs::Lines::both_at))]
fn push_queue(
    alloc: Global,
    out: &mut String,
    opening: &Opening,
    certificate: &QueueCertificate,
    endings: &[Endings],
    index: u32,
) -> Result<bool, Lack>
    ensures lines { OnOk result (string_bytes out.new ≡ string_bytes out.old
        ++ texts opening.now certificate.now (going_lines opening.now certificate.now endings.now index)) }
    ensures going { IfOk result (λ going. going ≡ is_going opening.now certificate.now index) }
{
    let queue = slots_at(certificate, index);
    let sends = party_at(alloc, opening, certificate, index, true)?;
    let receives = party_at(alloc, opening, certificate, index, false)?;
    match both_in(queue.capacity, sends, receives)? {
        Some(both) => {
            let tags = tagged_number(certificate, index).is_some();
            let sender = endings_at(endings, queue.sender);
            let receiver = endings_at(endings, queue.receiver);
            push_moving_both(out, tags, index, queue, both)?;
            push_arriving(
                out,
                index,
                neither_stops(sender, receiver),
                both_run(sender, receiver),
            )?;
            Ok(true)
        }
        None => {
            let Queue {
                sender,
                receiver,
                ..
            } = queue;
            push_party(
                out,
                opening,
                certificate,
                true,
                index,
                sender,
                receiver,
                sends,
            )?;
            push_party(
                out,
                opening,
                certificate,
                false,
                index,
                receiver,
                sender,
                receives,
            )?;
            push_still(out, index, queue, sends, receives)?;
            Ok(false)
        }
    }
}

/// Appends the lines of whether each queue goes on, by where harts may be stopped, and where they may end. It returns whether each is shown
/// to go on.
#[tactic(auto, using(crate::proofs::LineLaws::texts_append))]
fn push_all(
    alloc: Global,
    out: &mut String,
    opening: &Opening,
    certificate: &QueueCertificate,
    endings: &[Endings],
) -> Result<bool, Lack>
    ensures lines { OnOk result (string_bytes out.new ≡ string_bytes out.old
        ++ texts opening.now certificate.now (all_going_lines opening.now certificate.now endings.now true)) }
    ensures going { IfOk result (λ going. going ≡ all_going opening.now certificate.now true) }
{
    let mut all = true;
    for index in 0..queue_count(certificate)? {
        let going = push_queue(alloc, out, opening, certificate, endings, index)?;
        all = going && all;
    }
    Ok(all)
}

/// The same, if it is asked.
pub fn push_going(
    alloc: Global,
    out: &mut String,
    opening: &Opening,
    certificate: &QueueCertificate,
    endings: &[Endings],
    asked: bool,
) -> Result<bool, Lack>
    ensures lines { OnOk result (string_bytes out.new ≡ string_bytes out.old
        ++ texts opening.now certificate.now (all_going_lines opening.now certificate.now endings.now asked)) }
    ensures going { IfOk result (λ going. going ≡ all_going opening.now certificate.now asked) }
{
    if asked {
        push_all(alloc, out, opening, certificate, endings)
    } else {
        Ok(true)
    }
}
