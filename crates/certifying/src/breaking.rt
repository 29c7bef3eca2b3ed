//! The lines of what drawn runs show.

ghost use Rattle.std.specs.Prelude.{◌≡◌, ◌<◌, ◌++◌, ◌%◌, take, IfOk, OnOk};
ghost use Rattle.std.specs.String.{string_bytes};
ghost use Rattle.engine_support.specs.OpeningTexts.{numbered};
ghost use Rattle.certifying.specs.Broken.{broken_front, broken_line, broken_text, broken_verdict, loaded_line, loaded_text, lost_front, lost_line};
ghost use Rattle.certifying.specs.Broken.{lost_text, other_line, other_text, other_than_indices, other_than_tags, owned_text, positions_text, runs_end};
ghost use Rattle.certifying.specs.Broken.{runs_front, runs_line, schedule_lines, sent_text, shown_line, stored_line, stored_text, unlost_if};
ghost use Rattle.certifying.specs.Broken.{unlost_after_line, unlost_line, before_line, before_lines, handed_line, index_name, look_name, looked_line};
ghost use Rattle.certifying.specs.Broken.{next_line, own_name, recalled_lines, store_lines};
ghost use Rattle.certifying.specs.Queues.{any_queue, any_start, queue_count, tagged_number};
ghost use Rattle.ownership_runs.specs.Protocols.{party_for};
ghost use Rattle.ownership_runs.specs.Steps.{handed_back};
ghost use Rattle.queue_layouts.specs.Sides.{the_party};
ghost use Rattle.queue_parties.specs.Parties.{all_at};

use crate::descriptions::push_form;
use crate::instructions::push_place;
use crate::lost::Lost;
use crate::queues::{any_queue, any_start, number_of, tagged_number};
use crate::trials::counts_at;
use drawn_runs::Runs;
use known_values::Lack;
use ownership_runs::{
    Done, Loss, Moved, Owned, Recalled, Step, Violation, handed_back, party_for, pc_at, recall,
    slots_in, steps_before,
};
use queue_checker::QueueCertificate;
use queue_layouts::{AnyQueue, Party, other};
use recorder::schedule_text;
use std::alloc::{AllocError, Global};
use step_machine::{Event, Opening};

/// What begins the first line, by whether a record is lost, too.
fn push_verdict(out: &mut String, lost: bool) -> Result<(), AllocError>
    ensures { OnOk result (string_bytes out.new ≡ string_bytes out.old ++ broken_verdict lost) }
{
    if lost {
        write!(out, "broken: ")
    } else {
        write!(out, "does not keep the protocol described: ")
    }
}

fn push_broken(
    out: &mut String,
    opening: &Opening,
    lost: bool,
    violation: Violation,
    pc: u32,
) -> Result<(), AllocError>
    ensures { OnOk result (string_bytes out.new ≡ string_bytes out.old ++ broken_line lost opening.now violation pc) }
{
    push_verdict(out, lost)?;
    push_place(out, opening, violation.hart, pc)?;
    writeln!(out, "")
}

#[tactic(auto, unfolding(crate::specs::Broken::stored_text))]
fn push_stored_text(out: &mut String, index: u32, violation: Violation) -> Result<(), AllocError>
    ensures { OnOk result (string_bytes out.new ≡ string_bytes out.old ++ stored_text index violation) }
{
    let Violation {
        addr,
        width,
        value,
        ..
    } = violation;
    write!(
        out,
        "queue {index}: it stored {value} to the {width} bytes at {addr}"
    )
}

#[tactic(auto, unfolding(crate::specs::Broken::positions_text))]
fn push_positions(out: &mut String, owned: Owned) -> Result<(), AllocError>
    requires { owned.from < owned.end }
    ensures { OnOk result (string_bytes out.new ≡ string_bytes out.old ++ positions_text owned) }
{
    let from = owned.from;
    let last = owned.end - 1;
    write!(out, ", and owned positions {from} to {last}")
}

fn push_owned(out: &mut String, owned: Option<Owned>) -> Result<(), AllocError>
    ensures { OnOk result (string_bytes out.new ≡ string_bytes out.old ++ owned_text owned) }
{
    match owned {
        None => write!(out, ", and is neither party"),
        Some(owned) => {
            if owned.from < owned.end {
                push_positions(out, owned)
            } else {
                write!(out, ", and owned no position")
            }
        }
    }
}

fn push_stored(out: &mut String, index: u32, violation: Violation) -> Result<(), AllocError>
    ensures { OnOk result (string_bytes out.new ≡ string_bytes out.old ++ stored_line index violation) }
{
    push_stored_text(out, index, violation)?;
    push_owned(out, violation.owned)?;
    writeln!(out, "")
}

#[tactic(auto, unfolding(crate::specs::Broken::other_than_indices))]
fn push_other_than_indices(out: &mut String) -> Result<(), AllocError>
    ensures { OnOk result (string_bytes out.new ≡ string_bytes out.old ++ other_than_indices) }
{
    writeln!(
        out,
        "another protocol may fit: that of a queue that overwrites, that has several senders or receivers, or whose slots tell whose they are"
    )
}

#[tactic(auto, unfolding(crate::specs::Broken::other_than_tags))]
fn push_other_than_tags(out: &mut String) -> Result<(), AllocError>
    ensures { OnOk result (string_bytes out.new ≡ string_bytes out.old ++ other_than_tags) }
{
    writeln!(
        out,
        "another protocol may fit: that of a queue that overwrites, that has several senders or receivers, or of two indices and slots"
    )
}

/// What else may fit, where a queue of indices or one with tags is broken.
fn push_other(out: &mut String, tagged: Option<u32>) -> Result<(), AllocError>
    ensures { OnOk result (string_bytes out.new ≡ string_bytes out.old ++ other_line tagged) }
{
    match tagged {
        None => push_other_than_indices(out),
        Some(_) => push_other_than_tags(out),
    }
}

#[tactic(auto, unfolding(crate::specs::Broken::shown_line))]
fn push_shown(out: &mut String, stores: usize) -> Result<(), AllocError>
    ensures { OnOk result (string_bytes out.new ≡ string_bytes out.old ++ shown_line stores) }
{
    writeln!(
        out,
        "shown by this schedule, whose last event it is, with --buffer {stores}:"
    )
}

/// The lines of a schedule, over buffers of `stores` stores.
fn push_schedule(
    alloc: Global,
    out: &mut String,
    stores: usize,
    part: &[Event],
) -> Result<(), AllocError>
    ensures { OnOk result (string_bytes out.new ≡ string_bytes out.old ++ schedule_lines stores part.now) }
{
    push_shown(out, stores)?;
    let schedule = schedule_text(alloc, part)?;
    out.push_str(&schedule)
}

/// The name of the index that a party stores.
fn index_name(party: Party) -> &'static str
    ensures { result.now ≡ index_name (the_party party) }
{
    match party {
        Party::Sender => "its head",
        Party::Receiver => "its tail",
    }
}

/// The name of what a party stores to hand a position on.
fn own_name(queue: &AnyQueue, party: Party) -> &'static str
    ensures { result.now ≡ own_name queue.now (the_party party) }
{
    match queue {
        AnyQueue::Indexed(_) => index_name(party),
        AnyQueue::Tagged(_) => "a tag",
    }
}

/// The name of what it loads to own its next position.
fn look_name(queue: &AnyQueue, party: Party) -> &'static str
    ensures { result.now ≡ look_name queue.now (the_party party) }
{
    match queue {
        AnyQueue::Indexed(_) => index_name(other(party)),
        AnyQueue::Tagged(_) => "that slot's tag",
    }
}

/// A position's slot, of `size`, and 0 % 0 is 0 where there is none.
fn slot_of(size: u32, position: u128) -> u128
    ensures { result ≡ position % size }
{
    if size == 0 {
        position
    } else {
        position % u128::from(size)
    }
}

#[tactic(auto, unfolding(crate::specs::Broken::next_line))]
fn push_next(out: &mut String, index: u32, size: u32, next: u128) -> Result<(), AllocError>
    ensures { OnOk result (string_bytes out.new ≡ string_bytes out.old ++ next_line index size next) }
{
    let slot = slot_of(size, next);
    writeln!(
        out,
        "queue {index}: its next position is {next}, in slot {slot}"
    )
}

#[tactic(auto, unfolding(crate::specs::Broken::before_line))]
fn push_stored_before(
    out: &mut String,
    index: u32,
    name: &str,
    stored: Option<Done>,
) -> Result<(), AllocError>
    ensures { OnOk result (string_bytes out.new ≡ string_bytes out.old ++ before_line index name.now stored) }
{
    let Some(Done { value, pc }) = stored else {
        return Ok(());
    };
    writeln!(
        out,
        "queue {index}: before, it stored {value} to {name}, at pc {pc}"
    )
}

#[tactic(auto, unfolding(crate::specs::Broken::looked_line))]
fn push_looked(
    out: &mut String,
    index: u32,
    name: &str,
    looked: Option<Done>,
) -> Result<(), AllocError>
    ensures { OnOk result (string_bytes out.new ≡ string_bytes out.old ++ looked_line index name.now looked) }
{
    match looked {
        None => writeln!(out, "queue {index}: it never loaded {name}"),
        Some(Done { value, pc }) => writeln!(
            out,
            "queue {index}: it last loaded {name} at pc {pc}, and got {value}"
        ),
    }
}

/// The lines of what a party did before, whose next position this is.
fn push_recalled(
    out: &mut String,
    queue: &AnyQueue,
    index: u32,
    party: Party,
    next: u128,
    recalled: Recalled,
) -> Result<(), AllocError>
    ensures { OnOk result (string_bytes out.new ≡ string_bytes out.old ++ recalled_lines queue.now index (the_party party) next recalled) }
{
    push_next(out, index, slots_in(queue), next)?;
    push_stored_before(out, index, own_name(queue, party), recalled.stored)?;
    push_looked(out, index, look_name(queue, party), recalled.looked)
}

/// The lines of what the hart of a violation did before, if it is a party.
fn push_before(
    out: &mut String,
    queue: &AnyQueue,
    index: u32,
    violation: Violation,
    steps: &[Step],
) -> Result<(), AllocError>
    ensures { OnOk result (string_bytes out.new ≡ string_bytes out.old
        ++ before_lines queue.now index violation.hart (party_for queue.now violation.hart) violation.owned steps.now) }
{
    let hart = violation.hart;
    let (Some(party), Some(owned)) = (party_for(queue, hart), violation.owned) else {
        return Ok(());
    };
    let recalled = recall(queue, hart, party, owned.from, steps);
    push_recalled(out, queue, index, party, owned.from, recalled)
}

/// The lines of the store, which is one of these steps.
fn push_store(
    out: &mut String,
    opening: &Opening,
    queue: &AnyQueue,
    index: u32,
    lost: bool,
    violation: Violation,
    steps: &[Step],
) -> Result<(), AllocError>
    ensures { OnOk result (string_bytes out.new ≡ string_bytes out.old ++ store_lines lost opening.now queue.now index violation steps.now) }
{
    let pc = pc_at(steps, violation.place);
    let before = steps_before(steps, violation.place);
    push_broken(out, opening, lost, violation, pc)?;
    push_stored(out, index, violation)?;
    push_before(out, queue, index, violation, before)
}

/// The lines of the store, and those of the queue as it is described.
fn push_broken_front(
    out: &mut String,
    opening: &Opening,
    certificate: &QueueCertificate,
    index: u32,
    lost: bool,
    violation: Violation,
    steps: &[Step],
) -> Result<(), AllocError>
    requires inside { index < queue_count certificate.now }
    ensures { OnOk result (string_bytes out.new ≡ string_bytes out.old ++ broken_front lost opening.now certificate.now index violation steps.now) }
{
    let queue = any_queue(certificate, index);
    push_store(out, opening, &queue, index, lost, violation, steps)?;
    push_form(out, certificate, index)?;
    push_other(out, tagged_number(certificate, index))
}

#[tactic(auto, unfolding(crate::specs::Broken::lost_front))]
fn push_lost_front(out: &mut String) -> Result<(), AllocError>
    ensures { OnOk result (string_bytes out.new ≡ string_bytes out.old ++ lost_front) }
{
    write!(out, "a record is lost: ")
}

fn push_lost(out: &mut String, opening: &Opening, loss: Loss, pc: u32) -> Result<(), AllocError>
    ensures { OnOk result (string_bytes out.new ≡ string_bytes out.old ++ lost_line opening.now loss pc) }
{
    push_lost_front(out)?;
    push_place(out, opening, loss.hart, pc)?;
    writeln!(out, "")
}

#[tactic(auto, unfolding(crate::specs::Broken::loaded_text))]
fn push_loaded_text(out: &mut String, index: u32, loss: Loss) -> Result<(), AllocError>
    ensures { OnOk result (string_bytes out.new ≡ string_bytes out.old ++ loaded_text index loss) }
{
    let Loss {
        addr,
        width,
        value,
        ..
    } = loss;
    write!(
        out,
        "queue {index}: it loaded {value} from the {width} bytes at {addr}"
    )
}

#[tactic(auto, unfolding(crate::specs::Broken::sent_text))]
fn push_sent_text(out: &mut String, loss: Loss) -> Result<(), AllocError>
    ensures { OnOk result (string_bytes out.new ≡ string_bytes out.old ++ sent_text loss) }
{
    let Loss {
        position,
        byte,
        sent,
        ..
    } = loss;
    writeln!(
        out,
        ", of position {position}, whose byte at {byte} was sent as {sent}"
    )
}

fn push_loaded(out: &mut String, index: u32, loss: Loss) -> Result<(), AllocError>
    ensures { OnOk result (string_bytes out.new ≡ string_bytes out.old ++ loaded_line index loss) }
{
    push_loaded_text(out, index, loss)?;
    push_sent_text(out, loss)
}

#[tactic(auto, unfolding(crate::specs::Broken::handed_line))]
fn push_handed(out: &mut String, index: u32, handed: Option<u32>) -> Result<(), AllocError>
    ensures { OnOk result (string_bytes out.new ≡ string_bytes out.old ++ handed_line index handed) }
{
    let Some(pc) = handed else {
        return Ok(());
    };
    writeln!(out, "queue {index}: handed back at pc {pc}")
}

/// The line of where the position of a loss was handed back before it, if it was.
fn push_handed_back(
    out: &mut String,
    certificate: &QueueCertificate,
    index: u32,
    loss: Loss,
    steps: &[Step],
) -> Result<(), AllocError>
    ensures { OnOk result (string_bytes out.new ≡ string_bytes out.old ++ handed_line index
        (handed_back (any_queue certificate.now index) loss.position (all_at (any_start certificate.now index)) (take loss.place steps.now))) }
{
    let queue = any_queue(certificate, index);
    let start = counts_at(any_start(certificate, index));
    let before = steps_before(steps, loss.place);
    push_handed(
        out,
        index,
        handed_back(&queue, start, loss.position, before),
    )
}

/// The lines of what a run of a part of some events loses of a queue.
pub fn push_lost_text(
    alloc: Global,
    out: &mut String,
    stores: usize,
    opening: &Opening,
    certificate: &QueueCertificate,
    index: u32,
    lost: &Lost,
) -> Result<(), AllocError>
    ensures { OnOk result (string_bytes out.new ≡ string_bytes out.old
        ++ lost_text stores opening.now certificate.now index lost.now.part.items lost.now.loss lost.now.steps.items) }
{
    push_lost(out, opening, lost.loss, pc_at(&lost.steps, lost.loss.place))?;
    push_loaded(out, index, lost.loss)?;
    push_handed_back(out, certificate, index, lost.loss, &lost.steps)?;
    push_schedule(alloc, out, stores, &lost.part)
}

#[tactic(auto, unfolding(crate::specs::Broken::unlost_line))]
pub fn push_unlost(out: &mut String, runs: Runs, index: u32) -> Result<(), AllocError>
    ensures { OnOk result (string_bytes out.new ≡ string_bytes out.old ++ unlost_line runs.number runs.length index) }
{
    let Runs { number, length, .. } = runs;
    writeln!(
        out,
        "queue {index}: no record is lost in {number} drawn runs of {length} events"
    )
}

#[tactic(auto, unfolding(crate::specs::Broken::unlost_after_line))]
fn push_unlost_after(out: &mut String, runs: Runs, index: u32) -> Result<(), AllocError>
    ensures { OnOk result (string_bytes out.new ≡ string_bytes out.old ++ unlost_after_line runs.number runs.length index) }
{
    let Runs { number, length, .. } = runs;
    writeln!(
        out,
        "queue {index}: no record is lost after such a store in {number} drawn runs of {length} events"
    )
}

/// That no record is lost is asked where the protocol described has such a store of the hart then.
fn push_unlost_if(
    out: &mut String,
    described: bool,
    runs: Runs,
    index: u32,
) -> Result<(), AllocError>
    ensures { OnOk result (string_bytes out.new ≡ string_bytes out.old ++ unlost_if described runs.number runs.length index) }
{
    if described {
        push_unlost_after(out, runs, index)?;
    }
    Ok(())
}

/// The text of a run that breaks the protocol of this queue by this violation, and then loses a record of it, over buffers of `stores` stores.
pub fn broken_text(
    alloc: Global,
    stores: usize,
    opening: &Opening,
    certificate: &QueueCertificate,
    index: u32,
    violation: Violation,
    lost: &Lost,
) -> Result<String, AllocError>
    requires inside { index < queue_count certificate.now }
    ensures { IfOk result (λ text. string_bytes text
        ≡ broken_text stores opening.now certificate.now index violation lost.now.part.items lost.now.loss lost.now.steps.items) }
{
    let mut out = String::new(alloc);
    push_broken_front(
        &mut out,
        opening,
        certificate,
        index,
        true,
        violation,
        &lost.steps,
    )?;
    push_lost_text(alloc, &mut out, stores, opening, certificate, index, lost)?;
    Ok(out)
}

/// The text of a run of these events that breaks the protocol of this queue otherwise.
pub fn other_text(
    alloc: Global,
    stores: usize,
    opening: &Opening,
    certificate: &QueueCertificate,
    index: u32,
    part: &[Event],
    violation: Violation,
    steps: &[Step],
    runs: Runs,
) -> Result<String, AllocError>
    requires inside { index < queue_count certificate.now }
    ensures { IfOk result (λ text. string_bytes text
        ≡ other_text runs.number runs.length stores opening.now certificate.now index part.now violation steps.now) }
{
    let mut out = String::new(alloc);
    push_broken_front(
        &mut out,
        opening,
        certificate,
        index,
        false,
        violation,
        steps,
    )?;
    push_unlost_if(&mut out, violation.described, runs, index)?;
    push_schedule(alloc, &mut out, stores, part)?;
    Ok(out)
}

#[tactic(auto, unfolding(crate::specs::Broken::runs_front))]
fn push_runs_front(out: &mut String, index: u32, number: u32, length: u32) -> Result<(), AllocError>
    ensures { OnOk result (string_bytes out.new ≡ string_bytes out.old ++ runs_front index number length) }
{
    write!(
        out,
        "queue {index}: kept in {number} drawn runs of {length} events"
    )
}

#[tactic(auto, unfolding(crate::specs::Broken::runs_end))]
fn push_runs_end(out: &mut String, moved: Moved) -> Result<(), AllocError>
    ensures { OnOk result (string_bytes out.new ≡ string_bytes out.old ++ runs_end moved) }
{
    let Moved { published, taken } = moved;
    writeln!(
        out,
        ", in which {published} positions were published and {taken} taken"
    )
}

/// The lines of runs that keep the protocol of each queue.
pub fn push_runs(out: &mut String, number: u32, length: u32, kept: &[Moved]) -> Result<(), Lack>
    ensures { OnOk result (string_bytes out.new ≡ string_bytes out.old ++ numbered (runs_line number length) 0 kept.now) }
{
    for (place, moved) in kept.iter().enumerate() {
        let index = number_of(place)?;
        push_runs_front(out, index, number, length)?;
        push_runs_end(out, *moved)?;
    }
    Ok(())
}
