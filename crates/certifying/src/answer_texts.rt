//! The texts of answers, except those with a schedule.

ghost use Rattle.std.specs.Prelude.{◌≡◌, ◌++◌, IfOk, OnOk};
ghost use Rattle.std.specs.String.{string_bytes};
ghost use Rattle.engine_support.specs.OpeningTexts.{numbered};
ghost use Rattle.certificate_reader.specs.Known.{known_at};
ghost use Rattle.certifying.specs.Answers.{every_run_text, flaw_text, kept_protocols, kept_text, limit_of_owning, limit_of_progress, limit_of_reading};
ghost use Rattle.certifying.specs.Answers.{limit_of_records, limit_of_writing, nothing_line, progress_line, promise_end, protocol_line, rest_of_limits};
ghost use Rattle.certifying.specs.Answers.{running_line, unused_text, words};
ghost use Rattle.certifying.specs.Lines.{all_shown, first_line, limits};
ghost use Rattle.certifying.specs.Questions.{questions_by};
ghost use Rattle.certifying.specs.Broken.{runs_line};
ghost use Rattle.certifying.specs.NotShown.{flaw_line, likely_line};

use crate::breaking::push_runs;
use crate::descriptions::push_queues;
use crate::harts::HartsTold;
use crate::not_shown::{push_flaw, push_likely};
use crate::questions::Questions;
use crate::records::{QueueRecords, are_once, are_read, are_written, push_records};
use crate::unread::{Unread, push_unread};
use crate::unused::{Unused, push_unused};
use certificate_reader::push_known_at;
use drawn_runs::Runs;
use known_values::Lack;
use ownership_runs::Moved;
use queue_checker::{Flaw, QueueCertificate};
use std::alloc::{AllocError, Global};
use step_machine::Opening;

#[tactic(auto, unfolding(crate::specs::Answers::progress_line))]
fn push_progress(out: &mut String) -> Result<(), AllocError>
    ensures { OnOk result (string_bytes out.new ≡ string_bytes out.old ++ progress_line) }
{
    writeln!(out, "not promised: that anything is ever sent or received")
}

#[tactic(auto, unfolding(crate::specs::Answers::running_line))]
fn push_running(out: &mut String) -> Result<(), AllocError>
    ensures { OnOk result (string_bytes out.new ≡ string_bytes out.old ++ running_line) }
{
    writeln!(
        out,
        "not promised: that a hart is ever run, or doesn't end or stop, or that a store ever lands"
    )
}

/// What isn't promised of progress, where queues are shown to go on or not.
fn push_limit_of_progress(out: &mut String, goes: bool) -> Result<(), AllocError>
    ensures { OnOk result (string_bytes out.new ≡ string_bytes out.old ++ limit_of_progress goes) }
{
    if goes {
        push_running(out)
    } else {
        push_progress(out)
    }
}

#[tactic(auto, unfolding(crate::specs::Answers::limit_of_reading))]
fn push_limit_of_reading(out: &mut String, read: bool) -> Result<(), AllocError>
    ensures { OnOk result (string_bytes out.new ≡ string_bytes out.old ++ limit_of_reading read) }
{
    if read {
        out.push_str("not promised: that other bytes of a record are read, ")
    } else {
        out.push_str("not promised: that a record's bytes are read, ")
    }
}

fn push_limit_of_writing(out: &mut String, written: bool) -> Result<(), AllocError>
    ensures { OnOk result (string_bytes out.new ≡ string_bytes out.old ++ limit_of_writing written) }
{
    if written {
        out.push_str("that other bytes of a record are freshly written")
    } else {
        out.push_str("that a record was freshly or wholly written")
    }
}

#[tactic(auto, unfolding(crate::specs::Answers::rest_of_limits))]
fn push_rest_of_limits(out: &mut String) -> Result<(), AllocError>
    ensures { OnOk result (string_bytes out.new ≡ string_bytes out.old ++ rest_of_limits) }
{
    writeln!(
        out,
        ", what the code does with it, what memory outside of the queue holds"
    )
}

/// What isn't promised of records, where bytes of them are shown to be written, and to be read, or not.
fn push_limit_of_records(out: &mut String, written: bool, read: bool) -> Result<(), AllocError>
    ensures { OnOk result (string_bytes out.new ≡ string_bytes out.old ++ limit_of_records written read) }
{
    push_limit_of_reading(out, read)?;
    push_limit_of_writing(out, written)?;
    push_rest_of_limits(out)
}

#[tactic(auto, unfolding(crate::specs::Answers::reads_line))]
fn push_limit_of_owning(out: &mut String, owned: bool) -> Result<(), AllocError>
    ensures { OnOk result (string_bytes out.new ≡ string_bytes out.old ++ limit_of_owning owned) }
{
    if owned {
        Ok(())
    } else {
        writeln!(
            out,
            "not promised: that what is loaded from a slot is a record that the hart owns"
        )
    }
}

/// What isn't promised, where parties load only slots that they own, or not, and queues are shown to go on, if that is asked, or not.
fn push_limits(
    out: &mut String,
    opening: &Opening,
    certificate: &QueueCertificate,
    asked: Questions<'_>,
    found: &[QueueRecords],
    owned: bool,
    goes: bool,
) -> Result<(), AllocError>
    ensures { OnOk result (string_bytes out.new ≡ string_bytes out.old
        ++ words opening.now certificate.now (limits (questions_by asked.entry) found.now owned goes)) }
{
    let written = asked.written.is_some() && are_written(found);
    let read = asked.read.is_some() && are_read(found);
    push_limit_of_owning(out, owned)?;
    push_limit_of_records(out, written, read)?;
    push_limit_of_progress(out, asked.progress && goes)
}

/// Whether all is shown that was asked besides whether the queues go on, where the harts are shown to be safe, or not.
pub fn all_shown(found: &[QueueRecords], safe: bool) -> bool
    ensures { result ≡ all_shown found.now safe }
{
    are_written(found) && are_read(found) && are_once(found) && safe
}

/// The first line, by whether all that was asked is shown, and the first load that isn't shown to be of an owned slot.
fn push_first(
    out: &mut String,
    opening: &Opening,
    certificate: &QueueCertificate,
    progress: bool,
    goes: bool,
    all: bool,
    unread: Option<Unread>,
) -> Result<(), AllocError>
    ensures { OnOk result (string_bytes out.new ≡ string_bytes out.old
        ++ words opening.now certificate.now (first_line progress goes all unread)) }
{
    if let Some(unread) = unread {
        push_unread(out, opening, certificate, unread)
    } else if !goes {
        writeln!(out, "kept in every run, but not shown to go on")
    } else if !all {
        writeln!(out, "kept, but not all that was asked is shown")
    } else if progress {
        writeln!(out, "kept in every run, and goes on while its harts run")
    } else {
        writeln!(out, "kept in every run")
    }
}

#[tactic(auto, unfolding(crate::specs::Answers::every_run_text))]
fn push_every_run(out: &mut String) -> Result<(), AllocError>
    ensures { OnOk result (string_bytes out.new ≡ string_bytes out.old ++ every_run_text) }
{
    write!(
        out,
        "promised: in every legal run, of any length and schedule, with store buffers of any size, the protocol"
    )
}

fn push_kept_protocols(out: &mut String, no_index: bool, no_tag: bool) -> Result<(), AllocError>
    ensures { OnOk result (string_bytes out.new ≡ string_bytes out.old ++ kept_protocols no_index no_tag) }
{
    if no_tag {
        out.push_str(" of ownership is kept")
    } else if no_index {
        out.push_str(" of slots that tell is kept")
    } else {
        out.push_str("s of ownership and of slots that tell are kept")
    }
}

#[tactic(auto, unfolding(crate::specs::Answers::promise_end))]
fn push_promise_end(out: &mut String) -> Result<(), AllocError>
    ensures { OnOk result (string_bytes out.new ≡ string_bytes out.old ++ promise_end) }
{
    writeln!(
        out,
        ", so positions arrive in order, each once, with all that was written before"
    )
}

/// What is kept in every run, where parties load only slots that they own, or not.
fn push_protocol(
    out: &mut String,
    certificate: &QueueCertificate,
    owned: bool,
) -> Result<(), AllocError>
    ensures { OnOk result (string_bytes out.new ≡ string_bytes out.old ++ protocol_line certificate.now owned) }
{
    push_every_run(out)?;
    push_kept_protocols(
        out,
        certificate.queues.len() == 0,
        certificate.tagged.len() == 0,
    )?;
    if owned {
        push_promise_end(out)
    } else {
        writeln!(out, "")
    }
}

/// The text where the protocol is kept, with the lines of whether the queues go on and of the harts, what is found of records, whether the
/// queues are shown to go on, and whether all else is, and the first load that isn't shown to be of an owned slot.
pub fn kept_text(
    alloc: Global,
    opening: &Opening,
    certificate: &QueueCertificate,
    asked: Questions<'_>,
    going: &str,
    found: &[QueueRecords],
    told: &HartsTold,
    goes: bool,
    unread: Option<Unread>,
) -> Result<String, Lack>
    ensures { IfOk result (λ text. string_bytes text ≡ kept_text opening.now certificate.now (questions_by asked.entry) going.now found.now
        (string_bytes told.now.lines) goes told.now.safe unread) }
{
    let all = all_shown(found, told.safe);
    let owned = unread.is_none();
    let mut out = String::new(alloc);
    push_first(
        &mut out,
        opening,
        certificate,
        asked.progress,
        goes,
        all,
        unread,
    )?;
    push_queues(alloc, &mut out, opening, certificate)?;
    out.push_str(going)?;
    push_records(alloc, &mut out, opening, certificate, asked, found)?;
    out.push_str(told.lines.as_str())?;
    push_protocol(&mut out, certificate, owned)?;
    push_limits(&mut out, opening, certificate, asked, found, owned, goes)?;
    Ok(out)
}

/// The text of a queue that isn't used.
pub fn unused_text(alloc: Global, unused: Unused) -> Result<String, AllocError>
    ensures { IfOk result (λ text. string_bytes text ≡ unused_text unused) }
{
    let mut out = String::new(alloc);
    push_unused(&mut out, unused)?;
    writeln!(out, "nothing is claimed")?;
    Ok(out)
}

/// The text of a flaw.
pub fn flaw_text(
    alloc: Global,
    opening: &Opening,
    certificate: &QueueCertificate,
    flaw: Flaw,
) -> Result<String, AllocError>
    ensures { IfOk result (λ text. string_bytes text ≡ flaw_text opening.now certificate.now flaw) }
{
    let mut out = String::new(alloc);
    push_flaw(&mut out, opening, certificate, flaw)?;
    push_likely(&mut out, opening, certificate, flaw)?;
    writeln!(out, "nothing is claimed")?;
    Ok(out)
}

/// The text of runs that keep the protocol of each queue.
pub fn tried_text(
    alloc: Global,
    opening: &Opening,
    certificate: &QueueCertificate,
    flaw: Flaw,
    runs: Runs,
    kept: &[Moved],
) -> Result<String, Lack>
    ensures { IfOk result (λ text. string_bytes text ≡ flaw_line opening.now certificate.now flaw ++ known_at certificate.now flaw
        ++ likely_line opening.now certificate.now flaw ++ numbered (runs_line runs.number runs.length) 0 kept.now ++ nothing_line) }
{
    let mut out = String::new(alloc);
    push_flaw(&mut out, opening, certificate, flaw)?;
    push_known_at(&mut out, certificate, flaw)?;
    push_likely(&mut out, opening, certificate, flaw)?;
    push_runs(&mut out, runs.number, runs.length, kept)?;
    writeln!(out, "nothing is claimed")?;
    Ok(out)
}
