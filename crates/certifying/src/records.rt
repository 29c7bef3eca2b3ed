//! Whether the senders of queues write bytes of their records, and the receivers read them, once.

ghost use Rattle.std.specs.Prelude.{ℕ, ◌≡◌, ◌++◌, IfOk, OnOk, MatchOption, length, option_map};
ghost use Rattle.std.specs.String.{string_bytes};
ghost use Rattle.engine_support.specs.OpeningTexts.{numbered};
ghost use Rattle.record_bytes.specs.declared.ranges.ByteRange.{ByteRange};
ghost use Rattle.record_bytes.specs.Ranges.{has_byte};
ghost use Rattle.records_written.specs.declared.finding.Missing.{Missing};
ghost use Rattle.certifying.specs.Descriptions.{queue_front};
ghost use Rattle.certifying.specs.Questions.{questions_by};
ghost use Rattle.certifying.specs.Queues.{number_in, queue_count};
ghost use Rattle.certifying.specs.Records.{AreFoundFrom, IsFirstNot, IsFound, IsFoundFor, IsShownTo, are_once, are_read, are_written, asked_line};
ghost use Rattle.certifying.specs.Records.{asked_ranges, doing_hart, done_text, is_rest, is_senders, is_shown, lines_of_queue, missing_end, none_line};
ghost use Rattle.certifying.specs.Records.{of_each, once_asked, record_line, record_lines, rest_ranges, shown_end, shown_line, tag_line, unshown_front};

use crate::byte_texts::{is_one_byte, push_bytes};
use crate::questions::Questions;
use crate::queues::{number_in, number_of, queue_count, slots_at, tag_range};
use crate::unread::push_pc_place;
use known_values::Lack;
use queue_checker::QueueCertificate;
use record_bytes::{ByteRange, ranges_in, ranges_without};
use records_written::{Missing, QueueNumber, first_again, first_unread, first_unwritten};
use std::alloc::{AllocError, Global};
use step_machine::Opening;

/// What may be asked of bytes of a queue's records.
#[derive(Clone, Copy)]
pub enum Deed {
    /// That the sender writes them before it publishes the record.
    Writes,
    /// That the receiver reads them before it hands the record's slot back.
    Reads,
    /// That the receiver reads them at most once, and none after one of a later record.
    ReadsOnce,
}

/// Whether it is the sender that is asked about.
fn is_senders(deed: Deed) -> bool
    ensures { result ≡ is_senders deed }
{
    match deed {
        Deed::Writes => true,
        Deed::Reads => false,
        Deed::ReadsOnce => false,
    }
}

/// What is found of the bytes of a queue's records that a party is to write, or to read.
#[derive(Clone, Copy)]
pub enum Records {
    /// None are asked about.
    Unasked,
    /// The records have none of these bytes.
    NoBytes,
    /// The party does it with each of them, in each record.
    Shown,
    /// This isn't shown.
    NotShown(Missing),
}

/// What is found of a queue's records: of the bytes that its sender is to write, of those that its receiver is to read, and of those that it is to
/// read at most once.
#[derive(Clone, Copy)]
pub struct QueueRecords {
    pub written: Records,
    pub read: Records,
    pub once: Records,
}

/// The bytes that are asked of a queue's records.
fn asked_ranges(
    alloc: Global,
    certificate: &QueueCertificate,
    bytes: &str,
    index: u32,
) -> Result<Vec<ByteRange>, AllocError>
    ensures { IfOk result (λ ranges. ranges.items ≡ asked_ranges certificate.now bytes.now index) }
{
    let width = slots_at(certificate, index).width;
    ranges_in(alloc, bytes, u64::from(width))
}

/// Those of these bytes that aren't a tag's.
fn rest_of(
    alloc: Global,
    certificate: &QueueCertificate,
    index: u32,
    ranges: &[ByteRange],
) -> Result<Vec<ByteRange>, AllocError>
    ensures exact { IfOk result (λ rest. rest.items ≡ rest_ranges certificate.now index ranges.now) }
    ensures has { IfOk result (λ rest. (b : ℕ) → has_byte rest.items b ≡ is_rest certificate.now index ranges.now b) }
{
    ranges_without(alloc, ranges, tag_range(certificate, index))
}

/// Whether a party is shown to do this with these bytes, and else the first of which it isn't.
fn first_missing(
    alloc: Global,
    opening: &Opening,
    certificate: &QueueCertificate,
    deed: Deed,
    queue: QueueNumber,
    bytes: &[ByteRange],
) -> Result<Option<Missing>, Lack>
    ensures { IfOk result (λ r. MatchOption r (IsShownTo opening.now certificate.now deed queue (has_byte bytes.now))
        (IsFirstNot opening.now certificate.now deed queue (has_byte bytes.now))) }
{
    match deed {
        Deed::Writes => first_unwritten(alloc, opening, certificate, queue, bytes),
        Deed::Reads => first_unread(alloc, opening, certificate, queue, bytes),
        Deed::ReadsOnce => first_again(alloc, opening, certificate, queue, bytes),
    }
}

/// The same of the rest of these bytes.
fn first_of_rest(
    alloc: Global,
    opening: &Opening,
    certificate: &QueueCertificate,
    deed: Deed,
    index: u32,
    ranges: &[ByteRange],
) -> Result<Option<Missing>, Lack>
    ensures { IfOk result (λ r. MatchOption r
        (IsShownTo opening.now certificate.now deed (number_in certificate.now index) (is_rest certificate.now index ranges.now))
        (IsFirstNot opening.now certificate.now deed (number_in certificate.now index) (is_rest certificate.now index ranges.now))) }
{
    let rest = rest_of(alloc, certificate, index, ranges)?;
    let queue = number_in(certificate, index);
    first_missing(alloc, opening, certificate, deed, queue, &rest)
}

/// What is found of these bytes.
fn found_of(
    alloc: Global,
    opening: &Opening,
    certificate: &QueueCertificate,
    deed: Deed,
    index: u32,
    ranges: &[ByteRange],
) -> Result<Records, Lack>
    ensures { IfOk result (IsFound opening.now certificate.now deed index ranges.now) }
{
    if ranges.is_empty() {
        return Ok(Records::NoBytes);
    }
    match first_of_rest(alloc, opening, certificate, deed, index, ranges)? {
        None => Ok(Records::Shown),
        Some(missing) => Ok(Records::NotShown(missing)),
    }
}

/// What is found of the bytes that are asked of a queue's records.
fn found_at(
    alloc: Global,
    opening: &Opening,
    certificate: &QueueCertificate,
    deed: Deed,
    bytes: &str,
    index: u32,
) -> Result<Records, Lack>
    ensures { IfOk result (IsFound opening.now certificate.now deed index (asked_ranges certificate.now bytes.now index)) }
{
    let ranges = asked_ranges(alloc, certificate, bytes, index)?;
    found_of(alloc, opening, certificate, deed, index, &ranges)
}

/// The same, if they are asked about.
fn found_for(
    alloc: Global,
    opening: &Opening,
    certificate: &QueueCertificate,
    deed: Deed,
    asked: Option<&str>,
    index: u32,
) -> Result<Records, Lack>
    ensures { IfOk result (IsFoundFor opening.now certificate.now deed (option_map (λ bytes. bytes.now) asked.entry) index) }
{
    match asked {
        None => Ok(Records::Unasked),
        Some(bytes) => found_at(alloc, opening, certificate, deed, bytes, index),
    }
}

/// The bytes that are to be read at most once, where all loads of slots are shown to be of owned ones, or of tags: else it isn't asked.
fn once_asked<'a>(asked: Questions<'a>, owned: bool) -> Option<&'a str>
    ensures { option_map (λ bytes. bytes.now) result ≡ once_asked (questions_by asked.entry) owned }
{
    if owned { asked.once } else { None }
}

/// What is found of the bytes that are asked of each queue's records, where all loads of slots are shown to be of owned ones, or not.
pub fn found_in(
    alloc: Global,
    opening: &Opening,
    certificate: &QueueCertificate,
    asked: Questions<'_>,
    owned: bool,
) -> Result<Vec<QueueRecords>, Lack>
    ensures count { IfOk result (λ found. length found.items ≡ queue_count certificate.now) }
    ensures found { IfOk result (λ found. AreFoundFrom opening.now certificate.now (questions_by asked.entry) owned 0 found.items) }
{
    let mut found = Vec::new(alloc);
    let asked_once = once_asked(asked, owned);
    for index in 0..queue_count(certificate)? {
        let written = found_for(
            alloc,
            opening,
            certificate,
            Deed::Writes,
            asked.written,
            index,
        )?;
        let read = found_for(alloc, opening, certificate, Deed::Reads, asked.read, index)?;
        let once = found_for(
            alloc,
            opening,
            certificate,
            Deed::ReadsOnce,
            asked_once,
            index,
        )?;
        found.push(QueueRecords {
            written,
            read,
            once,
        })?;
    }
    Ok(found)
}

/// Whether what is asked of them is shown.
fn is_shown(records: Records) -> bool
    ensures { result ≡ is_shown records }
{
    match records {
        Records::Unasked => true,
        Records::NoBytes => false,
        Records::Shown => true,
        Records::NotShown(_) => false,
    }
}

/// Whether each queue's bytes are shown to be written, if that is asked.
pub fn are_written(found: &[QueueRecords]) -> bool
    ensures { result ≡ are_written found.now }
{
    found.iter().all(|its| is_shown(its.written))
}

/// Whether each queue's bytes are shown to be read, if that is asked.
pub fn are_read(found: &[QueueRecords]) -> bool
    ensures { result ≡ are_read found.now }
{
    found.iter().all(|its| is_shown(its.read))
}

/// Whether each queue's bytes are shown to be read at most once, if that is asked.
pub fn are_once(found: &[QueueRecords]) -> bool
    ensures { result ≡ are_once found.now }
{
    found.iter().all(|its| is_shown(its.once))
}

// ---- lines

fn push_of_each(out: &mut String, deed: Deed, one: bool) -> Result<(), AllocError>
    ensures { OnOk result (string_bytes out.new ≡ string_bytes out.old ++ of_each deed one) }
{
    match (deed, one) {
        (Deed::Writes, true) => out.push_str(" of each record is written"),
        (Deed::Writes, false) => out.push_str(" of each record are written"),
        (Deed::Reads, true) => out.push_str(" of each record is read"),
        (Deed::Reads, false) => out.push_str(" of each record are read"),
        (Deed::ReadsOnce, true) => out.push_str(" of each record is read at most once, in order"),
        (Deed::ReadsOnce, false) => out.push_str(" of each record are read at most once, in order"),
    }
}

fn push_done(out: &mut String, deed: Deed, ranges: &[ByteRange]) -> Result<(), AllocError>
    ensures { OnOk result (string_bytes out.new ≡ string_bytes out.old ++ done_text deed ranges.now) }
{
    push_bytes(out, ranges)?;
    push_of_each(out, deed, is_one_byte(ranges))
}

#[tactic(auto, unfolding(crate::specs::Records::none_line))]
fn push_none(out: &mut String, index: u32) -> Result<(), AllocError>
    ensures { OnOk result (string_bytes out.new ≡ string_bytes out.old ++ none_line index) }
{
    writeln!(out, "queue {index}: its records have none of these bytes")
}

#[tactic(auto, unfolding(crate::specs::Records::tag_line))]
fn push_tag(out: &mut String, index: u32) -> Result<(), AllocError>
    ensures { OnOk result (string_bytes out.new ≡ string_bytes out.old ++ tag_line index) }
{
    writeln!(
        out,
        "queue {index}: its records have these bytes in their tags alone"
    )
}

fn push_front(out: &mut String, index: u32) -> Result<(), AllocError>
    ensures { OnOk result (string_bytes out.new ≡ string_bytes out.old ++ queue_front index) }
{
    write!(out, "queue {index}: ")
}

#[tactic(auto, unfolding(crate::specs::Records::shown_end))]
fn push_shown_end(out: &mut String, deed: Deed) -> Result<(), AllocError>
    ensures { OnOk result (string_bytes out.new ≡ string_bytes out.old ++ shown_end deed) }
{
    match deed {
        Deed::Writes => writeln!(out, " after the record before in its slot was published"),
        Deed::Reads => writeln!(out, " before its slot is handed back"),
        Deed::ReadsOnce => writeln!(out, ""),
    }
}

#[tactic(auto, unfolding(crate::specs::Records::unshown_front))]
fn push_unshown_front(out: &mut String, index: u32) -> Result<(), AllocError>
    ensures { OnOk result (string_bytes out.new ≡ string_bytes out.old ++ unshown_front index) }
{
    write!(out, "queue {index}: not shown that ")
}

/// The hart that is to write a queue's records, or to read them.
pub fn doing_hart(certificate: &QueueCertificate, sends: bool, index: u32) -> u32
    ensures { result ≡ doing_hart certificate.now sends index }
{
    let slots = slots_at(certificate, index);
    if sends { slots.sender } else { slots.receiver }
}

fn push_missing(
    out: &mut String,
    opening: &Opening,
    certificate: &QueueCertificate,
    hart: u32,
    missing: Missing,
) -> Result<(), AllocError>
    ensures { OnOk result (string_bytes out.new ≡ string_bytes out.old ++ missing_end opening.now certificate.now hart missing) }
{
    let Missing { state, byte } = missing;
    write!(out, ": byte {byte}, hart {hart}, ")?;
    push_pc_place(out, opening, certificate, hart, state)?;
    writeln!(out, "")
}

fn push_shown(
    out: &mut String,
    deed: Deed,
    index: u32,
    rest: &[ByteRange],
) -> Result<(), AllocError>
    ensures { OnOk result (string_bytes out.new ≡ string_bytes out.old ++ shown_line deed index rest.now) }
{
    if rest.is_empty() {
        return push_tag(out, index);
    }
    push_front(out, index)?;
    push_done(out, deed, rest)?;
    push_shown_end(out, deed)
}

/// The line of what is found of a queue's records, of these bytes, of which none is a tag's.
fn push_record(
    out: &mut String,
    opening: &Opening,
    certificate: &QueueCertificate,
    deed: Deed,
    index: u32,
    rest: &[ByteRange],
    records: Records,
) -> Result<(), AllocError>
    ensures { OnOk result (string_bytes out.new ≡ string_bytes out.old
        ++ record_line opening.now certificate.now deed index rest.now records) }
{
    match records {
        Records::Unasked => Ok(()),
        Records::NoBytes => push_none(out, index),
        Records::Shown => push_shown(out, deed, index, rest),
        Records::NotShown(missing) => {
            push_unshown_front(out, index)?;
            push_done(out, deed, rest)?;
            let hart = doing_hart(certificate, is_senders(deed), index);
            push_missing(out, opening, certificate, hart, missing)
        }
    }
}

/// The same, if that is asked.
fn push_asked(
    alloc: Global,
    out: &mut String,
    opening: &Opening,
    certificate: &QueueCertificate,
    deed: Deed,
    asked: Option<&str>,
    index: u32,
    records: Records,
) -> Result<(), AllocError>
    ensures { OnOk result (string_bytes out.new ≡ string_bytes out.old
        ++ asked_line opening.now certificate.now deed (option_map (λ bytes. bytes.now) asked.entry) index records) }
{
    match asked {
        None => Ok(()),
        Some(bytes) => {
            let ranges = asked_ranges(alloc, certificate, bytes, index)?;
            let rest = rest_of(alloc, certificate, index, &ranges)?;
            push_record(out, opening, certificate, deed, index, &rest, records)
        }
    }
}

/// The lines of a queue.
fn push_lines_of_queue(
    alloc: Global,
    out: &mut String,
    opening: &Opening,
    certificate: &QueueCertificate,
    asked: Questions<'_>,
    index: u32,
    its: QueueRecords,
) -> Result<(), AllocError>
    ensures { OnOk result (string_bytes out.new ≡ string_bytes out.old
        ++ lines_of_queue opening.now certificate.now (questions_by asked.entry) index its) }
{
    let QueueRecords {
        written,
        read,
        once,
    } = its;
    push_asked(
        alloc,
        out,
        opening,
        certificate,
        Deed::Writes,
        asked.written,
        index,
        written,
    )?;
    push_asked(
        alloc,
        out,
        opening,
        certificate,
        Deed::Reads,
        asked.read,
        index,
        read,
    )?;
    push_asked(
        alloc,
        out,
        opening,
        certificate,
        Deed::ReadsOnce,
        asked.once,
        index,
        once,
    )
}

/// The lines of what is found of records.
pub fn push_records(
    alloc: Global,
    out: &mut String,
    opening: &Opening,
    certificate: &QueueCertificate,
    asked: Questions<'_>,
    found: &[QueueRecords],
) -> Result<(), Lack>
    ensures { OnOk result (string_bytes out.new ≡ string_bytes out.old
        ++ record_lines opening.now certificate.now (questions_by asked.entry) found.now) }
{
    for (place, its) in found.iter().enumerate() {
        let index = number_of(place)?;
        push_lines_of_queue(alloc, out, opening, certificate, asked, index, *its)?;
    }
    Ok(())
}
