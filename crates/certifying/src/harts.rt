//! Whether harts are never stopped and never end, which bytes they write and load, and which they share.

ghost use Rattle.std.specs.Prelude.{◌≡◌, ◌++◌, IfOk, OnOk, length, map, true};
ghost use Rattle.std.specs.String.{string_bytes};
ghost use Rattle.record_bytes.specs.declared.ranges.ByteRange.{ByteRange};
ghost use Rattle.hart_safety.specs.declared.regions.Region.{Region};
ghost use Rattle.hart_safety.specs.Shared.{shared_of};
ghost use Rattle.certifying.specs.Answers.{texts, words};
ghost use Rattle.certifying.specs.Harts.{anywhere_front, end_line, endless_line, never_line, nothing_line, only_end, range_of_region, regions_line};
ghost use Rattle.certifying.specs.Harts.{shared_front, shared_line, shared_nothing, shared_ranges, stop_front, stop_line, touches_front, touches_line};
ghost use Rattle.certifying.specs.Harts.{unshown_shared};
ghost use Rattle.certifying.specs.Lines.{hart_lines, harts_lines, harts_safe, is_safe, lines_below, they_share};

use crate::byte_texts::push_bytes;
use crate::endings::{Endings, always_runs, endings_at, never_stops};
use crate::queues::number_of;
use crate::unread::push_pc_place;
use hart_safety::{Region, Shared, Touched, shared_of, touched_of};
use known_values::Lack;
use queue_checker::QueueCertificate;
use record_bytes::ByteRange;
use std::alloc::{AllocError, Global};
use step_machine::Opening;

/// The lines of harts, and whether all of it is shown.
#[derive(Drop)]
pub struct HartsTold {
    pub lines: String,
    pub safe: bool,
}

#[tactic(auto, unfolding(crate::specs::Harts::never_line))]
fn push_never(out: &mut String, hart: u32) -> Result<(), AllocError>
    ensures { OnOk result (string_bytes out.new ≡ string_bytes out.old ++ never_line hart) }
{
    writeln!(out, "hart {hart}: never stopped")
}

#[tactic(auto, unfolding(crate::specs::Harts::stop_front))]
fn push_stop_front(out: &mut String, hart: u32) -> Result<(), AllocError>
    ensures { OnOk result (string_bytes out.new ≡ string_bytes out.old ++ stop_front hart) }
{
    write!(out, "hart {hart}: not shown that it is never stopped: ")
}

/// The line of whether a hart is stopped, of which this is the first state that isn't shown to go on.
fn push_stop(
    out: &mut String,
    opening: &Opening,
    certificate: &QueueCertificate,
    hart: u32,
    stop: Option<u32>,
) -> Result<(), AllocError>
    ensures { OnOk result (string_bytes out.new ≡ string_bytes out.old ++ stop_line opening.now certificate.now hart stop) }
{
    match stop {
        None => push_never(out, hart),
        Some(state) => {
            push_stop_front(out, hart)?;
            push_pc_place(out, opening, certificate, hart, state)?;
            writeln!(out, "")
        }
    }
}

#[tactic(auto, unfolding(crate::specs::Harts::endless_line))]
fn push_endless(out: &mut String, hart: u32) -> Result<(), AllocError>
    ensures { OnOk result (string_bytes out.new ≡ string_bytes out.old ++ endless_line hart) }
{
    writeln!(out, "hart {hart}: never ends")
}

/// The line of a hart that never ends.
fn push_end(out: &mut String, hart: u32, never: bool) -> Result<(), AllocError>
    ensures { OnOk result (string_bytes out.new ≡ string_bytes out.old ++ end_line hart never) }
{
    if never {
        push_endless(out, hart)
    } else {
        Ok(())
    }
}

fn ranges_of_regions(alloc: Global, regions: &[Region]) -> Result<Vec<ByteRange>, AllocError>
    ensures { IfOk result (λ ranges. ranges.items ≡ map range_of_region regions.now) }
{
    let mut ranges = Vec::new(alloc);
    for region in regions {
        ranges.push(ByteRange {
            first: region.from,
            last: region.to,
        })?;
    }
    Ok(ranges)
}

#[tactic(auto, unfolding(crate::specs::Harts::nothing_line))]
fn push_nothing(out: &mut String, stores: bool, hart: u32) -> Result<(), AllocError>
    ensures { OnOk result (string_bytes out.new ≡ string_bytes out.old ++ nothing_line stores hart) }
{
    if stores {
        writeln!(out, "hart {hart}: writes nothing")
    } else {
        writeln!(out, "hart {hart}: loads nothing")
    }
}

#[tactic(auto, unfolding(crate::specs::Harts::touches_front))]
fn push_touches_front(out: &mut String, stores: bool, hart: u32) -> Result<(), AllocError>
    ensures { OnOk result (string_bytes out.new ≡ string_bytes out.old ++ touches_front stores hart) }
{
    if stores {
        write!(out, "hart {hart}: writes ")
    } else {
        write!(out, "hart {hart}: loads ")
    }
}

#[tactic(auto, unfolding(crate::specs::Harts::only_end))]
fn push_only(out: &mut String) -> Result<(), AllocError>
    ensures { OnOk result (string_bytes out.new ≡ string_bytes out.old ++ only_end) }
{
    writeln!(out, " of memory only")
}

/// The line of the bytes to which a hart stores, or which it loads.
fn push_ranges(
    out: &mut String,
    stores: bool,
    hart: u32,
    ranges: &[ByteRange],
) -> Result<(), AllocError>
    ensures { OnOk result (string_bytes out.new ≡ string_bytes out.old ++ regions_line stores hart ranges.now) }
{
    if ranges.is_empty() {
        return push_nothing(out, stores, hart);
    }
    push_touches_front(out, stores, hart)?;
    push_bytes(out, ranges)?;
    push_only(out)
}

#[tactic(auto, unfolding(crate::specs::Harts::anywhere_front))]
fn push_anywhere(out: &mut String, stores: bool, hart: u32) -> Result<(), AllocError>
    ensures { OnOk result (string_bytes out.new ≡ string_bytes out.old ++ anywhere_front stores hart) }
{
    if stores {
        write!(out, "hart {hart}: not shown which bytes it writes: ")
    } else {
        write!(out, "hart {hart}: not shown which bytes it loads: ")
    }
}

/// The line of what a hart stores to, or loads.
fn push_touches(
    alloc: Global,
    out: &mut String,
    opening: &Opening,
    certificate: &QueueCertificate,
    stores: bool,
    hart: u32,
    touched: &Touched,
) -> Result<(), Lack>
    ensures { OnOk result (string_bytes out.new ≡ string_bytes out.old ++ touches_line opening.now certificate.now stores hart touched.now) }
{
    match touched.unbounded {
        None => {
            let ranges = ranges_of_regions(alloc, &touched.regions)?;
            Ok(push_ranges(out, stores, hart, &ranges)?)
        }
        Some(state) => {
            push_anywhere(out, stores, hart)?;
            push_pc_place(out, opening, certificate, hart, state)?;
            Ok(writeln!(out, "")?)
        }
    }
}

#[tactic(auto, unfolding(crate::specs::Harts::shared_nothing))]
fn push_shared_nothing(out: &mut String) -> Result<(), AllocError>
    ensures { OnOk result (string_bytes out.new ≡ string_bytes out.old ++ shared_nothing) }
{
    writeln!(out, "the harts share nothing")
}

#[tactic(auto, unfolding(crate::specs::Harts::shared_front))]
fn push_shared_front(out: &mut String) -> Result<(), AllocError>
    ensures { OnOk result (string_bytes out.new ≡ string_bytes out.old ++ shared_front) }
{
    write!(out, "the harts share ")
}

/// The line of the bytes that harts share.
fn push_shared_ranges(out: &mut String, ranges: &[ByteRange]) -> Result<(), AllocError>
    ensures { OnOk result (string_bytes out.new ≡ string_bytes out.old ++ shared_ranges ranges.now) }
{
    if ranges.is_empty() {
        return push_shared_nothing(out);
    }
    push_shared_front(out)?;
    push_bytes(out, ranges)?;
    push_only(out)
}

#[tactic(auto, unfolding(crate::specs::Harts::unshown_shared))]
fn push_unshown_shared(out: &mut String, hart: u32) -> Result<(), AllocError>
    ensures { OnOk result (string_bytes out.new ≡ string_bytes out.old ++ unshown_shared hart) }
{
    write!(out, "not shown which bytes the harts share: hart {hart}, ")
}

/// The line of what harts share.
fn push_shared(
    alloc: Global,
    out: &mut String,
    opening: &Opening,
    certificate: &QueueCertificate,
    shared: &Shared,
) -> Result<(), Lack>
    ensures { OnOk result (string_bytes out.new ≡ string_bytes out.old ++ shared_line opening.now certificate.now shared.now) }
{
    match shared.unbounded {
        None => {
            let ranges = ranges_of_regions(alloc, &shared.regions)?;
            Ok(push_shared_ranges(out, &ranges)?)
        }
        Some(place) => {
            push_unshown_shared(out, place.hart)?;
            push_pc_place(out, opening, certificate, place.hart, place.state)?;
            Ok(writeln!(out, "")?)
        }
    }
}

/// Appends the lines of a hart, and returns whether it is shown never to be stopped, and which bytes it writes.
#[tactic(auto, unfolding(crate::specs::Lines::hart_lines, crate::specs::Lines::is_safe))]
fn push_hart(
    alloc: Global,
    out: &mut String,
    opening: &Opening,
    certificate: &QueueCertificate,
    endings: &[Endings],
    hart: u32,
) -> Result<bool, Lack>
    ensures lines { OnOk result (string_bytes out.new ≡ string_bytes out.old
        ++ texts opening.now certificate.now (hart_lines opening.now certificate.now endings.now hart)) }
    ensures safe { IfOk result (λ safe. safe ≡ is_safe opening.now certificate.now endings.now hart) }
{
    let its = endings_at(endings, hart);
    let writes = touched_of(alloc, opening, certificate, true, hart)?;
    let loads = touched_of(alloc, opening, certificate, false, hart)?;
    push_stop(out, opening, certificate, hart, its.stop)?;
    push_end(out, hart, always_runs(its))?;
    push_touches(alloc, out, opening, certificate, true, hart, &writes)?;
    push_touches(alloc, out, opening, certificate, false, hart, &loads)?;
    Ok(never_stops(its) && writes.unbounded.is_none())
}

#[tactic(auto, using(crate::proofs::LineLaws::texts_append))]
fn each_told(
    alloc: Global,
    opening: &Opening,
    certificate: &QueueCertificate,
    endings: &[Endings],
) -> Result<HartsTold, Lack>
    ensures lines { IfOk result (λ told. string_bytes told.lines ≡ texts opening.now certificate.now
        (lines_below (length opening.now.harts) (hart_lines opening.now certificate.now endings.now))) }
    ensures safe { IfOk result (λ told. told.safe ≡ harts_safe opening.now certificate.now endings.now true) }
{
    let mut lines = String::new(alloc);
    let mut safe = true;
    for (place, _start) in opening.harts.iter().enumerate() {
        let hart = number_of(place)?;
        let shown = push_hart(alloc, &mut lines, opening, certificate, endings, hart)?;
        safe = shown && safe;
    }
    Ok(HartsTold { lines, safe })
}

/// With the line of what they share.
fn with_shared(
    alloc: Global,
    opening: &Opening,
    certificate: &QueueCertificate,
    told: HartsTold,
) -> Result<HartsTold, Lack>
    ensures lines { IfOk result (λ all. string_bytes all.lines ≡ string_bytes told.lines ++ words opening.now certificate.now
        (they_share (shared_of opening.now certificate.now))) }
    ensures safe { IfOk result (λ all. all.safe ≡ told.safe) }
{
    let HartsTold { mut lines, safe } = told;
    let shared = shared_of(alloc, opening, certificate)?;
    push_shared(alloc, &mut lines, opening, certificate, &shared)?;
    Ok(HartsTold { lines, safe })
}

#[tactic(auto, using(crate::proofs::LineLaws::texts_last))]
fn all_told(
    alloc: Global,
    opening: &Opening,
    certificate: &QueueCertificate,
    endings: &[Endings],
) -> Result<HartsTold, Lack>
    ensures lines { IfOk result (λ told. string_bytes told.lines ≡ texts opening.now certificate.now
        (harts_lines opening.now certificate.now endings.now true)) }
    ensures safe { IfOk result (λ told. told.safe ≡ harts_safe opening.now certificate.now endings.now true) }
{
    let told = each_told(alloc, opening, certificate, endings)?;
    with_shared(alloc, opening, certificate, told)
}

/// The lines of the harts, if they are asked about, by where they may be stopped, and where they may end.
pub fn harts_told(
    alloc: Global,
    opening: &Opening,
    certificate: &QueueCertificate,
    endings: &[Endings],
    asked: bool,
) -> Result<HartsTold, Lack>
    ensures lines { IfOk result (λ told. string_bytes told.lines ≡ texts opening.now certificate.now
        (harts_lines opening.now certificate.now endings.now asked)) }
    ensures safe { IfOk result (λ told. told.safe ≡ harts_safe opening.now certificate.now endings.now asked) }
{
    if asked {
        all_told(alloc, opening, certificate, endings)
    } else {
        Ok(HartsTold {
            lines: String::new(alloc),
            safe: true,
        })
    }
}
