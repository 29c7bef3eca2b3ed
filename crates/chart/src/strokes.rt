//! The strokes of a row.

ghost use Rattle.std.specs.Prelude.{◌≡◌, ◌++◌, map, option_map, IfOk, OnOk};
ghost use Rattle.std.specs.List.{flat_map};
ghost use Rattle.chart.specs.Places.{lane_cell};
ghost use Rattle.chart.specs.Lines.{sign_at as stroke_at, across as stroke_across, store_strokes, land_strokes};
ghost use Rattle.chart.specs.Lines.{amo_strokes, own_strokes, is_store_of_row, is_read, read_strokes, passing_stroke};
ghost use Rattle.chart.specs.Lines.{row_strokes as strokes_of_row};

use crate::lanes::{Held, Laned};
use crate::pictures::{Sign, Stroke};
use crate::places::Places;
use crate::rows::Row;
use crate::sources::Source;
use std::alloc::{AllocError, Global};
use step_machine::Entry;

pub(crate) fn sign_at(sign: Sign, cell: usize, column: u32) -> Stroke
    ensures { result ≡ stroke_at sign cell column }
{
    Stroke {
        sign,
        at: cell,
        count: 1,
        hart: column,
    }
}

fn across(sign: Sign, from: usize, to: usize, column: u32) -> Stroke
    ensures { result ≡ stroke_across sign from to column }
{
    Stroke {
        sign,
        at: from,
        count: to.saturating_sub(from),
        hart: column,
    }
}

fn push_store(
    out: &mut Vec<Stroke>,
    column: u32,
    following: u32,
    lane: Option<u32>,
) -> Result<(), AllocError>
    ensures { OnOk result (out.new.items ≡ out.old.items ++ store_strokes column following lane) }
{
    let from = following as usize + 1;
    match lane {
        Some(lane) => {
            out.push(across(Sign::Flat, from, lane as usize, column))?;
            out.push(sign_at(Sign::Bend, lane as usize, column))?;
        }
        None => out.push(sign_at(Sign::Cut, from, column))?,
    }
    Ok(())
}

fn push_landing(
    out: &mut Vec<Stroke>,
    column: u32,
    memory: u32,
    lane: Option<u32>,
) -> Result<(), AllocError>
    ensures { OnOk result (out.new.items ≡ out.old.items ++ land_strokes column memory lane) }
{
    let to = memory.saturating_sub(2) as usize;
    match lane {
        Some(lane) => {
            out.push(across(Sign::Flat, lane as usize + 1, to, column))?;
            out.push(sign_at(Sign::Lands, lane as usize, column))?;
        }
        None => out.push(sign_at(Sign::Cut, memory.saturating_sub(3) as usize, column))?,
    }
    out.push(sign_at(Sign::To, to, column))?;
    Ok(())
}

fn push_amo(
    out: &mut Vec<Stroke>,
    column: u32,
    following: u32,
    memory: u32,
) -> Result<(), AllocError>
    ensures { OnOk result (out.new.items ≡ out.old.items ++ amo_strokes column following memory) }
{
    let to = memory.saturating_sub(2) as usize;
    out.push(sign_at(Sign::From, following as usize + 1, column))?;
    out.push(across(Sign::Double, following as usize + 2, to, column))?;
    out.push(sign_at(Sign::To, to, column))?;
    Ok(())
}

/// The line of what the row's own entry writes.
fn push_own(
    out: &mut Vec<Stroke>,
    column: u32,
    following: u32,
    memory: u32,
    lane: Option<u32>,
    entry: Entry,
) -> Result<(), AllocError>
    ensures { OnOk result (out.new.items ≡ out.old.items ++ own_strokes column following memory lane entry) }
{
    match entry {
        Entry::Store { .. } => push_store(out, column, following, lane),
        Entry::Land { .. } => push_landing(out, column, memory, lane),
        Entry::Amo { .. } => push_amo(out, column, following, memory),
        _ => Ok(()),
    }
}

fn is_own(row: usize, source: Source) -> bool
    ensures { result ≡ is_store_of_row row source }
{
    match source {
        Source::Own { row: other } => other == row,
        _ => false,
    }
}

/// Whether the pending store is one of the sources.
fn is_read(sources: &[Source], held: Held) -> bool
    ensures { result ≡ is_read sources.now held }
{
    sources.iter().any(|source| is_own(held.row, *source))
}

fn push_read(
    out: &mut Vec<Stroke>,
    places: &Places,
    sources: &[Source],
    column: u32,
    following: u32,
    held: Held,
) -> Result<(), AllocError>
    ensures { OnOk result (out.new.items ≡ out.old.items ++ read_strokes places.now sources.now column following held) }
{
    if is_read(sources, held) {
        let lane = places.lane_cell(held) as usize;
        out.push(sign_at(Sign::Reader, following as usize + 1, column))?;
        out.push(across(Sign::Reads, following as usize + 2, lane, column))?;
    }
    Ok(())
}

fn push_reads(
    out: &mut Vec<Stroke>,
    places: &Places,
    sources: &[Source],
    column: u32,
    following: u32,
    passing: &[Held],
) -> Result<(), AllocError>
    ensures { OnOk result (out.new.items ≡ out.old.items ++ flat_map (read_strokes places.now sources.now column following) passing.now) }
{
    for held in passing {
        push_read(out, places, sources, column, following, *held)?;
    }
    Ok(())
}

fn passing_stroke(places: &Places, sources: &[Source], held: Held) -> Stroke
    ensures { result ≡ passing_stroke places.now sources.now held }
{
    let sign = if is_read(sources, held) {
        Sign::Joins
    } else {
        Sign::Down
    };
    sign_at(sign, places.lane_cell(held) as usize, held.column)
}

fn push_passing(
    out: &mut Vec<Stroke>,
    places: &Places,
    sources: &[Source],
    passing: &[Held],
) -> Result<(), AllocError>
    ensures { OnOk result (out.new.items ≡ out.old.items ++ map (passing_stroke places.now sources.now) passing.now) }
{
    for held in passing {
        out.push(passing_stroke(places, sources, *held))?;
    }
    Ok(())
}

fn own_lane(places: &Places, own: Option<Held>) -> Option<u32>
    ensures { result ≡ option_map (lane_cell places.now) own }
{
    match own {
        Some(held) => Some(places.lane_cell(held)),
        None => None,
    }
}

/// The strokes of a row whose text ends before the cell `following`: those across, then those downwards, which
/// are seen where they meet.
pub(crate) fn row_strokes(
    alloc: Global,
    places: &Places,
    column: u32,
    following: u32,
    row: &Row,
    laned: &Laned,
) -> Result<Vec<Stroke>, AllocError>
    ensures { IfOk result (λ strokes. strokes.items ≡ strokes_of_row places.now column following row.now laned.now) }
{
    let mut out = Vec::new(alloc);
    let lane = own_lane(places, laned.own);
    push_own(
        &mut out,
        column,
        following,
        places.memory_cell(),
        lane,
        row.entry,
    )?;
    push_reads(
        &mut out,
        places,
        &row.sources,
        column,
        following,
        &laned.passing,
    )?;
    push_passing(&mut out, places, &row.sources, &laned.passing)?;
    Ok(out)
}
