//! Lanes: the vertical lines of pending stores.

ghost use Rattle.std.specs.Prelude.{◌≡◌, ◌+◌, ◌<◌, ◌^◌, ◌++◌, length, option_to_list, IfOk, OnOk};
ghost use Rattle.chart.specs.Lanes.{hart_column, is_held, first_free, in_lane, lane_for, held_by, held_by_landed, others};
ghost use Rattle.chart.specs.Lanes.{without_landed, laned_row, held_after, own_line, passing_lines, held_after_entry};
ghost use Rattle.chart.specs.Lanes.{lanes_of as lanes_of_rows, held_at_end as held_after_rows};

use crate::rows::Row;
use std::alloc::{AllocError, Global};
use std::marker::Model;
use step_machine::Entry;

/// How a picture has its lanes: whether all harts share one column, and how many lanes a column has.
#[derive(Clone, Copy, PartialEq, Eq)]
pub struct Shape {
    pub listed: bool,
    pub lanes: usize,
}

/// A lane of a column, which the pending store of this row holds. Lane 0 is the rightmost one.
#[derive(Clone, Copy, PartialEq, Eq)]
pub struct Held {
    pub row: usize,
    pub column: u32,
    pub lane: usize,
}

/// The lines of a row: its own, of the store that it makes or lands, and those that pass it.
#[derive(Drop)]
pub struct Laned {
    pub own: Option<Held>,
    pub passing: Vec<Held>,
}

impl Model for Laned {
    ghost use Rattle.chart.specs.Lanes.{LanedOf};

    ghost Value = { LanedOf };

    ghost view = { λ l. record { own = l.own; passing = l.passing.items } };
}

impl Shape {
    /// The number of a hart's column; one for all harts has number 0.
    pub fn column_of(self, hart: u32) -> u32
        ensures { result ≡ hart_column self hart }
    {
        if self.listed { 0 } else { hart }
    }
}

fn is_held(held: &[Held], column: u32, lane: usize) -> bool
    ensures { result ≡ is_held held.now column lane }
{
    held.iter()
        .any(|other| other.column == column && other.lane == lane)
}

/// The lowest of `lanes` lanes that nobody holds.
#[tactic(auto, using(crate::proofs::LaneLaws::first_free_more, crate::proofs::LaneLaws::first_free_here, crate::proofs::LaneLaws::first_free_all))]
fn first_free(held: &[Held], column: u32, lanes: usize) -> Option<usize>
    ensures { result ≡ first_free held.now column 0 lanes }
{
    for lane in 0..lanes {
        if !is_held(held, column, lane) {
            return Some(lane);
        }
    }
    None
}

/// What a hart's store of this row holds from now on.
fn taken(shape: Shape, row: usize, hart: u32, held: &[Held]) -> Option<Held>
    ensures { result ≡ lane_for shape row hart held.now }
{
    let column = shape.column_of(hart);
    match first_free(held, column, shape.lanes) {
        Some(lane) => Some(Held { row, column, lane }),
        None => None,
    }
}

/// The lane that the pending store of this row holds. It has none where all were held when it was made.
#[tactic(auto, using(crate::proofs::LaneLaws::held_by_more, crate::proofs::LaneLaws::held_by_here))]
pub fn held_by(row: usize, held: &[Held]) -> Option<Held>
    ensures { result ≡ held_by row held.now }
{
    for other in held {
        if other.row == row {
            return Some(*other);
        }
    }
    None
}

fn held_by_landed(landed: Option<usize>, held: &[Held]) -> Option<Held>
    ensures { result ≡ held_by_landed landed held.now }
{
    match landed {
        Some(row) => held_by(row, held),
        None => None,
    }
}

fn others(alloc: Global, row: usize, held: &[Held]) -> Result<Vec<Held>, AllocError>
    ensures { IfOk result (λ left. left.items ≡ others row held.now) }
{
    held.iter()
        .copied()
        .filter(|other| other.row != row)
        .collect(alloc)
}

fn without_landed(
    alloc: Global,
    landed: Option<usize>,
    held: &[Held],
) -> Result<Vec<Held>, AllocError>
    ensures { IfOk result (λ left. left.items ≡ without_landed landed held.now) }
{
    match landed {
        Some(row) => others(alloc, row, held),
        None => Vec::from_slice(alloc, held),
    }
}

fn own_line(
    shape: Shape,
    row: usize,
    held: &[Held],
    landed: Option<usize>,
    entry: Entry,
) -> Option<Held>
    ensures { result ≡ own_line shape row held.now landed entry }
{
    match entry {
        Entry::Store { hart, .. } => taken(shape, row, hart, held),
        Entry::Land { .. } => held_by_landed(landed, held),
        _ => None,
    }
}

fn passing_lines(
    alloc: Global,
    held: &[Held],
    landed: Option<usize>,
    entry: Entry,
) -> Result<Vec<Held>, AllocError>
    ensures { IfOk result (λ lines. lines.items ≡ passing_lines held.now landed entry) }
{
    if entry.is_land() {
        without_landed(alloc, landed, held)
    } else {
        Vec::from_slice(alloc, held)
    }
}

fn laned_row(
    alloc: Global,
    shape: Shape,
    row: usize,
    held: &[Held],
    of: &Row,
) -> Result<Laned, AllocError>
    ensures { IfOk result (λ laned. laned ≡ laned_row shape row held.now of.now) }
{
    Ok(Laned {
        own: own_line(shape, row, held, of.landed, of.entry),
        passing: passing_lines(alloc, held, of.landed, of.entry)?,
    })
}

fn held_after_entry(
    alloc: Global,
    shape: Shape,
    row: usize,
    held: &[Held],
    landed: Option<usize>,
    entry: Entry,
) -> Result<Vec<Held>, AllocError>
    ensures { IfOk result (λ left. left.items ≡ held_after_entry shape row held.now landed entry) }
{
    let mut left = passing_lines(alloc, held, landed, entry)?;
    if let Entry::Store { hart, .. } = entry {
        if let Some(own) = taken(shape, row, hart, held) {
            left.push(own)?;
        }
    }
    Ok(left)
}

fn held_after(
    alloc: Global,
    shape: Shape,
    row: usize,
    held: &[Held],
    of: &Row,
) -> Result<Vec<Held>, AllocError>
    ensures { IfOk result (λ left. left.items ≡ held_after shape row held.now of.now) }
{
    held_after_entry(alloc, shape, row, held, of.landed, of.entry)
}

/// The vertical lines at each row, in the order of the rows. A store without a lane has none.
#[tactic(auto, using(crate::proofs::LaneLaws::lanes_next, crate::proofs::LaneLaws::held_next))]
pub fn lanes_of(alloc: Global, shape: Shape, rows: &[Row]) -> Result<Vec<Laned>, AllocError>
    ensures { IfOk result (λ lanes. lanes.items ≡ lanes_of_rows shape rows.now) }
{
    let mut lanes = Vec::new(alloc);
    let mut held = Vec::new(alloc);
    for i in 0..rows.len() {
        lanes.push(laned_row(alloc, shape, i, &held, &rows[i])?)?;
        held = held_after(alloc, shape, i, &held, &rows[i])?;
    }
    Ok(lanes)
}

/// What is held below the last row: the lines of stores that are still pending.
#[tactic(auto, using(crate::proofs::LaneLaws::held_next))]
pub fn held_at_end(alloc: Global, shape: Shape, rows: &[Row]) -> Result<Vec<Held>, AllocError>
    ensures { IfOk result (λ held. held.items ≡ held_after_rows shape rows.now) }
{
    let mut held = Vec::new(alloc);
    for i in 0..rows.len() {
        held = held_after(alloc, shape, i, &held, &rows[i])?;
    }
    Ok(held)
}
