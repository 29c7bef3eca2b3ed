//! What a picture is drawn of: a run's rows, and what they say in a form of it.

ghost use Rattle.std.specs.Prelude.{◌≡◌, ◌≤◌, ◌<◌, ◌+◌, ◌^◌, ◌++◌, length, codes, map, IfOk, OnOk};
ghost use Rattle.std.specs.String.{string_bytes};
ghost use Rattle.chart.specs.declared.scenes.TheConstants.{LONGEST_TEXT};
ghost use Rattle.chart.specs.Scenes.{is_bare, has_no_row, scene_of, beside, caller, shown_instruction, cut_text as short_text};
ghost use Rattle.chart.specs.Scenes.{label as label_by, of_row, row_instruction as instruction_of, row_label as label_of_row};
ghost use Rattle.chart.specs.Scenes.{kept_at as kept_of_row, caller_cells as cells_of_caller, least_own};
ghost use Rattle.chart.specs.Scenes.{least_label as least_of_rows, label_cells, kept_cells, least_lanes, lanes_in};
ghost use Rattle.chart.specs.Scenes.{lanes_to, lanes_at as lanes_of_line, used_after, shape_of, places_of as places_in};

use crate::lanes::{Held, Laned, Shape};
use crate::least_widths::LeastWidths;
use crate::places::Places;
use crate::row_texts::{RowText, row_text};
use crate::rows::{Row, rows_of};
use std::alloc::{AllocError, Global};
use std::marker::Model;
use step_machine::Entry;

/// A longer text of a row gives way to three dots, so that widths stay small.
pub const LONGEST_TEXT: usize = 255;

/// A form of a picture: whether all harts share one column, whether rows tell their instructions, how many
/// lanes a column has at most, and whether landings name the rows of their stores.
#[derive(Clone, Copy)]
pub struct Form {
    pub listed: bool,
    pub instructions: bool,
    pub lanes: u8,
    pub stores: bool,
}

/// How a picture is written.
#[derive(Clone, Copy, PartialEq, Eq)]
pub enum Style {
    Text,
    Svg,
}

/// Which rows of a run a picture has.
#[derive(Clone, Copy, PartialEq, Eq)]
pub enum Selection {
    EveryRow,
    /// All but those of inner entries. The others keep their numbers.
    MemoryRows,
}

/// A run's rows: which of them are drawn, the locations' names, the instruction of each entry, the entries with
/// their rows, how many harts there are, and how wide their columns are at least.
#[derive(Drop)]
pub struct Scene {
    pub selection: Selection,
    pub names: Vec<String>,
    pub instructions: Vec<String>,
    pub entries: Vec<Entry>,
    pub rows: Vec<Row>,
    pub harts: u32,
    pub least: LeastWidths,
}

impl Model for Scene {
    ghost use Rattle.std.specs.Prelude.{map};
    ghost use Rattle.std.specs.String.{string_bytes};
    ghost use Rattle.chart.specs.Scenes.{SceneOf};

    ghost Value = { SceneOf };

    ghost view = { λ s. record {
      selection = s.selection;
      names = map string_bytes s.names.items;
      instructions = map string_bytes s.instructions.items;
      entries = s.entries.items;
      rows = s.rows.items;
      harts = s.harts;
      least = s.least;
    } };
}

pub(crate) fn scene_of_run(
    alloc: Global,
    selection: Selection,
    names: Vec<String>,
    instructions: Vec<String>,
    entries: Vec<Entry>,
    harts: u32,
    least: LeastWidths,
) -> Result<Scene, AllocError>
    ensures { IfOk result (λ scene. scene ≡ scene_of selection (map string_bytes names.items) (map string_bytes instructions.items) entries.items harts least) }
{
    let rows = rows_of(alloc, &entries)?;
    Ok(Scene {
        selection,
        names,
        instructions,
        entries,
        rows,
        harts,
        least,
    })
}

fn push_beside(out: &mut String, gap: &str, more: &str) -> Result<(), AllocError>
    ensures { OnOk result (string_bytes out.new ≡ beside gap.now (string_bytes out.old) more.now) }
{
    if more.is_empty() {
        Ok(())
    } else if out.is_empty() {
        out.push_str(more)
    } else {
        write!(out, "{gap}{more}")
    }
}

fn caller_of(alloc: Global, form: Form, hart: u32) -> Result<String, AllocError>
    ensures { IfOk result (λ text. string_bytes text ≡ caller form hart) }
{
    if form.listed {
        format!(in alloc; "P{hart}")
    } else {
        Ok(String::new(alloc))
    }
}

fn push_instruction(out: &mut String, form: Form, instruction: &str) -> Result<(), AllocError>
    ensures { OnOk result (string_bytes out.new ≡ beside (codes "  ") (string_bytes out.old) (shown_instruction form instruction.now)) }
{
    if form.instructions {
        push_beside(out, "  ", instruction)
    } else {
        Ok(())
    }
}

/// A text, or three dots where it is too long.
#[tactic(auto, unfolding(crate::specs::Scenes::cut_text))]
fn shortened(alloc: Global, text: String) -> Result<String, AllocError>
    ensures value { IfOk result (λ out. string_bytes out ≡ short_text (string_bytes text)) }
    ensures short { IfOk result (λ out. length (string_bytes out) ≤ LONGEST_TEXT) }
{
    if text.len() > LONGEST_TEXT {
        "...".to_string(alloc)
    } else {
        Ok(text)
    }
}

/// What a row says in its hart's column.
fn label(alloc: Global, form: Form, instruction: &str, text: &RowText) -> Result<String, AllocError>
    ensures value { IfOk result (λ out. string_bytes out ≡ label_by form instruction.now text.now) }
    ensures short { IfOk result (λ out. length (string_bytes out) ≤ LONGEST_TEXT) }
{
    let mut out = caller_of(alloc, form, text.hart)?;
    push_instruction(&mut out, form, instruction)?;
    push_beside(&mut out, "  ", &text.effect)?;
    push_beside(&mut out, " ", &text.tag)?;
    shortened(alloc, out)
}

fn push_of_row(out: &mut String, form: Form, landed: Option<usize>) -> Result<(), AllocError>
    ensures { OnOk result (string_bytes out.new ≡ string_bytes out.old ++ of_row form landed) }
{
    match landed {
        Some(row) => {
            if form.stores {
                write!(out, " [{}]", row as u128 + 1)
            } else {
                Ok(())
            }
        }
        None => Ok(()),
    }
}

fn instruction_at(scene: &Scene, i: usize) -> &str
    ensures { result.now ≡ instruction_of scene.now i }
{
    match scene.instructions.get(i) {
        Some(instruction) => instruction.as_str(),
        None => "",
    }
}

impl Selection {
    /// Whether an entry has no row in the picture.
    pub(crate) fn leaves_out(self, entry: Entry) -> bool
        ensures { result ≡ has_no_row self entry }
    {
        match self {
            Selection::EveryRow => false,
            Selection::MemoryRows => matches!(entry, Entry::Inner { .. }),
        }
    }

    /// Whether an entry's row is drawn though it has nothing except an instruction to show.
    pub(crate) fn draws_bare(self, entry: Entry) -> bool
        ensures { result ≡ is_bare self entry }
    {
        match self {
            Selection::EveryRow => Selection::MemoryRows.leaves_out(entry),
            Selection::MemoryRows => false,
        }
    }
}

/// What a row says in its hart's column, if it is drawn.
pub(crate) fn label_at(
    alloc: Global,
    form: Form,
    scene: &Scene,
    i: usize,
) -> Result<String, AllocError>
    ensures value { IfOk result (λ out. string_bytes out ≡ label_of_row form scene.now i) }
    ensures short { IfOk result (λ out. length (string_bytes out) ≤ LONGEST_TEXT) }
{
    match scene.rows.get(i) {
        Some(row) => {
            if scene.selection.leaves_out(row.entry) {
                return Ok(String::new(alloc));
            }
            let text = row_text(alloc, &scene.names, &scene.entries, row)?;
            label(alloc, form, instruction_at(scene, i), &text)
        }
        None => Ok(String::new(alloc)),
    }
}

/// What a row says in memory's column.
pub(crate) fn kept_at(
    alloc: Global,
    form: Form,
    scene: &Scene,
    i: usize,
) -> Result<String, AllocError>
    ensures value { IfOk result (λ out. string_bytes out ≡ kept_of_row form scene.now i) }
    ensures short { IfOk result (λ out. length (string_bytes out) ≤ LONGEST_TEXT) }
{
    match scene.rows.get(i) {
        Some(row) => {
            let mut text = row_text(alloc, &scene.names, &scene.entries, row)?;
            push_of_row(&mut text.memory, form, row.landed)?;
            shortened(alloc, text.memory)
        }
        None => Ok(String::new(alloc)),
    }
}

/// The cells of the last hart's name and of the gap after it, where rows begin with names.
fn caller_cells(alloc: Global, form: Form, harts: u32) -> Result<usize, AllocError>
    ensures value { IfOk result (λ cells. cells ≡ cells_of_caller form harts) }
    ensures most { IfOk result (λ cells. cells < 2 ^ 63 + 2) }
{
    let name = caller_of(alloc, form, harts.saturating_sub(1))?;
    Ok(if form.listed { name.len() + 2 } else { 0 })
}

/// The cells of a column's text after its hart's name, whatever the run.
fn least_own(form: Form, least: LeastWidths) -> u8
    ensures { result ≡ least_own form least }
{
    if form.instructions {
        least.label
    } else {
        least.brief
    }
}

/// The cells of a column's text, whatever the run.
fn least_label(alloc: Global, form: Form, scene: &Scene) -> Result<u8, AllocError>
    ensures { IfOk result (λ cells. cells ≡ least_of_rows form scene.now) }
{
    let caller = caller_cells(alloc, form, scene.harts)?;
    let own = least_own(form, scene.least);
    Ok((caller + usize::from(own)).min(255) as u8)
}

#[tactic(auto, using(crate::proofs::StepLaws::label_more))]
fn widest_label(alloc: Global, form: Form, scene: &Scene) -> Result<u8, AllocError>
    ensures { IfOk result (λ cells. cells ≡ label_cells form scene.now) }
{
    let mut widest = least_label(alloc, form, scene)?;
    for i in 0..scene.rows.len() {
        let label = label_at(alloc, form, scene, i)?;
        widest = widest.max(label.len() as u8);
    }
    Ok(widest)
}

#[tactic(auto, using(crate::proofs::StepLaws::kept_more))]
pub(crate) fn widest_kept(alloc: Global, form: Form, scene: &Scene) -> Result<u8, AllocError>
    ensures { IfOk result (λ cells. cells ≡ kept_cells form scene.now) }
{
    let mut widest = scene.least.kept.max(6);
    for i in 0..scene.rows.len() {
        let kept = kept_at(alloc, form, scene, i)?;
        widest = widest.max(kept.len() as u8);
    }
    Ok(widest)
}

fn lanes_to(own: Option<Held>) -> u8
    ensures { result ≡ lanes_to own }
{
    match own {
        Some(held) => held.lane.min(254) as u8 + 1,
        None => 0,
    }
}

fn lanes_at(laned: &Laned) -> u8
    ensures { result ≡ lanes_of_line laned.now }
{
    lanes_to(laned.own)
}

/// The lanes of a column, whatever the run.
fn least_lanes(form: Form, least: LeastWidths) -> u8
    ensures { result ≡ least_lanes form least }
{
    let own = if form.listed {
        least.listed_lanes
    } else {
        least.lanes
    };
    own.min(form.lanes)
}

/// The lanes that lines use, and no fewer than `least`.
#[tactic(auto, using(crate::proofs::StepLaws::used_next))]
fn used_lanes(least: u8, lanes: &[Laned]) -> u8
    ensures { result ≡ used_after least lanes.now }
{
    let mut used = least;
    for laned in lanes {
        used = used.max(lanes_at(laned));
    }
    used
}

impl Form {
    pub(crate) fn shape(self) -> Shape
        ensures { result ≡ shape_of self }
    {
        Shape {
            listed: self.listed,
            lanes: usize::from(self.lanes),
        }
    }
}

/// Where a form's columns stand.
pub(crate) fn places_of(
    alloc: Global,
    form: Form,
    scene: &Scene,
    lanes: &[Laned],
) -> Result<Places, AllocError>
    requires { lanes.now ≡ lanes_in form scene.now }
    ensures { IfOk result (λ places. places ≡ places_in form scene.now) }
{
    let text = widest_label(alloc, form, scene)?;
    Ok(Places {
        listed: form.listed,
        harts: scene.harts,
        text,
        lanes: used_lanes(least_lanes(form, scene.least), lanes),
    })
}
