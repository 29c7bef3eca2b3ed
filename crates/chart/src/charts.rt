//! A run's picture as text, with what is known of the run above and below it.

ghost use Rattle.std.specs.Prelude.{◌≡◌, ◌++◌, map, IfOk, OnOk};
ghost use Rattle.std.specs.List.{slice_get};
ghost use Rattle.std.specs.String.{string_bytes};
ghost use Rattle.chart.specs.Sources.{pending_by_row as pending_of_rows};
ghost use Rattle.chart.specs.Svg.{chart_svg as svg_of_chart};
ghost use Rattle.chart.specs.Layout.{pending_line as line_of_pending, pending_text, pending_of_hart, pending_of_run};
ghost use Rattle.chart.specs.Layout.{last_value_text, value_line as line_of_value, verdict_text};
ghost use Rattle.chart.specs.Layout.{verdict_foot as line_of_verdict, head_of, foot_of, layout as layout_of_run};
ghost use Rattle.chart.specs.Layout.{chart_text as text_of_chart};

use crate::layout::picture_of;
pub use crate::least_widths::LeastWidths;
use crate::naming::push_part;
use crate::pictures::Picture;
use crate::scenes::scene_of_run;
pub use crate::scenes::{Selection, Style};
use crate::sources::{RowWrite, pending_by_row};
use crate::svg::svg;
use crate::text::text;
use std::alloc::{AllocError, Global};
use std::marker::Model;
use step_machine::Entry;

/// An observed location of the condition, with its last value.
#[derive(Drop)]
pub struct LastValue {
    pub left: String,
    pub value: u32,
}

impl Model for LastValue {
    ghost use Rattle.std.specs.String.{string_bytes};
    ghost use Rattle.chart.specs.Layout.{LastValueOf};

    ghost Value = { LastValueOf };

    ghost view = { λ v. record { left = string_bytes v.left; value = v.value } };
}

/// What is known of a run beside its entries: the test's name, how many harts it has, how wide their
/// columns are at least, the locations' names in the order of their words, the instruction of each entry
/// (none where the list has ended), the last values of the condition's observed locations, the verdict and the
/// condition's text.
#[derive(Drop)]
pub struct About {
    pub name: String,
    pub harts: u32,
    pub least: LeastWidths,
    pub names: Vec<String>,
    pub instructions: Vec<String>,
    pub values: Vec<LastValue>,
    pub verdict: String,
    pub condition: String,
}

impl Model for About {
    ghost use Rattle.std.specs.Prelude.{map};
    ghost use Rattle.std.specs.String.{string_bytes};
    ghost use Rattle.chart.specs.Layout.{AboutOf};

    ghost Value = { AboutOf };

    ghost view = { λ a. record {
      name = string_bytes a.name;
      harts = a.harts;
      least = a.least;
      names = map string_bytes a.names.items;
      instructions = map string_bytes a.instructions.items;
      values = a.values.items;
      verdict = string_bytes a.verdict;
      condition = string_bytes a.condition;
    } };
}

fn pending_line(
    alloc: Global,
    about: &About,
    hart: u32,
    pending: RowWrite,
) -> Result<String, AllocError>
    ensures { IfOk result (λ line. string_bytes line ≡ line_of_pending about.now hart pending) }
{
    let mut line = format!(in alloc; "still pending: P{hart} ")?;
    push_part(
        &mut line,
        &about.names,
        pending.write.addr,
        pending.write.width,
    )?;
    let row = pending.row as u128 + 1;
    write!(line, " := {} [{row}]", pending.write.value)?;
    Ok(line)
}

fn pending_text(
    alloc: Global,
    about: &About,
    hart: u32,
    pending: &[RowWrite],
    i: usize,
) -> Result<String, AllocError>
    ensures { IfOk result (λ line. string_bytes line ≡ pending_text about.now hart (slice_get pending.now i)) }
{
    match pending.get(i) {
        Some(store) => pending_line(alloc, about, hart, *store),
        None => Ok(String::new(alloc)),
    }
}

#[tactic(auto, using(crate::proofs::StepLaws::first_more))]
fn push_each(
    alloc: Global,
    out: &mut Vec<String>,
    about: &About,
    hart: u32,
    pending: &[RowWrite],
) -> Result<(), AllocError>
    ensures { OnOk result (map string_bytes out.new.items ≡ map string_bytes out.old.items ++ pending_of_hart about.now hart pending.now) }
{
    for i in 0..pending.len() {
        out.push(pending_text(alloc, about, hart, pending, i)?)?;
    }
    Ok(())
}

fn push_pending(
    alloc: Global,
    out: &mut Vec<String>,
    about: &About,
    entries: &[Entry],
    hart: u32,
) -> Result<(), AllocError>
    ensures { OnOk result (map string_bytes out.new.items ≡ map string_bytes out.old.items
        ++ pending_of_hart about.now hart (pending_of_rows hart entries.now)) }
{
    let pending = pending_by_row(alloc, entries, hart)?;
    push_each(alloc, out, about, hart, &pending)
}

#[tactic(auto, using(crate::proofs::StepLaws::pending_more))]
fn pending_lines(alloc: Global, about: &About, entries: &[Entry]) -> Result<Vec<String>, AllocError>
    ensures { IfOk result (λ lines. map string_bytes lines.items ≡ pending_of_run about.now entries.now) }
{
    let mut lines = Vec::new(alloc);
    for hart in 0..about.harts {
        push_pending(alloc, &mut lines, about, entries, hart)?;
    }
    Ok(lines)
}

fn value_text(alloc: Global, left: &str, value: u32) -> Result<String, AllocError>
    ensures { IfOk result (λ line. string_bytes line ≡ last_value_text left.now value) }
{
    let mut line = String::new(alloc);
    write!(line, "last value: {left} = {value}")?;
    Ok(line)
}

fn value_line(alloc: Global, value: &LastValue) -> Result<String, AllocError>
    ensures { IfOk result (λ line. string_bytes line ≡ line_of_value value.now) }
{
    value_text(alloc, &value.left, value.value)
}

fn push_values(alloc: Global, out: &mut Vec<String>, values: &[LastValue]) -> Result<(), AllocError>
    ensures { OnOk result (map string_bytes out.new.items ≡ map string_bytes out.old.items ++ map line_of_value values.now) }
{
    for value in values {
        out.push(value_line(alloc, value)?)?;
    }
    Ok(())
}

fn verdict_text(alloc: Global, verdict: &str, condition: &str) -> Result<String, AllocError>
    ensures { IfOk result (λ line. string_bytes line ≡ verdict_text verdict.now condition.now) }
{
    let mut line = String::new(alloc);
    write!(line, "{verdict}: {condition}")?;
    Ok(line)
}

fn verdict_line(alloc: Global, about: &About) -> Result<String, AllocError>
    ensures { IfOk result (λ line. string_bytes line ≡ line_of_verdict about.now) }
{
    verdict_text(alloc, &about.verdict, &about.condition)
}

/// The lines below a run's rows: the stores that are still pending, the last values and the verdict.
fn foot(alloc: Global, about: &About, entries: &[Entry]) -> Result<Vec<String>, AllocError>
    ensures { IfOk result (λ lines. map string_bytes lines.items ≡ foot_of about.now entries.now) }
{
    let mut lines = pending_lines(alloc, about, entries)?;
    push_values(alloc, &mut lines, &about.values)?;
    lines.push(verdict_line(alloc, about)?)?;
    Ok(lines)
}

fn head(alloc: Global, about: &About) -> Result<Vec<String>, AllocError>
    ensures { IfOk result (λ lines. map string_bytes lines.items ≡ head_of about.now) }
{
    let mut lines = Vec::new(alloc);
    lines.push(about.name.clone()?)?;
    Ok(lines)
}

/// The picture of a run with these entries, of which these rows are drawn.
pub fn layout(
    alloc: Global,
    selection: Selection,
    about: About,
    entries: &[Entry],
) -> Result<Picture, AllocError>
    ensures { IfOk result (λ picture. picture ≡ layout_of_run selection about entries.now) }
{
    let head = head(alloc, &about)?;
    let foot = foot(alloc, &about, entries)?;
    let own = Vec::from_slice(alloc, entries)?;
    let harts = about.harts;
    let least = about.least;
    let scene = scene_of_run(
        alloc,
        selection,
        about.names,
        about.instructions,
        own,
        harts,
        least,
    )?;
    picture_of(alloc, harts, &scene, head, foot)
}

/// The picture of a run with these entries, as text: ASCII and line ends alone.
pub fn chart_text(
    alloc: Global,
    selection: Selection,
    about: About,
    entries: &[Entry],
) -> Result<String, AllocError>
    ensures { IfOk result (λ text. string_bytes text ≡ text_of_chart selection about entries.now) }
{
    let picture = layout(alloc, selection, about, entries)?;
    text(alloc, &picture)
}

/// The picture of a run with these entries, in SVG 1.1: ASCII alone, with no script, link or font of its own.
/// Its description names the numbers of harts and entries.
pub fn chart_svg(
    alloc: Global,
    selection: Selection,
    about: About,
    entries: &[Entry],
) -> Result<String, AllocError>
    ensures { IfOk result (λ text. string_bytes text ≡ svg_of_chart selection about entries.now) }
{
    let harts = about.harts;
    let drawn = layout(alloc, selection, about, entries)?;
    svg(alloc, harts, entries.len(), &drawn)
}
