//! The lines of a picture, and the picture.

ghost use Rattle.std.specs.Prelude.{◌≡◌, ◌≤◌, ◌++◌, ◌∷◌, [], map, nat_le, length, IfOk, OnOk};
ghost use Rattle.std.specs.List.{slice_get};
ghost use Rattle.std.specs.String.{string_bytes};
ghost use Rattle.chart.specs.declared.scenes.TheConstants.{LONGEST_TEXT};
ghost use Rattle.chart.specs.declared.pictures.Weight.TheVariants.{Bold};
ghost use Rattle.chart.specs.Lines.{text_at, number_mark as mark_of_number, row_line as line_of_row, empty_line};
ghost use Rattle.chart.specs.Lines.{scene_line, laned_line, picture_line, is_without_line, drawn_at};
ghost use Rattle.chart.specs.Lines.{row_lines as lines_of_rows, open_stroke, open_lines, head_mark};
ghost use Rattle.chart.specs.Lines.{head_marks as marks_of_heads, hart_marks, heads_line as line_of_heads};
ghost use Rattle.chart.specs.Layout.{width_of as width_in, limit as limit_of, fitting_form as form_for};
ghost use Rattle.chart.specs.Layout.{bare_hints, has_bare as scene_has_bare, hints_of, picture_in as picture_in_form, picture_of as picture_of_scene};

use crate::lanes::{Held, Laned, held_at_end, lanes_of};
use crate::pictures::{Line, Mark, Picture, Sign, Stroke, Weight};
use crate::places::Places;
use crate::rows::Row;
use crate::scenes::{Form, Scene, kept_at, label_at, places_of, widest_kept};
use crate::strokes::{row_strokes, sign_at};
use std::alloc::{AllocError, Global};

fn text_at(cell: usize, weight: Weight, text: String) -> Mark
    ensures { result ≡ text_at cell weight (string_bytes text) }
{
    Mark {
        at: cell,
        weight,
        text,
    }
}

fn number_mark(alloc: Global, row: usize) -> Result<Mark, AllocError>
    ensures { IfOk result (λ mark. mark ≡ mark_of_number row) }
{
    let row = row as u128 + 1;
    let number = format!(in alloc; "{row}")?;
    Ok(text_at(5usize.saturating_sub(number.len()), Weight::Quiet, number))
}

/// The line of a row, with what it says in its column and in memory.
fn row_line(
    alloc: Global,
    places: &Places,
    i: usize,
    column: u32,
    label: String,
    kept: String,
    row: &Row,
    laned: &Laned,
) -> Result<Line, AllocError>
    requires { length (string_bytes label) ≤ LONGEST_TEXT }
    ensures { IfOk result (λ line. line ≡ line_of_row places.now i column (string_bytes label) (string_bytes kept) row.now laned.now) }
{
    let begins = places.begins(column);
    let following = begins + label.len() as u32;
    let strokes = row_strokes(alloc, places, column, following, row, laned)?;
    let mut marks = Vec::new(alloc);
    marks.push(number_mark(alloc, i)?)?;
    marks.push(text_at(begins as usize, Weight::Loud, label))?;
    marks.push(text_at(places.memory_cell() as usize, Weight::Loud, kept))?;
    Ok(Line { marks, strokes })
}

fn line_with(
    alloc: Global,
    form: Form,
    scene: &Scene,
    places: &Places,
    i: usize,
    row: &Row,
    laned: &Laned,
) -> Result<Line, AllocError>
    ensures { IfOk result (λ line. line ≡ scene_line form scene.now places.now i row.now laned.now) }
{
    let column = form.shape().column_of(row.entry.hart());
    let label = label_at(alloc, form, scene, i)?;
    let kept = kept_at(alloc, form, scene, i)?;
    row_line(alloc, places, i, column, label, kept, row, laned)
}

fn empty_line(alloc: Global) -> Line
    ensures { result ≡ empty_line }
{
    Line {
        marks: Vec::new(alloc),
        strokes: Vec::new(alloc),
    }
}

fn laned_line(
    alloc: Global,
    form: Form,
    scene: &Scene,
    places: &Places,
    i: usize,
    row: &Row,
    lanes: &[Laned],
) -> Result<Line, AllocError>
    ensures { IfOk result (λ line. line ≡ laned_line form scene.now places.now i row.now (slice_get lanes.now i)) }
{
    match lanes.get(i) {
        Some(laned) => line_with(alloc, form, scene, places, i, row, laned),
        None => Ok(empty_line(alloc)),
    }
}

fn line_at(
    alloc: Global,
    form: Form,
    scene: &Scene,
    places: &Places,
    lanes: &[Laned],
    i: usize,
) -> Result<Line, AllocError>
    ensures { IfOk result (λ line. line ≡ picture_line form scene.now places.now lanes.now i) }
{
    match scene.rows.get(i) {
        Some(row) => laned_line(alloc, form, scene, places, i, row, lanes),
        None => Ok(empty_line(alloc)),
    }
}

fn is_without_line(scene: &Scene, i: usize) -> bool
    ensures { result ≡ is_without_line scene.now (slice_get scene.now.rows i) }
{
    match scene.rows.get(i) {
        Some(row) => scene.selection.leaves_out(row.entry),
        None => false,
    }
}

/// Adds the line of a row, if it is drawn.
fn push_drawn(
    alloc: Global,
    out: &mut Vec<Line>,
    form: Form,
    scene: &Scene,
    places: &Places,
    lanes: &[Laned],
    i: usize,
) -> Result<(), AllocError>
    ensures { OnOk result (out.new.items ≡ out.old.items ++ drawn_at form scene.now places.now lanes.now i) }
{
    if is_without_line(scene, i) {
        return Ok(());
    }
    let line = line_at(alloc, form, scene, places, lanes, i)?;
    Ok(out.push(line)?)
}

#[tactic(auto, using(crate::proofs::StepLaws::lines_more))]
fn row_lines(
    alloc: Global,
    form: Form,
    scene: &Scene,
    places: &Places,
    lanes: &[Laned],
) -> Result<Vec<Line>, AllocError>
    ensures { IfOk result (λ lines. lines.items ≡ lines_of_rows form scene.now places.now lanes.now) }
{
    let mut out = Vec::new(alloc);
    for i in 0..scene.rows.len() {
        push_drawn(alloc, &mut out, form, scene, places, lanes, i)?;
    }
    Ok(out)
}

fn open_strokes(alloc: Global, places: &Places, held: &[Held]) -> Result<Vec<Stroke>, AllocError>
    ensures { IfOk result (λ strokes. strokes.items ≡ map (open_stroke places.now) held.now) }
{
    let mut strokes = Vec::new(alloc);
    for other in held {
        let cell = places.lane_cell(*other) as usize;
        strokes.push(sign_at(Sign::Open, cell, other.column))?;
    }
    Ok(strokes)
}

/// A line below the last row, where a store is still pending.
fn push_open(
    alloc: Global,
    out: &mut Vec<Line>,
    places: &Places,
    held: &[Held],
) -> Result<(), AllocError>
    ensures { OnOk result (out.new.items ≡ out.old.items ++ open_lines places.now held.now) }
{
    if held.is_empty() {
        return Ok(());
    }
    let marks = Vec::new(alloc);
    let strokes = open_strokes(alloc, places, held)?;
    Ok(out.push(Line { marks, strokes })?)
}

fn head_mark(alloc: Global, places: &Places, hart: u32) -> Result<Mark, AllocError>
    ensures { IfOk result (λ mark. mark ≡ head_mark places.now hart) }
{
    let name = format!(in alloc; "P{hart}")?;
    Ok(text_at(places.begins(hart) as usize, Weight::Bold, name))
}

#[tactic(auto, using(crate::proofs::StepLaws::heads_more))]
fn head_marks(alloc: Global, places: &Places) -> Result<Vec<Mark>, AllocError>
    ensures { IfOk result (λ marks. marks.items ≡ marks_of_heads places.now places.now.harts) }
{
    let mut marks = Vec::new(alloc);
    for hart in 0..places.harts {
        marks.push(head_mark(alloc, places, hart)?)?;
    }
    Ok(marks)
}

fn one_head(alloc: Global, cell: usize, text: &str) -> Result<Mark, AllocError>
    ensures { IfOk result (λ mark. mark ≡ text_at cell Bold text.now) }
{
    Ok(text_at(cell, Weight::Bold, text.to_string(alloc)?))
}

fn hart_marks(alloc: Global, places: &Places) -> Result<Vec<Mark>, AllocError>
    ensures { IfOk result (λ marks. marks.items ≡ hart_marks places.now) }
{
    if !places.listed {
        return head_marks(alloc, places);
    }
    let mut marks = Vec::new(alloc);
    marks.push(one_head(alloc, 7, "harts")?)?;
    Ok(marks)
}

fn heads_line(alloc: Global, places: &Places) -> Result<Line, AllocError>
    ensures { IfOk result (λ line. line ≡ line_of_heads places.now) }
{
    let mut marks = hart_marks(alloc, places)?;
    marks.push(one_head(alloc, places.memory_cell() as usize, "memory")?)?;
    let strokes = Vec::new(alloc);
    Ok(Line { marks, strokes })
}

fn width_of(alloc: Global, form: Form, scene: &Scene) -> Result<u32, AllocError>
    ensures { IfOk result (λ width. width ≡ width_in form scene.now) }
{
    let lanes = lanes_of(alloc, form.shape(), &scene.rows)?;
    let places = places_of(alloc, form, scene, &lanes)?;
    Ok(places.memory_cell() + u32::from(widest_kept(alloc, form, scene)?))
}

/// The most cells of a line for `harts` harts.
fn limit(harts: u32) -> u64
    ensures { result ≡ limit_of harts }
{
    if harts <= 2 {
        110
    } else {
        (20 + 40 * u64::from(harts)).min(200)
    }
}

fn fits(alloc: Global, form: Form, scene: &Scene, most: u64) -> Result<bool, AllocError>
    ensures { IfOk result (λ fits. fits ≡ nat_le (width_in form scene.now) most) }
{
    Ok(u64::from(width_of(alloc, form, scene)?) <= most)
}

const FORMS: [Form; 4] = [
    Form {
        listed: false,
        instructions: true,
        lanes: 6,
        stores: true,
    },
    Form {
        listed: false,
        instructions: false,
        lanes: 6,
        stores: true,
    },
    Form {
        listed: true,
        instructions: true,
        lanes: 6,
        stores: true,
    },
    Form {
        listed: true,
        instructions: false,
        lanes: 6,
        stores: true,
    },
];

/// The first form that is narrow enough, else the one that needs the least room.
fn form_of(alloc: Global, scene: &Scene, most: u64) -> Result<Form, AllocError>
    ensures { IfOk result (λ form. form ≡ form_for scene.now most) }
{
    if fits(alloc, FORMS[0], scene, most)? {
        return Ok(FORMS[0]);
    }
    if fits(alloc, FORMS[1], scene, most)? {
        return Ok(FORMS[1]);
    }
    if fits(alloc, FORMS[2], scene, most)? {
        return Ok(FORMS[2]);
    }
    if fits(alloc, FORMS[3], scene, most)? {
        return Ok(FORMS[3]);
    }
    Ok(Form {
        listed: true,
        instructions: false,
        lanes: 0,
        stores: false,
    })
}

/// Whether a row has nothing except an instruction to show.
fn has_bare(scene: &Scene) -> bool
    ensures { result ≡ scene_has_bare scene.now }
{
    scene
        .entries
        .iter()
        .any(|entry| scene.selection.draws_bare(*entry))
}

fn push_text(alloc: Global, out: &mut Vec<String>, text: &str) -> Result<(), AllocError>
    ensures { OnOk result (map string_bytes out.new.items ≡ map string_bytes out.old.items ++ text.now ∷ []) }
{
    Ok(out.push(text.to_string(alloc)?)?)
}

/// Says how rows go that show nothing, if there are any.
fn push_bare_hint(alloc: Global, out: &mut Vec<String>, scene: &Scene) -> Result<(), AllocError>
    ensures { OnOk result (map string_bytes out.new.items ≡ map string_bytes out.old.items ++ bare_hints scene.now) }
{
    if has_bare(scene) {
        push_text(
            alloc,
            out,
            "hint: --memory leaves out rows of instructions that only compute or jump",
        )?;
    }
    Ok(())
}

/// What stands below all else: that the form leaves out the instructions, and how rows go that then show nothing.
#[tactic(auto, using(crate::proofs::StepLaws::hints_more))]
fn push_hints(
    alloc: Global,
    out: &mut Vec<String>,
    form: Form,
    scene: &Scene,
) -> Result<(), AllocError>
    ensures { OnOk result (map string_bytes out.new.items ≡ map string_bytes out.old.items ++ hints_of form scene.now) }
{
    if form.instructions {
        return Ok(());
    }
    push_text(
        alloc,
        out,
        "left out: the instructions, since columns would be too wide",
    )?;
    push_bare_hint(alloc, out, scene)?;
    Ok(())
}

fn picture_in(
    alloc: Global,
    form: Form,
    scene: &Scene,
    head: Vec<String>,
    foot: Vec<String>,
) -> Result<Picture, AllocError>
    ensures { IfOk result (λ picture. picture ≡ picture_in_form form scene.now (map string_bytes head.items) (map string_bytes foot.items)) }
{
    let lanes = lanes_of(alloc, form.shape(), &scene.rows)?;
    let held = held_at_end(alloc, form.shape(), &scene.rows)?;
    let places = places_of(alloc, form, scene, &lanes)?;
    let mut body = row_lines(alloc, form, scene, &places, &lanes)?;
    push_open(alloc, &mut body, &places, &held)?;
    let mut foot = foot;
    push_hints(alloc, &mut foot, form, scene)?;
    Ok(Picture {
        head,
        heads: heads_line(alloc, &places)?,
        body,
        foot,
        width: width_of(alloc, form, scene)? as usize,
    })
}

/// The picture of a run of `harts` harts, with the lines above and below it.
pub(crate) fn picture_of(
    alloc: Global,
    harts: u32,
    scene: &Scene,
    head: Vec<String>,
    foot: Vec<String>,
) -> Result<Picture, AllocError>
    ensures { IfOk result (λ picture. picture ≡ picture_of_scene harts scene.now (map string_bytes head.items) (map string_bytes foot.items)) }
{
    let form = form_of(alloc, scene, limit(harts))?;
    picture_in(alloc, form, scene, head, foot)
}
