//! A picture in SVG 1.1.

ghost use Rattle.std.specs.Prelude.{◌≡◌, ◌++◌, ◌+◌, ◌<◌, ◌^◌, codes, map, IfOk, OnOk};
ghost use Rattle.std.specs.List.{flat_map};
ghost use Rattle.std.specs.String.{string_bytes};
ghost use Rattle.chart.specs.Svg.{x_of as x_of_cell, y_of as y_of_line, baseline as baseline_of, escaped, text_open};
ghost use Rattle.chart.specs.Svg.{text_place, text_with, text_svg, row_id, mark_svg, path_svg};
ghost use Rattle.chart.specs.Svg.{hart_class as class_with_hart, hart_path, level_path as level_path_of, level_svg};
ghost use Rattle.chart.specs.Svg.{hart_level, open_svg, above_by_sign, stroke_svg, line_svg, widest as widest_of};
ghost use Rattle.chart.specs.Svg.{width_svg, height_svg, svg_text_line, style_svg, size_svg, root_start, root_svg};
ghost use Rattle.chart.specs.Svg.{title_start, title_svg, counts_svg, desc_svg, back_start, back_svg, group_start};
ghost use Rattle.chart.specs.Svg.{rule_svg, heads_group, body_group, foot_group, texts_svg, lines_svg, front_svg};
ghost use Rattle.chart.specs.Svg.{inside_svg, picture_svg};

use crate::pictures::{Line, Mark, Picture, Sign, Stroke, Weight};
use crate::text::{push_byte, shown};
use std::alloc::{AllocError, Global};

/// What of a line's strokes is drawn: what all others of the line cover, or the rest.
#[derive(Clone, Copy)]
pub enum Layer {
    Below,
    Above,
}

/// Where a cell begins.
fn x_of(cell: usize) -> u128
    ensures { result ≡ x_of_cell cell }
{
    16 + 8 * cell as u128
}

/// The middle of a line.
fn y_of(line: usize) -> u128
    ensures { result ≡ y_of_line line }
{
    22 + 22 * line as u128
}

/// Where a line's texts stand.
fn baseline(line: usize) -> u128
    ensures { result ≡ baseline_of line }
{
    27 + 22 * line as u128
}

fn push_escaped(out: &mut String, byte: u8) -> Result<(), AllocError>
    ensures { OnOk result (string_bytes out.new ≡ string_bytes out.old ++ escaped byte) }
{
    match byte {
        b'&' => out.push_str("&amp;"),
        b'<' => out.push_str("&lt;"),
        b'>' => out.push_str("&gt;"),
        _ => push_byte(out, shown(byte)),
    }
}

fn push_bytes(out: &mut String, bytes: &[u8]) -> Result<(), AllocError>
    ensures { OnOk result (string_bytes out.new ≡ string_bytes out.old ++ flat_map escaped bytes.now) }
{
    for byte in bytes {
        push_escaped(out, *byte)?;
    }
    Ok(())
}

#[tactic(auto, unfolding(crate::specs::Svg::text_open))]
fn push_text_open(out: &mut String) -> Result<(), AllocError>
    ensures { OnOk result (string_bytes out.new ≡ string_bytes out.old ++ text_open) }
{
    out.push_str("<text xml:space='preserve' lengthAdjust='spacingAndGlyphs' textLength='")
}

#[tactic(auto, unfolding(crate::specs::Svg::text_place))]
fn push_text_place(
    out: &mut String,
    class: &str,
    cell: usize,
    line: usize,
    cells: usize,
) -> Result<(), AllocError>
    ensures { OnOk result (string_bytes out.new ≡ string_bytes out.old ++ text_place class.now cell line cells) }
{
    let x = x_of(cell);
    let y = baseline(line);
    let length = 8 * cells as u128;
    write!(out, "{length}' x='{x}' y='{y}' class='{class}'")
}

/// The inside of a text, after its attributes.
fn push_text_inside(out: &mut String, text: &str) -> Result<(), AllocError>
    ensures { OnOk result (string_bytes out.new ≡ string_bytes out.old ++ codes ">" ++ flat_map escaped text.now ++ codes "</text>\n") }
{
    out.push_str(">")?;
    push_bytes(out, text.as_bytes())?;
    out.push_str("</text>\n")
}

/// A text of a line from a cell on; nothing where it is empty.
fn push_text(
    out: &mut String,
    class: &str,
    cell: usize,
    line: usize,
    text: &str,
) -> Result<(), AllocError>
    ensures { OnOk result (string_bytes out.new ≡ string_bytes out.old ++ text_svg class.now cell line text.now) }
{
    if text.is_empty() {
        return Ok(());
    }
    push_text_open(out)?;
    push_text_place(out, class, cell, line, text.len())?;
    push_text_inside(out, text)
}

/// The id by which a row is found, of its number.
fn push_row_id(out: &mut String, number: &str) -> Result<(), AllocError>
    ensures { OnOk result (string_bytes out.new ≡ string_bytes out.old ++ row_id number.now) }
{
    out.push_str(" id='row-")?;
    push_bytes(out, number.as_bytes())?;
    out.push_str("'")
}

/// The number of a row; nothing where it is empty.
fn push_number(out: &mut String, cell: usize, line: usize, number: &str) -> Result<(), AllocError>
    ensures { OnOk result (string_bytes out.new ≡ string_bytes out.old ++ text_with (codes "quiet") cell line (row_id number.now) number.now) }
{
    if number.is_empty() {
        return Ok(());
    }
    push_text_open(out)?;
    push_text_place(out, "quiet", cell, line, number.len())?;
    push_row_id(out, number)?;
    push_text_inside(out, number)
}

fn push_mark(out: &mut String, line: usize, mark: &Mark) -> Result<(), AllocError>
    ensures { OnOk result (string_bytes out.new ≡ string_bytes out.old ++ mark_svg line mark.now) }
{
    match mark.weight {
        Weight::Quiet => push_number(out, mark.at, line, &mark.text),
        Weight::Loud => push_text(out, "loud", mark.at, line, &mark.text),
        Weight::Bold => push_text(out, "bold", mark.at, line, &mark.text),
    }
}

/// A path that begins at the left end of a stroke, in the middle of its line.
#[tactic(auto, unfolding(crate::specs::Svg::path_svg))]
fn push_path(
    out: &mut String,
    class: &str,
    line: usize,
    stroke: Stroke,
    path: &str,
) -> Result<(), AllocError>
    ensures { OnOk result (string_bytes out.new ≡ string_bytes out.old ++ path_svg class.now line stroke path.now) }
{
    let x = x_of(stroke.at);
    let y = y_of(line);
    write!(out, "<path class='{class}' d='M{x} {y}{path}'/>\n")
}

/// A class, and the colour of the stroke's hart.
#[tactic(auto, unfolding(crate::specs::Svg::hart_class))]
fn hart_class(alloc: Global, class: &str, stroke: Stroke) -> Result<String, AllocError>
    ensures { IfOk result (λ text. string_bytes text ≡ class_with_hart class.now stroke) }
{
    let mut text = class.to_string(alloc)?;
    let colour = stroke.hart % 4;
    write!(text, " hart{colour}")?;
    Ok(text)
}

/// A path in the colour of the stroke's hart.
fn push_hart(
    alloc: Global,
    out: &mut String,
    class: &str,
    line: usize,
    stroke: Stroke,
    path: &str,
) -> Result<(), AllocError>
    ensures { OnOk result (string_bytes out.new ≡ string_bytes out.old ++ hart_path class.now line stroke path.now) }
{
    let class = hart_class(alloc, class, stroke)?;
    push_path(out, &class, line, stroke, path)
}

#[tactic(auto, unfolding(crate::specs::Svg::level_path))]
fn level_path(alloc: Global, stroke: Stroke) -> Result<String, AllocError>
    ensures { IfOk result (λ path. string_bytes path ≡ level_path_of stroke) }
{
    let length = 8 * stroke.count as u128;
    format!(in alloc; "h{length}")
}

/// A line across, over what it crosses.
fn push_level(
    alloc: Global,
    out: &mut String,
    class: &str,
    line: usize,
    stroke: Stroke,
) -> Result<(), AllocError>
    ensures { OnOk result (string_bytes out.new ≡ string_bytes out.old ++ level_svg class.now line stroke) }
{
    let path = level_path(alloc, stroke)?;
    push_path(out, "gap", line, stroke, &path)?;
    push_path(out, class, line, stroke, &path)
}

fn push_hart_level(
    alloc: Global,
    out: &mut String,
    class: &str,
    line: usize,
    stroke: Stroke,
) -> Result<(), AllocError>
    ensures { OnOk result (string_bytes out.new ≡ string_bytes out.old ++ hart_level class.now line stroke) }
{
    let class = hart_class(alloc, class, stroke)?;
    push_level(alloc, out, &class, line, stroke)
}

fn push_open(alloc: Global, out: &mut String, line: usize, stroke: Stroke) -> Result<(), AllocError>
    ensures { OnOk result (string_bytes out.new ≡ string_bytes out.old ++ open_svg line stroke) }
{
    push_hart(alloc, out, "line", line, stroke, "m4 -11v6")?;
    push_hart(alloc, out, "head", line, stroke, "m4 5l-5 -10h10z")
}

fn push_above(
    alloc: Global,
    out: &mut String,
    line: usize,
    stroke: Stroke,
) -> Result<(), AllocError>
    ensures { OnOk result (string_bytes out.new ≡ string_bytes out.old ++ above_by_sign stroke.sign line stroke) }
{
    match stroke.sign {
        Sign::Flat => push_hart_level(alloc, out, "line", line, stroke),
        Sign::Double => push_hart_level(alloc, out, "thick", line, stroke),
        Sign::Reads => push_level(alloc, out, "read", line, stroke),
        Sign::Down => Ok(()),
        Sign::Bend => push_hart(alloc, out, "line", line, stroke, "m-2 0q6 0 6 6v5"),
        Sign::Lands => push_hart(alloc, out, "line", line, stroke, "m4 -11v5q0 6 6 6"),
        Sign::From => push_hart(alloc, out, "head", line, stroke, "l8 -5v10z"),
        Sign::Reader => push_path(out, "tip", line, stroke, "l8 -4v8z"),
        Sign::To => push_hart(alloc, out, "head", line, stroke, "m10 0l-10 -5v10z"),
        Sign::Joins => {
            let dot = "a4 4 0 1 0 8 0a4 4 0 1 0 -8 0z";
            push_hart(alloc, out, "head", line, stroke, dot)
        }
        Sign::Cut => push_hart(alloc, out, "line", line, stroke, "h8m-4 -5v10"),
        Sign::Open => push_open(alloc, out, line, stroke),
    }
}

fn push_stroke(
    alloc: Global,
    out: &mut String,
    layer: Layer,
    line: usize,
    stroke: Stroke,
) -> Result<(), AllocError>
    ensures { OnOk result (string_bytes out.new ≡ string_bytes out.old ++ stroke_svg layer line stroke) }
{
    match layer {
        Layer::Below => match stroke.sign {
            Sign::Down | Sign::Joins => push_hart(alloc, out, "line", line, stroke, "m4 -11v22"),
            _ => Ok(()),
        },
        Layer::Above => push_above(alloc, out, line, stroke),
    }
}

fn push_strokes(
    alloc: Global,
    out: &mut String,
    layer: Layer,
    line: usize,
    strokes: &[Stroke],
) -> Result<(), AllocError>
    ensures { OnOk result (string_bytes out.new ≡ string_bytes out.old ++ flat_map (stroke_svg layer line) strokes.now) }
{
    for stroke in strokes {
        push_stroke(alloc, out, layer, line, *stroke)?;
    }
    Ok(())
}

fn push_marks(out: &mut String, line: usize, marks: &[Mark]) -> Result<(), AllocError>
    ensures { OnOk result (string_bytes out.new ≡ string_bytes out.old ++ flat_map (mark_svg line) marks.now) }
{
    for mark in marks {
        push_mark(out, line, mark)?;
    }
    Ok(())
}

fn push_line(alloc: Global, out: &mut String, line: usize, of: &Line) -> Result<(), AllocError>
    ensures { OnOk result (string_bytes out.new ≡ string_bytes out.old ++ line_svg line of.now) }
{
    push_strokes(alloc, out, Layer::Below, line, &of.strokes)?;
    push_strokes(alloc, out, Layer::Above, line, &of.strokes)?;
    push_marks(out, line, &of.marks)
}

fn push_lines(alloc: Global, out: &mut String, lines: &[Line]) -> Result<(), AllocError>
    ensures { OnOk result (string_bytes out.new ≡ string_bytes out.old ++ lines_svg lines.now) }
{
    for i in 0..lines.len() {
        push_line(alloc, out, i, &lines[i])?;
    }
    Ok(())
}

/// Texts, each in a line of its own.
fn push_texts(out: &mut String, class: &str, texts: &[String]) -> Result<(), AllocError>
    ensures { OnOk result (string_bytes out.new ≡ string_bytes out.old ++ texts_svg class.now (map string_bytes texts.now)) }
{
    for i in 0..texts.len() {
        push_text(out, class, 0, i, &texts[i])?;
    }
    Ok(())
}

fn widest(cells: usize, texts: &[String]) -> usize
    ensures { result ≡ widest_of cells (map string_bytes texts.now) }
{
    let mut most = cells;
    for text in texts {
        most = most.max(text.as_bytes().len());
    }
    most
}

fn width_of(picture: &Picture) -> u128
    ensures { result ≡ width_svg picture.now }
{
    32 + 8 * widest(widest(picture.width, &picture.head), &picture.foot) as u128
}

fn height_of(picture: &Picture) -> u128
    ensures { result ≡ height_svg picture.now }
{
    let rows = picture.head.len() as u128 + picture.body.len() as u128;
    22 + 22 * (rows + picture.foot.len() as u128 + 3)
}

fn push_text_line(out: &mut String, text: &str) -> Result<(), AllocError>
    ensures { OnOk result (string_bytes out.new ≡ string_bytes out.old ++ svg_text_line text.now) }
{
    push_bytes(out, text.as_bytes())?;
    out.push_str("\n")
}

fn push_all_text_lines(out: &mut String, texts: &[String]) -> Result<(), AllocError>
    ensures { OnOk result (string_bytes out.new ≡ string_bytes out.old ++ flat_map svg_text_line (map string_bytes texts.now)) }
{
    for text in texts {
        push_text_line(out, text)?;
    }
    Ok(())
}

/// The light colours, and the dark ones.
#[tactic(auto, unfolding(crate::specs::Svg::style_svg))]
fn push_style(out: &mut String) -> Result<(), AllocError>
    ensures { OnOk result (string_bytes out.new ≡ string_bytes out.old ++ style_svg) }
{
    out.push_str(
        "<style type='text/css'>text{font:13px ui-monospace,'DejaVu Sans Mono',Menlo,Consolas,",
    )?;
    out.push_str("'Liberation Mono',monospace;fill:currentColor}.bold{font-weight:bold}\n")?;
    out.push_str(
        ".line,.thick,.read,.gap,.rule{fill:none;stroke:currentColor;stroke-width:2}.thick{stroke-width:3}\n",
    )?;
    out.push_str(
        ".read{stroke-width:1;stroke-dasharray:4 3}.head,.tip{fill:currentColor}.rule{stroke-width:1}\n",
    )?;
    out.push_str(
        ".gap{stroke-width:7}svg{color:#1b1f24}.quiet,.read,.tip{color:#57606a}.rule{color:#a8b0b9}\n",
    )?;
    out.push_str(
        ".back{fill:#ffffff}.gap{color:#ffffff}.hart0{color:#0b5cad}.hart1{color:#b34700}\n",
    )?;
    out.push_str(
        ".hart2{color:#00734d}.hart3{color:#8a2f80}@media (prefers-color-scheme:dark){\n",
    )?;
    out.push_str(
        "svg{color:#e6edf3}.quiet,.read,.tip{color:#a3adb8}.rule{color:#5c656f}.back{fill:#0d1117}\n",
    )?;
    out.push_str(
        ".gap{color:#0d1117}.hart0{color:#79b8ff}.hart1{color:#ffab70}.hart2{color:#6fdcb0}\n",
    )?;
    out.push_str(".hart3{color:#e6a3dd}}</style>\n")
}

#[tactic(auto, unfolding(crate::specs::Svg::size_svg))]
fn push_size(out: &mut String, picture: &Picture) -> Result<(), AllocError>
    ensures { OnOk result (string_bytes out.new ≡ string_bytes out.old ++ size_svg picture.now) }
{
    let width = width_of(picture);
    let height = height_of(picture);
    write!(out, "width='{width}' height='{height}'")
}

#[tactic(auto, unfolding(crate::specs::Svg::root_start))]
fn push_root_start(out: &mut String) -> Result<(), AllocError>
    ensures { OnOk result (string_bytes out.new ≡ string_bytes out.old ++ root_start) }
{
    out.push_str(
        "<?xml version='1.0'?>\n<svg xmlns='http://www.w3.org/2000/svg' version='1.1' role='img' ",
    )
}

#[tactic(auto, unfolding(crate::specs::Svg::root_svg))]
fn push_root(out: &mut String, picture: &Picture) -> Result<(), AllocError>
    ensures { OnOk result (string_bytes out.new ≡ string_bytes out.old ++ root_svg picture.now) }
{
    push_root_start(out)?;
    push_size(out, picture)?;
    out.push_str(">\n")
}

#[tactic(auto, unfolding(crate::specs::Svg::title_start))]
fn push_title_start(out: &mut String) -> Result<(), AllocError>
    ensures { OnOk result (string_bytes out.new ≡ string_bytes out.old ++ title_start) }
{
    out.push_str("<title>A run of ")
}

#[tactic(auto, unfolding(crate::specs::Svg::title_svg))]
fn push_title(out: &mut String, picture: &Picture) -> Result<(), AllocError>
    ensures { OnOk result (string_bytes out.new ≡ string_bytes out.old ++ title_svg picture.now) }
{
    push_title_start(out)?;
    push_all_text_lines(out, &picture.head)?;
    out.push_str("</title>\n")
}

#[tactic(auto, unfolding(crate::specs::Svg::counts_svg))]
fn push_counts(out: &mut String, harts: u32, rows: usize) -> Result<(), AllocError>
    ensures { OnOk result (string_bytes out.new ≡ string_bytes out.old ++ counts_svg harts rows) }
{
    write!(out, "harts: {harts}, rows: {rows}\n")
}

/// The picture in words.
#[tactic(auto, unfolding(crate::specs::Svg::desc_svg))]
fn push_desc(out: &mut String, harts: u32, rows: usize, picture: &Picture) -> Result<(), AllocError>
    ensures { OnOk result (string_bytes out.new ≡ string_bytes out.old ++ desc_svg harts rows picture.now) }
{
    out.push_str("<desc>")?;
    push_counts(out, harts, rows)?;
    push_all_text_lines(out, &picture.foot)?;
    out.push_str("</desc>\n")
}

#[tactic(auto, unfolding(crate::specs::Svg::back_start))]
fn push_back_start(out: &mut String) -> Result<(), AllocError>
    ensures { OnOk result (string_bytes out.new ≡ string_bytes out.old ++ back_start) }
{
    out.push_str("<rect class='back' ")
}

#[tactic(auto, unfolding(crate::specs::Svg::back_svg))]
fn push_back(out: &mut String, picture: &Picture) -> Result<(), AllocError>
    ensures { OnOk result (string_bytes out.new ≡ string_bytes out.old ++ back_svg picture.now) }
{
    push_back_start(out)?;
    push_size(out, picture)?;
    out.push_str("/>\n")
}

/// The start of a group, whose first line is this.
#[tactic(auto, unfolding(crate::specs::Svg::group_start))]
fn push_group(out: &mut String, line: u128) -> Result<(), AllocError>
    requires { line < 2 ^ 66 }
    ensures { OnOk result (string_bytes out.new ≡ string_bytes out.old ++ group_start line) }
{
    let y = 22 * line;
    write!(out, "<g transform='translate(0 {y})'>\n")
}

#[tactic(auto, unfolding(crate::specs::Svg::rule_svg))]
fn push_rule(out: &mut String, picture: &Picture) -> Result<(), AllocError>
    ensures { OnOk result (string_bytes out.new ≡ string_bytes out.old ++ rule_svg picture.now) }
{
    let length = 8 * picture.width as u128;
    write!(out, "<path class='rule' d='M16 33h{length}'/>\n")
}

/// The heads of the columns, and a line below them.
#[tactic(auto, unfolding(crate::specs::Svg::grouped))]
fn push_heads(out: &mut String, picture: &Picture) -> Result<(), AllocError>
    ensures { OnOk result (string_bytes out.new ≡ string_bytes out.old ++ heads_group picture.now) }
{
    push_group(out, picture.head.len() as u128 + 1)?;
    push_marks(out, 0, &picture.heads.marks)?;
    push_rule(out, picture)?;
    out.push_str("</g>\n")
}

#[tactic(auto, unfolding(crate::specs::Svg::grouped))]
fn push_rows(alloc: Global, out: &mut String, picture: &Picture) -> Result<(), AllocError>
    ensures { OnOk result (string_bytes out.new ≡ string_bytes out.old ++ body_group picture.now) }
{
    push_group(out, picture.head.len() as u128 + 2)?;
    push_lines(alloc, out, &picture.body)?;
    out.push_str("</g>\n")
}

#[tactic(auto, unfolding(crate::specs::Svg::grouped))]
fn push_foot(out: &mut String, picture: &Picture) -> Result<(), AllocError>
    ensures { OnOk result (string_bytes out.new ≡ string_bytes out.old ++ foot_group picture.now) }
{
    push_group(
        out,
        picture.head.len() as u128 + picture.body.len() as u128 + 3,
    )?;
    push_texts(out, "loud", &picture.foot)?;
    out.push_str("</g>\n")
}

/// What stands before the picture's lines: its size, its words, its colours and its background.
#[tactic(auto, unfolding(crate::specs::Svg::front_svg))]
fn push_front(
    out: &mut String,
    harts: u32,
    rows: usize,
    picture: &Picture,
) -> Result<(), AllocError>
    ensures { OnOk result (string_bytes out.new ≡ string_bytes out.old ++ front_svg harts rows picture.now) }
{
    push_root(out, picture)?;
    push_title(out, picture)?;
    push_desc(out, harts, rows, picture)?;
    push_style(out)?;
    push_back(out, picture)
}

#[tactic(auto, unfolding(crate::specs::Svg::inside_svg))]
fn push_inside(alloc: Global, out: &mut String, picture: &Picture) -> Result<(), AllocError>
    ensures { OnOk result (string_bytes out.new ≡ string_bytes out.old ++ inside_svg picture.now) }
{
    push_texts(out, "bold", &picture.head)?;
    push_heads(out, picture)?;
    push_rows(alloc, out, picture)?;
    push_foot(out, picture)
}

/// The picture in SVG 1.1. Its description names the numbers of harts and rows.
#[tactic(auto, unfolding(crate::specs::Svg::picture_svg))]
pub(crate) fn svg(
    alloc: Global,
    harts: u32,
    rows: usize,
    picture: &Picture,
) -> Result<String, AllocError>
    ensures { IfOk result (λ text. string_bytes text ≡ picture_svg harts rows picture.now) }
{
    let mut out = String::new(alloc);
    push_front(&mut out, harts, rows, picture)?;
    push_inside(alloc, &mut out, picture)?;
    out.push_str("</svg>\n")?;
    Ok(out)
}
