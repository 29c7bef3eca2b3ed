//! A picture as text.

ghost use Rattle.std.specs.Prelude.{◌≡◌, ◌==◌, ◌+◌, ◌^◌, ◌<◌, if◌then◌else◌, ◌∷◌, [], ◌++◌, map, IfOk, OnOk};
ghost use Rattle.std.specs.List.{flat_map};
ghost use Rattle.std.specs.String.{string_bytes};
ghost use Rattle.chart.specs.Pictures.{sign_byte, strikes, struck as struck_by, byte_of_mark as byte_in_mark};
ghost use Rattle.chart.specs.Pictures.{mark_byte as marked_by, shown_byte, line_cell as shown_cell};
ghost use Rattle.chart.specs.Pictures.{text_end as end_of_line, first_cells, line_text, plain_line, picture_text};

use crate::pictures::{Line, Mark, Picture, Stroke};
use std::alloc::{AllocError, Global};

/// What is found in a cell after one more stroke.
fn with_stroke(stroke: Stroke, cell: usize, found: u8) -> u8
    ensures { result ≡ (if strikes stroke cell then sign_byte stroke.sign else found) }
{
    if stroke.strikes(cell) {
        stroke.sign.byte()
    } else {
        found
    }
}

#[tactic(auto, using(crate::proofs::StepLaws::struck_next))]
fn struck(strokes: &[Stroke], cell: usize) -> u8
    ensures { result ≡ struck_by cell 32 strokes.now }
{
    let mut found = b' ';
    for stroke in strokes {
        found = with_stroke(*stroke, cell, found);
    }
    found
}

fn byte_of_mark(mark: &Mark, cell: usize) -> Option<u8>
    ensures { result ≡ byte_in_mark mark.now cell }
{
    if cell < mark.at {
        None
    } else {
        mark.text.as_bytes().get(cell - mark.at).copied()
    }
}

#[tactic(auto, using(crate::proofs::StepLaws::marked_next))]
fn marked(marks: &[Mark], cell: usize, stroke: u8) -> u8
    ensures { result ≡ marked_by cell stroke marks.now }
{
    let mut found = stroke;
    for mark in marks {
        found = byte_of_mark(mark, cell).unwrap_or(found);
    }
    found
}

pub(crate) fn shown(byte: u8) -> u8
    ensures value { result ≡ shown_byte byte }
    ensures ascii { result < 128 }
{
    if 31 < byte && byte < 127 { byte } else { b'?' }
}

fn cell_of(line: &Line, cell: usize) -> u8
    ensures value { result ≡ shown_cell line.now cell }
    ensures ascii { result < 128 }
{
    shown(marked(&line.marks, cell, struck(&line.strokes, cell)))
}

/// The end of what isn't blank, after one more cell.
fn end_after(line: &Line, cell: usize, end: usize) -> usize
    requires { cell + 1 < 2 ^ 64 }
    ensures { result ≡ (if shown_cell line.now cell == 32 then end else cell + 1) }
{
    if cell_of(line, cell) == b' ' {
        end
    } else {
        cell + 1
    }
}

/// The end of what isn't blank in the line's first cells.
#[tactic(auto, using(crate::proofs::StepLaws::end_more))]
fn end_of(line: &Line, width: usize) -> usize
    ensures { result ≡ end_of_line line.now width }
{
    let mut end = 0;
    for cell in 0..width {
        end = end_after(line, cell, end);
    }
    end
}

pub(crate) fn push_byte(out: &mut String, byte: u8) -> Result<(), AllocError>
    requires { byte < 128 }
    ensures { OnOk result (string_bytes out.new ≡ string_bytes out.old ++ byte ∷ []) }
{
    out.push(char::from(byte))
}

#[tactic(auto, using(crate::proofs::StepLaws::cells_more))]
fn push_cells(out: &mut String, line: &Line, end: usize) -> Result<(), AllocError>
    ensures { OnOk result (string_bytes out.new ≡ string_bytes out.old ++ first_cells line.now end) }
{
    for cell in 0..end {
        push_byte(out, cell_of(line, cell))?;
    }
    Ok(())
}

fn push_line(out: &mut String, line: &Line, width: usize) -> Result<(), AllocError>
    ensures { OnOk result (string_bytes out.new ≡ string_bytes out.old ++ line_text width line.now) }
{
    push_cells(out, line, end_of(line, width))?;
    out.push_str("\n")
}

fn push_lines(out: &mut String, lines: &[Line], width: usize) -> Result<(), AllocError>
    ensures { OnOk result (string_bytes out.new ≡ string_bytes out.old ++ flat_map (line_text width) lines.now) }
{
    for line in lines {
        push_line(out, line, width)?;
    }
    Ok(())
}

/// Some bytes as pictures show them: one that isn't a blank or a sign of ASCII is `?`.
pub fn push_shown(out: &mut String, bytes: &[u8]) -> Result<(), AllocError>
    ensures { OnOk result (string_bytes out.new ≡ string_bytes out.old ++ map shown_byte bytes.now) }
{
    for byte in bytes {
        push_byte(out, shown(*byte))?;
    }
    Ok(())
}

fn push_plain(out: &mut String, text: &str) -> Result<(), AllocError>
    ensures { OnOk result (string_bytes out.new ≡ string_bytes out.old ++ plain_line text.now) }
{
    push_shown(out, text.as_bytes())?;
    out.push_str("\n")
}

fn push_plains(out: &mut String, texts: &[String]) -> Result<(), AllocError>
    ensures { OnOk result (string_bytes out.new ≡ string_bytes out.old ++ flat_map plain_line (map string_bytes texts.now)) }
{
    for text in texts {
        push_plain(out, text)?;
    }
    Ok(())
}

/// The picture as text: ASCII and line ends alone, with no blank at a line's end.
pub fn text(alloc: Global, picture: &Picture) -> Result<String, AllocError>
    ensures { IfOk result (λ text. string_bytes text ≡ picture_text picture.now) }
{
    let mut out = String::new(alloc);
    push_plains(&mut out, &picture.head)?;
    out.push_str("\n")?;
    push_line(&mut out, &picture.heads, picture.width)?;
    push_lines(&mut out, &picture.body, picture.width)?;
    out.push_str("\n")?;
    push_plains(&mut out, &picture.foot)?;
    Ok(out)
}
