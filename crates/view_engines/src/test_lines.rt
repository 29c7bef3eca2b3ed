//! Tests as lines, each of which says one thing.

ghost use Rattle.std.specs.Prelude.{◌≡◌, ◌<◌, ◌≤◌, ◌+◌, ◌*◌, ◌^◌, ◌++◌, [], length, take, drop, map, IfOk, OnOk, All};
ghost use Rattle.std.specs.List.{flat_map, slice_index_or};
ghost use Rattle.std.specs.Option.{option_copied};
ghost use Rattle.std.specs.String.{string_bytes};
ghost use Rattle.step_machine.specs.History.{IsShort};
ghost use Rattle.litmus.specs.LitmusTests.{IsThere, left_sides};
ghost use Rattle.litmus_reader.specs.Headings.{heading_of};
ghost use Rattle.engine_support.specs.OpeningTexts.{numbered};
ghost use Rattle.view_engines.specs.TestLines.{cell_in, column_lines, hart_lines, label_line, left_line, text_line};
ghost use Rattle.view_engines.specs.TestLines.{location_line, test_lines as lines_of, code_word_line, code_word_lines};
ghost use Rattle.rv_decode.specs.declared.instruction.TheConstants.{MAX_CODE};

use crate::about::push_meant;
use crate::openings::{push_hex_word, push_registers};
use chart::text::push_shown;
use engine_support::places::push_place;
use litmus::{Place, Test};
use litmus_reader::{Heading, ListedRow};
use std::alloc::{AllocError, Global};
use step_machine::HartOpening;

/// The line of a label at a pc, if there is one.
fn push_label_line(
    out: &mut String,
    hart: usize,
    pc: usize,
    line: usize,
    label: Option<&[u8]>,
) -> Result<(), AllocError>
    ensures { OnOk result (string_bytes out.new ≡ string_bytes out.old ++ label_line hart pc line (option_copied label.entry)) }
{
    let Some(name) = label else {
        return Ok(());
    };
    write!(out, "label {hart} {pc} {line} ")?;
    push_shown(out, name)?;
    writeln!(out, "")
}

/// The line of a word of code, with its instruction.
fn push_word_line(
    out: &mut String,
    hart: usize,
    pc: usize,
    line: usize,
    word: u32,
) -> Result<(), AllocError>
    ensures { OnOk result (string_bytes out.new ≡ string_bytes out.old ++ code_word_line hart pc line word) }
{
    write!(out, "code {hart} {pc} {line} ")?;
    push_hex_word(out, word)?;
    write!(out, " ")?;
    push_meant(out, word)?;
    writeln!(out, "")
}

/// The lines of words of code, the first one at this pc.
fn push_word_lines(
    out: &mut String,
    hart: usize,
    pc: usize,
    line: usize,
    words: &[u32],
) -> Result<(), AllocError>
    requires { pc + 4 * length words.now < 2 ^ 64 }
    ensures { OnOk result (string_bytes out.new ≡ string_bytes out.old ++ code_word_lines hart pc line words.now) }
{
    let mut at = pc;
    for word in words {
        push_word_line(out, hart, at, line, *word)?;
        at += 4;
    }
    Ok(())
}

/// The label that a hart's cell in a row defines, if it does.
fn label_at(row: &ListedRow, hart: usize) -> Option<&[u8]>
    ensures { option_copied result ≡ (cell_in row.now hart).label }
{
    match row.cells.get(hart) {
        None => None,
        Some(cell) => match &cell.label {
            None => None,
            Some(name) => Some(name.as_slice()),
        },
    }
}

/// How many words a hart's cell in a row makes.
fn words_at(row: &ListedRow, hart: usize) -> usize
    ensures { result ≡ (cell_in row.now hart).words }
{
    match row.cells.get(hart) {
        None => 0,
        Some(cell) => cell.words,
    }
}

/// The first words, and those after them.
fn cut_words(words: &[u32], count: usize) -> (&[u32], &[u32])
    ensures front { result.0.now ≡ take count words.now }
    ensures back { result.1.now ≡ drop count words.now }
{
    if count < words.len() {
        words.split_at(count)
    } else {
        (words, &words[words.len()..])
    }
}

/// The lines of a hart's cells, which make this code.
fn push_column(
    out: &mut String,
    hart: usize,
    code: &[u32],
    rows: &[ListedRow],
) -> Result<(), AllocError>
    requires { length code.now ≤ MAX_CODE }
    ensures { OnOk result (string_bytes out.new ≡ string_bytes out.old ++ column_lines hart 0 code.now rows.now) }
{
    let mut pc = 0;
    let mut left = code;
    for row in rows {
        let (words, others) = cut_words(left, words_at(row, hart));
        push_label_line(out, hart, pc, row.line, label_at(row, hart))?;
        push_word_lines(out, hart, pc, row.line, words)?;
        pc += 4 * words.len();
        left = others;
    }
    Ok(())
}

/// The lines of a hart.
fn push_hart(
    out: &mut String,
    rows: &[ListedRow],
    hart: usize,
    start: &HartOpening,
) -> Result<(), AllocError>
    requires { IsShort start.now }
    ensures { OnOk result (string_bytes out.new ≡ string_bytes out.old ++ hart_lines rows.now hart start.now) }
{
    writeln!(out, "hart {hart}")?;
    push_column(out, hart, &start.code, rows)?;
    push_registers(out, hart, &start.registers)
}

fn push_harts(out: &mut String, rows: &[ListedRow], harts: &[HartOpening]) -> Result<(), AllocError>
    requires { All IsShort harts.now }
    ensures { OnOk result (string_bytes out.new ≡ string_bytes out.old ++ numbered (hart_lines rows.now) 0 harts.now) }
{
    for (hart, start) in harts.iter().enumerate() {
        push_hart(out, rows, hart, start)?;
    }
    Ok(())
}

fn push_location(
    out: &mut String,
    test: &Test,
    words: &[u32],
    place: usize,
) -> Result<(), AllocError>
    requires there { place < length test.now.names }
    requires words { length words.now ≡ length test.now.names }
    requires few { length test.now.names ≤ 65536 }
    ensures { OnOk result (string_bytes out.new ≡ string_bytes out.old ++ location_line words.now place (slice_index_or test.now.names place [])) }
{
    let address = 4 * place as u32;
    let value = words[place];
    write!(out, "location {address} {value} ")?;
    out.push_str(test.name(address))?;
    writeln!(out, "")
}

/// The lines of the locations, of whose words these are the first values.
fn push_locations(out: &mut String, test: &Test, words: &[u32]) -> Result<(), AllocError>
    requires words { length words.now ≡ length test.now.names }
    requires few { length test.now.names ≤ 65536 }
    ensures { OnOk result (string_bytes out.new ≡ string_bytes out.old ++ numbered (location_line words.now) 0 test.now.names) }
{
    for place in 0..words.len() {
        push_location(out, test, words, place)?;
    }
    Ok(())
}

fn push_left(out: &mut String, test: &Test, place: Place) -> Result<(), AllocError>
    requires { IsThere (length test.now.opening.harts) (length test.now.names) place }
    ensures { OnOk result (string_bytes out.new ≡ string_bytes out.old ++ left_line test.now.names place) }
{
    write!(out, "left ")?;
    push_place(out, test, place)?;
    writeln!(out, "")
}

/// The lines of the condition's observed locations.
fn push_lefts(out: &mut String, test: &Test) -> Result<(), AllocError>
    ensures { OnOk result (string_bytes out.new ≡ string_bytes out.old ++ flat_map (left_line test.now.names) (left_sides test.now.condition)) }
{
    for place in test.lefts() {
        push_left(out, test, *place)?;
    }
    Ok(())
}

/// A line of a word and of bytes of the text.
fn push_line_with(out: &mut String, word: &str, bytes: &[u8]) -> Result<(), AllocError>
    ensures { OnOk result (string_bytes out.new ≡ string_bytes out.old ++ text_line word.now bytes.now) }
{
    out.push_str(word)?;
    push_shown(out, bytes)?;
    writeln!(out, "")
}

/// A test's lines, where these are the rows of its table.
#[tactic(auto, unfolding(crate::specs::TestLines::test_lines))]
pub fn test_lines(
    alloc: Global,
    test: &Test,
    heading: &Heading,
    rows: &[ListedRow],
) -> Result<String, AllocError>
    requires { length test.now.opening.words ≡ length test.now.names }
    ensures { IfOk result (λ text. string_bytes text ≡ lines_of (heading_of heading.now) rows.now test.now) }
{
    let opening = test.opening(alloc)?;
    let mut out = String::new(alloc);
    push_line_with(&mut out, "test ", &heading.name)?;
    push_harts(&mut out, rows, &opening.harts)?;
    push_locations(&mut out, test, &opening.words)?;
    push_lefts(&mut out, test)?;
    push_line_with(&mut out, "condition ", &heading.condition)?;
    Ok(out)
}
