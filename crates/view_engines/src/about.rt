//! What a chart shows of a run beside its entries.

ghost use Rattle.std.specs.Prelude.{◌≡◌, ◌++◌, ◌≤◌, ◌<◌, IfOk, OnOk, length, map};
ghost use Rattle.std.specs.List.{slice_get};
ghost use Rattle.std.specs.String.{string_bytes};
ghost use Rattle.rv_decode.specs.Meaning.{meaning};
ghost use Rattle.step_machine.specs.History.{history_of};
ghost use Rattle.step_machine.specs.Legal.{IsOfHarts, WellFormed};
ghost use Rattle.litmus.specs.LitmusTests.{IsThere, left_sides};
ghost use Rattle.litmus.specs.Verdicts.{final_value};
ghost use Rattle.litmus_reader.specs.Headings.{heading_of};
ghost use Rattle.chart.specs.Pictures.{shown_byte};
ghost use Rattle.engine_support.specs.Outcomes.{place_text};
ghost use Rattle.view_engines.specs.LeastWidths.{least_widths as widths_of_test};
ghost use Rattle.view_engines.specs.About.{IsAbout, instruction_of, row_instructions, last_value as value_of_left};
ghost use Rattle.view_engines.specs.About.{meant, next_instruction, verdict_name, word_at_pc, word_meant};

use crate::least_widths::least_widths;
use assembler::write_instr;
use chart::charts::{About, LastValue, LeastWidths};
use chart::text::push_shown;
use engine_support::places::push_place;
use litmus::{Place, Test, Verdict};
use litmus_reader::Heading;
use rv_decode::decode;
use std::alloc::{AllocError, Global};
use step_machine::{Entry, Machine, Opening};

/// Appends the text of the instruction that a word means, if it means one.
pub fn push_meant(out: &mut String, word: u32) -> Result<(), AllocError>
    ensures { OnOk result (string_bytes out.new ≡ string_bytes out.old ++ meant (meaning word)) }
{
    match decode(word) {
        None => Ok(()),
        Some(instr) => write_instr(&instr, out),
    }
}

pub fn word_text(alloc: Global, word: Option<u32>) -> Result<String, AllocError>
    ensures { IfOk result (λ text. string_bytes text ≡ word_meant word) }
{
    let mut text = String::new(alloc);
    match word {
        None => Ok(text),
        Some(word) => {
            push_meant(&mut text, word)?;
            Ok(text)
        }
    }
}

/// The word at a pc of a hart's code.
fn word_of(opening: &Opening, hart: u32, pc: u32) -> Option<u32>
    ensures { result ≡ word_at_pc (slice_get opening.now.harts hart) pc }
{
    match opening.harts.get(hart as usize) {
        None => None,
        Some(hart) => hart.code.get(pc as usize / 4).copied(),
    }
}

/// The instruction at a hart's pc.
fn next_text<const B: usize, const M: usize>(
    alloc: Global,
    machine: &Machine<B, M>,
    hart: u32,
) -> Result<String, AllocError>
    requires { hart < length machine.now.history.opening.harts }
    ensures { IfOk result (λ text. string_bytes text ≡ next_instruction M machine.now.history hart) }
{
    let pc = machine.pc(hart);
    word_text(alloc, word_of(machine.opening(), hart, pc))
}

/// The instruction by which an entry is to come about.
fn instruction_text<const B: usize, const M: usize>(
    alloc: Global,
    machine: &Machine<B, M>,
    entry: Entry,
) -> Result<String, AllocError>
    requires { IsOfHarts machine.now.history.opening entry }
    ensures { IfOk result (λ text. string_bytes text ≡ instruction_of M machine.now.history entry) }
{
    if entry.is_land() {
        Ok(String::new(alloc))
    } else {
        next_text(alloc, machine, entry.hart())
    }
}

/// The instruction of each of a run's entries. The machine runs them anew.
fn instructions<const B: usize, const M: usize>(
    alloc: Global,
    machine: &mut Machine<B, M>,
    entries: &[Entry],
) -> Result<Vec<String>, AllocError>
    requires { WellFormed B M (history_of machine.old.history.opening entries.now) }
    ensures { IfOk result (λ texts. map string_bytes texts.items ≡ row_instructions M (history_of machine.old.history.opening entries.now)) }
{
    machine.restart();
    let mut texts = Vec::new(alloc);
    for entry in entries {
        texts.push(instruction_text(alloc, machine, *entry)?)?;
        machine.step(entry.event())?;
    }
    Ok(texts)
}

/// The names of a test's locations; `count` is how many.
fn names_of(alloc: Global, test: &Test, count: usize) -> Result<Vec<String>, AllocError>
    requires all { count ≡ length test.now.names }
    requires few { count ≤ 65536 }
    ensures { IfOk result (λ names. map string_bytes names.items ≡ test.now.names) }
{
    let mut names = Vec::new(alloc);
    for place in 0..count {
        names.push(String::from_str(alloc, test.name(4 * place as u32))?)?;
    }
    Ok(names)
}

/// How wide the columns of a machine's test are at least.
fn widths_of<const B: usize, const M: usize>(
    alloc: Global,
    names: &[String],
    machine: &Machine<B, M>,
) -> Result<LeastWidths, AllocError>
    requires { length names.now ≤ 65536 }
    ensures { IfOk result (λ least. least ≡ widths_of_test (map string_bytes names.now) machine.now.history.opening.harts) }
{
    least_widths(alloc, names, &machine.opening().harts)
}

/// An observed location of the condition.
fn left_of(alloc: Global, test: &Test, place: Place) -> Result<String, AllocError>
    requires { IsThere (length test.now.opening.harts) (length test.now.names) place }
    ensures { IfOk result (λ text. string_bytes text ≡ place_text test.now.names place) }
{
    let mut left = String::new(alloc);
    push_place(&mut left, test, place)?;
    Ok(left)
}

/// A place's last value.
fn value_of<const B: usize, const M: usize>(machine: &Machine<B, M>, place: Place) -> u32
    requires { IsThere (length machine.now.history.opening.harts) M place }
    ensures { result ≡ final_value M machine.now.history place }
{
    match place {
        Place::Register { hart, number } => machine.register(hart, number),
        Place::Word { address } => machine.word(address),
    }
}

/// An observed location with its last value.
fn last_value<const B: usize, const M: usize>(
    alloc: Global,
    test: &Test,
    machine: &Machine<B, M>,
    place: Place,
) -> Result<LastValue, AllocError>
    requires there { IsThere (length test.now.opening.harts) (length test.now.names) place }
    requires harts { length machine.now.history.opening.harts ≡ length test.now.opening.harts }
    requires words { length test.now.names ≤ M }
    ensures { IfOk result (λ value. value ≡ value_of_left M test.now.names machine.now.history place) }
{
    let left = left_of(alloc, test, place)?;
    let value = value_of(machine, place);
    Ok(LastValue { left, value })
}

/// The observed locations of the condition with their last values.
fn last_values<const B: usize, const M: usize>(
    alloc: Global,
    test: &Test,
    machine: &Machine<B, M>,
) -> Result<Vec<LastValue>, AllocError>
    requires harts { length machine.now.history.opening.harts ≡ length test.now.opening.harts }
    requires words { length test.now.names ≤ M }
    ensures { IfOk result (λ values. values.items ≡ map (value_of_left M test.now.names machine.now.history) (left_sides test.now.condition)) }
{
    let mut values = Vec::new(alloc);
    for place in test.lefts() {
        values.push(last_value(alloc, test, machine, *place)?)?;
    }
    Ok(values)
}

fn verdict_name(alloc: Global, verdict: Verdict) -> Result<String, AllocError>
    ensures { IfOk result (λ text. string_bytes text ≡ verdict_name verdict) }
{
    match verdict {
        Verdict::Holds => String::from_str(alloc, "Holds"),
        Verdict::Fails => String::from_str(alloc, "Fails"),
        Verdict::Unfinished => String::from_str(alloc, "Unfinished"),
    }
}

/// Some bytes as charts show them.
fn shown_text(alloc: Global, bytes: &[u8]) -> Result<String, AllocError>
    ensures { IfOk result (λ text. string_bytes text ≡ map shown_byte bytes.now) }
{
    let mut text = String::new(alloc);
    push_shown(&mut text, bytes)?;
    Ok(text)
}

/// What is known of a test's run by a machine, whose entries these are. The machine runs them anew.
pub fn about_run<const B: usize, const M: usize>(
    alloc: Global,
    test: &Test,
    heading: &Heading,
    machine: &mut Machine<B, M>,
    entries: &[Entry],
) -> Result<About, AllocError>
    requires entries { machine.old.history ≡ history_of machine.old.history.opening entries.now }
    requires kept { WellFormed B M machine.old.history }
    requires harts { length machine.old.history.opening.harts ≡ length test.now.opening.harts }
    requires locations { length machine.old.history.opening.words ≡ length test.now.names }
    requires words { length test.now.names ≤ M }
    requires size { M ≤ 65536 }
    ensures { IfOk result (λ about. IsAbout M test.now (heading_of heading.now) machine.old.history about) }
{
    let name = shown_text(alloc, &heading.name)?;
    let condition = shown_text(alloc, &heading.condition)?;
    let names = names_of(alloc, test, machine.opening().words.len())?;
    let least = widths_of(alloc, &names, machine)?;
    let values = last_values(alloc, test, machine)?;
    let verdict = verdict_name(alloc, test.verdict(machine.machine_state()))?;
    let harts = machine.harts();
    let instructions = instructions(alloc, machine, entries)?;
    Ok(About {
        name,
        harts,
        least,
        names,
        instructions,
        values,
        verdict,
        condition,
    })
}
