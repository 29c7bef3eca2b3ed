//! Openings as steps texts.

ghost use Rattle.std.specs.Prelude.{◌≡◌, ◌<◌, ◌≤◌, ◌^◌, ◌∷◌, ◌++◌, length, IfOk, OnOk};
ghost use Rattle.std.specs.String.{string_bytes};
ghost use Rattle.texts.specs.Numbers.{hex_word as eight_digits};
ghost use Rattle.engine_support.specs.OpeningTexts.{code_line, hart_steps, numbered, register_line, registers_text, steps_text as steps_text_of, word_line};

use std::alloc::{AllocError, Global};
use step_machine::{HartOpening, Opening};

/// Appends a word as 8 hex digits.
#[tactic(auto, using(texts::proofs::HexWords::eight_digits))]
pub fn push_hex_word(out: &mut String, word: u32) -> Result<(), AllocError>
    ensures { OnOk result (string_bytes out.new ≡ string_bytes out.old ++ eight_digits word) }
{
    write!(out, "{word:08x}")
}

fn push_next_word(out: &mut String, word: u32) -> Result<(), AllocError>
    ensures { OnOk result (string_bytes out.new ≡ string_bytes out.old ++ 32 ∷ eight_digits word) }
{
    write!(out, " ")?;
    push_hex_word(out, word)
}

/// The line of a hart's code.
fn push_code_line(out: &mut String, code: &[u32]) -> Result<(), AllocError>
    ensures { OnOk result (string_bytes out.new ≡ string_bytes out.old ++ code_line code.now) }
{
    write!(out, "hart")?;
    for word in code {
        push_next_word(out, *word)?;
    }
    writeln!(out, "")
}

fn push_register_line(
    out: &mut String,
    hart: usize,
    number: usize,
    value: u32,
) -> Result<(), AllocError>
    ensures { OnOk result (string_bytes out.new ≡ string_bytes out.old ++ register_line hart number value) }
{
    if value == 0 {
        return Ok(());
    }
    writeln!(out, "reg {hart} {number} {value}")
}

/// The lines of a hart's registers.
pub fn push_registers(out: &mut String, hart: usize, registers: &[u32]) -> Result<(), AllocError>
    ensures { OnOk result (string_bytes out.new ≡ string_bytes out.old ++ registers_text hart registers.now) }
{
    for (number, value) in registers.iter().enumerate() {
        push_register_line(out, hart, number, *value)?;
    }
    Ok(())
}

/// The lines of a hart.
fn push_hart_steps(out: &mut String, hart: usize, start: &HartOpening) -> Result<(), AllocError>
    ensures { OnOk result (string_bytes out.new ≡ string_bytes out.old ++ hart_steps hart start.now) }
{
    push_code_line(out, &start.code)?;
    push_registers(out, hart, &start.registers)
}

fn push_harts_steps(out: &mut String, harts: &[HartOpening]) -> Result<(), AllocError>
    ensures { OnOk result (string_bytes out.new ≡ string_bytes out.old ++ numbered hart_steps 0 harts.now) }
{
    for (hart, start) in harts.iter().enumerate() {
        push_hart_steps(out, hart, start)?;
    }
    Ok(())
}

fn push_word_line(out: &mut String, place: usize, value: u32) -> Result<(), AllocError>
    requires { place < 2 ^ 32 }
    ensures { OnOk result (string_bytes out.new ≡ string_bytes out.old ++ word_line place value) }
{
    if value == 0 {
        return Ok(());
    }
    let address = 4 * place;
    writeln!(out, "word {address} {value}")
}

fn push_word_lines(out: &mut String, words: &[u32]) -> Result<(), AllocError>
    requires { length words.now ≤ 2 ^ 32 }
    ensures { OnOk result (string_bytes out.new ≡ string_bytes out.old ++ numbered word_line 0 words.now) }
{
    for (place, value) in words.iter().enumerate() {
        push_word_line(out, place, *value)?;
    }
    Ok(())
}

/// An opening as a steps text.
#[tactic(auto, unfolding(engine_support::specs::OpeningTexts::steps_text))]
pub fn steps_text(alloc: Global, opening: &Opening) -> Result<String, AllocError>
    requires { length opening.now.words ≤ 2 ^ 32 }
    ensures { IfOk result (λ text. string_bytes text ≡ steps_text_of opening.now) }
{
    let mut out = String::new(alloc);
    push_harts_steps(&mut out, &opening.harts)?;
    push_word_lines(&mut out, &opening.words)?;
    Ok(out)
}
