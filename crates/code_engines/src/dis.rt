//! The command `dis`: words in hex in, what they mean out.

ghost use Rattle.std.specs.Prelude.{◌≡◌, ◌++◌, IfOk, OnOk};
ghost use Rattle.std.specs.List.{flat_map};
ghost use Rattle.std.specs.String.{string_bytes};
ghost use Rattle.rv_decode.specs.Meaning.{meaning};
ghost use Rattle.engine_support.specs.Faults.{Answers, at_line as line_at};
ghost use Rattle.engine_support.specs.Engines.{Ends};
ghost use Rattle.engine_support.specs.Inputs.{Reads};
ghost use Rattle.texts.specs.Cutting.{tokens};
ghost use Rattle.code_engines.specs.Asm.{code_at};
ghost use Rattle.code_engines.specs.Dis.{code_texts, dis_at, meant_text, instr_line, IsDisAnswer};
ghost use Rattle.engine_support.specs.inner.{FindsUpToReads, text_and_value};

use crate::code::code_of;
use assembler::write_instr;
use engine_support::fault::{Fault, at_line};
use engine_support::input::read_text;
use engine_support::output::end_with;
use rv_decode::decode;
use std::alloc::{AllocError, Global};
use std::io::{Read, Write};
use texts::first_line;

/// The instruction words of the line of this number.
#[tactic(auto, using(engine_support::proofs::LineReading::refused_at_line))]
fn code_of_line(alloc: Global, line: &[u8], number: usize) -> Result<Vec<u32>, Fault>
    ensures { Answers (λ code. code.items) result (line_at number (code_at (tokens line.now))) }
{
    match code_of(alloc, line) {
        Ok(code) => Ok(code),
        Err(fault) => Err(at_line(fault, number)),
    }
}

/// The instruction words of a text.
#[tactic(auto, unfolding(crate::specs::Dis::dis_at, crate::specs::Dis::code_of_lines))]
fn code_of_text(alloc: Global, text: &[u8]) -> Result<Vec<u32>, Fault>
    ensures { Answers (λ code. code.items) result (dis_at text.now) }
{
    let mut all = Vec::new(alloc);
    let mut rest = text;
    let mut number = 0;
    while let Some((line, after)) = first_line(rest) {
        number += 1;
        let code = code_of_line(alloc, line, number)?;
        all.extend_from_slice(&code)?;
        rest = after;
    }
    Ok(all)
}

/// The instruction words of the input that a reader gives.
fn read_code<R: Read>(alloc: Global, reader: &mut R) -> Result<Vec<u32>, Fault>
    ensures { FindsUpToReads (Reads code_texts (R.remaining reader.old)) (λ code. code.items) result }
{
    let text = read_text(alloc, reader)?;
    code_of_text(alloc, text.as_bytes())
}

/// Appends what a word means.
fn push_meant(out: &mut String, word: u32) -> Result<(), AllocError>
    ensures { OnOk result (string_bytes out.new ≡ string_bytes out.old ++ meant_text (meaning word)) }
{
    match decode(word) {
        None => out.push_str("illegal"),
        Some(instr) => write_instr(&instr, out),
    }
}

fn push_instr_line(out: &mut String, word: u32) -> Result<(), AllocError>
    ensures { OnOk result (string_bytes out.new ≡ string_bytes out.old ++ instr_line word) }
{
    push_meant(out, word)?;
    out.push_str("\n")
}

fn code_text(alloc: Global, code: &[u32]) -> Result<String, AllocError>
    ensures { IfOk result (λ text. string_bytes text ≡ flat_map instr_line code.now) }
{
    let mut out = String::new(alloc);
    for word in code {
        push_instr_line(&mut out, *word)?;
    }
    Ok(out)
}

/// What is to be written for the input that a reader gives.
fn made<R: Read>(alloc: Global, reader: &mut R) -> Result<(String, ()), Fault>
    ensures { FindsUpToReads (IsDisAnswer (R.remaining reader.old)) text_and_value result }
{
    let code = read_code(alloc, reader)?;
    let lines = code_text(alloc, &code)?;
    Ok((lines, ()))
}

/// Reads words of 8 hex digits to the end, parted by blanks and line ends, and writes what each means
/// on a line, or `illegal`.
///
/// An input is refused as too large ([`engine_support::fault::TOO_LARGE`]), else as no text
/// ([`engine_support::fault::NOT_TEXT`]), else at the line of its first word that isn't 8 hex digits
/// ([`engine_support::fault::BAD_LINE`]), and then nothing was written.
pub fn dis_engine<R: Read, W: Write>(
    alloc: Global,
    reader: &mut R,
    writer: &mut W,
) -> Result<(), Fault>
    ensures { Ends (IsDisAnswer (R.remaining reader.old)) result W.contents writer.old writer.new }
{
    end_with(made(alloc, reader), writer)
}
