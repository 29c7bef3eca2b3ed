//! The command `asm`: an assembly text in, its words out.

ghost use Rattle.std.specs.Prelude.{◌≡◌, ◌++◌, map, IfOk, OnOk};
ghost use Rattle.std.specs.List.{flat_map};
ghost use Rattle.std.specs.String.{string_bytes};
ghost use Rattle.rv_decode.specs.Meaning.{meaning};
ghost use Rattle.assembler.specs.Program.{IsCode};
ghost use Rattle.engine_support.specs.Faults.{Answers};
ghost use Rattle.engine_support.specs.Engines.{Ends};
ghost use Rattle.engine_support.specs.Inputs.{Reads};
ghost use Rattle.code_engines.specs.Asm.{asm_at, assembly_texts, hex_line, IsAsmAnswer};
ghost use Rattle.engine_support.specs.inner.{FindsUpToReads, text_and_value};

use assembler::assemble;
use engine_support::fault::Fault;
use engine_support::input::read_text;
use engine_support::output::end_with;
use engine_support::words::have_32_bits;
use std::alloc::{AllocError, Global};
use std::io::{Read, Write};

/// The words of a text.
#[tactic(auto, unfolding(crate::specs::Asm::asm_at))]
fn code_of(alloc: Global, text: &str) -> Result<Vec<u32>, Fault>
    ensures code { IfOk result (λ code. IsCode text.now code.items) }
    ensures exact { Answers (λ code. map meaning code.items) result (asm_at text.now) }
{
    let code = assemble(alloc, text)?;
    have_32_bits(&code);
    Ok(code)
}

/// The words of the input that a reader gives.
fn read_code<R: Read>(alloc: Global, reader: &mut R) -> Result<Vec<u32>, Fault>
    ensures { FindsUpToReads (Reads assembly_texts (R.remaining reader.old)) (λ code. code.items) result }
{
    let text = read_text(alloc, reader)?;
    code_of(alloc, &text)
}

#[tactic(auto, using(texts::proofs::HexWords::eight_digits))]
fn push_hex_line(out: &mut String, word: u32) -> Result<(), AllocError>
    ensures { OnOk result (string_bytes out.new ≡ string_bytes out.old ++ hex_line word) }
{
    writeln!(out, "{word:08x}")
}

fn code_text(alloc: Global, code: &[u32]) -> Result<String, AllocError>
    ensures { IfOk result (λ text. string_bytes text ≡ flat_map hex_line code.now) }
{
    let mut out = String::new(alloc);
    for word in code {
        push_hex_line(&mut out, *word)?;
    }
    Ok(out)
}

/// What is to be written for the input that a reader gives.
fn made<R: Read>(alloc: Global, reader: &mut R) -> Result<(String, ()), Fault>
    ensures { FindsUpToReads (IsAsmAnswer (R.remaining reader.old)) text_and_value result }
{
    let code = read_code(alloc, reader)?;
    let lines = code_text(alloc, &code)?;
    Ok((lines, ()))
}

/// Reads an assembly text to its end, and writes its words, each as 8 hex digits on a line.
///
/// An input is refused as too large ([`engine_support::fault::TOO_LARGE`]), else as no text
/// ([`engine_support::fault::NOT_TEXT`]), else as [`assemble`] says, at the line, and then nothing was written.
pub fn asm_engine<R: Read, W: Write>(
    alloc: Global,
    reader: &mut R,
    writer: &mut W,
) -> Result<(), Fault>
    ensures { Ends (IsAsmAnswer (R.remaining reader.old)) result W.contents writer.old writer.new }
{
    end_with(made(alloc, reader), writer)
}
