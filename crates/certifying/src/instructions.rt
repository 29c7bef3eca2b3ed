//! Instructions of harts, as lines name them.

ghost use Rattle.std.specs.Prelude.{◌≡◌, ◌++◌, IfSome, OnOk};
ghost use Rattle.std.specs.String.{string_bytes};
ghost use Rattle.rv_decode.specs.Fits.{Fits};
ghost use Rattle.rv_decode.specs.Meaning.{meaning};
ghost use Rattle.queue_certificates.specs.Steps.{instruction_at};
ghost use Rattle.queue_checker.specs.Flaws.{hart_at};
ghost use Rattle.certifying.specs.Descriptions.{instruction_at_pc, instruction_place, instruction_text};

use assembler::write_instr;
use rv_decode::{Instr, decode};
use std::alloc::AllocError;
use step_machine::Opening;

/// The instruction that a word means.
fn meant(word: u32) -> Option<Instr>
    ensures value { result ≡ meaning word }
    ensures fits { IfSome result Fits }
{
    decode(word)
}

/// The instruction of a hart at a pc.
pub fn instruction_of(opening: &Opening, hart: u32, pc: u32) -> Option<Instr>
    ensures value { result ≡ instruction_at (hart_at opening.now hart).code pc }
    ensures fits { IfSome result Fits }
{
    match opening.harts.get(hart as usize) {
        None => None,
        Some(start) => match start.code.get(pc as usize / 4) {
            None => None,
            Some(word) => meant(*word),
        },
    }
}

fn push_instruction(out: &mut String, instr: Option<Instr>) -> Result<(), AllocError>
    requires { IfSome instr Fits }
    ensures { OnOk result (string_bytes out.new ≡ string_bytes out.old ++ instruction_text instr) }
{
    match instr {
        None => out.push_str("no instruction"),
        Some(instr) => write_instr(&instr, out),
    }
}

/// Appends an instruction after its pc.
pub fn push_at_pc(out: &mut String, opening: &Opening, hart: u32, pc: u32) -> Result<(), AllocError>
    ensures { OnOk result (string_bytes out.new ≡ string_bytes out.old ++ instruction_at_pc opening.now hart pc) }
{
    write!(out, "pc {pc}, ")?;
    push_instruction(out, instruction_of(opening, hart, pc))
}

/// Appends an instruction with its place.
pub fn push_place(out: &mut String, opening: &Opening, hart: u32, pc: u32) -> Result<(), AllocError>
    ensures { OnOk result (string_bytes out.new ≡ string_bytes out.old ++ instruction_place opening.now hart pc) }
{
    write!(out, "hart {hart} at pc {pc}, ")?;
    push_instruction(out, instruction_of(opening, hart, pc))
}
