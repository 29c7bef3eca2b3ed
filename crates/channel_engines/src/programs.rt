//! A user's own programs of a channel: one that each sender runs, and one that the receiver runs.

ghost use Rattle.std.specs.Prelude.{◌≤◌, IfOk, length, map};
ghost use Rattle.std.specs.Result.{IsErr};
ghost use Rattle.rv_decode.specs.Meaning.{meaning};
ghost use Rattle.rv_decode.specs.declared.instruction.TheConstants.{MAX_CODE};
ghost use Rattle.assembler.specs.Program.{IsCode};
ghost use Rattle.engine_support.specs.Faults.{Answers};
ghost use Rattle.engine_support.specs.Inputs.{IsRefused, Reads};
ghost use Rattle.engine_support.specs.inner.{FindsUpToReads};
ghost use Rattle.channel_engines.specs.UserChannels.{program_at, programs};

use assembler::{AsmError, assemble};
use engine_support::fault::{Fault, Position, Role};
use engine_support::input::read_text;
use engine_support::words::have_32_bits;
use std::alloc::Global;
use std::io::Read;
use texts::{AtLine, Numbered};

/// The code of a program's text.
#[tactic(auto, unfolding(crate::specs::UserChannels::program_at))]
fn code_of_program(alloc: Global, role: Role, text: &str) -> Result<Vec<u32>, Fault>
    ensures code { IfOk result (λ code. IsCode text.now code.items) }
    ensures exact { Answers (λ code. map meaning code.items) result (program_at role text.now) }
    ensures short { IfOk result (λ code. length code.items ≤ MAX_CODE) }
{
    match assemble(alloc, text) {
        Ok(code) => {
            have_32_bits(&code);
            Ok(code)
        }
        Err(AsmError::NoMemory) => Err(Fault::NoMemory),
        Err(AsmError::Refused(AtLine { fault, line })) => Err(Fault::refused(
            fault.number(),
            Position::ProgramLine { role, line },
        )),
    }
}

/// The code of the program that a reader gives.
pub(crate) fn read_program<R: Read>(
    alloc: Global,
    role: Role,
    reader: &mut R,
) -> Result<Vec<u32>, Fault>
    ensures program { FindsUpToReads (Reads (programs role) (R.remaining reader.old)) (λ code. code.items) result }
    ensures refused { IsRefused (programs role) (R.remaining reader.old) → IsErr result }
    ensures short { IfOk result (λ code. length code.items ≤ MAX_CODE) }
{
    let text = read_text(alloc, reader)?;
    code_of_program(alloc, role, &text)
}
