//! Instruction words in hex.

ghost use Rattle.texts.specs.Results.{GivesUpToMemory, refusal_of};
ghost use Rattle.texts.specs.Cutting.{tokens};
ghost use Rattle.code_engines.specs.Asm.{code_at};

use engine_support::fault::{BAD, LineFault};
use std::alloc::Global;
use texts::{first_token, hex_word};

/// The instruction words that the words of a line say, however many.
#[tactic(auto, unfolding(crate::specs::Asm::code_at, texts::specs::Formats::each))]
pub fn code_of(alloc: Global, text: &[u8]) -> Result<Vec<u32>, LineFault>
    ensures { GivesUpToMemory refusal_of (λ code. code.items) result (code_at (tokens text.now)) }
{
    let mut code = Vec::new(alloc);
    let mut rest = text;
    while let Some((digits, after)) = first_token(rest) {
        code.push(hex_word(digits).ok_or(BAD)?)?;
        rest = after;
    }
    Ok(code)
}
