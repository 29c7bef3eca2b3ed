//! Whole texts.

ghost use Rattle.std.specs.Prelude.{◌≡◌, List, map, Ok, Some, IfOk};
ghost use Rattle.rv_decode.specs.Meaning.{meaning};
ghost use Rattle.texts.specs.Results.{GivesUpToMemory, refusal_of};
ghost use Rattle.assembler.specs.Drafts.{assembled, AllPlain};
ghost use Rattle.assembler.specs.Program.{IsProgram, AreWordsOf};
ghost use Rattle.rv_decode.specs.declared.instruction.Instr.{Instr};

use crate::draft::Draft;
use crate::faults::AsmError;
use std::alloc::Global;
use texts::first_line;

#[tactic(auto, unfolding(crate::specs::Drafts::assembled))]
fn words_of(alloc: Global, text: &str) -> Result<Vec<u32>, AsmError>
    ensures exact { GivesUpToMemory refusal_of (λ words. map meaning words.items) result (assembled text.now) }
    ensures plain { IfOk result (λ words. AllPlain words.items) }
{
    let mut draft = Draft::new(alloc);
    let mut rest = text.as_bytes();
    while let Some((line, after)) = first_line(rest) {
        draft.read(line)?;
        rest = after;
    }
    draft.finish()
}

/// The words of an assembly text: a [`Draft`] of its lines. A line ends with LF, CR LF or the end of
/// the text, and a last LF begins no further line.
///
/// The fault is the first one, in the order of [`Draft::line`] for all lines from the top and then
/// that of [`Draft::finish`].
#[tactic(auto, using(crate::proofs::ProgramGrammar::found_program, crate::proofs::ProgramGrammar::only_program))]
pub fn assemble(alloc: Global, text: &str) -> Result<Vec<u32>, AsmError>
    ensures found { IfOk result (λ words. (instrs : List Instr) × IsProgram text.now instrs × AreWordsOf words.items instrs) }
    ensures only { (instrs : List Instr) → IsProgram text.now instrs
        → GivesUpToMemory refusal_of (λ words. map meaning words.items) result (Ok (map (λ i. Some i) instrs)) }
    ensures exact { GivesUpToMemory refusal_of (λ words. map meaning words.items) result (assembled text.now) }
    ensures plain { IfOk result (λ words. AllPlain words.items) }
{
    words_of(alloc, text)
}
