//! The command `steps`: a steps text in, the state text of its run out.

ghost use Rattle.std.specs.Prelude.{◌≤◌, IfOk};
ghost use Rattle.std.specs.String.{string_bytes};
ghost use Rattle.step_machine.specs.History.{FitsIn};
ghost use Rattle.engine_support.specs.Engines.{Ends};
ghost use Rattle.code_engines.specs.ScriptValue.{script_value, opening_of_script};
ghost use Rattle.engine_support.specs.Inputs.{Reads};
ghost use Rattle.code_engines.specs.Steps.{IsStateText, IsStepsAnswer, steps_texts};
ghost use Rattle.engine_support.specs.inner.{FindsUpToReads, text_and_value};

use crate::steps::script::{Script, read_script};
use engine_support::fault::Fault;
use engine_support::input::read_text;
use engine_support::output::end_with;
use engine_support::state_text::state_text;
use recorder::replay_state;
use std::alloc::{AllocError, Global};
use std::io::{Read, Write};
use step_machine::Opening;

mod line;
mod script;

/// The state text of what a script tells.
fn script_text<const B: usize, const M: usize>(
    alloc: Global,
    script: Script,
) -> Result<String, AllocError>
    requires some_capacity { 1 ≤ B }
    requires capacity { B ≤ 64 }
    requires some_word { 1 ≤ M }
    requires size { M ≤ 65536 }
    requires fits { FitsIn M (opening_of_script (script_value script)) }
    ensures { IfOk result (λ text. IsStateText B M (script_value script) (string_bytes text)) }
{
    let Script {
        harts,
        words,
        events,
    } = script;
    let machine = replay_state::<B, M>(alloc, &Opening { harts, words }, &events)?;
    state_text(alloc, &machine)
}

/// The script of the input that a reader gives.
fn read_steps<const M: usize, R: Read>(alloc: Global, reader: &mut R) -> Result<Script, Fault>
    requires some_word { 1 ≤ M }
    requires size { M ≤ 65536 }
    ensures read { FindsUpToReads (Reads (steps_texts M) (R.remaining reader.old)) script_value result }
    ensures fits { IfOk result (λ script. FitsIn M (opening_of_script (script_value script))) }
{
    let input = read_text(alloc, reader)?;
    read_script::<M>(alloc, input.as_bytes())
}

/// What is to be written for the input that a reader gives. The input is let go before the run.
fn made<const B: usize, const M: usize, R: Read>(
    alloc: Global,
    reader: &mut R,
) -> Result<(String, ()), Fault>
    requires some_capacity { 1 ≤ B }
    requires capacity { B ≤ 64 }
    requires some_word { 1 ≤ M }
    requires size { M ≤ 65536 }
    ensures { FindsUpToReads (IsStepsAnswer B M (R.remaining reader.old)) text_and_value result }
{
    let script = read_steps::<M, R>(alloc, reader)?;
    let text = script_text::<B, M>(alloc, script)?;
    Ok((text, ()))
}

/// Reads a steps text to its end, runs what it tells with store buffers of `B` pairs and `M` words of
/// memory, and writes the state text.
///
/// An input is refused as too large ([`TOO_LARGE`]), else as no text ([`NOT_TEXT`]), else as
/// [`read_script`] says, and then nothing was written.
pub fn steps_engine<const B: usize, const M: usize, R: Read, W: Write>(
    alloc: Global,
    reader: &mut R,
    writer: &mut W,
) -> Result<(), Fault>
    requires some_capacity { 1 ≤ B }
    requires capacity { B ≤ 64 }
    requires some_word { 1 ≤ M }
    requires size { M ≤ 65536 }
    ensures { Ends (IsStepsAnswer B M (R.remaining reader.old)) result W.contents writer.old writer.new }
{
    end_with(made::<B, M, R>(alloc, reader), writer)
}
