//! Laws of what the command answers.

ghost use Rattle.std.specs.Prelude.{ℕ, List, Result, Some};
ghost use Rattle.engine_support.specs.declared.fault.Refusal.{Refusal};
ghost use Rattle.engine_support.specs.Engines.{Output, AreOneAnswer};
ghost use Rattle.debugger.specs.Transcripts.{IsDebugAnswer};

/// Two answers of `debug` to one input of lines, one litmus text and one schedule are one text, or refusals of one number.
/// Of a refused litmus text it isn't said on which line its first fault stands. It does nothing.
pub fn one_debug()
    ensures { (B M : ℕ) (input file schedule : List ℕ) (a b : Result Output Refusal)
        → IsDebugAnswer B M (Some input) (Some file) (Some schedule) a → IsDebugAnswer B M (Some input) (Some file) (Some schedule) b
        → AreOneAnswer a b }
{}
