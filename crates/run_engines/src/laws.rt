//! Laws of what the commands answer.

ghost use Rattle.std.specs.Prelude.{ℕ, List, Result, Some};
ghost use Rattle.litmus.specs.declared.verdict.Verdict.{Verdict};
ghost use Rattle.engine_support.specs.declared.fault.Refusal.{Refusal};
ghost use Rattle.engine_support.specs.Engines.{Output, AreOneAnswer};
ghost use Rattle.run_engines.specs.Run.{IsRunAnswer, IsReplayAnswer, IsMoveAnswer};

/// What a command answers is one function of the litmus text and the schedule: the output with the exit status's value,
/// or a refusal. Of a refused litmus text it isn't said on which line its first fault stands, so the number of the refusal
/// is one. It does nothing.
pub fn one_answer()
    ensures run { (B M : ℕ) (file schedule : List ℕ) (a b : Result (List ℕ × Verdict) Refusal)
        → IsRunAnswer B M (Some file) (Some schedule) a → IsRunAnswer B M (Some file) (Some schedule) b → AreOneAnswer a b }
    ensures replay { (B M : ℕ) (file schedule : List ℕ) (a b : Result Output Refusal)
        → IsReplayAnswer B M (Some file) (Some schedule) a → IsReplayAnswer B M (Some file) (Some schedule) b → AreOneAnswer a b }
    ensures moved { (B M : ℕ) (file schedule : List ℕ) (a b : Result Output Refusal)
        → IsMoveAnswer B M (Some file) (Some schedule) a → IsMoveAnswer B M (Some file) (Some schedule) b → AreOneAnswer a b }
{}
