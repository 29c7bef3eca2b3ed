//! Laws of what the command answers.

ghost use Rattle.std.specs.Prelude.{ℕ, Bool, List, Result, Some};
ghost use Rattle.engine_support.specs.declared.fault.Refusal.{Refusal};
ghost use Rattle.engine_support.specs.Engines.{AreOneAnswer};
ghost use Rattle.drawn_runs.specs.Samples.{DrawnRuns};
ghost use Rattle.sampling.specs.Outcomes.{IsTryAnswer};
ghost use Rattle.sampling.specs.declared.trials.outcomes.Unfinished.{Unfinished};

/// Two answers of `try` to one litmus text, by the same drawn runs, are one text with one value, or refusals of one number.
/// Of a refused litmus text it isn't said on which line its first fault stands. It does nothing.
pub fn one_try()
    ensures { (d : DrawnRuns) (left : Unfinished) (file : List ℕ) (a b : Result (List ℕ × Bool) Refusal)
        → IsTryAnswer d left (Some file) a → IsTryAnswer d left (Some file) b → AreOneAnswer a b }
{}
