//! Laws of what the command answers.

ghost use Rattle.std.specs.Prelude.{ℕ, Bool, List, Result, Some};
ghost use Rattle.engine_support.specs.declared.fault.Refusal.{Refusal};
ghost use Rattle.engine_support.specs.Engines.{AreOneAnswer};
ghost use Rattle.checking.specs.Checking.{IsCheckAnswer};

/// Two answers of `check` to one litmus text and one input of records are one text with one value, or refusals
/// of one number. Of a refused litmus text the line isn't stated. It does nothing.
pub fn one_check()
    ensures { (B M : ℕ) (records file : List ℕ) (a b : Result (List ℕ × Bool) Refusal)
        → IsCheckAnswer B M (Some records) (Some file) a → IsCheckAnswer B M (Some records) (Some file) b → AreOneAnswer a b }
{}
