//! Laws of the grammar of conditions.

ghost use Rattle.std.specs.Prelude.{◌≡◌, List};
ghost use Rattle.litmus.specs.declared.symbols.Symbol.{Symbol};
ghost use Rattle.litmus.specs.Formulas.{Formula, places};
ghost use Rattle.litmus.specs.Grammar.{IsConditionOf, places_in};

/// The symbols of a condition stand for one formula. It does nothing.
#[tactic(auto, using(crate::proofs::GrammarLaws::finished_only))]
pub fn one_formula()
    ensures { (symbols : List Symbol) → (f g : Formula) → IsConditionOf symbols f → IsConditionOf symbols g → f ≡ g }
{}

/// A formula asks for the places of its symbols, in their order. It does nothing.
pub fn places_of_symbols()
    ensures { (symbols : List Symbol) → (f : Formula) → IsConditionOf symbols f → places f ≡ places_in symbols }
{}
