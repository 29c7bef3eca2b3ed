//! Laws of the grammars.

ghost use Rattle.std.specs.Prelude.{◌≡◌, ℕ, List};
ghost use Rattle.litmus_tokens.specs.Assignments.{AssignmentValue, an_assignment, item};
ghost use Rattle.litmus_tokens.specs.Tokens.{Token, AreTokens, tokens_of, listed};

/// A text says one assignment at most, and an item too. It does nothing.
pub fn one_value()
    ensures assignments { (text : List ℕ) → (a b : AssignmentValue) → an_assignment.Says text a → an_assignment.Says text b → a ≡ b }
    ensures items { (text : List ℕ) → (a b : AssignmentValue) → item.Says text a → item.Says text b → a ≡ b }
{}

/// The tokens that a text has up to its end are the tokens that it spells. It does nothing.
#[tactic(auto, using(crate::proofs::Spelling::are_tokens, crate::proofs::Spelling::tokens_are))]
pub fn tokens_are_spelled()
    ensures found { (text : List ℕ) → (tokens : List Token) → tokens_of text ≡ listed tokens → AreTokens text tokens }
    ensures only { (text : List ℕ) → (tokens : List Token) → AreTokens text tokens → tokens_of text ≡ listed tokens }
{}
