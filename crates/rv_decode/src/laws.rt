//! What the definitions say of one another.

ghost use Rattle.std.specs.Prelude.{◌≡◌, ℕ};
ghost use Rattle.rv_decode.specs.Fits.{IsPlainWord};
ghost use Rattle.rv_decode.specs.declared.instruction.Instr.{Instr};

/// An instruction has one plain word at most: below 2^32, with zeros in the fields of a FENCE that
/// decide nothing. It does nothing.
#[tactic(auto, using(crate::proofs::PlainWords::one_plain_word))]
pub fn one_plain_word()
    ensures { (i : Instr) (a b : ℕ) → IsPlainWord a i → IsPlainWord b i → a ≡ b }
{}
