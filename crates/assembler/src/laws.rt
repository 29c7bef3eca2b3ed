//! What the definitions say of one another.

ghost use Rattle.std.specs.Prelude.{◌≡◌, ◌↔◌, ℕ, ℤ, pos, negsuc, ◌≤ℤ◌, List, [], ◌∷◌};
ghost use Rattle.std.specs.Result.{IsErr};
ghost use Rattle.assembler.specs.Program.{IsProgram, IsCode};
ghost use Rattle.rv_decode.specs.Fits.{Fits, IsPlainWord};
ghost use Rattle.rv_decode.specs.declared.instruction.Instr.{Instr};
ghost use Rattle.rv_decode.specs.declared.instruction.Reg.{Reg};
ghost use Rattle.assembler.specs.Loading.{Puts};
ghost use Rattle.assembler.specs.Statements.{wrapped, loaded};
ghost use Rattle.assembler.specs.Drafts.{Line, assembled};
ghost use Rattle.assembler.specs.Grammar.{IsLine};
ghost use Rattle.assembler.specs.Writing.{text_of};

/// The text of an instruction that has a word is a program of this instruction, and the code of its
/// plain word.
#[tactic(auto, using(crate::proofs::OneCode::program_again, crate::proofs::OneCode::code_again))]
pub fn read_again()
    ensures program { (i : Instr) → Fits i → IsProgram (text_of i) (i ∷ []) }
    ensures code { (i : Instr) (word : ℕ) → IsPlainWord word i → IsCode (text_of i) (word ∷ []) }
{}

/// A text is one line, a program of one list of instructions and the code of one list of plain words,
/// at most.
pub fn one_value()
    ensures lines { (text : List ℕ) (a b : Line) → IsLine text a → IsLine text b → a ≡ b }
    ensures programs { (text : List ℕ) (a b : List Instr) → IsProgram text a → IsProgram text b → a ≡ b }
    ensures codes { (text a b : List ℕ) → IsCode text a → IsCode text b → a ≡ b }
{}

/// Reading a text from the top names a fault exactly where the text is no program.
pub fn refused_without_value()
    ensures { (text : List ℕ) → IsErr (assembled text) ↔ ((instrs : List Instr) → ¬ IsProgram text instrs) }
{}

/// What `li` makes puts its number in the register, for each number that it takes.
#[tactic(auto, using(crate::proofs::LoadingLaws::number_put))]
pub fn number_put()
    ensures { (rd : Reg) (n : ℤ) → negsuc 2147483647 ≤ℤ n → n ≤ℤ pos 4294967295 → Puts rd n (loaded rd (wrapped n)) }
{}
