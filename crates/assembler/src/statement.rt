//! What a statement makes, and the operands that it makes it of.

ghost use Rattle.std.specs.Prelude.{◌≡◌, ℕ, List, [], ◌∷◌, IfOk, IfErr};
ghost use Rattle.assembler.specs.declared.faults.AsmFault.TheVariants.{BadOperand};
ghost use Rattle.assembler.specs.Lines.{left, is_pair};

use crate::faults::AsmFault;
use rv_decode::{BranchOp, Instr, Reg};
use texts::cutting::{cut_at, trimmed};

/// What a statement makes, before the places of labels are known.
#[derive(Clone, Copy)]
pub enum Statement<'a> {
    One(Instr),
    /// Two instructions, as a number of more than 12 bits takes.
    Two(Instr, Instr),
    /// A jump to the label.
    Jump {
        rd: Reg,
        label: &'a [u8],
    },
    /// A branch to the label.
    Branch {
        op: BranchOp,
        rs1: Reg,
        rs2: Reg,
        label: &'a [u8],
    },
}

/// The operands of a statement that are left, between commas.
#[derive(Clone, Copy)]
pub struct Operands<'a> {
    pub rest: Option<&'a [u8]>,
}

impl<'a> Operands<'a> {
    /// The next operand from the left.
    #[tactic(auto, using(crate::proofs::Commas::first_between))]
    pub fn next(&mut self) -> Result<&'a [u8], AsmFault>
        ensures more { IfOk result (λ operand. left self.old ≡ operand.now ∷ left self.new) }
        ensures none { IfErr result (λ fault. (left self.old ≡ []) × (fault ≡ BadOperand)) }
    {
        let Some(text) = self.rest else {
            return Err(AsmFault::BadOperand);
        };
        let (operand, rest) = cut_at(text, b',');
        self.rest = rest;
        Ok(trimmed(operand))
    }

    /// No operand is left.
    pub fn end(mut self) -> Result<(), AsmFault>
        ensures none { IfOk result (λ end. left self.entry ≡ []) }
        ensures more { IfErr result (λ fault. ((operand : List ℕ) × (others : List (List ℕ)) × (left self.entry ≡ operand ∷ others)) × (fault ≡ BadOperand)) }
    {
        match self.next() {
            Ok(_) => Err(AsmFault::BadOperand),
            Err(_) => Ok(()),
        }
    }

    /// Whether exactly two operands are left.
    pub fn are_two(mut self) -> bool
        ensures { result ≡ is_pair (left self.entry) }
    {
        self.next().is_ok() && self.next().is_ok() && self.end().is_ok()
    }
}
