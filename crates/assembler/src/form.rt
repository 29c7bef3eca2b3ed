//! What a mnemonic asks of its operands.

use rv_decode::{AmoOp, BranchOp, ImmediateOp, LoadOp, RegisterOp, ShiftOp, StoreOp};

/// The operands that a mnemonic takes and the instruction that it makes of them: the rows of the
/// manual first, then the pseudoinstructions.
#[derive(Clone, Copy)]
pub enum Form {
    Lui,
    Auipc,
    Jal,
    Jalr,
    Branch(BranchOp),
    Load(LoadOp),
    Store(StoreOp),
    Immediate(ImmediateOp),
    Shift(ShiftOp),
    Register(RegisterOp),
    Fence,
    FenceTso,
    Ecall,
    Ebreak,
    /// With the bits aq and rl.
    Amo(AmoOp, bool, bool),
    Nop,
    Move,
    Invert,
    Negate,
    IsZero,
    IsNotZero,
    BranchZero(BranchOp),
    Jump,
    Return,
    LoadImmediate,
}
