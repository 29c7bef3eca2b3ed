//! What an instruction word can say: a variant for each row of the manual's table.

ghost use Rattle.std.specs.Prelude.{◌<◌};

/// How many instructions a program may have.
pub const MAX_CODE: usize = 4096;

/// An integer register, `x0` to `x31`.
#[derive(Clone, Copy, Debug, PartialEq, Eq)]
pub struct Reg {
    pub number: u8,
    pub ghost below_32: { number < 32 },
}

/// The comparison of a conditional branch, in the order of the manual's table.
#[derive(Clone, Copy, PartialEq, Eq)]
pub enum BranchOp {
    Equal,
    NotEqual,
    Less,
    GreaterEqual,
    LessUnsigned,
    GreaterEqualUnsigned,
}

/// How wide a load is, and how a narrow one is extended.
#[derive(Clone, Copy, PartialEq, Eq)]
pub enum LoadOp {
    Byte,
    Half,
    Word,
    ByteUnsigned,
    HalfUnsigned,
}

/// How wide a store is.
#[derive(Clone, Copy, PartialEq, Eq)]
pub enum StoreOp {
    Byte,
    Half,
    Word,
}

/// An operation of a register and an immediate.
#[derive(Clone, Copy, PartialEq, Eq)]
pub enum ImmediateOp {
    Add,
    SetLess,
    SetLessUnsigned,
    Xor,
    Or,
    And,
}

/// A shift by a constant amount.
#[derive(Clone, Copy, PartialEq, Eq)]
pub enum ShiftOp {
    Left,
    Right,
    RightArithmetic,
}

/// An operation of two registers.
#[derive(Clone, Copy, PartialEq, Eq)]
pub enum RegisterOp {
    Add,
    Sub,
    ShiftLeft,
    SetLess,
    SetLessUnsigned,
    Xor,
    ShiftRight,
    ShiftRightArithmetic,
    Or,
    And,
}

/// The operation of an atomic memory operation (AMO) on a word.
#[derive(Clone, Copy, Debug, PartialEq, Eq)]
pub enum AmoOp {
    Add,
    Swap,
    Xor,
    Or,
    And,
    Min,
    Max,
    MinUnsigned,
    MaxUnsigned,
}

/// An instruction of RV32I or a word AMO of the A extension.
///
/// Offsets and immediates are signed numbers of bytes or plain numbers, as the instruction uses
/// them; `upper` is the 20-bit number that the instruction shifts left by 12.
#[derive(Clone, Copy, PartialEq, Eq)]
pub enum Instr {
    Lui {
        rd: Reg,
        upper: u32,
    },
    Auipc {
        rd: Reg,
        upper: u32,
    },
    Jal {
        rd: Reg,
        offset: i32,
    },
    Jalr {
        rd: Reg,
        rs1: Reg,
        offset: i32,
    },
    Branch {
        op: BranchOp,
        rs1: Reg,
        rs2: Reg,
        offset: i32,
    },
    Load {
        op: LoadOp,
        rd: Reg,
        rs1: Reg,
        offset: i32,
    },
    Store {
        op: StoreOp,
        rs1: Reg,
        rs2: Reg,
        offset: i32,
    },
    Immediate {
        op: ImmediateOp,
        rd: Reg,
        rs1: Reg,
        immediate: i32,
    },
    Shift {
        op: ShiftOp,
        rd: Reg,
        rs1: Reg,
        amount: u32,
    },
    Register {
        op: RegisterOp,
        rd: Reg,
        rs1: Reg,
        rs2: Reg,
    },
    Fence {
        pred: u32,
        succ: u32,
    },
    FenceTso,
    Ecall,
    Ebreak,
    Amo {
        op: AmoOp,
        rd: Reg,
        rs1: Reg,
        rs2: Reg,
        aq: bool,
        rl: bool,
    },
}
