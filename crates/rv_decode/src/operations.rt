//! The operations of each row, and the numbers that name them in their words, both ways.

ghost use Rattle.std.specs.Prelude.{◌≡◌, ◌≢◌, IfSome, IfNone};
ghost use Rattle.rv_decode.specs.Means.{branch_funct3, load_funct3, store_funct3, immediate_funct3, shift_funct3};
ghost use Rattle.rv_decode.specs.Means.{shift_funct7, register_funct3, register_funct7, amo_funct5};
ghost use Rattle.rv_decode.specs.declared.instruction.BranchOp.{BranchOp};
ghost use Rattle.rv_decode.specs.declared.instruction.LoadOp.{LoadOp};
ghost use Rattle.rv_decode.specs.declared.instruction.StoreOp.{StoreOp};
ghost use Rattle.rv_decode.specs.declared.instruction.ImmediateOp.{ImmediateOp};
ghost use Rattle.rv_decode.specs.declared.instruction.ShiftOp.{ShiftOp};
ghost use Rattle.rv_decode.specs.declared.instruction.RegisterOp.{RegisterOp};
ghost use Rattle.rv_decode.specs.declared.instruction.AmoOp.{AmoOp};

use crate::instruction::{AmoOp, BranchOp, ImmediateOp, LoadOp, RegisterOp, ShiftOp, StoreOp};

pub(crate) fn branch_op(funct3: u32) -> Option<BranchOp>
    ensures found { IfSome result (λ op. funct3 ≡ branch_funct3 op) }
    ensures none { IfNone result ((op : BranchOp) → funct3 ≢ branch_funct3 op) }
{
    Some(match funct3 {
        0 => BranchOp::Equal,
        1 => BranchOp::NotEqual,
        4 => BranchOp::Less,
        5 => BranchOp::GreaterEqual,
        6 => BranchOp::LessUnsigned,
        7 => BranchOp::GreaterEqualUnsigned,
        _ => return None,
    })
}

pub(crate) fn branch_funct3(op: BranchOp) -> u32
    ensures { result ≡ branch_funct3 op }
{
    match op {
        BranchOp::Equal => 0,
        BranchOp::NotEqual => 1,
        BranchOp::Less => 4,
        BranchOp::GreaterEqual => 5,
        BranchOp::LessUnsigned => 6,
        BranchOp::GreaterEqualUnsigned => 7,
    }
}

pub(crate) fn load_op(funct3: u32) -> Option<LoadOp>
    ensures found { IfSome result (λ op. funct3 ≡ load_funct3 op) }
    ensures none { IfNone result ((op : LoadOp) → funct3 ≢ load_funct3 op) }
{
    Some(match funct3 {
        0 => LoadOp::Byte,
        1 => LoadOp::Half,
        2 => LoadOp::Word,
        4 => LoadOp::ByteUnsigned,
        5 => LoadOp::HalfUnsigned,
        _ => return None,
    })
}

pub(crate) fn load_funct3(op: LoadOp) -> u32
    ensures { result ≡ load_funct3 op }
{
    match op {
        LoadOp::Byte => 0,
        LoadOp::Half => 1,
        LoadOp::Word => 2,
        LoadOp::ByteUnsigned => 4,
        LoadOp::HalfUnsigned => 5,
    }
}

pub(crate) fn store_op(funct3: u32) -> Option<StoreOp>
    ensures found { IfSome result (λ op. funct3 ≡ store_funct3 op) }
    ensures none { IfNone result ((op : StoreOp) → funct3 ≢ store_funct3 op) }
{
    Some(match funct3 {
        0 => StoreOp::Byte,
        1 => StoreOp::Half,
        2 => StoreOp::Word,
        _ => return None,
    })
}

pub(crate) fn store_funct3(op: StoreOp) -> u32
    ensures { result ≡ store_funct3 op }
{
    match op {
        StoreOp::Byte => 0,
        StoreOp::Half => 1,
        StoreOp::Word => 2,
    }
}

pub(crate) fn immediate_op(funct3: u32) -> Option<ImmediateOp>
    ensures found { IfSome result (λ op. funct3 ≡ immediate_funct3 op) }
    ensures none { IfNone result ((op : ImmediateOp) → funct3 ≢ immediate_funct3 op) }
{
    Some(match funct3 {
        0 => ImmediateOp::Add,
        2 => ImmediateOp::SetLess,
        3 => ImmediateOp::SetLessUnsigned,
        4 => ImmediateOp::Xor,
        6 => ImmediateOp::Or,
        7 => ImmediateOp::And,
        _ => return None,
    })
}

pub(crate) fn immediate_funct3(op: ImmediateOp) -> u32
    ensures { result ≡ immediate_funct3 op }
{
    match op {
        ImmediateOp::Add => 0,
        ImmediateOp::SetLess => 2,
        ImmediateOp::SetLessUnsigned => 3,
        ImmediateOp::Xor => 4,
        ImmediateOp::Or => 6,
        ImmediateOp::And => 7,
    }
}

pub(crate) fn shift_op(funct3: u32, funct7: u32) -> Option<ShiftOp>
    ensures found { IfSome result (λ op. (funct3 ≡ shift_funct3 op) × (funct7 ≡ shift_funct7 op)) }
    ensures none { IfNone result ((op : ShiftOp) → ¬ ((funct3 ≡ shift_funct3 op) × (funct7 ≡ shift_funct7 op))) }
{
    Some(match (funct3, funct7) {
        (1, 0) => ShiftOp::Left,
        (5, 0) => ShiftOp::Right,
        (5, 0b0100000) => ShiftOp::RightArithmetic,
        _ => return None,
    })
}

pub(crate) fn shift_funct3(op: ShiftOp) -> u32
    ensures { result ≡ shift_funct3 op }
{
    match op {
        ShiftOp::Left => 1,
        ShiftOp::Right | ShiftOp::RightArithmetic => 5,
    }
}

pub(crate) fn shift_funct7(op: ShiftOp) -> u32
    ensures { result ≡ shift_funct7 op }
{
    match op {
        ShiftOp::Left | ShiftOp::Right => 0,
        ShiftOp::RightArithmetic => 0b0100000,
    }
}

pub(crate) fn register_op(funct3: u32, funct7: u32) -> Option<RegisterOp>
    ensures found { IfSome result (λ op. (funct3 ≡ register_funct3 op) × (funct7 ≡ register_funct7 op)) }
    ensures none { IfNone result ((op : RegisterOp) → ¬ ((funct3 ≡ register_funct3 op) × (funct7 ≡ register_funct7 op))) }
{
    Some(match (funct3, funct7) {
        (0, 0) => RegisterOp::Add,
        (0, 0b0100000) => RegisterOp::Sub,
        (1, 0) => RegisterOp::ShiftLeft,
        (2, 0) => RegisterOp::SetLess,
        (3, 0) => RegisterOp::SetLessUnsigned,
        (4, 0) => RegisterOp::Xor,
        (5, 0) => RegisterOp::ShiftRight,
        (5, 0b0100000) => RegisterOp::ShiftRightArithmetic,
        (6, 0) => RegisterOp::Or,
        (7, 0) => RegisterOp::And,
        _ => return None,
    })
}

pub(crate) fn register_funct3(op: RegisterOp) -> u32
    ensures { result ≡ register_funct3 op }
{
    match op {
        RegisterOp::Add | RegisterOp::Sub => 0,
        RegisterOp::ShiftLeft => 1,
        RegisterOp::SetLess => 2,
        RegisterOp::SetLessUnsigned => 3,
        RegisterOp::Xor => 4,
        RegisterOp::ShiftRight | RegisterOp::ShiftRightArithmetic => 5,
        RegisterOp::Or => 6,
        RegisterOp::And => 7,
    }
}

pub(crate) fn register_funct7(op: RegisterOp) -> u32
    ensures { result ≡ register_funct7 op }
{
    match op {
        RegisterOp::Add
        | RegisterOp::ShiftLeft
        | RegisterOp::SetLess
        | RegisterOp::SetLessUnsigned
        | RegisterOp::Xor
        | RegisterOp::ShiftRight
        | RegisterOp::Or
        | RegisterOp::And => 0,
        RegisterOp::Sub | RegisterOp::ShiftRightArithmetic => 0b0100000,
    }
}

pub(crate) fn amo_op(funct5: u32) -> Option<AmoOp>
    ensures found { IfSome result (λ op. funct5 ≡ amo_funct5 op) }
    ensures none { IfNone result ((op : AmoOp) → funct5 ≢ amo_funct5 op) }
{
    Some(match funct5 {
        0b00000 => AmoOp::Add,
        0b00001 => AmoOp::Swap,
        0b00100 => AmoOp::Xor,
        0b01000 => AmoOp::Or,
        0b01100 => AmoOp::And,
        0b10000 => AmoOp::Min,
        0b10100 => AmoOp::Max,
        0b11000 => AmoOp::MinUnsigned,
        0b11100 => AmoOp::MaxUnsigned,
        _ => return None,
    })
}

pub(crate) fn amo_funct5(op: AmoOp) -> u32
    ensures { result ≡ amo_funct5 op }
{
    match op {
        AmoOp::Add => 0b00000,
        AmoOp::Swap => 0b00001,
        AmoOp::Xor => 0b00100,
        AmoOp::Or => 0b01000,
        AmoOp::And => 0b01100,
        AmoOp::Min => 0b10000,
        AmoOp::Max => 0b10100,
        AmoOp::MinUnsigned => 0b11000,
        AmoOp::MaxUnsigned => 0b11100,
    }
}
