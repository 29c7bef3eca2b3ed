//! What an instruction computes of words, as `hart` computes it of its registers by functions of its own.

ghost use Rattle.std.specs.Prelude.{◌≡◌, ◌<◌};
ghost use Rattle.hart.specs.Effects.{computed, with_immediate, shifted, is_taken};

use rv_decode::instruction::{BranchOp, ImmediateOp, RegisterOp, ShiftOp};

/// How many words there are.
pub(crate) const WORDS: u64 = 1 << 32;

pub(crate) fn computed(op: RegisterOp, left: u32, right: u32) -> u32
    ensures { result ≡ computed op left right }
{
    match op {
        RegisterOp::Add => left.wrapping_add(right),
        RegisterOp::Sub => left.wrapping_sub(right),
        RegisterOp::ShiftLeft => left.wrapping_shl(right),
        RegisterOp::SetLess => u32::from(left.cast_signed() < right.cast_signed()),
        RegisterOp::SetLessUnsigned => u32::from(left < right),
        RegisterOp::Xor => left ^ right,
        RegisterOp::ShiftRight => left.wrapping_shr(right),
        RegisterOp::ShiftRightArithmetic => left.cast_signed().wrapping_shr(right).cast_unsigned(),
        RegisterOp::Or => left | right,
        RegisterOp::And => left & right,
    }
}

pub(crate) fn with_immediate(op: ImmediateOp, left: u32, immediate: i32) -> u32
    ensures { result ≡ with_immediate op left immediate }
{
    let right = immediate.cast_unsigned();
    match op {
        ImmediateOp::Add => left.wrapping_add(right),
        ImmediateOp::SetLess => u32::from(left.cast_signed() < immediate),
        ImmediateOp::SetLessUnsigned => u32::from(left < right),
        ImmediateOp::Xor => left ^ right,
        ImmediateOp::Or => left | right,
        ImmediateOp::And => left & right,
    }
}

pub(crate) fn shifted(op: ShiftOp, word: u32, amount: u32) -> u32
    requires { amount < 32 }
    ensures { result ≡ shifted op word amount }
{
    match op {
        ShiftOp::Left => word << amount,
        ShiftOp::Right => word >> amount,
        ShiftOp::RightArithmetic => (word.cast_signed() >> amount).cast_unsigned(),
    }
}

pub(crate) fn is_taken(op: BranchOp, left: u32, right: u32) -> bool
    ensures { result ≡ is_taken op left right }
{
    match op {
        BranchOp::Equal => left == right,
        BranchOp::NotEqual => left != right,
        BranchOp::Less => left.cast_signed() < right.cast_signed(),
        BranchOp::GreaterEqual => left.cast_signed() >= right.cast_signed(),
        BranchOp::LessUnsigned => left < right,
        BranchOp::GreaterEqualUnsigned => left >= right,
    }
}
