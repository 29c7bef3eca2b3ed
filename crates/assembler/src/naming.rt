//! The mnemonics of instructions.

ghost use Rattle.std.specs.Prelude.{◌≡◌, ◌<◌, ◌^◌};
ghost use Rattle.assembler.specs.Writing.{branch_name, load_name, store_name, immediate_name, shift_name, register_name, amo_name, order_name, set_text};

use rv_decode::{AmoOp, BranchOp, ImmediateOp, LoadOp, RegisterOp, ShiftOp, StoreOp};

pub fn branch_name(op: BranchOp) -> &'static str
    ensures { result.now ≡ branch_name op }
{
    match op {
        BranchOp::Equal => "beq",
        BranchOp::NotEqual => "bne",
        BranchOp::Less => "blt",
        BranchOp::GreaterEqual => "bge",
        BranchOp::LessUnsigned => "bltu",
        BranchOp::GreaterEqualUnsigned => "bgeu",
    }
}

pub fn load_name(op: LoadOp) -> &'static str
    ensures { result.now ≡ load_name op }
{
    match op {
        LoadOp::Byte => "lb",
        LoadOp::Half => "lh",
        LoadOp::Word => "lw",
        LoadOp::ByteUnsigned => "lbu",
        LoadOp::HalfUnsigned => "lhu",
    }
}

pub fn store_name(op: StoreOp) -> &'static str
    ensures { result.now ≡ store_name op }
{
    match op {
        StoreOp::Byte => "sb",
        StoreOp::Half => "sh",
        StoreOp::Word => "sw",
    }
}

pub fn immediate_name(op: ImmediateOp) -> &'static str
    ensures { result.now ≡ immediate_name op }
{
    match op {
        ImmediateOp::Add => "addi",
        ImmediateOp::SetLess => "slti",
        ImmediateOp::SetLessUnsigned => "sltiu",
        ImmediateOp::Xor => "xori",
        ImmediateOp::Or => "ori",
        ImmediateOp::And => "andi",
    }
}

pub fn shift_name(op: ShiftOp) -> &'static str
    ensures { result.now ≡ shift_name op }
{
    match op {
        ShiftOp::Left => "slli",
        ShiftOp::Right => "srli",
        ShiftOp::RightArithmetic => "srai",
    }
}

pub fn register_name(op: RegisterOp) -> &'static str
    ensures { result.now ≡ register_name op }
{
    match op {
        RegisterOp::Add => "add",
        RegisterOp::Sub => "sub",
        RegisterOp::ShiftLeft => "sll",
        RegisterOp::SetLess => "slt",
        RegisterOp::SetLessUnsigned => "sltu",
        RegisterOp::Xor => "xor",
        RegisterOp::ShiftRight => "srl",
        RegisterOp::ShiftRightArithmetic => "sra",
        RegisterOp::Or => "or",
        RegisterOp::And => "and",
    }
}

pub fn amo_name(op: AmoOp) -> &'static str
    ensures { result.now ≡ amo_name op }
{
    match op {
        AmoOp::Swap => "amoswap.w",
        AmoOp::Add => "amoadd.w",
        AmoOp::Xor => "amoxor.w",
        AmoOp::And => "amoand.w",
        AmoOp::Or => "amoor.w",
        AmoOp::Min => "amomin.w",
        AmoOp::Max => "amomax.w",
        AmoOp::MinUnsigned => "amominu.w",
        AmoOp::MaxUnsigned => "amomaxu.w",
    }
}

/// The suffix for the bits aq and rl.
pub fn order_name(aq: bool, rl: bool) -> &'static str
    ensures { result.now ≡ order_name aq rl }
{
    match (aq, rl) {
        (false, false) => "",
        (true, false) => ".aq",
        (false, true) => ".rl",
        (true, true) => ".aqrl",
    }
}

/// The letters of a set of accesses.
pub fn set_text(set: u32) -> &'static str
    requires { set < 2 ^ 4 }
    ensures { result.now ≡ set_text set }
{
    match set {
        0 => "0",
        1 => "w",
        2 => "r",
        3 => "rw",
        4 => "o",
        5 => "ow",
        6 => "or",
        7 => "orw",
        8 => "i",
        9 => "iw",
        10 => "ir",
        11 => "irw",
        12 => "io",
        13 => "iow",
        14 => "ior",
        _ => "iorw",
    }
}
