//! Names and what they stand for: mnemonics and the sets of a fence.

ghost use Rattle.std.specs.Prelude.{◌≡◌, ◌<◌, ◌^◌, IfSome};
ghost use Rattle.rv_decode.specs.Registers.{row_of};
ghost use Rattle.assembler.specs.Sets.{set_named};
ghost use Rattle.assembler.specs.Mnemonics.{form_named};

use crate::form::Form;
use rv_decode::tables::{number_in, row_in};
use rv_decode::{AmoOp, BranchOp, ImmediateOp, LoadOp, RegisterOp, ShiftOp, StoreOp};

#[tactic(auto, using(rv_decode::proofs::TableLaws::row_found, rv_decode::proofs::TableLaws::row_missing))]
fn form_in(table: &[(&'static str, Form)], text: &[u8]) -> Option<Form>
    ensures { result ≡ row_of (λ row. row.0.now) (λ row. row.1) table.now text.now }
{
    match row_in(table, text) {
        Some(row) => Some(row.1),
        None => None,
    }
}

/// What the mnemonic asks for; `None` where it is no mnemonic.
#[tactic(auto, unfolding(crate::specs::Mnemonics::form_named))]
pub fn form_named(text: &[u8]) -> Option<Form>
    ensures { result ≡ form_named text.now }
{
    form_in(&MNEMONICS, text)
}

/// The number of the set of accesses, in the letters of a fence; `None` for other texts.
#[tactic(auto, using(rv_decode::proofs::TableLaws::row_below), unfolding(crate::specs::Sets::set_named))]
pub fn set_named(text: &[u8]) -> Option<u8>
    ensures value { result ≡ set_named text.now }
    ensures small { IfSome result (λ set. set < 2 ^ 4) }
{
    number_in(&SETS, text)
}

const MNEMONICS: [(&str, Form); 97] = [
    ("lui", Form::Lui),
    ("auipc", Form::Auipc),
    ("jal", Form::Jal),
    ("jalr", Form::Jalr),
    ("beq", Form::Branch(BranchOp::Equal)),
    ("bne", Form::Branch(BranchOp::NotEqual)),
    ("blt", Form::Branch(BranchOp::Less)),
    ("bge", Form::Branch(BranchOp::GreaterEqual)),
    ("bltu", Form::Branch(BranchOp::LessUnsigned)),
    ("bgeu", Form::Branch(BranchOp::GreaterEqualUnsigned)),
    ("lb", Form::Load(LoadOp::Byte)),
    ("lh", Form::Load(LoadOp::Half)),
    ("lw", Form::Load(LoadOp::Word)),
    ("lbu", Form::Load(LoadOp::ByteUnsigned)),
    ("lhu", Form::Load(LoadOp::HalfUnsigned)),
    ("sb", Form::Store(StoreOp::Byte)),
    ("sh", Form::Store(StoreOp::Half)),
    ("sw", Form::Store(StoreOp::Word)),
    ("addi", Form::Immediate(ImmediateOp::Add)),
    ("slti", Form::Immediate(ImmediateOp::SetLess)),
    ("sltiu", Form::Immediate(ImmediateOp::SetLessUnsigned)),
    ("xori", Form::Immediate(ImmediateOp::Xor)),
    ("ori", Form::Immediate(ImmediateOp::Or)),
    ("andi", Form::Immediate(ImmediateOp::And)),
    ("slli", Form::Shift(ShiftOp::Left)),
    ("srli", Form::Shift(ShiftOp::Right)),
    ("srai", Form::Shift(ShiftOp::RightArithmetic)),
    ("add", Form::Register(RegisterOp::Add)),
    ("sub", Form::Register(RegisterOp::Sub)),
    ("sll", Form::Register(RegisterOp::ShiftLeft)),
    ("slt", Form::Register(RegisterOp::SetLess)),
    ("sltu", Form::Register(RegisterOp::SetLessUnsigned)),
    ("xor", Form::Register(RegisterOp::Xor)),
    ("srl", Form::Register(RegisterOp::ShiftRight)),
    ("sra", Form::Register(RegisterOp::ShiftRightArithmetic)),
    ("or", Form::Register(RegisterOp::Or)),
    ("and", Form::Register(RegisterOp::And)),
    ("fence", Form::Fence),
    ("fence.tso", Form::FenceTso),
    ("ecall", Form::Ecall),
    ("ebreak", Form::Ebreak),
    ("amoswap.w", Form::Amo(AmoOp::Swap, false, false)),
    ("amoswap.w.aq", Form::Amo(AmoOp::Swap, true, false)),
    ("amoswap.w.rl", Form::Amo(AmoOp::Swap, false, true)),
    ("amoswap.w.aqrl", Form::Amo(AmoOp::Swap, true, true)),
    ("amoswap.w.aq.rl", Form::Amo(AmoOp::Swap, true, true)),
    ("amoadd.w", Form::Amo(AmoOp::Add, false, false)),
    ("amoadd.w.aq", Form::Amo(AmoOp::Add, true, false)),
    ("amoadd.w.rl", Form::Amo(AmoOp::Add, false, true)),
    ("amoadd.w.aqrl", Form::Amo(AmoOp::Add, true, true)),
    ("amoadd.w.aq.rl", Form::Amo(AmoOp::Add, true, true)),
    ("amoxor.w", Form::Amo(AmoOp::Xor, false, false)),
    ("amoxor.w.aq", Form::Amo(AmoOp::Xor, true, false)),
    ("amoxor.w.rl", Form::Amo(AmoOp::Xor, false, true)),
    ("amoxor.w.aqrl", Form::Amo(AmoOp::Xor, true, true)),
    ("amoxor.w.aq.rl", Form::Amo(AmoOp::Xor, true, true)),
    ("amoand.w", Form::Amo(AmoOp::And, false, false)),
    ("amoand.w.aq", Form::Amo(AmoOp::And, true, false)),
    ("amoand.w.rl", Form::Amo(AmoOp::And, false, true)),
    ("amoand.w.aqrl", Form::Amo(AmoOp::And, true, true)),
    ("amoand.w.aq.rl", Form::Amo(AmoOp::And, true, true)),
    ("amoor.w", Form::Amo(AmoOp::Or, false, false)),
    ("amoor.w.aq", Form::Amo(AmoOp::Or, true, false)),
    ("amoor.w.rl", Form::Amo(AmoOp::Or, false, true)),
    ("amoor.w.aqrl", Form::Amo(AmoOp::Or, true, true)),
    ("amoor.w.aq.rl", Form::Amo(AmoOp::Or, true, true)),
    ("amomin.w", Form::Amo(AmoOp::Min, false, false)),
    ("amomin.w.aq", Form::Amo(AmoOp::Min, true, false)),
    ("amomin.w.rl", Form::Amo(AmoOp::Min, false, true)),
    ("amomin.w.aqrl", Form::Amo(AmoOp::Min, true, true)),
    ("amomin.w.aq.rl", Form::Amo(AmoOp::Min, true, true)),
    ("amomax.w", Form::Amo(AmoOp::Max, false, false)),
    ("amomax.w.aq", Form::Amo(AmoOp::Max, true, false)),
    ("amomax.w.rl", Form::Amo(AmoOp::Max, false, true)),
    ("amomax.w.aqrl", Form::Amo(AmoOp::Max, true, true)),
    ("amomax.w.aq.rl", Form::Amo(AmoOp::Max, true, true)),
    ("amominu.w", Form::Amo(AmoOp::MinUnsigned, false, false)),
    ("amominu.w.aq", Form::Amo(AmoOp::MinUnsigned, true, false)),
    ("amominu.w.rl", Form::Amo(AmoOp::MinUnsigned, false, true)),
    ("amominu.w.aqrl", Form::Amo(AmoOp::MinUnsigned, true, true)),
    ("amominu.w.aq.rl", Form::Amo(AmoOp::MinUnsigned, true, true)),
    ("amomaxu.w", Form::Amo(AmoOp::MaxUnsigned, false, false)),
    ("amomaxu.w.aq", Form::Amo(AmoOp::MaxUnsigned, true, false)),
    ("amomaxu.w.rl", Form::Amo(AmoOp::MaxUnsigned, false, true)),
    ("amomaxu.w.aqrl", Form::Amo(AmoOp::MaxUnsigned, true, true)),
    ("amomaxu.w.aq.rl", Form::Amo(AmoOp::MaxUnsigned, true, true)),
    ("nop", Form::Nop),
    ("mv", Form::Move),
    ("not", Form::Invert),
    ("neg", Form::Negate),
    ("seqz", Form::IsZero),
    ("snez", Form::IsNotZero),
    ("beqz", Form::BranchZero(BranchOp::Equal)),
    ("bnez", Form::BranchZero(BranchOp::NotEqual)),
    ("j", Form::Jump),
    ("ret", Form::Return),
    ("li", Form::LoadImmediate),
];

const SETS: [(&str, u8); 16] = [
    ("0", 0),
    ("w", 1),
    ("r", 2),
    ("rw", 3),
    ("o", 4),
    ("ow", 5),
    ("or", 6),
    ("orw", 7),
    ("i", 8),
    ("iw", 9),
    ("ir", 10),
    ("irw", 11),
    ("io", 12),
    ("iow", 13),
    ("ior", 14),
    ("iorw", 15),
];
