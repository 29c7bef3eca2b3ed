//! From a word to the instruction that it means.

ghost use Rattle.std.specs.Prelude.{◌≡◌, ◌↔◌, IfSome, IfNone, IsNone};
ghost use Rattle.rv_decode.specs.Word.{field, opcode_of, funct3_of};
ghost use Rattle.rv_decode.specs.Means.{Means};
ghost use Rattle.rv_decode.specs.Meaning.{meaning};
ghost use Rattle.rv_decode.specs.declared.instruction.Instr.{Instr};

use crate::instruction::Instr;
use crate::opcode;
use crate::operations::{
    amo_op, branch_op, immediate_op, load_op, register_op, shift_op, store_op,
};
use crate::word::{field, imm_b, imm_i, imm_j, imm_s, imm_u, register};

/// The instruction that `word` means, or `None` where no row of the manual's table applies.
#[tactic(auto, using(crate::proofs::Unique::exact_answer, crate::proofs::Meanings::meaning_answer))]
pub fn decode(word: u32) -> Option<Instr>
    ensures exact { (i : Instr) → (result ≡ Some i) ↔ Means word i }
    ensures none { IsNone result ↔ ((i : Instr) → ¬ Means word i) }
    ensures value { result ≡ meaning word }
{
    by_opcode(word)
}

fn by_opcode(word: u32) -> Option<Instr>
    ensures found { IfSome result (Means word) }
    ensures none { IfNone result ((i : Instr) → ¬ Means word i) }
{
    let rd = register(word, 7);
    let funct3 = field(word, 12, 3);
    match field(word, 0, 7) {
        opcode::LUI => Some(Instr::Lui {
            rd,
            upper: imm_u(word),
        }),
        opcode::AUIPC => Some(Instr::Auipc {
            rd,
            upper: imm_u(word),
        }),
        opcode::JAL => Some(Instr::Jal {
            rd,
            offset: imm_j(word),
        }),
        opcode::JALR if funct3 == 0 => Some(Instr::Jalr {
            rd,
            rs1: register(word, 15),
            offset: imm_i(word),
        }),
        opcode::BRANCH => branch(word),
        opcode::LOAD => load(word),
        opcode::STORE => store(word),
        opcode::OP_IMM => immediate(word),
        opcode::OP => registers(word),
        opcode::MISC_MEM if funct3 == 0 => Some(fence(word)),
        opcode::SYSTEM if word == 0x0000_0073 => Some(Instr::Ecall),
        opcode::SYSTEM if word == 0x0010_0073 => Some(Instr::Ebreak),
        opcode::AMO if funct3 == 2 => atomic(word),
        _ => None,
    }
}

fn branch(word: u32) -> Option<Instr>
    requires { opcode_of word ≡ 0b1100011 }
    ensures found { IfSome result (Means word) }
    ensures none { IfNone result ((i : Instr) → ¬ Means word i) }
{
    Some(Instr::Branch {
        op: branch_op(field(word, 12, 3))?,
        rs1: register(word, 15),
        rs2: register(word, 20),
        offset: imm_b(word),
    })
}

fn load(word: u32) -> Option<Instr>
    requires { opcode_of word ≡ 0b0000011 }
    ensures found { IfSome result (Means word) }
    ensures none { IfNone result ((i : Instr) → ¬ Means word i) }
{
    Some(Instr::Load {
        op: load_op(field(word, 12, 3))?,
        rd: register(word, 7),
        rs1: register(word, 15),
        offset: imm_i(word),
    })
}

fn store(word: u32) -> Option<Instr>
    requires { opcode_of word ≡ 0b0100011 }
    ensures found { IfSome result (Means word) }
    ensures none { IfNone result ((i : Instr) → ¬ Means word i) }
{
    Some(Instr::Store {
        op: store_op(field(word, 12, 3))?,
        rs1: register(word, 15),
        rs2: register(word, 20),
        offset: imm_s(word),
    })
}

/// An immediate operation or a shift, which share an opcode and differ by funct3.
fn immediate(word: u32) -> Option<Instr>
    requires { opcode_of word ≡ 0b0010011 }
    ensures found { IfSome result (Means word) }
    ensures none { IfNone result ((i : Instr) → ¬ Means word i) }
{
    let funct3 = field(word, 12, 3);
    let (rd, rs1) = (register(word, 7), register(word, 15));
    if let Some(op) = immediate_op(funct3) {
        let immediate = imm_i(word);
        return Some(Instr::Immediate {
            op,
            rd,
            rs1,
            immediate,
        });
    }
    let op = shift_op(funct3, field(word, 25, 7))?;
    let amount = field(word, 20, 5);
    Some(Instr::Shift {
        op,
        rd,
        rs1,
        amount,
    })
}

fn registers(word: u32) -> Option<Instr>
    requires { opcode_of word ≡ 0b0110011 }
    ensures found { IfSome result (Means word) }
    ensures none { IfNone result ((i : Instr) → ¬ Means word i) }
{
    Some(Instr::Register {
        op: register_op(field(word, 12, 3), field(word, 25, 7))?,
        rd: register(word, 7),
        rs1: register(word, 15),
        rs2: register(word, 20),
    })
}

/// A FENCE, or the one FENCE word whose mode and sets make it FENCE.TSO. Its other fields are free.
fn fence(word: u32) -> Instr
    requires opcode { opcode_of word ≡ 0b0001111 }
    requires funct3 { funct3_of word ≡ 0 }
    ensures { Means word result }
{
    let (pred, succ) = (field(word, 24, 4), field(word, 20, 4));
    match (field(word, 28, 4), pred, succ) {
        (0b1000, 0b0011, 0b0011) => Instr::FenceTso,
        _ => Instr::Fence { pred, succ },
    }
}

fn atomic(word: u32) -> Option<Instr>
    requires opcode { opcode_of word ≡ 0b0101111 }
    requires funct3 { funct3_of word ≡ 2 }
    ensures found { IfSome result (Means word) }
    ensures none { IfNone result ((i : Instr) → ¬ Means word i) }
{
    Some(Instr::Amo {
        op: amo_op(field(word, 27, 5))?,
        rd: register(word, 7),
        rs1: register(word, 15),
        rs2: register(word, 20),
        aq: field(word, 26, 1) == 1,
        rl: field(word, 25, 1) == 1,
    })
}
