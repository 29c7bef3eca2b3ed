//! From an instruction to a word that means it.

ghost use Rattle.std.specs.Prelude.{◌≡◌, ◌<◌, ◌^◌, ◌↔◌, ℕ, Some, IsTrue};
ghost use Rattle.rv_decode.specs.Word.{field, opcode_of, rd_of, funct3_of, rs1_of, rs2_of, funct7_of, imm_i, imm_s, imm_b, imm_u, imm_j};
ghost use Rattle.rv_decode.specs.Means.{Means, Rd, Rs1, Rs2};
ghost use Rattle.rv_decode.specs.Meaning.{meaning};
ghost use Rattle.rv_decode.specs.Fits.{Fits, HasPlainFence, HasWord, IsEven, IsPlainWord, IsSigned};

use crate::instruction::{Instr, Reg, ShiftOp};
use crate::opcode;
use crate::operations::{
    amo_funct5, branch_funct3, immediate_funct3, load_funct3, register_funct3, register_funct7,
    shift_funct3, shift_funct7, store_funct3,
};
use crate::word::{field, join};

/// Whether some word means `instr`.
///
/// It does where each immediate, shift amount and set of a fence is in the range of its bits, and
/// an offset of a jump or a branch is even. Registers and operations fit by their types.
#[tactic(auto, using(crate::proofs::Words::fits_iff_word))]
pub fn fits(instr: &Instr) -> bool
    ensures ranges { IsTrue result ↔ Fits instr.now }
    ensures meant { IsTrue result ↔ HasWord instr.now }
{
    is_in_range(instr)
}

fn is_in_range(instr: &Instr) -> bool
    ensures { IsTrue result ↔ Fits instr.now }
{
    match *instr {
        Instr::Lui { upper, .. } | Instr::Auipc { upper, .. } => upper < 0x10_0000,
        Instr::Jal { offset, .. } => is_jump_offset(offset),
        Instr::Jalr { offset, .. } => is_short(offset),
        Instr::Branch { offset, .. } => is_branch_offset(offset),
        Instr::Load { offset, .. } => is_short(offset),
        Instr::Store { offset, .. } => is_short(offset),
        Instr::Immediate { immediate, .. } => is_short(immediate),
        Instr::Shift { amount, .. } => amount < 32,
        Instr::Fence { pred, succ } => pred < 16 && succ < 16,
        Instr::Register { .. }
        | Instr::FenceTso
        | Instr::Ecall
        | Instr::Ebreak
        | Instr::Amo { .. } => true,
    }
}

fn is_short(number: i32) -> bool
    ensures { IsTrue result ↔ IsSigned 11 number }
{
    (-0x800..0x800).contains(&number)
}

fn is_branch_offset(offset: i32) -> bool
    ensures { IsTrue result ↔ (IsSigned 12 offset × IsEven offset) }
{
    (-0x1000..0x1000).contains(&offset) && offset % 2 == 0
}

fn is_jump_offset(offset: i32) -> bool
    ensures { IsTrue result ↔ (IsSigned 20 offset × IsEven offset) }
{
    (-0x10_0000..0x10_0000).contains(&offset) && offset % 2 == 0
}

/// The plain word of `instr`, which fits (see [`fits`]).
///
/// Where several words mean it, as they do for a FENCE, the fields that decide nothing are zero.
#[tactic(auto, using(crate::proofs::Meanings::meaning_of, crate::proofs::PlainWords::one_plain_word))]
pub fn encode(instr: &Instr) -> u32
    requires { Fits instr.now }
    ensures means { Means result instr.now }
    ensures fence { HasPlainFence result instr.now }
    ensures again { meaning result ≡ Some instr.now }
    ensures only { (word : ℕ) → IsPlainWord word instr.now → word ≡ result }
{
    row_word(instr)
}

fn row_word(instr: &Instr) -> u32
    requires { Fits instr.now }
    ensures means { Means result instr.now }
    ensures fence { HasPlainFence result instr.now }
{
    match *instr {
        Instr::Lui { rd, upper } => u_word(opcode::LUI, rd, upper),
        Instr::Auipc { rd, upper } => u_word(opcode::AUIPC, rd, upper),
        Instr::Jal { rd, offset } => j_word(opcode::JAL, rd, offset),
        Instr::Jalr { rd, rs1, offset } => i_word(opcode::JALR, rd, 0, rs1, offset),
        Instr::Branch {
            op,
            rs1,
            rs2,
            offset,
        } => b_word(opcode::BRANCH, branch_funct3(op), rs1, rs2, offset),
        Instr::Load {
            op,
            rd,
            rs1,
            offset,
        } => i_word(opcode::LOAD, rd, load_funct3(op), rs1, offset),
        Instr::Store {
            op,
            rs1,
            rs2,
            offset,
        } => s_word(opcode::STORE, store_funct3(op), rs1, rs2, offset),
        Instr::Immediate {
            op,
            rd,
            rs1,
            immediate,
        } => i_word(opcode::OP_IMM, rd, immediate_funct3(op), rs1, immediate),
        Instr::Shift {
            op,
            rd,
            rs1,
            amount,
        } => shift_word(op, rd, rs1, amount),
        Instr::Register { op, rd, rs1, rs2 } => {
            let funct7 = register_funct7(op);
            r_word(opcode::OP, rd, register_funct3(op), rs1, rs2, funct7)
        }
        Instr::Fence { pred, succ } => fence_word(0, pred, succ),
        Instr::FenceTso => fence_word(0b1000, 0b0011, 0b0011),
        Instr::Ecall => 0x0000_0073,
        Instr::Ebreak => 0x0010_0073,
        Instr::Amo {
            op,
            rd,
            rs1,
            rs2,
            aq,
            rl,
        } => {
            let order = join(u32::from(aq), 1, u32::from(rl));
            let funct7 = join(amo_funct5(op), 2, order);
            r_word(opcode::AMO, rd, 2, rs1, rs2, funct7)
        }
    }
}

/// The six fields that a word of the R format is made of, and that the other formats share.
struct Fields {
    opcode: u32,
    rd: u32,
    funct3: u32,
    rs1: u32,
    rs2: u32,
    funct7: u32,
    ghost opcode_fits: { opcode < 2 ^ 7 },
    ghost rd_fits: { rd < 2 ^ 5 },
    ghost funct3_fits: { funct3 < 2 ^ 3 },
    ghost rs1_fits: { rs1 < 2 ^ 5 },
    ghost rs2_fits: { rs2 < 2 ^ 5 },
    ghost funct7_fits: { funct7 < 2 ^ 7 },
}

fn assemble(fields: Fields) -> u32
    ensures opcode { opcode_of result ≡ fields.opcode }
    ensures rd { rd_of result ≡ fields.rd }
    ensures funct3 { funct3_of result ≡ fields.funct3 }
    ensures rs1 { rs1_of result ≡ fields.rs1 }
    ensures rs2 { rs2_of result ≡ fields.rs2 }
    ensures funct7 { funct7_of result ≡ fields.funct7 }
{
    let Fields {
        opcode,
        rd,
        funct3,
        rs1,
        rs2,
        funct7,
    } = fields;
    let registers = join(join(funct7, 5, rs2), 5, rs1);
    join(join(join(registers, 3, funct3), 5, rd), 7, opcode)
}

fn r_word(opcode: u32, rd: Reg, funct3: u32, rs1: Reg, rs2: Reg, funct7: u32) -> u32
    requires opcode { opcode < 2 ^ 7 }
    requires funct3 { funct3 < 2 ^ 3 }
    requires funct7 { funct7 < 2 ^ 7 }
    ensures opcode { opcode_of result ≡ opcode }
    ensures rd { Rd result rd }
    ensures funct3 { funct3_of result ≡ funct3 }
    ensures rs1 { Rs1 result rs1 }
    ensures rs2 { Rs2 result rs2 }
    ensures funct7 { funct7_of result ≡ funct7 }
{
    assemble(Fields {
        opcode,
        rd: u32::from(rd.number),
        funct3,
        rs1: u32::from(rs1.number),
        rs2: u32::from(rs2.number),
        funct7,
    })
}

fn i_word(opcode: u32, rd: Reg, funct3: u32, rs1: Reg, immediate: i32) -> u32
    requires opcode { opcode < 2 ^ 7 }
    requires funct3 { funct3 < 2 ^ 3 }
    requires immediate { IsSigned 11 immediate }
    ensures opcode { opcode_of result ≡ opcode }
    ensures rd { Rd result rd }
    ensures funct3 { funct3_of result ≡ funct3 }
    ensures rs1 { Rs1 result rs1 }
    ensures immediate { immediate ≡ imm_i result }
{
    let bits = immediate.cast_unsigned();
    assemble(Fields {
        opcode,
        rd: u32::from(rd.number),
        funct3,
        rs1: u32::from(rs1.number),
        rs2: field(bits, 0, 5),
        funct7: field(bits, 5, 7),
    })
}

fn s_word(opcode: u32, funct3: u32, rs1: Reg, rs2: Reg, offset: i32) -> u32
    requires opcode { opcode < 2 ^ 7 }
    requires funct3 { funct3 < 2 ^ 3 }
    requires offset { IsSigned 11 offset }
    ensures opcode { opcode_of result ≡ opcode }
    ensures funct3 { funct3_of result ≡ funct3 }
    ensures rs1 { Rs1 result rs1 }
    ensures rs2 { Rs2 result rs2 }
    ensures offset { offset ≡ imm_s result }
{
    let bits = offset.cast_unsigned();
    assemble(Fields {
        opcode,
        rd: field(bits, 0, 5),
        funct3,
        rs1: u32::from(rs1.number),
        rs2: u32::from(rs2.number),
        funct7: field(bits, 5, 7),
    })
}

fn b_word(opcode: u32, funct3: u32, rs1: Reg, rs2: Reg, offset: i32) -> u32
    requires opcode { opcode < 2 ^ 7 }
    requires funct3 { funct3 < 2 ^ 3 }
    requires offset { IsSigned 12 offset }
    requires even { IsEven offset }
    ensures opcode { opcode_of result ≡ opcode }
    ensures funct3 { funct3_of result ≡ funct3 }
    ensures rs1 { Rs1 result rs1 }
    ensures rs2 { Rs2 result rs2 }
    ensures offset { offset ≡ imm_b result }
{
    let bits = offset.cast_unsigned();
    assemble(Fields {
        opcode,
        rd: join(field(bits, 1, 4), 1, field(bits, 11, 1)),
        funct3,
        rs1: u32::from(rs1.number),
        rs2: u32::from(rs2.number),
        funct7: join(field(bits, 12, 1), 6, field(bits, 5, 6)),
    })
}

fn u_word(opcode: u32, rd: Reg, upper: u32) -> u32
    requires opcode { opcode < 2 ^ 7 }
    requires upper { upper < 2 ^ 20 }
    ensures opcode { opcode_of result ≡ opcode }
    ensures rd { Rd result rd }
    ensures upper { upper ≡ imm_u result }
{
    join(join(upper, 5, u32::from(rd.number)), 7, opcode)
}

fn j_word(opcode: u32, rd: Reg, offset: i32) -> u32
    requires opcode { opcode < 2 ^ 7 }
    requires offset { IsSigned 20 offset }
    requires even { IsEven offset }
    ensures opcode { opcode_of result ≡ opcode }
    ensures rd { Rd result rd }
    ensures offset { offset ≡ imm_j result }
{
    let bits = offset.cast_unsigned();
    let high = join(
        join(field(bits, 20, 1), 10, field(bits, 1, 10)),
        1,
        field(bits, 11, 1),
    );
    u_word(opcode, rd, join(high, 8, field(bits, 12, 8)))
}

fn shift_word(op: ShiftOp, rd: Reg, rs1: Reg, amount: u32) -> u32
    requires { amount < 2 ^ 5 }
    ensures { Means result (Instr.Shift op rd rs1 amount) }
{
    assemble(Fields {
        opcode: opcode::OP_IMM,
        rd: u32::from(rd.number),
        funct3: shift_funct3(op),
        rs1: u32::from(rs1.number),
        rs2: amount,
        funct7: shift_funct7(op),
    })
}

/// A FENCE of the given mode (the field fm), with zeros in the fields that name no set.
fn fence_word(mode: u32, pred: u32, succ: u32) -> u32
    requires mode { mode < 2 ^ 4 }
    requires pred { pred < 2 ^ 4 }
    requires succ { succ < 2 ^ 4 }
    ensures opcode { opcode_of result ≡ 0b0001111 }
    ensures rd { rd_of result ≡ 0 }
    ensures funct3 { funct3_of result ≡ 0 }
    ensures rs1 { rs1_of result ≡ 0 }
    ensures mode { field result 28 4 ≡ mode }
    ensures pred { field result 24 4 ≡ pred }
    ensures succ { field result 20 4 ≡ succ }
{
    join(join(join(mode, 4, pred), 4, succ), 20, opcode::MISC_MEM)
}
