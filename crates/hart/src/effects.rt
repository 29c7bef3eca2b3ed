//! What an instruction leaves in the registers and the pc.

ghost use Rattle.std.specs.Prelude.{◌≡◌, ◌<◌, ◌*◌, ◌/◌};
ghost use Rattle.rv_decode.specs.Fits.{Fits};
ghost use Rattle.hart.specs.Effects.{load_width, store_width, sign_extended, extended, stored, updated, computed};
ghost use Rattle.hart.specs.Effects.{with_immediate, shifted, is_taken, register_value, register_written, next_pc, address};
ghost use Rattle.hart.specs.Effects.{registers_after, pc_after};

use rv_decode::instruction::{
    AmoOp, BranchOp, ImmediateOp, Instr, LoadOp, Reg, RegisterOp, ShiftOp, StoreOp,
};

/// The word that an atomic memory operation leaves in memory, of the word `old` that was there and
/// its source register `rs2`.
pub fn amo(op: AmoOp, old: u32, rs2: u32) -> u32
    ensures { result ≡ updated op old rs2 }
{
    match op {
        AmoOp::Add => old.wrapping_add(rs2),
        AmoOp::Swap => rs2,
        AmoOp::Xor => old ^ rs2,
        AmoOp::Or => old | rs2,
        AmoOp::And => old & rs2,
        AmoOp::Min => old.cast_signed().min(rs2.cast_signed()).cast_unsigned(),
        AmoOp::Max => old.cast_signed().max(rs2.cast_signed()).cast_unsigned(),
        AmoOp::MinUnsigned => old.min(rs2),
        AmoOp::MaxUnsigned => old.max(rs2),
    }
}

fn computed(op: RegisterOp, left: u32, right: u32) -> u32
    ensures { result ≡ computed op left right }
{
    match op {
        RegisterOp::Add => left.wrapping_add(right),
        RegisterOp::Sub => left.wrapping_sub(right),
        RegisterOp::ShiftLeft => left.wrapping_shl(right),
        RegisterOp::SetLess => u32::from(left.cast_signed() < right.cast_signed()),
        RegisterOp::SetLessUnsigned => u32::from(left < right),
        RegisterOp::Xor => left ^ right,
        RegisterOp::ShiftRight => left.wrapping_shr(right),
        RegisterOp::ShiftRightArithmetic => left.cast_signed().wrapping_shr(right).cast_unsigned(),
        RegisterOp::Or => left | right,
        RegisterOp::And => left & right,
    }
}

fn with_immediate(op: ImmediateOp, left: u32, immediate: i32) -> u32
    ensures { result ≡ with_immediate op left immediate }
{
    let right = immediate.cast_unsigned();
    match op {
        ImmediateOp::Add => left.wrapping_add(right),
        ImmediateOp::SetLess => u32::from(left.cast_signed() < immediate),
        ImmediateOp::SetLessUnsigned => u32::from(left < right),
        ImmediateOp::Xor => left ^ right,
        ImmediateOp::Or => left | right,
        ImmediateOp::And => left & right,
    }
}

fn shifted(op: ShiftOp, word: u32, amount: u32) -> u32
    requires { amount < 32 }
    ensures { result ≡ shifted op word amount }
{
    match op {
        ShiftOp::Left => word << amount,
        ShiftOp::Right => word >> amount,
        ShiftOp::RightArithmetic => (word.cast_signed() >> amount).cast_unsigned(),
    }
}

/// How many bytes a load reads.
pub(crate) fn load_width(op: LoadOp) -> u32
    ensures value { result ≡ load_width op }
    ensures some { 0 < result }
{
    match op {
        LoadOp::Byte | LoadOp::ByteUnsigned => 1,
        LoadOp::Half | LoadOp::HalfUnsigned => 2,
        LoadOp::Word => 4,
    }
}

/// How many bytes a store writes.
pub(crate) fn store_width(op: StoreOp) -> u32
    ensures value { result ≡ store_width op }
    ensures some { 0 < result }
{
    match op {
        StoreOp::Byte => 1,
        StoreOp::Half => 2,
        StoreOp::Word => 4,
    }
}

/// The number that a store writes, of its register's word.
pub(crate) fn stored(op: StoreOp, word: u32) -> u32
    ensures { result ≡ stored op word }
{
    match op {
        StoreOp::Byte => word % 256,
        StoreOp::Half => word % 65536,
        StoreOp::Word => word,
    }
}

/// The word that a load leaves, of the number that it read.
fn extended(op: LoadOp, read: u32) -> u32
    ensures { result ≡ extended op read }
{
    match op {
        LoadOp::Byte if read >= 128 => read.wrapping_sub(256),
        LoadOp::Half if read >= 32768 => read.wrapping_sub(65536),
        _ => read,
    }
}

/// Whether a conditional branch is taken, where `left` is the word of rs1 and `right` that of rs2.
pub(crate) fn is_taken(op: BranchOp, left: u32, right: u32) -> bool
    ensures { result ≡ is_taken op left right }
{
    match op {
        BranchOp::Equal => left == right,
        BranchOp::NotEqual => left != right,
        BranchOp::Less => left.cast_signed() < right.cast_signed(),
        BranchOp::GreaterEqual => left.cast_signed() >= right.cast_signed(),
        BranchOp::LessUnsigned => left < right,
        BranchOp::GreaterEqualUnsigned => left >= right,
    }
}

/// The register's word. x0 is no case of its own, since a hart keeps 0 there.
pub(crate) fn read(registers: &[u32; 32], register: Reg) -> u32
    ensures { result ≡ register_value registers.now register }
{
    registers[register.number as usize]
}

/// Puts `word` into the register; a write to x0 is dropped.
fn write(registers: &mut [u32; 32], register: Reg, word: u32)
    ensures { registers.new ≡ register_written registers.old register word }
{
    if register.number != 0 {
        registers[register.number as usize] = word;
    }
}

/// Where a load, a store or a jump by `offset` from `base` points.
pub(crate) fn address(base: u32, offset: i32) -> u32
    ensures { result ≡ address base offset }
{
    base.wrapping_add(offset.cast_unsigned())
}

pub(crate) fn next_pc(pc: u32) -> u32
    ensures { result ≡ next_pc pc }
{
    pc.wrapping_add(4)
}

/// The same for a jump to a register: bit 0 is left out.
pub(crate) fn even_address(base: u32, offset: i32) -> u32
    ensures { result ≡ address base offset / 2 * 2 }
{
    address(base, offset) & !1
}

/// Leaves the registers as the instruction at `pc` does, and returns the pc after it. `loaded` is the
/// number that a load or an AMO read, and is not looked at elsewhere. It is one choice among the
/// instructions, since the processor pays for each.
#[inline(always)]
pub(crate) fn apply(instr: &Instr, registers: &mut [u32; 32], pc: u32, loaded: u32) -> u32
    requires { Fits instr.now }
    ensures registers { registers.new ≡ registers_after instr.now registers.old pc loaded }
    ensures pc { result ≡ pc_after instr.now registers.old pc }
{
    match *instr {
        Instr::Lui { rd, upper } => {
            write(registers, rd, upper << 12);
            next_pc(pc)
        }
        Instr::Auipc { rd, upper } => {
            write(registers, rd, pc.wrapping_add(upper << 12));
            next_pc(pc)
        }
        Instr::Jal { rd, offset } => {
            write(registers, rd, next_pc(pc));
            address(pc, offset)
        }
        Instr::Jalr { rd, rs1, offset } => {
            let target = even_address(read(registers, rs1), offset);
            write(registers, rd, next_pc(pc));
            target
        }
        Instr::Branch {
            op,
            rs1,
            rs2,
            offset,
        } => {
            if is_taken(op, read(registers, rs1), read(registers, rs2)) {
                address(pc, offset)
            } else {
                next_pc(pc)
            }
        }
        Instr::Load { op, rd, .. } => {
            write(registers, rd, extended(op, loaded));
            next_pc(pc)
        }
        Instr::Immediate {
            op,
            rd,
            rs1,
            immediate,
        } => {
            let word = with_immediate(op, read(registers, rs1), immediate);
            write(registers, rd, word);
            next_pc(pc)
        }
        Instr::Shift {
            op,
            rd,
            rs1,
            amount,
        } => {
            let word = shifted(op, read(registers, rs1), amount);
            write(registers, rd, word);
            next_pc(pc)
        }
        Instr::Register { op, rd, rs1, rs2 } => {
            let word = computed(op, read(registers, rs1), read(registers, rs2));
            write(registers, rd, word);
            next_pc(pc)
        }
        Instr::Amo { rd, .. } => {
            write(registers, rd, loaded);
            next_pc(pc)
        }
        Instr::Store { .. } => next_pc(pc),
        Instr::Fence { .. } | Instr::FenceTso | Instr::Ecall | Instr::Ebreak => next_pc(pc),
    }
}
