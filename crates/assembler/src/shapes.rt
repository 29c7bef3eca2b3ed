//! The operands of each mnemonic: a function for each row of the manual's assembly syntax, and for
//! each pseudoinstruction.

ghost use Rattle.std.specs.Prelude.{◌≡◌, pos, [], ◌∷◌, IfOk};
ghost use Rattle.rv_decode.specs.declared.instruction.Instr.TheVariants as instr;
ghost use Rattle.assembler.specs.Operands.{register, short, address, Tells, target_of, IsInReach};
ghost use Rattle.rv_decode.specs.Fits.{Fits};
ghost use Rattle.assembler.specs.declared.form.Form.TheVariants as form;
ghost use Rattle.assembler.specs.Lines.{left};
ghost use Rattle.assembler.specs.Statements.{one, statement_of, read_operands, made_of, MadeFits, jump_to, branch_to};

use crate::faults::AsmFault;
use crate::form::Form;
use crate::loading::loaded;
use crate::operands::{
    Address, JumpTarget, natural, number_from, pointer, register, set, short_address, short_number,
    target,
};
use crate::statement::{Operands, Statement};
use rv_decode::registers::reg;
use rv_decode::{AmoOp, BranchOp, ImmediateOp, Instr, LoadOp, Reg, RegisterOp, ShiftOp, StoreOp};

fn jump_to(rd: Reg, place: JumpTarget<'_>) -> Statement<'_>
    requires { IsInReach (pos 1048576) (target_of place) }
    ensures made { made_of result ≡ jump_to rd (target_of place.entry) }
    ensures fits { MadeFits (made_of result) }
{
    match place {
        JumpTarget::Bytes(offset) => Statement::One(Instr::Jal { rd, offset }),
        JumpTarget::Label(label) => Statement::Jump { rd, label },
    }
}

fn branch_to(op: BranchOp, rs1: Reg, rs2: Reg, place: JumpTarget<'_>) -> Statement<'_>
    requires { IsInReach (pos 4096) (target_of place) }
    ensures made { made_of result ≡ branch_to op rs1 rs2 (target_of place.entry) }
    ensures fits { MadeFits (made_of result) }
{
    match place {
        JumpTarget::Bytes(offset) => Statement::One(Instr::Branch {
            op,
            rs1,
            rs2,
            offset,
        }),
        JumpTarget::Label(label) => Statement::Branch {
            op,
            rs1,
            rs2,
            label,
        },
    }
}

#[tactic(auto, unfolding(crate::specs::Statements::operand_row))]
fn lui<'a>(mut operands: Operands<'a>) -> Result<Statement<'a>, AsmFault>
    ensures made { Tells made_of result (statement_of form.Lui (left operands.entry)) }
    ensures fits { IfOk result (λ statement. MadeFits (made_of statement)) }
{
    let rd = register(operands.next()?)?;
    let upper = natural(operands.next()?, 0xF_FFFF)?;
    operands.end()?;
    Ok(Statement::One(Instr::Lui { rd, upper }))
}

#[tactic(auto, unfolding(crate::specs::Statements::operand_row))]
fn auipc<'a>(mut operands: Operands<'a>) -> Result<Statement<'a>, AsmFault>
    ensures made { Tells made_of result (statement_of form.Auipc (left operands.entry)) }
    ensures fits { IfOk result (λ statement. MadeFits (made_of statement)) }
{
    let rd = register(operands.next()?)?;
    let upper = natural(operands.next()?, 0xF_FFFF)?;
    operands.end()?;
    Ok(Statement::One(Instr::Auipc { rd, upper }))
}

#[tactic(auto, unfolding(crate::specs::Statements::operand_row))]
fn jal<'a>(mut operands: Operands<'a>) -> Result<Statement<'a>, AsmFault>
    ensures made { Tells made_of result (statement_of form.Jal (left operands.entry)) }
    ensures fits { IfOk result (λ statement. MadeFits (made_of statement)) }
{
    let rd = register(operands.next()?)?;
    let to = target(operands.next()?, 0x10_0000)?;
    operands.end()?;
    Ok(jump_to(rd, to))
}

fn jalr_to_address<'a>(mut operands: Operands<'a>) -> Result<Statement<'a>, AsmFault>
    ensures made { Tells made_of result (read_operands (register ∷ address ∷ []) (λ rd at. one (instr.Jalr rd at.0 at.1)) (left operands.entry)) }
    ensures fits { IfOk result (λ statement. MadeFits (made_of statement)) }
{
    let rd = register(operands.next()?)?;
    let Address { base, offset } = short_address(operands.next()?)?;
    operands.end()?;
    Ok(Statement::One(Instr::Jalr {
        rd,
        rs1: base,
        offset,
    }))
}

fn jalr_to_register<'a>(mut operands: Operands<'a>) -> Result<Statement<'a>, AsmFault>
    ensures made { Tells made_of result (read_operands (register ∷ register ∷ short ∷ []) (λ rd rs1 n. one (instr.Jalr rd rs1 n)) (left operands.entry)) }
    ensures fits { IfOk result (λ statement. MadeFits (made_of statement)) }
{
    let rd = register(operands.next()?)?;
    let rs1 = register(operands.next()?)?;
    let offset = short_number(operands.next()?)?;
    operands.end()?;
    Ok(Statement::One(Instr::Jalr { rd, rs1, offset }))
}

#[tactic(auto, using(crate::proofs::OperandTable::jalr_pair, crate::proofs::OperandTable::jalr_other))]
fn jalr<'a>(operands: Operands<'a>) -> Result<Statement<'a>, AsmFault>
    ensures made { Tells made_of result (statement_of form.Jalr (left operands.entry)) }
    ensures fits { IfOk result (λ statement. MadeFits (made_of statement)) }
{
    if operands.are_two() {
        jalr_to_address(operands)
    } else {
        jalr_to_register(operands)
    }
}

#[tactic(auto, unfolding(crate::specs::Statements::operand_row))]
fn branch<'a>(op: BranchOp, mut operands: Operands<'a>) -> Result<Statement<'a>, AsmFault>
    ensures made { Tells made_of result (statement_of (form.Branch op) (left operands.entry)) }
    ensures fits { IfOk result (λ statement. MadeFits (made_of statement)) }
{
    let rs1 = register(operands.next()?)?;
    let rs2 = register(operands.next()?)?;
    let to = target(operands.next()?, 0x1000)?;
    operands.end()?;
    Ok(branch_to(op, rs1, rs2, to))
}

#[tactic(auto, unfolding(crate::specs::Statements::operand_row))]
fn load<'a>(op: LoadOp, mut operands: Operands<'a>) -> Result<Statement<'a>, AsmFault>
    ensures made { Tells made_of result (statement_of (form.Load op) (left operands.entry)) }
    ensures fits { IfOk result (λ statement. MadeFits (made_of statement)) }
{
    let rd = register(operands.next()?)?;
    let Address { base, offset } = short_address(operands.next()?)?;
    operands.end()?;
    Ok(Statement::One(Instr::Load {
        op,
        rd,
        rs1: base,
        offset,
    }))
}

#[tactic(auto, unfolding(crate::specs::Statements::operand_row))]
fn store<'a>(op: StoreOp, mut operands: Operands<'a>) -> Result<Statement<'a>, AsmFault>
    ensures made { Tells made_of result (statement_of (form.Store op) (left operands.entry)) }
    ensures fits { IfOk result (λ statement. MadeFits (made_of statement)) }
{
    let rs2 = register(operands.next()?)?;
    let Address { base, offset } = short_address(operands.next()?)?;
    operands.end()?;
    Ok(Statement::One(Instr::Store {
        op,
        rs1: base,
        rs2,
        offset,
    }))
}

#[tactic(auto, unfolding(crate::specs::Statements::operand_row))]
fn immediate<'a>(op: ImmediateOp, mut operands: Operands<'a>) -> Result<Statement<'a>, AsmFault>
    ensures made { Tells made_of result (statement_of (form.Immediate op) (left operands.entry)) }
    ensures fits { IfOk result (λ statement. MadeFits (made_of statement)) }
{
    let rd = register(operands.next()?)?;
    let rs1 = register(operands.next()?)?;
    let immediate = short_number(operands.next()?)?;
    operands.end()?;
    Ok(Statement::One(Instr::Immediate {
        op,
        rd,
        rs1,
        immediate,
    }))
}

#[tactic(auto, unfolding(crate::specs::Statements::operand_row))]
fn shift<'a>(op: ShiftOp, mut operands: Operands<'a>) -> Result<Statement<'a>, AsmFault>
    ensures made { Tells made_of result (statement_of (form.Shift op) (left operands.entry)) }
    ensures fits { IfOk result (λ statement. MadeFits (made_of statement)) }
{
    let rd = register(operands.next()?)?;
    let rs1 = register(operands.next()?)?;
    let amount = natural(operands.next()?, 31)?;
    operands.end()?;
    Ok(Statement::One(Instr::Shift {
        op,
        rd,
        rs1,
        amount,
    }))
}

#[tactic(auto, unfolding(crate::specs::Statements::operand_row))]
fn of_registers<'a>(op: RegisterOp, mut operands: Operands<'a>) -> Result<Statement<'a>, AsmFault>
    ensures made { Tells made_of result (statement_of (form.Register op) (left operands.entry)) }
    ensures fits { IfOk result (λ statement. MadeFits (made_of statement)) }
{
    let rd = register(operands.next()?)?;
    let rs1 = register(operands.next()?)?;
    let rs2 = register(operands.next()?)?;
    operands.end()?;
    Ok(Statement::One(Instr::Register { op, rd, rs1, rs2 }))
}

#[tactic(auto, using(crate::proofs::OperandTable::fence_alone, crate::proofs::OperandTable::fence_sets))]
fn fence<'a>(mut operands: Operands<'a>) -> Result<Statement<'a>, AsmFault>
    ensures made { Tells made_of result (statement_of form.Fence (left operands.entry)) }
    ensures fits { IfOk result (λ statement. MadeFits (made_of statement)) }
{
    let Ok(first) = operands.next() else {
        return Ok(Statement::One(Instr::Fence { pred: 15, succ: 15 }));
    };
    let pred = set(first)?;
    let succ = set(operands.next()?)?;
    operands.end()?;
    Ok(Statement::One(Instr::Fence { pred, succ }))
}

#[tactic(auto, unfolding(crate::specs::Statements::operand_row))]
fn amo<'a>(
    op: AmoOp,
    aq: bool,
    rl: bool,
    mut operands: Operands<'a>,
) -> Result<Statement<'a>, AsmFault>
    ensures made { Tells made_of result (statement_of (form.Amo op aq rl) (left operands.entry)) }
    ensures fits { IfOk result (λ statement. MadeFits (made_of statement)) }
{
    let rd = register(operands.next()?)?;
    let rs2 = register(operands.next()?)?;
    let Address { base, .. } = pointer(operands.next()?)?;
    operands.end()?;
    Ok(Statement::One(Instr::Amo {
        op,
        rd,
        rs1: base,
        rs2,
        aq,
        rl,
    }))
}

#[tactic(auto, unfolding(crate::specs::Statements::operand_row))]
fn branch_zero<'a>(op: BranchOp, mut operands: Operands<'a>) -> Result<Statement<'a>, AsmFault>
    ensures made { Tells made_of result (statement_of (form.BranchZero op) (left operands.entry)) }
    ensures fits { IfOk result (λ statement. MadeFits (made_of statement)) }
{
    let rs1 = register(operands.next()?)?;
    let to = target(operands.next()?, 0x1000)?;
    operands.end()?;
    Ok(branch_to(op, rs1, reg(0), to))
}

#[tactic(auto, unfolding(crate::specs::Statements::operand_row))]
fn jump<'a>(mut operands: Operands<'a>) -> Result<Statement<'a>, AsmFault>
    ensures made { Tells made_of result (statement_of form.Jump (left operands.entry)) }
    ensures fits { IfOk result (λ statement. MadeFits (made_of statement)) }
{
    let to = target(operands.next()?, 0x10_0000)?;
    operands.end()?;
    Ok(jump_to(reg(0), to))
}

/// An instruction without operands.
fn alone<'a>(instr: Instr, operands: Operands<'a>) -> Result<Statement<'a>, AsmFault>
    requires { Fits instr }
    ensures made { Tells made_of result (read_operands [] (one instr) (left operands.entry)) }
    ensures fits { IfOk result (λ statement. MadeFits (made_of statement)) }
{
    operands.end()?;
    Ok(Statement::One(instr))
}

#[tactic(auto, unfolding(crate::specs::Statements::operand_row))]
fn load_immediate<'a>(mut operands: Operands<'a>) -> Result<Statement<'a>, AsmFault>
    ensures made { Tells made_of result (statement_of form.LoadImmediate (left operands.entry)) }
    ensures fits { IfOk result (λ statement. MadeFits (made_of statement)) }
{
    let rd = register(operands.next()?)?;
    let number = number_from(operands.next()?, -0x8000_0000, 0xFFFF_FFFF)?;
    operands.end()?;
    let wrapped = if number < 0x8000_0000 {
        number
    } else {
        number - 0x1_0000_0000
    };
    Ok(loaded(rd, wrapped))
}

#[tactic(auto, unfolding(crate::specs::Statements::operand_row))]
fn moved<'a>(mut operands: Operands<'a>) -> Result<Statement<'a>, AsmFault>
    ensures made { Tells made_of result (statement_of form.Move (left operands.entry)) }
    ensures fits { IfOk result (λ statement. MadeFits (made_of statement)) }
{
    let rd = register(operands.next()?)?;
    let rs = register(operands.next()?)?;
    operands.end()?;
    Ok(Statement::One(Instr::Immediate {
        op: ImmediateOp::Add,
        rd,
        rs1: rs,
        immediate: 0,
    }))
}

#[tactic(auto, unfolding(crate::specs::Statements::operand_row))]
fn inverted<'a>(mut operands: Operands<'a>) -> Result<Statement<'a>, AsmFault>
    ensures made { Tells made_of result (statement_of form.Invert (left operands.entry)) }
    ensures fits { IfOk result (λ statement. MadeFits (made_of statement)) }
{
    let rd = register(operands.next()?)?;
    let rs = register(operands.next()?)?;
    operands.end()?;
    Ok(Statement::One(Instr::Immediate {
        op: ImmediateOp::Xor,
        rd,
        rs1: rs,
        immediate: -1,
    }))
}

#[tactic(auto, unfolding(crate::specs::Statements::operand_row))]
fn negated<'a>(mut operands: Operands<'a>) -> Result<Statement<'a>, AsmFault>
    ensures made { Tells made_of result (statement_of form.Negate (left operands.entry)) }
    ensures fits { IfOk result (λ statement. MadeFits (made_of statement)) }
{
    let rd = register(operands.next()?)?;
    let rs = register(operands.next()?)?;
    operands.end()?;
    Ok(Statement::One(Instr::Register {
        op: RegisterOp::Sub,
        rd,
        rs1: reg(0),
        rs2: rs,
    }))
}

#[tactic(auto, unfolding(crate::specs::Statements::operand_row))]
fn is_zero<'a>(mut operands: Operands<'a>) -> Result<Statement<'a>, AsmFault>
    ensures made { Tells made_of result (statement_of form.IsZero (left operands.entry)) }
    ensures fits { IfOk result (λ statement. MadeFits (made_of statement)) }
{
    let rd = register(operands.next()?)?;
    let rs = register(operands.next()?)?;
    operands.end()?;
    Ok(Statement::One(Instr::Immediate {
        op: ImmediateOp::SetLessUnsigned,
        rd,
        rs1: rs,
        immediate: 1,
    }))
}

#[tactic(auto, unfolding(crate::specs::Statements::operand_row))]
fn is_not_zero<'a>(mut operands: Operands<'a>) -> Result<Statement<'a>, AsmFault>
    ensures made { Tells made_of result (statement_of form.IsNotZero (left operands.entry)) }
    ensures fits { IfOk result (λ statement. MadeFits (made_of statement)) }
{
    let rd = register(operands.next()?)?;
    let rs = register(operands.next()?)?;
    operands.end()?;
    Ok(Statement::One(Instr::Register {
        op: RegisterOp::SetLessUnsigned,
        rd,
        rs1: reg(0),
        rs2: rs,
    }))
}

/// What the form makes of its operands, or the first fault of them from the left.
#[tactic(auto, using(crate::proofs::OperandTable::fence_tso_alone, crate::proofs::OperandTable::ecall_alone, crate::proofs::OperandTable::ebreak_alone))]
pub fn statement<'a>(kind: Form, operands: Operands<'a>) -> Result<Statement<'a>, AsmFault>
    ensures made { Tells made_of result (statement_of kind (left operands.entry)) }
    ensures fits { IfOk result (λ statement. MadeFits (made_of statement)) }
{
    match kind {
        Form::Lui => lui(operands),
        Form::Auipc => auipc(operands),
        Form::Jal => jal(operands),
        Form::Jalr => jalr(operands),
        Form::Branch(op) => branch(op, operands),
        Form::Load(op) => load(op, operands),
        Form::Store(op) => store(op, operands),
        Form::Immediate(op) => immediate(op, operands),
        Form::Shift(op) => shift(op, operands),
        Form::Register(op) => of_registers(op, operands),
        Form::Fence => fence(operands),
        Form::FenceTso => alone(Instr::FenceTso, operands),
        Form::Ecall => alone(Instr::Ecall, operands),
        Form::Ebreak => alone(Instr::Ebreak, operands),
        Form::Amo(op, aq, rl) => amo(op, aq, rl, operands),
        Form::Nop => nop(operands),
        Form::Move => moved(operands),
        Form::Invert => inverted(operands),
        Form::Negate => negated(operands),
        Form::IsZero => is_zero(operands),
        Form::IsNotZero => is_not_zero(operands),
        Form::BranchZero(op) => branch_zero(op, operands),
        Form::Jump => jump(operands),
        Form::Return => returned(operands),
        Form::LoadImmediate => load_immediate(operands),
    }
}

#[tactic(auto, unfolding(crate::specs::Statements::operand_row))]
fn nop<'a>(operands: Operands<'a>) -> Result<Statement<'a>, AsmFault>
    ensures made { Tells made_of result (statement_of form.Nop (left operands.entry)) }
    ensures fits { IfOk result (λ statement. MadeFits (made_of statement)) }
{
    alone(
        Instr::Immediate {
            op: ImmediateOp::Add,
            rd: reg(0),
            rs1: reg(0),
            immediate: 0,
        },
        operands,
    )
}

#[tactic(auto, unfolding(crate::specs::Statements::operand_row))]
fn returned<'a>(operands: Operands<'a>) -> Result<Statement<'a>, AsmFault>
    ensures made { Tells made_of result (statement_of form.Return (left operands.entry)) }
    ensures fits { IfOk result (λ statement. MadeFits (made_of statement)) }
{
    alone(
        Instr::Jalr {
            rd: reg(0),
            rs1: reg(1),
            offset: 0,
        },
        operands,
    )
}
