//! Instructions as texts.

ghost use Rattle.std.specs.Prelude.{◌≡◌, ◌<◌, ◌^◌, ◌++◌, IfOk, OnOk, OnErr, codes, [], ◌∷◌};
ghost use Rattle.assembler.specs.Program.{IsProgram};
ghost use Rattle.std.specs.String.{string_bytes};
ghost use Rattle.std.specs.Fmt.{decimal, signed_decimal};
ghost use Rattle.rv_decode.specs.Fits.{Fits};
ghost use Rattle.assembler.specs.Writing.{register_text, address_text, with_two, with_three, text_of, amo_name, order_name};

use crate::naming::{
    amo_name, branch_name, immediate_name, load_name, order_name, register_name, set_text,
    shift_name, store_name,
};
use rv_decode::{AmoOp, Instr, Reg};
use std::alloc::{AllocError, Global};

fn upper_text(alloc: Global, name: &str, rd: Reg, number: u32) -> Result<String, AllocError>
    ensures { IfOk result (λ text. string_bytes text ≡ with_two name.now (register_text rd) (decimal number)) }
{
    format!(in alloc; "{name} x{},{number}", rd.number)
}

fn jump_text(alloc: Global, rd: Reg, offset: i32) -> Result<String, AllocError>
    ensures { IfOk result (λ text. string_bytes text ≡ with_two (codes "jal") (register_text rd) (signed_decimal offset)) }
{
    format!(in alloc; "jal x{},{offset}", rd.number)
}

fn address_form(
    alloc: Global,
    name: &str,
    register: Reg,
    offset: i32,
    base: Reg,
) -> Result<String, AllocError>
    ensures { IfOk result (λ text. string_bytes text ≡ with_two name.now (register_text register) (address_text offset base)) }
{
    format!(in alloc; "{name} x{},{offset}(x{})", register.number, base.number)
}

fn number_form(
    alloc: Global,
    name: &str,
    first: Reg,
    second: Reg,
    number: i32,
) -> Result<String, AllocError>
    ensures { IfOk result (λ text. string_bytes text ≡ with_three name.now (register_text first) (register_text second) (signed_decimal number)) }
{
    format!(in alloc; "{name} x{},x{},{number}", first.number, second.number)
}

fn shift_form(
    alloc: Global,
    name: &str,
    rd: Reg,
    rs1: Reg,
    amount: u32,
) -> Result<String, AllocError>
    ensures { IfOk result (λ text. string_bytes text ≡ with_three name.now (register_text rd) (register_text rs1) (decimal amount)) }
{
    format!(in alloc; "{name} x{},x{},{amount}", rd.number, rs1.number)
}

fn register_form(
    alloc: Global,
    name: &str,
    rd: Reg,
    rs1: Reg,
    rs2: Reg,
) -> Result<String, AllocError>
    ensures { IfOk result (λ text. string_bytes text ≡ with_three name.now (register_text rd) (register_text rs1) (register_text rs2)) }
{
    format!(in alloc; "{name} x{},x{},x{}", rd.number, rs1.number, rs2.number)
}

fn fence_form(alloc: Global, pred: &str, succ: &str) -> Result<String, AllocError>
    ensures { IfOk result (λ text. string_bytes text ≡ with_two (codes "fence") pred.now succ.now) }
{
    format!(in alloc; "fence {pred},{succ}")
}

fn amo_form(
    alloc: Global,
    name: &str,
    order: &str,
    rd: Reg,
    rs2: Reg,
    rs1: Reg,
) -> Result<String, AllocError>
    ensures { IfOk result
        (λ text. string_bytes text ≡ with_three (name.now ++ order.now) (register_text rd) (register_text rs2)
        (codes "(" ++ (register_text rs1 ++ codes ")"))) }
{
    format!(in alloc;
        "{name}{order} x{},x{},(x{})",
        rd.number, rs2.number, rs1.number
    )
}

#[tactic(auto, unfolding(crate::specs::Writing::text_of))]
fn text_of(alloc: Global, instr: &Instr) -> Result<String, AllocError>
    requires { Fits instr.now }
    ensures { IfOk result (λ text. string_bytes text ≡ text_of instr.now) }
{
    match *instr {
        Instr::Lui { rd, upper } => upper_text(alloc, "lui", rd, upper),
        Instr::Auipc { rd, upper } => upper_text(alloc, "auipc", rd, upper),
        Instr::Jal { rd, offset } => jump_text(alloc, rd, offset),
        Instr::Jalr { rd, rs1, offset } => address_form(alloc, "jalr", rd, offset, rs1),
        Instr::Branch {
            op,
            rs1,
            rs2,
            offset,
        } => { number_form(alloc, branch_name(op), rs1, rs2, offset) }
        Instr::Load {
            op,
            rd,
            rs1,
            offset,
        } => address_form(alloc, load_name(op), rd, offset, rs1),
        Instr::Store {
            op,
            rs1,
            rs2,
            offset,
        } => { address_form(alloc, store_name(op), rs2, offset, rs1) }
        Instr::Immediate {
            op,
            rd,
            rs1,
            immediate,
        } => { number_form(alloc, immediate_name(op), rd, rs1, immediate) }
        Instr::Shift {
            op,
            rd,
            rs1,
            amount,
        } => shift_form(alloc, shift_name(op), rd, rs1, amount),
        Instr::Register { op, rd, rs1, rs2 } => {
            register_form(alloc, register_name(op), rd, rs1, rs2)
        }
        Instr::Fence { pred, succ } => fence_form(alloc, set_text(pred), set_text(succ)),
        Instr::FenceTso => String::from_str(alloc, "fence.tso"),
        Instr::Ecall => String::from_str(alloc, "ecall"),
        Instr::Ebreak => String::from_str(alloc, "ebreak"),
        Instr::Amo {
            op,
            rd,
            rs1,
            rs2,
            aq,
            rl,
        } => { amo_form(alloc, amo_name(op), order_name(aq, rl), rd, rs2, rs1) }
    }
}

/// Appends the text of the instruction, which fits a word (see [`rv_decode::fits`]).
///
/// It is the mnemonic and, where there are operands, a space and the operands with commas and no
/// blanks: registers `x0` to `x31`, numbers in decimal, a place as bytes from the instruction. No
/// pseudoinstruction is written. Where memory runs out, the text stays as it was.
#[tactic(auto, using(crate::proofs::OneCode::program_after))]
pub fn write_instr(instr: &Instr, out: &mut String) -> Result<(), AllocError>
    requires { Fits instr.now }
    ensures written { OnOk result (string_bytes out.new ≡ string_bytes out.old ++ text_of instr.now) }
    ensures again { OnOk result (string_bytes out.old ≡ [] → IsProgram (string_bytes out.new) (instr.now ∷ [])) }
    ensures kept { OnErr result (string_bytes out.new ≡ string_bytes out.old) }
{
    // made apart, so that the text grows in one step or not at all
    let text = text_of(*out.allocator(), instr)?;
    out.push_str(&text)
}
