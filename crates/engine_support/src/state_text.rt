//! The state text, which tells harts and memory.

ghost use Rattle.std.specs.Prelude.{◌≡◌, ◌++◌, ◌<◌, ◌≤◌, length, OnErr, OnOk, IfOk};
ghost use Rattle.std.specs.String.{string_bytes};
ghost use Rattle.step_machine.specs.Paths.{state_of};
ghost use Rattle.step_machine.specs.Standing.{ForEachHistory};
ghost use Rattle.engine_support.specs.StateText.{status_text, hart_line, register_line, word_line};
ghost use Rattle.engine_support.specs.StateText.{registers_shown, hart_shown, harts_shown, words_shown, shown};

use hart::status::Status;
use std::alloc::{AllocError, Global};
use step_machine::MachineState;

/// How many registers a hart has, x0 among them.
const REGISTERS: u8 = 32;

fn push_status(out: &mut String, status: Status) -> Result<(), AllocError>
    ensures { OnOk result (string_bytes out.new ≡ string_bytes out.old ++ status_text status) }
{
    match status {
        Status::Running => write!(out, "running"),
        Status::Ended => write!(out, "ended"),
        Status::Stopped(why) => write!(out, "stopped {}", why.number()),
    }
}

/// The line of a hart as a whole.
fn push_hart_line(
    out: &mut String,
    hart: u32,
    status: Status,
    pc: u32,
    pending: usize,
) -> Result<(), AllocError>
    ensures { OnOk result (string_bytes out.new ≡ string_bytes out.old ++ hart_line hart status pc pending) }
{
    write!(out, "hart {hart} ")?;
    push_status(out, status)?;
    writeln!(out, " pc {pc} pending {pending}")
}

fn push_register_line(out: &mut String, number: u8, value: u32) -> Result<(), AllocError>
    ensures { OnOk result (string_bytes out.new ≡ string_bytes out.old ++ register_line number value) }
{
    if value == 0 {
        return Ok(());
    }
    writeln!(out, "x{number} = {value}")
}

fn push_word_line(out: &mut String, addr: u32, word: u32) -> Result<(), AllocError>
    ensures { OnOk result (string_bytes out.new ≡ string_bytes out.old ++ word_line addr word) }
{
    if word == 0 {
        return Ok(());
    }
    writeln!(out, "word {addr} = {word}")
}

/// The lines of a hart's registers that aren't 0.
fn push_registers<const B: usize, const M: usize>(
    out: &mut String,
    machine: &MachineState<B, M>,
    hart: u32,
) -> Result<(), AllocError>
    requires { hart < length machine.now.harts }
    ensures { OnOk result (ForEachHistory B M machine.now (λ t. string_bytes out.new ≡
        string_bytes out.old ++ registers_shown (state_of M t hart) 32)) }
{
    for number in 0..REGISTERS {
        push_register_line(out, number, machine.register(hart, number))?;
    }
    Ok(())
}

fn hart_lines<const B: usize, const M: usize>(
    alloc: Global,
    machine: &MachineState<B, M>,
    hart: u32,
) -> Result<String, AllocError>
    requires { hart < length machine.now.harts }
    ensures { IfOk result (λ lines. ForEachHistory B M machine.now (λ t. string_bytes lines ≡ hart_shown M t hart)) }
{
    let mut lines = String::new(alloc);
    let pending = machine.pending(hart).len();
    push_hart_line(
        &mut lines,
        hart,
        machine.status(hart),
        machine.pc(hart),
        pending,
    )?;
    push_registers(&mut lines, machine, hart)?;
    Ok(lines)
}

/// Appends the lines of a hart. Where memory runs out, the text stays as it was.
pub fn push_hart<const B: usize, const M: usize>(
    out: &mut String,
    machine: &MachineState<B, M>,
    hart: u32,
) -> Result<(), AllocError>
    requires { hart < length machine.now.harts }
    ensures pushed { OnOk result (ForEachHistory B M machine.now (λ t. string_bytes out.new ≡
        string_bytes out.old ++ hart_shown M t hart)) }
    ensures kept { OnErr result (string_bytes out.new ≡ string_bytes out.old) }
{
    // made apart, so that the text grows in one step or not at all
    let lines = hart_lines(*out.allocator(), machine, hart)?;
    out.push_str(&lines)
}

fn push_harts<const B: usize, const M: usize>(
    out: &mut String,
    machine: &MachineState<B, M>,
) -> Result<(), AllocError>
    ensures { OnOk result (ForEachHistory B M machine.now (λ t. string_bytes out.new ≡
        string_bytes out.old ++ harts_shown M t (length t.opening.harts))) }
{
    for hart in 0..machine.harts() {
        push_hart(out, machine, hart)?;
    }
    Ok(())
}

/// The lines of the words that aren't 0.
fn push_words<const B: usize, const M: usize>(
    out: &mut String,
    machine: &MachineState<B, M>,
) -> Result<(), AllocError>
    requires { M ≤ 65536 }
    ensures { OnOk result (ForEachHistory B M machine.now (λ t. string_bytes out.new ≡
        string_bytes out.old ++ words_shown t M)) }
{
    for place in 0..M as u32 {
        push_word_line(out, 4 * place, machine.word(4 * place))?;
    }
    Ok(())
}

/// The harts with their registers, and then the words that aren't 0.
#[tactic(auto, unfolding(crate::specs::StateText::shown))]
pub fn state_text<const B: usize, const M: usize>(
    alloc: Global,
    machine: &MachineState<B, M>,
) -> Result<String, AllocError>
    requires { M ≤ 65536 }
    ensures { IfOk result (λ text. ForEachHistory B M machine.now (λ t. string_bytes text ≡ shown M t)) }
{
    let mut out = String::new(alloc);
    push_harts(&mut out, machine)?;
    push_words(&mut out, machine)?;
    Ok(out)
}
