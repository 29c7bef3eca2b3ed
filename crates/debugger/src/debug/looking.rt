//! What the debugger shows of a machine.

ghost use Rattle.std.specs.Prelude.{◌≡◌, ◌++◌, ◌≤◌, OnOk};
ghost use Rattle.std.specs.String.{string_bytes};
ghost use Rattle.debugger.specs.Debugging.{hart_answer, pending_answer, word_answer};

use crate::debug::lines::{push_number_line, push_store_lines, push_unknown_line};
use engine_support::state_text::push_hart;
use std::alloc::AllocError;
use step_machine::Machine;

/// A hart's lines of the state text.
pub fn push_hart_answer<const B: usize, const M: usize>(
    out: &mut String,
    machine: &Machine<B, M>,
    hart: u32,
) -> Result<(), AllocError>
    ensures { OnOk result (string_bytes out.new ≡ string_bytes out.old ++ hart_answer M machine.now.history hart) }
{
    if hart < machine.harts() {
        push_hart(out, machine.machine_state(), hart)
    } else {
        push_unknown_line(out)
    }
}

/// A hart's pending stores, oldest first.
pub fn push_pending_answer<const B: usize, const M: usize>(
    out: &mut String,
    machine: &Machine<B, M>,
    hart: u32,
) -> Result<(), AllocError>
    ensures { OnOk result (string_bytes out.new ≡ string_bytes out.old ++ pending_answer machine.now.history hart) }
{
    if hart < machine.harts() {
        push_store_lines(out, machine.pending(hart))
    } else {
        push_unknown_line(out)
    }
}

/// The word of memory at an address in bytes.
pub fn push_word_answer<const B: usize, const M: usize>(
    out: &mut String,
    machine: &Machine<B, M>,
    addr: u32,
) -> Result<(), AllocError>
    ensures { OnOk result (string_bytes out.new ≡ string_bytes out.old ++ word_answer M machine.now.history addr) }
{
    if addr % 4 == 0 && ((addr / 4) as usize) < M {
        push_number_line(out, machine.word(addr) as usize)
    } else {
        push_unknown_line(out)
    }
}
