//! Where the debugger stops a run.

ghost use Rattle.std.specs.Prelude.{◌≡◌, ◌++◌, ℕ, List, OnErr, OnOk, position};
ghost use Rattle.std.specs.String.{string_bytes};
ghost use Rattle.debugger.specs.Debugging.{is_point, point_before, stop_before, Toggled, Breaks};

use crate::debug::lines::push_unknown_line;
use std::alloc::AllocError;
use step_machine::{Event, Machine};

/// The place of a breakpoint among all.
fn place_of(points: &[(u32, u32)], hart: u32, pc: u32) -> Option<usize>
    ensures { result ≡ position (is_point hart pc) points.now }
{
    points
        .iter()
        .position(|point| point.0 == hart && point.1 == pc)
}

/// The breakpoint at which an event finds its hart, if it lets one act.
fn point_before<const B: usize, const M: usize>(
    machine: &Machine<B, M>,
    points: &[(u32, u32)],
    event: Event,
) -> Option<(u32, u32)>
    ensures { result ≡ point_before M points.now machine.now.history event }
{
    let Event::Act(hart) = event else {
        return None;
    };
    if hart >= machine.harts() {
        return None;
    }
    let pc = machine.pc(hart);
    match place_of(points, hart, pc) {
        Some(_) => Some((hart, pc)),
        None => None,
    }
}

/// The breakpoint that holds the event up, where it isn't the first.
pub fn stop_before<const B: usize, const M: usize>(
    machine: &Machine<B, M>,
    points: &[(u32, u32)],
    first: bool,
    event: Event,
) -> Option<(u32, u32)>
    ensures { result ≡ stop_before M points.now first machine.now.history event }
{
    if first {
        None
    } else {
        point_before(machine, points, event)
    }
}

/// Sets a breakpoint, or clears it.
fn toggle(points: &mut Vec<(u32, u32)>, hart: u32, pc: u32) -> Result<(), AllocError>
    ensures ok { OnOk result (Toggled hart pc points.old.items points.new.items) }
    ensures err { OnErr result (points.new.items ≡ points.old.items) }
{
    match place_of(points, hart, pc) {
        Some(at) => {
            points.remove(at);
            Ok(())
        }
        None => {
            points.push((hart, pc))?;
            Ok(())
        }
    }
}

/// Sets a breakpoint of a hart, or clears it, where there is such a hart.
pub fn set_breakpoint<const B: usize, const M: usize>(
    out: &mut String,
    machine: &Machine<B, M>,
    points: &mut Vec<(u32, u32)>,
    hart: u32,
    pc: u32,
) -> Result<(), AllocError>
    ensures ok { OnOk result ((text : List ℕ) × (string_bytes out.new ≡ string_bytes out.old ++ text)
        × Breaks machine.now.history hart pc points.old.items points.new.items text) }
    ensures err { OnErr result (points.new.items ≡ points.old.items) }
{
    if hart < machine.harts() {
        toggle(points, hart, pc)
    } else {
        push_unknown_line(out)
    }
}
