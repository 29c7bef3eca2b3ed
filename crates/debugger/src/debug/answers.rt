//! What the debugger's commands do.

ghost use Rattle.std.specs.Prelude.{◌≡◌, ◌++◌, ◌≤◌, ℕ, List, true, Some, IfOk, drop};
ghost use Rattle.std.specs.List.{slice_get};
ghost use Rattle.std.specs.String.{string_bytes};
ghost use Rattle.debugger.specs.declared.debugger.Source.TheVariants.{Schedule};
ghost use Rattle.debugger.specs.Debugging.{DoesEvent, DoesAll, DoesCommand, DoesNext};

use crate::debug::breakpoints::{set_breakpoint, stop_before};
use crate::debug::command::Command;
use crate::debug::lines::{push_break_line, push_end_line, push_number_line};
use crate::debug::looking::{push_hart_answer, push_pending_answer, push_word_answer};
use crate::debugger::{Debugger, Source};
use recorder::push_outcome_line;
use std::alloc::AllocError;
use step_machine::Event;

/// Does an event from this source, and appends its outcome.
fn do_event<const B: usize, const M: usize>(
    out: &mut String,
    debugger: Debugger<B, M>,
    event: Event,
    source: Source,
) -> Result<Debugger<B, M>, AllocError>
    requires { source ≡ Schedule → slice_get debugger.schedule debugger.place ≡ Some event }
    ensures { IfOk result (λ new. (text : List ℕ) × (string_bytes out.new ≡ string_bytes out.old ++ text)
        × DoesEvent B M debugger.entry event source text new) }
{
    let (debugger, outcome) = debugger.event(event, source)?;
    push_outcome_line(out, event, outcome).and(Ok(debugger))
}

/// Does the schedule's next event, or tells that there is none.
fn step<const B: usize, const M: usize>(
    out: &mut String,
    debugger: Debugger<B, M>,
) -> Result<Debugger<B, M>, AllocError>
    ensures { IfOk result (λ new. (text : List ℕ) × (string_bytes out.new ≡ string_bytes out.old ++ text) × DoesNext B M debugger.entry text new) }
{
    match debugger.next() {
        Some(event) => do_event(out, debugger, event, Source::Schedule),
        None => push_end_line(out).and(Ok(debugger)),
    }
}

/// Does the schedule's events to its end, or to a breakpoint that isn't at the first.
fn go<const B: usize, const M: usize>(
    out: &mut String,
    debugger: Debugger<B, M>,
    points: &[(u32, u32)],
) -> Result<Debugger<B, M>, AllocError>
    ensures { IfOk result (λ new. (text : List ℕ) × (string_bytes out.new ≡ string_bytes out.old ++ text)
        × DoesAll B M points.now (drop debugger.entry.place debugger.entry.schedule) true debugger.entry text new) }
{
    let mut debugger = debugger;
    let mut first = true;
    while let Some(event) = debugger.next() {
        let machine = debugger.session().machine();
        if let Some((hart, pc)) = stop_before(machine, points, first, event) {
            return push_break_line(out, hart, pc).and(Ok(debugger));
        }
        debugger = do_event(out, debugger, event, Source::Schedule)?;
        first = false;
    }
    push_end_line(out).and(Ok(debugger))
}

/// Does what a command asks for, and appends what it prints.
pub fn answer<const B: usize, const M: usize>(
    out: &mut String,
    debugger: Debugger<B, M>,
    points: &mut Vec<(u32, u32)>,
    command: Command,
) -> Result<Debugger<B, M>, AllocError>
    ensures { IfOk result (λ new. (text : List ℕ) × (string_bytes out.new ≡ string_bytes out.old ++ text)
        × DoesCommand B M command debugger.entry new points.old.items points.new.items text) }
{
    match command {
        Command::Step => step(out, debugger),
        Command::Go => go(out, debugger, points),
        Command::Give(event) => do_event(out, debugger, event, Source::User),
        Command::Back(events) => {
            // more than a `usize` holds, where it has fewer bits, are more than there are
            let events = usize::try_from(events).unwrap_or(usize::MAX);
            let debugger = debugger.back(events)?;
            Ok(debugger)
        }
        Command::Break(hart, pc) => {
            let set = set_breakpoint(out, debugger.session().machine(), points, hart, pc);
            set.and(Ok(debugger))
        }
        Command::Hart(hart) => {
            let shown = push_hart_answer(out, debugger.session().machine(), hart);
            shown.and(Ok(debugger))
        }
        Command::Pending(hart) => {
            let shown = push_pending_answer(out, debugger.session().machine(), hart);
            shown.and(Ok(debugger))
        }
        Command::Word(addr) => {
            let shown = push_word_answer(out, debugger.session().machine(), addr);
            shown.and(Ok(debugger))
        }
        Command::Count => {
            let shown = push_number_line(out, debugger.session().events().len());
            shown.and(Ok(debugger))
        }
        Command::Quit => Ok(debugger),
    }
}
