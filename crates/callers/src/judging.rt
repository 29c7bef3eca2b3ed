//! One run, judged as its entries come.

ghost use Rattle.std.specs.Prelude.{◌≡◌, ◌<◌, ◌==◌, ◌+◌, ◌*◌, ◌||◌, if◌then◌else◌, Some, IfOk, OnOk, length};
ghost use Rattle.memory.specs.Writes.{write};
ghost use Rattle.hart.specs.State.{HartState};
ghost use Rattle.step_machine.specs.declared.events.Event.TheVariants.{Act};
ghost use Rattle.step_machine.specs.Access.{access_of};
ghost use Rattle.step_machine.specs.Paths.{state_of};
ghost use Rattle.step_machine.specs.Runs.{Run};
ghost use Rattle.spsc_queue.specs.Calls.{Party, buffer, enters, is_in_call_after};
ghost use Rattle.spsc_queue.specs.Obligations.{is_sendable, may_pass};
ghost use Rattle.callers.specs.Queues.{kind_of, block_of, spsc_of};
ghost use Rattle.callers.specs.Violations.{idle_violation, met_by, party_violation, written_at, arguments_violation, entering_violation};
ghost use Rattle.callers.specs.inner.{AreCallNotes, IsCallState, IsEventNoted, calls_by, counted_by, found_by, notes_by, noted_call};

use crate::queue::{Located, QueueKind};
use crate::violations::CallerViolation;
use std::alloc::AllocError;
use step_machine::{Entry, Event, Machine, Outcome};

/// Of a hart's state what its calls depend on: where it goes on, and its registers ra, a0, a1 and a2.
#[derive(Clone, Copy)]
pub struct CallState {
    pub pc: u32,
    pub back: u32,
    pub block: u32,
    pub word: u32,
    pub bytes: u32,
}

/// How many calls returned, each counted up to 18,446,744,073,709,551,615.
#[derive(Clone, Copy)]
pub struct Calls {
    /// Of those that send, how many returned 1: they sent a word.
    pub sent: u64,
    /// And how many returned 0: they found the queue full.
    pub full: u64,
    /// Of those that receive, how many returned 1: they received a word.
    pub received: u64,
    /// And how many returned 0: they found it empty.
    pub empty: u64,
}

/// None.
pub const NO_CALLS: Calls = Calls {
    sent: 0,
    full: 0,
    received: 0,
    empty: 0,
};

/// What is noted of a run: its first violation, if there is one, whether each party is in a call, and how many calls returned.
#[derive(Clone, Copy)]
pub struct Notes {
    pub found: Option<CallerViolation>,
    pub sending: bool,
    pub receiving: bool,
    pub calls: Calls,
}

/// What calls depend on in the hart's state.
fn call_state<const B: usize, const M: usize>(machine: &Machine<B, M>, hart: u32) -> CallState
    requires { hart < length machine.now.history.opening.harts }
    ensures { (s : HartState) × (state_of M machine.now.history hart ≡ Some s) × IsCallState s result }
{
    CallState {
        pc: machine.pc(hart),
        back: machine.register(hart, 1),
        block: machine.register(hart, 10),
        word: machine.register(hart, 11),
        bytes: machine.register(hart, 12),
    }
}

/// The address of a write of `width` bytes, if it meets the block.
fn met_by(located: Located, address: u32, width: u32) -> Option<u32>
    ensures { result ≡ met_by (buffer (spsc_of located)) (write address width 0) }
{
    let first = u64::from(located.queue.base);
    let end = first + 128 + 4 * u64::from(located.queue.slots);
    let after = u64::from(address) + u64::from(width);
    if u64::from(address) < end && first < after {
        Some(address)
    } else {
        None
    }
}

/// Where an entry writes that writes to the block.
fn written_at(located: Located, entry: Entry) -> Option<u32>
    ensures { result ≡ written_at (buffer (spsc_of located)) (access_of entry) }
{
    match entry {
        Entry::Store { addr, width, .. } => met_by(located, addr, width),
        Entry::Amo { addr, .. } => met_by(located, addr, 4),
        _ => None,
    }
}

/// Whether a hart that stands so enters the function at this line for the block.
fn enters(located: Located, line: u32, at: CallState) -> bool
    ensures { (s : HartState) → IsCallState s at → result ≡ enters line (block_of located) s }
{
    u64::from(at.pc) == 4 * u64::from(line) && at.block == located.queue.base
}

/// Whether the instruction at `pc` is one of the returns of the function at this line.
fn returns_at(line: u32, pc: u32) -> bool
    ensures { result ≡ (pc == 4 * (line + 10)) || (pc == 4 * (line + 12)) }
{
    let start = 4 * u64::from(line);
    u64::from(pc) == start + 40 || u64::from(pc) == start + 48
}

/// Whether a hart is in a call of the function at this line after it went on from `pc`.
fn is_in_call_after(located: Located, line: u32, calling: bool, pc: u32, after: CallState) -> bool
    ensures { (s z : HartState) → s.pc ≡ pc → IsCallState z after
        → result ≡ is_in_call_after line (block_of located) calling s z }
{
    if calling && !returns_at(line, pc) {
        true
    } else {
        enters(located, line, after)
    }
}

/// Whether a sender may send this word by a queue of this kind.
fn is_sendable(kind: QueueKind, word: u32) -> bool
    ensures { result ≡ is_sendable (kind_of kind) word }
{
    match kind {
        QueueKind::Lamport | QueueKind::Cached => true,
        QueueKind::FastForward => word != 0,
    }
}

/// What a hart owes that enters its function at this line so, where the word that it passes is right or not.
fn arguments_violation(
    located: Located,
    hart: u32,
    line: u32,
    at: CallState,
    is_right: bool,
) -> Option<CallerViolation>
    ensures { (p : Party) (s : HartState) → IsCallState s at → is_right ≡ may_pass p (kind_of located.queue.kind) at.word
        → result ≡ arguments_violation p hart line (block_of located) s }
{
    if u64::from(at.bytes) != 4 * u64::from(located.queue.slots) {
        return Some(CallerViolation::PassedBytes {
            hart,
            bytes: at.bytes,
        });
    }
    if !is_right {
        return Some(CallerViolation::PassedWord { hart });
    }
    let target = at.back / 2 * 2;
    if u64::from(target) != 4 * u64::from(line) && target % 4 == 0 {
        None
    } else {
        Some(CallerViolation::PassedReturn {
            hart,
            back: at.back,
        })
    }
}

/// What it owes if it enters.
fn entering_violation(
    located: Located,
    hart: u32,
    line: u32,
    at: CallState,
    is_right: bool,
) -> Option<CallerViolation>
    ensures { (p : Party) (s : HartState) → IsCallState s at → is_right ≡ may_pass p (kind_of located.queue.kind) at.word
        → result ≡ entering_violation p hart line (block_of located) (Some s) }
{
    if enters(located, line, at) {
        arguments_violation(located, hart, line, at, is_right)
    } else {
        None
    }
}

/// What a hart owes that stands so, whichever party it is.
fn party_violation(located: Located, hart: u32, at: CallState) -> Option<CallerViolation>
    ensures { (s : HartState) → IsCallState s at → result ≡ party_violation (spsc_of located) hart (Some s) }
{
    let Located {
        queue,
        send_line,
        receive_line,
        ..
    } = located;
    if hart == queue.sender {
        entering_violation(
            located,
            hart,
            send_line,
            at,
            is_sendable(queue.kind, at.word),
        )
    } else if hart == queue.receiver {
        entering_violation(located, hart, receive_line, at, true)
    } else {
        None
    }
}

/// What a hart owes by an entry of its own, where it is in no call: it was at `pc`, and stands so after it.
fn idle_violation(
    located: Located,
    pc: u32,
    after: CallState,
    entry: Entry,
) -> Option<CallerViolation>
    ensures { (s z : HartState) → s.pc ≡ pc → IsCallState z after → result ≡ idle_violation (spsc_of located) entry (Some s) (Some z) }
{
    let hart = entry.hart();
    match written_at(located, entry) {
        Some(address) => Some(CallerViolation::Wrote { hart, pc, address }),
        None => party_violation(located, hart, after),
    }
}

/// Whether the hart is in a call, by what is noted.
fn is_in_its_call(located: Located, notes: Notes, hart: u32) -> bool
    ensures { result ≡ noted_call (spsc_of located) notes hart }
{
    if hart == located.queue.sender {
        notes.sending
    } else if hart == located.queue.receiver {
        notes.receiving
    } else {
        false
    }
}

/// What is owed first, with an entry by which a hart went on from `pc`.
fn found_after(
    located: Located,
    notes: Notes,
    pc: u32,
    after: CallState,
    entry: Entry,
) -> Option<CallerViolation>
    ensures { (s z : HartState) → s.pc ≡ pc → IsCallState z after → result ≡ found_by (spsc_of located) notes entry s z }
{
    if notes.found.is_some() {
        return notes.found;
    }
    if is_in_its_call(located, notes, entry.hart()) {
        None
    } else {
        idle_violation(located, pc, after, entry)
    }
}

/// Whether a hart that may be this party is in a call, after it went on from `pc`.
fn party_after(
    located: Located,
    is_party: bool,
    line: u32,
    calling: bool,
    pc: u32,
    after: CallState,
) -> bool
    ensures { (s z : HartState) → s.pc ≡ pc → IsCallState z after
        → result ≡ (if is_party then is_in_call_after line (block_of located) calling s z else calling) }
{
    if is_party {
        is_in_call_after(located, line, calling, pc, after)
    } else {
        calling
    }
}

/// One more, if the hart of this party stood so in a call of the function at this line, and returns with this number in a0.
fn counted(
    is_party: bool,
    line: u32,
    number: u32,
    calling: bool,
    before: CallState,
    count: u64,
) -> u64
    ensures { (s : HartState) → IsCallState s before → result ≡ counted_by is_party line number calling s count }
{
    if is_party && calling && returns_at(line, before.pc) && before.block == number {
        count.saturating_add(1)
    } else {
        count
    }
}

/// How many calls returned, with an entry by which a hart went on from this state.
fn calls_after(located: Located, notes: Notes, before: CallState, entry: Entry) -> Calls
    ensures { (s : HartState) → IsCallState s before → result ≡ calls_by (spsc_of located) notes entry s }
{
    let sends = entry.hart() == located.queue.sender;
    let receives = entry.hart() == located.queue.receiver;
    let Located {
        send_line,
        receive_line,
        ..
    } = located;
    let Notes {
        sending,
        receiving,
        calls,
        ..
    } = notes;
    Calls {
        sent: counted(sends, send_line, 1, sending, before, calls.sent),
        full: counted(sends, send_line, 0, sending, before, calls.full),
        received: counted(receives, receive_line, 1, receiving, before, calls.received),
        empty: counted(receives, receive_line, 0, receiving, before, calls.empty),
    }
}

/// Takes in what a hart did by an instruction: it stood so before it, and so after it.
fn note_entry(
    located: Located,
    notes: Notes,
    before: CallState,
    after: CallState,
    entry: Entry,
) -> Notes
    ensures { (s z : HartState) → IsCallState s before → IsCallState z after → result ≡ notes_by (spsc_of located) notes entry s z }
{
    let hart = entry.hart();
    let Located {
        queue,
        send_line,
        receive_line,
        ..
    } = located;
    let Notes {
        sending,
        receiving,
        ..
    } = notes;
    let pc = before.pc;
    Notes {
        calls: calls_after(located, notes, before, entry),
        found: found_after(located, notes, pc, after, entry),
        sending: party_after(located, hart == queue.sender, send_line, sending, pc, after),
        receiving: party_after(
            located,
            hart == queue.receiver,
            receive_line,
            receiving,
            pc,
            after,
        ),
    }
}

/// What calls depend on in the hart's state, if there is such a hart.
fn state_before<const B: usize, const M: usize>(machine: &Machine<B, M>, hart: u32) -> CallState
    ensures { (s : HartState) → state_of M machine.now.history hart ≡ Some s → IsCallState s result }
{
    if hart < machine.harts() {
        call_state(machine, hart)
    } else {
        CallState {
            pc: 0,
            back: 0,
            block: 0,
            word: 0,
            bytes: 0,
        }
    }
}

/// Lets a hart act, and takes in what it did.
fn note_act<const B: usize, const M: usize>(
    located: Located,
    machine: &mut Machine<B, M>,
    notes: Notes,
    hart: u32,
) -> Result<Notes, AllocError>
    ensures noted { IfOk result (λ new. IsEventNoted B M located (Act hart) machine.old.history notes machine.new.history new) }
    ensures opening { machine.new.history.opening ≡ machine.old.history.opening }
{
    let before = state_before(machine, hart);
    match machine.step(Event::Act(hart))? {
        Outcome::Did(entry) => {
            let after = call_state(machine, hart);
            Ok(note_entry(located, notes, before, after, entry))
        }
        Outcome::Waited => Ok(notes),
        Outcome::NothingToLand => Ok(notes),
        Outcome::Over => Ok(notes),
        Outcome::NoHart => Ok(notes),
    }
}

/// Lets an event happen, and takes in what it did.
fn note_event<const B: usize, const M: usize>(
    located: Located,
    machine: &mut Machine<B, M>,
    notes: Notes,
    event: Event,
) -> Result<Notes, AllocError>
    ensures noted { IfOk result (λ new. IsEventNoted B M located event machine.old.history notes machine.new.history new) }
    ensures opening { machine.new.history.opening ≡ machine.old.history.opening }
{
    match event {
        Event::Act(hart) => note_act(located, machine, notes, hart),
        Event::Land(_) => {
            machine.step(event)?;
            Ok(notes)
        }
    }
}

/// What is noted of the run of these events. The machine ends at its end, whatever it did before.
pub(crate) fn judge<const B: usize, const M: usize>(
    located: Located,
    machine: &mut Machine<B, M>,
    events: &[Event],
) -> Result<Notes, AllocError>
    ensures run { OnOk result (Run B M machine.old.history.opening events.now machine.new.history) }
    ensures noted { IfOk result (AreCallNotes M machine.old.history.opening (spsc_of located) machine.new.history.entries) }
    ensures opening { machine.new.history.opening ≡ machine.old.history.opening }
{
    machine.restart();
    let mut notes = Notes {
        found: None,
        sending: false,
        receiving: false,
        calls: NO_CALLS,
    };
    for event in events {
        notes = note_event(located, machine, notes, *event)?;
    }
    Ok(notes)
}
