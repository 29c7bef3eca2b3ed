//! Whether a queue can be used from a machine's opening on, and where its functions stand.

ghost use Rattle.std.specs.Prelude.{◌≡◌, ◌==◌, not, ◌+◌, ◌*◌, ◌≤◌, ◌<◌, ◌↔◌, ℕ, List, All, true, IsTrue, IfOk, IfErr, OnOk, IfSome, None, [], length};
ghost use Rattle.step_machine.specs.History.{at_opening, IsShort};
ghost use Rattle.step_machine.specs.Entries.{memory_word};
ghost use Rattle.spsc_queue.specs.RingBuffers.{fastforward};
ghost use Rattle.rv_decode.specs.Listings.{words_of, Listed};
ghost use Rattle.spsc_queue.specs.Calls.{IsBlock};
ghost use Rattle.callers.specs.Queues.{kind_of, caches_tail, block_at, slots_after, waiting_between, sends_by, receives_by, HasNoCopy, HasFirstCopy};
ghost use Rattle.callers.specs.Queues.{IsLocated};
ghost use Rattle.callers.specs.Violations.{IsOffset, waits_in, IsOldTail, AreAsOwedBelow, IsOpeningViolation, IsFirstOpeningViolation};
ghost use Rattle.callers.specs.inner.{StandsAt, IsFirstOfIndices, IsFirstOfRest, IsWaiting};

use crate::queue::{Located, Queue, QueueKind};
use crate::violations::CallerViolation;
use spsc_queue::{
    cached_send_words, fastforward_receive_words, fastforward_send_words, try_receive_words,
    try_send_words,
};
use step_machine::{HartOpening, Machine, Opening};

/// The first line of this code at which these words stand.
fn line_of(code: &[u32], words: &[u32]) -> Option<usize>
    requires { 1 ≤ length words.now }
    ensures within { IfSome result (λ n. n < length code.now) }
    ensures here { IfSome result (λ n. StandsAt words.now code.now n) }
    ensures first { IfSome result (λ n. (m : ℕ) → m < n → StandsAt words.now code.now m → ⊥) }
    ensures none { result ≡ None → (n : ℕ) → StandsAt words.now code.now n → ⊥ }
{
    for line in 0..code.len() {
        if code[line..].starts_with(words) {
            return Some(line);
        }
    }
    None
}

/// A hart opens with 32 registers, which is owed too. It does nothing.
fn are_all(registers: &[u32; 32])
    ensures { length registers.now ≡ 32 }
{}

/// The first line of the hart's code at which a function of these words begins, if it has a copy.
fn function_of(opening: &Opening, hart: u32, words: &[u32]) -> Option<u32>
    requires some { 1 ≤ length words.now }
    requires short { All IsShort opening.now.harts }
    ensures first { (listing : List Listed) → words_of listing ≡ words.now → IfSome result (λ n. HasFirstCopy opening.now hart n listing) }
    ensures none { (listing : List Listed) → words_of listing ≡ words.now → result ≡ None → HasNoCopy opening.now hart listing }
{
    let harts: &[HartOpening] = &opening.harts;
    let own = harts.get(hart as usize)?;
    are_all(&own.registers);
    match line_of(&own.code, words) {
        Some(line) => Some(line as u32),
        None => None,
    }
}

/// The words of the function that the sender of such a queue calls.
fn send_words(kind: QueueKind) -> &'static [u32]
    ensures { result.now ≡ words_of (sends_by kind) }
{
    match kind {
        QueueKind::Lamport => try_send_words(),
        QueueKind::Cached => cached_send_words(),
        QueueKind::FastForward => fastforward_send_words(),
    }
}

/// The words of the function that its receiver calls.
fn receive_words(kind: QueueKind) -> &'static [u32]
    ensures { result.now ≡ words_of (receives_by kind) }
{
    match kind {
        QueueKind::Lamport | QueueKind::Cached => try_receive_words(),
        QueueKind::FastForward => fastforward_receive_words(),
    }
}

/// Whether the queue's block is one, in a memory of `M` words.
fn is_block<const M: usize>(queue: Queue) -> bool
    requires { M ≤ 65536 }
    ensures { IsTrue result ↔ IsBlock M (block_at queue 0 0) }
{
    let end = u64::from(queue.base) + 128 + 4 * u64::from(queue.slots);
    queue.base % 4 == 0 && queue.slots >= 1 && end <= 4 * M as u64
}

/// Whether a word is the offset of one of the queue's slots.
fn is_offset(queue: Queue, word: u32) -> bool
    ensures { IsTrue result ↔ IsOffset queue word }
{
    word % 4 == 0 && u64::from(word) < 4 * u64::from(queue.slots)
}

/// From which slot on words wait where the queue begins, and how many.
#[derive(Clone, Copy)]
struct Waiting {
    start: u32,
    count: u32,
}

/// How many slots after slot `start` this slot comes, round the end.
fn slots_after(queue: Queue, start: u32, slot: u32) -> u32
    requires from { start < queue.slots }
    requires to { slot < queue.slots }
    ensures { result ≡ slots_after queue.slots start slot }
{
    if slot < start {
        queue.slots - start + slot
    } else {
        slot - start
    }
}

/// How many words wait where the receiver's index opens at slot `start` and the sender's at slot `end`.
fn count_waiting<const B: usize, const M: usize>(
    machine: &Machine<B, M>,
    queue: Queue,
    start: u32,
    end: u32,
) -> u32
    requires opens { machine.now.history ≡ at_opening machine.now.history.opening }
    requires block { IsBlock M (block_at queue 0 0) }
    requires from { start < queue.slots }
    requires to { end < queue.slots }
    ensures { result ≡ waiting_between (kind_of queue.kind) queue.slots start end
        (memory_word machine.now.history.opening [] (queue.base + 128 + 4 * start)) }
{
    let tells = matches!(queue.kind, QueueKind::FastForward) && start == end;
    if tells {
        if machine.word(queue.base + 128 + 4 * start) == 0 {
            0
        } else {
            queue.slots
        }
    } else {
        slots_after(queue, start, end)
    }
}

/// The words that wait where the queue begins. Err if an index is no offset of a slot.
fn waiting_of<const B: usize, const M: usize>(
    machine: &Machine<B, M>,
    queue: Queue,
) -> Result<Waiting, CallerViolation>
    requires opens { machine.now.history ≡ at_opening machine.now.history.opening }
    requires block { IsBlock M (block_at queue 0 0) }
    ensures waiting { IfOk result (IsWaiting machine.now.history.opening queue) }
    ensures has_violation { IfErr result (λ violation. IsOpeningViolation M machine.now.history.opening queue violation) }
    ensures first { IfErr result (λ violation. IsFirstOfIndices machine.now.history.opening queue violation) }
{
    let head = machine.word(queue.base);
    if !is_offset(queue, head) {
        return Err(CallerViolation::NoOffset {
            address: queue.base,
            word: head,
        });
    }
    let address = queue.base + 64;
    let tail = machine.word(address);
    if !is_offset(queue, tail) {
        return Err(CallerViolation::NoOffset {
            address,
            word: tail,
        });
    }
    let start = tail / 4;
    let count = count_waiting(machine, queue, start, head / 4);
    Ok(Waiting { start, count })
}

/// Err if the sender's copy of the tail is no offset that the tail can have had.
fn has_tail_copy<const B: usize, const M: usize>(
    machine: &Machine<B, M>,
    queue: Queue,
    waiting: Waiting,
) -> Result<(), CallerViolation>
    requires opens { machine.now.history ≡ at_opening machine.now.history.opening }
    requires block { IsBlock M (block_at queue 0 0) }
    requires waiting { IsWaiting machine.now.history.opening queue waiting }
    requires kind { caches_tail queue.kind ≡ true }
    ensures copy { OnOk result (IsOldTail machine.now.history.opening queue (memory_word machine.now.history.opening [] (queue.base + 4))) }
    ensures has_violation { IfErr result (λ violation. IsOpeningViolation M machine.now.history.opening queue violation) }
    ensures first { IfErr result (λ violation. IsFirstOfRest machine.now.history.opening queue violation) }
{
    let address = queue.base + 4;
    let word = machine.word(address);
    let Waiting { start, count } = waiting;
    if is_offset(queue, word)
        && (word / 4 == start || count < slots_after(queue, start, word / 4))
    {
        Ok(())
    } else {
        Err(CallerViolation::NoCopy { address, word })
    }
}

/// Err if this slot opens as 0 where a word waits, or as another word where none does.
fn is_slot_as_owed<const B: usize, const M: usize>(
    machine: &Machine<B, M>,
    queue: Queue,
    waiting: Waiting,
    slot: u32,
) -> Result<(), CallerViolation>
    requires opens { machine.now.history ≡ at_opening machine.now.history.opening }
    requires block { IsBlock M (block_at queue 0 0) }
    requires waiting { IsWaiting machine.now.history.opening queue waiting }
    requires kind { kind_of queue.kind ≡ fastforward }
    requires slot { slot < queue.slots }
    requires below { AreAsOwedBelow machine.now.history.opening queue (queue.base + 128 + 4 * slot) }
    ensures slot { OnOk result ((memory_word machine.now.history.opening [] (queue.base + 128 + 4 * slot) == 0)
        ≡ not (waits_in machine.now.history.opening queue slot)) }
    ensures has_violation { IfErr result (λ violation. IsOpeningViolation M machine.now.history.opening queue violation) }
    ensures first { IfErr result (λ violation. IsFirstOfRest machine.now.history.opening queue violation) }
{
    let address = queue.base + 128 + 4 * slot;
    let word = machine.word(address);
    let waits = slots_after(queue, waiting.start, slot) < waiting.count;
    match (waits, word == 0) {
        (true, true) => Err(CallerViolation::NoWord { address }),
        (false, false) => Err(CallerViolation::NotFree { address, word }),
        _ => Ok(()),
    }
}

/// Err with the first slot of the queue that opens as 0 where a word waits, or as another word where none does.
fn are_as_owed<const B: usize, const M: usize>(
    machine: &Machine<B, M>,
    queue: Queue,
    waiting: Waiting,
) -> Result<(), CallerViolation>
    requires opens { machine.now.history ≡ at_opening machine.now.history.opening }
    requires block { IsBlock M (block_at queue 0 0) }
    requires waiting { IsWaiting machine.now.history.opening queue waiting }
    requires kind { kind_of queue.kind ≡ fastforward }
    ensures slots { OnOk result (AreAsOwedBelow machine.now.history.opening queue (queue.base + 128 + 4 * queue.slots)) }
    ensures has_violation { IfErr result (λ violation. IsOpeningViolation M machine.now.history.opening queue violation) }
    ensures first { IfErr result (λ violation. IsFirstOfRest machine.now.history.opening queue violation) }
{
    for slot in 0..queue.slots {
        is_slot_as_owed(machine, queue, waiting, slot)?;
    }
    Ok(())
}

/// Err if what is owed of such a queue beside its indices isn't so where it begins: of the copy of the tail, or of the slots.
fn opens_as_owed<const B: usize, const M: usize>(
    machine: &Machine<B, M>,
    queue: Queue,
    waiting: Waiting,
) -> Result<(), CallerViolation>
    requires opens { machine.now.history ≡ at_opening machine.now.history.opening }
    requires block { IsBlock M (block_at queue 0 0) }
    requires waiting { IsWaiting machine.now.history.opening queue waiting }
    ensures copy { OnOk result (caches_tail queue.kind ≡ true
        → IsOldTail machine.now.history.opening queue (memory_word machine.now.history.opening [] (queue.base + 4))) }
    ensures slots { OnOk result (kind_of queue.kind ≡ fastforward
        → AreAsOwedBelow machine.now.history.opening queue (queue.base + 128 + 4 * queue.slots)) }
    ensures has_violation { IfErr result (λ violation. IsOpeningViolation M machine.now.history.opening queue violation) }
    ensures first { IfErr result (λ violation. IsFirstOfRest machine.now.history.opening queue violation) }
{
    match queue.kind {
        QueueKind::Lamport => Ok(()),
        QueueKind::Cached => has_tail_copy(machine, queue, waiting),
        QueueKind::FastForward => are_as_owed(machine, queue, waiting),
    }
}

/// The queue with the lines of its functions, as it can be used from the machine's opening on. Err with the first thing that is
/// owed there, in the order in which docs/formats.md lists them.
pub(crate) fn locate<const B: usize, const M: usize>(
    machine: &Machine<B, M>,
    queue: Queue,
) -> Result<Located, CallerViolation>
    requires opens { machine.now.history ≡ at_opening machine.now.history.opening }
    requires size { M ≤ 65536 }
    ensures located { IfOk result (λ located. IsLocated M machine.now.history.opening queue located) }
    ensures has_violation { IfErr result (λ violation. IsFirstOpeningViolation M machine.now.history.opening queue violation) }
{
    let Queue {
        kind,
        sender,
        receiver,
        ..
    } = queue;
    if !is_block::<M>(queue) {
        return Err(CallerViolation::NoBlock);
    }
    if sender == receiver {
        return Err(CallerViolation::OneParty { hart: sender });
    }
    let opening = machine.opening();
    let Some(send_line) = function_of(opening, sender, send_words(kind)) else {
        return Err(CallerViolation::NoSend { kind, hart: sender });
    };
    let Some(receive_line) = function_of(opening, receiver, receive_words(kind)) else {
        return Err(CallerViolation::NoReceive {
            kind,
            hart: receiver,
        });
    };
    let waiting = waiting_of(machine, queue)?;
    opens_as_owed(machine, queue, waiting)?;
    let Waiting { start, count } = waiting;
    Ok(Located {
        queue,
        start,
        waiting: count,
        send_line,
        receive_line,
    })
}
