//! What was sent, as a log for each byte of the slots: what the sender's hart reads there as that changes, and since when the receiver has
//! stored over it.

ghost use Rattle.std.specs.Prelude.{◌≡◌, ◌≤◌, ◌<◌, ◌+◌, ◌*◌, ◌==◌, ◌&&◌, ℕ, true, OnOk, None, Some, length};
ghost use Rattle.memory.specs.Writes.{newest_of};
ghost use Rattle.step_machine.specs.Access.{access_of};
ghost use Rattle.step_machine.specs.Entries.{hart_of, read_byte, memory_byte};
ghost use Rattle.ownership_runs.specs.Protocols.{party_for};
ghost use Rattle.ownership_runs.specs.inner.Logging.{sent_in, last_sent, of_byte, logged, has_place, with_byte, with_read, with_changed};
ghost use Rattle.ownership_runs.specs.inner.Logging.{is_logged, landing_of, changed_by, sender_of};
ghost use Rattle.ownership_runs.specs.inner.Logging.{stores_own, reader_of, logged_by, IsOpenedLog};

use crate::counts::RunCounts;
use crate::numbers::byte_at;
use crate::parties::count;
use crate::protocols::party_for;
use crate::stores::{slot_width, slots_from, slots_in};
use memory::writes::Write;
use queue_layouts::{AnyQueue, Party};
use std::alloc::AllocError;
use step_machine::{Entry, Event, Machine};

/// Of a byte: what the sender's hart reads there when it publishes a position from this one on, or that nothing is left there of the positions
/// from this one on. What is logged of the byte later counts before it.
#[derive(Clone, Copy)]
pub(crate) struct SentByte {
    from: u128,
    byte: Option<u8>,
}

/// What is logged of a byte.
#[derive(Drop)]
pub(crate) struct ByteLog {
    first: SentByte,
    later: Vec<SentByte>,
}

/// What is logged of a position, the last of these first.
fn sent_in(first: SentByte, later: &[SentByte], position: u128) -> Option<u8>
    ensures { result ≡ sent_in first later.now position }
{
    for place in (0..later.len()).rev() {
        let sent = later[place];
        if sent.from <= position {
            return match sent.byte {
                Some(byte) => Some(byte),
                None => None,
            };
        }
    }
    if first.from <= position {
        first.byte
    } else {
        None
    }
}

/// What the log has of a position's byte at an address.
pub(crate) fn logged(queue: &AnyQueue, log: &[ByteLog], position: u128, x: u64) -> Option<u8>
    ensures { result ≡ logged queue.now log.now position x }
{
    let slots = u64::from(slots_from(queue));
    if x < slots {
        return None;
    }
    let place = usize::try_from(x - slots).unwrap_or(usize::MAX);
    match log.get(place) {
        Some(bytes) => sent_in(bytes.first, &bytes.later, position),
        None => None,
    }
}

/// The byte that the newest of these stores to cover an address puts there.
fn newest(stores: &[Write], x: u32) -> Option<u8>
    ensures { result ≡ newest_of x None stores.now }
{
    let mut found = None;
    for store in stores {
        if store.covers(x) {
            found = Some(byte_at(store.value, x - store.addr));
        }
    }
    found
}

/// The byte of memory at an address.
fn memory_byte<const B: usize, const M: usize>(machine: &Machine<B, M>, x: u32) -> u8
    requires address { x < 4 * M }
    ensures { result ≡ memory_byte machine.now.history.opening machine.now.history.entries x }
{
    byte_at(machine.word(x - x % 4), x % 4)
}

/// The byte that a hart reads at an address.
fn read_byte<const B: usize, const M: usize>(machine: &Machine<B, M>, hart: u32, x: u32) -> u8
    requires hart { hart < length machine.now.history.opening.harts }
    requires address { x < 4 * M }
    ensures { result ≡ read_byte machine.now.history.opening machine.now.history.entries hart x }
{
    match newest(machine.pending(hart), x) {
        Some(byte) => byte,
        None => memory_byte(machine, x),
    }
}

/// What was logged last of a byte.
fn last_sent(first: SentByte, later: &[SentByte]) -> SentByte
    ensures { result ≡ last_sent first later.now }
{
    let count = later.len();
    if count == 0 { first } else { later[count - 1] }
}

/// Whether two bytes are the same, or neither is there.
fn is_same(byte: Option<u8>, other: Option<u8>) -> bool
    ensures same { result ≡ true → byte ≡ other }
    ensures other { byte ≡ other → result ≡ true }
{
    match byte {
        Some(byte) => match other {
            Some(other) => byte == other,
            None => false,
        },
        None => other.is_none(),
    }
}

/// Logs of a byte what counts from a position on, where that isn't what was logged last.
fn note(bytes: &mut ByteLog, from: u128, byte: Option<u8>) -> Result<(), AllocError>
    ensures { OnOk result ((k : ℕ) → of_byte (Some bytes.new) k ≡ with_byte from byte (of_byte (Some bytes.old)) k) }
{
    let last = last_sent(bytes.first, &bytes.later);
    if last.from <= from && is_same(last.byte, byte) {
        return Ok(());
    }
    bytes.later.push(SentByte { from, byte })?;
    Ok(())
}

/// Logs of a byte what the sender's hart reads there from a position on; where `over`, nothing is left there of those before.
fn note_read(bytes: &mut ByteLog, from: u128, over: bool, byte: u8) -> Result<(), AllocError>
    ensures { OnOk result ((k : ℕ) → of_byte (Some bytes.new) k ≡ with_read from over byte (of_byte (Some bytes.old) k) k) }
{
    if over {
        note(bytes, 0, None)?;
    }
    note(bytes, from, Some(byte))
}

/// Logs the byte at an address, which the sender's hart reads from a position on; where `over`, nothing is left there of those before.
fn log_byte(
    queue: &AnyQueue,
    from: u128,
    over: bool,
    byte: u8,
    x: u64,
    log: &mut Vec<ByteLog>,
) -> Result<(), AllocError>
    ensures places { OnOk result (length log.new.items ≡ length log.old.items) }
    ensures logged { OnOk result ((k y : ℕ) → logged queue.now log.new.items k y
        ≡ with_changed (λ z. has_place queue.now (length log.old.items) x && z == x) over (λ z. byte) from (logged queue.now log.old.items) k y) }
{
    let slots = u64::from(slots_from(queue));
    if x < slots {
        return Ok(());
    }
    let place = usize::try_from(x - slots).unwrap_or(usize::MAX);
    if place >= log.len() {
        return Ok(());
    }
    note_read(&mut log[place], from, over, byte)
}

/// Logs what a hart reads from a position on where a store is.
fn log_store<const B: usize, const M: usize>(
    queue: &AnyQueue,
    machine: &Machine<B, M>,
    reader: u32,
    from: u128,
    over: bool,
    store: Write,
    log: &mut Vec<ByteLog>,
) -> Result<(), AllocError>
    requires size { M ≤ 65536 }
    requires reader { reader < length machine.now.history.opening.harts }
    ensures places { OnOk result (length log.new.items ≡ length log.old.items) }
    ensures logged { OnOk result ((k x : ℕ) → logged queue.now log.new.items k x
        ≡ with_changed (is_logged M queue.now (length log.old.items) store.addr store.width) over
        (read_byte machine.now.history.opening machine.now.history.entries reader) from (logged queue.now log.old.items) k x) }
{
    for number in 0..store.width {
        let x = u64::from(store.addr) + u64::from(number);
        if x < 4 * M as u64 {
            let byte = read_byte(machine, reader, x as u32);
            log_byte(queue, from, over, byte, x, log)?;
        }
    }
    Ok(())
}

/// Which hart sends.
fn sender_of(queue: &AnyQueue) -> u32
    ensures { result ≡ sender_of queue.now }
{
    match queue {
        AnyQueue::Indexed(queue) => queue.sender,
        AnyQueue::Tagged(queue) => queue.sender,
    }
}

/// The store that an event lands, if it lands one, and otherwise one of no byte.
pub(crate) fn landing<const B: usize, const M: usize>(
    machine: &Machine<B, M>,
    event: Event,
) -> Write
    ensures { result ≡ landing_of machine.now.history event }
{
    if let Event::Land(hart) = event {
        if hart < machine.harts() {
            if let Some(store) = machine.pending(hart).first() {
                return *store;
            }
        }
    }
    Write {
        addr: 0,
        width: 0,
        value: 0,
    }
}

/// Where an entry changes what is read, if it changes that: where it stores, or where the store that it lands is.
fn changed_by(landing: Write, entry: Entry) -> Write
    ensures { result ≡ changed_by landing (access_of entry) }
{
    match entry {
        Entry::Store {
            addr,
            width,
            value,
            ..
        } => Write { addr, width, value },
        Entry::Amo { addr, new, .. } => Write {
            addr,
            width: 4,
            value: new,
        },
        _ => landing,
    }
}

/// Whether an entry is a store of the receiver's.
fn stores_own(queue: &AnyQueue, entry: Entry) -> bool
    ensures { result ≡ stores_own (party_for queue.now (hart_of entry)) (access_of entry) }
{
    let Some(Party::Receiver) = party_for(queue, entry.hart()) else {
        return false
    };
    match entry {
        Entry::Store { .. } => true,
        Entry::Amo { old, new, .. } => new != old,
        _ => false,
    }
}

/// The sender's hart, or an entry's where the machine has none that sends.
fn reader_of<const B: usize, const M: usize>(
    queue: &AnyQueue,
    machine: &Machine<B, M>,
    entry: Entry,
) -> u32
    ensures { result ≡ reader_of queue.now (length machine.now.history.opening.harts) (hart_of entry) }
{
    let sender = sender_of(queue);
    if sender < machine.harts() {
        sender
    } else {
        entry.hart()
    }
}

/// Logs what an entry, after which the machine stands, makes of what was sent, where these are the counts before it, and this is the store
/// that it lands, if it lands one.
pub(crate) fn log_entry<const B: usize, const M: usize>(
    queue: &AnyQueue,
    machine: &Machine<B, M>,
    counts: RunCounts,
    landing: Write,
    entry: Entry,
    log: &mut Vec<ByteLog>,
) -> Result<(), AllocError>
    requires size { M ≤ 65536 }
    requires hart { hart_of entry < length machine.now.history.opening.harts }
    ensures places { OnOk result (length log.new.items ≡ length log.old.items) }
    ensures logged { OnOk result ((k x : ℕ) → logged queue.now log.new.items k x ≡ logged_by M queue.now (length log.old.items)
        (party_for queue.now (hart_of entry)) counts.published
        (read_byte machine.now.history.opening machine.now.history.entries
        (reader_of queue.now (length machine.now.history.opening.harts) (hart_of entry)))
        landing (access_of entry) (logged queue.now log.old.items) k x) }
{
    let reader = reader_of(queue, machine, entry);
    let over = stores_own(queue, entry);
    let store = changed_by(landing, entry);
    let published = count(Party::Sender, counts);
    log_store(queue, machine, reader, published, over, store, log)
}

/// Makes a log in which the positions from this one on have what the slots hold in memory.
pub(crate) fn open_log<const B: usize, const M: usize>(
    queue: &AnyQueue,
    machine: &Machine<B, M>,
    from: u128,
    log: &mut Vec<ByteLog>,
) -> Result<(), AllocError>
    requires size { M ≤ 65536 }
    ensures { OnOk result (IsOpenedLog M queue.now (memory_byte machine.now.history.opening machine.now.history.entries) from log.new.items) }
{
    log.clear();
    let slots = u64::from(slots_from(queue));
    let bytes = u64::from(slots_in(queue)) * u64::from(slot_width(queue));
    let room = (4 * M as u64).saturating_sub(slots);
    for place in 0..bytes.min(room) {
        let byte = memory_byte(machine, (slots + place) as u32);
        let first = SentByte {
            from,
            byte: Some(byte),
        };
        let later = Vec::new(*log.allocator());
        log.push(ByteLog { first, later })?;
    }
    Ok(())
}
