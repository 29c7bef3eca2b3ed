//! What callers of a queue's functions owe and don't keep.

use crate::queue::QueueKind;

/// A violation. Harts, addresses and registers are those of the run.
#[derive(Clone, Copy, PartialEq, Eq)]
pub enum CallerViolation {
    /// The block isn't aligned to 4 bytes, has no slot, or ends past the memory.
    NoBlock,
    /// One hart sends and receives.
    OneParty { hart: u32 },
    /// The hart that sends has no copy of this kind's function in its code, or there is no such hart.
    NoSend { kind: QueueKind, hart: u32 },
    /// The same of the hart that receives.
    NoReceive { kind: QueueKind, hart: u32 },
    /// The index at this address, the sender's or the receiver's, opens as this word, which is the offset of no slot.
    NoOffset { address: u32, word: u32 },
    /// The sender's copy of the tail, at this address, opens as this word, which is no offset that the tail can have had.
    NoCopy { address: u32, word: u32 },
    /// The slot at this address opens as this word, and not as 0 as each of FastForward's must in which no word waits.
    NotFree { address: u32, word: u32 },
    /// The slot at this address opens as 0, between FastForward's indices, where a word must wait.
    NoWord { address: u32 },
    /// The hart wrote to the block outside of a call, from this address on, by its instruction at `pc`.
    Wrote { hart: u32, pc: u32, address: u32 },
    /// The hart entered its function with these bytes in a2, and not those of the slots.
    PassedBytes { hart: u32, bytes: u32 },
    /// The hart entered FastForward's function that sends with 0 in a1.
    PassedWord { hart: u32 },
    /// The hart entered its function with this address in ra, which is no multiple of 4 or the function itself.
    PassedReturn { hart: u32, back: u32 },
}
