//! What breaks a queue's protocol.

/// The positions that a party owns: from `from` on and before `end`. There are none where `end` isn't above `from`.
#[derive(Clone, Copy, PartialEq, Eq)]
pub struct Owned {
    pub from: u128,
    pub end: u128,
}

/// A store of a run that its hart may not make.
#[derive(Clone, Copy, PartialEq, Eq)]
pub struct Violation {
    /// How many entries come before it.
    pub place: usize,
    pub hart: u32,
    /// What is stored: a number of `width` bytes, to the addresses from `addr` on. Of an AMO it is the new word.
    pub addr: u32,
    pub width: u32,
    pub value: u32,
    /// What the hart owned then, an AMO's after it has read; nothing if the hart neither sends nor receives.
    pub owned: Option<Owned>,
    /// Whether the hart might have made this store if it had owned as many positions as there are slots, from its own count on, and a sender
    /// as many more as may be in use. Otherwise the queue's protocol has no such store of it then, whatever the other party did.
    pub described: bool,
}
