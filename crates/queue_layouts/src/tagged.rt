//! Queues whose slots tell whose they are, as a certificate lists them.

/// How the tag of a slot tells.
#[derive(Clone, Copy, PartialEq, Eq)]
pub enum Codec {
    /// By 0 where the slot is free, and by any other number where it is full.
    Zero,
    /// By positions' numbers modulo 2^32: by k where the slot is free for position k, and by k + 1 where it is full of it.
    Number,
    /// By its bits under a mask, as an OWN bit is: `free` where the slot is free, and `full` where it is full.
    Bit {
        mask: u32,
        free: u32,
        full: u32,
    },
    /// By its bits under a mask, which turn with the rounds, as phase bits do: `free` and `full` for the positions of even rounds, and
    /// `odd_free` and `odd_full` for those of odd ones. A round is as many positions as there are slots.
    Phases {
        mask: u32,
        free: u32,
        full: u32,
        odd_free: u32,
        odd_full: u32,
    },
}

/// The harts that send and receive; where the slots begin, how many they are, and how many bytes one has; where the elements with the
/// tags begin, one for each slot, how many bytes one has, and which of these are the tag; and how that tells. Where tags lie in their
/// slots, the elements are the slots. Addresses and widths are in bytes; whether they are those of a queue (`is_tagged`) the type
/// leaves open.
#[derive(Clone, Copy, PartialEq, Eq)]
pub struct TaggedQueue {
    pub sender: u32,
    pub receiver: u32,
    pub slots: u32,
    pub size: u32,
    pub width: u32,
    pub tags: u32,
    pub tag_stride: u32,
    pub tag_offset: u32,
    pub tag_width: u32,
    pub codec: Codec,
}

/// A queue, and the position with which it opens: for the positions of one round from there on its slots are free.
#[derive(Clone, Copy, PartialEq, Eq)]
pub struct OpenedTagged {
    pub queue: TaggedQueue,
    pub start: u64,
}
