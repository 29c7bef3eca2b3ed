//! The queue that callers are asked about.

/// The three kinds of queue.
#[derive(Clone, Copy, PartialEq, Eq)]
pub enum QueueKind {
    Lamport,
    /// Lamport's, with a sender that keeps a copy of the tail.
    Cached,
    FastForward,
}

/// Of which kind a queue is, where its block lies, how many slots it has, and which harts send and receive.
#[derive(Clone, Copy)]
pub struct Queue {
    pub kind: QueueKind,
    pub base: u32,
    pub slots: u32,
    pub sender: u32,
    pub receiver: u32,
}

/// A queue, the slot that its receiver's index opens at, how many words wait from there on, and the lines of its harts' codes at which
/// their functions begin.
#[derive(Clone, Copy)]
pub struct Located {
    pub queue: Queue,
    pub start: u32,
    pub waiting: u32,
    pub send_line: u32,
    pub receive_line: u32,
}
