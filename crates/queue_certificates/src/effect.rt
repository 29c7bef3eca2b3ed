//! What an access of a queue's sender does to the queue.

/// Its effect on the slots and on the sender's count.
#[derive(Clone, Copy)]
pub enum Effect {
    /// None.
    Leaves,
    /// It writes `width` bytes, from `offset` on, of the slot of the position that is `position` further than the count.
    Fills {
        position: u64,
        offset: u64,
        width: u64,
    },
    /// It publishes this number of positions.
    Publishes(u64),
    /// It publishes at most this number of positions.
    PublishesSome(u64),
}
