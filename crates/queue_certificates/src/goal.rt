//! What a hart's states have ranks for.

/// That a hart goes on, as ranks of its states show it where they fall.
#[derive(Clone, Copy)]
pub enum Goal {
    /// In this queue with indices, of which it owns at most this number of positions while it waits: two ranks.
    Queue(u32, u64),
    /// In this queue with tags, numbered on after those with indices: one rank.
    Tags(u32),
    /// In one of its queues with indices, of one of which it owns at most this number of positions while it waits: one rank.
    Together(u64),
}
