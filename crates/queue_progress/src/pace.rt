//! How soon a party of a queue goes on.

/// Of any `pace` + `sight` + 2 instructions in a row of a party one moves its index, or is a load of the other's by which it finds that it
/// owns at most `owned` positions: free ones the sender, full ones the receiver.
#[derive(Clone, Copy)]
pub struct Pace {
    /// How many positions it may own while it waits.
    pub owned: u64,
    /// How many instructions in a row it may own more and not move its index.
    pub pace: u64,
    /// How many instructions in a row it may neither move its index nor load the other's.
    pub sight: u64,
}

/// What ranks show of a party of a queue.
#[derive(Clone, Copy)]
pub enum Progress {
    GoesOn(Pace),
    /// The first state of which the rank doesn't fall along instructions that don't move its index, at each of which it may own more positions
    /// than the certificate says, or of which it has no greatest number.
    NoPace(u32),
    /// The same along instructions that neither move its index nor load the other's.
    NoLook(u32),
    /// The certificate has no ranks for it.
    Unranked,
}

/// What ranks show of a party of a queue with tags, or of instructions of a kind.
#[derive(Clone, Copy)]
pub enum ToldProgress {
    /// N: of any N + 1 of its instructions in a row one moves its position, or is a load of that position's tag by which it isn't told that
    /// the slot is its own.
    Within(u64),
    /// The first state of which the rank doesn't fall along instructions that do neither, or has no greatest number.
    Endless(u32),
    /// The certificate has no ranks for it.
    Unranked,
}

/// What ranks are for: the place of the first of them, and how many positions the party may own while it waits.
#[derive(Clone, Copy)]
pub struct Placed {
    pub place: usize,
    pub owned: u64,
}
