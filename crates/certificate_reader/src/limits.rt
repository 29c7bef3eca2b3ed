//! The limits of a certificate. They keep what is read of a text in proportion to its length.

/// The most queues with indices.
pub const MAX_QUEUES: usize = 16;

/// The most queues with tags.
pub const MAX_TAGGED: usize = 16;

/// The most slots of a queue with tags: the tag of each is looked at where the test opens.
pub const MAX_SLOTS: u32 = 65_536;

/// The most fields of a queue.
pub const MAX_FIELDS: usize = 16;

/// The most positions, from a count on, of which a state may say which fields are right. One further on is no place, as of registers.
pub const MAX_POSITIONS: usize = 64;

/// The most harts.
pub const MAX_HARTS: usize = 64;

/// The most words of a hart's own.
pub const MAX_WORDS: usize = 64;

/// The most variables of a state.
pub const MAX_VARIABLES: usize = 64;

/// The most goals of a hart, and the most sets of queues that it may lack.
pub const MAX_GOALS: usize = 64;

/// The most states of all harts.
pub const MAX_STATES: usize = 16_384;
