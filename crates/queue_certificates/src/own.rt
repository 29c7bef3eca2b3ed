//! Words of a hart's own.

/// Where it lies, and how many bytes it has: a word, a half or a byte that no other hart writes.
#[derive(Clone, Copy, PartialEq, Eq)]
pub struct OwnWord {
    pub at: u32,
    pub width: u32,
}
