//! A record that was lost.

/// A load by which the receiver finds another byte than was sent: of the last position of which it was told that has the byte, and in
/// which the sender's hart read `sent` just after it published that position.
#[derive(Clone, Copy, PartialEq, Eq)]
pub struct Loss {
    /// How many entries come before the load.
    pub place: usize,
    pub hart: u32,
    /// What is loaded: a number of `width` bytes, from the addresses from `addr` on. Of an AMO it is the old word.
    pub addr: u32,
    pub width: u32,
    pub value: u32,
    pub position: u128,
    /// The first byte of these that isn't what was sent.
    pub byte: u32,
    pub sent: u8,
}
