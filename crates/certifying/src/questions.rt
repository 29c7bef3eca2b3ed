//! What may be asked of a certificate besides the protocol.

/// What is asked of a certificate besides the protocol.
#[derive(Clone, Copy)]
pub struct Questions<'a> {
    /// Whether it is asked if each queue goes on.
    pub progress: bool,
    /// Which bytes of each record its sender is to write, as [`record_bytes::is_bytes`] takes them; `None` where that isn't asked.
    pub written: Option<&'a str>,
    /// The same of those that its receiver is to read.
    pub read: Option<&'a str>,
    /// The same of those that it is to read at most once, in order.
    pub once: Option<&'a str>,
    /// Whether it is asked if each hart is never stopped, and which bytes it writes.
    pub harts: bool,
}
