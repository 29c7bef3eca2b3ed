//! What comes of a certificate.

/// What comes of a certificate.
#[derive(Clone, Copy)]
pub enum Judgement {
    /// Every run keeps the protocol of each queue, and its parties load only slots that they own, and tags. All that was asked besides
    /// is shown.
    Kept,
    /// Every run keeps the protocol of each queue. That its parties load only slots that they own, and tags, isn't shown.
    ReadsNotShown,
    /// Every run keeps the protocol of each queue, and its parties load only slots that they own, and tags. That each queue goes on was
    /// asked, and isn't shown.
    ProgressNotShown,
    /// Every run keeps the protocol of each queue, and its parties load only slots that they own, and tags. Not all else that was asked
    /// is shown.
    AskedNotShown,
    /// Nothing is claimed.
    NotShown,
    /// A run breaks the protocol of a queue.
    Broken,
    /// A run breaks the protocol of a queue by a store that the protocol doesn't have at that point, whatever the other party did.
    OtherProtocol,
}
