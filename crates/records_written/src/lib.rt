//! Certificates that show that records are written and read: whether the sender of a queue stores each byte of a record before it publishes
//! it, and whether the receiver loads each before it hands the record's slot back.
//!
//! The protocol of ownership says which slots a party may write or read, not that it does: a text that publishes slots as it found them
//! keeps it, and so does one that drops records. Marks say, for each state of a party in a certificate of `queue_certificates`, which bytes
//! of the slots ahead of its count are done: those that the sender has written since these slots were last published, or that the receiver
//! has read while it owned them. Each leaf of a state has to keep them. What any such marks mark is surely done there. Both parties have one
//! search for marks and one proof over runs; what differs is what an instruction does (`effect_in`).
//!
//! The contracts: where each byte of a mask is surely written of each position that a state of an accepted certificate may publish, then in
//! any run it was written since the record before in its slot, of a queue with indices as of one with tags ([`laws_of_written_records`]);
//! and where each is surely read of each position that may be handed back, then in any run it was read while the receiver owned the
//! position; and where no leaf reads what may be closed, then at most once, in order ([`laws_of_read_records`]). [`first_unwritten`],
//! [`first_unread`] and [`first_again`] compute whether that is so, or the first byte of which it isn't. A [`Lack`](known_values::Lack)
//! decides nothing. This crate reads no text, runs no machine, and says neither what a record holds nor that a byte isn't written, or isn't
//! read.
//!
//! Called by `certifying`.

#![tactic(auto)]

mod finding;
mod keeping;
mod leaves;
mod marking;
mod once;
mod parties;
mod receipts;
mod searching;

ghost use Rattle.std.specs.Prelude.{ℕ, ◌≡◌, ◌+◌, ◌<◌, ◌≤◌, Bool, List, [], ◌∷◌, ◌++◌, true};
ghost use Rattle.step_machine.specs.declared.events.Entry.{Entry};
ghost use Rattle.step_machine.specs.History.{OpeningValue, history_of};
ghost use Rattle.step_machine.specs.Legal.{WellFormed};
ghost use Rattle.queue_certificates.specs.Certificates.{QueueCertificate, accepts};
ghost use Rattle.records_written.specs.declared.finding.Missing.{Missing};
ghost use Rattle.records_written.specs.declared.parties.QueueNumber.{QueueNumber};
ghost use Rattle.records_written.specs.Parties.{IsListed, published_after, slot_in, taken_after};
ghost use Rattle.records_written.specs.Marks.{IsShownWritten, IsFirstUnwritten, IsShownRead, IsFirstUnread, IsShownOnce, IsFirstAgain, OwnsReads, IsRecordByte};
ghost use Rattle.records_written.specs.Read.{IsFresh, IsRead, IsReadBy};
ghost use Rattle.records_written.specs.Written.{IsWritten};

pub use finding::{Missing, first_unread, first_unwritten};
pub use once::first_again;
pub use parties::QueueNumber;

/// Laws of what is shown of the sender of a queue, and of the bytes of a mask. It does nothing.
///
/// - `shown`: where a certificate is accepted for an opening, and they are shown to be written, in every legal run from it, of any length
///   and with store buffers of any size: where the sender publishes a position, by its index or by the position's tag, it has written
///   each byte of the mask in that position's slot since the record before in that slot was published.
/// - `either`: where a byte is the first that isn't shown to be written, they aren't shown to be.
/// - `one`: at most one byte at one state is the first.
pub fn laws_of_written_records()
    ensures shown { (B M : ℕ) (o : OpeningValue) (c : QueueCertificate) → accepts o c ≡ true → (w : QueueNumber) → IsListed c w
        → (mask : ℕ → Bool) → IsShownWritten o c w mask → (es : List Entry) (e : Entry)
        → WellFormed B M (history_of o (es ++ e ∷ [])) → (k : ℕ) → published_after c w es ≤ k → k < published_after c w (es ++ e ∷ [])
        → (b : ℕ) → mask b ≡ true → IsWritten M o c w es k (slot_in c w k + b) }
    ensures either { (o : OpeningValue) (c : QueueCertificate) (w : QueueNumber) (mask : ℕ → Bool) (u : Missing) → IsShownWritten o c w mask
        → IsFirstUnwritten o c w mask u → ⊥ }
    ensures one { (o : OpeningValue) (c : QueueCertificate) (w : QueueNumber) (mask : ℕ → Bool) (u v : Missing) → IsFirstUnwritten o c w mask u
        → IsFirstUnwritten o c w mask v → (u.state ≡ v.state) × (u.byte ≡ v.byte) }
{}

/// Laws of what is shown of the receiver of a queue, and of the bytes of a mask. It does nothing.
///
/// - `read`: where a certificate is accepted for an opening, and they are shown to be read, in every legal run from it, of any length and
///   with store buffers of any size: where the receiver hands a position back, by its index or by the position's tag, it has read each byte
///   of the mask in that position's slot, at a time at which it had learned that it owned the position.
/// - `once`: where they are shown to be read at most once, in order, they are of records, and the receiver's loads of slots are accepted: when
///   it reads one of a position that it owns, it has read neither this one before, nor any of them of a later position.
/// - `either`: where a byte is the first that isn't shown to be read, they aren't shown to be.
/// - `one`: at most one byte at one state is the first.
/// - `either_once`, `one_once`: the same of the first byte that isn't shown to be read at most once.
pub fn laws_of_read_records()
    ensures read { (B M : ℕ) (o : OpeningValue) (c : QueueCertificate) → accepts o c ≡ true → (w : QueueNumber) → IsListed c w
        → (mask : ℕ → Bool) → IsShownRead o c w mask → (es : List Entry) (e : Entry)
        → WellFormed B M (history_of o (es ++ e ∷ [])) → (k : ℕ) → taken_after c w es ≤ k → k < taken_after c w (es ++ e ∷ [])
        → (b : ℕ) → mask b ≡ true → IsRead M o c w es k (slot_in c w k + b) }
    ensures once { (B M : ℕ) (o : OpeningValue) (c : QueueCertificate) → accepts o c ≡ true → (w : QueueNumber) → IsListed c w
        → (mask : ℕ → Bool) → IsShownOnce o c w mask → OwnsReads o c w → ((b : ℕ) → mask b ≡ true → IsRecordByte c w b)
        → (es : List Entry) (e : Entry) → WellFormed B M (history_of o (es ++ e ∷ [])) → (k b : ℕ) → mask b ≡ true
        → IsReadBy M o c w es e k (slot_in c w k + b) → IsFresh M o c w mask es k b }
    ensures either { (o : OpeningValue) (c : QueueCertificate) (w : QueueNumber) (mask : ℕ → Bool) (u : Missing) → IsShownRead o c w mask
        → IsFirstUnread o c w mask u → ⊥ }
    ensures one { (o : OpeningValue) (c : QueueCertificate) (w : QueueNumber) (mask : ℕ → Bool) (u v : Missing) → IsFirstUnread o c w mask u
        → IsFirstUnread o c w mask v → (u.state ≡ v.state) × (u.byte ≡ v.byte) }
    ensures either_once { (o : OpeningValue) (c : QueueCertificate) (w : QueueNumber) (mask : ℕ → Bool) (u : Missing) → IsShownOnce o c w mask
        → IsFirstAgain o c w mask u → ⊥ }
    ensures one_once { (o : OpeningValue) (c : QueueCertificate) (w : QueueNumber) (mask : ℕ → Bool) (u v : Missing) → IsFirstAgain o c w mask u
        → IsFirstAgain o c w mask v → (u.state ≡ v.state) × (u.byte ≡ v.byte) }
{}
