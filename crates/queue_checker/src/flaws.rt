//! What of a certificate isn't accepted.

ghost use Rattle.std.specs.Prelude.{ℕ, ◌≡◌, ◌↔◌, None, true};
ghost use Rattle.step_machine.specs.History.{OpeningValue};
ghost use Rattle.queue_certificates.specs.Certificates.{QueueCertificate, accepts, accepts_loads, accepts_rest};
ghost use Rattle.queue_checker.specs.Flaws.{first_flaw, first_unowned, first_unowned_rest};

/// Why a queue of a certificate is none, or doesn't open at its count.
#[derive(Clone, Copy, PartialEq, Eq)]
pub enum QueueFlaw {
    /// One hart sends and receives.
    OneHart,
    /// The head and the tail share a byte.
    IndicesMeet,
    /// An index shares a byte with the slots.
    IndexMeetsSlots,
    /// There is no slot.
    NoSlot,
    /// More slots may be in use than there are.
    FewSlots,
    /// The modulus or the scale is 0.
    NoCounts,
    /// An index has no byte.
    NoIndex,
    /// The words of an index don't fit its bytes, or these are more than 4.
    WideIndex,
    /// As many slots may be in use as an index has words, so that it doesn't tell all in use from none.
    FewCounts,
    /// Memory opens with another head than the word of the count.
    Head,
    /// The same of the tail.
    Tail,
    /// A field of its records reaches past a slot, or has a number that its bytes don't.
    WideField,
}

/// Why a queue with tags of a certificate is none, or doesn't open with its slots free.
#[derive(Clone, Copy, PartialEq, Eq)]
pub enum TaggedFlaw {
    /// One hart sends and receives.
    OneHart,
    /// There is no slot.
    NoSlot,
    /// A tag has no byte.
    NoTag,
    /// A tag has more than 4 bytes.
    WideTag,
    /// A tag reaches past the element that it lies in.
    PastSlot,
    /// The elements with the tags overlap the slots, without being them.
    Overlapping,
    /// A tag isn't a word, and positions' numbers tell.
    NarrowNumber,
    /// A position's number is the same for a free slot and for a full one.
    SameNumbers,
    /// The mask has a bit that the tag doesn't.
    WideMask,
    /// The bits of a free slot are those of a full one; with phase bits, of those that come before or after.
    SameBits,
    /// The bits of a free slot, or of a full one, aren't all of the mask, so that no slot is ever so.
    OutsideMask,
    /// Memory opens with a slot that isn't free for its position.
    NotFree,
}

/// The part of a certificate that isn't accepted: a queue with indices; a queue with tags, by its number among those; how a hart
/// opens; or one of a hart's states.
#[derive(Clone, Copy, PartialEq, Eq)]
pub enum Flaw {
    Queue(u32, QueueFlaw),
    Tagged(u32, TaggedFlaw),
    Opening(u32),
    State { hart: u32, state: u32 },
}

/// A certificate is accepted exactly where there is no first flaw, and a hart's loads of a queue's slots exactly where there is no
/// first state with one that isn't shown to be of an owned slot; the same of a queue with tags, whose tags may be loaded too. It
/// does nothing.
#[tactic(auto, using(crate::proofs::FlawLaws::no_flaw, crate::proofs::FlawLaws::all_owned, crate::proofs::FlawLaws::all_rest))]
pub fn laws_of_flaws()
    ensures flaw { (o : OpeningValue) (c : QueueCertificate) → (first_flaw o c ≡ None) ↔ (accepts o c ≡ true) }
    ensures loads { (o : OpeningValue) (c : QueueCertificate) (i h : ℕ) → (first_unowned o c i h ≡ None) ↔ (accepts_loads o c i h ≡ true) }
    ensures rest { (o : OpeningValue) (c : QueueCertificate) (t h : ℕ) → (first_unowned_rest o c t h ≡ None) ↔ (accepts_rest o c t h ≡ true) }
{}
