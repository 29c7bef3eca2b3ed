//! A queue between two harts without a shared index, whose slots tell whose they are (FastForward's, and Vyukov's with numbers):
//! what holds of every run whose entries keep the protocol, whatever programs the harts run, for store buffers of any size.
//!
//! Each slot has a tag, in it or in an array beside the slots. A party owns the positions from its own count up to what the tags
//! that it loaded told it. It stores what it likes into the rest of slots that it owns, and hands its own position over by a store to
//! the tag. The contract is that of [`laws_of_telling`]. This crate runs nothing.
//!
//! Called by none, and cited by more than 6 crates, from `queue_certificates` to `certifying`.

#![tactic(auto)]

ghost use Rattle.std.specs.Prelude.{ℕ, ◌≡◌, ◌≢◌, ◌<◌, ◌≤◌, ◌+◌, ◌%◌, List, [], ◌∷◌, ◌++◌, length, true, false};
ghost use Rattle.step_machine.specs.declared.events.Entry.{Entry};
ghost use Rattle.step_machine.specs.History.{OpeningValue};
ghost use Rattle.step_machine.specs.Entries.{hart_of, own_stores, lands, pending, read_byte};
ghost use Rattle.step_machine.specs.Access.{load, access_of};
ghost use Rattle.queue_parties.specs.Positions.{IsPrefix};
ghost use Rattle.queue_parties.specs.Parties.{Party, the_sender, the_receiver, other, QueueCounts, count, known, IsWindow};
ghost use Rattle.slots_that_tell.specs.Slots.{Slots, gap, tag_of, IsSlotByte};
ghost use Rattle.slots_that_tell.specs.Telling.{teller_hart, told_counts};
ghost use Rattle.slots_that_tell.specs.Codecs.{zero_is_free, position_number, bits_under, phase_bits};
ghost use Rattle.slots_that_tell.specs.Laws.{FollowsTelling, moved_on, StoresTagsAlone, records_by, records_learned, records_waiting};
ghost use Rattle.store_buffers.specs.StoreBuffers.{LeavesByteAt};

/// Of every run that keeps the protocol from where the queue was at rest, empty or with records that wait. It does nothing.
///
/// - `window`: neither party knows of more than there is, and neither has moved past what it knows.
/// - `publication`: once the other party knows of more than a party's count was at some point, all that the party's hart had
///   stored there has landed.
/// - `publication_of_tag`: once it knows of as much as the count was after the store of a tag, that store too.
/// - `delivery`: where the receiver owns position k, its hart reads each byte of the slot, of the tag or not, as the sender's hart
///   did just after it stored the tag of position k, unless the receiver's hart has stored there since.
/// - `handing_back`: the same from the receiver to the sender, which then owns the slot's next position.
/// - `in_order`: if the receiver's hart stores nothing to the slots but tags, and makes no AMO: the records whose tags it stores,
///   as it reads them just before, are a prefix of those that waited and those whose tags the sender stored, as the sender reads them
///   just after.
/// - `in_order_as_learned`: the records of which the receiver learns, by a load or an AMO that tells it, as its hart reads them just
///   before, are a prefix of those that waited without its knowing and those whose tags the sender stored. Whatever it stores to its
///   slots later, and by whatever it hands them back.
/// - `waiting`: until the receiver has taken a record that waited where the run began, every hart reads it as any hart did there,
///   unless the receiver's hart has stored there since.
/// - `look`: a tag that doesn't tell a party of position j, of its next round: the other's pending stores make its count of one at
///   which position j isn't this party's. So where it has none pending to tags, full means full, and empty means empty.
/// - `zero_tells`: 0 for free and anything else for full is a way to tell.
/// - `numbers_tell`: so are positions' numbers mod m, unless the size is 1 mod m.
/// - `bits_tell`: so are bits under a mask, where a free slot's and a full one's differ.
/// - `phases_tell`: so are bits that turn with the rounds, where a slot's next bits always differ: free, full, and these two of the round
///   after.
pub fn laws_of_telling()
    ensures window { (B : ℕ) (q : Slots) (start : QueueCounts) (o : OpeningValue) (before es : List Entry) → FollowsTelling B q start o before es
        → IsWindow q.size (told_counts q start es) }
    ensures publication { (B : ℕ) (q : Slots) (start : QueueCounts) (o : OpeningValue) (before es fs : List Entry)
        → FollowsTelling B q start o before (es ++ fs) → (p : Party) → count p (told_counts q start es) < known (other p) (told_counts q start (es ++ fs))
        → length (own_stores (teller_hart q p) (before ++ es)) ≤ lands (teller_hart q p) (before ++ (es ++ fs)) }
    ensures publication_of_tag { (B : ℕ) (q : Slots) (start : QueueCounts) (o : OpeningValue) (before es : List Entry) (e : Entry) (fs : List Entry)
        → FollowsTelling B q start o before ((es ++ e ∷ []) ++ fs) → (p : Party)
        → count p (told_counts q start es) < count p (told_counts q start (es ++ e ∷ []))
        → count p (told_counts q start (es ++ e ∷ [])) ≤ known (other p) (told_counts q start ((es ++ e ∷ []) ++ fs))
        → length (own_stores (teller_hart q p) (before ++ (es ++ e ∷ []))) ≤ lands (teller_hart q p) (before ++ ((es ++ e ∷ []) ++ fs)) }
    ensures delivery { (B : ℕ) (q : Slots) (start : QueueCounts) (o : OpeningValue) (before es : List Entry) (e : Entry) (fs : List Entry)
        → FollowsTelling B q start o before (es ++ e ∷ fs) → (k x : ℕ) → IsSlotByte q k x
        → (told_counts q start es).published ≤ k → k < (told_counts q start (es ++ e ∷ [])).published
        → (told_counts q start (es ++ e ∷ fs)).taken ≤ k → k < (told_counts q start (es ++ e ∷ fs)).known_published → LeavesByteAt q.receiver x fs
        → read_byte o (before ++ (es ++ e ∷ fs)) q.receiver x ≡ read_byte o (before ++ (es ++ e ∷ [])) q.sender x }
    ensures handing_back { (B : ℕ) (q : Slots) (start : QueueCounts) (o : OpeningValue) (before es : List Entry) (e : Entry) (fs : List Entry)
        → FollowsTelling B q start o before (es ++ e ∷ fs) → (k x : ℕ) → IsSlotByte q k x
        → (told_counts q start es).taken ≤ k → k < (told_counts q start (es ++ e ∷ [])).taken
        → (told_counts q start (es ++ e ∷ fs)).published ≤ k + q.size → k + q.size < (told_counts q start (es ++ e ∷ fs)).known_taken + q.size
        → LeavesByteAt q.sender x fs
        → read_byte o (before ++ (es ++ e ∷ fs)) q.sender x ≡ read_byte o (before ++ (es ++ e ∷ [])) q.receiver x }
    ensures in_order { (B : ℕ) (q : Slots) (start : QueueCounts) (o : OpeningValue) (before es : List Entry) → FollowsTelling B q start o before es
        → StoresTagsAlone q q.receiver es
        → IsPrefix (records_by q the_receiver o start before es)
        (records_waiting q o start before start.taken ++ records_by q the_sender o start before es) }
    ensures in_order_as_learned { (B : ℕ) (q : Slots) (start : QueueCounts) (o : OpeningValue) (before es : List Entry)
        → FollowsTelling B q start o before es → IsPrefix (records_learned q o start before es)
        (records_waiting q o start before start.known_published ++ records_by q the_sender o start before es) }
    ensures waiting { (B : ℕ) (q : Slots) (start : QueueCounts) (o : OpeningValue) (before es : List Entry) → FollowsTelling B q start o before es
        → (k x : ℕ) → IsSlotByte q k x → k < start.published → (told_counts q start es).taken ≤ k → LeavesByteAt q.receiver x es
        → (g h : ℕ) → read_byte o (before ++ es) h x ≡ read_byte o before g x }
    ensures look { (B : ℕ) (q : Slots) (start : QueueCounts) (o : OpeningValue) (before es : List Entry) (e : Entry)
        → FollowsTelling B q start o before (es ++ e ∷ []) → (p : Party) (j v : ℕ) → hart_of e ≡ teller_hart q p → access_of e ≡ load (tag_of q j) q.tag_width v
        → count p (told_counts q start es) ≤ j → j < count p (told_counts q start es) + q.size → q.tells p j v ≡ false
        → (i : ℕ) × (i + gap q (other p) ≤ j) × (moved_on q i (pending (teller_hart q (other p)) (before ++ es)) ≡ count (other p) (told_counts q start es)) }
    ensures zero_tells { (q : Slots) (p : Party) (k v : ℕ) → zero_is_free p k v ≡ true → zero_is_free (other p) (k + gap q p) v ≡ false }
    ensures numbers_tell { (m : ℕ) → 2 ≤ m → (q : Slots) → q.size % m ≢ 1 → (p : Party) (k v : ℕ) → position_number m p k v ≡ true
        → position_number m (other p) (k + gap q p) v ≡ false }
    ensures bits_tell { (mask free full : ℕ) → free ≢ full → (q : Slots) (p : Party) (k v : ℕ) → bits_under mask free full p k v ≡ true
        → bits_under mask free full (other p) (k + gap q p) v ≡ false }
    ensures phases_tell { (mask free full odd_free odd_full : ℕ) → free ≢ full → full ≢ odd_free → odd_free ≢ odd_full → odd_full ≢ free
        → (q : Slots) → 1 ≤ q.size → (p : Party) (k v : ℕ) → phase_bits q.size mask free full odd_free odd_full p k v ≡ true
        → phase_bits q.size mask free full odd_free odd_full (other p) (k + gap q p) v ≡ false }
{}
