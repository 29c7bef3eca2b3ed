//! A queue between two harts as two indices, of any layout, with slots of any width: what holds of every run whose entries keep
//! the protocol of ownership, whatever programs the harts run, for store buffers of any size.
//!
//! A party owns the positions from its own count up to what it knows of the other's: the sender up to `known_taken + capacity`,
//! the receiver up to `known_published`. It stores what it likes into slots that it owns, and moves its own index on by as many
//! as it owns. The contract is that of [`laws_of_ownership`]. This crate runs nothing.
//!
//! Called by none, and cited by more than 6 crates, from `queue_layouts` to `certifying`.

#![tactic(auto)]

ghost use Rattle.std.specs.Prelude.{ℕ, ◌≡◌, ◌<◌, ◌≤◌, ◌+◌, List, [], ◌∷◌, ◌++◌, length};
ghost use Rattle.memory.specs.declared.writes.Write.{Write};
ghost use Rattle.step_machine.specs.declared.events.Entry.{Entry};
ghost use Rattle.step_machine.specs.History.{OpeningValue};
ghost use Rattle.step_machine.specs.Entries.{hart_of, own_stores, lands, pending, read, read_byte};
ghost use Rattle.step_machine.specs.Access.{load, store, access_of};
ghost use Rattle.store_buffers.specs.StoreBuffers.{LeavesByteAt, AllLeaveByte, IsOnlyWriter};
ghost use Rattle.queue_parties.specs.Parties.{Party, the_sender, the_receiver, other, QueueCounts, IsWindow, count, known};
ghost use Rattle.queue_parties.specs.Positions.{IsPrefix};
ghost use Rattle.slot_queue.specs.Queues.{Queue, IsQueue, IsByteOf, TellsFull, index_word, least_count};
ghost use Rattle.slot_queue.specs.Ownership.{hart, index, counts_after};
ghost use Rattle.slot_queue.specs.Laws.{FollowsOwnership, LeavesSlotsAt, moved_on, records_by, records_learned, records_waiting};

/// Of every run that keeps the protocol of ownership from where the queue was at rest, empty or with records that wait. It does nothing.
///
/// - `window`: neither party knows of more than there is, and neither has moved past what it knows.
/// - `publication`: once the other party knows of more than a party's count was at some point, all that the party's hart had
///   stored there has landed.
/// - `publication_of_store`: and the store that it made next, so also the one that moved the count.
/// - `other_memory`: then every hart reads of a byte, of the queue or not, what the party's hart read there, if no other hart had
///   a pending store over it and nobody has written it since.
/// - `delivery`: where the receiver owns position k, every hart reads each byte of the slot as the sender's hart did where it moved
///   its head past k, unless the receiver's hart has stored there since.
/// - `handing_back`: the same from the receiver to the sender, which then owns the slot's next position.
/// - `waiting`: until the receiver has taken a record that waited where the run began, every hart reads it as any hart did there,
///   unless the receiver's hart has stored there since.
/// - `in_order`: if the receiver's hart stores nothing to slots, the records past which it moves its tail, as its hart reads them
///   there, are a beginning of those that waited and those past which the sender moved its head, as its hart reads them there.
/// - `in_order_as_learned`: the records of which the receiver learns, as its hart reads them then, are a beginning of those that
///   waited without its knowing and those that the sender published. Whatever it stores to its slots later.
/// - `own_index`: a party reads in its own index the word of its count.
/// - `look`: if an index tells all in use from none (`TellsFull`): at a load of the other's index, by no AMO, the other's pending
///   stores make its count of the one that is known then. So where it has none pending there, full means full, and empty means empty.
/// - `least_count`: less than one round ahead, a word tells the count that it stands for.
pub fn laws_of_ownership()
    ensures window { (B : ℕ) (q : Queue) (start : QueueCounts) (o : OpeningValue) (before es : List Entry) → FollowsOwnership B q start o before es
        → IsWindow q.capacity (counts_after q start es) }
    ensures publication { (B : ℕ) (q : Queue) (start : QueueCounts) (o : OpeningValue) (before es fs : List Entry)
        → FollowsOwnership B q start o before (es ++ fs) → (p : Party)
        → count p (counts_after q start es) < known (other p) (counts_after q start (es ++ fs))
        → length (own_stores (hart q p) (before ++ es)) ≤ lands (hart q p) (before ++ (es ++ fs)) }
    ensures publication_of_store { (B : ℕ) (q : Queue) (start : QueueCounts) (o : OpeningValue) (before es : List Entry) (e : Entry) (fs : List Entry)
        → FollowsOwnership B q start o before ((es ++ e ∷ []) ++ fs) → (p : Party) (w : Write) → hart_of e ≡ hart q p → access_of e ≡ store w
        → count p (counts_after q start es) < known (other p) (counts_after q start ((es ++ e ∷ []) ++ fs))
        → length (own_stores (hart q p) (before ++ (es ++ e ∷ []))) ≤ lands (hart q p) (before ++ ((es ++ e ∷ []) ++ fs)) }
    ensures other_memory { (B : ℕ) (q : Queue) (start : QueueCounts) (o : OpeningValue) (before es fs : List Entry)
        → FollowsOwnership B q start o before (es ++ fs) → (p : Party)
        → count p (counts_after q start es) < known (other p) (counts_after q start (es ++ fs))
        → (h x : ℕ) → IsOnlyWriter (hart q p) x (before ++ es) → AllLeaveByte x fs
        → read_byte o (before ++ (es ++ fs)) h x ≡ read_byte o (before ++ es) (hart q p) x }
    ensures delivery { (B : ℕ) (q : Queue) (start : QueueCounts) (o : OpeningValue) (before es : List Entry) (e : Entry) (fs : List Entry)
        → FollowsOwnership B q start o before (es ++ e ∷ fs) → (k x : ℕ) → IsByteOf q k x
        → (counts_after q start es).published ≤ k → k < (counts_after q start (es ++ e ∷ [])).published
        → (counts_after q start (es ++ e ∷ fs)).taken ≤ k → k < (counts_after q start (es ++ e ∷ fs)).known_published → LeavesByteAt q.receiver x fs
        → (h : ℕ) → read_byte o (before ++ (es ++ e ∷ fs)) h x ≡ read_byte o (before ++ es) q.sender x }
    ensures handing_back { (B : ℕ) (q : Queue) (start : QueueCounts) (o : OpeningValue) (before es : List Entry) (e : Entry) (fs : List Entry)
        → FollowsOwnership B q start o before (es ++ e ∷ fs) → (k x : ℕ) → IsByteOf q k x
        → (counts_after q start es).taken ≤ k → k < (counts_after q start (es ++ e ∷ [])).taken
        → (counts_after q start (es ++ e ∷ fs)).published ≤ k + q.size → k + q.size < (counts_after q start (es ++ e ∷ fs)).known_taken + q.capacity
        → LeavesByteAt q.sender x fs
        → (h : ℕ) → read_byte o (before ++ (es ++ e ∷ fs)) h x ≡ read_byte o (before ++ es) q.receiver x }
    ensures waiting { (B : ℕ) (q : Queue) (start : QueueCounts) (o : OpeningValue) (before es : List Entry) → FollowsOwnership B q start o before es
        → (k x : ℕ) → IsByteOf q k x → k < start.published → (counts_after q start es).taken ≤ k → LeavesByteAt q.receiver x es
        → (g h : ℕ) → read_byte o (before ++ es) h x ≡ read_byte o before g x }
    ensures in_order { (B : ℕ) (q : Queue) (start : QueueCounts) (o : OpeningValue) (before es : List Entry) → FollowsOwnership B q start o before es
        → LeavesSlotsAt q q.receiver es → IsPrefix (records_by q the_receiver o start before es)
        (records_waiting q o start before start.taken ++ records_by q the_sender o start before es) }
    ensures in_order_as_learned { (B : ℕ) (q : Queue) (start : QueueCounts) (o : OpeningValue) (before es : List Entry)
        → FollowsOwnership B q start o before es → IsPrefix (records_learned q o start before es)
        (records_waiting q o start before start.known_published ++ records_by q the_sender o start before es) }
    ensures own_index { (B : ℕ) (q : Queue) (start : QueueCounts) (o : OpeningValue) (before es : List Entry) → FollowsOwnership B q start o before es
        → (p : Party) → read o (before ++ es) (hart q p) (index q p) q.index_width ≡ index_word q (count p (counts_after q start es)) }
    ensures look { (B : ℕ) (q : Queue) (start : QueueCounts) (o : OpeningValue) (before es : List Entry) (e : Entry)
        → FollowsOwnership B q start o before (es ++ e ∷ []) → TellsFull q → (p : Party) (v : ℕ) → hart_of e ≡ hart q p
        → access_of e ≡ load (index q (other p)) q.index_width v
        → moved_on q (other p) (known p (counts_after q start (es ++ e ∷ []))) (pending (hart q (other p)) (before ++ es))
        ≡ count (other p) (counts_after q start (es ++ e ∷ [])) }
    ensures least_count { (q : Queue) → IsQueue q → (n j : ℕ) → n ≤ j → j < n + q.modulus → least_count q n (index_word q j) ≡ j }
{}
