//! A queue of one sender and one receiver as two functions that any code calls, with no fence and no atomic instruction:
//! Lamport's ring buffer in memory (`try_send` and `try_receive`), the same with a sender that keeps a copy of the tail
//! (`cached_send`), or FastForward's, in which a slot that holds 0 is free (`fastforward_send` and `fastforward_receive`).
//!
//! The contract, of queues of each kind: [`laws_of_calls`] states what code gets that calls them and keeps what
//! `CallerObligation` asks of it, whatever else its harts and others execute before, between and after.
//! [`laws_of_one_call`] states what one call does, [`laws_of_many_queues`] that calls for one queue stay off the others,
//! [`laws_of_obligations`] that what callers owe can be computed and kept. Below these, [`laws_of_protocol`] states the same
//! of loads and stores alone, of any program that keeps the queue's protocol, and [`laws_of_instances`] that such a run keeps the
//! protocol of `slot_queue` or of `slots_that_tell`. The crate gives the words of the functions and runs none.
//!
//! `proofs/` is read best in this order. Loads and stores: `Cases` (whose entry, which access), `Offsets`, `OwnWords` (words that one hart alone
//! stores), `States` and `Counts` (how many words are available, by the stores that were made and those that pend); `LamportRings` and
//! `LamportRuns`, by which Lamport's runs are `slot_queue`'s, and `FastForwardRings` and `FastForwardRuns`, by which FastForward's are
//! `slots_that_tell`'s; these give `Points`, what is known at a point of either; from it `Contents` (which words lie in the slots), `Runs` and
//! `Landed`, the laws. Functions: `Parts` (what an access makes of the protocol's state), `Outline` (what holds at each line) and `Functions`;
//! `CommonLines`, `LamportLines` and `FastForwardLines`, which lead from line to line; `Calls`, which joins both halves. The laws: `CallLaws`,
//! `OneCall`, `CutCalls`, `ManyQueues`, `Obligations`, `Decided`.
//!
//! Called by `callers`.

#![tactic(auto)]

mod cached;
mod fastforward;

ghost use Rattle.std.specs.Prelude.{ℕ, ◌≡◌, ◌≢◌, ◌<◌, ◌≤◌, ◌+◌, ◌-◌, All, Bool, List, [], ◌∷◌, ◌++◌, length, Some, map, true, false, slice_index};
ghost use Rattle.std.specs.List.{slice_get};
ghost use Rattle.std.specs.Int.{byte_at};
ghost use Rattle.memory.specs.declared.writes.Write.{Write};
ghost use Rattle.memory.specs.Writes.{covers};
ghost use Rattle.rv_decode.specs.Meaning.{meaning};
ghost use Rattle.hart.specs.State.{HartState};
ghost use Rattle.step_machine.specs.declared.events.Entry.{Entry};
ghost use Rattle.step_machine.specs.History.{OpeningValue, history_of};
ghost use Rattle.step_machine.specs.Entries.{hart_of, own, own_stores, lands, pending, read_byte};
ghost use Rattle.step_machine.specs.Access.{access_of, load};
ghost use Rattle.step_machine.specs.Paths.{state_of};
ghost use Rattle.step_machine.specs.Legal.{Legal, WellFormed};
ghost use Rattle.spsc_queue.specs.RingBuffers.{Kind, lamport, fastforward, RingBuffer, capacity, writes_to, unpublished, unreleased};
ghost use Rattle.spsc_queue.specs.RingBuffers.{waiting_words, IsQuiescent};
ghost use Rattle.spsc_queue.specs.Protocol.{parties_after, asked, placed, room_at, says_full, watched_address, says_empty};
ghost use Rattle.store_buffers.specs.StoreBuffers.{AllLeaveByte, IsOnlyWriter};
ghost use Rattle.slot_queue.specs.Laws.{FollowsOwnership};
ghost use Rattle.slots_that_tell.specs.Laws.{FollowsTelling};
ghost use Rattle.spsc_queue.specs.Instances.{queue_of, ring_slots_of, counts_at_start};
ghost use Rattle.spsc_queue.specs.Laws.{IsPrefix, FollowsSpscProtocol, available_words, available_count, known_count, ready_count};
ghost use Rattle.rv_decode.specs.Listings.{words_of, lines_of};
ghost use Rattle.spsc_queue.specs.Listings.{try_send, try_receive};
ghost use Rattle.spsc_queue.specs.Calls.{SpscQueue, Party, the_sender, the_receiver, listing_of, block_after, ring_at};
ghost use Rattle.spsc_queue.specs.Calls.{buffer, is_sender_in_call, is_receiver_in_call, sent_words, received_words, given_words};
ghost use Rattle.spsc_queue.specs.Calls.{CallerObligation, UsesAsSpscQueue, party_hart};
ghost use Rattle.spsc_queue.specs.CallEffects.{IsCallUnderWay, longest, ContinuesCall, IsSend, IsReceive, accesses, completed_word, SendEffect, ReceiveEffect};
ghost use Rattle.spsc_queue.specs.CallEffects.{IsWholeCall, SendSoFar, ReceiveSoFar, FoundFull, FoundEmpty};
ghost use Rattle.spsc_queue.specs.Obligations.{obligations_kept};
ghost use Rattle.spsc_queue.specs.ManyQueues.{UsesManyQueues};
ghost use Rattle.spsc_queue.specs.Example as example;
ghost use Rattle.spsc_queue.specs.Example.{Scenario};
ghost use Rattle.spsc_queue.specs.TwoQueues.{both_queues, opening_of_two, entries_of_two};

pub use cached::cached_send_words;
pub use fastforward::{fastforward_receive_words, fastforward_send_words};

/// The words of `try_send`: a0 is the block, a1 the word, a2 the bytes of the slots.
const TRY_SEND: [u32; 13] = [
    0x00052283, 0x04052303, 0x00428393, 0x00C39463, 0x00000393, 0x00730C63, 0x005502B3, 0x08B2A023,
    0x00752023, 0x00100513, 0x00008067, 0x00000513, 0x00008067,
];

/// The words of `try_receive`: a0 is the block, a2 the bytes of the slots; the word comes back in a1.
const TRY_RECEIVE: [u32; 13] = [
    0x04052283, 0x00052303, 0x02628263, 0x005503B3, 0x0803A583, 0x00428293, 0x00C29463, 0x00000293,
    0x04552023, 0x00100513, 0x00008067, 0x00000513, 0x00008067,
];

/// The words of Lamport's function that sends.
pub fn try_send_words() -> &'static [u32]
    ensures { result.now ≡ words_of try_send }
{
    &TRY_SEND
}

/// The words of Lamport's function that receives.
pub fn try_receive_words() -> &'static [u32]
    ensures { result.now ≡ words_of try_receive }
{
    &TRY_RECEIVE
}

/// The words of the five listings mean their lines' instructions. It does nothing.
#[tactic(auto, using(crate::proofs::Registers::decoded))]
pub fn tables_mean()
    ensures all { (k : Kind) (caches : Bool) (p : Party)
        → map meaning (words_of (listing_of k caches p)) ≡ map Some (lines_of (listing_of k caches p)) }
{}

/// Of every run whose entries keep the queue's protocol, Lamport's (whose sender may keep a copy of the tail) or FastForward's, from
/// where the queue was at rest, empty or with words that wait, which count as sent. Lamport's words are available once their heads are
/// stored, FastForward's as soon as they are stored. It does nothing.
///
/// - `fifo`: the words received are a prefix of those that are available.
/// - `publication`: once the receiver knows of more words than were available at some point, all that the sender's hart had
///   stored there has landed.
/// - `reclamation`: once more words are ready than were taken at some point and the queue holds besides, all that the
///   receiver's hart had stored there has landed.
/// - `linearization_of_empty`: where a receiver that has read its tail looks for a word and sees none (the head is the same,
///   or the slot holds 0), all words that are available are taken, except just those that the sender's pending stores hold back: of
///   Lamport's the pending heads count, of FastForward's the pending words.
/// - `linearization_of_full`: where a sender that has read its head looks for room and sees none (the tail is the next
///   offset, or the slot holds a word), as many words are stored and not taken as the queue holds, less the slots that the
///   receiver's pending stores hold back: of Lamport's the pending tails count, of FastForward's the pending zeros.
/// - `availability_of_words`: where a receiver looks for a word, it sees one if at an earlier point more words were available than it has
///   taken, without those that pending stores held back there. So what has landed is found.
/// - `availability_of_room`: and a sender sees room if there was some at an earlier point, without the slots held back there.
/// - `room`: in Lamport's never more is stored and not taken than the queue holds, less one for each pending store of the receiver's.
pub fn laws_of_protocol()
    ensures fifo { (B : ℕ) (r : RingBuffer) (o : OpeningValue) (before es : List Entry) → FollowsSpscProtocol B r o before es
        → IsPrefix (parties_after r o before es).received (available_words r (parties_after r o before es)) }
    ensures publication { (B : ℕ) (r : RingBuffer) (o : OpeningValue) (before es fs : List Entry) → FollowsSpscProtocol B r o before (es ++ fs)
        → available_count r (parties_after r o before es) < known_count (parties_after r o before (es ++ fs))
        → length (own_stores r.sender (before ++ es)) < lands r.sender (before ++ (es ++ fs)) }
    ensures reclamation { (B : ℕ) (r : RingBuffer) (o : OpeningValue) (before es fs : List Entry) → FollowsSpscProtocol B r o before (es ++ fs)
        → (parties_after r o before es).taken + capacity r < ready_count (parties_after r o before (es ++ fs))
        → length (own_stores r.receiver (before ++ es)) < lands r.receiver (before ++ (es ++ fs)) }
    ensures linearization_of_empty { (B : ℕ) (r : RingBuffer) (o : OpeningValue) (before es : List Entry) (e : Entry) (fs : List Entry)
        → FollowsSpscProtocol B r o before (es ++ e ∷ fs) → (u v : ℕ) → hart_of e ≡ r.receiver → access_of e ≡ load (watched_address r.kind r u) 4 v
        → says_empty r.kind u v ≡ true → (parties_after r o before es).receiving ≡ asked u
        → available_count r (parties_after r o before es)
        ≡ (parties_after r o before es).taken + unpublished r (pending r.sender (before ++ es)) }
    ensures linearization_of_full { (B : ℕ) (r : RingBuffer) (o : OpeningValue) (before es : List Entry) (e : Entry) (fs : List Entry)
        → FollowsSpscProtocol B r o before (es ++ e ∷ fs) → (u v : ℕ) → hart_of e ≡ r.sender → access_of e ≡ load (room_at r.kind r u) 4 v
        → says_full r.kind r u v ≡ true → (parties_after r o before es).sending ≡ placed u
        → (parties_after r o before es).taken + capacity r
        ≡ (parties_after r o before es).stored + unreleased r (pending r.receiver (before ++ es)) }
    ensures availability_of_words { (B : ℕ) (r : RingBuffer) (o : OpeningValue) (before es fs : List Entry) (e : Entry) (gs : List Entry)
        → FollowsSpscProtocol B r o before (es ++ (fs ++ e ∷ gs)) → (u v : ℕ) → hart_of e ≡ r.receiver
        → access_of e ≡ load (watched_address r.kind r u) 4 v → (parties_after r o before (es ++ fs)).receiving ≡ asked u
        → (parties_after r o before (es ++ fs)).taken + unpublished r (pending r.sender (before ++ es)) < available_count r (parties_after r o before es)
        → says_empty r.kind u v ≡ false }
    ensures availability_of_room { (B : ℕ) (r : RingBuffer) (o : OpeningValue) (before es fs : List Entry) (e : Entry) (gs : List Entry)
        → FollowsSpscProtocol B r o before (es ++ (fs ++ e ∷ gs)) → (u v : ℕ) → hart_of e ≡ r.sender
        → access_of e ≡ load (room_at r.kind r u) 4 v → (parties_after r o before (es ++ fs)).sending ≡ placed u
        → (parties_after r o before (es ++ fs)).stored + unreleased r (pending r.receiver (before ++ es)) < (parties_after r o before es).taken + capacity r
        → says_full r.kind r u v ≡ false }
    ensures room { (B : ℕ) (r : RingBuffer) (o : OpeningValue) (before es : List Entry) → FollowsSpscProtocol B r o before es → r.kind ≡ lamport
        → (parties_after r o before es).stored + length (writes_to r (pending r.receiver (before ++ es)))
        ≤ (parties_after r o before es).taken + capacity r }
{}

/// Of each run that keeps the protocol of a queue, from where that was at rest, empty or with words that wait: so the laws of `slot_queue`
/// and `slots_that_tell` hold of it too. It does nothing.
///
/// - `lamport_ring`: Lamport's, with a copy of the tail or without, keeps the protocol of ownership.
/// - `fastforward_ring`: FastForward's keeps the protocol of slots that tell.
pub fn laws_of_instances()
    ensures lamport_ring { (B : ℕ) (r : RingBuffer) (o : OpeningValue) (before es : List Entry) → r.kind ≡ lamport
        → FollowsSpscProtocol B r o before es → FollowsOwnership B (queue_of r) (counts_at_start r) o before es }
    ensures fastforward_ring { (B : ℕ) (r : RingBuffer) (o : OpeningValue) (before es : List Entry) → r.kind ≡ fastforward
        → FollowsSpscProtocol B r o before es → FollowsTelling B (ring_slots_of r) (counts_at_start r) o before es }
{}

/// Of every run in which one hart's code calls the function that sends and another's the one that receives, of one kind, with a copy of the
/// tail or without one, for a block, and each entry keeps what is owed. It does nothing.
///
/// - `follows`: the run keeps the protocol.
/// - `fifo`: where the sender is in no call, the words that receives returned are a prefix of those that were given: the words that
///   waited where the run began, and then those that sends sent.
/// - `fifo_within`: at any point, that holds with the word in the sender's a1 after those that were given.
/// - `capacity`: where the receiver is in no call, at most as many words as the queue holds were given and not returned:
///   Lamport's holds a word less than it has slots, FastForward's as many.
/// - `capacity_within`: at any point, at most one more was.
/// - `publication`: once more words are returned than had been given at a point where the sender was in no call, all that
///   its hart had stored at that point has landed.
/// - `message_passing`: then every hart reads of a byte what the sender's hart read there, if no other hart had a pending
///   store over that byte, and nobody has written it since.
/// - `reclamation` and `handing_back`: the same from the receiver to the sender, once more words are given than had been
///   returned and the queue holds besides.
/// - `changes_hands`: where neither party is in a call and no store to the block is pending, the block is at rest as it must be
///   where a run begins, also with words in it, for any two harts.
/// - `waiting`: and the words that wait in it are those that were given and not returned.
/// - `extends` and `fronts`: an entry more that owes nothing keeps the premises, and they hold up to each point.
pub fn laws_of_calls()
    ensures follows { (B M : ℕ) (o : OpeningValue) (q : SpscQueue) (before es : List Entry) → UsesAsSpscQueue B M o q before es
        → FollowsSpscProtocol B (buffer q) o before es }
    ensures fifo { (B M : ℕ) (o : OpeningValue) (q : SpscQueue) (before es : List Entry) → UsesAsSpscQueue B M o q before es
        → is_sender_in_call M o q before es ≡ false → IsPrefix (received_words M o q before es) (given_words M o q before es) }
    ensures fifo_within { (B M : ℕ) (o : OpeningValue) (q : SpscQueue) (before es : List Entry) → UsesAsSpscQueue B M o q before es
        → (s : HartState) → state_of M (history_of o (before ++ es)) q.sender ≡ Some s
        → IsPrefix (received_words M o q before es) (given_words M o q before es ++ slice_index s.registers 11 ∷ []) }
    ensures capacity { (B M : ℕ) (o : OpeningValue) (q : SpscQueue) (before es : List Entry) → UsesAsSpscQueue B M o q before es
        → is_receiver_in_call M o q before es ≡ false
        → length (given_words M o q before es) ≤ length (received_words M o q before es) + capacity (buffer q) }
    ensures capacity_within { (B M : ℕ) (o : OpeningValue) (q : SpscQueue) (before es : List Entry) → UsesAsSpscQueue B M o q before es
        → length (given_words M o q before es) ≤ length (received_words M o q before es) + capacity (buffer q) + 1 }
    ensures publication { (B M : ℕ) (o : OpeningValue) (q : SpscQueue) (before es fs : List Entry) → UsesAsSpscQueue B M o q before (es ++ fs)
        → is_sender_in_call M o q before es ≡ false
        → length (given_words M o q before es) < length (received_words M o q before (es ++ fs))
        → length (own_stores q.sender (before ++ es)) < lands q.sender (before ++ (es ++ fs)) }
    ensures message_passing { (B M : ℕ) (o : OpeningValue) (q : SpscQueue) (before es fs : List Entry) → UsesAsSpscQueue B M o q before (es ++ fs)
        → is_sender_in_call M o q before es ≡ false
        → length (given_words M o q before es) < length (received_words M o q before (es ++ fs))
        → (h x : ℕ) → IsOnlyWriter q.sender x (before ++ es) → AllLeaveByte x fs
        → read_byte o (before ++ (es ++ fs)) h x ≡ read_byte o (before ++ es) q.sender x }
    ensures reclamation { (B M : ℕ) (o : OpeningValue) (q : SpscQueue) (before es fs : List Entry) → UsesAsSpscQueue B M o q before (es ++ fs)
        → is_receiver_in_call M o q before es ≡ false
        → length (received_words M o q before es) + capacity (buffer q) < length (given_words M o q before (es ++ fs))
        → length (own_stores q.receiver (before ++ es)) < lands q.receiver (before ++ (es ++ fs)) }
    ensures handing_back { (B M : ℕ) (o : OpeningValue) (q : SpscQueue) (before es fs : List Entry) → UsesAsSpscQueue B M o q before (es ++ fs)
        → is_receiver_in_call M o q before es ≡ false
        → length (received_words M o q before es) + capacity (buffer q) < length (given_words M o q before (es ++ fs))
        → (h x : ℕ) → IsOnlyWriter q.receiver x (before ++ es) → AllLeaveByte x fs
        → read_byte o (before ++ (es ++ fs)) h x ≡ read_byte o (before ++ es) q.receiver x }
    ensures extends { (B M : ℕ) (o : OpeningValue) (q : SpscQueue) (before es : List Entry) (e : Entry) → UsesAsSpscQueue B M o q before es
        → WellFormed B M (history_of o (before ++ (es ++ e ∷ []))) → CallerObligation M o q before es e
        → UsesAsSpscQueue B M o q before (es ++ e ∷ []) }
    ensures changes_hands { (B M : ℕ) (o : OpeningValue) (q : SpscQueue) (before es : List Entry) → UsesAsSpscQueue B M o q before es
        → is_sender_in_call M o q before es ≡ false → is_receiver_in_call M o q before es ≡ false
        → ((h : ℕ) → writes_to (buffer q) (pending h (before ++ es)) ≡ [])
        → (a b : ℕ) → IsQuiescent (ring_at (block_after M o q before es) a b) o (before ++ es) }
    ensures waiting { (B M : ℕ) (o : OpeningValue) (q : SpscQueue) (before es : List Entry) → UsesAsSpscQueue B M o q before es
        → is_sender_in_call M o q before es ≡ false → is_receiver_in_call M o q before es ≡ false
        → ((h : ℕ) → writes_to (buffer q) (pending h (before ++ es)) ≡ [])
        → (a b : ℕ) → received_words M o q before es ++ waiting_words (ring_at (block_after M o q before es) a b) o (before ++ es)
        ≡ given_words M o q before es }
    ensures fronts { (B M : ℕ) (o : OpeningValue) (q : SpscQueue) (before es fs : List Entry) → UsesAsSpscQueue B M o q before (es ++ fs)
        → UsesAsSpscQueue B M o q before es }
{}

/// Of a run in which harts use several queues, of any kinds, whose blocks don't meet: if an entry that a hart makes in no call at all
/// writes to none of the blocks, and calls pass their arguments, each queue is used as [`laws_of_calls`] asks. So it is
/// known that a call for one queue stays off the others. It does nothing.
#[tactic(auto, using(crate::proofs::ManyQueues::each_is_used))]
pub fn laws_of_many_queues()
    ensures each { (B M : ℕ) (o : OpeningValue) (count : ℕ) (queues : ℕ → SpscQueue) (before es : List Entry)
        → UsesManyQueues B M o count queues before es → (i : ℕ) → i < count → UsesAsSpscQueue B M o (queues i) before es }
{}

/// Of one whole call in a run of which [`laws_of_calls`] speaks, from its entry to its return, whatever others execute
/// meanwhile. It does nothing.
///
/// - `send`: a call that sends loads the head, and then the tail (Lamport's) or the slot (FastForward's); with a copy of the tail it
///   loads the tail only if its copy says that the queue is full, and stores what it read as its copy if there is room. If the last of
///   these says that the queue is full it returns a0 = 0; else it stores the word of its a1 into the slot, then the head, and returns
///   a0 = 1. It goes back to ra, keeps all registers except x5, x6, x7 and a0, and makes at most 11 entries, or 15 with a copy.
/// - `receive`: a call that receives loads the tail, and then the head or the slot. If that says that the queue is empty it
///   returns a0 = 0; else a1 is the word of the slot, into which FastForward's stores 0, it stores the tail and returns
///   a0 = 1. The rest is as above, and a1 may change.
/// - `send_goes_on` and `receive_goes_on`: in a call, which may be cut at any point, a hart runs, wants nothing of memory, a load or
///   a store, and has made fewer entries than a call makes at most (`longest`). So no call stops a hart, and with its 11th entry, or
///   its 15th with a copy, a call is over.
/// - `send_so_far` and `receive_so_far`: such a call's accesses are the first of those of a whole call, none touches a byte outside
///   the block, and the registers that a whole call keeps are as they were at its entry.
/// - `sends` and `receives`: a call that returns 1 completes the word in a1, and one that returns 0 completes none.
/// - `linearization_of_full` and `linearization_of_empty`: a call that returned 0 found the queue so at its last load, except for
///   what pending stores of the partner's held back there.
/// - `availability_of_words` and `availability_of_room`: a call returns 1 if, where it began, a word was there to be received, or
///   room to send one, except for what pending stores of the partner's held back there. So a word that has landed is received.
pub fn laws_of_one_call()
    ensures send { (B M : ℕ) (o : OpeningValue) (q : SpscQueue) (before done call : List Entry) (s z : HartState)
        → UsesAsSpscQueue B M o q before (done ++ call) → IsSend M o q before done call s z
        → SendEffect q.block.kind (buffer q) s z (length (own q.sender call)) (accesses q.sender call) }
    ensures receive { (B M : ℕ) (o : OpeningValue) (q : SpscQueue) (before done call : List Entry) (s z : HartState)
        → UsesAsSpscQueue B M o q before (done ++ call) → IsReceive M o q before done call s z
        → ReceiveEffect q.block.kind (buffer q) s z (length (own q.receiver call)) (accesses q.receiver call) }
    ensures send_goes_on { (B M : ℕ) (o : OpeningValue) (q : SpscQueue) (before done part : List Entry) (s z : HartState)
        → UsesAsSpscQueue B M o q before (done ++ part) → IsCallUnderWay M o q.sender q.send_line q.block before done part s
        → state_of M (history_of o (before ++ (done ++ part))) q.sender ≡ Some z
        → ContinuesCall (longest the_sender (buffer q)) z (length (own q.sender part)) }
    ensures receive_goes_on { (B M : ℕ) (o : OpeningValue) (q : SpscQueue) (before done part : List Entry) (s z : HartState)
        → UsesAsSpscQueue B M o q before (done ++ part) → IsCallUnderWay M o q.receiver q.receive_line q.block before done part s
        → state_of M (history_of o (before ++ (done ++ part))) q.receiver ≡ Some z
        → ContinuesCall (longest the_receiver (buffer q)) z (length (own q.receiver part)) }
    ensures send_so_far { (B M : ℕ) (o : OpeningValue) (q : SpscQueue) (before done part : List Entry) (s z : HartState)
        → UsesAsSpscQueue B M o q before (done ++ part) → IsCallUnderWay M o q.sender q.send_line q.block before done part s
        → state_of M (history_of o (before ++ (done ++ part))) q.sender ≡ Some z
        → SendSoFar q.block.kind (buffer q) s z (accesses q.sender part) }
    ensures receive_so_far { (B M : ℕ) (o : OpeningValue) (q : SpscQueue) (before done part : List Entry) (s z : HartState)
        → UsesAsSpscQueue B M o q before (done ++ part) → IsCallUnderWay M o q.receiver q.receive_line q.block before done part s
        → state_of M (history_of o (before ++ (done ++ part))) q.receiver ≡ Some z
        → ReceiveSoFar q.block.kind (buffer q) s z (accesses q.receiver part) }
    ensures sends { (B M : ℕ) (o : OpeningValue) (q : SpscQueue) (before done call : List Entry) (s z : HartState)
        → UsesAsSpscQueue B M o q before (done ++ call) → IsSend M o q before done call s z
        → given_words M o q before (done ++ call) ≡ given_words M o q before done ++ completed_word z }
    ensures receives { (B M : ℕ) (o : OpeningValue) (q : SpscQueue) (before done call : List Entry) (s z : HartState)
        → UsesAsSpscQueue B M o q before (done ++ call) → IsReceive M o q before done call s z
        → received_words M o q before (done ++ call) ≡ received_words M o q before done ++ completed_word z }
    ensures linearization_of_full { (B M : ℕ) (o : OpeningValue) (q : SpscQueue) (before done call : List Entry) (s z : HartState)
        → UsesAsSpscQueue B M o q before (done ++ call) → IsSend M o q before done call s z
        → slice_index z.registers 10 ≡ 0 → FoundFull M o q before done call }
    ensures linearization_of_empty { (B M : ℕ) (o : OpeningValue) (q : SpscQueue) (before done call : List Entry) (s z : HartState)
        → UsesAsSpscQueue B M o q before (done ++ call) → IsReceive M o q before done call s z
        → slice_index z.registers 10 ≡ 0 → FoundEmpty M o q before done call }
    ensures availability_of_words { (B M : ℕ) (o : OpeningValue) (q : SpscQueue) (before done call : List Entry) (s z : HartState)
        → UsesAsSpscQueue B M o q before (done ++ call) → IsReceive M o q before done call s z
        → length (received_words M o q before done) + unpublished (buffer q) (pending q.sender (before ++ done)) < length (given_words M o q before done)
        → slice_index z.registers 10 ≡ 1 }
    ensures availability_of_room { (B M : ℕ) (o : OpeningValue) (q : SpscQueue) (before done call : List Entry) (s z : HartState)
        → UsesAsSpscQueue B M o q before (done ++ call) → IsSend M o q before done call s z
        → length (given_words M o q before done) + unreleased (buffer q) (pending q.receiver (before ++ done))
        < length (received_words M o q before done) + capacity (buffer q)
        → slice_index z.registers 10 ≡ 1 }
{}

/// What callers owe can be computed, and can be kept. It does nothing.
///
/// - `decided`: where the computation over a run's entries says so, each entry keeps what is owed.
/// - `complete`: and it says so of each run in which that is kept.
/// - `computed`, `met`, `calls`, `answers`, `accessed`, `sent` and `received`: it says so of the runs of `specs/Example.antt`, which so
///   keep all. Each ends with a whole call: one by which a word passes and an index wraps, with a copy of the tail that says that the
///   queue is full or that there is room; one that finds the queue full, or empty; one after the queue has changed hands.
/// - `uses_both` and `passes`: so do harts that use two queues, of Lamport's kind and FastForward's, by which a word goes there and back.
pub fn laws_of_obligations()
    ensures decided { (M : ℕ) (o : OpeningValue) (q : SpscQueue) (before es : List Entry) → obligations_kept M o q before es ≡ true
        → (done : List Entry) (e : Entry) (more : List Entry) → es ≡ done ++ e ∷ more → CallerObligation M o q before done e }
    ensures complete { (B M : ℕ) (o : OpeningValue) (q : SpscQueue) (before es : List Entry) → UsesAsSpscQueue B M o q before es
        → obligations_kept M o q before es ≡ true }
    ensures computed { (x : Scenario)
        → obligations_kept 64 (example.opening x) (example.queue x) (example.before_entries x) (example.entries x) ≡ true }
    ensures met { (x : Scenario) → UsesAsSpscQueue 4 64 (example.opening x) (example.queue x) (example.before_entries x) (example.entries x) }
    ensures calls { (x : Scenario) → IsWholeCall 64 (example.opening x) (party_hart (example.queue x) (example.party x)) 1 (example.queue x).block
        (example.before_entries x) (example.lead_entries x) (example.call_entries x)
        (example.state_after x (example.before_entries x ++ example.lead_entries x)) (example.state_after x (example.before_entries x ++ example.entries x)) }
    ensures answers { (x : Scenario) → slice_index (example.state_after x (example.before_entries x ++ example.entries x)).registers 10 ≡ example.answer x }
    ensures accessed { (x : Scenario)
        → length (accesses (party_hart (example.queue x) (example.party x)) (example.call_entries x)) ≡ example.access_count x }
    ensures sent { (x : Scenario) → sent_words 64 (example.opening x) (example.queue x) (example.before_entries x) (example.entries x) ≡ example.sent x }
    ensures received { (x : Scenario)
        → received_words 64 (example.opening x) (example.queue x) (example.before_entries x) (example.entries x) ≡ example.received x }
    ensures uses_both { UsesManyQueues 4 128 opening_of_two 2 both_queues [] entries_of_two }
    ensures passes { (i : ℕ) → i < 2 → (sent_words 128 opening_of_two (both_queues i) [] entries_of_two ≡ 99 ∷ [])
        × (received_words 128 opening_of_two (both_queues i) [] entries_of_two ≡ 99 ∷ []) }
{}
