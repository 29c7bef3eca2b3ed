//! Tokens that harts hand over: a lock's, a buffer's, a role's. A token guards some bytes, and lies in a place, or a hart holds it. A place
//! is some bytes of a word, whose number says which tokens lie there: an AMO takes those that it finds; a store, or the AMO's own word, lays
//! down those of its number.
//!
//! The contract is that of [`laws_of_tokens`]: what holds of every legal run in which each hart lays down only tokens that it holds, and
//! writes over guarded bytes only where it holds the tokens that guard them, for any number of harts and store buffers of any size. It
//! says nothing of a hart that waits for a token. This crate runs nothing, and nothing calls it yet: no command speaks of tokens.
//!
//! Called by none: its laws are what it is for.

#![tactic(auto)]

ghost use Rattle.std.specs.Prelude.{ℕ, ◌≡◌, ◌≢◌, ◌<◌, ◌≤◌, ◌+◌, List, [], ◌∷◌, ◌++◌, length, Some, None, true, All, Bool};
ghost use Rattle.memory.specs.Writes.{write, joined};
ghost use Rattle.hart.specs.State.{HartState};
ghost use Rattle.step_machine.specs.declared.events.Entry.{Entry};
ghost use Rattle.step_machine.specs.History.{OpeningValue, history_of};
ghost use Rattle.step_machine.specs.Legal.{Legal, WellFormed};
ghost use Rattle.step_machine.specs.Paths.{state_of};
ghost use Rattle.step_machine.specs.Access.{load, exchange, access_of};
ghost use Rattle.step_machine.specs.Entries.{hart_of, memory_byte, read_byte, opening_byte};
ghost use Rattle.queue_parties.specs.Parties.{QueueCounts, all_at, the_sender, the_receiver};
ghost use Rattle.queue_parties.specs.Positions.{IsPrefix};
ghost use Rattle.slot_queue.specs.Queues.{Queue, IsQueue, IsAtRest};
ghost use Rattle.slot_queue.specs.Laws.{FollowsOwnership, LeavesSlotsAt, records_by, records_waiting};
ghost use Rattle.certified_runs.specs.Views.{View, view_of};
ghost use Rattle.certified_runs.specs.Certified.{IsCertified};
ghost use Rattle.tokens.specs.Tokens.{TokenLayout, lays, Holders, holders, LoadsHeld, OpensTokens, FollowsTokens, last_stored, HandsOn};
ghost use Rattle.tokens.specs.Roles.{as_one_hart, FollowsRole, as_two_harts, FollowsRoles};
ghost use Rattle.tokens.specs.Protocols.{holding, HandsRightly, RoleCounts, playing, HandsOnRightly};

/// It does nothing.
///
/// - `exclusive`: nobody holds what an AMO takes.
/// - `stays`: so a hart holds a token until it lays it down itself.
/// - `as_stored`: a hart that holds a token reads in each byte that it guards what was stored there last, by whatever hart, as if
///   there were no store buffers.
/// - `loads`: so does each of its loads of such bytes.
/// - `handed_on`: what is said of a token's bytes is so wherever an AMO takes it, if it is so at the opening and wherever it is laid down.
/// - `in_turn`: what the holders of a token do in turn one hart may do that is no hart of the run: with its entries for theirs the run is
///   legal, memory is the same, and it reads what the token's holder reads.
///
/// Of a queue whose sender's role passes with a token:
///
/// - `follows`: with one hart for all that hold the token, the run keeps the protocol of ownership, so that all that
///   `slot_queue::laws_of_ownership` promises holds of it.
/// - `in_order`: so the records past which the receiver moves its tail are a beginning of those that waited and those past which the
///   holders of the role, in turn, moved the head.
/// - `both_follow`: the same where both roles pass with tokens, of which no hart holds both at once.
///
/// Of sets of states, one for each hart, that functions to `Bool` decide, that are closed under single instructions, and in which each
/// instruction may be made. A set may speak of its hart's own bytes, of the tokens that it holds and of the bytes that these guard:
///
/// - `every_run`: every run of the text keeps its tokens, so that all of the above holds of it,
/// - `in_states`: and has each hart in its set.
/// - `tokens`: the same of every run, where sets also speak of the counts of a queue whose sender's role passes with token s, and the
///   receiver doesn't open with it;
/// - `ownership`: and with the queue's sender, which is no hart, for all that hold token s, it keeps the protocol of ownership.
pub fn laws_of_tokens()
    ensures exclusive { (B : ℕ) (q : TokenLayout) (start : Holders) (o : OpeningValue) (es : List Entry) (e : Entry)
        → FollowsTokens B q start o (es ++ e ∷ []) → (a old new t : ℕ) → access_of e ≡ exchange a old new → lays q (write a 4 old) t ≡ true
        → holders q start es t ≡ None }
    ensures stays { (B : ℕ) (q : TokenLayout) (start : Holders) (o : OpeningValue) (es : List Entry) (e : Entry)
        → FollowsTokens B q start o (es ++ e ∷ []) → (h t : ℕ) → holders q start es t ≡ Some h → hart_of e ≢ h
        → holders q start (es ++ e ∷ []) t ≡ Some h }
    ensures as_stored { (B : ℕ) (q : TokenLayout) (start : Holders) (o : OpeningValue) (es : List Entry) → FollowsTokens B q start o es
        → (h t x : ℕ) → holders q start es t ≡ Some h → q.guards t x ≡ true → read_byte o es h x ≡ last_stored o es x }
    ensures loads { (B : ℕ) (q : TokenLayout) (start : Holders) (o : OpeningValue) (es : List Entry) (e : Entry)
        → FollowsTokens B q start o (es ++ e ∷ []) → (a width v : ℕ) → access_of e ≡ load a width v
        → LoadsHeld q (hart_of e) (holders q start es) (access_of e)
        → ((i : ℕ) → i < width → (t : ℕ) × (q.guards t (a + i) ≡ true))
        → v ≡ joined (λ i. last_stored o es (a + i)) width }
    ensures handed_on { (B : ℕ) (q : TokenLayout) (start : Holders) (o : OpeningValue) (es : List Entry) (e : Entry)
        → FollowsTokens B q start o (es ++ e ∷ []) → (says : ℕ → View → Bool)
        → ((t : ℕ) (m n : View) → ((x : ℕ) → q.guards t x ≡ true → n x ≡ m x) → says t m ≡ true → says t n ≡ true)
        → ((t : ℕ) → start t ≡ None → says t (opening_byte o) ≡ true) → HandsOn q says o [] es
        → (a old new t : ℕ) → access_of e ≡ exchange a old new → lays q (write a 4 old) t ≡ true → says t (view_of o es (hart_of e)) ≡ true }
    ensures in_turn { (B : ℕ) (q : TokenLayout) (start : Holders) (o : OpeningValue) (es : List Entry) → FollowsTokens B q start o es
        → (s V : ℕ) → All (λ e. hart_of e ≢ V) es
        → Legal B (history_of o (as_one_hart q s V start es)) × ((x : ℕ) → memory_byte o (as_one_hart q s V start es) x ≡ memory_byte o es x)
        × ((h x : ℕ) → holders q start es s ≡ Some h → read_byte o (as_one_hart q s V start es) V x ≡ read_byte o es h x) }
    ensures every_run { (B M : ℕ) (o : OpeningValue) (q : TokenLayout) (says : ℕ → View → Bool) (start : Holders) → OpensTokens q o start
        → ((t : ℕ) (m n : View) → ((x : ℕ) → q.guards t x ≡ true → n x ≡ m x) → says t m ≡ true → says t n ≡ true)
        → ((t : ℕ) → start t ≡ None → says t (opening_byte o) ≡ true) → (own : ℕ → ℕ → Bool) (states : ℕ → HartState → View → Holders → Bool)
        → HandsRightly M o q says (λ h s m c. states h s m c ≡ true)
        → IsCertified M o (holding q says) start (λ h x. own h x ≡ true) (λ h s m c. states h s m c ≡ true) → (es : List Entry)
        → WellFormed B M (history_of o es) → FollowsTokens B q start o es }
    ensures in_states { (B M : ℕ) (o : OpeningValue) (q : TokenLayout) (says : ℕ → View → Bool) (start : Holders) → OpensTokens q o start
        → ((t : ℕ) (m n : View) → ((x : ℕ) → q.guards t x ≡ true → n x ≡ m x) → says t m ≡ true → says t n ≡ true)
        → ((t : ℕ) → start t ≡ None → says t (opening_byte o) ≡ true) → (own : ℕ → ℕ → Bool) (states : ℕ → HartState → View → Holders → Bool)
        → HandsRightly M o q says (λ h s m c. states h s m c ≡ true)
        → IsCertified M o (holding q says) start (λ h x. own h x ≡ true) (λ h s m c. states h s m c ≡ true) → (es : List Entry)
        → WellFormed B M (history_of o es) → (h : ℕ) (s : HartState) → state_of M (history_of o es) h ≡ Some s
        → states h s (view_of o es h) (holders q start es) ≡ true }
    ensures follows { (B : ℕ) (q : TokenLayout) (s : ℕ) (start : Holders) (k : Queue) (n : QueueCounts) (o : OpeningValue) (es : List Entry)
        → FollowsRole B q s start k n o es → FollowsOwnership B k n o [] (as_one_hart q s k.sender start es) }
    ensures in_order { (B : ℕ) (q : TokenLayout) (s : ℕ) (start : Holders) (k : Queue) (n : QueueCounts) (o : OpeningValue) (es : List Entry)
        → FollowsRole B q s start k n o es → LeavesSlotsAt k k.receiver (as_one_hart q s k.sender start es)
        → IsPrefix (records_by k the_receiver o n [] (as_one_hart q s k.sender start es))
        (records_waiting k o n [] n.taken ++ records_by k the_sender o n [] (as_one_hart q s k.sender start es)) }
    ensures both_follow { (B : ℕ) (q : TokenLayout) (s r : ℕ) (start : Holders) (k : Queue) (n : QueueCounts) (o : OpeningValue) (es : List Entry)
        → FollowsRoles B q s r start k n o es → FollowsOwnership B k n o [] (as_two_harts q s r k start es) }
    ensures tokens { (B M : ℕ) (o : OpeningValue) (q : TokenLayout) (says : ℕ → View → Bool) (start : Holders) → OpensTokens q o start
        → ((t : ℕ) (m n : View) → ((x : ℕ) → q.guards t x ≡ true → n x ≡ m x) → says t m ≡ true → says t n ≡ true)
        → ((t : ℕ) → start t ≡ None → says t (opening_byte o) ≡ true) → (s : ℕ) (k : Queue) (n : ℕ) → IsQueue k → IsAtRest k o [] (all_at n)
        → length o.harts ≤ k.sender → (start s ≡ Some k.receiver → ⊥) → (own : ℕ → ℕ → Bool) (states : ℕ → HartState → View → RoleCounts → Bool)
        → HandsOnRightly M o q says s k (λ h z m a. states h z m a ≡ true)
        → IsCertified M o (playing q says s k) (start, all_at n) (λ h x. own h x ≡ true) (λ h z m a. states h z m a ≡ true) → (es : List Entry)
        → WellFormed B M (history_of o es)
        → FollowsTokens B q start o es }
    ensures ownership { (B M : ℕ) (o : OpeningValue) (q : TokenLayout) (says : ℕ → View → Bool) (start : Holders) → OpensTokens q o start
        → ((t : ℕ) (m n : View) → ((x : ℕ) → q.guards t x ≡ true → n x ≡ m x) → says t m ≡ true → says t n ≡ true)
        → ((t : ℕ) → start t ≡ None → says t (opening_byte o) ≡ true) → (s : ℕ) (k : Queue) (n : ℕ) → IsQueue k → IsAtRest k o [] (all_at n)
        → length o.harts ≤ k.sender → (start s ≡ Some k.receiver → ⊥) → (own : ℕ → ℕ → Bool) (states : ℕ → HartState → View → RoleCounts → Bool)
        → HandsOnRightly M o q says s k (λ h z m a. states h z m a ≡ true)
        → IsCertified M o (playing q says s k) (start, all_at n) (λ h x. own h x ≡ true) (λ h z m a. states h z m a ≡ true) → (es : List Entry)
        → WellFormed B M (history_of o es)
        → FollowsOwnership B k (all_at n) o [] (as_one_hart q s k.sender start es) }
{}
