//! Certificates of queues between harts: whether a text's instructions keep the protocol of ownership in every run.
//!
//! A certificate lists for each hart states at its pcs: what each register and each word of the hart's own may be, by linear forms
//! over a few numbers in ranges, and for each queue how many positions the hart has handed over and how many it owns. It is accepted
//! where each instruction leads from each state into another of them and stores to the queues only what its hart may. The states may
//! come from anywhere: nothing is assumed of how they were found. This crate runs nothing.
//!
//! Of a queue's records a certificate may say fields: numbers of some bytes, from which a receiver's loads are then known. A queue's
//! sender has to show that each is right where it publishes the record, and its receiver stores nothing to the slots.
//!
//! Beside queues with indices there may be queues with tags, in the slots or in an array of their own, which tell whose the slots are
//! (`slots_that_tell`). Where a party loads a tag the certificate goes on from two states: in one the tag tells the party that it has the
//! slot, and in the other it doesn't.
//!
//! Called by `queue_checker`, `queue_progress`, `certificate_reader`, `records_written` and `certifying`.

#![tactic(auto)]

mod effect;
mod goal;
mod own;

ghost use Rattle.std.specs.Prelude.{ℕ, ◌≡◌, ◌⊎◌, ◌+◌, ◌*◌, ◌<◌, ◌≤◌, List, [], ◌∷◌, ◌++◌, length, Option, Some, true};
ghost use Rattle.step_machine.specs.declared.events.Entry.{Entry};
ghost use Rattle.step_machine.specs.History.{OpeningValue, history_of};
ghost use Rattle.step_machine.specs.Access.{load, access_of};
ghost use Rattle.step_machine.specs.Entries.{hart_of, read_byte, read};
ghost use Rattle.step_machine.specs.Paths.{state_of};
ghost use Rattle.hart.specs.State.{HartState};
ghost use Rattle.step_machine.specs.Legal.{WellFormed};
ghost use Rattle.queue_parties.specs.Positions.{IsInBytes};
ghost use Rattle.queue_parties.specs.Parties.{Party, the_receiver, all_at};
ghost use Rattle.slot_queue.specs.Ownership.{hart};
ghost use Rattle.slot_queue.specs.Laws.{FollowsOwnership};
ghost use Rattle.slot_queue.specs.Ownership.{counts_after};
ghost use Rattle.certified_runs.specs.TwoParties.{EachIs};
ghost use Rattle.slots_that_tell.specs.Slots.{tag_of, IsSlotByte};
ghost use Rattle.slots_that_tell.specs.Telling.{teller_hart, told_counts};
ghost use Rattle.slots_that_tell.specs.Laws.{FollowsTelling};
ghost use Rattle.queue_certificates.specs.Forms.{Form, form_value, InRanges};
ghost use Rattle.queue_certificates.specs.Facts.{Fact, Holds, AllHold, is_shown, is_derived, low_facts, high_facts};
ghost use Rattle.queue_certificates.specs.ToldRuns.{telling, IsOfTag, LoadsRestOwned};
ghost use Rattle.queue_certificates.specs.Arrived.{HasArrived};
ghost use Rattle.queue_certificates.specs.OwnedRuns.{LoadsByte, ReadsOwned};
ghost use Rattle.queue_certificates.specs.Delivered.{IsDelivered};
ghost use Rattle.queue_layouts.specs.Tagged.{slots_of, tells_by};
ghost use Rattle.queue_certificates.specs.Certificates.{QueueCertificate, queue_at, start_at, tagged_at, tagged_start, IsInState, MeetsFields};
ghost use Rattle.queue_certificates.specs.Certificates.{accepts, accepts_loads, accepts_rest};

pub use effect::Effect;
pub use goal::Goal;
pub use own::OwnWord;

/// Where a certificate is accepted for an opening, in every legal run from it, of any length and with store buffers of any size. It
/// does nothing.
///
/// - `shown`, `derived`: what facts and ranges of numbers show is so of these, and what follows from facts by multipliers.
/// - `at_most`, `above`: where a form is at most another, or more, facts say by how much, and what older facts did.
/// - `every_run`: the run keeps the protocol of ownership of each queue, so that all that `slot_queue::laws_of_ownership` promises
///   holds of it.
/// - `reads_owned`: where a party's loads are accepted too, it loads no byte of a slot that it doesn't own.
/// - `delivered`: where the receiver's are, each byte of a slot that it loads, by a load or an AMO, is of a position that it owns, and
///   as the sender's hart read it where it moved its head past that position, unless the receiver has stored there since.
/// - `in_states`: a hart that runs is in one of the certificate's states.
/// - `sent`: of a queue whose records have fields, the receiver reads in the slot of each position that it owns, as each field, one of
///   the field's numbers.
/// - `tells`: the run keeps the protocol of each queue with tags, so that all that `slots_that_tell::laws_of_telling` promises holds of it.
/// - `rest_owned`: where a party's loads of the slots of such a queue are accepted too, each byte of them that it loads, by a load or an
///   AMO, is of a tag or of a position that it owns.
/// - `arrived`: where the receiver's are, such a byte that isn't of a tag waited at the opening, or is as the sender's hart read it just
///   after it stored its position's tag, unless the receiver has stored there since.
/// - `told`: after a load of a whole tag that tells the receiver of position k, each byte of k's slot is so, those of a tag in it too;
///   and the receiver still reads in the tag what it loaded.
pub fn laws_of_queue_certificates()
    ensures shown { (rs : List (Option ℕ)) (xs : List ℕ) → InRanges rs xs → (hs : List Fact) → AllHold xs hs → (f g : Form)
        → is_shown rs hs f g ≡ true → form_value f xs ≤ form_value g xs }
    ensures derived { (rs : List (Option ℕ)) (xs : List ℕ) → InRanges rs xs → (hs : List Fact) → AllHold xs hs → (h : Fact) (ms : List ℕ)
        → is_derived rs hs h ms ≡ true → Holds xs h }
    ensures at_most { (hs : List Fact) (f g : Form) (d : ℕ) (xs : List ℕ)
        → (AllHold (d ∷ xs) (low_facts hs f g) → (form_value f xs + d ≡ form_value g xs) × AllHold xs hs)
        × (AllHold xs hs → form_value f xs + d ≡ form_value g xs → AllHold (d ∷ xs) (low_facts hs f g)) }
    ensures above { (hs : List Fact) (f g : Form) (d : ℕ) (xs : List ℕ)
        → (AllHold (d ∷ xs) (high_facts hs f g) → (form_value g xs + 1 + d ≡ form_value f xs) × AllHold xs hs)
        × (AllHold xs hs → form_value g xs + 1 + d ≡ form_value f xs → AllHold (d ∷ xs) (high_facts hs f g)) }
    ensures every_run { (B M : ℕ) (o : OpeningValue) (c : QueueCertificate) → accepts o c ≡ true → (es : List Entry)
        → WellFormed B M (history_of o es) → (i : ℕ) → i < length c.queues → FollowsOwnership B (queue_at c i) (all_at (start_at c i)) o [] es }
    ensures reads_owned { (B M : ℕ) (o : OpeningValue) (c : QueueCertificate) → accepts o c ≡ true → (i : ℕ) (p : Party) → i < length c.queues
        → accepts_loads o c i (hart (queue_at c i) p) ≡ true → (es : List Entry) → WellFormed B M (history_of o es)
        → ReadsOwned (queue_at c i) p (all_at (start_at c i)) es }
    ensures delivered { (B M : ℕ) (o : OpeningValue) (c : QueueCertificate) → accepts o c ≡ true → (i : ℕ) → i < length c.queues
        → accepts_loads o c i (queue_at c i).receiver ≡ true → (es : List Entry) (e : Entry) → WellFormed B M (history_of o (es ++ e ∷ []))
        → hart_of e ≡ (queue_at c i).receiver → (x : ℕ) → LoadsByte (access_of e) x
        → IsInBytes (queue_at c i).slots ((queue_at c i).size * (queue_at c i).width) x → IsDelivered (queue_at c i) (start_at c i) o es x }
    ensures in_states { (B M : ℕ) (o : OpeningValue) (c : QueueCertificate) → accepts o c ≡ true → (es : List Entry)
        → WellFormed B M (history_of o es) → (h : ℕ) (s : HartState) → state_of M (history_of o es) h ≡ Some s
        → IsInState c h s (λ x. read_byte o es h x) (λ i. counts_after (queue_at c i) (all_at (start_at c i)) es) }
    ensures sent { (B M : ℕ) (o : OpeningValue) (c : QueueCertificate) → accepts o c ≡ true → (i : ℕ) → i < length c.queues → (es : List Entry)
        → WellFormed B M (history_of o es) → (k : ℕ) → (counts_after (queue_at c i) (all_at (start_at c i)) es).taken ≤ k
        → k < (counts_after (queue_at c i) (all_at (start_at c i)) es).known_published
        → MeetsFields c i k (λ x. read_byte o es (queue_at c i).receiver x) }
    ensures tells { (B M : ℕ) (o : OpeningValue) (c : QueueCertificate) → accepts o c ≡ true → (es : List Entry)
        → WellFormed B M (history_of o es) → (t : ℕ) → t < length c.tagged
        → FollowsTelling B (slots_of (tagged_at c t)) (all_at (tagged_start c t)) o [] es }
    ensures rest_owned { (B M : ℕ) (o : OpeningValue) (c : QueueCertificate) → accepts o c ≡ true → (t : ℕ) (p : Party) → t < length c.tagged
        → accepts_rest o c t (teller_hart (slots_of (tagged_at c t)) p) ≡ true → (es : List Entry) → WellFormed B M (history_of o es)
        → EachIs (telling (slots_of (tagged_at c t))) (teller_hart (slots_of (tagged_at c t)) p) (LoadsRestOwned (slots_of (tagged_at c t)) p)
        (all_at (tagged_start c t)) es }
    ensures arrived { (B M : ℕ) (o : OpeningValue) (c : QueueCertificate) → accepts o c ≡ true → (t : ℕ) → t < length c.tagged
        → accepts_rest o c t (tagged_at c t).receiver ≡ true → (es : List Entry) (e : Entry) → WellFormed B M (history_of o (es ++ e ∷ []))
        → hart_of e ≡ (tagged_at c t).receiver → (x : ℕ) → LoadsByte (access_of e) x
        → IsInBytes (tagged_at c t).slots ((tagged_at c t).size * (tagged_at c t).width) x
        → IsOfTag (slots_of (tagged_at c t)) x ⊎ HasArrived (slots_of (tagged_at c t)) (all_at (tagged_start c t)) o es x }
    ensures told { (B M : ℕ) (o : OpeningValue) (c : QueueCertificate) → accepts o c ≡ true → (t : ℕ) → t < length c.tagged
        → (es : List Entry) (e : Entry) → WellFormed B M (history_of o (es ++ e ∷ [])) → hart_of e ≡ (tagged_at c t).receiver
        → (k v : ℕ) → access_of e ≡ load (tag_of (slots_of (tagged_at c t)) k) (tagged_at c t).tag_width v
        → (told_counts (slots_of (tagged_at c t)) (all_at (tagged_start c t)) es).taken ≤ k
        → k < (told_counts (slots_of (tagged_at c t)) (all_at (tagged_start c t)) es).taken + (tagged_at c t).size
        → tells_by (tagged_at c t).size (tagged_at c t).codec the_receiver k v ≡ true
        → (v ≡ read o (es ++ e ∷ []) (tagged_at c t).receiver (tag_of (slots_of (tagged_at c t)) k) (tagged_at c t).tag_width)
        × ((x : ℕ) → IsSlotByte (slots_of (tagged_at c t)) k x
        → HasArrived (slots_of (tagged_at c t)) (all_at (tagged_start c t)) o (es ++ e ∷ []) x) }
{}
