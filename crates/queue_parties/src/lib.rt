//! What the protocols of queues between two harts share: the two parties and how far each has come, the positions of a queue
//! and the slots in which they lie, and records in the order of their positions.
//!
//! proofs/Runs and proofs/InOrder have the theory of both: what a party stored in a slot is what the other reads there, and records come
//! in order. The protocols show that their runs are such (`Run`), and their crates state what follows.
//!
//! The contract is that of [`laws_of_positions`]. This crate runs nothing, and knows neither an index nor a tag.
//!
//! Called by none, and cited by more than 6 crates, from `slot_queue` to `certifying`.

#![tactic(auto)]

ghost use Rattle.std.specs.Prelude.{ℕ, ◌≡◌, ◌<◌, ◌≤◌, ◌+◌, ◌*◌, ◌%◌};
ghost use Rattle.queue_parties.specs.Positions.{IsPrefix, IsInBytes, numbers_from, slot_from};

/// Of slots of any width. It does nothing.
///
/// - `within`: the slot of each position is among the slots.
/// - `one_slot`: positions whose slots share a byte have one slot.
/// - `next_round`: and the later one is at least a round further.
/// - `beginning`: the numbers of a few positions are a beginning of those of more.
pub fn laws_of_positions()
    ensures within { (slots width size : ℕ) → 1 ≤ size → (k x : ℕ) → IsInBytes (slot_from slots width size k) width x → IsInBytes slots (size * width) x }
    ensures one_slot { (slots width size : ℕ) → 1 ≤ size → (j k x : ℕ) → IsInBytes (slot_from slots width size j) width x
        → IsInBytes (slot_from slots width size k) width x → j % size ≡ k % size }
    ensures next_round { (slots width size : ℕ) → 1 ≤ size → (j k x : ℕ) → IsInBytes (slot_from slots width size j) width x
        → IsInBytes (slot_from slots width size k) width x → j < k → j + size ≤ k }
    ensures beginning { (R : ℕ → ℕ) (k few many : ℕ) → few ≤ many → IsPrefix (numbers_from R k few) (numbers_from R k many) }
{}
