//! What stores in FIFO buffers come to in every legal run, whatever programs the harts run: when a store has reached memory,
//! who reads it there, and when every hart reads what one hart reads.
//!
//! The contract is that of [`laws_of_store_buffers`]. This crate runs nothing.
//!
//! Called by none, and cited by more than 6 crates, from `slot_queue` to `certifying`.

#![tactic(auto)]

ghost use Rattle.std.specs.Prelude.{ℕ, ◌≡◌, ◌<◌, ◌≤◌, ◌-◌, All, List, ◌++◌, length, Some, true};
ghost use Rattle.std.specs.List.{slice_get};
ghost use Rattle.std.specs.Int.{byte_at};
ghost use Rattle.memory.specs.declared.writes.Write.{Write};
ghost use Rattle.memory.specs.Writes.{covers};
ghost use Rattle.step_machine.specs.declared.events.Entry.{Entry};
ghost use Rattle.step_machine.specs.History.{OpeningValue, history_of};
ghost use Rattle.step_machine.specs.Entries.{own_stores, lands, pending, read_byte};
ghost use Rattle.step_machine.specs.Legal.{Legal};
ghost use Rattle.store_buffers.specs.StoreBuffers.{IsGloballyPerformed, LeavesByte, AllLeaveByte, IsOnlyWriter};

/// Of any program: if more than n stores of a hart have landed, its n-th store has reached memory, and stays among what
/// has. A hart reads each byte of it, unless something that landed later covers that byte, or a pending store of its own.
/// What a hart reads of a byte, every hart reads once that hart's stores have landed, if no other hart had a pending store
/// over the byte and none of the entries in between writes it. It does nothing.
pub fn laws_of_store_buffers()
    ensures performed { (B : ℕ) (o : OpeningValue) (es : List Entry) (h n : ℕ) (w : Write) → Legal B (history_of o es)
        → slice_get (own_stores h es) n ≡ Some w → n < lands h es → IsGloballyPerformed es w }
    ensures later { (es fs : List Entry) (w : Write) → IsGloballyPerformed es w → IsGloballyPerformed (es ++ fs) w }
    ensures read { (o : OpeningValue) (es : List Entry) (w : Write) (p : IsGloballyPerformed es w) (h x : ℕ) → covers w x ≡ true
        → All (LeavesByte x) p.later → All (LeavesByte x) (pending h es) → read_byte o es h x ≡ byte_at (x - w.addr) w.value }
    ensures handed_over { (B : ℕ) (o : OpeningValue) (a h x : ℕ) (es fs : List Entry) → Legal B (history_of o (es ++ fs))
        → length (own_stores a es) ≤ lands a (es ++ fs) → IsOnlyWriter a x es → AllLeaveByte x fs
        → read_byte o (es ++ fs) h x ≡ read_byte o es a x }
{}
