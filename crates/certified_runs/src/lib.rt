//! Every run stays in sets of states, one for each hart, that are closed under single instructions of that hart, and keeps a protocol
//! that each instruction keeps there: whatever the protocol counts, and for store buffers of any size.
//!
//! A set may speak of the hart's registers, of the bytes that only this hart writes, and of what the hart knows of the protocol's
//! counts. The contract is that of [`laws_of_certified_runs`], of sets that functions to `Bool` decide, and of no protocol: no contract
//! can speak of all sets or protocols. Crates above use the general form by its proof, `every_run` of `proofs/Every.antt`, and of
//! `proofs/TwoParties.antt` for queues between two harts. What that says of a certificate is the clause `every_run` of
//! `queue_certificates`. There are no calls. This crate runs nothing.
//!
//! Called by none, and cited by more than 6 crates, from `queue_certificates` to `certifying`.

#![tactic(auto)]

ghost use Rattle.std.specs.Prelude.{ℕ, ◌≡◌, List, [], ◌∷◌, ◌++◌, Bool, Some, true, false};
ghost use Rattle.step_machine.specs.declared.events.Entry.{Entry};
ghost use Rattle.step_machine.specs.History.{OpeningValue, history_of};
ghost use Rattle.step_machine.specs.Access.{access_of};
ghost use Rattle.step_machine.specs.Entries.{hart_of, is_land};
ghost use Rattle.step_machine.specs.Legal.{Legal, WellFormed};
ghost use Rattle.step_machine.specs.Paths.{state_of};
ghost use Rattle.hart.specs.State.{HartState};
ghost use Rattle.store_buffers.specs.StoreBuffers.{IsOnlyWriter};
ghost use Rattle.certified_runs.specs.Views.{View, view_of, view_then};
ghost use Rattle.certified_runs.specs.Certified.{no_protocol, IsCertified};

/// Of sets that functions to `Bool` decide. It does nothing.
///
/// - `own_act`: after an act of its own a hart reads what it wrote, and elsewhere what it read before.
/// - `in_states`: in every run of the text, of any length, each hart's state and what it reads are in its set.
/// - `alone`: and no other hart has a pending store over a byte that is a hart's own.
pub fn laws_of_certified_runs()
    ensures own_act { (B : ℕ) (o : OpeningValue) (h x : ℕ) (es : List Entry) (e : Entry) → Legal B (history_of o (es ++ e ∷ []))
        → hart_of e ≡ h → is_land e ≡ false → view_of o (es ++ e ∷ []) h x ≡ view_then (access_of e) (view_of o es h) x }
    ensures in_states { (B M : ℕ) (o : OpeningValue) (own : ℕ → ℕ → Bool) (states : ℕ → HartState → View → Bool)
        → IsCertified M o no_protocol Prim.tt (λ h x. own h x ≡ true) (λ h s m c. states h s m ≡ true) → (es : List Entry)
        → WellFormed B M (history_of o es) → (h : ℕ) (s : HartState) → state_of M (history_of o es) h ≡ Some s
        → states h s (view_of o es h) ≡ true }
    ensures alone { (B M : ℕ) (o : OpeningValue) (own : ℕ → ℕ → Bool) (states : ℕ → HartState → View → Bool)
        → IsCertified M o no_protocol Prim.tt (λ h x. own h x ≡ true) (λ h s m c. states h s m ≡ true) → (es : List Entry)
        → WellFormed B M (history_of o es) → (h x : ℕ) → own h x ≡ true → IsOnlyWriter h x es }
{}
