//! What else an accepted certificate of queues shows of a hart: that nothing stops it, that it doesn't end, and which bytes it stores to and loads.
//!
//! The contract: [`first_stop`] returns a hart's first state whose instruction isn't shown to go on, and where there is none, nothing
//! stops the hart in any run ([`laws_of_hart_safety`]). [`first_end`] returns its first state where it may end; where there is neither,
//! the hart runs in every run. [`touched_of`] returns the regions to which it may store, or which it may load, and its first state with
//! such an access that may go anywhere; where there is none, the hart touches no byte outside of the regions. [`shared_of`] returns the
//! regions that harts share: to which one may store, and which another may store to or load. This crate checks no certificate, reads no
//! text and runs no machine.
//!
//! Called by `certifying`.

#![tactic(auto)]

mod regions;
mod shared;
mod stops;
mod touched;

ghost use Rattle.std.specs.Prelude.{ℕ, ◌≡◌, ◌<◌, ◌⊎◌, Bool, List, [], ◌∷◌, ◌++◌, length, None, Some, true, false};
ghost use Rattle.hart.specs.State.{HartState};
ghost use Rattle.hart.specs.declared.status.Stop.{Stop};
ghost use Rattle.hart.specs.declared.status.Status.TheVariants.{Running, Ended, Stopped};
ghost use Rattle.step_machine.specs.declared.events.Entry.{Entry};
ghost use Rattle.step_machine.specs.Access.{access_of};
ghost use Rattle.step_machine.specs.Entries.{hart_of, is_land};
ghost use Rattle.step_machine.specs.History.{OpeningValue, history_of};
ghost use Rattle.step_machine.specs.Legal.{WellFormed};
ghost use Rattle.step_machine.specs.Paths.{state_of};
ghost use Rattle.queue_certificates.specs.Certificates.{QueueCertificate, accepts};
ghost use Rattle.hart_safety.specs.Stops.{first_stop};
ghost use Rattle.hart_safety.specs.Ends.{first_end};
ghost use Rattle.hart_safety.specs.Regions.{IsInNone, AreInOrderFrom};
ghost use Rattle.hart_safety.specs.Touched.{SparesByte, touched_of};
ghost use Rattle.hart_safety.specs.Shared.{shared_of};

pub use regions::Region;
pub use shared::{Place, Shared, shared_of};
pub use stops::{first_end, first_stop};
pub use touched::{Touched, touched_of};

/// Where a certificate is accepted for an opening, in every legal run from it, of any length and with store buffers of any size. It
/// does nothing.
///
/// - `never_stopped`: a hart whose states all go on is never stopped: by no fault, no `ebreak` and no environment call that isn't one.
/// - `runs_or_ended`: so one of the opening's harts is there in every run, and runs or has ended.
/// - `runs`: and if it ends at none of its states, it runs in every run.
/// - `touched_within`: a hart without a store that may go anywhere writes no byte outside of its regions, and one without such a load
///   loads none outside of those of its loads.
/// - `in_order`: of any certificate, regions are in their order, with a byte between each and the next.
/// - `bounded`, `not_shared`: where no hart has an access that may go anywhere, a byte outside of what harts share is, of two harts, outside of the
///   one's stores, or outside of the other's stores, and of its loads.
pub fn laws_of_hart_safety()
    ensures never_stopped { (B M : ℕ) (o : OpeningValue) (c : QueueCertificate) → accepts o c ≡ true → (h : ℕ) → first_stop M o c h ≡ None
        → (es : List Entry) → WellFormed B M (history_of o es) → (s : HartState) → state_of M (history_of o es) h ≡ Some s
        → (why : Stop) → s.status ≡ Stopped why → ⊥ }
    ensures runs_or_ended { (B M : ℕ) (o : OpeningValue) (c : QueueCertificate) → accepts o c ≡ true → (h : ℕ) → h < length o.harts
        → first_stop M o c h ≡ None → (es : List Entry) → WellFormed B M (history_of o es)
        → (s : HartState) × (state_of M (history_of o es) h ≡ Some s) × ((s.status ≡ Running) ⊎ (s.status ≡ Ended)) }
    ensures runs { (B M : ℕ) (o : OpeningValue) (c : QueueCertificate) → accepts o c ≡ true → (h : ℕ) → h < length o.harts
        → first_stop M o c h ≡ None → first_end o c h ≡ None → (es : List Entry) → WellFormed B M (history_of o es)
        → (s : HartState) × (state_of M (history_of o es) h ≡ Some s) × (s.status ≡ Running) }
    ensures touched_within { (stores : Bool) (B M : ℕ) (o : OpeningValue) (c : QueueCertificate) → accepts o c ≡ true → (es : List Entry) (e : Entry)
        → WellFormed B M (history_of o (es ++ e ∷ [])) → is_land e ≡ false → (touched_of stores o c (hart_of e)).unbounded ≡ None
        → (x : ℕ) → IsInNone x (touched_of stores o c (hart_of e)).regions → SparesByte stores x (access_of e) }
    ensures in_order { (stores : Bool) (o : OpeningValue) (c : QueueCertificate) (h : ℕ) → AreInOrderFrom 0 (touched_of stores o c h).regions }
    ensures bounded { (o : OpeningValue) (c : QueueCertificate) → (shared_of o c).unbounded ≡ None → (stores : Bool) (h : ℕ) → h < length o.harts
        → (touched_of stores o c h).unbounded ≡ None }
    ensures not_shared { (o : OpeningValue) (c : QueueCertificate) (x : ℕ) → IsInNone x (shared_of o c).regions → (stores : Bool) (h j : ℕ)
        → h < length o.harts → j < length o.harts → (h ≡ j → ⊥)
        → IsInNone x (touched_of true o c h).regions ⊎ IsInNone x (touched_of stores o c j).regions }
{}
