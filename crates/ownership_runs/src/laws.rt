//! Laws of what is decided.

ghost use Rattle.std.specs.Prelude.{◌≡◌, ◌≤◌, ◌<◌, ℕ, map, List, [], ◌∷◌, ◌++◌, Option, None, Some, Bool, true, false};
ghost use Rattle.step_machine.specs.declared.events.Entry.{Entry};
ghost use Rattle.step_machine.specs.declared.events.Event.{Event};
ghost use Rattle.step_machine.specs.History.{OpeningValue, History};
ghost use Rattle.step_machine.specs.Runs.{Run};
ghost use Rattle.queue_parties.specs.Parties.{QueueCounts};
ghost use Rattle.queue_layouts.specs.declared.AnyQueue.{AnyQueue};
ghost use Rattle.ownership_runs.specs.declared.violations.Violation.{Violation};
ghost use Rattle.ownership_runs.specs.Protocols.{run_counts, Keeps, HasSlot, IsAnyQueue, Rests, Follows};
ghost use Rattle.ownership_runs.specs.Keeping.{keeps_entry};
ghost use Rattle.ownership_runs.specs.Violations.{IsFirstViolation, IsForeign, first_ownership_violation};
ghost use Rattle.ownership_runs.specs.declared.losses.Loss.{Loss};
ghost use Rattle.ownership_runs.specs.Losses.{IsLossAt, IsLoss, IsFirstLoss, first_loss, is_after};
ghost use Rattle.judged_runs.specs.Telling.{IsFlawTold};
ghost use Rattle.ownership_runs.specs.Runs.{HasKeptRun, BreaksAndLoses, HasBrokenRun, IsOfOneKind, LosesNothing, HasLoss, IsLossOfOneKind};
ghost use Rattle.ownership_runs.specs.Ends.{EndsInLoss, EndsInViolation};
ghost use Rattle.ownership_runs.specs.declared.steps.Step.{Step};
ghost use Rattle.ownership_runs.specs.Steps.{AreSteps};

/// Of a queue of either kind with a slot. It does nothing.
///
/// - `sound` and `complete`: an entry keeps the protocol exactly where that is decided.
/// - `kept` and `none`: the entries of a run keep it exactly where there is no first violation.
/// - `first`: the entries before the first violation keep it, and with the one at its place they don't: the violation has what that one stores
///   and what its hart owned.
/// - `foreign`: if it isn't described, the protocol has no such store of the hart then, whatever the other party did.
pub fn laws_of_violations()
    ensures sound { (q : AnyQueue) (c : QueueCounts) (e : Entry) → HasSlot q → keeps_entry q c e ≡ true → Keeps q c (e ∷ []) }
    ensures complete { (q : AnyQueue) (c : QueueCounts) (e : Entry) → HasSlot q → Keeps q c (e ∷ []) → keeps_entry q c e ≡ true }
    ensures kept { (q : AnyQueue) (c : QueueCounts) (es : List Entry) → HasSlot q → first_ownership_violation q c es ≡ None → Keeps q c es }
    ensures none { (q : AnyQueue) (c : QueueCounts) (es : List Entry) → HasSlot q → Keeps q c es → first_ownership_violation q c es ≡ None }
    ensures first { (q : AnyQueue) (c : QueueCounts) (es : List Entry) (b : Violation) → HasSlot q → first_ownership_violation q c es ≡ Some b
        → IsFirstViolation q c es b }
    ensures foreign { (q : AnyQueue) (c : QueueCounts) (es : List Entry) (b : Violation) → HasSlot q → first_ownership_violation q c es ≡ Some b
        → b.described ≡ false → IsForeign q b }
{}

/// Of runs of lists of events. It does nothing.
///
/// - `follows`: one that keeps a queue's protocol from where the queue is at rest is one of which the laws of the
///   protocol speak: `slot_queue::laws_of_ownership`, or `slots_that_tell::laws_of_telling`.
/// - `apart`: none both keeps it and breaks it.
/// - `ends`: the events that are returned with a violation end with the event that makes it.
/// - `lost_or_not`: none both has a loss and has none.
/// - `both`: the steps of one that loses a record after a first violation that is described have these.
/// - `loses`: the events that are returned with a loss of a queue with a slot end with the event that loads it.
pub fn laws_of_judged_runs()
    ensures follows { (B M : ℕ) (o : OpeningValue) (q : AnyQueue) (start : QueueCounts) (events : List Event) (t : History) → IsAnyQueue q
        → Rests q o [] start → HasKeptRun B M o q start events → Run B M o events t → Follows B q start o [] t.entries }
    ensures apart { (B M : ℕ) (o : OpeningValue) (q : AnyQueue) (start : QueueCounts) (events : List Event) (b : Violation) → HasSlot q
        → HasKeptRun B M o q start events → HasBrokenRun B M o q start events b → ⊥ }
    ensures ends { (B M : ℕ) (o : OpeningValue) (q : AnyQueue) (start : QueueCounts) (schedule : ℕ → List Event) (runs : ℕ) (part : List Event) (b : Violation)
        → IsFlawTold (HasKeptRun B M o q start) (HasBrokenRun B M o q start) IsOfOneKind schedule runs part b → EndsInViolation B M o q start part b }
    ensures lost_or_not { (B M : ℕ) (o : OpeningValue) (q : AnyQueue) (start : QueueCounts) (broken : Bool) (events : List Event) (l : Loss)
        → LosesNothing B M o q start broken events → HasLoss B M o q start broken events l → ⊥ }
    ensures both { (B M : ℕ) (o : OpeningValue) (q : AnyQueue) (start : QueueCounts) (events : List Event) (l : Loss) (steps : List Step)
        → HasLoss B M o q start true events l → AreSteps B M o events steps → BreaksAndLoses o q start (map (λ (s : Step). s.entry) steps) l }
    ensures loses { (B M : ℕ) (o : OpeningValue) (q : AnyQueue) (start : QueueCounts) (broken : Bool) (schedule : ℕ → List Event) (runs : ℕ)
        (part : List Event) (l : Loss) → HasSlot q
        → IsFlawTold (LosesNothing B M o q start broken) (HasLoss B M o q start broken) IsLossOfOneKind schedule runs part l
        → EndsInLoss B M o q start broken part l }
{}

/// Of a queue of either kind with a slot. It does nothing.
///
/// - `lost` and `none`: an entry of a run, after one of a place if that is given, is a loss exactly where there is a first one, which is it.
/// - `kept`: in a run that keeps the protocol from where the queue is at rest, the receiver has handed the lost position back already.
pub fn laws_of_losses()
    ensures lost { (since : Option ℕ) (q : AnyQueue) (o : OpeningValue) (c : QueueCounts) (es : List Entry) (l : Loss) → HasSlot q
        → first_loss since q o c es ≡ Some l → IsFirstLoss since q o c es l }
    ensures none { (since : Option ℕ) (q : AnyQueue) (o : OpeningValue) (c : QueueCounts) (es : List Entry) (l : Loss) → HasSlot q
        → first_loss since q o c es ≡ None → is_after since l.place ≡ true → IsLoss q o c es l → ⊥ }
    ensures kept { (B : ℕ) (q : AnyQueue) (o : OpeningValue) (c : QueueCounts) (front : List Entry) (e : Entry) (back : List Entry) (l : Loss)
        → Follows B q c o [] (front ++ e ∷ back) → IsLossAt q o c front e l → l.position < (run_counts q c front).taken }
{}
