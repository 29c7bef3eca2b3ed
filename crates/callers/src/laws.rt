//! Laws of violations, and of answers.

ghost use Rattle.std.specs.Prelude.{◌≡◌, ℕ, Bool, List, [], None};
ghost use Rattle.step_machine.specs.declared.events.Entry.{Entry};
ghost use Rattle.step_machine.specs.History.{OpeningValue, history_of};
ghost use Rattle.step_machine.specs.Legal.{WellFormed};
ghost use Rattle.spsc_queue.specs.Calls.{UsesAsSpscQueue};
ghost use Rattle.callers.specs.Queues.{spsc_of, IsLocated};
ghost use Rattle.callers.specs.Violations.{IsOpeningViolation, first_caller_violation};
ghost use Rattle.drawn_runs.specs.Samples.{DrawnRuns};
ghost use Rattle.callers.specs.Answers.{IsCallersOutput};
ghost use Rattle.callers.specs.declared.violations.CallerViolation.{CallerViolation};
ghost use Rattle.callers.specs.declared.queue.Queue.{Queue};
ghost use Rattle.callers.specs.declared.queue.Located.{Located};

/// A run has no violation exactly where it keeps all that callers owe: from an opening at which the queue can be used, a run
/// without a violation meets the premises of the queue's theorem, and a run that meets them has none. At such an opening
/// nothing is owed. It does nothing.
pub fn laws_of_caller_violations()
    ensures kept { (B M : ℕ) (o : OpeningValue) (l : Located) (es : List Entry) → IsLocated M o l.queue l → WellFormed B M (history_of o es)
        → first_caller_violation M o (spsc_of l) es ≡ None → UsesAsSpscQueue B M o (spsc_of l) [] es }
    ensures none { (B M : ℕ) (o : OpeningValue) (l : Located) (es : List Entry) → UsesAsSpscQueue B M o (spsc_of l) [] es
        → first_caller_violation M o (spsc_of l) es ≡ None }
    ensures opening { (M : ℕ) (o : OpeningValue) (q : Queue) (l : Located) (d : CallerViolation) → IsLocated M o q l → IsOpeningViolation M o q d → ⊥ }
{}

/// Two answers of one test's runs both say that all keep what callers owe and some call returned, or neither does. Which violation
/// an answer names, and which of the parts that no event can leave it shows, is left open. It does nothing.
#[tactic(auto, using(crate::proofs::Alike::status_alike))]
pub fn callers_alike()
    ensures { (d : DrawnRuns) (o : OpeningValue) (q : Queue) (text other : List ℕ) (a b : Bool)
        → IsCallersOutput d o q (text, a) → IsCallersOutput d o q (other, b) → a ≡ b }
{}
