//! The law that ties the step machine to the standard.

ghost use Rattle.std.specs.Prelude.{ℕ};
ghost use Rattle.step_machine.specs.History.{History};
ghost use Rattle.step_machine.specs.Legal.{Legal};
ghost use Rattle.ztso_axioms.specs.Axioms.{Ztso};
ghost use Rattle.ztso_axioms.specs.Performed.{order};

/// Every trace that store buffers and memory allow satisfies RVWMO's axioms with Ztso, in the order in
/// which it performed its operations, whatever its harts' instructions; so every trace of a machine does.
/// It does nothing.
pub fn traces_satisfy_ztso()
    ensures { (B : ℕ) (t : History) → Legal B t → Ztso t (order t) }
{}
