//! Laws of positions and of the histories at whose ends machines stand there.

ghost use Rattle.std.specs.Prelude.{◌≡◌, ℕ, List};
ghost use Rattle.step_machine.specs.History.{History};
ghost use Rattle.step_machine.specs.Runs.{Happens};
ghost use Rattle.step_machine.specs.Standing.{RepresentsHistory};
ghost use Rattle.step_machine.specs.declared.events.Event.{Event};
ghost use Rattle.step_machine.specs.declared.events.Outcome.{Outcome};
ghost use Rattle.step_machine.specs.Positions.{AreOfOneOpening, packed, position_of};
ghost use Rattle.step_machine.specs.inner.Config.{Config};
ghost use Rattle.states.specs.States.{StateEquivalent, EndsAtWords, IsReached};

/// Machines at histories of one opening are of one opening. Then the words of a position depend on the
/// position alone, and histories that end at the same words end alike: so what is read off the end
/// of one, as a verdict or a last value, is that of the other. An event leads from the end of a history at
/// which a machine stands to another such end, and from ends that are alike to ends that are alike, with one
/// outcome. It does nothing.
pub fn laws_of_ends()
    ensures opening { (B M : ℕ) (t u : History) (c d : Config)
        → RepresentsHistory B M t c → RepresentsHistory B M u d → t.opening ≡ u.opening → AreOfOneOpening c d }
    ensures words { (c d : Config) → AreOfOneOpening c d → position_of c ≡ position_of d → packed c ≡ packed d }
    ensures alike { (B M : ℕ) (words : List ℕ) (t u : History) → t.opening ≡ u.opening → EndsAtWords B M words t
        → EndsAtWords B M words u → StateEquivalent M t u }
    ensures reached { (B M : ℕ) (t : History) (ev : Event) (o : Outcome) (u : History) → IsReached B M t → Happens B M t ev o u → IsReached B M u }
    ensures follows { (B M : ℕ) (t u v w : History) (ev : Event) (o p : Outcome) → t.opening ≡ u.opening
        → IsReached B M t → IsReached B M u → StateEquivalent M t u → Happens B M t ev o v → Happens B M u ev p w → (o ≡ p) × StateEquivalent M v w }
{}
