//! What judges runs.

use std::alloc::{AllocError, Global};
use step_machine::Event;

/// What judges the runs of lists of events, one after the other, and counts the good ones.
pub trait Judge {
    ghost use Rattle.std.specs.Prelude.{◌≡◌, ◌↔◌, ◌+◌, ◌≤◌, ◌<◌, ◌++◌, ◌∷◌, ℕ, [], List, IsTrue, None, Some, IfOk, OnOk, length};
    ghost use Rattle.step_machine.specs.declared.events.Event.{Event};
    ghost use Rattle.step_machine.specs.declared.opening.TheConstants.{MAX_HARTS};
    ghost use Rattle.judged_runs.specs.Telling.{IsCounted};

    /// What runs are judged on, as a machine.
    type Bench: Drop;

    /// What is wrong with a run.
    type Flaw: Copy;

    /// What good runs count to.
    type Tally: Drop;

    /// How many harts there are.
    ghost harts: { Self → ℕ };

    /// What a bench meets before each run and after it.
    ghost stands: { Self → Self.Bench → Type 0 };

    /// That a bench has what is noted of the run of these events, which is good.
    ghost noted: { Self → List Event → Self.Bench → Type 0 };

    /// That the run of these events is good.
    ghost is_good: { Self → List Event → Type 0 };

    /// That the run of these events has this flaw.
    ghost has: { Self → List Event → Self.Flaw → Type 0 };

    /// That a part of a run with the first flaw shows it, if the part has the second one.
    ghost alike: { Self → Self.Flaw → Self.Flaw → Type 0 };

    /// That the runs of these lists of events count to this.
    ghost counts: { Self → List (List Event) → Self.Tally → Type 0 };

    /// A bench.
    fn bench(&self, alloc: Global) -> Result<Self::Bench, AllocError>
        ensures { IfOk result (stands self.now) };

    /// How many harts the machine has.
    fn harts(&self, bench: &Self::Bench) -> u32
        requires { stands self.now bench.now }
        ensures value { result ≡ harts self.now }
        ensures some { 1 ≤ result }
        ensures most { result ≤ MAX_HARTS };

    /// The flaw of the run of these events, if it isn't good. It has one flaw, or is good.
    fn judge(
        &self,
        bench: &mut Self::Bench,
        events: &[Event],
    ) -> Result<Option<Self::Flaw>, AllocError>
        requires { stands self.now bench.old }
        ensures good { IfOk result (λ found. found ≡ None → is_good self.now events.now) }
        ensures has { IfOk result (λ found. (flaw : Self.Flaw) → found ≡ Some flaw → has self.now events.now flaw) }
        ensures noted { IfOk result (λ found. found ≡ None → noted self.now events.now bench.new) }
        ensures stands { OnOk result (stands self.now bench.new) }
        ensures one_flaw { (flaw other : Self.Flaw) → has self.now events.now flaw → has self.now events.now other → flaw ≡ other }
        ensures no_flaw { (flaw : Self.Flaw) → is_good self.now events.now → has self.now events.now flaw → ⊥ };

    /// Whether a part that has the second flaw shows the first one.
    fn is_alike(&self, flaw: Self::Flaw, other: Self::Flaw) -> bool
        ensures { IsTrue result ↔ alike self.now flaw other };

    /// What no run counts to.
    fn none(&self, alloc: Global) -> Result<Self::Tally, AllocError>
        ensures { IfOk result (counts self.now []) };

    /// Counts a good run, of which the bench has what is noted.
    fn add(&self, bench: &Self::Bench, tally: &mut Self::Tally)
        requires stands { stands self.now bench.now }
        requires counted { IsCounted (counts self.now) 4294967294 tally.old }
        ensures { (all : List (List Event)) (events : List Event) → counts self.now all tally.old → noted self.now events bench.now
            → counts self.now (all ++ events ∷ []) tally.new };

    /// Takes in what later runs count to.
    fn join(&self, tally: &mut Self::Tally, later: Self::Tally)
        requires { (n m : ℕ) × (n + m ≤ 4294967295) × IsCounted (counts self.now) n tally.old × IsCounted (counts self.now) m later }
        ensures { (all more : List (List Event)) → counts self.now all tally.old → counts self.now more later → counts self.now (all ++ more) tally.new };

    // each flaw shows itself
    ghost same: { (it : Self) (flaw : Self.Flaw) → alike it flaw flaw };
}
