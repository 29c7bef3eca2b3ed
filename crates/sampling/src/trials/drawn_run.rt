//! What names a run that a generator draws.

ghost use Rattle.std.specs.Prelude.{◌≤◌};
ghost use Rattle.step_machine.specs.declared.opening.TheConstants.{MAX_HARTS};

use drawn_runs::Draw;

/// A run that a generator draws. Its schedule takes no room.
#[derive(Drop)]
pub struct DrawnRun<G> {
    pub draw: Draw,
    pub harts: u32,
    /// How many events it has.
    pub size: u32,
    /// The generator before its first word.
    pub start: G,
    ghost harts_are: { (1 ≤ harts) × (harts ≤ MAX_HARTS) },
}
