//! Gates: what a hart's thread asks before each turn.

ghost use Rattle.std.specs.Prelude.{◌≡◌, true};

/// Asked by a hart's thread before each of its turns. A gate may share state with other threads, and so hold
/// a hart back or end its turns.
pub trait Gate {
    /// The gate lets every turn pass.
    ghost is_open: { Self → Type 0 };

    /// Whether the hart goes on to this turn; its turns count from 1.
    fn pass(&self, hart: u32, call: u32) -> bool
        ensures { is_open self.now → result ≡ true };
}

/// The gate that lets every turn pass.
#[derive(Clone, Copy)]
pub struct Open;

impl Gate for Open {
    ghost is_open = { λ _. Unit {0} };

    fn pass(&self, _hart: u32, _call: u32) -> bool {
        true
    }
}
