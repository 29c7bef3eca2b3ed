//! What a litmus test asks of an outcome, and what it answers.

ghost use Rattle.std.specs.Prelude.{◌≡◌};

/// Which outcomes a test asks for.
#[derive(Clone, Copy, PartialEq, Eq)]
pub enum Quantifier {
    /// `exists`: outcomes in which the condition is true.
    Exists,
    /// `~exists`: outcomes in which it is false.
    NotExists,
    /// `forall`: outcomes in which it is true.
    ForAll,
}

/// What a test says of a machine.
#[derive(Clone, Copy, PartialEq, Eq)]
pub enum Verdict {
    /// The machine is finished, and its outcome is one that the test asks for.
    Holds,
    /// The machine is finished, and its outcome is none that the test asks for.
    Fails,
    /// A hart hasn't ended, or a store is still pending.
    Unfinished,
}
