//! Whether a hart still runs, and why it stopped where it stopped.

ghost use Rattle.std.specs.Prelude.{◌≡◌};

/// Why a hart stopped. Each reason has the number by which texts name it.
#[derive(Clone, Copy, Debug, PartialEq, Eq)]
pub enum Stop {
    /// The word at the pc means no instruction.
    Illegal,
    /// The address of a load, store or AMO isn't a multiple of how many bytes it has.
    Misaligned,
    /// Kept for its number: no instruction stops a hart so.
    SubWord,
    /// The address of a load, store or AMO is past the memory.
    OutOfRange,
    /// The target of a jump or a taken branch isn't a multiple of 4.
    MisalignedJump,
    /// The pc is past the code.
    NoCode,
    /// An environment call with a number in x17 that names none.
    UnknownCall,
    /// An EBREAK.
    Break,
}

impl Stop {
    ghost use Rattle.hart.specs.Steps.{stop_number};

    /// The number by which texts name this reason, 8 to 15.
    pub fn number(self) -> u8
        ensures { result ≡ stop_number self }
    {
        match self {
            Stop::Illegal => 8,
            Stop::Misaligned => 9,
            Stop::SubWord => 10,
            Stop::OutOfRange => 11,
            Stop::MisalignedJump => 12,
            Stop::NoCode => 13,
            Stop::UnknownCall => 14,
            Stop::Break => 15,
        }
    }
}

/// Whether a hart goes on.
#[derive(Clone, Copy, Debug, PartialEq, Eq)]
pub enum Status {
    Running,
    /// The hart made the exit call, or its pc is one past its code.
    Ended,
    Stopped(Stop),
}
