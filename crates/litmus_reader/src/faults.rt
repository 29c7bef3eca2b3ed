//! Why a text isn't a litmus test.

use texts::{AtLine, Numbered, TextError};
use thiserror::Error;

/// What is wrong with a text: the first fault in reading order. Each has the number by which texts
/// name it.
#[derive(Clone, Copy, Debug, PartialEq, Eq, Error)]
pub enum LitmusFault {
    /// The first line that isn't blank is no header of a test.
    #[error("no header")]
    NoHeader,
    /// An item of the init part has no meaning or names no hart of the test, or a brace is missing.
    #[error("bad init")]
    BadInit,
    /// A row of the table isn't ended by its only `;` or has another number of cells than the first
    /// one, the first row doesn't name the harts, or there is no table.
    #[error("bad table")]
    BadTable,
    /// A cell of the table is no statement, or its label has no place.
    #[error("bad instruction")]
    BadInstr,
    /// The condition is missing, has a fault or names no hart of the test.
    #[error("bad condition")]
    BadCondition,
    /// There are more harts, instructions of a hart or locations than a test may have.
    #[error("too many")]
    TooMany,
}

impl Numbered for LitmusFault {
    ghost use Rattle.litmus_reader.specs.Faults.{litmus_number};

    ghost number = { litmus_number };

    fn number(self) -> u8 {
        match self {
            LitmusFault::NoHeader => 21,
            LitmusFault::BadInit => 22,
            LitmusFault::BadTable => 23,
            LitmusFault::BadInstr => 24,
            LitmusFault::BadCondition => 25,
            LitmusFault::TooMany => 26,
        }
    }
}

/// Why a text has no test: no memory, or the text is refused for a fault of one of its lines.
pub type LitmusError = TextError<AtLine<LitmusFault>>;
