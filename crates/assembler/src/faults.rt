//! Why a text isn't assembled.

use texts::{AtLine, Numbered, TextError};
use thiserror::Error;

/// What is wrong with a line. Each has the number by which texts name it.
#[derive(Clone, Copy, Debug, PartialEq, Eq, Error)]
pub enum AsmFault {
    /// The mnemonic is none, or what stands in a register's place is none.
    #[error("unknown name")]
    UnknownName,
    /// An operand has another shape than its place asks for, is missing, or is one too many.
    #[error("bad operand")]
    BadOperand,
    /// A number or the distance of a label is outside what the instruction's field can hold.
    #[error("out of range")]
    OutOfRange,
    /// The text defines no such label.
    #[error("no such label")]
    NoSuchLabel,
    /// A line above defines the label too.
    #[error("label defined twice")]
    LabelTwice,
    /// The statements down to this line make more words than a program may have.
    #[error("too long")]
    TooLong,
}

impl Numbered for AsmFault {
    ghost use Rattle.assembler.specs.Drafts.{asm_number};

    ghost number = { asm_number };

    fn number(self) -> u8 {
        match self {
            AsmFault::UnknownName => 2,
            AsmFault::BadOperand => 3,
            AsmFault::OutOfRange => 4,
            AsmFault::NoSuchLabel => 5,
            AsmFault::LabelTwice => 6,
            AsmFault::TooLong => 7,
        }
    }
}

/// Why a text has no words: no memory, or the text is refused for a fault of one of its lines.
pub type AsmError = TextError<AtLine<AsmFault>>;
