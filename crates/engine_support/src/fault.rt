//! Why a command ends without its output.

ghost use Rattle.std.specs.Prelude.{◌≡◌};
ghost use Rattle.engine_support.specs.Faults.{status_of};
ghost use Rattle.engine_support.specs.Faults.{fault_at};
ghost use Rattle.engine_support.specs.declared.fault.Fault.TheVariants.{NoMemory, Refused};

use std::alloc::{AllocError, AllocFailed};
use std::fmt;
use texts::{AtLine, Numbered, TextError};
use thiserror::Error;

/// A line that no rule of its text allows, or a text that lacks a line.
pub const BAD_LINE: u8 = 34;
/// An input that isn't UTF-8.
pub const NOT_TEXT: u8 = 36;
/// An input of more than [`crate::input::INPUT_BYTES`] bytes.
pub const TOO_LARGE: u8 = 37;
/// A record that says another outcome of an event than its run has.
pub const DIFFERS: u8 = 38;

/// Which of a channel's programs.
#[derive(Clone, Copy, Debug, PartialEq, Eq)]
pub enum Role {
    /// The one that each sender runs.
    Sender,
    /// The one that the receiver runs.
    Receiver,
}

impl fmt::Display for Role {
    fn fmt<W: fmt::Write>(&self, f: &mut fmt::Formatter<W>) -> fmt::Result {
        match self {
            Role::Sender => f.write_str("sender"),
            Role::Receiver => f.write_str("receiver"),
        }
    }
}

/// Where an input was refused.
#[derive(Clone, Copy, Debug, PartialEq, Eq)]
pub enum Position {
    /// The input as a whole.
    Nowhere,
    /// A line, counted from 1.
    Line(usize),
    /// A line of one of a channel's programs, counted from 1.
    ProgramLine { role: Role, line: usize },
    /// A byte, counted from 0.
    Byte(usize),
    /// A word of a sender's list, both counted from 0.
    Word { sender: usize, place: usize },
    /// An event of a schedule, counted from 0.
    Event(usize),
}

impl fmt::Display for Position {
    fn fmt<W: fmt::Write>(&self, f: &mut fmt::Formatter<W>) -> fmt::Result {
        match self {
            Position::Nowhere => Ok(()),
            Position::Line(line) => write!(f, " at line {line}"),
            Position::ProgramLine { role, line } => write!(f, " at line {line} of the {role}"),
            Position::Byte(byte) => write!(f, " at byte {byte}"),
            Position::Word { sender, place } => write!(f, " at sender {sender} place {place}"),
            Position::Event(event) => write!(f, " at event {event}"),
        }
    }
}

/// A refused input: the refusal's number, and where it was refused.
#[derive(Clone, Copy, Debug, PartialEq, Eq, Error)]
#[error("refused {number}{place}")]
pub struct Refusal {
    pub number: u8,
    pub place: Position,
}

/// Why a command failed.
#[derive(Clone, Copy, Debug, PartialEq, Eq, Error)]
pub enum Fault {
    #[error("read failed")]
    ReadFailed,
    /// The writer failed. Nothing is said of what it had taken by then.
    #[error("write failed")]
    WriteFailed,
    /// A growth was refused.
    #[error("no memory")]
    NoMemory,
    /// An input was refused.
    #[error(transparent)]
    Refused(Refusal),
}

impl Fault {
    /// The exit status of a program that ends with this fault.
    pub fn status(&self) -> u8
        ensures { result ≡ status_of self.now }
    {
        match self {
            Fault::Refused(_) => 2,
            Fault::ReadFailed | Fault::WriteFailed => 3,
            Fault::NoMemory => 4,
        }
    }

    /// An input refused for this reason at this place.
    pub fn refused(number: u8, place: Position) -> Fault
        ensures { result ≡ Refused (record { number = number; place = place }) }
    {
        Fault::Refused(Refusal { number, place })
    }
}

impl From<AllocError> for Fault {
    ghost from_gives = { λ _ e. e ≡ NoMemory };

    fn from(_error: AllocError) -> Fault {
        Fault::NoMemory
    }
}

impl<T: Drop> From<AllocFailed<T>> for Fault {
    ghost from_gives = { λ _ e. e ≡ NoMemory };

    fn from(_error: AllocFailed<T>) -> Fault {
        Fault::NoMemory
    }
}

/// A fault at a line is refused there, by its number.
impl<F: Numbered> From<TextError<AtLine<F>>> for Fault {
    ghost use Rattle.engine_support.specs.Faults.{fault_for, refused_at};

    ghost from_gives = { λ error fault. fault ≡ fault_for (refused_at F.number) error };

    fn from(error: TextError<AtLine<F>>) -> Fault {
        match error {
            TextError::NoMemory => Fault::NoMemory,
            TextError::Refused(AtLine { fault, line }) => {
                Fault::refused(fault.number(), Position::Line(line))
            }
        }
    }
}

/// Why a line of an input is not read: no memory, or it is refused, by the refusal's number.
pub type LineFault = TextError<u8>;

/// A line that no rule allows, or that passes a limit.
pub const BAD: LineFault = LineFault::Refused(BAD_LINE);

/// The fault of an input whose line of this number has this fault.
pub fn at_line(fault: LineFault, number: usize) -> Fault
    ensures { result ≡ fault_at number fault }
{
    match fault {
        LineFault::NoMemory => Fault::NoMemory,
        LineFault::Refused(refusal) => Fault::refused(refusal, Position::Line(number)),
    }
}
