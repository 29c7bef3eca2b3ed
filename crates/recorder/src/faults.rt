//! Why a text isn't a schedule.

ghost use Rattle.std.specs.Prelude.{◌≡◌};
ghost use Rattle.texts.specs.declared.errors.TextError.TheVariants.{Refused};

use texts::{Numbered, TextError};
use thiserror::Error;

/// What is wrong with a text: the first fault from the left. Each has the number by which texts name it.
#[derive(Clone, Copy, Debug, PartialEq, Eq, Error)]
pub enum ScheduleFault {
    /// The first line isn't the head of a schedule.
    #[error("bad head line")]
    BadHead,
    /// A piece of the text has the shape of no token, and of no front of one at the text's end.
    #[error("bad token")]
    BadToken,
    /// A token names a hart from 64 on.
    #[error("bad hart")]
    BadHart,
    /// A token stands for no event, or for more than a schedule may have, or the tokens up to it do.
    #[error("bad count")]
    BadCount,
    /// The text ends right after a token's letter or its `*`.
    #[error("truncated")]
    Truncated,
    /// What follows a token is no outcome of its event.
    #[error("bad outcome")]
    BadOutcome,
}

impl Numbered for ScheduleFault {
    ghost use Rattle.recorder.specs.Reading.{schedule_number};

    ghost number = { schedule_number };

    fn number(self) -> u8 {
        match self {
            ScheduleFault::BadHead => 27,
            ScheduleFault::BadToken => 28,
            ScheduleFault::BadHart => 29,
            ScheduleFault::BadCount => 30,
            ScheduleFault::Truncated => 31,
            ScheduleFault::BadOutcome => 39,
        }
    }
}

/// A fault of a schedule at one of its bytes. The place counts bytes from the text's first one.
#[derive(Clone, Copy, Debug, PartialEq, Eq, Error)]
#[error("{fault} at byte {place}")]
pub struct AtByte {
    pub fault: ScheduleFault,
    pub place: usize,
}

/// Why there is no list of events: no memory, or the text is refused for a fault of one of its bytes.
pub type ScheduleError = TextError<AtByte>;

impl ScheduleFault {
    /// The refusal of a text for this fault at this byte.
    pub(crate) fn at(self, place: usize) -> ScheduleError
        ensures { result ≡ Refused (record { fault = self; place = place }) }
    {
        ScheduleError::Refused(AtByte { fault: self, place })
    }
}
