//! Why a text has no value.

ghost use Rattle.std.specs.Prelude.{◌≡◌};
ghost use Rattle.texts.specs.declared.errors.TextError.TheVariants.{NoMemory};

use std::alloc::{AllocError, AllocFailed};
use std::fmt::Display;
use thiserror::Error;

/// What texts name by a number.
pub trait Numbered {
    ghost use Rattle.std.specs.Prelude.{ℕ};

    ghost number: { Self → ℕ };

    /// The number by which texts name it.
    fn number(self) -> u8
        ensures { result ≡ number self };
}

/// A fault of a text at one of its lines, which count from 1.
#[derive(Clone, Copy, Debug, PartialEq, Eq, Error)]
#[error("{fault} at line {line}")]
#[error_bound(F: Display)]
pub struct AtLine<F> {
    pub fault: F,
    pub line: usize,
}

/// Why a text has no value: memory ran out, or the text is refused.
#[derive(Clone, Copy, Debug, PartialEq, Eq, Error)]
#[error_bound(R: Display)]
pub enum TextError<R> {
    #[error("no memory")]
    NoMemory,
    /// The text is refused for this fault, which most often has its place with it.
    #[error("{0}")]
    Refused(R),
}

impl<F: Numbered> Numbered for AtLine<F> {
    ghost number = { λ refusal. F.number refusal.fault };

    fn number(self) -> u8 {
        self.fault.number()
    }
}

/// The number of what went wrong: that of the refusal, and 0 where memory ran out.
impl<R: Numbered> Numbered for TextError<R> {
    ghost use Rattle.texts.specs.Results.{number_in};

    ghost number = { number_in R.number };

    fn number(self) -> u8 {
        match self {
            TextError::NoMemory => 0,
            TextError::Refused(refusal) => refusal.number(),
        }
    }
}

impl<F> TextError<AtLine<F>> {
    ghost use Rattle.texts.specs.declared.errors.TextError.TheVariants.{Refused};

    /// The refusal for this fault at this line.
    pub fn at_line(fault: F, line: usize) -> TextError<AtLine<F>>
        ensures { result ≡ Refused (record { fault = fault; line = line }) }
    {
        TextError::Refused(AtLine { fault, line })
    }
}

impl<R> From<AllocError> for TextError<R> {
    ghost from_gives = { λ _ e. e ≡ NoMemory };

    fn from(_error: AllocError) -> TextError<R> {
        TextError::NoMemory
    }
}

impl<R, T: Drop> From<AllocFailed<T>> for TextError<R> {
    ghost from_gives = { λ _ e. e ≡ NoMemory };

    fn from(_error: AllocFailed<T>) -> TextError<R> {
        TextError::NoMemory
    }
}
