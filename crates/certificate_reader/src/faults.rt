//! Why a text isn't a certificate.

ghost use Rattle.std.specs.Prelude.{◌≡◌};
ghost use Rattle.texts.specs.declared.errors.TextError.TheVariants.{Refused};

use texts::{AtLine, Numbered, TextError};
use thiserror::Error;

/// What is wrong with a text: the first fault from the top. Each has the number by which texts name it.
#[derive(Clone, Copy, Debug, PartialEq, Eq, Error)]
pub enum CertificateFault {
    /// The first line isn't the head of a certificate.
    #[error("bad head line")]
    BadHead,
    /// The line isn't of the shape that its first word asks for, or names what isn't there.
    #[error("bad line")]
    BadLine,
    /// The line may not come here.
    #[error("misplaced line")]
    Misplaced,
    /// The line passes a limit.
    #[error("too many")]
    TooMany,
    /// The text ends where more must come.
    #[error("unfinished")]
    Unfinished,
}

impl Numbered for CertificateFault {
    ghost use Rattle.certificate_reader.specs.Faults.{certificate_number};

    ghost number = { certificate_number };

    fn number(self) -> u8 {
        match self {
            CertificateFault::BadHead => 45,
            CertificateFault::BadLine => 46,
            CertificateFault::Misplaced => 47,
            CertificateFault::TooMany => 48,
            CertificateFault::Unfinished => 49,
        }
    }
}

/// Why there is no certificate: no memory, or the text is refused for a fault of one of its lines.
pub type CertificateError = TextError<AtLine<CertificateFault>>;

/// Why a line isn't taken: no memory, or its fault.
pub type LineError = TextError<CertificateFault>;

/// A line of another shape.
pub const BAD: LineError = LineError::Refused(CertificateFault::BadLine);

/// A line that may not come here.
pub const MISPLACED: LineError = LineError::Refused(CertificateFault::Misplaced);

/// A line that passes a limit.
pub const TOO_MANY: LineError = LineError::Refused(CertificateFault::TooMany);
