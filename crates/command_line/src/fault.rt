//! Why a command line gives no job.

ghost use Rattle.std.specs.Prelude.{◌≡◌};
ghost use Rattle.clap.specs.Words.{kind_of};
ghost use Rattle.clap.specs.declared.error.kind.ErrorKind.TheVariants as kind;
ghost use Rattle.std.specs.IoError.{error_kind};
ghost use Rattle.std.specs.declared.io.ErrorKind.TheVariants as io_kind;
ghost use Rattle.command_line.specs.Jobs.{IsErrorFor};

use clap::error::ErrorKind;
use std::io;
use thiserror::Error;

/// Why words give no job.
#[derive(Clone, Copy, Debug, PartialEq, Eq, Error)]
pub enum CommandLineError {
    /// The words ask for no job, or one of them is no text. Words that ask for help end in the same way.
    #[error("bad command line")]
    BadCommandLine,
    /// There was no memory to read them.
    #[error("no memory")]
    NoMemory,
}

impl From<clap::Error> for CommandLineError {
    ghost from_gives = { λ error made. IsErrorFor (kind_of error ≡ kind.OutOfMemory) made };

    fn from(error: clap::Error) -> CommandLineError {
        match error.kind() {
            ErrorKind::OutOfMemory => CommandLineError::NoMemory,
            _ => CommandLineError::BadCommandLine,
        }
    }
}

impl CommandLineError {
    /// Why the arguments can't be read at all: one of them is no text, or there is no memory.
    pub fn of_arguments(error: io::Error) -> CommandLineError
        ensures { IsErrorFor (error_kind error ≡ io_kind.OutOfMemory) result }
    {
        if error.kind() == io::ErrorKind::OutOfMemory {
            CommandLineError::NoMemory
        } else {
            CommandLineError::BadCommandLine
        }
    }
}
