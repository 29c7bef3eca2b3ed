//! Rows of the table of commands, as `specs/Commands.antt` has it.

ghost use Rattle.std.specs.Prelude.{◌≡◌, map};
ghost use Rattle.command_line.specs.Commands.{commands as stated_commands};
ghost use Rattle.command_line.specs.Parameters.{row_by};

use crate::commands::COMMANDS;

/// What a command takes.
#[derive(Clone, Copy)]
pub enum Parameter {
    /// A word that has to stand in its place.
    Positional(&'static str),
    /// `--name VALUE`, which has to be given.
    Required(&'static str),
    /// `--name VALUE`, and this value where it isn't given.
    Defaulted(&'static str, &'static str),
    /// `--name VALUE`, which may be left out.
    Optional(&'static str),
    /// `--name`, which has no value.
    Flag(&'static str),
}

/// A command's name and its parameters.
pub type Row = (&'static str, &'static [Parameter]);

/// The rows of all commands.
pub fn commands() -> &'static [Row]
    ensures { map row_by result.now ≡ stated_commands }
{
    &COMMANDS
}
