//! The command line, as it is described to clap.

ghost use Rattle.std.specs.Prelude.{◌≡◌, ◌++◌, List, IfOk, map};
ghost use Rattle.clap.specs.Words.{App, new_app};
ghost use Rattle.command_line.specs.Descriptions.{HasRule, IsDescribed, app_for, with_commands, with_rules, ztso_command};
ghost use Rattle.command_line.specs.Parameters.{rule_for, parameter_by, row_by};

use crate::table::{Parameter, Row, commands};
use clap::{Arg, ArgAction, Command};
use std::alloc::{AllocError, Global};

/// A parameter, as clap takes it.
fn arg_for<'a>(alloc: Global, parameter: Parameter) -> Arg<'a>
    ensures { HasRule result (rule_for (parameter_by parameter)) }
{
    match parameter {
        Parameter::Positional(id) => Arg::new(alloc, id).required(true),
        Parameter::Required(name) => Arg::new(alloc, name)
            .long(name)
            .action(ArgAction::Set)
            .required(true),
        Parameter::Defaulted(name, value) => Arg::new(alloc, name)
            .long(name)
            .action(ArgAction::Set)
            .default_value(value),
        Parameter::Optional(name) => Arg::new(alloc, name).long(name).action(ArgAction::Set),
        Parameter::Flag(name) => Arg::new(alloc, name).long(name).action(ArgAction::SetTrue),
    }
}

/// The command with these parameters too, in turn.
fn with_parameters<'a>(
    alloc: Global,
    command: Command<'a>,
    parameters: &[Parameter],
) -> Result<Command<'a>, AllocError>
    ensures { (app : App) → IsDescribed command.entry app
        → IfOk result (λ made. IsDescribed made (with_rules app (map rule_for (map parameter_by parameters.now)))) }
{
    match parameters {
        [] => Ok(command),
        [first, others @ ..] => {
            let command = command.arg(arg_for(alloc, *first))?;
            with_parameters(alloc, command, others)
        }
    }
}

/// A command, as clap takes it.
fn command_for<'a>(alloc: Global, row: Row) -> Result<Command<'a>, AllocError>
    ensures { IfOk result (λ command. IsDescribed command (app_for (row_by row.entry))) }
{
    with_parameters(alloc, Command::new(alloc, row.0), row.1)
}

/// The command with these subcommands too, in turn.
fn with_commands<'a>(
    alloc: Global,
    command: Command<'a>,
    rows: &[Row],
) -> Result<Command<'a>, AllocError>
    ensures { (app : App) → IsDescribed command.entry app
        → IfOk result (λ made. IsDescribed made (with_commands app (map row_by rows.now))) }
{
    match rows {
        [] => Ok(command),
        [first, others @ ..] => {
            let command = command.subcommand(command_for(alloc, *first)?)?;
            with_commands(alloc, command, others)
        }
    }
}

/// `ztso` with all its subcommands, as clap takes it. It is an `Err` where memory runs out.
pub fn ztso_command<'a>(alloc: Global) -> Result<Command<'a>, AllocError>
    ensures { IfOk result (λ command. IsDescribed command ztso_command) }
{
    with_commands(alloc, Command::new(alloc, "ztso"), commands())
}
