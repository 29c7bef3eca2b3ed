//! What a line of the debugger's asks for.

ghost use Rattle.std.specs.Prelude.{◌≡◌};
ghost use Rattle.debugger.specs.Commands.{command_alone, command_with_one, command_with_two, command_of};

use step_machine::Event;
use texts::{first_token, number, word};

/// A command. Its numbers are as they were given, and judged by no machine yet.
#[derive(Clone, Copy, PartialEq, Eq)]
pub enum Command {
    /// The schedule's next event.
    Step,
    /// The schedule's events up to a breakpoint.
    Go,
    /// An event of the user's.
    Give(Event),
    /// To set a breakpoint, or to clear it.
    Break(u32, u32),
    /// A hart's lines of the state text.
    Hart(u32),
    /// A hart's pending stores.
    Pending(u32),
    /// A word of memory.
    Word(u32),
    /// To go back by this number of events.
    Back(u64),
    /// How many events were done.
    Count,
    Quit,
}

fn command_alone(name: &[u8]) -> Option<Command>
    ensures { result ≡ command_alone name.now }
{
    match name {
        b"s" => Some(Command::Step),
        b"g" => Some(Command::Go),
        b"t" => Some(Command::Count),
        b"q" => Some(Command::Quit),
        _ => None,
    }
}

fn command_with_one(name: &[u8], digits: &[u8]) -> Option<Command>
    ensures { result ≡ command_with_one name.now digits.now }
{
    match name {
        b"a" => Some(Command::Give(Event::Act(word(digits)?))),
        b"l" => Some(Command::Give(Event::Land(word(digits)?))),
        b"r" => Some(Command::Hart(word(digits)?)),
        b"p" => Some(Command::Pending(word(digits)?)),
        b"w" => Some(Command::Word(word(digits)?)),
        b"u" => Some(Command::Back(number(digits)?)),
        _ => None,
    }
}

fn command_with_two(name: &[u8], first: &[u8], second: &[u8]) -> Option<Command>
    ensures { result ≡ command_with_two name.now first.now second.now }
{
    match name {
        b"b" => Some(Command::Break(word(first)?, word(second)?)),
        _ => None,
    }
}

/// What a line asks for, without its end; `None` where it asks for nothing.
pub fn command_of(line: &[u8]) -> Option<Command>
    ensures { result ≡ command_of line.now }
{
    let (name, rest) = first_token(line)?;
    let Some((first, rest)) = first_token(rest) else {
        return command_alone(name);
    };
    let Some((second, rest)) = first_token(rest) else {
        return command_with_one(name, first);
    };
    match first_token(rest) {
        None => command_with_two(name, first, second),
        Some(_) => None,
    }
}
