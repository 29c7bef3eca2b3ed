//! A user's lines, each answered as soon as it is read.

ghost use Rattle.std.specs.Prelude.{◌≡◌, ◌++◌, ℕ, List, [], IfOk, IfErr, IfSome, OnOk};
ghost use Rattle.std.specs.String.{string_bytes};
ghost use Rattle.std.specs.Io.BufRead.{take_through, DropsThrough};
ghost use Rattle.std.specs.Io.KnownBytes.{Appends};
ghost use Rattle.debugger.specs.DebuggerStates.{DebuggerState};
ghost use Rattle.debugger.specs.Transcripts.{DoesAsked, Leaves, OnStopped, OnUnwritten, Prints, PrintsFront, PrintsSome, quits};
ghost use Rattle.debugger.specs.inner.{AsksNext, TakesAsking, IsFailure, IsReadFailure};

use crate::debug::answers::answer;
use crate::debug::command::{Command, command_of};
use crate::debug::lines::push_unknown_line;
use crate::debugger::Debugger;
use engine_support::fault::Fault;
use engine_support::output::end_with;
use std::alloc::{AllocError, Global};
use std::io::{BufRead, ErrorKind, Write};
use texts::first_line;

/// The next line with its end; nothing where no byte is left. A command has no limit but memory.
fn read_command<C: BufRead>(alloc: Global, commands: &mut C) -> Result<Vec<u8>, Fault>
    ensures bytes { IfOk result (λ line. IfSome (C.remaining commands.old) (λ bytes. line.items ≡ take_through 10 bytes)) }
    ensures rest { OnOk result (DropsThrough (C.remaining commands.old) (C.remaining commands.new) 10) }
    ensures err { IfErr result IsReadFailure }
{
    let mut line = Vec::new(alloc);
    match commands.read_until(b'\n', &mut line) {
        Ok(_) => Ok(line),
        Err(error) if error.kind() == ErrorKind::OutOfMemory => Err(Fault::NoMemory),
        Err(_) => Err(Fault::ReadFailed),
    }
}

/// What the next line asks for, if anything. The end of the input quits.
fn next_asked<C: BufRead>(alloc: Global, commands: &mut C) -> Result<Option<Command>, Fault>
    ensures asks { IfOk result (AsksNext (C.remaining commands.old) (C.remaining commands.new)) }
    ensures takes { IfOk result (TakesAsking (C.remaining commands.old) (C.remaining commands.new)) }
    ensures err { IfErr result IsReadFailure }
{
    let bytes = read_command(alloc, commands)?;
    match first_line(&bytes) {
        Some((line, _)) => Ok(command_of(line)),
        None => Ok(Some(Command::Quit)),
    }
}

fn does_quit(asked: Option<Command>) -> bool
    ensures { result ≡ quits asked }
{
    match asked {
        Some(Command::Quit) => true,
        _ => false,
    }
}

/// Does what is asked for, and appends what it prints.
fn answer_asked<const B: usize, const M: usize>(
    out: &mut String,
    debugger: Debugger<B, M>,
    points: &mut Vec<(u32, u32)>,
    asked: Option<Command>,
) -> Result<Debugger<B, M>, AllocError>
    ensures { IfOk result (λ new. (text : List ℕ) × (string_bytes out.new ≡ string_bytes out.old ++ text)
        × DoesAsked B M asked debugger.entry new points.old.items points.new.items text) }
{
    match asked {
        Some(command) => answer(out, debugger, points, command),
        None => push_unknown_line(out).and(Ok(debugger)),
    }
}

/// Does what is asked for, and writes what it prints.
fn reply<const B: usize, const M: usize, W: Write>(
    alloc: Global,
    debugger: Debugger<B, M>,
    points: &mut Vec<(u32, u32)>,
    asked: Option<Command>,
    writer: &mut W,
) -> Result<Debugger<B, M>, Fault>
    ensures answered { IfOk result (λ new. (text : List ℕ) × DoesAsked B M asked debugger.entry new points.old.items points.new.items text
        × Appends (W.contents writer.old) (W.contents writer.new) text) }
    ensures err { IfErr result IsFailure }
    ensures left { OnStopped result (writer.new ≡ writer.old) }
    ensures unwritten { OnUnwritten result ((new : DebuggerState) × (others : List (ℕ × ℕ)) × (text : List ℕ)
        × DoesAsked B M asked debugger.entry new points.old.items others text) }
{
    let mut out = String::new(alloc);
    let debugger = answer_asked(&mut out, debugger, points, asked)?;
    end_with(Ok((out, ())), writer).and(Ok(debugger))
}

/// Answers all lines from here on, to the one that quits or to their end. No line after it is read.
pub fn converse<const B: usize, const M: usize, C: BufRead, W: Write>(
    alloc: Global,
    debugger: Debugger<B, M>,
    commands: &mut C,
    writer: &mut W,
) -> Result<(), Fault>
    ensures printed { OnOk result ((out : List ℕ) × Appends (W.contents writer.old) (W.contents writer.new) out
        × Prints B M (C.remaining commands.old) debugger.entry [] out) }
    ensures rest { OnOk result (Leaves (C.remaining commands.old) (C.remaining commands.new)) }
    ensures err { IfErr result IsFailure }
    ensures left { OnStopped result ((out : List ℕ) × Appends (W.contents writer.old) (W.contents writer.new) out
        × PrintsFront B M (C.remaining commands.old) debugger.entry [] out) }
    ensures unwritten { OnUnwritten result ((out : List ℕ) × PrintsSome B M (C.remaining commands.old) debugger.entry [] out) }
{
    let mut debugger = debugger;
    let mut points = Vec::new(alloc);
    for _ in 0..u64::MAX {
        let asked = next_asked(alloc, commands)?;
        if does_quit(asked) {
            return Ok(());
        }
        debugger = reply(alloc, debugger, &mut points, asked, writer)?;
    }
    Err(Fault::ReadFailed)
}
