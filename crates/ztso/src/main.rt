//! The program `ztso`: the streams and files for the engine that a job wants.
//!
//! The contract: [`command_line::job_of`] states which words ask for which job, [`work::do_command`] which
//! engine does it with what capacity and with which exit status, and [`failure::Failure`] the exit status of each failure.
//! This crate knows no text, no instruction and no machine. Only the command `threads` may wait, for the lock
//! and for its threads. The jobs of `try`, `callers` and `ring` are threads too, but what does any other command than
//! `threads` has no leave to wait.

#![tactic(auto)]

ghost use Rattle.std.specs.Prelude.{◌≡◌, ◌≤◌, IfOk};
ghost use Rattle.ztso.specs.Work.{greatest_status, judges_records};

mod calling;
mod certified;
mod clock_line;
mod failure;
mod lazy_input;
mod line_output;
mod prompt_reader;
mod reading_line;
mod shown_input;
mod terminal_line;
mod work;

use command_line::job::{Command, Job, MachineCommand};
use command_line::{CommandLineError, job_of};
use drawn_runs::progress::Progress;
use failure::Failure;
use finding::SearchProgress;
use lazy_input::LazyInput;
use line_output::LineOutput;
use prompt_reader::PromptReader;
use reading_line::ReadingLine;
use shown_input::ShownInput;
use std::io::IsTerminal;
use std::process::ExitCode;
use std::rt::{Clock, Env, Files};
use std::sync::Wait;
use std::thread::Threads;
use std::{env, io};
use terminal_line::TerminalLine;
use work::{Streams, do_command};

fn main(rt: HostRuntime) -> ExitCode {
    let is_terminal = rt.stderr().is_terminal();
    let shows_reading = is_terminal && !rt.stdout().is_terminal();
    let mut progress = is_terminal.then_some(TerminalLine::new(&rt));
    let mut search = is_terminal.then_some(TerminalLine::new(&rt));
    match run(&rt, shows_reading, &mut progress, &mut search) {
        Ok(status) => {
            if let Some(line) = progress {
                line.tell_stopped_runs();
            }
            ExitCode::from(status)
        }
        Err(failure) => {
            let _ = eprintln!(rt; "ztso: {failure}");
            if let (Failure::AllSeen { .. } | Failure::Cut { .. }, Some(line)) = (failure, search) {
                line.tell_stopped_states();
            }
            ExitCode::from(failure.status())
        }
    }
}

/// Does the job that the command line asks for, and answers the exit status. It may wait where that job
/// runs on threads. `shows_reading` says whether `check` shows how much it has read. `progress` gets the reports of `try`
/// and `ring`, and `search` those of `find`.
fn run<R, P: Progress, Q: SearchProgress>(
    rt: &R,
    shows_reading: bool,
    progress: &mut P,
    search: &mut Q,
) -> Result<u8, Failure>
where
    R: Env + Files + Input + Clock + Print + Eprint + AllocGlobal + Threads + Wait + Sync,
    R::Reader: IsTerminal,
    ensures { IfOk result (λ status. status ≤ 11) }
{
    let arguments = env::args(rt).map_err(CommandLineError::of_arguments)?;
    let words: Vec<String> = arguments.collect(rt.alloc())?;
    let job = job_of(rt.alloc(), &words)?;
    do_job(rt, job, shows_reading, progress, search)
}

/// Does a job on the streams and files that it names. None is opened before it is read.
fn do_job<R, P: Progress, Q: SearchProgress>(
    rt: &R,
    job: Job<'_>,
    shows_reading: bool,
    progress: &mut P,
    search: &mut Q,
) -> Result<u8, Failure>
where
    R: Files + Input + Clock + Print + Eprint + AllocGlobal + Threads + Wait + Sync,
    R::Reader: IsTerminal,
    ensures { IfOk result (λ status. status ≤ greatest_status job.entry.command) }
{
    // engines write a few bytes at a time, and must be read line by line
    let writer = LineOutput::new(rt.alloc(), io::writer(rt))?;
    let shown = shows_reading && is_check(job.command);
    let line = shown.then_some(ReadingLine::new(rt));
    let mut streams = Streams {
        first: ShownInput::new(LazyInput::new(rt, Some(job.first)), None),
        second: ShownInput::new(LazyInput::new(rt, job.second), line),
        third: ShownInput::new(LazyInput::new(rt, job.third), None),
        fourth: ShownInput::new(LazyInput::new(rt, job.fourth), None),
        commands: PromptReader::new(rt),
        writer,
    };
    let ended = do_command(
        rt,
        job.command,
        job.capacity,
        job.written,
        job.read,
        job.once,
        &mut streams,
        progress,
        search,
    );
    streams.second.wipe();
    if is_check(job.command) && ended.is_ok() && streams.second.is_empty() {
        // as where the converter before the pipe has failed
        let _ = eprintln!(rt; "ztso: no record on standard input");
    }
    ended
}

/// Whether the command judges records, one after the other.
fn is_check(command: Command) -> bool
    ensures { result ≡ judges_records command }
{
    matches!(command, Command::Machine(MachineCommand::Check))
}
