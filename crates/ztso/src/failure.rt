//! How the program fails.

ghost use Rattle.std.specs.Prelude.{◌≡◌, ◌≤◌, IfOk};
ghost use Rattle.ztso.specs.Failures.{done_exit, failure_of, found_exit, good_exit, exit_status, judgement_exit, verdict_exit};
ghost use Rattle.ztso.specs.declared.failure.Failure.TheVariants.{Engine};
ghost use Rattle.engine_support.specs.declared.fault.Fault.TheVariants.{NoMemory};

use certifying::Judgement;
use command_line::CommandLineError;
use engine_support::fault::Fault;
use finding::Found;
use litmus::Verdict;
use std::alloc::AllocError;
use thiserror::Error;

/// Why the program ends without having done a job. Its text is what stands after `ztso: ` on
/// standard error.
#[derive(Clone, Copy, Debug, PartialEq, Eq, Error)]
pub enum Failure {
    /// The words ask for no job. Words that ask for help end in the same way.
    #[error("bad command line")]
    BadCommandLine,
    /// The job's engine failed, or there was no memory to read the command line.
    #[error(transparent)]
    Engine(Fault),
    /// A search went on from each of this many states, and none is one that it looked for. Its answer says no more.
    #[error("all {states} states seen, none shows it")]
    AllSeen { states: u32 },
    /// A search was cut after this many states, and none of them is one that it looked for.
    #[error("cut at {states} states")]
    Cut { states: u32 },
}

impl Failure {
    /// The program's exit status.
    pub fn status(&self) -> u8
        ensures { result ≡ exit_status self.now }
    {
        match self {
            Failure::BadCommandLine => 2,
            Failure::Engine(fault) => fault.status(),
            Failure::AllSeen { .. } => 1,
            Failure::Cut { .. } => 5,
        }
    }
}

impl From<AllocError> for Failure {
    ghost from_gives = { λ _ failure. failure ≡ Engine NoMemory };

    fn from(_error: AllocError) -> Failure {
        Failure::Engine(Fault::NoMemory)
    }
}

impl From<CommandLineError> for Failure {
    ghost from_gives = { λ error failure. failure ≡ failure_of error };

    fn from(error: CommandLineError) -> Failure {
        match error {
            CommandLineError::BadCommandLine => Failure::BadCommandLine,
            CommandLineError::NoMemory => Failure::Engine(Fault::NoMemory),
        }
    }
}

impl From<Fault> for Failure {
    ghost from_gives = { λ fault failure. failure ≡ Engine fault };

    fn from(fault: Fault) -> Failure {
        Failure::Engine(fault)
    }
}

/// The exit status of a job that has no other outcome than its output.
pub fn after(ended: Result<(), Fault>) -> Result<u8, Failure>
    ensures ended { result ≡ done_exit ended }
    ensures status { IfOk result (λ status. status ≤ 1) }
{
    ended?;
    Ok(0)
}

/// The exit status after a verdict.
pub fn after_run(ended: Result<Verdict, Fault>) -> Result<u8, Failure>
    ensures ended { result ≡ verdict_exit ended }
    ensures status { IfOk result (λ status. status ≤ 1) }
{
    match ended? {
        Verdict::Holds => Ok(0),
        Verdict::Fails => Ok(1),
        Verdict::Unfinished => Ok(1),
    }
}

/// The exit status after runs that show what the test asks or don't, after records none of which was
/// refused or some were, and after runs of a channel that are all clean or not.
pub fn after_runs(ended: Result<bool, Fault>) -> Result<u8, Failure>
    ensures ended { result ≡ good_exit ended }
    ensures status { IfOk result (λ status. status ≤ 1) }
{
    if ended? { Ok(0) } else { Ok(1) }
}

/// The exit status after a certificate was judged.
pub fn after_judgement(ended: Result<Judgement, Fault>) -> Result<u8, Failure>
    ensures ended { result ≡ judgement_exit ended }
    ensures status { IfOk result (λ status. status ≤ 11) }
{
    match ended? {
        Judgement::Kept => Ok(0),
        Judgement::ReadsNotShown => Ok(6),
        Judgement::AskedNotShown => Ok(9),
        Judgement::ProgressNotShown => Ok(10),
        Judgement::NotShown => Ok(7),
        Judgement::Broken => Ok(8),
        Judgement::OtherProtocol => Ok(11),
    }
}

/// The exit status after a search: it fails where nothing was found.
pub fn after_search(ended: Result<Found, Fault>) -> Result<u8, Failure>
    ensures ended { result ≡ found_exit ended }
    ensures status { IfOk result (λ status. status ≤ 1) }
{
    match ended? {
        Found::Shown => Ok(0),
        Found::AllSeen { states } => Err(Failure::AllSeen { states }),
        Found::Cut { states } => Err(Failure::Cut { states }),
    }
}
