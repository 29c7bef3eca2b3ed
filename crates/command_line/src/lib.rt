//! The command line of `ztso`: which words ask for which job.
//!
//! The contract: [`job_of`] returns the job that words ask for, as `specs/CommandLines.antt` reads them, and takes each
//! spelling that `specs/Uses.antt` defines. The table `specs/Commands.antt` has each command's words and options; clap's
//! description is built of it (`specs/Descriptions.antt`).
//! This crate does no job: it opens no file, and knows of an engine only the options that its command has.
//!
//! Called by `ztso`.

#![tactic(auto)]

mod commands;
mod description;
mod fault;
pub mod job;
mod numbers;
mod reading;
mod table;

pub use fault::CommandLineError;
pub use reading::job_of;
