//! The command `find`: a schedule that shows what a test asks about, found by a survey of the machine's states.
//!
//! The contract: where [`find_engine`] says that it found one, what it wrote is the canonical schedule of a
//! run that is finished and in whose last state the test's condition is as wanted (`IsFindAnswer` of
//! `specs/Find.antt`). Each of its events is an entry of the run, and no schedule with fewer events shows such an outcome.
//! The machine runs the events before anything is written; that none are fewer `surveys` has checked. So of the survey nothing
//! is owed but how many states it saw. That there is no path where none was found, no clause says. It has no tests: the
//! cases of the program run it.
//!
//! Called by `ztso`.

#![tactic(auto)]

mod finds;

pub use finds::{Found, find_engine};
pub use surveys::SearchProgress;
