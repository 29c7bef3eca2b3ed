//! What good runs of callers count to.

ghost use Rattle.std.specs.Prelude.{◌≡◌, ◌≤◌};
ghost use Rattle.callers.specs.Counts.{are_none, calls_both, unfinished_by};

use crate::judging::Calls;
use litmus::Verdict;

/// How many calls returned in many runs, and how many runs weren't finished.
#[derive(Clone, Copy)]
pub struct Counts {
    pub calls: Calls,
    /// How many runs ended before each hart had ended and all its stores had landed.
    pub unfinished: u32,
}

/// How many of one run that is judged so aren't finished.
pub(crate) fn unfinished_by(verdict: Verdict) -> u32
    ensures value { result ≡ unfinished_by verdict }
    ensures most { result ≤ 1 }
{
    match verdict {
        Verdict::Holds => 0,
        Verdict::Fails => 0,
        Verdict::Unfinished => 1,
    }
}

/// What calls of runs and of further runs come to.
pub(crate) fn both(calls: Calls, more: Calls) -> Calls
    ensures { result ≡ calls_both calls more }
{
    Calls {
        sent: calls.sent.saturating_add(more.sent),
        full: calls.full.saturating_add(more.full),
        received: calls.received.saturating_add(more.received),
        empty: calls.empty.saturating_add(more.empty),
    }
}

/// Whether no call returned.
pub(crate) fn are_none(calls: Calls) -> bool
    ensures { result ≡ are_none calls }
{
    calls.sent == 0 && calls.full == 0 && calls.received == 0 && calls.empty == 0
}
