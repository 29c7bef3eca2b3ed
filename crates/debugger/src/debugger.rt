//! A session that follows a schedule, with events of the user's between.

ghost use Rattle.std.specs.Prelude.{◌≡◌, ◌≤◌, IfOk};
ghost use Rattle.std.specs.List.{slice_get};
ghost use Rattle.step_machine.specs.History.{FitsIn};
ghost use Rattle.debugger.specs.DebuggerStates.{scheduled};
ghost use Rattle.debugger.specs.declared.debugger.Source.TheVariants.{Schedule};

use crate::session::Session;
use std::alloc::{AllocError, Global};
use std::marker::Model;
use step_machine::{Event, Opening, Outcome};

/// Where an event of a debugger came from.
#[derive(Clone, Copy, PartialEq, Eq)]
pub enum Source {
    Schedule,
    User,
}

/// A session, a schedule, and how far the session has followed it.
#[derive(Drop)]
pub struct Debugger<const B: usize, const M: usize> {
    session: Session<B, M>,
    schedule: Vec<Event>,
    /// Of each of the session's events.
    sources: Vec<Source>,
    /// How many of the schedule's events were done.
    place: usize,
}

impl<const B: usize, const M: usize> Model for Debugger<B, M> {
    ghost use Rattle.debugger.specs.DebuggerStates.{DebuggerState, IsWellFormed};

    ghost Value = { DebuggerState };

    ghost view = { λ w. record { past = w.session; schedule = w.schedule.items; sources = w.sources.items; place = w.place } };

    ghost invariant = { λ w. IsWellFormed (record { past = w.session; schedule = w.schedule.items; sources = w.sources.items; place = w.place }) };
}

impl<const B: usize, const M: usize> Debugger<B, M> {
    ghost use Rattle.debugger.specs.DebuggerStates.{IsWellFormed, TakesEvent, GoesBackBy, debugger_at_opening};

    /// A debugger at the opening, before the schedule's first event.
    pub fn open(alloc: Global, opening: Opening, schedule: Vec<Event>) -> Result<Self, AllocError>
        requires some_capacity { 1 ≤ B }
        requires capacity { B ≤ 64 }
        requires some_word { 1 ≤ M }
        requires size { M ≤ 65536 }
        requires fits { FitsIn M opening }
        ensures { IfOk result (λ debugger. debugger ≡ debugger_at_opening opening schedule.items) }
    {
        let session = Session::open(alloc, opening)?;
        Ok(Debugger {
            session,
            schedule,
            sources: Vec::new(alloc),
            place: 0,
        })
    }

    /// The session, which has the events of both sources.
    pub fn session(&self) -> &Session<B, M>
        ensures value { result.now ≡ self.now.past }
        ensures kept { IsWellFormed self.now }
    {
        &self.session
    }

    /// The schedule's next event; `None` at its end.
    pub fn next(&self) -> Option<Event>
        ensures { result ≡ slice_get self.now.schedule self.now.place }
    {
        self.schedule.get(self.place).copied()
    }

    /// Does an event from this source, the schedule's next one or any of the user's, and answers its outcome. The
    /// schedule's place stays at one of the user's.
    pub fn event(self, event: Event, source: Source) -> Result<(Self, Outcome), AllocError>
        requires { source ≡ Schedule → slice_get self.schedule self.place ≡ Some event }
        ensures { IfOk result (λ done. TakesEvent B M self.entry event source done.1 done.0) }
    {
        let Debugger {
            session,
            schedule,
            mut sources,
            place,
        } = self;
        let (session, outcome) = session.event(event)?;
        sources.push(source)?;
        let place = match source {
            Source::Schedule => place + 1,
            Source::User => place,
        };
        let debugger = Debugger {
            session,
            schedule,
            sources,
            place,
        };
        Ok((debugger, outcome))
    }

    /// Takes the last `k` events back, or all of them, and the schedule's place with those that it gave.
    pub fn back(self, k: usize) -> Result<Self, AllocError>
        ensures { IfOk result (GoesBackBy B M self.entry k) }
    {
        let Debugger {
            session,
            schedule,
            mut sources,
            place,
        } = self;
        let session = session.back(k)?;
        let left = sources.len().saturating_sub(k);
        let undone = scheduled_in(&sources[left..]);
        sources.truncate(left);
        Ok(Debugger {
            session,
            schedule,
            sources,
            place: place - undone,
        })
    }
}

/// How many of the sources are the schedule.
fn scheduled_in(sources: &[Source]) -> usize
    ensures { result ≡ scheduled sources.now }
{
    sources
        .iter()
        .filter(|source| **source == Source::Schedule)
        .count()
}
