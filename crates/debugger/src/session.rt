//! A machine that is given event after event, and that goes back.

ghost use Rattle.std.specs.Prelude.{◌≡◌, ◌≤◌, ◌<◌, ◌/◌, ◌∷◌, [], ◌++◌, Some, IfOk, OnOk, length, drop};
ghost use Rattle.std.specs.List.{slice_get};
ghost use Rattle.step_machine.specs.History.{FitsIn};
ghost use Rattle.step_machine.specs.Runs.{Happens, Run};
ghost use Rattle.debugger.specs.inner.{HasSnapshots};
ghost use Rattle.debugger.specs.Sessions.{past_at_opening, GoesForward, GoesBack};
ghost use Rattle.debugger.specs.Sessions.{snapshot_before, IsNearest};
ghost use Rattle.debugger.specs.declared.session.TheConstants.{SNAPSHOT_EVENTS};

use std::alloc::{AllocError, Global};
use std::marker::Model;
use step_machine::{Event, Machine, Opening, Outcome, Snapshot};

/// How many events come between one snapshot of a session and the next.
pub const SNAPSHOT_EVENTS: usize = 1024;

/// A machine with store buffers of `B` pairs over `M` words, and the events that it was given since its
/// opening. What it did is the run of these events from that opening.
#[derive(Drop)]
pub struct Session<const B: usize, const M: usize> {
    machine: Machine<B, M>,
    events: Vec<Event>,
    /// One of the opening, and one after every `SNAPSHOT_EVENTS` events.
    snapshots: Vec<Snapshot<B, M>>,
}

impl<const B: usize, const M: usize> Model for Session<B, M> {
    ghost use Rattle.step_machine.specs.Runs.{Run};
    ghost use Rattle.debugger.specs.Sessions.{Past};
    ghost use Rattle.debugger.specs.inner.{HasSnapshots};

    ghost Value = { Past };

    ghost view = { λ s. record { opening = s.machine.history.opening; events = s.events.items; history = s.machine.history } };

    ghost invariant = { λ s. Run B M s.machine.history.opening s.events.items s.machine.history
        × HasSnapshots B M s.machine.history.opening s.events.items s.snapshots.items };
}

impl<const B: usize, const M: usize> Session<B, M> {
    /// A session at its opening: no event was done yet.
    pub fn open(alloc: Global, opening: Opening) -> Result<Self, AllocError>
        requires some_capacity { 1 ≤ B }
        requires capacity { B ≤ 64 }
        requires some_word { 1 ≤ M }
        requires size { M ≤ 65536 }
        requires fits { FitsIn M opening }
        ensures { IfOk result (λ session. session ≡ past_at_opening opening) }
    {
        let machine = Machine::open(alloc, opening)?;
        let snapshot = machine.snapshot()?;
        let mut snapshots = Vec::new(alloc);
        snapshots.push(snapshot)?;
        Ok(Session {
            machine,
            events: Vec::new(alloc),
            snapshots,
        })
    }

    /// Does one more event, and answers its outcome. The event counts whatever that is.
    pub fn event(self, event: Event) -> Result<(Self, Outcome), AllocError>
        ensures { IfOk result (λ done. GoesForward B M self.entry event done.1 done.0) }
    {
        let Session {
            mut machine,
            mut events,
            mut snapshots,
        } = self;
        let outcome = go_on(&mut machine, &mut events, &mut snapshots, event)?;
        let session = Session {
            machine,
            events,
            snapshots,
        };
        Ok((session, outcome))
    }

    /// Takes the last `k` events back, or all of them. Of those that stay, the ones since the latest snapshot
    /// are run anew, fewer than `SNAPSHOT_EVENTS`.
    pub fn back(self, k: usize) -> Result<Self, AllocError>
        ensures { IfOk result (GoesBack B M self.entry k) }
    {
        let Session {
            mut machine,
            mut events,
            mut snapshots,
        } = self;
        events.truncate(events.len().saturating_sub(k));
        snapshots.truncate(events.len() / SNAPSHOT_EVENTS + 1);
        let (snapshot, rest) = latest(&snapshots, &events);
        machine.back_to(snapshot);
        match machine.run(rest) {
            Ok(()) => Ok(Session {
                machine,
                events,
                snapshots,
            }),
            Err((_, error)) => Err(error),
        }
    }

    /// The latest snapshot at or before a place, and the events from there to the place, fewer than
    /// `SNAPSHOT_EVENTS`. A place is how many of the session's events come before it.
    pub fn nearest(&self, place: usize) -> (&Snapshot<B, M>, &[Event])
        requires { place ≤ length self.now.events }
        ensures { IsNearest B M self.now place result.0.now result.1.now }
    {
        latest(&self.snapshots, &self.events[..place])
    }

    /// The machine as it stands after the events.
    pub fn machine(&self) -> &Machine<B, M>
        ensures history { result.now.history ≡ self.now.history }
        ensures ran { Run B M self.now.opening self.now.events result.now.history }
        ensures opening { result.now.history.opening ≡ self.now.opening }
    {
        &self.machine
    }

    /// The events since the opening, oldest first.
    pub fn events(&self) -> &[Event]
        ensures { result.now ≡ self.now.events }
    {
        &self.events
    }
}

/// Does one more event of a session whose parts these are, and answers its outcome. At an error they are the parts of
/// no session any more.
fn go_on<const B: usize, const M: usize>(
    machine: &mut Machine<B, M>,
    events: &mut Vec<Event>,
    snapshots: &mut Vec<Snapshot<B, M>>,
    event: Event,
) -> Result<Outcome, AllocError>
    requires ran { Run B M machine.old.history.opening events.old.items machine.old.history }
    requires held { HasSnapshots B M machine.old.history.opening events.old.items snapshots.old.items }
    ensures events { OnOk result (events.new.items ≡ events.old.items ++ event ∷ []) }
    ensures happens { IfOk result (λ outcome. Happens B M machine.old.history event outcome machine.new.history) }
    ensures opening { machine.new.history.opening ≡ machine.old.history.opening }
    ensures kept { OnOk result (Run B M machine.new.history.opening events.new.items machine.new.history
        × HasSnapshots B M machine.new.history.opening events.new.items snapshots.new.items) }
{
    events.push(event)?;
    let outcome = machine.step(event)?;
    if events.len() % SNAPSHOT_EVENTS == 0 {
        let snapshot = machine.snapshot()?;
        snapshots.push(snapshot)?;
    }
    Ok(outcome)
}

/// The latest of the snapshots that some events have, and those of the events that come after it.
fn latest<'a, const B: usize, const M: usize>(
    snapshots: &'a [Snapshot<B, M>],
    events: &'a [Event],
) -> (&'a Snapshot<B, M>, &'a [Event])
    requires { length events.now / SNAPSHOT_EVENTS < length snapshots.now }
    ensures snapshot { slice_get snapshots.now (length events.now / SNAPSHOT_EVENTS) ≡ Some result.0.now }
    ensures rest { result.1.now ≡ drop (snapshot_before (length events.now)) events.now }
{
    let last = events.len() / SNAPSHOT_EVENTS;
    (&snapshots[last], &events[last * SNAPSHOT_EVENTS..])
}
