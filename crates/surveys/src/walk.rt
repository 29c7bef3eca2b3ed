//! A survey's states by keys of some words, in the order in which it meets them.

ghost use Rattle.std.specs.Prelude.{◌≡◌, ◌≤◌, ◌+◌, length, IfOk, IfSome};

use crate::keys::{Draft, Keys};
use crate::layout::Layout;
use crate::moves::{Move, Moves};
use crate::progress::SearchProgress;
use crate::reports::Reports;
use crate::steps::Stepper;
use crate::visited::Visited;
use crate::wanted::ends_as_wanted;
use litmus::Test;
use std::alloc::{AllocError, Global};
use std::marker::Model;
use step_machine::MachineState;

/// From how many states a survey goes on before it looks up those after them: the processor then waits for several at
/// once.
const BLOCK: usize = 16;

/// The states that a survey met, by keys of `N` words, the opening first.
#[derive(Drop)]
pub(crate) struct Walk<const N: usize> {
    keys: Keys<N>,
    layout: Layout<N>,
    moves: Moves,
    drafts: Vec<Draft<N>>,
    looks: Vec<u32>,
    known: Vec<bool>,
    counts: Vec<usize>,
    row: Vec<u32>,
    ghost small: { N ≤ 64 },
}

impl<const N: usize> Model for Walk<N> {
    ghost use Rattle.std.specs.Prelude.{ℕ, List};

    ghost Value = { List (List ℕ) };

    ghost view = { λ w. w.keys };
}

/// What came of going on from some states.
#[derive(Clone, Copy)]
pub(crate) enum Went {
    /// None of the states after them that are new ends as wanted.
    On,
    /// The newest state ends as wanted.
    Found,
    /// Keys need more words.
    NoRoom,
}

impl<const N: usize> Walk<N> {
    /// The opening alone, if keys of `N` words can be of it. Each of its parts has number 0.
    pub fn open(alloc: Global, stepper: &Stepper) -> Result<Option<Self>, AllocError>
        requires { N ≤ 64 }
        ensures { IfOk result (λ opened. IfSome opened (λ states. length states ≡ 1)) }
    {
        let mut counts = Vec::new(alloc);
        stepper.counts_into(&mut counts)?;
        let Some(layout) = Layout::of(alloc, &counts)? else {
            return Ok(None);
        };
        let keys = Keys::new(alloc, [0; N])?;
        Ok(Some(Walk {
            keys,
            layout,
            moves: Moves::new(alloc),
            drafts: Vec::new(alloc),
            looks: Vec::new(alloc),
            known: Vec::new(alloc),
            counts,
            row: Vec::new(alloc),
        }))
    }

    /// The states that were visited.
    pub fn into_visited(self) -> Visited<N>
        requires { N ≤ 64 }
    {
        let Walk { keys, layout, .. } = self;
        Visited::new(keys, layout)
    }

    /// How many states were visited.
    pub fn len(&self) -> usize
        ensures { result ≡ length self.now }
    {
        self.keys.len()
    }

    /// The end of a block of states from here on, which doesn't reach beyond `end`.
    pub fn block_end(from: usize, end: usize) -> usize
        requires { from ≤ end }
        ensures within { result ≤ end }
        ensures on { from ≤ result }
    {
        end.min(from.saturating_add(BLOCK))
    }

    /// Goes on from the states from `from` to before `end`, until `limit` are visited.
    pub fn go_on<const B: usize, const M: usize, P: SearchProgress>(
        &mut self,
        alloc: Global,
        test: &Test,
        machine: &mut MachineState<B, M>,
        stepper: &mut Stepper,
        reports: &mut Reports,
        from: usize,
        end: usize,
        limit: usize,
        progress: &mut P,
    ) -> Result<Went, AllocError>
        requires harts { length machine.old.harts ≡ length test.now.opening.harts }
        requires names { length test.now.names ≤ M }
        requires few { length self.old ≤ limit }
        ensures harts { length machine.new.harts ≡ length machine.old.harts }
        ensures kept { length self.old ≤ length self.new }
        ensures few { length self.new ≤ limit }
    {
        self.moves.clear();
        for number in from..end {
            self.add_moves(machine, stepper, number)?;
        }
        if !self.make_room(alloc, stepper)? {
            return Ok(Went::NoRoom);
        }
        self.draft_all()?;
        self.meet_all(test, machine, stepper, reports, limit, progress)
    }

    fn add_moves<const B: usize, const M: usize>(
        &mut self,
        machine: &mut MachineState<B, M>,
        stepper: &mut Stepper,
        number: usize,
    ) -> Result<(), AllocError>
        ensures harts { length machine.new.harts ≡ length machine.old.harts }
        ensures states { self.new ≡ self.old }
    {
        self.layout.row_into(&self.keys.key(number), &mut self.row)?;
        let from = u32::try_from(number).map_err(|_| AllocError)?;
        self.moves.add(machine, stepper, from, &self.row)
    }

    /// Makes keys wide enough for the numbers of all parts, and answers whether `N` words are enough. Makes room for keys
    /// in the table.
    fn make_room(&mut self, alloc: Global, stepper: &Stepper) -> Result<bool, AllocError>
        ensures { length self.new ≡ length self.old }
    {
        stepper.counts_into(&mut self.counts)?;
        if !self.layout.holds(&self.counts) {
            let Some(wider) = Layout::of(alloc, &self.counts)? else {
                return Ok(false);
            };
            self.keys.move_to(&self.layout, &wider)?;
            self.layout = wider;
        }
        self.keys.make_room(self.moves.as_slice().len())?;
        Ok(true)
    }

    /// Makes the keys of the states to which the moves lead, and looks them up.
    fn draft_all(&mut self) -> Result<(), AllocError>
        ensures { self.new ≡ self.old }
    {
        drafts_into(
            &self.keys,
            &self.layout,
            self.moves.as_slice(),
            &mut self.drafts,
        )?;
        self.keys
            .look_up(&self.drafts, &mut self.looks, &mut self.known)
    }

    /// Meets the states to which the moves lead, until `limit` are met or one ends as wanted.
    fn meet_all<const B: usize, const M: usize, P: SearchProgress>(
        &mut self,
        test: &Test,
        machine: &mut MachineState<B, M>,
        stepper: &mut Stepper,
        reports: &mut Reports,
        limit: usize,
        progress: &mut P,
    ) -> Result<Went, AllocError>
        requires harts { length machine.old.harts ≡ length test.now.opening.harts }
        requires names { length test.now.names ≤ M }
        requires few { length self.old ≤ limit }
        ensures harts { length machine.new.harts ≡ length machine.old.harts }
        ensures kept { length self.old ≤ length self.new }
        ensures few { length self.new ≤ limit }
    {
        for index in 0..self.drafts.len() {
            if self.len() >= limit {
                return Ok(Went::On);
            }
            let went = self.meet(test, machine, stepper, reports, index, progress)?;
            if matches!(went, Went::Found) {
                return Ok(Went::Found);
            }
        }
        Ok(Went::On)
    }

    /// Meets the state to which a move leads, whose key is the draft at the same place.
    #[inline(always)]
    fn meet<const B: usize, const M: usize, P: SearchProgress>(
        &mut self,
        test: &Test,
        machine: &mut MachineState<B, M>,
        stepper: &mut Stepper,
        reports: &mut Reports,
        index: usize,
        progress: &mut P,
    ) -> Result<Went, AllocError>
        requires harts { length machine.old.harts ≡ length test.now.opening.harts }
        requires names { length test.now.names ≤ M }
        ensures harts { length machine.new.harts ≡ length machine.old.harts }
        ensures kept { length self.old ≤ length self.new }
        ensures next { length self.new ≤ length self.old + 1 }
    {
        if self.is_known(index) || !self.insert(index)? {
            return Ok(Went::On);
        }
        let is_finished = self.is_finished_after(index);
        if self.is_wanted(test, machine, stepper, reports, is_finished, progress)? {
            return Ok(Went::Found);
        }
        Ok(Went::On)
    }

    /// Whether each hart is finished in the state to which a move leads.
    fn is_finished_after(&self, index: usize) -> bool {
        match self.moves.as_slice().get(index) {
            Some(by) => by.is_finished,
            None => false,
        }
    }

    /// Appends the key of a draft, unless it is there, and answers whether it did.
    #[inline(always)]
    fn insert(&mut self, index: usize) -> Result<bool, AllocError>
        ensures kept { length self.old ≤ length self.new }
        ensures next { length self.new ≤ length self.old + 1 }
    {
        match self.drafts.get(index).copied() {
            Some(draft) => self.keys.insert(&draft),
            None => Ok(false),
        }
    }

    /// Whether the key of a draft was found at once.
    fn is_known(&self, index: usize) -> bool {
        self.known.get(index).copied().unwrap_or(false)
    }

    /// Whether the newest state ends as wanted. The progress learns which harts are stopped there, if it wants to.
    pub fn is_wanted<const B: usize, const M: usize, P: SearchProgress>(
        &mut self,
        test: &Test,
        machine: &mut MachineState<B, M>,
        stepper: &mut Stepper,
        reports: &mut Reports,
        is_finished: bool,
        progress: &mut P,
    ) -> Result<bool, AllocError>
        requires harts { length machine.old.harts ≡ length test.now.opening.harts }
        requires names { length test.now.names ≤ M }
        ensures harts { length machine.new.harts ≡ length machine.old.harts }
        ensures states { self.new ≡ self.old }
    {
        if !is_finished && !progress.shows_stops() {
            return Ok(false);
        }
        let number = self.keys.len().wrapping_sub(1);
        self.layout.row_into(&self.keys.key(number), &mut self.row)?;
        if progress.shows_stops() {
            reports.see(machine, stepper, number, &self.row, progress)?;
        }
        if !is_finished {
            return Ok(false);
        }
        stepper.put(machine, &self.row)?;
        Ok(ends_as_wanted(test, machine))
    }
}

/// Writes the keys of the states to which the moves lead, in the place of what `drafts` holds.
fn drafts_into<const N: usize>(
    keys: &Keys<N>,
    layout: &Layout<N>,
    moves: &[Move],
    drafts: &mut Vec<Draft<N>>,
) -> Result<(), AllocError>
    requires { N ≤ 64 }
{
    drafts.clear();
    for each in moves {
        drafts.push(Draft::new(after(keys, layout, each)))?;
    }
    Ok(())
}

/// The key of the state to which a move leads.
fn after<const N: usize>(keys: &Keys<N>, layout: &Layout<N>, by: &Move) -> [u64; N] {
    let mut key = keys.key(by.from as usize);
    layout.set(&mut key, by.hart as usize, by.step.part);
    layout.set(&mut key, layout.last(), by.step.memory);
    key
}
