//! Makes the answer of many runs.

ghost use Rattle.std.specs.Prelude.{IfOk};
ghost use Rattle.drawn_runs.specs.Draws.{schedule_by};
ghost use Rattle.judged_runs.specs.Finding.{IsFoundFrom};
ghost use Rattle.judged_runs.specs.Telling.{ShowsFlaw, IsShownFlaw, IsTold};

use crate::finding::{Found, JudgedRuns};
use crate::judge::Judge;
use drawn_runs::{Jump, draw_by};
use shrink::{Question, leave_out};
use std::alloc::{AllocError, Global};
use step_machine::Event;

/// The answer of many runs.
#[derive(Drop)]
pub enum Told<T, F> {
    /// All are good, and count to this.
    Good(T),
    /// A part of the events of the first one that isn't, and the flaw of the part's run.
    Flawed { part: Vec<Event>, flaw: F },
}

/// The question whether the run of a list of events shows this flaw.
#[derive(Drop)]
struct StillFlawed<'a, J: Judge> {
    judge: &'a J,
    flaw: J::Flaw,
}

impl<'a, J: Judge> Question for StillFlawed<'a, J> {
    type Bench = J::Bench;

    ghost stands = { λ it bench. J.stands it.judge.now bench };

    ghost holds = { λ it events. ShowsFlaw (J.has it.judge.now) (J.alike it.judge.now) it.flaw events };

    fn holds_of(
        &self,
        _alloc: Global,
        bench: &mut J::Bench,
        events: &[Event],
    ) -> Result<bool, AllocError> {
        match self.judge.judge(bench, events)? {
            Some(other) => Ok(self.judge.is_alike(self.flaw, other)),
            None => Ok(false),
        }
    }
}

/// The run of this number, which has this flaw, made short: its schedule is drawn anew.
fn shown<J: Judge, G: Jump + Drop>(
    alloc: Global,
    runs: &JudgedRuns<'_, J, G>,
    number: u32,
    flaw: J::Flaw,
) -> Result<(Vec<Event>, J::Flaw), AllocError>
    requires { J.has runs.now.judge.now
        (schedule_by runs.now.draw (J.harts runs.now.judge.now) runs.now.size (G.Rng.stream runs.now.generator.now) number) flaw }
    ensures { IfOk result (λ shown. IsShownFlaw (J.has runs.now.judge.now) (J.alike runs.now.judge.now) flaw
        (schedule_by runs.now.draw (J.harts runs.now.judge.now) runs.now.size (G.Rng.stream runs.now.generator.now) number) shown.0.items shown.1) }
{
    let judge = runs.judge;
    let mut there = runs.generator.ahead(u64::from(number), runs.size)?;
    let mut bench = judge.bench(alloc)?;
    let mut events = Vec::new(alloc);
    let harts = judge.harts(&bench);
    draw_by(runs.draw, &mut events, &mut there, harts, runs.size)?;
    let question = StillFlawed { judge, flaw };
    leave_out(alloc, &question, &mut bench, &mut events)?;
    match judge.judge(&mut bench, &events)? {
        Some(last) => Ok((events, last)),
        None => unreachable!(),
    }
}

/// The answer of `number` runs, of which this was found.
///
/// If all are good, that is what they count to. Otherwise it is a part of the events of the first run with a flaw, from which
/// events were left out until none could go, and the flaw that the part's run has.
pub fn told_of_runs<J: Judge, G: Jump + Drop>(
    alloc: Global,
    runs: &JudgedRuns<'_, J, G>,
    number: u32,
    found: Found<J::Tally, J::Flaw>,
) -> Result<Told<J::Tally, J::Flaw>, AllocError>
    requires { IsFoundFrom (J.is_good runs.now.judge.now) (J.has runs.now.judge.now) (J.counts runs.now.judge.now)
        (schedule_by runs.now.draw (J.harts runs.now.judge.now) runs.now.size (G.Rng.stream runs.now.generator.now)) 0 number found }
    ensures { IfOk result (λ told. IsTold (J.is_good runs.now.judge.now) (J.has runs.now.judge.now) (J.alike runs.now.judge.now)
        (J.counts runs.now.judge.now)
        (schedule_by runs.now.draw (J.harts runs.now.judge.now) runs.now.size (G.Rng.stream runs.now.generator.now)) number told) }
{
    match found {
        Found::Good(tally) => Ok(Told::Good(tally)),
        Found::Flawed { number, flaw } => {
            let (part, flaw) = shown(alloc, runs, number, flaw)?;
            Ok(Told::Flawed { part, flaw })
        }
    }
}
