//! The runs that a judge judges, which are spread over rounds and jobs.

ghost use Rattle.std.specs.Prelude.{◌≡◌, None};
ghost use Rattle.drawn_runs.specs.Draws.{schedule_by};
ghost use Rattle.judged_runs.specs.Finding.{IsFoundFrom};

use crate::judge::Judge;
use drawn_runs::parallel::Trials;
use drawn_runs::{Draw, Jump, draw_by};
use std::alloc::{AllocError, Global};

/// What is found of runs.
#[derive(Drop)]
pub enum Found<T, F> {
    /// All are good, and count to this.
    Good(T),
    /// The run of this number is the first one that isn't, and has this flaw.
    Flawed { number: u32, flaw: F },
}

/// The runs of a judge, each by `size` events that a generator draws.
#[derive(Drop)]
pub struct JudgedRuns<'a, J, G> {
    pub judge: &'a J,
    pub generator: &'a G,
    pub draw: Draw,
    pub size: u32,
}

/// A job's runs take a bench, a schedule and what they count to, however many they are. None is made after one that has a
/// flaw.
impl<'a, J: Judge + Sync + Drop, G: Jump + Sync + Drop> Trials for JudgedRuns<'a, J, G>
where
    J::Flaw: Send,
    J::Tally: Send,
{
    type Part = Found<J::Tally, J::Flaw>;

    ghost knows = { λ it first end found. IsFoundFrom (J.is_good it.judge.now) (J.has it.judge.now) (J.counts it.judge.now)
        (schedule_by it.draw (J.harts it.judge.now) it.size (G.Rng.stream it.generator.now)) first end found };

    fn none(&self, alloc: Global) -> Result<Found<J::Tally, J::Flaw>, AllocError> {
        Ok(Found::Good(self.judge.none(alloc)?))
    }

    fn make(
        &self,
        alloc: Global,
        first: u32,
        end: u32,
    ) -> Result<Found<J::Tally, J::Flaw>, AllocError> {
        let mut there = self.generator.ahead(u64::from(first), self.size)?;
        let mut bench = self.judge.bench(alloc)?;
        let mut tally = self.judge.none(alloc)?;
        let mut events = Vec::new(alloc);
        let harts = self.judge.harts(&bench);
        for number in first..end {
            draw_by(self.draw, &mut events, &mut there, harts, self.size)?;
            match self.judge.judge(&mut bench, &events)? {
                Some(flaw) => return Ok(Found::Flawed { number, flaw }),
                None => self.judge.add(&bench, &mut tally),
            }
        }
        Ok(Found::Good(tally))
    }

    fn join(
        &self,
        whole: &mut Found<J::Tally, J::Flaw>,
        later: Found<J::Tally, J::Flaw>,
    ) -> Result<(), AllocError> {
        if let Found::Good(tally) = whole {
            match later {
                Found::Good(more) => self.judge.join(tally, more),
                Found::Flawed { number, flaw } => *whole = Found::Flawed { number, flaw },
            }
        }
        Ok(())
    }

    fn is_over(&self, whole: &Found<J::Tally, J::Flaw>) -> bool {
        match whole {
            Found::Good(_) => false,
            Found::Flawed { .. } => true,
        }
    }

    fn outcomes(&self, _whole: &Found<J::Tally, J::Flaw>) -> Option<usize>
        ensures { result ≡ None }
    {
        None
    }
}
