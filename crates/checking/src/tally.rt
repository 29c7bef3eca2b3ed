//! What is kept of the texts that were judged.

ghost use Rattle.std.specs.Prelude.{◌≡◌, ◌<◌, ℕ, List, [], IfSome, OnErr, OnOk};
ghost use Rattle.engine_support.specs.Counting.{counted, Counts};
ghost use Rattle.checking.specs.Outcomes.{record_end};
ghost use Rattle.checking.specs.inner.{CountsAlike, HasRoomForText, IsTallyOfTexts, first_name, judged_by, TalliesText};

use crate::judging::Judgement;
use engine_support::outcomes::{FirstRun, Outcomes};
use std::alloc::{AllocError, Global};
use std::io::{self, Write};

/// The first record whose run gave an outcome.
#[derive(Drop)]
pub struct FirstRecord {
    /// Counted from 1.
    pub number: u64,
}

impl FirstRun for FirstRecord {
    ghost name = { first_name };

    fn write_name<W: Write>(self, writer: &mut W) -> io::Result<()> {
        write!(writer, " record {}", self.number)
    }
}

/// The outcomes of the runs, and how many texts were judged, of how many runs that did not finish, and how many
/// were refused.
#[derive(Drop)]
pub struct Tally {
    pub outcomes: Outcomes<FirstRecord>,
    pub judged: u64,
    pub unfinished: u64,
    pub refused: u64,
}

/// Counts one more run with this outcome, of the record of this number.
fn count_outcome(
    alloc: Global,
    outcomes: &mut Outcomes<FirstRecord>,
    outcome: &[u32],
    number: u64,
) -> Result<(), AllocError>
    requires { IfSome (counted first_name outcomes.old outcome.now) (λ seen. seen.0 < 18446744073709551615) }
    ensures counts { OnOk result (Counts outcome.now (1, record_end number) (counted first_name outcomes.old) (counted first_name outcomes.new)) }
    ensures err { OnErr result ((other : List ℕ) → counted first_name outcomes.new other ≡ counted first_name outcomes.old other) }
{
    if outcomes.count_again(outcome) {
        return Ok(());
    }
    let outcome = Vec::from_slice(alloc, outcome)?;
    outcomes.count_first(outcome, FirstRecord { number })
}

impl Tally {
    /// Of no text.
    pub fn new(alloc: Global) -> Tally
        ensures { IsTallyOfTexts [] result }
    {
        Tally {
            outcomes: Outcomes::new(alloc),
            judged: 0,
            unfinished: 0,
            refused: 0,
        }
    }

    /// Takes in one more text, with this judgement and these last values.
    pub fn add(
        &mut self,
        alloc: Global,
        judgement: Judgement,
        values: &[u32],
    ) -> Result<(), AllocError>
        requires { HasRoomForText self.old }
        ensures tallies { OnOk result (TalliesText (judged_by judgement values.now) self.old self.new) }
        ensures err { OnErr result (CountsAlike self.old self.new) }
    {
        let number = self.judged + 1;
        match judgement {
            Judgement::Finished => count_outcome(alloc, &mut self.outcomes, values, number)?,
            Judgement::Unfinished => self.unfinished += 1,
            Judgement::Differs(_) | Judgement::NoRecord(_) => self.refused += 1,
        }
        self.judged = number;
        Ok(())
    }
}
