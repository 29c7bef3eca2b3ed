//! Laws of the grammar and of what is written.

ghost use Rattle.std.specs.Prelude.{◌≡◌, ◌≤◌, ◌<◌, ◌↔◌, ◌+◌, ℕ, List, All, Some, length};
ghost use Rattle.std.specs.Result.{IsErr};
ghost use Rattle.step_machine.specs.declared.events.Event.{Event};
ghost use Rattle.recorder.specs.Schedule.{hart_of_event, OfHarts, IsTokensOf};
ghost use Rattle.recorder.specs.Reading.{tokens_at, tokens_after};
ghost use Rattle.texts.specs.Cutting.{tokens};
ghost use Rattle.texts.specs.Rows.{rows_at};
ghost use Rattle.texts.specs.Runs.{repetitions_of, expanded, AreLongest};
ghost use Rattle.step_machine.specs.History.{OpeningValue, History};
ghost use Rattle.step_machine.specs.Runs.{Run};
ghost use Rattle.recorder.specs.Replaying.{IsRunRecord, DiffersAt};
ghost use Rattle.recorder.specs.Writing.{is_same, schedule_tokens};
ghost use Rattle.recorder.specs.Outcomes.{outcome_rows, outcome_text, event_outcome, SaysOutcome, IsOutcomeOf, OutcomeHasWords};
ghost use Rattle.recorder.specs.Records.{Step, events_in, IsRecordOf, record_at, is_same_step, CanBeWritten};
ghost use Rattle.recorder.specs.Versions.{ScheduleValue, SaysSchedule, schedule_at};
ghost use Rattle.recorder.specs.declared.reading.TheConstants.{MAX_EVENTS};
ghost use Rattle.step_machine.specs.declared.opening.TheConstants.{MAX_HARTS};
ghost use Rattle.step_machine.specs.declared.events.Outcome.{Outcome};

/// A text's tokens stand for one list of events at most, and a schedule says one thing at most. It does
/// nothing.
#[tactic(auto, using(crate::proofs::TextLaws::one_list, crate::proofs::HeadLaws::one_schedule_value))]
pub fn one_value()
    ensures tokens { (text : List ℕ) → (a b : List Event) → IsTokensOf text a → IsTokensOf text b → a ≡ b }
    ensures schedules { (text : List ℕ) → (a b : ScheduleValue) → SaysSchedule text a → SaysSchedule text b → a ≡ b }
{}

/// Reading a text from the left names a fault exactly where its tokens stand for no events, or where it
/// is no schedule or no record; after other events, where there is no room for those that it stands for. It does
/// nothing.
#[tactic(auto, using(crate::proofs::HeadLaws::refused_tokens, crate::proofs::HeadLaws::refused_further, crate::proofs::HeadLaws::refused_schedule))]
pub fn refused_without_value()
    ensures tokens { (text : List ℕ) → IsErr (tokens_at MAX_EVENTS text) ↔ ((events : List Event) → ¬ IsTokensOf text events) }
    ensures further { (before : ℕ) (text : List ℕ) → before ≤ MAX_EVENTS → IsErr (tokens_after before text) ↔
        ((events : List Event) → IsTokensOf text events → ¬ (before + length events ≤ MAX_EVENTS)) }
    ensures schedules { (text : List ℕ) → IsErr (schedule_at text) ↔ ((parsed : ScheduleValue) → ¬ SaysSchedule text parsed) }
    ensures records { (text : List ℕ) → IsErr (record_at text) ↔ ((steps : List Step) → ¬ IsRecordOf text steps) }
{}

/// The runs that are written for some events are those events, and no two of them could be one; there
/// is one such list of runs only. The same holds of a record's runs, of events with their outcomes. It does
/// nothing.
pub fn longest_runs()
    ensures same { (events : List Event) → expanded (repetitions_of is_same events) ≡ events }
    ensures longest { (events : List Event) → AreLongest (repetitions_of is_same events) }
    ensures one { (runs : List (Event × ℕ)) → AreLongest runs → repetitions_of is_same (expanded runs) ≡ runs }
    ensures record_same { (steps : List Step) → expanded (repetitions_of is_same_step steps) ≡ steps }
    ensures record_longest { (steps : List Step) → AreLongest (repetitions_of is_same_step steps) }
    ensures record_one { (runs : List (Step × ℕ)) → AreLongest runs → repetitions_of is_same_step (expanded runs) ≡ runs }
{}

/// The tokens that are written for some events stand for these events. It does nothing.
#[tactic(auto, using(crate::proofs::RoundTrip::tokens_alone))]
pub fn tokens_are_read_again()
    ensures { (events : List Event) → OfHarts events → length events ≤ MAX_EVENTS → IsTokensOf (schedule_tokens events) events }
{}

/// The text of an outcome that an event can have, and which speaks of the event's hart, of widths 1, 2 and
/// 4 and of words, says this outcome; words are read as an outcome exactly where they say it. It does
/// nothing.
pub fn outcomes_are_read_again()
    ensures again { (event : Event) (outcome : Outcome) → hart_of_event event < MAX_HARTS → IsOutcomeOf event outcome
        → OutcomeHasWords outcome → SaysOutcome event (tokens (outcome_text (hart_of_event event) outcome)) outcome }
    ensures read { (event : Event) (words : List (List ℕ)) (outcome : Outcome)
        → SaysOutcome event words outcome ↔ (event_outcome event (rows_at outcome_rows words) ≡ Some outcome) }
{}

/// A record of a run is the run of its events, and no check of it finds another outcome. It does nothing.
pub fn records_are_runs()
    ensures runs { (B M : ℕ) (o : OpeningValue) (steps : List Step) (history : History)
        → IsRunRecord B M o steps history → Run B M o (events_in steps) history }
    ensures no_other { (B M : ℕ) (o : OpeningValue) (steps : List Step) (history : History) (place : ℕ)
        → IsRunRecord B M o steps history → ¬ DiffersAt B M o steps place }
{}

/// The steps of a record's text can be written, and so can those of a run's record, where its events are of
/// harts below 64: [`crate::write_record`] then writes a record of them. It does nothing.
pub fn records_can_be_written()
    ensures texts { (text : List ℕ) (steps : List Step) → IsRecordOf text steps → All CanBeWritten steps }
    ensures few { (text : List ℕ) (steps : List Step) → IsRecordOf text steps → length steps ≤ MAX_EVENTS }
    ensures runs { (B M : ℕ) (o : OpeningValue) (steps : List Step) (history : History)
        → IsRunRecord B M o steps history → OfHarts (events_in steps) → All CanBeWritten steps }
{}
