//! Laws of what the commands answer.

ghost use Rattle.std.specs.Prelude.{◌≡◌, ℕ, List, All, Result, Some};
ghost use Rattle.litmus.specs.LitmusTests.{LitmusTest};
ghost use Rattle.litmus_reader.specs.Grammar.{IsTestOf};
ghost use Rattle.litmus_reader.specs.Headings.{HeadingOf};
ghost use Rattle.recorder.specs.Versions.{ScheduleValue};
ghost use Rattle.chart.specs.declared.scenes.Form.{Form as ChartForm};
ghost use Rattle.chart.specs.declared.scenes.Selection.{Selection};
ghost use Rattle.chart.specs.Layout.{FitsColumns, layout, scene_of_run};
ghost use Rattle.chart.specs.Pictures.{IsClear};
ghost use Rattle.engine_support.specs.declared.fault.Refusal.{Refusal};
ghost use Rattle.engine_support.specs.Engines.{Output, AreAlike, AreOneAnswer};
ghost use Rattle.view_engines.specs.Chart.{Drawing, IsChartAnswer, IsChartOf};
ghost use Rattle.view_engines.specs.Show.{IsShowAnswer};
ghost use Rattle.view_engines.specs.declared.showing.Form.{Form};
ghost use Rattle.view_engines.specs.Shrink.{AreOfOneKind, IsShrink, IsShrinkAnswer};

/// Two answers to one input are both schedules, or refusals of one number: a run is refused exactly where
/// its record differs or where it isn't finished. Which of the schedules from which nothing can be left out
/// is written, isn't said. Of a test and a schedule that are read the refusal is one with its place; of a
/// refused litmus text it isn't said on which line its first fault stands. It does nothing.
pub fn shrinks_alike()
    ensures run { (B M : ℕ) (test : LitmusTest) (parsed : ScheduleValue) (a b : Result Output Refusal)
        → IsShrink B M test parsed a → IsShrink B M test parsed b → AreAlike a b }
    ensures inputs { (B M : ℕ) (file schedule : List ℕ) (a b : Result Output Refusal)
        → IsShrinkAnswer B M (Some file) (Some schedule) a → IsShrinkAnswer B M (Some file) (Some schedule) b → AreOfOneKind a b }
{}

/// Two charts of one input are one text, or refusals of one number. Of a refused litmus text it isn't said
/// on which line its first fault stands. It does nothing.
#[tactic(auto, using(crate::proofs::ChartLaws::charts_alike))]
pub fn one_chart()
    ensures { (B M : ℕ) (draws : Drawing) (file schedule : List ℕ) (a b : Result Output Refusal)
        → IsChartAnswer B M draws (Some file) (Some schedule) a → IsChartAnswer B M draws (Some file) (Some schedule) b → AreOneAnswer a b }
{}

/// In the chart of a text's test, of all rows or without some, no text of a row stands on another text or on a
/// line, and no head of a column on another head. It does nothing.
pub fn charts_are_clear()
    ensures { (selection : Selection) (B M : ℕ) (draws : Drawing) (file : List ℕ) (heading : HeadingOf)
        (test : LitmusTest) (parsed : ScheduleValue) (answer : Output) → IsTestOf file test
        → (chart : IsChartOf B M draws heading test parsed answer)
        → All IsClear (layout selection chart.about chart.history.entries).body
        × IsClear (layout selection chart.about chart.history.entries).heads }
{}

/// The charts of two runs of one test, as of a run and of its beginning, have their columns at the same cells,
/// where no row of either takes more than columns have whatever the run. It does nothing.
pub fn columns_stand_still()
    ensures { (s t : Selection) (B M : ℕ) (draws also_draws : Drawing) (heading : HeadingOf) (test : LitmusTest)
        (parsed more : ScheduleValue) (answer other : Output) → (chart : IsChartOf B M draws heading test parsed answer)
        → (next : IsChartOf B M also_draws heading test more other)
        → ((form : ChartForm) → FitsColumns (scene_of_run s chart.about chart.history.entries) form)
        → ((form : ChartForm) → FitsColumns (scene_of_run t next.about next.history.entries) form)
        → (layout s chart.about chart.history.entries).heads ≡ (layout t next.about next.history.entries).heads }
{}

/// Two answers of `show` to one input are one text, or refusals of one number. Of a refused litmus text it isn't
/// said on which line its first fault stands. It does nothing.
pub fn one_show()
    ensures { (form : Form) (file : List ℕ) (a b : Result Output Refusal) → IsShowAnswer form (Some file) a → IsShowAnswer form (Some file) b
        → AreOneAnswer a b }
{}
