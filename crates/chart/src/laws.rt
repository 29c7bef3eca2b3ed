//! Laws of rows, sources, lanes and texts, which hold of every list of entries.

ghost use Rattle.std.specs.Prelude.{◌≡◌, ◌<◌, ◌≤◌, ◌+◌, ◌^◌, ℕ, All, length, List, Some, map};
ghost use Rattle.memory.specs.Writes.{joined};
ghost use Rattle.step_machine.specs.declared.events.Entry.{Entry};
ghost use Rattle.step_machine.specs.declared.events.Entry.TheVariants as entry;
ghost use Rattle.step_machine.specs.History.{OpeningValue};
ghost use Rattle.step_machine.specs.Entries.{hart_of, read, read_byte, write_of};
ghost use Rattle.step_machine.specs.Legal.{Allowed};
ghost use Rattle.chart.specs.Sources.{byte_from, landed_store, source_of, stored_at};
ghost use Rattle.chart.specs.Rows.{RowOf, rows_of};
ghost use Rattle.chart.specs.declared.lanes.Shape.{Shape};
ghost use Rattle.chart.specs.Lanes.{lanes_of, IsApart};
ghost use Rattle.chart.specs.Pictures.{IsClear};
ghost use Rattle.chart.specs.declared.scenes.Selection.{Selection};
ghost use Rattle.chart.specs.declared.scenes.Form.{Form};
ghost use Rattle.chart.specs.Layout.{AboutOf, FitsColumns, layout, scene_of_run};

/// The laws of rows and sources. A byte that a hart reads after some entries is the one that its source
/// gives, and so the value of a load and the old word of an AMO are what their sources give. A landing
/// writes what its own hart stored in the row that it is joined to. It does nothing.
#[tactic(auto, using(crate::proofs::Given::byte_given, crate::proofs::Given::load_given, crate::proofs::Given::amo_given, crate::proofs::StepLaws::entries_of_rows))]
pub fn laws_of_sources()
    ensures bytes { (o : OpeningValue) (es : List Entry) (h a : ℕ) → read_byte o es h a ≡ byte_from o es h a (source_of es h a) }
    ensures loads { (B : ℕ) (o : OpeningValue) (before : List Entry) (h a width v : ℕ)
        → Allowed B o before (entry.Load h a width v)
        → v ≡ joined (λ i. byte_from o before h (a + i) (source_of before h (a + i))) width }
    ensures amos { (B : ℕ) (o : OpeningValue) (before : List Entry) (h a old new : ℕ)
        → Allowed B o before (entry.Amo h a old new)
        → old ≡ joined (λ i. byte_from o before h (a + i) (source_of before h (a + i))) 4 }
    ensures landings { (B : ℕ) (o : OpeningValue) (before : List Entry) (h : ℕ)
        → Allowed B o before (entry.Land h)
        → (row : ℕ) × (landed_store before (entry.Land h) ≡ Some row)
        × (write_of before (entry.Land h) ≡ stored_at h before row) }
    ensures entries { (es : List Entry) → map (λ r. r.entry) (rows_of es) ≡ es }
{}

/// The law of lanes: no two lines that stand at one row have one lane. It does nothing.
#[tactic(auto, using(crate::proofs::Apart::lanes_apart))]
pub fn laws_of_lanes()
    ensures { (shape : Shape) (rows : List RowOf) → All IsApart (lanes_of shape rows) }
{}

/// The laws of texts: no text of a row stands on another text or on a line, where there are at most 255 harts
/// and the rows' numbers have at most seven digits; and no head of a column stands on another one. It does
/// nothing.
pub fn laws_of_texts()
    ensures rows { (selection : Selection) (about : AboutOf) (es : List Entry) → about.harts ≤ 255
        → All (λ e. hart_of e < about.harts) es → length es < 10 ^ 7 → All IsClear (layout selection about es).body }
    ensures heads { (selection : Selection) (about : AboutOf) (es : List Entry) → about.harts ≤ 255 → IsClear (layout selection about es).heads }
{}

/// The law of columns: the pictures of two runs of one test, as of a run and of its beginning, have their
/// columns at the same cells, where no row of either takes more than columns have whatever the run. It does
/// nothing.
pub fn laws_of_columns()
    ensures heads { (s t : Selection) (a b : AboutOf) (es fs : List Entry) → a.harts ≡ b.harts → a.least ≡ b.least
        → ((form : Form) → FitsColumns (scene_of_run s a es) form)
        → ((form : Form) → FitsColumns (scene_of_run t b fs) form) → (layout s a es).heads ≡ (layout t b fs).heads }
    ensures width { (s t : Selection) (a b : AboutOf) (es fs : List Entry) → a.harts ≡ b.harts → a.least ≡ b.least
        → ((form : Form) → FitsColumns (scene_of_run s a es) form)
        → ((form : Form) → FitsColumns (scene_of_run t b fs) form) → (layout s a es).width ≡ (layout t b fs).width }
{}
