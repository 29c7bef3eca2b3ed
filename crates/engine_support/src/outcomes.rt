//! The outcomes of a test's runs, and the lines of their table.

ghost use Rattle.std.specs.Prelude.{◌≡◌, ◌⊎◌, ◌+◌, ◌<◌, ℕ, List, None, false, length, zip, IfSome, IsTrue, OnErr, OnOk};
ghost use Rattle.std.specs.List.{flat_map};
ghost use Rattle.std.specs.Io.KnownBytes.{Appends};
ghost use Rattle.litmus.specs.LitmusTests.{IsThere, left_sides};
ghost use Rattle.engine_support.specs.Outcomes.{line_of, value_text};
ghost use Rattle.engine_support.specs.Counting.{AreCountedLines, counted, counted_both, counted_by, counted_of, Counts, rows_in};
ghost use Rattle.engine_support.specs.inner.{lines_in};

use crate::places::write_place;
use litmus::{Place, Test};
use std::alloc::{AllocError, Global};
use std::collections::BTreeMap;
use std::io::{self, Write};

/// What is kept of an outcome's first run, so that it can be named.
pub trait FirstRun: Drop + Sized {
    ghost use Rattle.std.specs.Prelude.{ℕ, List, OnOk};
    ghost use Rattle.std.specs.Io.KnownBytes.{Appends};

    /// What the outcome's row ends with, after its semicolon.
    ghost name: { Self → List ℕ };

    /// Writes it.
    fn write_name<W: Write>(self, writer: &mut W) -> io::Result<()>
        ensures { OnOk result (Appends (W.contents writer.old) (W.contents writer.new) (name self)) };
}

/// What is kept of the runs with one outcome.
#[derive(Drop)]
struct Row<F> {
    /// How many they are.
    count: u64,
    /// The first of them.
    first: F,
}

/// The outcomes of some runs: how many runs gave each, and which was the first.
#[derive(Drop)]
pub struct Outcomes<F> {
    rows: BTreeMap<Vec<u32>, Row<F>>,
}

/// Counts the runs of a later row too, after those that are counted for this outcome.
fn count_row<F: FirstRun>(
    rows: &mut BTreeMap<Vec<u32>, Row<F>>,
    outcome: Vec<u32>,
    later: Row<F>,
) -> Result<(), AllocError>
    requires { IfSome (counted_of F.name rows.old.entries outcome.items) (λ seen. seen.0 + later.count < 18446744073709551616) }
    ensures counts { OnOk result
        (Counts outcome.items (counted_by F.name later) (counted_of F.name rows.old.entries) (counted_of F.name rows.new.entries)) }
    ensures err { OnErr result (rows.new.entries ≡ rows.old.entries) }
{
    match rows.get_mut(outcome.as_slice()) {
        Some(row) => row.count += later.count,
        None => {
            rows.insert(outcome, later)?;
        }
    }
    Ok(())
}

fn write_value<W: Write>(writer: &mut W, test: &Test, place: Place, value: u32) -> io::Result<()>
    requires { IsThere (length test.now.opening.harts) (length test.now.names) place }
    ensures { OnOk result (Appends (W.contents writer.old) (W.contents writer.new) (value_text test.now.names (place, value))) }
{
    writer.write_all(b" ")?;
    write_place(writer, test, place)?;
    write!(writer, "={value}")
}

/// Writes the observed locations with these values.
fn write_values<W: Write>(writer: &mut W, test: &Test, values: &[u32]) -> io::Result<()>
    ensures { OnOk result (Appends (W.contents writer.old) (W.contents writer.new)
        (flat_map (value_text test.now.names) (zip (left_sides test.now.condition) values.now))) }
{
    for (place, value) in test.lefts().iter().zip(values) {
        write_value(writer, test, *place, *value)?;
    }
    Ok(())
}

fn write_row<F: FirstRun, W: Write>(
    writer: &mut W,
    test: &Test,
    outcome: &[u32],
    row: Row<F>,
) -> io::Result<()>
    ensures { OnOk result (Appends (W.contents writer.old) (W.contents writer.new) (line_of test.now outcome.now row.count (F.name row.first))) }
{
    write!(writer, "{}", row.count)?;
    write_values(writer, test, outcome)?;
    writer.write_all(b" ;")?;
    row.first.write_name(writer)?;
    writer.write_all(b"\n")
}

impl<F: FirstRun> Outcomes<F> {
    /// Of no run.
    pub fn new(alloc: Global) -> Outcomes<F>
        ensures { (outcome : List ℕ) → counted F.name result outcome ≡ None }
    {
        Outcomes {
            rows: BTreeMap::new(alloc),
        }
    }

    /// How many outcomes there are.
    pub fn len(&self) -> usize
        ensures { result ≡ rows_in self.now }
    {
        self.rows.len()
    }

    /// Counts one more run with this outcome where a run with it was counted already, and answers whether one
    /// was.
    pub fn count_again(&mut self, outcome: &[u32]) -> bool
        requires { IfSome (counted F.name self.old outcome.now) (λ seen. seen.0 < 18446744073709551615) }
        ensures again { IsTrue result → (name : List ℕ) → Counts outcome.now (1, name) (counted F.name self.old) (counted F.name self.new) }
        ensures none { result ≡ false → counted F.name self.old outcome.now ≡ None }
        ensures same { result ≡ false → self.new ≡ self.old }
    {
        match self.rows.get_mut(outcome) {
            Some(row) => {
                row.count += 1;
                true
            }
            None => false,
        }
    }

    /// Counts the first run with this outcome.
    pub fn count_first(&mut self, outcome: Vec<u32>, first: F) -> Result<(), AllocError>
        requires { counted F.name self.old outcome.items ≡ None }
        ensures counts { OnOk result (Counts outcome.items (1, F.name first) (counted F.name self.old) (counted F.name self.new)) }
        ensures err { OnErr result ((other : List ℕ) → counted F.name self.new other ≡ counted F.name self.old other) }
    {
        count_row(&mut self.rows, outcome, Row { count: 1, first })
    }

    /// Counts the runs of later outcomes, after its own. At an error those of some outcomes are counted, and those of
    /// the others aren't.
    pub fn take_in(&mut self, later: Outcomes<F>) -> Result<(), AllocError>
        requires { (outcome : List ℕ) → IfSome (counted_both (counted F.name self.old outcome) (counted F.name later outcome))
            (λ seen. seen.0 < 18446744073709551616) }
        ensures counts { OnOk result ((outcome : List ℕ) → counted F.name self.new outcome
            ≡ counted_both (counted F.name self.old outcome) (counted F.name later outcome)) }
        ensures err { OnErr result ((outcome : List ℕ) → (counted F.name self.new outcome ≡ counted F.name self.old outcome)
            ⊎ (counted F.name self.new outcome ≡ counted_both (counted F.name self.old outcome) (counted F.name later outcome))) }
    {
        for (outcome, row) in later.rows {
            count_row(&mut self.rows, outcome, row)?;
        }
        Ok(())
    }

    /// Writes a line for each outcome, ascending by the values: how many runs gave it, the values of the condition's
    /// observed locations, and what names the first of them. The lines are made as they are written, which takes no memory: a
    /// location's name may be long, and stands in each of them.
    pub fn write_lines<W: Write>(self, writer: &mut W, test: &Test) -> io::Result<()>
        ensures { OnOk result (Appends (W.contents writer.old) (W.contents writer.new) (lines_in F.name test.now self)) }
    {
        for (outcome, row) in self.rows {
            write_row(writer, test, &outcome, row)?;
        }
        Ok(())
    }

    /// What is written is a line for each outcome of which something is counted. It does nothing.
    pub fn has_lines(&self, test: &Test)
        ensures { AreCountedLines test.now (counted F.name self.now) (lines_in F.name test.now self.now) }
    {
        let _rows = self.rows.iter();
    }
}
