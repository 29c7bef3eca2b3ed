//! The texts of rows.

ghost use Rattle.std.specs.Prelude.{◌≡◌, map, IfOk};
ghost use Rattle.std.specs.String.{string_bytes};
ghost use Rattle.step_machine.specs.Entries.{hart_of};
ghost use Rattle.chart.specs.Sayings.{effect_text, memory_text};
ghost use Rattle.chart.specs.Scenes.{text_of_row, row_texts as texts_of_rows};

use crate::rows::Row;
use crate::saying::{push_effect, push_memory};
use crate::tags::tag_text;
use std::alloc::{AllocError, Global};
use std::marker::Model;
use step_machine::Entry;

/// The texts of a row: what its hart did, where what it read came from, and what it leaves in memory.
#[derive(Drop)]
pub struct RowText {
    pub hart: u32,
    pub effect: String,
    pub tag: String,
    pub memory: String,
}

impl Model for RowText {
    ghost use Rattle.std.specs.String.{string_bytes};
    ghost use Rattle.chart.specs.Scenes.{RowTextOf};

    ghost Value = { RowTextOf };

    ghost view = { λ t. record { hart = t.hart; effect = string_bytes t.effect; tag = string_bytes t.tag; memory = string_bytes t.memory } };
}

fn effect_of(alloc: Global, names: &[String], entry: Entry) -> Result<String, AllocError>
    ensures { IfOk result (λ text. string_bytes text ≡ effect_text (map string_bytes names.now) entry) }
{
    let mut text = String::new(alloc);
    push_effect(&mut text, names, entry)?;
    Ok(text)
}

fn memory_of(
    alloc: Global,
    names: &[String],
    entries: &[Entry],
    landed: Option<usize>,
    entry: Entry,
) -> Result<String, AllocError>
    ensures { IfOk result (λ text. string_bytes text ≡ memory_text (map string_bytes names.now) entries.now landed entry) }
{
    let mut text = String::new(alloc);
    push_memory(&mut text, names, entries, landed, entry)?;
    Ok(text)
}

/// The texts of one row. `entries` are all of the run, among which a landing finds its store.
pub(crate) fn row_text(
    alloc: Global,
    names: &[String],
    entries: &[Entry],
    row: &Row,
) -> Result<RowText, AllocError>
    ensures { IfOk result (λ text. text ≡ text_of_row (map string_bytes names.now) entries.now row.now) }
{
    let hart = row.entry.hart();
    let effect = effect_of(alloc, names, row.entry)?;
    let tag = tag_text(alloc, &row.sources)?;
    let memory = memory_of(alloc, names, entries, row.landed, row.entry)?;
    Ok(RowText {
        hart,
        effect,
        tag,
        memory,
    })
}

/// The texts of the rows of these entries, with the names of the locations in the order of their words.
pub fn row_texts(
    alloc: Global,
    names: &[String],
    entries: &[Entry],
    rows: &[Row],
) -> Result<Vec<RowText>, AllocError>
    ensures { IfOk result (λ texts. texts.items ≡ texts_of_rows (map string_bytes names.now) entries.now rows.now) }
{
    let mut texts = Vec::new(alloc);
    for row in rows {
        texts.push(row_text(alloc, names, entries, row)?)?;
    }
    Ok(texts)
}
