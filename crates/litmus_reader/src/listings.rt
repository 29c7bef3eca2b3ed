//! Where a test's code stands in its text.

ghost use Rattle.std.specs.Prelude.{◌≡◌, ◌≢◌, ◌≤◌, ◌<◌, ◌+◌, ◌-◌, ◌^◌, ◌++◌, [], length, take, drop, map, IfOk, OnOk};
ghost use Rattle.std.specs.Option.{option_copied};
ghost use Rattle.std.specs.Result.{IfErr};
ghost use Rattle.texts.specs.Results.{GivesUpToMemory};
ghost use Rattle.texts.specs.Pieces.{pieces};
ghost use Rattle.texts.specs.declared.errors.TextError.TheVariants.{NoMemory};
ghost use Rattle.texts.specs.declared.pieces.Separators.TheVariants.{Byte};
ghost use Rattle.assembler.specs.Drafts.{drafted};
ghost use Rattle.litmus.specs.LitmusTests.{LitmusTest};
ghost use Rattle.litmus_reader.specs.Faults.{fault_of, fault_in};
ghost use Rattle.litmus_reader.specs.Grammar.{IsTestOf};
ghost use Rattle.litmus_reader.specs.Rows.{cells_of, row_in};
ghost use Rattle.litmus_reader.specs.Listings.{after_items as items_end, cell_of, ends_in as line_ends};
ghost use Rattle.litmus_reader.specs.Listings.{listing_at, listing_in as rows_in, row_on, table_rows, rows_from};
ghost use Rattle.litmus_reader.specs.Listings.{words_made};

use crate::faults::{LitmusError, LitmusFault};
use crate::header::{after_brace, after_header};
use crate::marks::{Mark, cut_at_line};
use crate::refusals::{Refusal, error_of, lines_in};
use crate::rows::{indent, row_in};
use assembler::{AsmError, Draft, parts};
use litmus_tokens::cleaned;
use std::alloc::{AllocError, Global};
use std::marker::Model;
use texts::Separators;
use texts::cutting::{cut_at, without_front};
use texts::pieces::first_piece;

/// What a cell adds to its hart's code. A cell that is empty or names a hart adds nothing.
#[derive(Drop)]
pub struct ListedCell {
    /// The name of the label that it defines, without the colon.
    pub label: Option<Vec<u8>>,
    /// How many words its statement makes.
    pub words: usize,
}

impl Model for ListedCell {
    ghost use Rattle.std.specs.Prelude.{option_map};
    ghost use Rattle.std.specs.Global.{Vec};
    ghost use Rattle.std.specs.Prelude.{ℕ};
    ghost use Rattle.litmus_reader.specs.Listings.{CellOf};

    ghost Value = { CellOf };

    ghost view = { λ cell. record { label = option_map (λ (name : Vec ℕ). name.items) cell.label; words = cell.words } };
}

/// A row of the table, which no blank line is. In a test each row has a cell for each hart, and the first row
/// names them.
#[derive(Drop)]
pub struct ListedRow {
    /// The line of the text on which it stands, counted from 1.
    pub line: usize,
    pub cells: Vec<ListedCell>,
}

impl Model for ListedRow {
    ghost use Rattle.litmus_reader.specs.Listings.{ListedRowOf};

    ghost Value = { ListedRowOf };

    ghost view = { λ row. record { line = row.line; cells = row.cells.items } };
}

fn front(text: &[u8], bytes: usize) -> &[u8]
    ensures { result.now ≡ take bytes text.now }
{
    if bytes < text.len() {
        &text[..bytes]
    } else {
        text
    }
}

fn following(text: &[u8], bytes: usize) -> &[u8]
    ensures { result.now ≡ drop bytes text.now }
{
    if bytes < text.len() {
        &text[bytes..]
    } else {
        &text[text.len()..]
    }
}

/// How many lines end in a text's first bytes.
fn ends_in(text: &[u8], bytes: usize) -> usize
    ensures count { result ≡ line_ends bytes text.now }
    ensures few { result ≤ bytes }
    ensures within { result ≤ length text.now }
{
    lines_in(front(text, bytes))
}

/// How many words the statement in a cell makes: none where it is refused or missing.
fn words_in(alloc: Global, cell: &[u8]) -> Result<usize, AllocError>
    ensures { IfOk result (λ words. words ≡ words_made (drafted [] cell.now)) }
{
    let mut draft = Draft::new(alloc);
    match draft.read(cell) {
        Ok(()) => Ok(draft.words()),
        Err(AsmError::NoMemory) => Err(AllocError),
        Err(AsmError::Refused(_)) => Ok(0),
    }
}

fn listed_cell(alloc: Global, cell: &[u8]) -> Result<ListedCell, AllocError>
    ensures { IfOk result (λ listed. listed ≡ cell_of cell.now) }
{
    let label = match parts(cell).label {
        Some(name) => Some(Vec::from_slice(alloc, name)?),
        None => None,
    };
    let words = words_in(alloc, cell)?;
    Ok(ListedCell { label, words })
}

fn listed_cells(alloc: Global, row: &[u8]) -> Result<Vec<ListedCell>, AllocError>
    ensures { IfOk result (λ cells. cells.items ≡ map cell_of (cells_of row.now)) }
{
    let mut cells = Vec::new(alloc);
    let mut rest = Some(row);
    while let Some(bytes) = rest {
        let (cell, after) = first_piece(Separators::Byte(b'|'), bytes);
        cells.push(listed_cell(alloc, cell)?)?;
        rest = after;
    }
    Ok(cells)
}

/// Adds the row that a line of the table is, if it is one.
fn add_row(
    alloc: Global,
    rows: &mut Vec<ListedRow>,
    line: usize,
    table_line: &[u8],
) -> Result<(), AllocError>
    ensures { OnOk result (rows.new.items ≡ rows.old.items ++ row_on line (row_in table_line.now)) }
{
    match row_in(table_line) {
        None => Ok(()),
        Some(row) => {
            let cells = listed_cells(alloc, row)?;
            rows.push(ListedRow { line, cells })?;
            Ok(())
        }
    }
}

/// The rows of a table that begins after this number of line ends in a text, which goes on like this.
fn rows_from(
    alloc: Global,
    above: usize,
    text: &[u8],
    table: &[u8],
) -> Result<Vec<ListedRow>, AllocError>
    requires { above + length table.now < 2 ^ 64 - 1 }
    ensures { IfOk result (λ rows. rows.items ≡ rows_from above text.now (pieces (Byte 10) table.now)) }
{
    let mut rows = Vec::new(alloc);
    let mut ended = above;
    let mut original = text;
    let mut rest = Some(table);
    while let Some(bytes) = rest {
        let (row, after) = first_piece(Separators::Byte(b'\n'), bytes);
        let line = ended + ends_in(original, indent(row)) + 1;
        add_row(alloc, &mut rows, line, row)?;
        ended += ends_in(original, row.len()) + 1;
        original = following(original, row.len() + 1);
        rest = after;
    }
    Ok(rows)
}

/// The rows of a table that begins after this number of bytes of a text.
fn rows_at(
    alloc: Global,
    text: &[u8],
    bytes: usize,
    table: &[u8],
) -> Result<Vec<ListedRow>, AllocError>
    ensures { IfOk result (λ rows. rows.items ≡ table_rows text.now bytes table.now) }
{
    rows_from(alloc, ends_in(text, bytes), following(text, bytes), table)
}

/// What stands after the init part.
#[tactic(auto, unfolding(crate::specs::Listings::after_items))]
fn after_items(text: &[u8]) -> Result<&[u8], Refusal>
    ensures { GivesUpToMemory fault_in (λ rest. rest.now) result (items_end text.now) }
{
    let inner = after_brace(after_header(text)?)?;
    match cut_at(inner, b'}').1 {
        Some(rest) => Ok(rest),
        None => Err(LitmusFault::BadInit.at_end()),
    }
}

/// The rows in a text, of which this is the text without comments.
#[tactic(auto, unfolding(crate::specs::Listings::listing_in))]
fn listing_in(alloc: Global, text: &[u8], clean: &[u8]) -> Result<Vec<ListedRow>, Refusal>
    ensures { GivesUpToMemory fault_in (λ rows. rows.items) result (rows_in text.now clean.now) }
{
    let rest = after_items(clean)?;
    let table = cut_at_line(Mark::Condition, rest).0;
    let bytes = clean.len().saturating_sub(rest.len());
    Ok(rows_at(alloc, text, bytes, table)?)
}

#[tactic(auto, unfolding(crate::specs::Listings::listing_at))]
fn cleaned_listing(alloc: Global, text: &[u8]) -> Result<Vec<ListedRow>, LitmusError>
    ensures { GivesUpToMemory fault_of (λ rows. rows.items) result (listing_at text.now) }
{
    let clean = cleaned(alloc, text)?;
    match listing_in(alloc, text, &clean) {
        Ok(rows) => Ok(rows),
        Err(refusal) => Err(error_of(refusal, text)),
    }
}

/// The rows of a litmus text's table, the row that names the harts first. Each text that [`crate::read`] accepts has
/// them; of its parts no more is read than where the table stands, and what each cell defines and makes.
///
/// The fault is `NoHeader` where there is no header line, and `BadInit` where a brace is missing. A text that
/// stands for a test has no such fault.
pub fn read_listing(alloc: Global, text: &str) -> Result<Vec<ListedRow>, LitmusError>
    ensures exact { GivesUpToMemory fault_of (λ rows. rows.items) result (listing_at text.now) }
    ensures tests { (test : LitmusTest) → IsTestOf text.now test → IfErr result (λ error. error ≡ NoMemory) }
{
    cleaned_listing(alloc, text.as_bytes())
}
