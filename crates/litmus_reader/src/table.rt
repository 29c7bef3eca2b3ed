//! The table: a column of assembly for each hart.

ghost use Rattle.std.specs.Prelude.{◌≡◌, ◌^◌, ◌<◌, ◌≤◌, List, [], length, map, replicate, All, IfOk};
ghost use Rattle.std.specs.Option.{option_copied};
ghost use Rattle.texts.specs.Results.{GivesUpToMemory};
ghost use Rattle.litmus_reader.specs.Faults.{fault_in};
ghost use Rattle.texts.specs.Pieces.{pieces_after};
ghost use Rattle.litmus_reader.specs.Rows.{cells_of};
ghost use Rattle.litmus_reader.specs.Lines.{earlier, left_at_row};
ghost use Rattle.litmus_reader.specs.Table.{Column, cell_added, cells_added, line_added, lines_added, table_at, codes_of, instructions, ArePlain, AreShort};
ghost use Rattle.texts.specs.declared.pieces.Separators.TheVariants.{Byte};
ghost use Rattle.step_machine.specs.declared.opening.TheConstants.{MAX_HARTS};

use crate::faults::LitmusFault;
use crate::marks::{Mark, cut_at_line};
use crate::refusals::{Refusal, left_of};
use crate::rows::{count_cells, harts_in, indent, is_blank_line, row_in};
use assembler::{AsmError, Draft};
use rv_decode::instruction::MAX_CODE;
use std::alloc::{AllocError, Global};
use std::marker::Model;
use texts::cutting::cut_at;
use texts::{Separators, first_piece};

/// The harts' columns so far, each a text of one line for a row. Where its functions take `left`, that is how many
/// bytes of the litmus text are left from the row's first byte on that is no blank: a fault is named with it.
#[derive(Drop)]
pub struct Table {
    columns: Vec<Draft>,
}

impl Model for Table {
    ghost Value = { List Column };

    ghost view = { λ table. table.columns.items };
}

/// Adds a cell to a hart's column. It may have no statement.
#[tactic(auto, unfolding(crate::specs::Table::cell_added))]
fn tell(column: &mut Draft, cell: &[u8], left: usize) -> Result<(), Refusal>
    ensures { GivesUpToMemory fault_in (λ _. column.new) result (cell_added column.old cell.now) }
{
    match column.read(cell) {
        Ok(()) => {}
        Err(AsmError::NoMemory) => return Err(Refusal::NoMemory),
        Err(AsmError::Refused(_)) => return Err(LitmusFault::BadInstr.at(left)),
    }
    if column.words() > MAX_CODE {
        return Err(LitmusFault::TooMany.at(left));
    }
    Ok(())
}

/// Words have 32 bits, as their type says. It does nothing.
fn have_32_bits(words: &[u32])
    ensures { All (λ word. word < 2 ^ 32) words.now }
{}

impl Table {
    /// A table of `harts` harts and no row yet.
    fn new(alloc: Global, harts: usize) -> Result<Table, AllocError>
        ensures { IfOk result (λ table. table ≡ replicate harts []) }
    {
        let mut columns = Vec::new(alloc);
        for _ in 0..harts {
            columns.push(Draft::new(alloc))?;
        }
        Ok(Table { columns })
    }

    /// Adds the row's cells to the harts' columns, from the left.
    fn tell_cells(&mut self, row: &[u8], left: usize) -> Result<(), Refusal>
        requires { length (cells_of row.now) ≡ length self.old }
        ensures exact { GivesUpToMemory fault_in (λ _. self.new) result (cells_added self.old (cells_of row.now)) }
        ensures same { length self.new ≡ length self.old }
    {
        let mut hart = 0;
        let mut rest = Some(row);
        while let Some(bytes) = rest {
            let (cell, after) = first_piece(Separators::Byte(b'|'), bytes);
            tell(&mut self.columns[hart], cell, left)?;
            hart += 1;
            rest = after;
        }
        Ok(())
    }

    /// Reads a row, or nothing in a blank line. Its shape is judged before its cells.
    #[tactic(auto, unfolding(crate::specs::Table::line_added))]
    fn read(&mut self, line: &[u8], left: usize) -> Result<(), Refusal>
        ensures exact { GivesUpToMemory fault_in (λ _. self.new) result (line_added self.old line.now) }
        ensures same { length self.new ≡ length self.old }
    {
        if is_blank_line(line) {
            return Ok(());
        }
        match row_in(line) {
            Some(row) if count_cells(row) == self.columns.len() => self.tell_cells(row, left),
            _ => Err(LitmusFault::BadTable.at(left)),
        }
    }

    /// Reads the rows after the first one, which `following` bytes follow.
    fn read_rows(&mut self, rows: Option<&[u8]>, following: usize) -> Result<(), Refusal>
        ensures exact { GivesUpToMemory fault_in (λ _. self.new) result (lines_added self.old (pieces_after (Byte 10) (option_copied rows.entry))) }
        ensures same { length self.new ≡ length self.old }
    {
        let mut rest = rows;
        while let Some(bytes) = rest {
            let (line, after) = first_piece(Separators::Byte(b'\n'), bytes);
            let left = bytes.len().saturating_sub(indent(line));
            self.read(line, left.saturating_add(following))?;
            rest = after;
        }
        Ok(())
    }

    /// Each hart's words, as [`Table::finish`] says.
    fn codes(self, alloc: Global, text: &[u8], following: usize) -> Result<Vec<Vec<u32>>, Refusal>
        ensures exact { GivesUpToMemory fault_in instructions result (codes_of self) }
        ensures plain { IfOk result (λ codes. ArePlain codes.items) }
    {
        let mut codes = Vec::new(alloc);
        let mut faulty = None;
        for column in self.columns {
            match column.finish() {
                Ok(words) => {
                    have_32_bits(&words);
                    codes.push(words)?;
                }
                Err(AsmError::NoMemory) => return Err(Refusal::NoMemory),
                Err(AsmError::Refused(refusal)) => faulty = Some(earlier(faulty, refusal.line)),
            }
        }
        match faulty {
            None => Ok(codes),
            Some(row) => {
                Err(LitmusFault::BadInstr.at(left_at_row(text, row).saturating_add(following)))
            }
        }
    }

    /// Each hart's words. `BadInstr` comes where a label has no place, at the first row of them, in the
    /// table's text, which `following` bytes follow.
    #[tactic(auto, using(crate::proofs::TableLaws::answered_count, crate::proofs::TableLaws::answered_short))]
    pub fn finish(
        self,
        alloc: Global,
        text: &[u8],
        following: usize,
    ) -> Result<Vec<Vec<u32>>, Refusal>
        ensures exact { GivesUpToMemory fault_in instructions result (codes_of self) }
        ensures plain { IfOk result (λ codes. ArePlain codes.items) }
        ensures count { IfOk result (λ codes. length codes.items ≡ length self) }
        ensures short { IfOk result (λ codes. AreShort (instructions codes)) }
    {
        self.codes(alloc, text, following)
    }
}

/// The first row of those so far, if there are any, and this one.
fn earlier(so_far: Option<usize>, row: usize) -> usize
    ensures { result ≡ earlier so_far row }
{
    match so_far {
        Some(first) => first.min(row),
        None => row,
    }
}

/// How many bytes of the table's text are left at the row, from its first byte on that is no blank; rows count from 0.
/// It serves the line of a fault alone.
#[tactic(auto, using(crate::proofs::MarkLaws::row_here), unfolding(crate::specs::Lines::left_at_row))]
fn left_at_row(text: &[u8], row: usize) -> usize
    ensures { result ≡ left_at_row text.now row }
{
    let mut rows = row;
    let mut rest = Some(text);
    while let Some(bytes) = rest {
        let (line, after) = first_piece(Separators::Byte(b'\n'), bytes);
        if !is_blank_line(line) {
            if rows == 0 {
                return bytes.len().saturating_sub(indent(line));
            }
            rows -= 1;
        }
        rest = after;
    }
    0
}

/// Parses the table; `following` is how many bytes follow it, used for fault positions.
#[tactic(auto, unfolding(crate::specs::Table::table_at))]
pub fn read_table(alloc: Global, text: &[u8], following: usize) -> Result<Table, Refusal>
    ensures exact { GivesUpToMemory fault_in (λ (table : List Column). table) result (table_at text.now) }
    ensures some { IfOk result (λ table. 1 ≤ length table) }
    ensures few { IfOk result (λ table. length table ≤ MAX_HARTS) }
{
    let Some(rows) = cut_at_line(Mark::Visible, text).1 else {
        return Err(LitmusFault::BadTable.at_end());
    };
    let (first, rest) = cut_at(rows, b'\n');
    let harts = harts_in(alloc, first, left_of(rows).saturating_add(following))?;
    let mut table = Table::new(alloc, harts)?;
    table.read_rows(rest, following)?;
    Ok(table)
}
