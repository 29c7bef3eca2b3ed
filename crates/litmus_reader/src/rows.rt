//! The shape of a table's rows.

ghost use Rattle.std.specs.Prelude.{◌≡◌, ◌≤◌, length, IfOk};
ghost use Rattle.std.specs.Option.{option_copied};
ghost use Rattle.std.specs.List.{count_by};
ghost use Rattle.texts.specs.Cutting.{is_byte};
ghost use Rattle.texts.specs.Results.{GivesUpToMemory};
ghost use Rattle.litmus_reader.specs.Faults.{fault_in};
ghost use Rattle.litmus_reader.specs.Rows.{indent, is_blank_line, row_in, cells_of, names_hart, name_harts, harts_in};
ghost use Rattle.step_machine.specs.declared.opening.TheConstants.{MAX_HARTS};

use crate::faults::LitmusFault;
use crate::refusals::Refusal;
use std::alloc::{AllocError, Global};
use step_machine::opening::MAX_HARTS;
use texts::cutting::{cut_at, trimmed, without_front};
use texts::{Separators, first_piece};

/// Whether the line is empty, or spaces and tabs alone.
pub fn is_blank_line(line: &[u8]) -> bool
    ensures { result ≡ is_blank_line line.now }
{
    without_front(line).is_empty()
}

/// How many blanks a line begins with.
pub fn indent(line: &[u8]) -> usize
    ensures { result ≡ indent line.now }
{
    line.len().saturating_sub(without_front(line).len())
}

/// The row's cells, which `|` parts, without the `;` that ends the row; `None` where the line has no
/// `;`, or something after it.
#[tactic(auto, unfolding(crate::specs::Rows::row_in))]
pub fn row_in(line: &[u8]) -> Option<&[u8]>
    ensures { option_copied result ≡ row_in line.now }
{
    let (row, rest) = cut_at(line, b';');
    match rest {
        Some(rest) => { if is_blank_line(rest) { Some(row) } else { None } }
        None => None,
    }
}

fn count_bars(row: &[u8]) -> usize
    ensures count { result ≡ count_by (is_byte 124) row.now }
    ensures few { result ≤ length row.now }
{
    row.iter().filter(|byte| **byte == b'|').count()
}

/// How many cells the row has: one more than it has `|`, so an empty row has one.
pub fn count_cells(row: &[u8]) -> usize
    ensures count { result ≡ length (cells_of row.now) }
    ensures some { 1 ≤ result }
{
    count_bars(row) + 1
}

/// Whether the cell is `P` and the hart's number, with nothing but blanks round them.
fn names_hart(alloc: Global, cell: &[u8], hart: usize) -> Result<bool, AllocError>
    ensures { IfOk result (λ named. named ≡ names_hart hart cell.now) }
{
    let name = format!(in alloc; "P{hart}")?;
    Ok(trimmed(cell) == name.as_bytes())
}

/// Whether the cells of the first row name the harts in order.
fn name_harts(alloc: Global, row: &[u8]) -> Result<bool, AllocError>
    requires { length (cells_of row.now) ≤ MAX_HARTS }
    ensures { IfOk result (λ named. named ≡ name_harts 0 (cells_of row.now)) }
{
    let mut hart = 0;
    let mut rest = Some(row);
    while let Some(bytes) = rest {
        let (cell, after) = first_piece(Separators::Byte(b'|'), bytes);
        if !names_hart(alloc, cell, hart)? {
            return Ok(false);
        }
        hart += 1;
        rest = after;
    }
    Ok(true)
}

/// How many harts the first row names: 1 to 64. It is too long before its cells are judged. Its faults
/// are met where `left` bytes are left.
#[tactic(auto, unfolding(crate::specs::Rows::harts_in))]
pub fn harts_in(alloc: Global, line: &[u8], left: usize) -> Result<usize, Refusal>
    ensures exact { GivesUpToMemory fault_in (λ harts. harts) result (harts_in line.now) }
    ensures some { IfOk result (λ harts. 1 ≤ harts) }
    ensures few { IfOk result (λ harts. harts ≤ MAX_HARTS) }
{
    let Some(row) = row_in(line) else {
        return Err(LitmusFault::BadTable.at(left));
    };
    let harts = count_cells(row);
    if harts > MAX_HARTS {
        return Err(LitmusFault::TooMany.at(left));
    }
    if !name_harts(alloc, row)? {
        return Err(LitmusFault::BadTable.at(left));
    }
    Ok(harts)
}
