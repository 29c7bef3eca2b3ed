//! Lines as a draft keeps them.

ghost use Rattle.std.specs.Prelude.{◌≡◌, ◌≤◌, IfOk};
ghost use Rattle.std.specs.Option.{option_copied};
ghost use Rattle.assembler.specs.Statements.{made_of};
ghost use Rattle.assembler.specs.Lines.{made_by};
ghost use Rattle.assembler.specs.Drafts.{size_of};
ghost use Rattle.assembler.specs.Kept.{kept_made, name_of, statement_of_kept, kept_line};

use crate::statement::Statement;
use rv_decode::{BranchOp, Instr, Reg};
use std::alloc::{AllocError, Global};

/// What a statement makes, with names of its own.
#[derive(Drop)]
pub enum Kept {
    One(Instr),
    Two(Instr, Instr),
    Jump {
        rd: Reg,
        label: Vec<u8>,
    },
    Branch {
        op: BranchOp,
        rs1: Reg,
        rs2: Reg,
        label: Vec<u8>,
    },
}

/// A line of a draft.
#[derive(Drop)]
pub struct KeptLine {
    pub label: Option<Vec<u8>>,
    pub statement: Option<Kept>,
}

fn keep(alloc: Global, statement: Statement<'_>) -> Result<Kept, AllocError>
    ensures { IfOk result (λ kept. kept_made kept ≡ made_of statement.entry) }
{
    Ok(match statement {
        Statement::One(instr) => Kept::One(instr),
        Statement::Two(first, second) => Kept::Two(first, second),
        Statement::Jump { rd, label } => Kept::Jump {
            rd,
            label: Vec::from_slice(alloc, label)?,
        },
        Statement::Branch {
            op,
            rs1,
            rs2,
            label,
        } => Kept::Branch {
            op,
            rs1,
            rs2,
            label: Vec::from_slice(alloc, label)?,
        },
    })
}

pub fn keep_statement(
    alloc: Global,
    statement: Option<Statement<'_>>,
) -> Result<Option<Kept>, AllocError>
    ensures { IfOk result (λ kept. statement_of_kept kept ≡ made_by statement.entry) }
{
    match statement {
        Some(statement) => Ok(Some(keep(alloc, statement)?)),
        None => Ok(None),
    }
}

pub fn keep_name(alloc: Global, name: Option<&[u8]>) -> Result<Option<Vec<u8>>, AllocError>
    ensures { IfOk result (λ kept. name_of kept ≡ option_copied name.entry) }
{
    match name {
        Some(name) => Ok(Some(Vec::from_slice(alloc, name)?)),
        None => Ok(None),
    }
}

/// How many words the statement makes.
pub fn size(statement: &Option<Kept>) -> usize
    ensures value { result ≡ size_of (statement_of_kept statement.now) }
    ensures small { result ≤ 2 }
{
    match statement {
        None => 0,
        Some(Kept::Two(..)) => 2,
        Some(Kept::One(_) | Kept::Jump { .. } | Kept::Branch { .. }) => 1,
    }
}
