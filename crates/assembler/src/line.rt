//! A line's parts, and what its statement makes.

ghost use Rattle.std.specs.Prelude.{◌≡◌, map, IfOk, IfSome};
ghost use Rattle.std.specs.Option.{option_copied};
ghost use Rattle.std.specs.List.{slice_split};
ghost use Rattle.texts.specs.Cutting.{is_byte};
ghost use Rattle.assembler.specs.Operands.{Tells};
ghost use Rattle.assembler.specs.Statements.{made_of, MadeFits, statement_of};
ghost use Rattle.assembler.specs.Lines.{code_of, parts_of, label_of, statement_text, trimmed_text, operands_of, left, made_in, made_by};

use crate::faults::AsmFault;
use crate::form::Form;
use crate::names::is_name;
use crate::shapes;
use crate::statement::{Operands, Statement};
use crate::tables::form_named;
use texts::Separators;
use texts::cutting::{cut_at, cut_at_any, trimmed, without_front};

/// A line without its comment: its label, and the text of its statement without blanks round it.
#[derive(Clone, Copy)]
pub struct Line<'a> {
    pub label: Option<&'a [u8]>,
    pub statement: &'a [u8],
}

/// The first colon ends a label where what stands before it is a name, blanks in front aside.
#[tactic(auto, unfolding(crate::specs::Lines::label_of, crate::specs::Lines::statement_text))]
pub fn parts(line: &[u8]) -> Line<'_>
    ensures label { option_copied result.label ≡ label_of line.now }
    ensures statement { result.statement.now ≡ statement_text line.now }
{
    let (code, _) = cut_at(line, b'#');
    let (front, rest) = cut_at(code, b':');
    let front = without_front(front);
    match rest {
        Some(rest) if is_name(front) => Line {
            label: Some(front),
            statement: trimmed(rest),
        },
        _ => Line {
            label: None,
            statement: trimmed(code),
        },
    }
}

fn some_text(rest: Option<&[u8]>) -> Option<&[u8]>
    ensures { option_copied result ≡ trimmed_text (option_copied rest.entry) }
{
    match rest {
        Some(text) => {
            let text = trimmed(text);
            if text.is_empty() { None } else { Some(text) }
        }
        None => None,
    }
}

/// The operands in what follows a mnemonic.
fn operands(rest: Option<&[u8]>) -> Operands<'_>
    ensures { left result ≡ operands_of (option_copied rest.entry) }
{
    Operands {
        rest: some_text(rest),
    }
}

/// What the statement makes, which is nothing where there is none, or its first fault from the left.
#[tactic(auto, unfolding(crate::specs::Lines::made_in))]
pub fn statement_in(text: &[u8]) -> Result<Option<Statement<'_>>, AsmFault>
    ensures made { Tells made_by result (made_in text.now) }
    ensures fits { IfOk result (λ statement. IfSome statement (λ s. MadeFits (made_of s))) }
{
    if text.is_empty() {
        return Ok(None);
    }
    let (mnemonic, rest) = cut_at_any(Separators::Blanks, text);
    let Some(form) = form_named(mnemonic) else {
        return Err(AsmFault::UnknownName);
    };
    let statement = shapes::statement(form, operands(rest))?;
    Ok(Some(statement))
}
