//! A load's or an AMO's sources as a tag.

ghost use Rattle.std.specs.List.{list_any};
ghost use Rattle.std.specs.Prelude.{◌≡◌, ◌==◌, ◌∷◌, [], ◌++◌, OnOk, IfOk};
ghost use Rattle.std.specs.String.{string_bytes};
ghost use Rattle.chart.specs.Tags.{with_row, with_source, named_by as named_by_sources, none_named, spaced, with_rows};
ghost use Rattle.chart.specs.Tags.{with_part, tag_words, tag_text as text_of_tag};

use crate::sources::Source;
use std::alloc::{AllocError, Global};
use std::marker::Model;

/// What some sources name: rows of the hart's own stores, rows that wrote to memory, the opening.
#[derive(Drop)]
struct Named {
    own: Vec<usize>,
    memory: Vec<usize>,
    opening: bool,
}

impl Model for Named {
    ghost use Rattle.chart.specs.Tags.{NamedOf};

    ghost Value = { NamedOf };

    ghost view = { λ n. record { own = n.own.items; memory = n.memory.items; opening = n.opening } };
}

fn is_named(rows: &[usize], row: usize) -> bool
    ensures { result ≡ list_any (λ other. other == row) rows.now }
{
    rows.iter().any(|other| *other == row)
}

fn push_row(rows: &mut Vec<usize>, row: usize) -> Result<(), AllocError>
    ensures { OnOk result (rows.new.items ≡ with_row rows.old.items row) }
{
    if is_named(rows, row) {
        return Ok(());
    }
    Ok(rows.push(row)?)
}

fn push_source(named: &mut Named, source: Source) -> Result<(), AllocError>
    ensures { OnOk result (named.new ≡ with_source named.old source) }
{
    match source {
        Source::Own { row } => push_row(&mut named.own, row),
        Source::Memory { row } => push_row(&mut named.memory, row),
        Source::Opening => {
            named.opening = true;
            Ok(())
        }
    }
}

#[tactic(auto, using(crate::proofs::TagLaws::named_next))]
fn named_by(alloc: Global, sources: &[Source]) -> Result<Named, AllocError>
    ensures { IfOk result (λ named. named ≡ named_by_sources sources.now) }
{
    let mut named = Named {
        own: Vec::new(alloc),
        memory: Vec::new(alloc),
        opening: false,
    };
    for source in sources {
        push_source(&mut named, *source)?;
    }
    Ok(named)
}

fn push_spaced(out: &mut String, word: &str) -> Result<(), AllocError>
    ensures { OnOk result (string_bytes out.new ≡ spaced (string_bytes out.old) word.now) }
{
    if out.is_empty() {
        out.push_str(word)
    } else {
        write!(out, " {word}")
    }
}

fn push_spaced_row(alloc: Global, out: &mut String, row: usize) -> Result<(), AllocError>
    ensures { OnOk result (string_bytes out.new ≡ with_rows (string_bytes out.old) (row ∷ [])) }
{
    let row = row as u128 + 1;
    let word = format!(in alloc; "{row}")?;
    push_spaced(out, &word)
}

#[tactic(auto, using(crate::proofs::TagLaws::rows_next))]
fn push_rows(alloc: Global, out: &mut String, rows: &[usize]) -> Result<(), AllocError>
    ensures { OnOk result (string_bytes out.new ≡ with_rows (string_bytes out.old) rows.now) }
{
    for row in rows {
        push_spaced_row(alloc, out, *row)?;
    }
    Ok(())
}

fn push_part(alloc: Global, out: &mut String, name: &str, rows: &[usize]) -> Result<(), AllocError>
    ensures { OnOk result (string_bytes out.new ≡ with_part (string_bytes out.old) name.now rows.now) }
{
    if rows.is_empty() {
        return Ok(());
    }
    push_spaced(out, name)?;
    push_rows(alloc, out, rows)
}

fn inside(alloc: Global, named: &Named) -> Result<String, AllocError>
    ensures { IfOk result (λ text. string_bytes text ≡ tag_words named.now) }
{
    let mut out = String::new(alloc);
    push_part(alloc, &mut out, "own", &named.own)?;
    push_part(alloc, &mut out, "mem", &named.memory)?;
    if named.opening {
        push_spaced(&mut out, "init")?;
    }
    Ok(out)
}

/// The sources as a tag, `[own 1 init]`; nothing where there is none.
pub fn tag_text(alloc: Global, sources: &[Source]) -> Result<String, AllocError>
    ensures { IfOk result (λ text. string_bytes text ≡ text_of_tag sources.now) }
{
    if sources.is_empty() {
        return Ok(String::new(alloc));
    }
    let named = named_by(alloc, sources)?;
    let inside = inside(alloc, &named)?;
    format!(in alloc; "[{inside}]")
}
