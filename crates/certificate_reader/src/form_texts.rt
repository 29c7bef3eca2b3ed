//! Writing forms, values and own words.

ghost use Rattle.std.specs.Prelude.{◌≡◌, ◌++◌, ◌∷◌, [], map, OnOk};
ghost use Rattle.std.specs.String.{string_bytes};
ghost use Rattle.std.specs.Fmt.{decimal};
ghost use Rattle.certificate_reader.specs.Writing.{is_written, multiple_text, multiples, parts_text, spaced, form_text, range_text, own_word_text};

use known_values::Form;
use queue_certificates::OwnWord;
use std::alloc::AllocError;
use texts::push_decimal;

/// Whether a number is written: where it isn't 0, or where nothing comes after it.
fn is_written(number: u64, after: usize) -> bool
    ensures { result ≡ is_written number after }
{
    number != 0 || after == 0
}

/// Appends how often a variable is taken, after a `+` if something stands before it.
fn push_multiple(
    out: &mut String,
    follows: bool,
    times: u64,
    variable: usize,
) -> Result<(), AllocError>
    ensures { OnOk result (string_bytes out.new ≡ string_bytes out.old ++ parts_text follows (multiple_text times variable ∷ [])) }
{
    if follows {
        out.push_str("+")?;
    }
    push_decimal(out, times)?;
    out.push_str("*")?;
    push_decimal(out, variable as u64)
}

/// Appends how often each variable is taken, from the first one on, after a `+` if something stands before it.
fn push_multiples(out: &mut String, follows: bool, factors: &[u64]) -> Result<(), AllocError>
    ensures { OnOk result (string_bytes out.new ≡ string_bytes out.old ++ parts_text follows (multiples 0 factors.now)) }
{
    let mut follows = follows;
    let mut variable = 0;
    let mut rest = factors;
    'factors: while let [times, others @ ..] = rest {
        if is_written(*times, others.len()) {
            push_multiple(out, follows, *times, variable)?;
            follows = true;
        }
        variable += 1;
        rest = others;
    }
    Ok(())
}

/// Appends the form.
pub fn push_form(out: &mut String, form: &Form) -> Result<(), AllocError>
    ensures { OnOk result (string_bytes out.new ≡ string_bytes out.old ++ form_text form.now) }
{
    if is_written(form.constant, form.factors.len()) {
        push_decimal(out, form.constant)?;
        push_multiples(out, true, &form.factors)
    } else {
        push_multiples(out, false, &form.factors)
    }
}

/// Appends the forms, each after a space.
pub fn push_forms(out: &mut String, forms: &[Form]) -> Result<(), AllocError>
    ensures { OnOk result (string_bytes out.new ≡ string_bytes out.old ++ spaced (map form_text forms.now)) }
{
    for form in forms {
        out.push_str(" ")?;
        push_form(out, form)?;
    }
    Ok(())
}

fn push_range(out: &mut String, range: Option<u64>) -> Result<(), AllocError>
    ensures { OnOk result (string_bytes out.new ≡ string_bytes out.old ++ range_text range) }
{
    match range {
        None => out.push_str("-"),
        Some(most) => push_decimal(out, most),
    }
}

/// Appends the most that each variable may be, each after a space.
pub fn push_ranges(out: &mut String, ranges: &[Option<u64>]) -> Result<(), AllocError>
    ensures { OnOk result (string_bytes out.new ≡ string_bytes out.old ++ spaced (map range_text ranges.now)) }
{
    for range in ranges {
        out.push_str(" ")?;
        push_range(out, *range)?;
    }
    Ok(())
}

/// Appends the numbers, each after a space.
pub fn push_numbers(out: &mut String, numbers: &[u64]) -> Result<(), AllocError>
    ensures { OnOk result (string_bytes out.new ≡ string_bytes out.old ++ spaced (map decimal numbers.now)) }
{
    for number in numbers {
        out.push_str(" ")?;
        push_decimal(out, *number)?;
    }
    Ok(())
}

/// Appends an own word, its width only where that isn't four bytes.
fn push_own_word(out: &mut String, own: OwnWord) -> Result<(), AllocError>
    ensures { OnOk result (string_bytes out.new ≡ string_bytes out.old ++ own_word_text own) }
{
    push_decimal(out, u64::from(own.at))?;
    if own.width == 4 {
        return Ok(());
    }
    out.push_str(":")?;
    push_decimal(out, u64::from(own.width))
}

/// Appends the own words, each after a space.
pub fn push_own_words(out: &mut String, own: &[OwnWord]) -> Result<(), AllocError>
    ensures { OnOk result (string_bytes out.new ≡ string_bytes out.old ++ spaced (map own_word_text own.now)) }
{
    for word in own {
        out.push_str(" ")?;
        push_own_word(out, *word)?;
    }
    Ok(())
}
