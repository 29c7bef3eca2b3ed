//! How a picture names places of memory.

ghost use Rattle.std.specs.Prelude.{◌≡◌, ◌++◌, ◌/◌, ◌*◌, map, OnOk};
ghost use Rattle.std.specs.List.{slice_get};
ghost use Rattle.std.specs.Option.{option_copied};
ghost use Rattle.std.specs.String.{string_bytes};
ghost use Rattle.chart.specs.Sayings.{named_word, word_name, part_name};

use std::alloc::AllocError;

/// A longer name would make columns too wide: its word goes by its address.
pub const LONGEST_NAME: usize = 8;

fn name_at(names: &[String], place: usize) -> Option<&str>
    ensures { option_copied result ≡ slice_get (map string_bytes names.now) place }
{
    match names.get(place) {
        Some(name) => Some(name.as_str()),
        None => None,
    }
}

fn push_named(out: &mut String, name: Option<&str>, address: u32) -> Result<(), AllocError>
    ensures { OnOk result (string_bytes out.new ≡ string_bytes out.old ++ named_word (option_copied name.entry) address) }
{
    match name {
        Some(name) if name.len() <= LONGEST_NAME => out.push_str(name),
        _ => write!(out, "@{address}"),
    }
}

/// Appends the name of the word in which an address is: its location's, if that isn't too long, else
/// `@` and the word's address.
pub fn push_word(out: &mut String, names: &[String], addr: u32) -> Result<(), AllocError>
    ensures { OnOk result (string_bytes out.new ≡ string_bytes out.old ++ word_name (map string_bytes names.now) addr) }
{
    push_named(out, name_at(names, (addr / 4) as usize), addr / 4 * 4)
}

/// Appends the name of `width` bytes from an address on: a whole word's, else with `+` and the offset
/// in the word.
pub fn push_part(
    out: &mut String,
    names: &[String],
    addr: u32,
    width: u32,
) -> Result<(), AllocError>
    ensures { OnOk result (string_bytes out.new ≡ string_bytes out.old ++ part_name (map string_bytes names.now) addr width) }
{
    push_word(out, names, addr)?;
    if width == 4 {
        return Ok(());
    }
    write!(out, "+{}", addr % 4)
}
