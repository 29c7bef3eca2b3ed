//! Values looked up by their names.

ghost use Rattle.std.specs.Prelude.{◌≡◌, find};
ghost use Rattle.std.specs.Option.{option_copied};
ghost use Rattle.std.specs.Str.{bytes_eq};
ghost use Rattle.rv_decode.specs.Registers.{row_of};

fn is_text(name: &str, text: &[u8]) -> bool
    ensures { result ≡ bytes_eq name.now text.now }
{
    name.as_bytes() == text
}

/// The table's first row with this name.
pub fn row_in<'a, T: Copy>(
    table: &'a [(&'static str, T)],
    text: &[u8],
) -> Option<&'a (&'static str, T)>
    ensures { option_copied result ≡ find (λ row. bytes_eq row.0.now text.now) table.now }
{
    table.iter().find(|row| is_text(row.0, text))
}

/// The number in the table's first row with this name.
#[tactic(auto, using(crate::proofs::TableLaws::row_found, crate::proofs::TableLaws::row_missing))]
pub fn number_in(table: &[(&'static str, u8)], text: &[u8]) -> Option<u8>
    ensures { result ≡ row_of (λ row. row.0.now) (λ row. row.1) table.now text.now }
{
    match row_in(table, text) {
        Some(row) => Some(row.1),
        None => None,
    }
}
