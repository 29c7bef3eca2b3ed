//! The numbers of a command line.

ghost use Rattle.std.specs.Prelude.{◌≡◌};
ghost use Rattle.command_line.specs.CommandLines.{number_within};

/// The number that the text says, if it is below 2^64.
pub fn number_of(text: &str) -> Option<u64>
    ensures { result ≡ number_within 0 18446744073709551615 text.now }
{
    text.parse::<u64>().ok()
}

/// The number from `least` to `most` that the text says.
pub fn count_of(text: &str, least: u32, most: u32) -> Option<u32>
    ensures { result ≡ number_within least most text.now }
{
    match text.parse::<u32>() {
        Ok(count) if least <= count && count <= most => Some(count),
        _ => None,
    }
}
