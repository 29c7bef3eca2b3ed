//! Names, numbers and the numbers of harts.

ghost use Rattle.std.specs.Prelude.{◌≡◌};
ghost use Rattle.std.specs.List.{list_all};
ghost use Rattle.litmus_tokens.specs.Names.{begins_name, goes_on_name, is_spelled, is_not, is_name, word_from, a_word};

use texts::integer;

fn begins_name(byte: u8) -> bool
    ensures { result ≡ begins_name byte }
{
    byte.is_ascii_alphabetic() || byte == b'_'
}

/// Whether the byte may stand in a name after its first one: a letter, a digit or `_`.
pub fn goes_on_name(byte: u8) -> bool
    ensures { result ≡ goes_on_name byte }
{
    begins_name(byte) || byte.is_ascii_digit()
}

fn all_go_on_name(text: &[u8]) -> bool
    ensures { result ≡ list_all goes_on_name text.now }
{
    text.iter().all(|byte| goes_on_name(*byte))
}

fn is_not(text: &[u8]) -> bool
    ensures { result ≡ is_not text.now }
{
    text.starts_with(b"not") && text.len() == 3
}

fn is_spelled(text: &[u8]) -> bool
    ensures { result ≡ is_spelled text.now }
{
    match text.first() {
        Some(first) => begins_name(*first) && all_go_on_name(text),
        None => false,
    }
}

/// Whether the text is a name: a letter or `_`, and then letters, digits and `_`, but not `not`.
pub fn is_name(text: &[u8]) -> bool
    ensures { result ≡ is_name text.now }
{
    is_spelled(text) && !is_not(text)
}

/// The number modulo 2^32, where it is one from -2147483648 to 4294967295.
fn word_of(number: i64) -> Option<u32>
    ensures { result ≡ word_from number }
{
    if number < -0x8000_0000 || number > 0xffff_ffff {
        None
    } else if number < 0 {
        Some((number + 0x1_0000_0000) as u32)
    } else {
        Some(number as u32)
    }
}

/// The word that a number from -2147483648 to 4294967295 says, modulo 2^32.
#[tactic(auto, unfolding(crate::specs::Names::a_word))]
pub fn word_in(text: &[u8]) -> Option<u32>
    ensures { result ≡ a_word.reads text.now }
{
    word_of(integer(text)?)
}
