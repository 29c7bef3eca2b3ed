//! The names of labels.

ghost use Rattle.std.specs.Prelude.{◌≡◌};
ghost use Rattle.std.specs.List.{list_all};
ghost use Rattle.assembler.specs.Operands.{begins_label_name, goes_on_label_name, is_label_name};

fn begins_name(byte: u8) -> bool
    ensures { result ≡ begins_label_name byte }
{
    byte.is_ascii_alphabetic() || byte == b'_' || byte == b'.'
}

fn goes_on_name(byte: u8) -> bool
    ensures { result ≡ goes_on_label_name byte }
{
    begins_name(byte) || byte.is_ascii_digit()
}

fn all_go_on_name(text: &[u8]) -> bool
    ensures { result ≡ list_all goes_on_label_name text.now }
{
    text.iter().all(|byte| goes_on_name(*byte))
}

/// Whether the text is a name: a letter, `_` or `.`, and then letters, digits, `_` and `.`.
pub fn is_name(text: &[u8]) -> bool
    ensures { result ≡ is_label_name text.now }
{
    match text.first() {
        Some(first) => begins_name(*first) && all_go_on_name(text),
        None => false,
    }
}
