//! A text without its comments.

ghost use Rattle.std.specs.Prelude.{◌≡◌, ℕ, List, length, IfOk};
ghost use Rattle.litmus_tokens.specs.Cleaning.{turned, IsCleaned, cleaned_text};

use std::alloc::{AllocError, Global};

/// What a byte of a text belongs to.
#[derive(Clone, Copy)]
enum Part {
    /// No comment.
    Text,
    /// The `*` of the `(*` that opens a comment.
    Opening,
    /// The inside of a comment.
    Comment,
    /// The `)` of the `*)` that closes a comment.
    Closing,
}

/// What is written for the byte, and what the next one belongs to.
fn turned(part: Part, byte: u8, next: Option<u8>) -> (u8, Part)
    ensures { result ≡ turned part byte next }
{
    match part {
        Part::Text if byte == b'(' && next == Some(b'*') => (b' ', Part::Opening),
        Part::Text if byte == b'\r' && next == Some(b'\n') => (b' ', Part::Text),
        Part::Text => (byte, Part::Text),
        Part::Opening => (b' ', Part::Comment),
        Part::Comment if byte == b'*' && next == Some(b')') => (b' ', Part::Closing),
        Part::Comment => (b' ', Part::Comment),
        Part::Closing => (b' ', Part::Text),
    }
}

/// The text with a space for each byte of a comment `(* .. *)` and for each CR before an LF outside
/// comments, so that each other byte stays at its place.
///
/// Comments don't nest; `(*)` opens one and doesn't close it, and one that isn't closed runs to the
/// end. A line end inside a comment is a space too: the comment joins its lines.
pub fn cleaned(alloc: Global, text: &[u8]) -> Result<Vec<u8>, AllocError>
    ensures found { IfOk result (λ bytes. IsCleaned text.now bytes.items) }
    ensures only { (out : List ℕ) → IsCleaned text.now out → IfOk result (λ bytes. bytes.items ≡ out) }
    ensures cleaned { IfOk result (λ bytes. bytes.items ≡ cleaned_text text.now) }
    ensures same_length { IfOk result (λ bytes. length bytes.items ≡ length text.now) }
{
    let mut bytes = Vec::new(alloc);
    let mut part = Part::Text;
    for (at, byte) in text.iter().enumerate() {
        let (written, next) = turned(part, *byte, text.get(at + 1).copied());
        bytes.push(written)?;
        part = next;
    }
    Ok(bytes)
}
