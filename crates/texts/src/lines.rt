//! The lines of a text.

ghost use Rattle.std.specs.Prelude.{◌≡◌, ◌==◌, ◌<◌, ◌↔◌, [], ◌∷◌, length, position, IsNone, IfSome, MatchOption};
ghost use Rattle.std.specs.Str.Lines.{lines, strip_carriage_return};

fn line_feed_in(bytes: &[u8]) -> Option<usize>
    ensures { result ≡ position (λ byte. byte == 10) bytes.now }
{
    bytes.iter().position(|byte| *byte == b'\n')
}

/// The line without the one CR at its end, if it has one.
pub fn without_carriage_return(line: &[u8]) -> &[u8]
    ensures { result.now ≡ strip_carriage_return line.now }
{
    match line {
        [front @ .., b'\r'] => front,
        _ => line,
    }
}

/// The first line of the bytes and what follows its end; `None` where there is no line, which is
/// where there is no byte.
///
/// A line ends with LF, CR LF or the end of the text. A last LF begins no further line, a CR at the
/// very end of the text belongs to its line, and a lone CR is a byte like others.
pub fn first_line(bytes: &[u8]) -> Option<(&[u8], &[u8])>
    ensures none { IsNone result ↔ (bytes.now ≡ []) }
    ensures line { MatchOption result (lines bytes.now ≡ []) (λ cut. lines bytes.now ≡ cut.0.now ∷ lines cut.1.now) }
    // a text is walked line by line, in time linear in its length
    ensures rest { IfSome result (λ cut. length cut.1.now < length bytes.now) }
{
    if bytes.is_empty() {
        return None;
    }
    match line_feed_in(bytes) {
        Some(at) => Some((without_carriage_return(&bytes[..at]), &bytes[at + 1..])),
        None => Some((bytes, &bytes[bytes.len()..])),
    }
}
