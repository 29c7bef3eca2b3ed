//! The pieces of a text: what stands between the bytes that part it.

ghost use Rattle.std.specs.Prelude.{◌≡◌, ◌+◌, ◌∷◌, length};
ghost use Rattle.std.specs.Option.{option_copied};
ghost use Rattle.texts.specs.Pieces.{separates, pieces, pieces_after, bytes_left};

use crate::cutting::cut_at_any;

/// Which bytes part the pieces of a text, and stand round what a text says.
#[derive(Clone, Copy, PartialEq, Eq)]
pub enum Separators {
    /// This byte alone.
    Byte(u8),
    /// Spaces alone.
    Spaces,
    /// Spaces and tabs: the blanks of a line.
    Blanks,
    /// Spaces, tabs and LF: the blanks of a text in which an LF means nothing more.
    Gaps,
    /// Spaces, tabs, CR and LF: the blanks of a text in which line ends mean nothing more.
    BlanksAndLineEnds,
}

impl Separators {
    /// Whether the byte parts two pieces.
    #[inline(always)]
    pub fn contain(self, byte: u8) -> bool
        ensures { result ≡ separates self byte }
    {
        match self {
            Separators::Byte(one) => byte == one,
            Separators::Spaces => byte == b' ',
            Separators::Blanks => byte == b' ' || byte == b'\t',
            Separators::Gaps => byte == b' ' || byte == b'\t' || byte == b'\n',
            Separators::BlanksAndLineEnds => {
                byte == b' ' || byte == b'\t' || byte == b'\r' || byte == b'\n'
            }
        }
    }
}

/// The first piece of the bytes, which may be empty, and what follows the separator after it;
/// nothing follows the last piece.
///
/// A text is walked piece by piece in time linear in its length:
/// `let mut rest = Some(text); while let Some(bytes) = rest { let (piece, after) = first_piece(separators, bytes); ..; rest = after; }`.
#[tactic(auto, using(crate::proofs::CuttingLaws::split_cut))]
pub fn first_piece(separators: Separators, bytes: &[u8]) -> (&[u8], Option<&[u8]>)
    ensures cut { pieces separators bytes.now ≡ result.0.now ∷ pieces_after separators (option_copied result.1) }
    // each piece and the separator after it are one step through the text
    ensures rest { length result.0.now + bytes_left (option_copied result.1) ≡ length bytes.now }
{
    cut_at_any(separators, bytes)
}
