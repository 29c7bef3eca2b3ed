//! Texts cut at separators, the separators round them, and the tokens between.

ghost use Rattle.std.specs.Prelude.{◌≡◌, ◌<◌, ◌≤◌, ◌+◌, [], ◌∷◌, not, length, position, Some, None, MatchOption, IfSome};
ghost use Rattle.std.specs.List.{list_all};
ghost use Rattle.std.specs.Option.{option_copied};
ghost use Rattle.texts.specs.Pieces.{separates, bytes_left};
ghost use Rattle.texts.specs.Cutting.{before, after, is_byte, without_leading, without_trailing, stripped, without_front, trimmed, tokens, first_cut};

use crate::pieces::Separators;

#[inline(always)]
fn separator_in(separators: Separators, text: &[u8]) -> Option<usize>
    ensures { result ≡ position (separates separators) text.now }
{
    text.iter().position(|byte| separators.contain(*byte))
}

/// The place of the first byte that is no separator.
#[inline(always)]
fn other_in(separators: Separators, text: &[u8]) -> Option<usize>
    ensures { result ≡ position (λ byte. not (separates separators byte)) text.now }
{
    text.iter().position(|byte| !separators.contain(*byte))
}

/// What stands before the first separator, and what follows it, if there is one.
#[inline(always)]
#[tactic(auto, using(std::proofs::lemmas::List::take_rest, crate::proofs::CuttingLaws::before_found, crate::proofs::CuttingLaws::after_found, crate::proofs::CuttingLaws::before_missing, crate::proofs::CuttingLaws::after_missing))]
pub fn cut_at_any(separators: Separators, text: &[u8]) -> (&[u8], Option<&[u8]>)
    ensures front { result.0.now ≡ before (separates separators) text.now }
    ensures back { option_copied result.1 ≡ after (separates separators) text.now }
    ensures rest { length result.0.now + bytes_left (option_copied result.1) ≡ length text.now }
{
    match separator_in(separators, text) {
        Some(at) => (&text[..at], Some(&text[at + 1..])),
        None => (text, None),
    }
}

/// What stands before the first such byte, and what follows it, if there is one.
#[inline(always)]
pub fn cut_at(text: &[u8], byte: u8) -> (&[u8], Option<&[u8]>)
    ensures front { result.0.now ≡ before (is_byte byte) text.now }
    ensures back { option_copied result.1 ≡ after (is_byte byte) text.now }
{
    cut_at_any(Separators::Byte(byte), text)
}

/// Whether the text is nothing but separators.
pub fn is_all(separators: Separators, text: &[u8]) -> bool
    ensures { result ≡ list_all (separates separators) text.now }
{
    text.iter().all(|byte| separators.contain(*byte))
}

/// The text without the separators at its front.
#[inline(always)]
#[tactic(auto, using(std::proofs::lemmas::List::take_rest, crate::proofs::CuttingLaws::from_found, crate::proofs::CuttingLaws::from_missing))]
pub fn without_leading(separators: Separators, text: &[u8]) -> &[u8]
    ensures { result.now ≡ without_leading (separates separators) text.now }
{
    match other_in(separators, text) {
        Some(at) => &text[at..],
        None => &text[text.len()..],
    }
}

#[tactic(auto, using(crate::proofs::TrimLaws::end_step, crate::proofs::TrimLaws::end_stop))]
fn without_trailing(separators: Separators, text: &[u8]) -> &[u8]
    ensures { result.now ≡ without_trailing (separates separators) text.now }
{
    let mut end = text.len();
    while end > 0 && separators.contain(text[end - 1]) {
        end -= 1;
    }
    &text[..end]
}

/// The text without the separators at its front and its end.
#[tactic(auto, unfolding(crate::specs::Cutting::stripped))]
pub fn stripped(separators: Separators, text: &[u8]) -> &[u8]
    ensures { result.now ≡ stripped (separates separators) text.now }
{
    without_trailing(separators, without_leading(separators, text))
}

/// The text without the blanks at its front.
pub fn without_front(text: &[u8]) -> &[u8]
    ensures { result.now ≡ without_front text.now }
{
    without_leading(Separators::Blanks, text)
}

/// The text without the blanks at its front and its end.
pub fn trimmed(text: &[u8]) -> &[u8]
    ensures { result.now ≡ trimmed text.now }
{
    stripped(Separators::Blanks, text)
}

/// The first token of a line, and what follows the blank after it; `None` where there is no token.
#[tactic(auto, using(crate::proofs::TokenLaws::first_none, crate::proofs::TokenLaws::tokens_uncut))]
pub fn first_token(line: &[u8]) -> Option<(&[u8], &[u8])>
    ensures cut { MatchOption result (first_cut line.now ≡ None) (λ cut. first_cut line.now ≡ Some (cut.0.now, cut.1.now)) }
    ensures tokens { MatchOption result (tokens line.now ≡ []) (λ cut. tokens line.now ≡ cut.0.now ∷ tokens cut.1.now) }
    // a line is walked token by token, in time linear in its length
    ensures shorter { IfSome result (λ cut. length cut.1.now < length line.now) }
    ensures within { IfSome result (λ cut. length cut.0.now ≤ length line.now) }
{
    let line = without_front(line);
    if line.is_empty() {
        return None;
    }
    let (token, rest) = cut_at_any(Separators::Blanks, line);
    match rest {
        Some(rest) => Some((token, rest)),
        None => Some((token, &[])),
    }
}
