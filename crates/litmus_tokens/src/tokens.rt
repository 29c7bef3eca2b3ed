//! The tokens of a condition.

ghost use Rattle.std.specs.Prelude.{◌≡◌, position};
ghost use Rattle.std.specs.Option.{option_copied};
ghost use Rattle.texts.specs.Cutting.{before, from_first};
ghost use Rattle.litmus_tokens.specs.Tokens.{is_mark, ends_name, after_not, paired, unmarked, begun, token_of, seen};
ghost use Rattle.litmus_tokens.specs.Tokens.{beginning_of, tokens_of, tokens_from, LeavesLess};

use crate::assignments::{Assignment, assignment_in};
use crate::names::goes_on_name;
use texts::Separators;
use texts::cutting::without_leading;

/// A token of a condition. A whole atom, such as `0:x5=1`, is one.
#[derive(Clone, Copy, Debug, PartialEq, Eq)]
pub enum Token<'a> {
    /// An atom: this holds in the final state.
    Is(Assignment<'a>),
    /// `~` or `not`.
    Not,
    /// `/\`.
    And,
    /// `\/`.
    Or,
    /// `(`.
    Open,
    /// `)`.
    Close,
}

/// What a text begins with, after blanks and LFs.
#[derive(Clone, Copy, Debug, PartialEq, Eq)]
pub enum Front<'a> {
    /// Nothing: the text is at its end.
    End,
    /// A token, and what follows it.
    Token(Token<'a>, &'a [u8]),
    /// No token: a `/` or `\` without its second byte, or up to the next mark neither `not` nor an atom.
    NoToken,
}

fn is_mark(byte: u8) -> bool
    ensures { result ≡ is_mark byte }
{
    byte == b'(' || byte == b')' || byte == b'~' || byte == b'/' || byte == b'\\'
}

fn mark_in(text: &[u8]) -> Option<usize>
    ensures { result ≡ position is_mark text.now }
{
    text.iter().position(|byte| is_mark(*byte))
}

/// What stands before the first mark, and the text from there on.
#[tactic(auto, using(std::proofs::lemmas::List::take_rest, texts::proofs::CuttingLaws::before_found, texts::proofs::CuttingLaws::before_missing, texts::proofs::CuttingLaws::from_found, texts::proofs::CuttingLaws::from_missing))]
fn cut_at_mark(text: &[u8]) -> (&[u8], &[u8])
    ensures front { result.0.now ≡ before is_mark text.now }
    ensures back { result.1.now ≡ from_first is_mark text.now }
{
    match mark_in(text) {
        Some(at) => (&text[..at], &text[at..]),
        None => (text, &text[text.len()..]),
    }
}

fn ends_name(following: &[u8]) -> bool
    ensures { result ≡ ends_name following.now }
{
    match following.first() {
        Some(byte) => !goes_on_name(*byte),
        None => true,
    }
}

/// What follows the name at the front, where that is `not`.
#[tactic(auto, unfolding(crate::specs::Tokens::after_not))]
fn after_not(text: &[u8]) -> Option<&[u8]>
    ensures { option_copied result ≡ after_not text.now }
{
    if text.starts_with(b"not") && ends_name(&text[3..]) {
        Some(&text[3..])
    } else {
        None
    }
}

/// A token of two bytes, where this one follows the first.
fn paired<'a>(token: Token<'a>, second: u8, following: &'a [u8]) -> Front<'a>
    ensures { seen result ≡ paired (token_of token.entry) second following.now }
{
    match following {
        [byte, rest @ ..] if *byte == second => Front::Token(token, rest),
        _ => Front::NoToken,
    }
}

/// The token `not`, or an atom.
#[tactic(auto, unfolding(crate::specs::Tokens::unmarked))]
fn unmarked(text: &[u8]) -> Front<'_>
    ensures { seen result ≡ unmarked text.now }
{
    if let Some(rest) = after_not(text) {
        return Front::Token(Token::Not, rest);
    }
    let (atom, rest) = cut_at_mark(text);
    match assignment_in(atom) {
        Some(assignment) => Front::Token(Token::Is(assignment), rest),
        None => Front::NoToken,
    }
}

#[tactic(auto, unfolding(crate::specs::Tokens::begun))]
fn begun(text: &[u8]) -> Front<'_>
    ensures { seen result ≡ begun text.now }
{
    match text {
        [] => Front::End,
        [b'(', rest @ ..] => Front::Token(Token::Open, rest),
        [b')', rest @ ..] => Front::Token(Token::Close, rest),
        [b'~', rest @ ..] => Front::Token(Token::Not, rest),
        [b'/', rest @ ..] => paired(Token::And, b'\\', rest),
        [b'\\', rest @ ..] => paired(Token::Or, b'/', rest),
        _ => unmarked(text),
    }
}

/// What the text begins with.
///
/// An atom goes on to the next `(`, `)`, `~`, `/` or `\`. A name at the front that is exactly `not` is
/// the token [`Token::Not`], whatever follows it, and no location.
///
/// A text is walked token by token in time linear in its length:
/// `while let Front::Token(token, after) = first_token(rest) { ..; rest = after; }`.
pub fn first_token(text: &[u8]) -> Front<'_>
    ensures exact { seen result ≡ beginning_of text.now }
    ensures tokens { tokens_of text.now ≡ tokens_from tokens_of (seen result) }
    ensures rest { LeavesLess text.now (seen result) }
{
    begun(without_leading(Separators::Gaps, text))
}
