//! What every text of the program is made of: pieces between blanks, lines, and numbers in digits.
//!
//! The contract: each reader answers what the definitions of `specs/` say of its bytes, so
//! [`first_piece`], [`first_token`] and [`first_line`] walk a text by `pieces`, `tokens` and `lines`,
//! [`cutting`] cuts it at [`Separators`] and takes off those round it, and [`number`], [`word`], [`hex_word`] and [`integer`] answer exactly where the bytes
//! spell a number. [`TextError`] is why a text has no value, for the faults of any grammar.
//! `proofs/` has the laws that the grammars above share.
//! This crate knows no grammar, names no fault and keeps nothing; only [`push_decimal`] takes memory.
//!
//! Called by more than 6 crates, from `assembler` to `channel_engines`.

#![tactic(auto)]

pub mod cutting;
pub mod errors;
pub mod lines;
pub mod numbers;
pub mod pieces;

pub use cutting::first_token;
pub use errors::{AtLine, Numbered, TextError};
pub use lines::{first_line, without_carriage_return};
pub use numbers::{hex_number, hex_word, integer, number, push_decimal, word};
pub use pieces::{Separators, first_piece};
