//! Assembly texts of RV32I and the word AMOs, to words, and instructions to texts.
//!
//! The contract is a grammar. `specs/Spelled` says how registers, numbers, addresses and targets are
//! spelled; `Statements` has one table, with a row for the operands of each mnemonic, in the order of
//! the manual; `Grammar` says what a statement and a line are; `Program` says where statements stand and
//! how far labels are. [`assemble`] answers the words of the instructions of which the text is a program
//! (`found`), and answers them for each text that is one (`only`). No text is two programs, or the code
//! of two lists of words ([`laws::one_value`]), and a fault is named exactly where a text is none
//! ([`laws::refused_without_value`]). [`Draft`] is the same, line by line.
//!
//! Beside the grammar stand definitions that are functions and name the first fault with its line
//! (`exact`): a line's parts in `Lines`, what an operand says in `Operands`, the first fault of a
//! statement in `Statements`, over the same table, and labels in `Drafts`, in the order that
//! [`Draft::line`] and [`Draft::finish`] return.
//!
//! [`laws::number_put`]: the one or two instructions of `li` put its number in the register.
//! [`write_instr`] appends the text of `Writing`; [`laws::read_again`]: that text is a program of the
//! instruction again, and the code of the word that [`rv_decode::encode`] gives it.
//! This crate reads no file, relaxes no jump, and knows no section, directive or macro.
//!
//! Called by `litmus_reader`, `code_engines`, `view_engines`, `channel_engines` and `certifying`.

#![tactic(auto)]

mod assembling;
mod draft;
pub mod faults;
pub mod form;
mod kept;
pub mod laws;
mod line;
mod loading;
mod names;
mod naming;
mod operands;
mod places;
mod placing;
mod shapes;
mod statement;
mod tables;
mod writer;

pub use assembling::assemble;
pub use draft::Draft;
pub use faults::{AsmError, AsmFault};
pub use line::{Line, parts};
pub use rv_decode::register_named;
pub use writer::write_instr;
