//! The command `queue`: whether a certificate shows that every run of a litmus text keeps the protocol of its queues, then whether they go
//! on, and what is asked of their records and of the harts, and otherwise whether a drawn run breaks it. Queues have indices or tags: those with tags are
//! numbered on after the others.
//!
//! The contract: the engine's clause says what it writes for what its readers give, byte for byte (`IsQueueAnswer`), and
//! [`laws::laws_of_answers`] what a `kept` and a `broken` mean. This crate finds no certificate, knows no command line, opens no file and names
//! no standard stream. It has no tests: the cases of the program run the engine.
//!
//! Called by `ztso`.

#![tactic(auto)]

pub mod answer_texts;
pub mod answering;
pub mod breaking;
pub mod byte_texts;
pub mod descriptions;
pub mod endings;
pub mod going;
pub mod harts;
pub mod input;
pub mod instructions;
pub mod judgement;
pub mod laws;
pub mod lost;
pub mod not_shown;
pub mod questions;
pub mod queues;
pub mod records;
pub mod together;
pub mod trials;
pub mod unread;
pub mod unused;

pub use answering::queue_engine;
pub use judgement::Judgement;
pub use questions::Questions;
