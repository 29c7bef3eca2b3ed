//! The texts of certificates.
//!
//! The contract: [`read_certificate`] returns the certificate that a text stands for, or its first fault with the line
//! (`specs/Reading.antt`). The definition takes a text line by line: `stage_after` of `specs/Stages.antt` has which line may come,
//! `by_keyword` of `specs/Drafts.antt` what it adds, and `cases_of` of `specs/CaseTexts.antt` how lines stand for a tree, as which
//! the lines of any tree are read again ([`cases_are_read_again`]). Forms and values are those of `specs/FormTexts.antt`, a hart's own
//! words those of `specs/Lists.antt`. What is read of a text is in proportion to its length, by [`limits`].
//! [`write_certificate`] writes the one canonical text of a certificate (`specs/Writing.antt`), which is read as this certificate again
//! where its numbers are within the limits and each own word has 1, 2 or 4 bytes (`specs/Written.antt`); [`push_state`] writes the lines of one state, and
//! [`push_known_at`] what is known where a certificate has a flaw.
//! This crate opens no file and judges no certificate: what it returns may name states and pcs that aren't there.
//!
//! Called by `certifying`.

#![tactic(auto)]

mod cases;
mod draft;
pub mod faults;
mod fields;
mod form_texts;
mod forms;
mod goals;
mod known;
mod known_texts;
pub mod laws;
pub mod limits;
mod lists;
mod numbers;
mod parts;
pub mod reading;
mod stages;
mod tagged;
pub mod writing;

pub use faults::{CertificateError, CertificateFault};
pub use known::{push_known_at, push_known_text};
pub use laws::cases_are_read_again;
pub use reading::read_certificate;
pub use writing::{push_state, write_certificate};
