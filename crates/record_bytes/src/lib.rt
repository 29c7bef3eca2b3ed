//! Which bytes of a record a text names, as `all` or `0-3,8`.
//!
//! The contract: [`is_bytes`] tells whether a text names bytes, [`ranges_in`] returns which of the bytes below a width it names, as the
//! shortest list of ranges, [`joined`] makes one of two, and [`ranges_without`] takes bytes from ranges. This crate reads no command line and knows no queue.
//!
//! Called by `command_line`, `records_written` and `certifying`.

#![tactic(auto)]

mod naming;
mod ranges;

pub use naming::{is_bytes, ranges_in};
pub use ranges::{ByteRange, joined, part_after, part_before, ranges_without};
