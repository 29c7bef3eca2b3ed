//! The picture of a run: its rows, where what they read came from, what they say, and its text and SVG.
//!
//! The contract: [`rows_of`] answers a row for each entry of a run, with the source of each byte that it
//! read (`specs/Sources.antt`) and, for a landing, the row of the store that landed; [`laws_of_sources`]
//! states that what is read is what the named sources give, and that a landing lands its own hart's
//! oldest pending store. [`naming`] names places of memory, [`saying`] writes what an
//! entry did and what it leaves in memory (`specs/Sayings.antt`), and [`tags`] its sources
//! (`specs/Tags.antt`); [`row_texts::row_texts`] lists all of them by rows. [`lanes`] gives each pending
//! store the lane in which its line stands (`specs/Lanes.antt`); [`laws_of_lanes`] states that no two lines
//! at one row have one lane.
//! [`charts::layout`] makes a picture of a run's entries, and [`charts::chart_text`] its text
//! (`specs/Layout.antt`, over `specs/Places.antt`, `specs/Scenes.antt` and `specs/Lines.antt`). [`pictures`]
//! is a picture as a value, and [`text::text`] writes it (`specs/Pictures.antt`). [`charts::chart_svg`] writes
//! the same picture in SVG (`specs/Svg.antt`). [`laws_of_texts`] states that no text of a row stands on another
//! text or on a line, for at most 255 harts and fewer than 10^7 entries. [`laws_of_columns`] states that columns
//! stand still while a run grows, where no row needs more than the test's least widths (`FitsColumns`).
//! This crate runs no machine: it reads entries alone.
//!
//! Called by `command_line` and `view_engines`.

#![tactic(auto)]

pub mod charts;
pub mod lanes;
pub mod laws;
mod layout;
mod least_widths;
pub mod naming;
pub mod pictures;
mod places;
pub mod row_texts;
mod rows;
pub mod saying;
mod scenes;
mod sources;
mod strokes;
mod svg;
pub mod tags;
pub mod text;

pub use laws::{laws_of_columns, laws_of_lanes, laws_of_sources, laws_of_texts};
pub use rows::{Row, rows_of};
pub use sources::{RowWrite, Source};
