//! Tests of the commands' engines over a caller's readers and writers: they give and take few bytes a call, are
//! interrupted, and each of their calls fails. And the texts of `command_line`'s error.
//!
//! Without its tests this crate is empty: it promises nothing, and no crate uses it.

#![tactic(auto)]

#[cfg(test)]
mod devices;
#[cfg(test)]
mod engines;
#[cfg(test)]
mod of_command_line;
#[cfg(test)]
mod of_engines;
#[cfg(test)]
mod rows;
