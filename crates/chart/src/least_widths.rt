//! How wide columns are whatever the run.

/// How wide a test's columns are at least, so that they stand where they stand while its run grows: the
/// cells of a row's text with its instruction and without it, those of memory's texts, and the lanes of a
/// hart's column and of the one that all harts share.
#[derive(Clone, Copy, PartialEq, Eq)]
pub struct LeastWidths {
    pub label: u8,
    pub brief: u8,
    pub kept: u8,
    pub lanes: u8,
    pub listed_lanes: u8,
}
