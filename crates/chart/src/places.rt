//! Where the columns, lanes and texts of a picture stand.

ghost use Rattle.std.specs.Prelude.{◌≡◌, ◌<◌, ◌≤◌, ◌^◌, ◌*◌, min};
ghost use Rattle.chart.specs.Places.{rank, columns, pitch, first_cell, lane_cell, memory_cell};

use crate::lanes::Held;

/// Whether all harts share one column, how many harts there are, the cells of a column's text, and how many
/// lanes it has.
#[derive(Clone, Copy, PartialEq, Eq)]
pub struct Places {
    pub listed: bool,
    pub harts: u32,
    pub text: u8,
    pub lanes: u8,
}

/// A number of columns, at most 255.
fn capped(count: u32) -> u8
    ensures { result ≡ min count 255 }
{
    count.min(255) as u8
}

/// A column's first cell, where `rank` columns stand to its left.
#[tactic(auto, using(crate::proofs::StepLaws::product_most))]
fn columns_on(rank: u8, pitch: u16) -> u32
    ensures value { result ≡ rank * pitch }
    ensures most { result < 2 ^ 24 }
{
    u32::from(rank) * u32::from(pitch)
}

impl Places {
    fn rank(&self, column: u32) -> u8
        ensures { result ≡ rank self.now column }
    {
        if self.listed { 0 } else { capped(column) }
    }

    fn columns(&self) -> u8
        ensures { result ≡ columns self.now }
    {
        if self.listed { 1 } else { capped(self.harts) }
    }

    /// From one column's first cell to the next one's.
    fn pitch(&self) -> u16
        ensures { result ≡ pitch self.now }
    {
        u16::from(self.text) + 2 * u16::from(self.lanes) + 4
    }

    /// A column's first cell.
    pub(crate) fn begins(&self, column: u32) -> u32
        ensures value { result ≡ first_cell self.now column }
        ensures most { result < 2 ^ 25 }
    {
        7 + columns_on(self.rank(column), self.pitch())
    }

    /// The cell of a lane. A column's lanes stand to the right of its text, lane 0 rightmost.
    pub(crate) fn lane_cell(&self, held: Held) -> u32
        ensures value { result ≡ lane_cell self.now held }
        ensures most { result < 2 ^ 26 }
    {
        let lanes = usize::from(self.lanes).saturating_sub(held.lane) as u32;
        self.begins(held.column) + u32::from(self.text) + 2 * lanes
    }

    /// Memory's first cell, two to the right of where a further column would begin.
    pub(crate) fn memory_cell(&self) -> u32
        ensures value { result ≡ memory_cell self.now }
        ensures most { result < 2 ^ 25 }
    {
        9 + columns_on(self.columns(), self.pitch())
    }
}
