//! Where a channel's blocks lie.

ghost use Rattle.std.specs.Prelude.{◌≡◌, ◌<◌, ◌^◌, []};
ghost use Rattle.poll_close.specs.Layout.{dense, layout_of, stride_or_dense};

/// Where the blocks of a channel lie in memory.
#[derive(Clone, Copy, PartialEq, Eq)]
pub struct BlockPlace {
    /// How many slots each ring has.
    pub slots: u32,
    /// The byte at which block 0 begins.
    pub base: u32,
    /// How many bytes after the beginning of a block the next one begins. If it is left out, that is where
    /// the block ends.
    pub stride: Option<u32>,
}

impl BlockPlace {
    /// Rings of `slots` slots, one block after the other from address 0 on.
    pub fn dense(slots: u32) -> BlockPlace
        ensures { layout_of result [] ≡ dense slots }
    {
        BlockPlace {
            slots,
            base: 0,
            stride: None,
        }
    }

    /// How many bytes after the beginning of a block the next one begins.
    pub fn stride_or_dense(self) -> u64
        ensures value { result ≡ stride_or_dense self.slots self.stride }
        ensures small { result < 2 ^ 35 }
    {
        match self.stride {
            Some(stride) => stride as u64,
            None => 16 + 4 * self.slots as u64,
        }
    }
}
