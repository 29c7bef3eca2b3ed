//! What an instruction wants of the machine around its hart.

use crate::status::Stop;
use rv_decode::instruction::AmoOp;

/// What a hart reports of a channel by an environment call.
#[derive(Clone, Copy, Debug, PartialEq, Eq)]
pub enum Report {
    /// The word was taken from this sender.
    Took { sender: u32, word: u32 },
    /// This sender has nothing more.
    Closed { sender: u32 },
}

/// What the next instruction of a hart wants. A width is 1, 2 or 4 bytes; an address is in bytes, in
/// range, and a multiple of the width (4 for an AMO).
#[derive(Clone, Copy, Debug, PartialEq, Eq)]
pub enum Need {
    /// Nothing: registers and pc alone change.
    Inner,
    /// The number in `width` bytes from this address on, the lowest byte first.
    Load { addr: u32, width: u32 },
    /// This number, below 2 to the power of 8 `width`, stored to `width` bytes from this address on.
    Store { addr: u32, width: u32, value: u32 },
    /// The word at this address, replaced by `amo(op, word, rs2)` in one step.
    Amo { addr: u32, op: AmoOp, rs2: u32 },
    /// A fence; a full one orders earlier stores before later loads.
    Fence { full: bool },
    /// The next word of the hart's inbox, which is this one, or `None` where there is no more.
    Next { word: Option<u32> },
    /// This report added to the hart's reports.
    Report(Report),
    /// The end of the hart.
    Exit,
    /// The hart stops here.
    Stop(Stop),
}
