//! The symbols of a condition.

/// A place whose last value a condition asks for.
#[derive(Clone, Copy, PartialEq, Eq)]
pub enum Place {
    /// Register x`number` of a hart.
    Register { hart: u32, number: u8 },
    /// The word of memory at an address in bytes.
    Word { address: u32 },
}

/// A symbol of a condition, its place known.
#[derive(Clone, Copy, PartialEq, Eq)]
pub enum Symbol {
    /// The place has this value.
    Is { place: Place, value: u32 },
    Not,
    And,
    Or,
    Open,
    Close,
}

/// A step of a condition that is evaluated from the left, with one truth value and no other memory.
#[derive(Clone, Copy, PartialEq, Eq)]
pub(crate) enum Step {
    /// The value becomes whether the place has this value.
    Is { place: Place, value: u32 },
    /// The value becomes its opposite.
    Not,
    /// A false value stays, and this number of steps is skipped.
    And { skip: usize },
    /// A true value stays, and this number of steps is skipped.
    Or { skip: usize },
}

/// What stands in front of the operand that comes next, within one pair of parentheses.
#[derive(Clone, Copy)]
pub(crate) struct Frame {
    /// Where the `Or` step stands that joins the disjuncts so far to what comes.
    pub(crate) or_at: Option<usize>,
    /// Where the `And` step stands that joins the conjuncts so far to what comes.
    pub(crate) and_at: Option<usize>,
    /// How many negations the operand has in front of it.
    pub(crate) negations: usize,
}
