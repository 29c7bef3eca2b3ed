//! Instruction words of RV32I and of the word AMOs of the A extension, to and from instructions.
//!
//! The contract: [`decode`] answers an instruction exactly where the word means it by the table of
//! the RISC-V Unprivileged ISA (`specs/Means.antt`), and `None` exactly where no row of it applies.
//! [`encode`] gives the one plain word that means the instruction, wherever [`fits`] says that there is
//! one ([`laws::one_plain_word`]).
//! [`register_named`] answers the register of a name, by the table of `specs/Registers.antt`.
//! This crate executes nothing, keeps no state and takes no memory.
//!
//! Called by more than 6 crates, from `hart` to `certifying`.

#![tactic(auto)]

mod decoder;
mod encoder;
pub mod instruction;
pub mod laws;
mod opcode;
mod operations;
pub mod registers;
pub mod tables;
mod word;

pub use decoder::decode;
pub use encoder::{encode, fits};
pub use instruction::{
    AmoOp, BranchOp, ImmediateOp, Instr, LoadOp, Reg, RegisterOp, ShiftOp, StoreOp,
};
pub use registers::register_named;
