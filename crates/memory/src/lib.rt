//! One word memory, and a hart's FIFO of stores that have not reached it.
//!
//! The contract: a [`words::Memory`] is seen as the list of its words and a
//! [`store_buffer::StoreBuffer`] as the list of its pending writes, oldest first; each call is one step on
//! that list. A write covers 1, 2 or 4 bytes of one word, the lowest first. This crate knows no hart, no
//! instruction and no order between buffers, and takes memory in `Memory::open` and `Memory::save` alone.
//!
//! Called by `step_machine`, `ztso_axioms`, `chart`, `debugger` and `ownership_runs`.

#![tactic(auto)]

pub mod store_buffer;
pub mod words;
pub mod writes;
