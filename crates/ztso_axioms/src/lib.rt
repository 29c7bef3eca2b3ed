//! The memory model of the standard, RVWMO with Ztso, as axioms over a global memory order, and that the
//! step machine keeps it.
//!
//! The contract: [`check`] answers true exactly where a list of operations is a global memory order
//! that the axioms allow for a trace (`Ztso` of `specs/Axioms.antt`, in which there is no buffer),
//! [`order_of`] gives the order in which a trace performed its operations, and
//! [`traces_satisfy_ztso`] says that this order is allowed wherever the trace is one of a machine.
//! This crate runs no machine and prints nothing; [`check`] takes no memory.
//!
//! Called by none: its laws are what it is for.

#![tactic(auto)]

mod checking;
mod laws;
mod operation;
mod performing;

pub use checking::check;
pub use laws::traces_satisfy_ztso;
pub use operation::Op;
pub use performing::order_of;
