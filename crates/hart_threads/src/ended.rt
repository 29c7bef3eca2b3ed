//! Which harts' threads have ended. A lander's pace depends on it, and no contract.

ghost use Rattle.std.specs.Prelude.{◌≡◌, IfOk, vec_len};

use std::alloc::{AllocError, Global};
use std::sync::atomic::{AtomicBool, Ordering};

/// Of each hart, whether its thread has ended.
#[derive(Drop)]
pub(crate) struct Ended {
    threads: Vec<AtomicBool>,
}

impl Ended {
    /// Of this many harts, none.
    pub(crate) fn none(alloc: Global, harts: usize) -> Result<Ended, AllocError>
        ensures { IfOk result (λ ended. vec_len ended.threads ≡ harts) }
    {
        let mut threads = Vec::new(alloc);
        threads.resize_with(harts, || AtomicBool::new(false))?;
        Ok(Ended { threads })
    }

    /// Notes that the hart's thread has ended.
    pub(crate) fn note(&self, hart: u32) {
        if let Some(thread) = self.threads.get(hart as usize) {
            thread.store(true, Ordering::SeqCst);
        }
    }

    /// Whether the hart's thread has ended, as that of a hart that isn't there has.
    pub(crate) fn has(&self, hart: u32) -> bool {
        match self.threads.get(hart as usize) {
            Some(thread) => thread.load(Ordering::SeqCst),
            None => true,
        }
    }
}
