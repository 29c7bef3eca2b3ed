//! Whether a sender waits for the receiver.

ghost use Rattle.std.specs.Prelude.{◌≡◌, ◌<◌, IfSome, length};
ghost use Rattle.step_machine.specs.Paths.{state_of};
ghost use Rattle.step_machine.specs.WordReads.{word_in_memory};
ghost use Rattle.poll_close.specs.Waiting.{waits_at, is_ready_by, MayLoad};

use hart::status::Status;
use step_machine::Machine;

/// Whether the hart runs and doesn't wait. It waits if it is at `line`, about to load the word `offset` bytes after what
/// register `base` holds, and finds there what the register `full` holds, or any word but 0 if that is left out.
pub fn is_ready_at<const B: usize, const M: usize>(
    machine: &Machine<B, M>,
    hart: u32,
    line: u32,
    base: u8,
    offset: u32,
    full: Option<u8>,
) -> bool
    requires hart { hart < length machine.now.history.opening.harts }
    requires base { base < 32 }
    requires full { IfSome full (λ register. register < 32) }
    requires load { MayLoad M machine.now.history hart line base offset }
    ensures { result ≡ is_ready_by (waits_at line base offset full)
        (word_in_memory machine.now.history.opening machine.now.history.entries) (state_of M machine.now.history hart) }
{
    match machine.status(hart) {
        Status::Running => {
            if machine.pc(hart) != line {
                return true;
            }
            let word = machine.word(machine.register(hart, base) + offset);
            match full {
                Some(register) => word != machine.register(hart, register),
                None => word == 0,
            }
        }
        Status::Ended => false,
        Status::Stopped(_) => false,
    }
}
