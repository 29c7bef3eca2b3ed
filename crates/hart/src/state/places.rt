//! Where a hart stands, piece by piece, and a hart put at any place.

ghost use Rattle.std.specs.Prelude.{◌≡◌, length};
ghost use Rattle.hart.specs.Saved.{standing, IsOfItsOpening};

use crate::state::Hart;
use crate::status::Status;

impl Hart {
    /// The words in x0 to x31.
    pub fn registers(&self) -> &[u32; 32]
        ensures { result.now ≡ self.now.state.registers }
    {
        &self.registers
    }

    /// The words with which x0 to x31 opened.
    pub fn first_registers(&self) -> &[u32; 32]
        ensures { result.now ≡ self.now.first.registers }
    {
        &self.first
    }

    /// How many words of its inbox the hart hasn't asked for.
    pub fn left(&self) -> usize
        ensures value { result ≡ length self.now.state.inbox }
        ensures own { IsOfItsOpening self.now }
    {
        self.inbox.len() - self.given
    }

    /// Puts the hart there: with these registers except x0, which is 0, with the last `left` words of its
    /// inbox still to be given, and with no report. It takes no memory, and the room for steps stays.
    pub fn stand(&mut self, registers: [u32; 32], pc: u32, left: usize, status: Status)
        ensures value { self.new ≡ standing self.old registers pc left status }
        ensures own { IsOfItsOpening self.new }
    {
        self.registers = registers;
        self.registers[0] = 0;
        self.pc = pc;
        self.given = self.inbox.len().saturating_sub(left);
        self.status = status;
        self.reports.clear();
    }
}
