//! A write of some bytes of one word.

ghost use Rattle.std.specs.Prelude.{◌≡◌, ◌-◌, ◌+◌, ◌*◌, ◌/◌, ◌%◌, ◌<◌, ◌≤◌, IsTrue};
ghost use Rattle.std.specs.Int.{byte_at};
ghost use Rattle.memory.specs.Writes.{covers, byte_after, over, joined, is_width, IsInWord, WritesInWord};

/// `width` bytes of one word of memory, from `addr` on, and the number that they get: its lowest byte
/// goes to the lowest address.
#[derive(Clone, Copy, Debug, Default, PartialEq, Eq)]
pub struct Write {
    pub addr: u32,
    pub width: u32,
    pub value: u32,
}

impl Write {
    /// Whether the byte at this address is among those written.
    pub fn covers(self, addr: u32) -> bool
        ensures { result ≡ covers self addr }
    {
        self.addr <= addr && addr - self.addr < self.width
    }

    /// The byte written to an address that is covered.
    pub fn byte(self, addr: u32) -> u8
        requires covered { IsTrue (covers self addr) }
        requires small { WritesInWord self }
        ensures { result ≡ byte_at (addr - self.addr) self.value }
    {
        byte_at(self.value, addr - self.addr)
    }

    /// The word in which this write is, after it.
    #[tactic(auto, using(crate::proofs::Bytes::over_whole))]
    pub fn over(self, word: u32) -> u32
        requires { WritesInWord self }
        ensures { result ≡ over self word }
    {
        if self.width == 4 {
            self.value
        } else {
            u32::from_le_bytes([
                self.byte_over(word, 0),
                self.byte_over(word, 1),
                self.byte_over(word, 2),
                self.byte_over(word, 3),
            ])
        }
    }

    /// Byte `place` of the word in which this write is, after it.
    fn byte_over(self, word: u32, place: u32) -> u8
        requires small { WritesInWord self }
        requires place { place < 4 }
        ensures { result ≡ byte_after self (self.addr / 4 * 4 + place) (byte_at place word) }
    {
        let addr = self.addr / 4 * 4 + place;
        if self.covers(addr) {
            self.byte(addr)
        } else {
            byte_at(word, place)
        }
    }
}

/// Byte `place` of a word; byte 0 is the lowest.
pub(crate) fn byte_at(word: u32, place: u32) -> u8
    requires { place < 4 }
    ensures { result ≡ byte_at place word }
{
    word.to_le_bytes()[place as usize]
}

/// The number in `width` bytes of a word, from the byte at `addr` on.
pub fn part(word: u32, addr: u32, width: u32) -> u32
    requires width { IsTrue (is_width width) }
    requires in_word { IsInWord width addr }
    ensures { result ≡ joined (λ i. byte_at (addr % 4 + i) word) width }
{
    let first = addr % 4;
    match width {
        4 => word,
        2 => u32::from(u16::from_le_bytes([byte_at(word, first), byte_at(word, first + 1)])),
        _ => u32::from(byte_at(word, first)),
    }
}
