//! The words of Lamport's function that sends and keeps a copy of the tail in the block. It differs from `try_send` in that it looks at
//! the tail only where its copy says that the queue is full; `try_receive` receives.

ghost use Rattle.std.specs.Prelude.{◌≡◌};
ghost use Rattle.rv_decode.specs.Listings.{words_of};
ghost use Rattle.spsc_queue.specs.Cached.{cached_send};

/// The words of `cached_send`: the registers of `try_send`.
const CACHED_SEND: [u32; 17] = [
    0x00052283, 0x00452303, 0x00428393, 0x00C39463, 0x00000393, 0x02730063, 0x005502B3, 0x08B2A023,
    0x00752023, 0x00100513, 0x00008067, 0x00000513, 0x00008067, 0x04052303, 0xFE730AE3, 0x00652223,
    0xFD9FF06F,
];

/// The words of the function of Lamport's that sends, with a cached tail.
pub fn cached_send_words() -> &'static [u32]
    ensures { result.now ≡ words_of cached_send }
{
    &CACHED_SEND
}
