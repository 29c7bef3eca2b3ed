//! The words of FastForward's functions. They differ from Lamport's in what their parties look at: the slot, and no index of
//! the other one.

ghost use Rattle.std.specs.Prelude.{◌≡◌};
ghost use Rattle.rv_decode.specs.Listings.{words_of};
ghost use Rattle.spsc_queue.specs.FastForward.{fastforward_send, fastforward_receive};

/// The words of `fastforward_send`: the registers of `try_send`, and a1 isn't 0.
const FASTFORWARD_SEND: [u32; 13] = [
    0x00052283, 0x005503B3, 0x0803A303, 0x02031063, 0x00428293, 0x00C29463, 0x00000293, 0x08B3A023,
    0x00552023, 0x00100513, 0x00008067, 0x00000513, 0x00008067,
];

/// The words of `fastforward_receive`: the registers of `try_receive`.
const FASTFORWARD_RECEIVE: [u32; 13] = [
    0x04052283, 0x005503B3, 0x0803A583, 0x02058063, 0x00428293, 0x00C29463, 0x00000293, 0x0803A023,
    0x04552023, 0x00100513, 0x00008067, 0x00000513, 0x00008067,
];

/// The words of FastForward's function that sends.
pub fn fastforward_send_words() -> &'static [u32]
    ensures { result.now ≡ words_of fastforward_send }
{
    &FASTFORWARD_SEND
}

/// The words of FastForward's function that receives.
pub fn fastforward_receive_words() -> &'static [u32]
    ensures { result.now ≡ words_of fastforward_receive }
{
    &FASTFORWARD_RECEIVE
}
