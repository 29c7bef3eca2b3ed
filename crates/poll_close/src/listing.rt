//! The words of every ring's receiver.

/// The table of a receiver: the front and the end that all rings share, and between them the ring's five words, from
/// offset 14 to 24.
#[macro_export]
macro_rules! receiver {
    ($at_14:literal, $at_18:literal, $at_1c:literal, $at_20:literal, $at_24:literal) => {
        [
            0x000A8413, 0x00000B13, 0x00C42283, 0x04029E63, 0x00442F03, $at_14, $at_18, $at_1c,
            $at_20, $at_24, 0x00438393, 0x00939463, 0x00000393, 0x00742423, 0x000B0513, 0x00200893,
            0x00000073, 0x0240006F, 0x020F0063, 0x00100293, 0x00542623, 0x000B0513, 0x00300893,
            0x00000073, 0xFFFA0A13, 0x000A0A63, 0x01240433, 0x001B0B13, 0xF9341CE3, 0xF8DFF06F,
            0x05D00893, 0x00000073,
        ]
    };
}
