use drawn_runs::Jump;
use rand_core::Rng;
use rand_pcg::Pcg32;

/// The words are those that PCG's own demonstration prints: the fourth and the fifth.
#[test]
fn a_jump_passes_over_words(rt: HostRuntime) {
    let generator = Pcg32::new(42, 54);
    let mut there = generator.ahead(1, 3).expect(&rt, "a jump");
    assert_same!(rt; there.next_u32(), 0x83d2f293);
    assert_same!(rt; there.next_u32(), 0xbfa4784b);
}

/// 2^64 words come round again, and here as 2^62 blocks of 4.
#[test]
fn a_jump_may_pass_the_period(rt: HostRuntime) {
    let generator = Pcg32::new(42, 54);
    let mut there = generator
        .ahead(0x4000_0000_0000_0000, 4)
        .expect(&rt, "a jump");
    assert_same!(rt; there.next_u32(), 0xa15c02b7);
}
