//! Words as LLVM's assembler makes them, and a hart by itself: neither memory nor buffers.

ghost use Rattle.std.specs.Prelude.{◌≤◌, length};

use hart::{Code, Hart, Need, Report, Status};
use rv_decode::{decode, encode, fits};
use std::process::Abort;
use std::test::Fail;

/// A hart of 4096 words of memory, with this code, and all its registers at `word`.
fn hart_at(rt: &(impl Abort + AllocGlobal), code: &[u32], word: u32, inbox: &[u32]) -> Hart
    requires { length code.now ≤ 4096 }
{
    let code = code.to_vec(rt.alloc()).expect(rt, "memory");
    let code = Code::decode(rt.alloc(), code).expect(rt, "memory");
    let inbox = inbox.to_vec(rt.alloc()).expect(rt, "memory");
    Hart::new(rt.alloc(), code, [word; 32], inbox, 4096)
}

/// Does the next instruction of a hart that runs, and says what it wanted. `word` is what it reads
/// where it reads.
fn step(rt: &impl Abort, hart: &mut Hart, word: u32) -> Need {
    hart.reserve(1).expect(rt, "memory");
    assert!(rt; matches!(hart.status(), Status::Running));
    let need = hart.next_need();
    match need {
        Need::Load { .. } | Need::Amo { .. } => hart.meet(need, Some(word)),
        _ => hart.advance(None),
    }
    need
}

#[test]
fn a_load_writes_the_word_that_it_is_given(rt: HostRuntime) {
    // lw x5,0(x6)
    let mut hart = hart_at(&rt, &[0x0003_2283], 8, &[]);
    assert_same!(rt; step(&rt, &mut hart, 7), Need::Load { addr: 8, width: 4 });
    assert_same!(rt; (hart.pc(), hart.register(5)), (4, 7));
    assert_same!(rt; (hart.register(0), hart.status()), (0, Status::Ended));
}

#[test]
fn a_restarted_hart_does_the_same_again(rt: HostRuntime) {
    // next, then x17 = 2 by addi, then took
    let code = [0x0000_0073, 0x0020_0893, 0x0000_0073];
    let mut hart = hart_at(&rt, &code, 1, &[70]);
    let took = Report::Took {
        sender: 70,
        word: 1,
    };
    for _ in 0..2 {
        assert_same!(rt; step(&rt, &mut hart, 0), Need::Next { word: Some(70) });
        step(&rt, &mut hart, 0);
        assert_same!(rt; step(&rt, &mut hart, 0), Need::Report(took));
        assert_same!(rt;
            (hart.reports(), hart.status()),
            ([took].as_slice(), Status::Ended)
        );
        hart.restart();
    }
}

#[test]
fn words_are_encoded_as_they_were(rt: HostRuntime) -> Result<(), Fail> {
    let words = [
        0x123462B7, 0xFFFFF197, 0xFD1FF06F, 0x7FFFF0EF, 0x00008067, 0x02058663, 0xFE638EE3,
        0x00042383, 0xFFF55483, 0x00532023, 0x7FFF0FA3, 0xFFF28293, 0x41F2D313, 0x40628233,
        0x0FF0000F, 0x8330000F, 0x00000073, 0x00100073, 0x08B6252F, 0xC421A0AF,
    ];
    for word in words {
        let instr = decode(word).ok_or("a word of the table")?;
        assert!(rt; fits(&instr), "at {word:#010x}");
        assert_same!(rt; encode(&instr), word);
    }
    Ok(())
}
