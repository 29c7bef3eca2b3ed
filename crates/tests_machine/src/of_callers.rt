//! The crate `callers`.

use crate::given::NoProgress;
use callers::{Queue, QueueKind, check_callers};
use drawn_runs::{Draw, Runs, Sample};
use litmus::Test;
use rand_core::SeedableRng;
use rand_pcg::Pcg32;
use std::alloc::{AllocError, Global};
use std::thread::Threads;

/// Hart 0 writes a message at 512 and sends its address by the queue at 64, which has two slots; hart 1 tries to receive.
const MESSAGE: &str = "RISCV message
{
int x=5;
0:x8=64; 0:x9=8; 0:x18=512;
1:x8=64; 1:x9=8;
}
 P0                 | P1                  ;
 sw x9,0(x18)       | addi x10,x8,0       ;
 addi x10,x8,0      | addi x12,x9,0       ;
 addi x11,x18,0     | jal x1,recv         ;
 addi x12,x9,0      | jal x0,end          ;
 jal x1,send        | recv: lw x5,64(x10) ;
 jal x0,end         | lw x6,0(x10)        ;
 send: lw x5,0(x10) | beq x5,x6,empty     ;
 lw x6,64(x10)      | add x7,x10,x5       ;
 addi x7,x5,4       | lw x11,128(x7)      ;
 bne x7,x12,test    | addi x5,x5,4        ;
 addi x7,x0,0       | bne x5,x12,keep     ;
 test: beq x6,x7,full | addi x5,x0,0      ;
 add x5,x10,x5      | keep: sw x5,64(x10) ;
 sw x11,128(x5)     | addi x10,x0,1       ;
 sw x7,0(x10)       | jalr x0,0(x1)       ;
 addi x10,x0,1      | empty: addi x10,x0,0 ;
 jalr x0,0(x1)      | jalr x0,0(x1)       ;
 full: addi x10,x0,0 | end:               ;
 jalr x0,0(x1)      |                     ;
 end:               |                     ;
exists (1:x10=1)
";

/// The words from address 0 to 128 of a queue whose indices, at 0 and 64, open at its second slot.
const INDICES: &str =
    "int p0=4; int p1; int p2; int p3; int p4; int p5; int p6; int p7; int p8; int p9; int p10;
int p11; int p12; int p13; int p14; int p15; int p16=4; int p17; int p18; int p19; int p20; int p21;
int p22; int p23; int p24; int p25; int p26; int p27; int p28; int p29; int p30; int p31; int p32;
";

/// After these words and the settings of a test: hart 0 sends the word in its x18 by FastForward's queue at 0, which has two
/// slots, and hart 1 tries to receive.
const MAILBOX: &str = "1:x12=8;
}
 P0                 | P1                  ;
 addi x11,x18,0     | jal x1,recv         ;
 addi x12,x0,8      | jal x0,end          ;
 jal x1,send        | recv: lw x5,64(x10) ;
 jal x0,end         | add x7,x10,x5       ;
 send: lw x5,0(x10) | lw x11,128(x7)      ;
 add x7,x10,x5      | beq x11,x0,empty    ;
 lw x6,128(x7)      | addi x5,x5,4        ;
 bne x6,x0,full     | bne x5,x12,keep     ;
 addi x5,x5,4       | addi x5,x0,0        ;
 bne x5,x12,keep    | keep: sw x0,128(x7) ;
 addi x5,x0,0       | sw x5,64(x10)       ;
 keep: sw x11,128(x7) | addi x10,x0,1     ;
 sw x5,0(x10)       | jalr x0,0(x1)       ;
 addi x10,x0,1      | empty: addi x10,x0,0 ;
 jalr x0,0(x1)      | jalr x0,0(x1)       ;
 full: addi x10,x0,0 | end:               ;
 jalr x0,0(x1)      |                     ;
 end:               |                     ;
exists (1:x10=1)
";

/// The same by Lamport's queue with a cached tail.
const CACHED_MAILBOX: &str = "1:x12=8;
}
 P0                   | P1                   ;
 addi x11,x18,0       | jal x1,recv          ;
 addi x12,x0,8        | jal x0,end           ;
 jal x1,send          | recv: lw x5,64(x10)  ;
 jal x0,end           | lw x6,0(x10)         ;
 send: lw x5,0(x10)   | beq x5,x6,empty      ;
 lw x6,4(x10)         | add x7,x10,x5        ;
 addi x7,x5,4         | lw x11,128(x7)       ;
 bne x7,x12,test      | addi x5,x5,4         ;
 addi x7,x0,0         | bne x5,x12,keep      ;
 test: beq x6,x7,look | addi x5,x0,0         ;
 store: add x5,x10,x5 | keep: sw x5,64(x10)  ;
 sw x11,128(x5)       | addi x10,x0,1        ;
 sw x7,0(x10)         | jalr x0,0(x1)        ;
 addi x10,x0,1        | empty: addi x10,x0,0 ;
 jalr x0,0(x1)        | jalr x0,0(x1)        ;
 full: addi x10,x0,0  | end:                 ;
 jalr x0,0(x1)        |                      ;
 look: lw x6,64(x10)  |                      ;
 beq x6,x7,full       |                      ;
 sw x6,4(x10)         |                      ;
 jal x0,store         |                      ;
 end:                 |                      ;
exists (1:x10=1)
";

fn answer<T: Threads + Sync>(
    rt: &T,
    alloc: Global,
    test: &Test,
    queue: Queue,
    jobs: u32,
) -> Result<(String, bool), AllocError> {
    let generator = Pcg32::seed_from_u64(1);
    let sample = Sample {
        draw: Draw::Uniform,
        generator: &generator,
        runs: Runs {
            skip: 7,
            number: 20,
            length: 80,
            jobs,
        },
    };
    check_callers::<4, 1024, _, _, _>(rt, alloc, test, queue, &sample, &mut NoProgress)
}

#[test]
fn right_callers_of_lamports_are_kept_and_each_debt_is_named(rt: HostRuntime) {
    let test = litmus_reader::read(rt.alloc(), MESSAGE).expect(&rt, "a test");
    let rows = [
        (64, 2, 0, 1, "kept 20 runs\n"),
        (
            64,
            3,
            0,
            1,
            "ztso-schedule 1\na1*3\nhart 1 called with a2 = 8, not the bytes of the slots\n",
        ),
        (
            384,
            2,
            0,
            1,
            "ztso-schedule 1\na0\nhart 0 wrote to the block at 512 outside of a call, at pc 0\n",
        ),
        (
            64,
            2,
            1,
            0,
            "ztso-schedule 1\nhart 1 has no lamport_try_send in its code\n",
        ),
        (
            64,
            2,
            0,
            2,
            "ztso-schedule 1\nhart 2 has no lamport_try_receive in its code\n",
        ),
        (
            64,
            2,
            0,
            0,
            "ztso-schedule 1\nhart 0 both sends and receives\n",
        ),
        (
            4000,
            2,
            0,
            1,
            "ztso-schedule 1\nthe block isn't aligned to 4 bytes, has no slot, or ends past the memory\n",
        ),
    ];
    for (base, slots, sender, receiver, wanted) in rows {
        let queue = Queue {
            kind: QueueKind::Lamport,
            base,
            slots,
            sender,
            receiver,
        };
        let (text, is_kept) = answer(&rt, rt.alloc(), &test, queue, 2).expect(&rt, "an answer");
        // what the runs count to comes after the first line, and is in the cases
        assert_same!(rt; text.as_str().starts_with(wanted), true);
        assert_same!(rt; is_kept || text.len() == wanted.len(), true);
        assert_same!(rt; is_kept, wanted == "kept 20 runs\n");
    }
}

#[test]
fn right_callers_of_fastforwards_are_kept_and_each_debt_is_named(rt: HostRuntime) {
    let rows = [
        ("0:x18=7; ", "kept 20 runs\n"),
        (
            "",
            "ztso-schedule 1\na0*3\nhart 0 called with a1 = 0, which is no word\n",
        ),
        (
            "[p0]=8; ",
            "ztso-schedule 1\nthe index at 0 opens as 8, not as the offset of a slot\n",
        ),
        (
            "[p0]=0; ",
            "ztso-schedule 1\nthe slot at 132 opens as 0, where a word waits\n",
        ),
        (
            "[p32]=9; ",
            "ztso-schedule 1\nthe slot at 128 opens as 9 and not as 0\n",
        ),
    ];
    for (settings, wanted) in rows {
        let text = format!(in rt.alloc(); "RISCV mailbox\n{{\n{INDICES}{settings}{MAILBOX}").expect(
            &rt, "memory",
        );
        let test = litmus_reader::read(rt.alloc(), &text).expect(&rt, "a test");
        let queue = Queue {
            kind: QueueKind::FastForward,
            base: 0,
            slots: 2,
            sender: 0,
            receiver: 1,
        };
        let (text, is_kept) = answer(&rt, rt.alloc(), &test, queue, 1).expect(&rt, "an answer");
        // what the runs count to comes after the first line, and is in the cases
        assert_same!(rt; text.as_str().starts_with(wanted), true);
        assert_same!(rt; is_kept || text.len() == wanted.len(), true);
        assert_same!(rt; is_kept, wanted == "kept 20 runs\n");
    }
}

#[test]
fn right_callers_with_a_cached_tail_are_kept_and_each_debt_is_named(rt: HostRuntime) {
    let rows = [
        // by its copy the queue is full
        ("", 1, "kept 20 runs\n"),
        ("[p1]=4; ", 1, "kept 20 runs\n"),
        ("[p32]=9; ", 1, "kept 20 runs\n"),
        (
            "[p1]=2; ",
            1,
            "ztso-schedule 1\nthe copy of the tail at 4 opens as 2, not as an offset that the tail can have had\n",
        ),
        (
            "[p1]=8; ",
            1,
            "ztso-schedule 1\nthe copy of the tail at 4 opens as 8, not as an offset that the tail can have had\n",
        ),
        (
            "[p0]=0; [p1]=8; ",
            1,
            "ztso-schedule 1\nthe copy of the tail at 4 opens as 8, not as an offset that the tail can have had\n",
        ),
        (
            "",
            2,
            "ztso-schedule 1\nhart 2 has no lamport_try_receive in its code\n",
        ),
    ];
    for (settings, receiver, wanted) in rows {
        let text = format!(in rt.alloc();
            "RISCV mailbox\n{{\n{INDICES}{settings}{CACHED_MAILBOX}"
        ).expect(&rt, "memory");
        let test = litmus_reader::read(rt.alloc(), &text).expect(&rt, "a test");
        let queue = Queue {
            kind: QueueKind::Cached,
            base: 0,
            slots: 2,
            sender: 0,
            receiver,
        };
        let (text, is_kept) = answer(&rt, rt.alloc(), &test, queue, 1).expect(&rt, "an answer");
        // what the runs count to comes after the first line, and is in the cases
        assert_same!(rt; text.as_str().starts_with(wanted), true);
        assert_same!(rt; is_kept || text.len() == wanted.len(), true);
        assert_same!(rt; is_kept, wanted == "kept 20 runs\n");
    }
}
