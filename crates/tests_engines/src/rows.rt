//! Each engine once, on inputs whose answer a page of docs/ has or whose few steps are worked out by hand.

use crate::engines::Engine;

/// An engine with its inputs and what it writes.
#[derive(Clone, Copy)]
pub struct Row {
    pub engine: Engine,
    pub texts: [&'static [u8]; 4],
    pub wanted: &'static [u8],
}

const NONE: &[u8] = b"";

const STORE_BUFFERING: &[u8] = b"RISCV SB
{
0:x5=1; 0:x6=x; 0:x8=y;
1:x5=1; 1:x6=y; 1:x8=x;
}
 P0          | P1          ;
 sw x5,0(x6) | sw x5,0(x6) ;
 lw x7,0(x8) | lw x7,0(x8) ;
exists (0:x7=0 /\\ 1:x7=0)
";

const SCHEDULE: &[u8] = b"ztso-schedule 1\na0 a1 a0 a1 l0 l1\n";

/// The same of version 2.
const RECORD: &[u8] = b"ztso-schedule 2
a0 store 0 0 1
a1 store 1 4 1
a0 load 0 4 0
a1 load 1 0 0
l0 land 0
l1 land 1
";

const ONE_STORE: &[u8] = b"RISCV S\n{0:x5=1; 0:x6=x}\n P0 ;\n sw x5,0(x6) ;\nexists (x=1)\n";

/// The second is of a finished run.
const TWO_RECORDS: &[u8] = b"ztso-schedule 2
a0 store 0 0 1
ztso-schedule 2
a0 store 0 0 1
l0 land 0
";

pub const ROWS: [Row; 19] = [
    Row {
        engine: Engine::Asm,
        texts: [b"loop: addi x5,x5,-1\nbnez x5,loop\n", NONE, NONE, NONE],
        wanted: b"fff28293\nfe029ee3\n",
    },
    Row {
        engine: Engine::Dis,
        texts: [b"FE029EE3 00000000\n", NONE, NONE, NONE],
        wanted: b"bne x5,x0,-4\nillegal\n",
    },
    Row {
        engine: Engine::Steps,
        texts: [b"hart 00532023\nreg 0 5 7\nsteps a0 l0\n", NONE, NONE, NONE],
        wanted: b"hart 0 ended pc 4 pending 0\nx5 = 7\nword 0 = 7\n",
    },
    Row {
        engine: Engine::Run,
        texts: [STORE_BUFFERING, SCHEDULE, NONE, NONE],
        wanted: b"hart 0 ended pc 8 pending 0
x5 = 1
x8 = 4
hart 1 ended pc 8 pending 0
x5 = 1
x6 = 4
word 0 = 1
word 4 = 1
Holds
",
    },
    Row {
        engine: Engine::Replay,
        texts: [STORE_BUFFERING, SCHEDULE, NONE, NONE],
        wanted: b"store 0 0 1\nstore 1 4 1\nload 0 4 0\nload 1 0 0\nland 0\nland 1\n",
    },
    Row {
        engine: Engine::Move,
        texts: [STORE_BUFFERING, SCHEDULE, NONE, NONE],
        wanted: RECORD,
    },
    Row {
        engine: Engine::Callers,
        texts: [STORE_BUFFERING, NONE, NONE, NONE],
        wanted: b"ztso-schedule 1\nhart 0 has no lamport_try_send in its code\n",
    },
    // what a record says is read again
    Row {
        engine: Engine::Move,
        texts: [STORE_BUFFERING, RECORD, NONE, NONE],
        wanted: RECORD,
    },
    Row {
        engine: Engine::Shrink,
        texts: [
            STORE_BUFFERING,
            b"ztso-schedule 1\nl0 a0 a1*2 l1 a0*3 l1 l0 a1\n",
            NONE,
            NONE,
        ],
        wanted: b"ztso-schedule 1\na0 a1*2 l1 a0 l0\n",
    },
    Row {
        engine: Engine::Chart,
        texts: [
            STORE_BUFFERING,
            b"ztso-schedule 1\na0*2 a1*2 l0 l1\n",
            NONE,
            NONE,
        ],
        wanted: b"SB

       P0                              P1                                memory
    1  sw x5,0(x6)  x := 1 --------.
    2  lw x7,0(x8)  y = 0 [init]   |
    3                              |   sw x5,0(x6)  y := 1 --------.
    4                              |   lw x7,0(x8)  x = 0 [init]   |
    5                              '-------------------------------|---> x = 1 [1]
    6                                                              '---> y = 1 [3]

last value: 0:x7 = 0
last value: 1:x7 = 0
Holds: exists (0:x7=0 /\\ 1:x7=0)
",
    },
    Row {
        engine: Engine::Show,
        texts: [STORE_BUFFERING, NONE, NONE, NONE],
        wanted: b"test SB
hart 0
code 0 0 7 00532023 sw x5,0(x6)
code 0 4 8 00042383 lw x7,0(x8)
reg 0 5 1
reg 0 8 4
hart 1
code 1 0 7 00532023 sw x5,0(x6)
code 1 4 8 00042383 lw x7,0(x8)
reg 1 5 1
reg 1 6 4
location 0 0 x
location 4 0 y
left 0:x7
left 1:x7
condition exists (0:x7=0 /\\ 1:x7=0)
",
    },
    // no event is before the store's act, and its landing is after it
    Row {
        engine: Engine::Find,
        texts: [ONE_STORE, NONE, NONE, NONE],
        wanted: b"ztso-schedule 1\na0 l0\n",
    },
    // each record's line is written before the next one is read
    Row {
        engine: Engine::Check,
        texts: [ONE_STORE, TWO_RECORDS, NONE, NONE],
        wanted: b"1 unfinished\n2 accepted\n1 x=1 ; record 2\nunfinished 1\nrefused 0\n",
    },
    Row {
        engine: Engine::Debug,
        texts: [STORE_BUFFERING, SCHEDULE, b"s\np 0\nz\nq\n", NONE],
        wanted: b"store 0 0 1\n0 1\n?\n",
    },
    Row {
        engine: Engine::Channel,
        texts: [
            b"ztso-schedule 1\na1*10 l1 a0*13 l1 a0*16\n",
            b"9 9 9\n",
            NONE,
            NONE,
        ],
        wanted: b"took 0 9\n",
    },
    // nobody sends, and the receiver reports a word that it didn't take
    Row {
        engine: Engine::UserChannel,
        texts: [
            b"wait: j wait\n",
            b"addi x17,x0,2\naddi x11,x0,9\necall\n",
            b"ztso-schedule 1\na0*3\n",
            b"9\n",
        ],
        wanted: b"took 0 9\n",
    },
    // nobody sends and nobody takes
    Row {
        engine: Engine::Ring,
        texts: [b"wait: j wait\n", b"wait: j wait\n", b"9 8 7\n", NONE],
        wanted: b"clean 1 runs\nsender 0 took at most 0 of 3 words, closed in 0 runs\n",
    },
    // the words of the generator draw, of one hart, two landings, an act and a landing
    Row {
        engine: Engine::Try,
        texts: [ONE_STORE, NONE, NONE, NONE],
        wanted: b"1 x=1 ; l0*2 a0 l0\nunfinished 0\n",
    },
    // without a turn there is no event
    Row {
        engine: Engine::Threads,
        texts: [ONE_STORE, NONE, NONE, NONE],
        wanted: b"ztso-schedule 1\nhart 0 running pc 0 pending 0\nx5 = 1\nUnfinished\n",
    },
];
