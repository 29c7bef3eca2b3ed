//! Certificates, read from their texts, and their first flaws.

use certificate_reader::read_certificate;
use queue_checker::{
    Flaw, QueueCertificate, QueueFlaw, TaggedFlaw, first_flaw, first_unowned_rest,
};
use std::alloc::{AllocError, Global};
use std::process::Abort;
use std::test::Fail;
use step_machine::{HartOpening, Opening};

/// A hart with this code, whose x3 opens as 7.
fn hart(alloc: Global, code: &[u32]) -> Result<HartOpening, AllocError> {
    let mut registers = [0; 32];
    registers[3] = 7;
    Ok(HartOpening {
        code: Vec::from_slice(alloc, code)?,
        registers,
        inbox: Vec::new(alloc),
    })
}

fn alone(alloc: Global, code: &[u32]) -> Result<Opening, AllocError> {
    Ok(Opening {
        harts: vec![in alloc; hart(alloc, code)?]?,
        words: Vec::new(alloc),
    })
}

fn pair(alloc: Global, sender: &[u32], receiver: &[u32]) -> Result<Opening, AllocError> {
    Ok(Opening {
        harts: vec![in alloc; hart(alloc, sender)?, hart(alloc, receiver)?]?,
        words: Vec::new(alloc),
    })
}

/// The certificate whose text, after the head, has these two parts.
fn listed(
    rt: &(impl Abort + AllocGlobal),
    queues: &str,
    harts: &str,
) -> Result<QueueCertificate, AllocError> {
    let text = format!(in rt.alloc(); "ztso-queues 1\n{queues}{harts}")?;
    Ok(read_certificate(rt.alloc(), text.as_bytes()).expect(rt, "a certificate"))
}

/// jal x0,0
const JUMP_TO_ITSELF: [u32; 1] = [0x6f];

const GOES_ON: &str = "hart
open 0
state 0
leaf 0
to 0
";

const LEADS_NOWHERE: &str = "hart
open 0
state 0
leaf 0
";

const QUEUE_OF_ONE_HART: &str = "queue 0 0 0 4 4 8 4 4 4 0 1 0 4294967296 0
";

#[test]
fn states_lead_to_listed_ones(rt: HostRuntime) -> Result<(), Fail> {
    let opening = alone(rt.alloc(), &JUMP_TO_ITSELF)?;
    let state = Flaw::State { hart: 0, state: 0 };
    let queue = Flaw::Queue(0, QueueFlaw::OneHart);
    for (queues, harts, flaw) in [
        ("", GOES_ON, None),
        ("", LEADS_NOWHERE, Some(state)),
        (QUEUE_OF_ONE_HART, GOES_ON, Some(queue)),
    ] {
        let certificate = listed(&rt, queues, harts)?;
        assert_same!(rt; first_flaw(rt.alloc(), &opening, &certificate) == Ok(flaw), true);
    }
    Ok(())
}

#[test]
fn a_first_state_is_listed(rt: HostRuntime) -> Result<(), Fail> {
    let opening = alone(rt.alloc(), &JUMP_TO_ITSELF)?;
    let mut certificate = listed(&rt, "", GOES_ON)?;
    if let Some(part) = certificate.harts.first_mut() {
        part.first = 1;
    }
    let flaw = Flaw::Opening(0);
    assert_same!(rt; first_flaw(rt.alloc(), &opening, &certificate) == Ok(Some(flaw)), true);
    Ok(())
}

/// addi x1,x0,261; sh x1,0(x0); sb x1,2(x0); lh x3,0(x0); lbu x4,2(x0); jal x0,-20
const LOADS_HALF: [u32; 6] = [
    0x1050_0093,
    0x0010_1023,
    0x0010_0123,
    0x1183,
    0x0020_4203,
    0xfedf_f06f,
];
/// The same with lb x3,0(x0).
const LOADS_BYTE: [u32; 6] = [
    0x1050_0093,
    0x0010_1023,
    0x0010_0123,
    0x0183,
    0x0020_4203,
    0xfedf_f06f,
];
/// The byte has the lowest bits of what is stored.
const OWN_HALF_AND_BYTE: &str = "hart
own 0:2 2:1
open 0
state 0
leaf 0
to 1
state 4
reg 1 261
leaf 0
to 2
state 8
reg 1 261
word 0 261
leaf 0
to 3
state 12
word 0 261
word 1 5
leaf 0
to 4
state 16
reg 3 261
word 1 5
leaf 0
to 5
state 20
reg 3 261
reg 4 5
leaf 0
to 0
";

#[test]
fn loads_of_own_halves_and_bytes_are_known(rt: HostRuntime) -> Result<(), Fail> {
    let certificate = listed(&rt, "", OWN_HALF_AND_BYTE)?;
    let half = alone(rt.alloc(), &LOADS_HALF)?;
    assert_same!(rt; first_flaw(rt.alloc(), &half, &certificate) == Ok(None), true);
    let byte = alone(rt.alloc(), &LOADS_BYTE)?;
    let flaw = Flaw::State { hart: 0, state: 3 };
    assert_same!(rt; first_flaw(rt.alloc(), &byte, &certificate) == Ok(Some(flaw)), true);
    Ok(())
}

/// lw x1,0(x0); bne x1,x0,-4; sw x3,0(x0); jal x0,-12
const SENDER: [u32; 4] = [8323, 4261453539, 3153955, 4284477551];
/// lw x1,0(x0); beq x1,x0,-4; sw x0,0(x0); jal x0,-12
const RECEIVER: [u32; 4] = [8323, 4261449443, 8227, 4284477551];
/// The one slot is a tag alone: each party's states at its four instructions, two at the second, told that it has its position and not.
const TAG_ALONE: &str = "hart
open 0 0
state 0
most -
reg 3 7
share 0 1*0 0
leaf 0
to 1 1*1
to 2 1*1 1*0
state 4
most -
reg 1 0
reg 3 7
share 0 1*0 1
leaf 0
to 3 1*1
state 4
most - 4294967294
reg 1 1+1*1
reg 3 7
share 0 1*0 0
leaf 0
to 0 1*1
state 8
most -
reg 3 7
share 0 1*0 1
leaf 0
to 4 1+1*1
state 12
most -
reg 3 7
share 0 1*0 0
leaf 0
to 0 1*1
hart
open 0 0
state 0
most -
share 0 1*0 0
leaf 0
to 1 1*1 1*0
to 2 1*1
state 4
most - 4294967294
reg 1 1+1*1
share 0 1*0 1
leaf 0
to 3 1*1
state 4
most -
reg 1 0
share 0 1*0 0
leaf 0
to 0 1*1
state 8
most -
share 0 1*0 1
leaf 0
to 4 1+1*1
state 12
most -
share 0 1*0 0
leaf 0
to 0 1*1
";

#[test]
fn a_queue_of_one_tag_has_no_flaw(rt: HostRuntime) -> Result<(), Fail> {
    let alloc = rt.alloc();
    let opening = pair(alloc, &SENDER, &RECEIVER)?;
    let right = listed(&rt, "tagged 0 1 0 1 4 0 4 zero 0\n", TAG_ALONE)?;
    assert_same!(rt; first_flaw(alloc, &opening, &right) == Ok(None), true);
    assert_same!(rt; first_unowned_rest(alloc, &opening, &right, 0, 1) == Ok(None), true);
    let wide = listed(&rt, "tagged 0 1 0 1 4 0 5 zero 0\n", TAG_ALONE)?;
    let flaw = Flaw::Tagged(0, TaggedFlaw::WideTag);
    assert_same!(rt; first_flaw(alloc, &opening, &wide) == Ok(Some(flaw)), true);
    Ok(())
}

/// lw x1,4(x0); bne x1,x0,-4; sw x3,8(x0); sw x3,4(x0); jal x0,-16
const FILLER: [u32; 5] = [4202627, 4261453539, 3154979, 3154467, 4280283247];
/// lw x1,4(x0); beq x1,x0,-4; lw x2,8(x0); sw x0,4(x0); jal x0,-16
const READER: [u32; 5] = [4202627, 4261449443, 8397059, 8739, 4280283247];
/// The tag is the last 4 bytes of an element of 8, and the slot lies after it.
const TAG_BESIDE: &str = "hart
open 0 0
state 0
most -
reg 3 7
share 0 1*0 0
leaf 0
to 1 1*1
to 2 1*1 1*0
state 4
most -
reg 1 0
reg 3 7
share 0 1*0 1
leaf 0
to 3 1*1
state 4
most - 4294967294
reg 1 1+1*1
reg 3 7
share 0 1*0 0
leaf 0
to 0 1*1
state 8
most -
reg 3 7
share 0 1*0 1
leaf 0
to 4 1*1
state 12
most -
reg 3 7
share 0 1*0 1
leaf 0
to 5 1+1*1
state 16
most -
reg 3 7
share 0 1*0 0
leaf 0
to 0 1*1
hart
open 0 0
state 0
most -
share 0 1*0 0
leaf 0
to 1 1*1 1*0
to 2 1*1
state 4
most - 4294967294
reg 1 1+1*1
share 0 1*0 1
leaf 0
to 3 1*1
state 4
most -
reg 1 0
share 0 1*0 0
leaf 0
to 0 1*1
state 8
most -
share 0 1*0 1
leaf 0
to 4 1*1
state 12
most -
share 0 1*0 1
leaf 0
to 5 1+1*1
state 16
most -
share 0 1*0 0
leaf 0
to 0 1*1
";

#[test]
fn a_queue_with_its_tag_beside_its_slot_has_no_flaw(rt: HostRuntime) -> Result<(), Fail> {
    let alloc = rt.alloc();
    let opening = pair(alloc, &FILLER, &READER)?;
    let right = listed(&rt, "tagged 0 1 8 1 4 4 4 zero 0 0 8\n", TAG_BESIDE)?;
    assert_same!(rt; first_flaw(alloc, &opening, &right) == Ok(None), true);
    assert_same!(rt; first_unowned_rest(alloc, &opening, &right, 0, 1) == Ok(None), true);
    let overlapping = listed(&rt, "tagged 0 1 4 1 4 4 4 zero 0 0 8\n", TAG_BESIDE)?;
    let flaw = Flaw::Tagged(0, TaggedFlaw::Overlapping);
    assert_same!(rt; first_flaw(alloc, &opening, &overlapping) == Ok(Some(flaw)), true);
    Ok(())
}
