use assembler::{AsmError, AsmFault, Draft};
use certificate_reader::{CertificateError, CertificateFault, read_certificate, write_certificate};
use litmus_tokens::{
    Assignment, Front, Location, Value, assignment_in, cleaned, first_token, item_in,
};
use queue_layouts::Codec;
use std::test::Fail;
use texts::Numbered;

#[test]
fn a_refused_line_leaves_the_draft(rt: HostRuntime) {
    let mut draft = Draft::new(rt.alloc());
    draft.line("li x5,0x12345FFF").expect(&rt, "two words");
    let refused = AsmError::at_line(AsmFault::UnknownName, 2);
    assert_same!(rt; draft.line("a: lwx x5"), Err(refused));
    assert_same!(rt; draft.words(), 2);
    draft.line("a: nop").expect(&rt, "a word");
    let words = draft.finish().expect(&rt, "words");
    assert_same!(rt;
        words.as_slice(),
        [0x123462B7, 0xFFF28293, 0x00000013].as_slice()
    );
}

#[test]
fn faults_have_their_numbers_and_texts(rt: HostRuntime) -> Result<(), Fail> {
    let faults = [
        (AsmFault::UnknownName, 2, "unknown name at line 9"),
        (AsmFault::BadOperand, 3, "bad operand at line 9"),
        (AsmFault::OutOfRange, 4, "out of range at line 9"),
        (AsmFault::NoSuchLabel, 5, "no such label at line 9"),
        (AsmFault::LabelTwice, 6, "label defined twice at line 9"),
        (AsmFault::TooLong, 7, "too long at line 9"),
    ];
    for (fault, number, text) in faults {
        let error = AsmError::at_line(fault, 9);
        assert_same!(rt; error.number(), number);
        assert_same!(rt; error.to_string(rt.alloc())?.as_str(), text);
    }
    let none = AsmError::NoMemory;
    assert_same!(rt; none.number(), 0);
    assert_same!(rt; none.to_string(rt.alloc())?.as_str(), "no memory");
    Ok(())
}

/// A queue for each way to tell.
const TAGGED: &str = "ztso-queues 1
tagged 0 1 0 1 4 0 4 zero 0
tagged 0 1 4 2 4 0 4 number 4294967296
tagged 0 1 12 1 4 1 1 bits 255 0 1 7 16 2
tagged 0 1 20 2 8 6 2 phases 32896 0 128 32896 32768 5
hart
open 0
";

#[test]
fn a_certificate_is_written_as_it_was_read(rt: HostRuntime) {
    let certificate = read_certificate(rt.alloc(), TAGGED.as_bytes()).expect(&rt, "a certificate");
    let phases = Codec::Phases {
        mask: 32896,
        free: 0,
        full: 128,
        odd_free: 32896,
        odd_full: 32768,
    };
    let last = certificate.tagged.last().map(|opened| opened.queue.codec);
    assert_same!(rt; last == Some(phases), true);
    let written = write_certificate(rt.alloc(), &certificate).expect(&rt, "its text");
    assert_same!(rt; written.as_str(), TAGGED);
}

#[test]
fn phase_bits_are_five_numbers(rt: HostRuntime) {
    let bad = CertificateError::at_line(CertificateFault::BadLine, 2);
    for text in [
        "ztso-queues 1\ntagged 0 1 20 2 8 6 2 phases 32896 0 128 32896 5\nhart\nopen 0\n",
        "ztso-queues 1\ntagged 0 1 20 2 8 6 2 phases 32896 0 128 5\nhart\nopen 0\n",
        "ztso-queues 1\ntagged 0 1 20 2 8 6 2 phases 32896 0 128 32896 32768 0 5\nhart\nopen 0\n",
        "ztso-queues 1\ntagged 0 1 20 2 8 6 2 phases 32896 0 128 32896 4294967296 5\nhart\nopen 0\n",
    ] {
        let fault = read_certificate(rt.alloc(), text.as_bytes()).err();
        assert_same!(rt; fault == Some(bad), true);
    }
}

/// The assignment of a number at a location.
fn at<'a>(name: &'a [u8], number: u32) -> Assignment<'a> {
    Assignment {
        location: Location::Memory(name),
        value: Value::Number(number),
    }
}

#[test]
fn comments_are_blanks(rt: HostRuntime) {
    let text = b"a(*)b\r\n*)c\r\nb\r(* (* *) *)";
    let wanted = b"a        c \nb\r         *)";
    let blank = cleaned(rt.alloc(), text).expect(&rt, "memory");
    assert_same!(rt; blank.as_slice(), wanted.as_slice());
}

#[test]
fn an_item_may_declare_where_a_assignment_may_not(rt: HostRuntime) {
    assert_same!(rt; item_in(b" int\tx "), Some(at(b"x", 0)));
    assert_same!(rt; assignment_in(b" int\tx "), None);
    assert_same!(rt; assignment_in(b"\n[ x\t] = -1"), Some(at(b"x", 4294967295)));
}

#[test]
fn a_token_is_the_whole_front_of_a_text(rt: HostRuntime) {
    assert_same!(rt; first_token(b"x=1 y=2"), Front::NoToken);
    assert_same!(rt; first_token(b" \n"), Front::End);
}
