use texts::cutting::{is_all, stripped, without_leading};
use texts::{Separators, first_line, hex_number, integer, number};

#[test]
fn numbers_above_32_bits_are_one_number(rt: HostRuntime) {
    assert_same!(rt; number(b"4294967295"), Some(4294967295));
    assert_same!(rt; number(b"99999999999999999999"), Some(4294967296));
    assert_same!(rt; integer(b"99999999999"), Some(4294967296));
    assert_same!(rt; integer(b"-0x1f"), Some(-31));
    assert_same!(rt; hex_number(b"1F"), Some(31));
    assert_same!(rt; hex_number(b"1G"), None);
}

#[test]
fn a_carriage_return_ends_a_line_with_a_line_feed_alone(rt: HostRuntime) {
    let (line, rest) = first_line(b"a\rb\r\nc\r").expect(&rt, "a line");
    assert_same!(rt; line, b"a\rb".as_slice());
    let (line, _) = first_line(rest).expect(&rt, "a second line");
    assert_same!(rt; line, b"c\r".as_slice());
}

#[test]
fn a_carriage_return_is_no_gap(rt: HostRuntime) {
    let front = without_leading(Separators::Gaps, b"\n \ra\n");
    assert_same!(rt; front, b"\ra\n".as_slice());
    let both = stripped(Separators::Gaps, b"\n \r a\n\t");
    assert_same!(rt; both, b"\r a".as_slice());
    assert_same!(rt; is_all(Separators::Gaps, b"\n \t"), true);
    assert_same!(rt; is_all(Separators::Gaps, b"\r\n"), false);
}
