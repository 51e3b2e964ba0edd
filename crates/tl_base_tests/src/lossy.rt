//! Tests of byte strings by their lossy texts.
use tl_selector::attr_value::{begins_with, ends_with, has_part, has_word, is_same_text};

// What the five tests say of a value and another, in the order of the columns below.
fn comparisons(value: &[u8], other: &[u8]) -> (bool, bool, bool, bool, bool) {
    (
        is_same_text(value, other),
        begins_with(value, other),
        ends_with(value, other),
        has_part(value, other),
        has_word(value, other),
    )
}

const NONE: (bool, bool, bool, bool, bool) = (false, false, false, false, false);

// Values, what is sought, and whether it is the same, stands at the front, at the end, anywhere,
// and as a word.
const ROWS: &[(&[u8], &[u8], (bool, bool, bool, bool, bool))] = &[
    (b"", b"", (true, true, true, true, false)),
    (b"x", b"", (false, true, true, true, false)),
    (b"", b"x", NONE),
    (b"x", b"x", (true, true, true, true, true)),
    (b"xy", b"x", (false, true, false, true, false)),
    (b"yx", b"x", (false, false, true, true, false)),
    (b"yxz", b"x", (false, false, false, true, false)),
    (b"x", b"xy", NONE),
    (b"X", b"x", NONE),
    (b"y x z", b"x", (false, false, false, true, true)),
    (b" x", b"x", (false, false, true, true, true)),
    (b"xy x", b"x", (false, true, true, true, true)),
    (b"x y", b"x y", (true, true, true, true, false)),
    (b"y\xc2\xa0x", b"x", (false, false, true, true, true)),
    (b"y\xc2\x85x", b"x", (false, false, true, true, true)),
    (b"x\xe2\x80\x83y", b"x", (false, true, false, true, true)),
    (b"y\x0bx", b"x", (false, false, true, true, true)),
    (b"y\x1cx", b"x", (false, false, true, true, false)),
    (b"\xff", b"\xfe", (true, true, true, true, true)),
    (b"\xff", b"\xef\xbf\xbd", (true, true, true, true, true)),
    (b"\xff\xff", b"\xfe", (false, true, true, true, false)),
    (b"\xe2\x82", b"\xff", (true, true, true, true, true)),
    (b"a\xffb", b"\xfe", (false, false, false, true, false)),
    (b"\xc3\xa9", b"\xc3", NONE),
    (b"\xc3\xa9", b"\xa9", NONE),
    (b"x\xc3\xa9", b"\xc3\xa9", (false, false, true, true, false)),
    (b"\xff x", b"x", (false, false, true, true, true)),
];

#[test]
fn values_are_compared_by_their_texts(rt: HostRuntime) {
    for (place, (value, other, wanted)) in ROWS.iter().enumerate() {
        assert!(rt; comparisons(value, other) == *wanted, "row {place}");
    }
}
