//! Which encoding pages say that they are in.
use tl_encoding::{ByteOrder, Encoding, MultiByte, SingleByte, encoding_marked, encoding_said};

const LATIN_1: Encoding = Encoding::SingleByte(SingleByte::Windows1252);

// Pages of ASCII, and what they say: it counts also where the bytes are UTF-8.
#[rattlefmt::skip]
static SAID: [(&[u8], Encoding); 8] = [
    (b"<p>a", Encoding::Utf8),
    (b"<meta charset=utf-8><p>a", Encoding::Utf8),
    (b"<meta charset=latin1><p>a", LATIN_1),
    (b"<?xml version=\"1.0\" encoding=\"latin1\"?><p>a", LATIN_1),
    (b"<?xml version=\"1.0\" encoding=\"latin1\"?><meta charset=utf-8>", Encoding::Utf8),
    (b"<meta charset=koi8-r><p>a", Encoding::SingleByte(SingleByte::Koi8R)),
    (b"<meta charset=utf-16le><p>a", Encoding::Utf8),
    (b"<meta charset=gbk><p>a", Encoding::MultiByte(MultiByte::Gbk)),
];

// What pages begin with, and the encoding of that as a mark.
#[rattlefmt::skip]
static MARKED: [(&[u8], Option<Encoding>); 5] = [
    (b"\xEF\xBB\xBFa", Some(Encoding::Utf8)),
    (b"\xFE\xFF\0a", Some(Encoding::Utf16(ByteOrder::BigEndian))),
    (b"\xFF\xFEa\0", Some(Encoding::Utf16(ByteOrder::LittleEndian))),
    (b"\xEF\xBBa", None),
    (b"", None),
];

#[test]
fn what_pages_say_counts_whatever_they_are(rt: HostRuntime) {
    for (page, said) in &SAID {
        assert!(rt; encoding_said(page) == *said);
    }
}

#[test]
fn marks_say_an_encoding(rt: HostRuntime) {
    for (page, marked) in &MARKED {
        assert!(rt; encoding_marked(page) == *marked);
    }
}
