//! The labels of encodings, as the encoding standard lists them (4.2).
ghost use Rattle.std.specs.Prelude.{◌≡◌, map};
ghost use Rattle.tl_encoding.specs.Labels.{encoding_named, is_label, labels_of, named_in, trimmed};

use crate::encoding::{ByteOrder, Encoding};
use crate::multi_byte::MultiByte;
use crate::single_byte::SingleByte;
use tl_bytes::ascii_case::is_among_in_any_case;

/// The labels of an encoding.
pub(crate) struct Row {
    encoding: Encoding,
    labels: &'static [&'static str],
}

#[rattlefmt::skip]
pub(crate) static LABELS: [Row; 40] = [
    Row {
        encoding: Encoding::Utf8,
        labels: &[
            "utf-8", "utf8", "unicode-1-1-utf-8", "unicode11utf8", "unicode20utf8",
            "x-unicode20utf8",
        ],
    },
    Row {
        encoding: Encoding::SingleByte(SingleByte::Ibm866),
        labels: &[
            "866", "cp866", "csibm866", "ibm866",
        ],
    },
    Row {
        encoding: Encoding::SingleByte(SingleByte::Iso8859_2),
        labels: &[
            "csisolatin2", "iso-8859-2", "iso-ir-101", "iso8859-2", "iso88592", "iso_8859-2",
            "iso_8859-2:1987", "l2", "latin2",
        ],
    },
    Row {
        encoding: Encoding::SingleByte(SingleByte::Iso8859_3),
        labels: &[
            "csisolatin3", "iso-8859-3", "iso-ir-109", "iso8859-3", "iso88593", "iso_8859-3",
            "iso_8859-3:1988", "l3", "latin3",
        ],
    },
    Row {
        encoding: Encoding::SingleByte(SingleByte::Iso8859_4),
        labels: &[
            "csisolatin4", "iso-8859-4", "iso-ir-110", "iso8859-4", "iso88594", "iso_8859-4",
            "iso_8859-4:1988", "l4", "latin4",
        ],
    },
    Row {
        encoding: Encoding::SingleByte(SingleByte::Iso8859_5),
        labels: &[
            "csisolatincyrillic", "cyrillic", "iso-8859-5", "iso-ir-144", "iso8859-5", "iso88595",
            "iso_8859-5", "iso_8859-5:1988",
        ],
    },
    Row {
        encoding: Encoding::SingleByte(SingleByte::Iso8859_6),
        labels: &[
            "arabic", "asmo-708", "csiso88596e", "csiso88596i", "csisolatinarabic", "ecma-114",
            "iso-8859-6", "iso-8859-6-e", "iso-8859-6-i", "iso-ir-127", "iso8859-6", "iso88596",
            "iso_8859-6", "iso_8859-6:1987",
        ],
    },
    Row {
        encoding: Encoding::SingleByte(SingleByte::Iso8859_7),
        labels: &[
            "csisolatingreek", "ecma-118", "elot_928", "greek", "greek8", "iso-8859-7",
            "iso-ir-126", "iso8859-7", "iso88597", "iso_8859-7", "iso_8859-7:1987",
            "sun_eu_greek",
        ],
    },
    Row {
        encoding: Encoding::SingleByte(SingleByte::Iso8859_8),
        labels: &[
            "csiso88598e", "csisolatinhebrew", "hebrew", "iso-8859-8", "iso-8859-8-e",
            "iso-ir-138", "iso8859-8", "iso88598", "iso_8859-8", "iso_8859-8:1988", "visual",
        ],
    },
    Row {
        encoding: Encoding::SingleByte(SingleByte::Iso8859_8I),
        labels: &[
            "csiso88598i", "iso-8859-8-i", "logical",
        ],
    },
    Row {
        encoding: Encoding::SingleByte(SingleByte::Iso8859_10),
        labels: &[
            "csisolatin6", "iso-8859-10", "iso-ir-157", "iso8859-10", "iso885910", "l6", "latin6",
        ],
    },
    Row {
        encoding: Encoding::SingleByte(SingleByte::Iso8859_13),
        labels: &[
            "iso-8859-13", "iso8859-13", "iso885913",
        ],
    },
    Row {
        encoding: Encoding::SingleByte(SingleByte::Iso8859_14),
        labels: &[
            "iso-8859-14", "iso8859-14", "iso885914",
        ],
    },
    Row {
        encoding: Encoding::SingleByte(SingleByte::Iso8859_15),
        labels: &[
            "csisolatin9", "iso-8859-15", "iso8859-15", "iso885915", "iso_8859-15", "l9",
        ],
    },
    Row {
        encoding: Encoding::SingleByte(SingleByte::Iso8859_16),
        labels: &[
            "iso-8859-16",
        ],
    },
    Row {
        encoding: Encoding::SingleByte(SingleByte::Koi8R),
        labels: &[
            "cskoi8r", "koi", "koi8", "koi8-r", "koi8_r",
        ],
    },
    Row {
        encoding: Encoding::SingleByte(SingleByte::Koi8U),
        labels: &[
            "koi8-ru", "koi8-u",
        ],
    },
    Row {
        encoding: Encoding::SingleByte(SingleByte::Macintosh),
        labels: &[
            "csmacintosh", "mac", "macintosh", "x-mac-roman",
        ],
    },
    Row {
        encoding: Encoding::SingleByte(SingleByte::Windows874),
        labels: &[
            "dos-874", "iso-8859-11", "iso8859-11", "iso885911", "tis-620", "windows-874",
        ],
    },
    Row {
        encoding: Encoding::SingleByte(SingleByte::Windows1250),
        labels: &[
            "cp1250", "windows-1250", "x-cp1250",
        ],
    },
    Row {
        encoding: Encoding::SingleByte(SingleByte::Windows1251),
        labels: &[
            "cp1251", "windows-1251", "x-cp1251",
        ],
    },
    Row {
        encoding: Encoding::SingleByte(SingleByte::Windows1252),
        labels: &[
            "windows-1252", "cp1252", "x-cp1252", "iso-8859-1", "iso8859-1", "iso88591",
            "iso_8859-1", "iso_8859-1:1987", "iso-ir-100", "latin1", "l1", "csisolatin1", "cp819",
            "ibm819", "us-ascii", "ascii", "ansi_x3.4-1968",
        ],
    },
    Row {
        encoding: Encoding::SingleByte(SingleByte::Windows1253),
        labels: &[
            "cp1253", "windows-1253", "x-cp1253",
        ],
    },
    Row {
        encoding: Encoding::SingleByte(SingleByte::Windows1254),
        labels: &[
            "cp1254", "csisolatin5", "iso-8859-9", "iso-ir-148", "iso8859-9", "iso88599",
            "iso_8859-9", "iso_8859-9:1989", "l5", "latin5", "windows-1254", "x-cp1254",
        ],
    },
    Row {
        encoding: Encoding::SingleByte(SingleByte::Windows1255),
        labels: &[
            "cp1255", "windows-1255", "x-cp1255",
        ],
    },
    Row {
        encoding: Encoding::SingleByte(SingleByte::Windows1256),
        labels: &[
            "cp1256", "windows-1256", "x-cp1256",
        ],
    },
    Row {
        encoding: Encoding::SingleByte(SingleByte::Windows1257),
        labels: &[
            "cp1257", "windows-1257", "x-cp1257",
        ],
    },
    Row {
        encoding: Encoding::SingleByte(SingleByte::Windows1258),
        labels: &[
            "cp1258", "windows-1258", "x-cp1258",
        ],
    },
    Row {
        encoding: Encoding::SingleByte(SingleByte::XMacCyrillic),
        labels: &[
            "x-mac-cyrillic", "x-mac-ukrainian",
        ],
    },
    Row {
        encoding: Encoding::MultiByte(MultiByte::Gbk),
        labels: &[
            "chinese", "csgb2312", "csiso58gb231280", "gb2312", "gb_2312", "gb_2312-80", "gbk",
            "iso-ir-58", "x-gbk",
        ],
    },
    Row {
        encoding: Encoding::MultiByte(MultiByte::Gb18030),
        labels: &[
            "gb18030",
        ],
    },
    Row {
        encoding: Encoding::MultiByte(MultiByte::Big5),
        labels: &[
            "big5", "big5-hkscs", "cn-big5", "csbig5", "x-x-big5",
        ],
    },
    Row {
        encoding: Encoding::MultiByte(MultiByte::EucJp),
        labels: &[
            "cseucpkdfmtjapanese", "euc-jp", "x-euc-jp",
        ],
    },
    Row {
        encoding: Encoding::Iso2022Jp,
        labels: &[
            "csiso2022jp", "iso-2022-jp",
        ],
    },
    Row {
        encoding: Encoding::MultiByte(MultiByte::ShiftJis),
        labels: &[
            "csshiftjis", "ms932", "ms_kanji", "shift-jis", "shift_jis", "sjis", "windows-31j",
            "x-sjis",
        ],
    },
    Row {
        encoding: Encoding::MultiByte(MultiByte::EucKr),
        labels: &[
            "cseuckr", "csksc56011987", "euc-kr", "iso-ir-149", "korean", "ks_c_5601-1987",
            "ks_c_5601-1989", "ksc5601", "ksc_5601", "windows-949",
        ],
    },
    Row {
        encoding: Encoding::Utf16(ByteOrder::BigEndian),
        labels: &[
            "unicodefffe", "utf-16be",
        ],
    },
    Row {
        encoding: Encoding::Utf16(ByteOrder::LittleEndian),
        labels: &[
            "csunicode", "iso-10646-ucs-2", "ucs-2", "unicode", "unicodefeff", "utf-16",
            "utf-16le",
        ],
    },
    Row {
        encoding: Encoding::UserDefined,
        labels: &[
            "x-user-defined",
        ],
    },
    Row {
        encoding: Encoding::Replacement,
        labels: &[
            "csiso2022kr", "hz-gb-2312", "iso-2022-cn", "iso-2022-cn-ext", "iso-2022-kr",
            "replacement",
        ],
    },
];

// The encoding of the first row that has a label.
fn named_in(rows: &[Row], label: &[u8]) -> Option<Encoding>
    ensures { result ≡ named_in (map labels_of rows.now) label.now }
{
    for row in rows {
        if is_among_in_any_case(row.labels, label) {
            return Some(row.encoding);
        }
    }
    None
}

/// The encoding of a label that has no white space around it.
#[tactic(auto, unfolding(crate::specs::Labels::labels))]
pub(crate) fn encoding_named(label: &[u8]) -> Option<Encoding>
    ensures { result ≡ encoding_named label.now }
{
    named_in(&LABELS, label)
}

/// Whether the encoding standard has the label.
pub(crate) fn is_label(label: &[u8]) -> bool
    ensures { result ≡ is_label label.now }
{
    encoding_named(label).is_some()
}

/// A label without white space around it.
pub(crate) fn trimmed(label: &[u8]) -> &[u8]
    ensures { result.now ≡ trimmed label.now }
{
    label.trim_ascii()
}
