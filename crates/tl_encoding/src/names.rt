//! The names of the encodings.
ghost use Rattle.std.specs.Prelude.{◌≡◌};
ghost use Rattle.tl_encoding.specs.Names.{multi_name, name_of, single_name};

use crate::encoding::{ByteOrder, Encoding};
use crate::multi_byte::MultiByte;
use crate::single_byte::SingleByte;

impl SingleByte {
    fn name(self) -> &'static str
        ensures { result.now ≡ single_name self }
    {
        match self {
            SingleByte::Ibm866 => "IBM866",
            SingleByte::Iso8859_2 => "ISO-8859-2",
            SingleByte::Iso8859_3 => "ISO-8859-3",
            SingleByte::Iso8859_4 => "ISO-8859-4",
            SingleByte::Iso8859_5 => "ISO-8859-5",
            SingleByte::Iso8859_6 => "ISO-8859-6",
            SingleByte::Iso8859_7 => "ISO-8859-7",
            SingleByte::Iso8859_8 => "ISO-8859-8",
            SingleByte::Iso8859_8I => "ISO-8859-8-I",
            SingleByte::Iso8859_10 => "ISO-8859-10",
            SingleByte::Iso8859_13 => "ISO-8859-13",
            SingleByte::Iso8859_14 => "ISO-8859-14",
            SingleByte::Iso8859_15 => "ISO-8859-15",
            SingleByte::Iso8859_16 => "ISO-8859-16",
            SingleByte::Koi8R => "KOI8-R",
            SingleByte::Koi8U => "KOI8-U",
            SingleByte::Macintosh => "macintosh",
            SingleByte::Windows874 => "windows-874",
            SingleByte::Windows1250 => "windows-1250",
            SingleByte::Windows1251 => "windows-1251",
            SingleByte::Windows1252 => "windows-1252",
            SingleByte::Windows1253 => "windows-1253",
            SingleByte::Windows1254 => "windows-1254",
            SingleByte::Windows1255 => "windows-1255",
            SingleByte::Windows1256 => "windows-1256",
            SingleByte::Windows1257 => "windows-1257",
            SingleByte::Windows1258 => "windows-1258",
            SingleByte::XMacCyrillic => "x-mac-cyrillic",
        }
    }
}

impl MultiByte {
    fn name(self) -> &'static str
        ensures { result.now ≡ multi_name self }
    {
        match self {
            MultiByte::Big5 => "Big5",
            MultiByte::EucJp => "EUC-JP",
            MultiByte::EucKr => "EUC-KR",
            MultiByte::Gb18030 => "gb18030",
            MultiByte::Gbk => "GBK",
            MultiByte::ShiftJis => "Shift_JIS",
        }
    }
}

impl Encoding {
    /// Its name in the encoding standard, which is one of its labels.
    pub fn name(self) -> &'static str
        ensures { result.now ≡ name_of self }
    {
        match self {
            Encoding::Utf8 => "UTF-8",
            Encoding::Utf16(ByteOrder::BigEndian) => "UTF-16BE",
            Encoding::Utf16(ByteOrder::LittleEndian) => "UTF-16LE",
            Encoding::SingleByte(name) => name.name(),
            Encoding::MultiByte(name) => name.name(),
            Encoding::Iso2022Jp => "ISO-2022-JP",
            Encoding::UserDefined => "x-user-defined",
            Encoding::Replacement => "replacement",
        }
    }
}
