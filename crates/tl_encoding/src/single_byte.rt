//! The single-byte encodings.
ghost use Rattle.std.specs.Prelude.{◌≡◌};
ghost use Rattle.tl_encoding.specs.SingleByte.{index, of_index};

use crate::indexes as table;

/// An encoding in which each byte stands for a character, as the encoding standard names it
/// (section 9).
#[derive(Clone, Copy, PartialEq, Eq, Debug)]
pub enum SingleByte {
    Ibm866,
    Iso8859_2,
    Iso8859_3,
    Iso8859_4,
    Iso8859_5,
    Iso8859_6,
    Iso8859_7,
    Iso8859_8,
    /// As ISO-8859-8 byte for byte.
    Iso8859_8I,
    Iso8859_10,
    Iso8859_13,
    Iso8859_14,
    Iso8859_15,
    Iso8859_16,
    Koi8R,
    Koi8U,
    Macintosh,
    Windows874,
    Windows1250,
    Windows1251,
    /// Also what pages mean that say ISO-8859-1, Latin-1 or US-ASCII.
    Windows1252,
    Windows1253,
    Windows1254,
    Windows1255,
    Windows1256,
    Windows1257,
    Windows1258,
    XMacCyrillic,
}

impl SingleByte {
    /// The characters of the bytes from 0x80 on.
    #[tactic(auto, unfolding(crate::specs::Indexes::ibm866, crate::specs::Indexes::iso_8859_2, crate::specs::Indexes::iso_8859_3, crate::specs::Indexes::iso_8859_4, crate::specs::Indexes::iso_8859_5, crate::specs::Indexes::iso_8859_6, crate::specs::Indexes::iso_8859_7, crate::specs::Indexes::iso_8859_8, crate::specs::Indexes::iso_8859_10, crate::specs::Indexes::iso_8859_13, crate::specs::Indexes::iso_8859_14, crate::specs::Indexes::iso_8859_15, crate::specs::Indexes::iso_8859_16, crate::specs::Indexes::koi8_r, crate::specs::Indexes::koi8_u, crate::specs::Indexes::macintosh, crate::specs::Indexes::windows_874, crate::specs::Indexes::windows_1250, crate::specs::Indexes::windows_1251, crate::specs::Indexes::windows_1252, crate::specs::Indexes::windows_1253, crate::specs::Indexes::windows_1254, crate::specs::Indexes::windows_1255, crate::specs::Indexes::windows_1256, crate::specs::Indexes::windows_1257, crate::specs::Indexes::windows_1258, crate::specs::Indexes::x_mac_cyrillic))]
    pub(crate) fn index(self) -> &'static [char; 128]
        ensures { result.now ≡ index self }
    {
        match self {
            SingleByte::Ibm866 => &table::IBM866,
            SingleByte::Iso8859_2 => &table::ISO_8859_2,
            SingleByte::Iso8859_3 => &table::ISO_8859_3,
            SingleByte::Iso8859_4 => &table::ISO_8859_4,
            SingleByte::Iso8859_5 => &table::ISO_8859_5,
            SingleByte::Iso8859_6 => &table::ISO_8859_6,
            SingleByte::Iso8859_7 => &table::ISO_8859_7,
            SingleByte::Iso8859_8 | SingleByte::Iso8859_8I => &table::ISO_8859_8,
            SingleByte::Iso8859_10 => &table::ISO_8859_10,
            SingleByte::Iso8859_13 => &table::ISO_8859_13,
            SingleByte::Iso8859_14 => &table::ISO_8859_14,
            SingleByte::Iso8859_15 => &table::ISO_8859_15,
            SingleByte::Iso8859_16 => &table::ISO_8859_16,
            SingleByte::Koi8R => &table::KOI8_R,
            SingleByte::Koi8U => &table::KOI8_U,
            SingleByte::Macintosh => &table::MACINTOSH,
            SingleByte::Windows874 => &table::WINDOWS_874,
            SingleByte::Windows1250 => &table::WINDOWS_1250,
            SingleByte::Windows1251 => &table::WINDOWS_1251,
            SingleByte::Windows1252 => &table::WINDOWS_1252,
            SingleByte::Windows1253 => &table::WINDOWS_1253,
            SingleByte::Windows1254 => &table::WINDOWS_1254,
            SingleByte::Windows1255 => &table::WINDOWS_1255,
            SingleByte::Windows1256 => &table::WINDOWS_1256,
            SingleByte::Windows1257 => &table::WINDOWS_1257,
            SingleByte::Windows1258 => &table::WINDOWS_1258,
            SingleByte::XMacCyrillic => &table::X_MAC_CYRILLIC,
        }
    }
}

/// The character of a byte by an index.
pub(crate) fn of_index(index: &[char; 128], byte: u8) -> char
    ensures { result ≡ of_index index.now byte }
{
    if byte < 0x80 {
        char::from(byte)
    } else {
        index[usize::from(byte - 0x80)]
    }
}
