//! The code point of a pointer.
ghost use Rattle.std.specs.Prelude.{◌≡◌};
ghost use Rattle.tl_indexes.specs.Indexes.{code_point, index};

use crate::big5::BIG5;
use crate::euc_kr::EUC_KR;
use crate::gb18030::GB18030;
use crate::jis0208::JIS0208;
use crate::jis0212::JIS0212;

/// A table of the encoding standard, as it names them (section 5).
#[derive(Clone, Copy, PartialEq, Eq, Debug)]
pub enum Index {
    Big5,
    EucKr,
    Gb18030,
    Jis0208,
    Jis0212,
}

impl Index {
    // The code points of its pointers.
    #[tactic(auto, unfolding(crate::specs::Big5::big5, crate::specs::EucKr::euc_kr, crate::specs::Gb18030::gb18030, crate::specs::Jis0208::jis0208, crate::specs::Jis0212::jis0212))]
    fn table(self) -> &'static [char]
        ensures { result.now ≡ index self }
    {
        match self {
            Index::Big5 => &BIG5,
            Index::EucKr => &EUC_KR,
            Index::Gb18030 => &GB18030,
            Index::Jis0208 => &JIS0208,
            Index::Jis0212 => &JIS0212,
        }
    }
}

/// The code point that an index has for a pointer ("index code point").
pub fn code_point(index: Index, pointer: usize) -> Option<char>
    ensures { result ≡ code_point index pointer }
{
    match index.table().get(pointer) {
        Some(found) if *found != char::REPLACEMENT_CHARACTER => Some(*found),
        _ => None,
    }
}
