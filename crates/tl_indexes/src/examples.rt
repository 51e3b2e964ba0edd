//! Worked rows: pointers, and what the indexes have for them.
ghost use Rattle.std.specs.Prelude.{◌≡◌, None, Some};
ghost use Rattle.tl_indexes.specs.Indexes.{code_point};
ghost use Rattle.tl_indexes.specs.Ranges.{ranges_code_point};
ghost use Rattle.tl_indexes.specs.declared.index.Index.TheVariants.{Big5, EucKr, Gb18030, Jis0208, Jis0212};

/// Pointers of two bytes.
#[tactic(auto, unfolding(crate::specs::Big5::big5, crate::specs::EucKr::euc_kr, crate::specs::Gb18030::gb18030, crate::specs::Jis0208::jis0208, crate::specs::Jis0212::jis0212))]
pub fn pointers()
    ensures first_of_euc_kr { code_point EucKr 0 ≡ Some 0xAC02 }
    ensures ideographic_space { code_point Jis0208 0 ≡ Some 0x3000 }
    ensures supplementary { code_point Jis0212 108 ≡ Some 0x2D8 }
    ensures beyond_the_first_plane { code_point Big5 947 ≡ Some 0x27267 }
    ensures none_of_two_characters { code_point Big5 1133 ≡ None }
    ensures last { code_point Gb18030 23939 ≡ Some 0xE4C5 }
    ensures beyond_the_last { code_point Gb18030 23940 ≡ None }
{}

/// Pointers of four bytes of gb18030.
#[tactic(auto, unfolding(crate::specs::Ranges::ranges))]
pub fn ranges()
    ensures first { ranges_code_point 0 ≡ Some 0x80 }
    ensures within { ranges_code_point 37 ≡ Some 0xA6 }
    ensures its_own { ranges_code_point 7457 ≡ Some 0xE7C7 }
    ensures last_of_the_first_plane { ranges_code_point 39419 ≡ Some 0xFFFF }
    ensures behind_it { ranges_code_point 39420 ≡ None }
    ensures second_plane { ranges_code_point 189000 ≡ Some 0x10000 }
    ensures last { ranges_code_point 1237575 ≡ Some 0x10FFFF }
    ensures beyond { ranges_code_point 1237576 ≡ None }
{}
