//! Worked rows: pages, and what the standard's prescan finds in them.
#![tactic(auto, unfolding(crate::specs::Labels::labels))]

ghost use Rattle.std.specs.Prelude.{◌≡◌, [], ◌∷◌, ◌++◌, Some, None, codes, encode_utf8, encode_utf8_all, false, true};
ghost use Rattle.tl_encoding.specs.Attributes.{tag_end, value_at};
ghost use Rattle.tl_encoding.specs.Content.{content_label};
ghost use Rattle.tl_encoding.specs.Decoders.{decoded, user_defined, wrong_in};
ghost use Rattle.tl_encoding.specs.Encoders.{encoded, reference, written};
ghost use Rattle.tl_encoding.specs.Encodings.{encoding_in, encoding_labelled, encoding_marked};
ghost use Rattle.tl_encoding.specs.Examples.{Declares, DeclaresNothing, Decodes, Means, Says, SaysNothing, latin_1};
ghost use Rattle.tl_encoding.specs.Marks.{is_mark, marked, marks, unmarked};
ghost use Rattle.tl_encoding.specs.Signatures.{media_of};
ghost use Rattle.tl_encoding.specs.SingleByte.{index, of_index};
ghost use Rattle.tl_encoding.specs.Utf8.{utf_8};
ghost use Rattle.tl_encoding.specs.declared.encoding.ByteOrder.TheVariants.{BigEndian, LittleEndian};
ghost use Rattle.tl_encoding.specs.declared.encoding.Encoding.TheVariants.{Iso2022Jp, MultiByte, Replacement, SingleByte, UserDefined, Utf16, Utf8};
ghost use Rattle.tl_encoding.specs.declared.multi_byte.MultiByte.TheVariants.{Big5, EucJp, EucKr, Gb18030, Gbk, ShiftJis};
ghost use Rattle.tl_encoding.specs.declared.signature.Media.TheVariants.{Gif, Gzip, Pdf, WebP, Zip};
ghost use Rattle.tl_encoding.specs.declared.single_byte.SingleByte.TheVariants.{Iso8859_15, Iso8859_8I, Koi8R, Koi8U, Windows1252, Windows1253};

/// Attributes ("get an attribute").
pub fn attributes()
    ensures first_of_equals { value_at (codes "a") (codes " a=1 A=2>") ≡ Some (codes "1") }
    ensures quotes { value_at (codes "b") (codes " a='x>' b = \"y\">") ≡ Some (codes "y") }
    ensures bare { value_at (codes "a") (codes " a=x/y>") ≡ Some (codes "x/y") }
    ensures no_value { value_at (codes "a") (codes " a/b>") ≡ Some [] }
    ensures nothing_before_the_end { value_at (codes "a") (codes " a=>") ≡ Some [] }
    ensures equals_sign_first { value_at (codes "=a") (codes " =a=b>") ≡ Some (codes "b") }
    ensures none { value_at (codes "a") (codes " b=a>") ≡ None }
    ensures quote_holds_the_end { tag_end (codes " a='>' b>c") ≡ codes ">c" }
    ensures no_end { tag_end (codes " a='>") ≡ [] }
{}

/// Labels in `content` ("extracting a character encoding from a meta element").
pub fn contents()
    ensures plain { content_label (codes "text/html; charset=x") ≡ Some (codes "x") }
    ensures semicolon { content_label (codes "charset = x;y") ≡ Some (codes "x") }
    ensures quotes { content_label (codes "charset='x y'") ≡ Some (codes "x y") }
    ensures unmatched { content_label (codes "charset='x") ≡ None }
    ensures second { content_label (codes "charset is CharSet=x") ≡ Some (codes "x") }
    ensures none { content_label (codes "charse=x") ≡ None }
{}

/// Which tags say something.
pub fn tags()
    ensures plain { Says "<meta charset=latin1>" "latin1" }
    ensures slash { Says "<META/charset='utf-8'>" "utf-8" }
    ensures white_space { Says "<meta charset=\" l1 \">" "l1" }
    ensures other_name { SaysNothing "<metadata charset=latin1>" }
    ensures other_key { SaysNothing "<meta data-charset=latin1>" }
    ensures behind_a_quote { Says "<meta a='x>y' charset=l1>" "l1" }
    ensures no_end { SaysNothing "<meta charset=latin1" }
    ensures unread { Says "<meta charset=KOI8-R>" "KOI8-R" }
    ensures passed { Says "<meta charset=x><meta charset=l1>" "l1" }
    ensures empty { SaysNothing "<meta charset=''>" }
    ensures equal_keys { Says "<meta charset=l1 CHARSET=utf8>" "l1" }
    ensures only_the_first_of_them { SaysNothing "<meta charset=x charset=l1>" }
{}

/// `content` counts beside `http-equiv`, and where there is no `charset`.
pub fn pragmas()
    ensures pragma { Says "<meta http-equiv=Content-Type content='charset=l1'>" "l1" }
    ensures either_order { Says "<meta content='charset=l1' http-equiv=content-type>" "l1" }
    ensures no_pragma { SaysNothing "<meta content='charset=l1'>" }
    ensures other_pragma { SaysNothing "<meta http-equiv=refresh content='charset=l1'>" }
    ensures address { SaysNothing "<meta http-equiv=refresh content='0; url=?charset=sjis'>" }
    ensures description { SaysNothing "<meta name=description content='charset=koi8-r is nice'>" }
    ensures charset_first { Says "<meta http-equiv=content-type content='charset=l1' charset=utf8>" "utf8" }
{}

/// What is passed over.
pub fn passed()
    ensures comment { SaysNothing "<!--<meta charset=l1>-->" }
    ensures after_a_comment { Says "<!-- <meta charset=koi8-r> --><meta charset=l1>" "l1" }
    ensures open_comment { SaysNothing "<!--<meta charset=l1>" }
    ensures short_comment { Says "<!--><meta charset=l1>" "l1" }
    ensures value { SaysNothing "<a b='<meta charset=l1>'>" }
    ensures end_tag { SaysNothing "</a b='<meta charset=l1>'>" }
    ensures markup { SaysNothing "<?<meta charset=l1>" }
    ensures less_sign { Says "<<meta charset=l1>" "l1" }
{}

/// Labels in declarations ("get an XML encoding").
pub fn declarations()
    ensures plain { Declares "<?xml version='1.0' encoding='latin1'?>" "latin1" }
    ensures quotes { Declares "<?xml encoding=\"KOI8-R\"?>" "KOI8-R" }
    ensures white_space { Declares "<?xml encoding\t=\n'l1' ?>" "l1" }
    ensures control_character { Declares "<?xml encoding\u{1}= 'l1'?>" "l1" }
    ensures behind_it { Declares "<?xml?><p encoding='l1'>" "l1" }
    ensures in_a_longer_name { Declares "<?xmlencoding='l1'>" "l1" }
    ensures no_quotes { DeclaresNothing "<?xml encoding=l1 ?>" }
    ensures open_quote { DeclaresNothing "<?xml encoding='l1?>" }
    ensures other_quote { DeclaresNothing "<?xml encoding='l1\"?>" }
    ensures no_equals_sign { DeclaresNothing "<?xml encoding 'l1'?>" }
    ensures first_alone { DeclaresNothing "<?xml encoding encoding='l1'?>" }
    ensures capitals { DeclaresNothing "<?xml ENCODING='l1'?>" }
    ensures capitals_in_front { DeclaresNothing "<?XML encoding='l1'?>" }
    ensures not_in_front { DeclaresNothing " <?xml encoding='l1'?>" }
    ensures no_end { DeclaresNothing "<?xml encoding='l1'?" }
    ensures blank_in_front { DeclaresNothing "<?xml encoding=' l1'?>" }
    ensures blank_at_its_end { DeclaresNothing "<?xml encoding='l1 '?>" }
    ensures no_label { DeclaresNothing "<?xml encoding='nope'?>" }
{}

/// Where declarations count.
pub fn declared()
    ensures alone { Means "<?xml encoding='l1'?>" latin_1 }
    ensures behind_a_meta { Means "<?xml encoding='koi8-r'?><meta charset=l1>" latin_1 }
    ensures passed_meta { Means "<?xml encoding='l1'?><meta charset=nope>" latin_1 }
    ensures utf_16 { Means "<?xml encoding='utf-16'?>" Utf8 }
    ensures user_defined { Means "<?xml encoding='x-user-defined'?>" UserDefined }
    ensures multi_byte { Means "<?xml encoding='gbk'?>" (MultiByte Gbk) }
    ensures no_label { Means "<?xml encoding='nope'?>" Utf8 }
    ensures little_end_first { encoding_in (codes "<\0?\0x\0") ≡ (Utf16 LittleEndian) }
    ensures big_end_first { encoding_in (codes "\0<\0?\0x") ≡ (Utf16 BigEndian) }
    ensures too_short { encoding_in (codes "<\0?\0x") ≡ Utf8 }
{}

/// Byte-order marks count before what a page says.
pub fn marks()
    ensures utf_8 { encoding_in (0xEF ∷ 0xBB ∷ 0xBF ∷ 0xE9 ∷ codes "<meta charset=l1>") ≡ Utf8 }
    ensures big_end_first { encoding_in (0xFE ∷ 0xFF ∷ codes "<meta charset=l1>")
        ≡ (Utf16 BigEndian) }
    ensures little_end_first { encoding_in (0xFF ∷ 0xFE ∷ codes "<meta charset=l1>")
        ≡ (Utf16 LittleEndian) }
    ensures half { encoding_marked (0xFF ∷ codes "<meta charset=l1>") ≡ None }
{}

/// The encodings that labels mean.
pub fn encodings()
    ensures latin_1 { Means "<meta charset=Latin1>" latin_1 }
    ensures utf_16 { Means "<meta charset=utf-16be>" Utf8 }
    ensures user_defined { Means "<meta charset=x-user-defined>" latin_1 }
    ensures koi8_u { Means "<meta charset=KOI8-RU>" (SingleByte Koi8U) }
    ensures replacement { Means "<meta charset=hz-gb-2312>" Replacement }
    ensures multi_byte { Means "<meta charset=' gbk '>" (MultiByte Gbk) }
    ensures no_label { Means "<meta charset=nope>" Utf8 }
    ensures with_white_space { encoding_labelled (codes " latin1 ") ≡ Some latin_1 }
    ensures utf_16_itself { encoding_labelled (codes "utf-16") ≡ Some (Utf16 LittleEndian) }
    ensures big_end_first { encoding_labelled (codes "UTF-16BE") ≡ Some (Utf16 BigEndian) }
    ensures euc_kr { encoding_labelled (codes "euc-kr") ≡ Some (MultiByte EucKr) }
    ensures iso_2022_jp { encoding_labelled (codes "csISO2022JP") ≡ Some Iso2022Jp }
    ensures none { encoding_labelled (codes "utf-7") ≡ None }
{}

/// What bytes stand for by an index.
#[tactic(auto, unfolding(crate::specs::Indexes::koi8_r, crate::specs::Indexes::koi8_u, crate::specs::Indexes::windows_1252, crate::specs::Indexes::windows_1253, crate::specs::Indexes::iso_8859_8, crate::specs::Indexes::iso_8859_15))]
pub fn single_bytes()
    ensures letter { of_index (index Koi8R) 0xC1 ≡ 0x430 }
    ensures ascii { of_index (index Koi8R) 0x61 ≡ 0x61 }
    ensures euro { of_index (index Windows1252) 0x80 ≡ 0x20AC }
    ensures control { of_index (index Windows1252) 0x81 ≡ 0x81 }
    ensures ukrainian { of_index (index Koi8U) 0xAE ≡ 0x45E }
    ensures visual_as_logical { of_index (index Iso8859_8I) 0xE0 ≡ 0x5D0 }
    ensures none { of_index (index Windows1253) 0xAA ≡ 0xFFFD }
    ensures euro_of_latin_9 { of_index (index Iso8859_15) 0xA4 ≡ 0x20AC }
    ensures user_defined { user_defined 0xFF ≡ 0xF7FF }
    ensures wrong { wrong_in (SingleByte Windows1253) (0x61 ∷ 0xAA ∷ []) ≡ Some 1 }
{}

/// What bytes of UTF-16 stand for, big-endian where not said.
pub fn units()
    ensures letter { decoded (Utf16 BigEndian) (0 ∷ 0x61 ∷ []) ≡ 0x61 ∷ [] }
    ensures other_order { decoded (Utf16 LittleEndian) (0x61 ∷ 0 ∷ []) ≡ 0x61 ∷ [] }
    ensures pair { decoded (Utf16 BigEndian) (0xD8 ∷ 0x3D ∷ 0xDE ∷ 0 ∷ [])
        ≡ encode_utf8_all (0x1F600 ∷ []) }
    ensures pair_reversed { decoded (Utf16 BigEndian) (0xDE ∷ 0 ∷ 0xD8 ∷ 0x3D ∷ [])
        ≡ encode_utf8_all (0xFFFD ∷ 0xFFFD ∷ []) }
    ensures unpaired { decoded (Utf16 BigEndian) (0xD8 ∷ 0x3D ∷ 0 ∷ 0x61 ∷ [])
        ≡ encode_utf8_all (0xFFFD ∷ 0x61 ∷ []) }
    ensures two_leading { decoded (Utf16 BigEndian) (0xD8 ∷ 0 ∷ 0xD8 ∷ 0x3D ∷ 0xDE ∷ 0 ∷ [])
        ≡ encode_utf8_all (0xFFFD ∷ 0x1F600 ∷ []) }
    ensures odd { decoded (Utf16 BigEndian) (0 ∷ 0x61 ∷ 0x62 ∷ [])
        ≡ encode_utf8_all (0x61 ∷ 0xFFFD ∷ []) }
    ensures odd_in_a_pair { decoded (Utf16 BigEndian) (0xD8 ∷ 0x3D ∷ 0xDE ∷ [])
        ≡ encode_utf8_all (0xFFFD ∷ []) }
    ensures wrong { wrong_in (Utf16 BigEndian) (0 ∷ 0x61 ∷ 0xD8 ∷ 0x3D ∷ 0 ∷ 0x61 ∷ []) ≡ Some 2 }
    ensures wrong_trailing { wrong_in (Utf16 BigEndian) (0 ∷ 0x61 ∷ 0xDE ∷ 0 ∷ []) ≡ Some 2 }
    ensures wrong_end { wrong_in (Utf16 BigEndian) (0xD8 ∷ 0x3D ∷ 0xDE ∷ []) ≡ Some 0 }
    ensures not_wrong { wrong_in (Utf16 BigEndian) (0xFF ∷ 0xFD ∷ []) ≡ None }
{}

/// What bytes of encodings of several bytes stand for.
#[tactic(auto, unfolding(tl_indexes::specs::EucKr::euc_kr, tl_indexes::specs::Jis0208::jis0208, tl_indexes::specs::Jis0212::jis0212, tl_indexes::specs::Gb18030::gb18030, tl_indexes::specs::Ranges::ranges))]
pub fn pairs()
    ensures korean { Decodes (MultiByte EucKr) (0xC7 ∷ 0xD1 ∷ []) (0xD55C ∷ []) }
    ensures japanese { Decodes (MultiByte ShiftJis) (0x93 ∷ 0xFA ∷ []) (0x65E5 ∷ []) }
    ensures jis0212 { Decodes (MultiByte EucJp) (0x8F ∷ 0xB0 ∷ 0xA1 ∷ []) (0x4E02 ∷ []) }
    ensures chinese { Decodes (MultiByte Gbk) (0xD6 ∷ 0xD0 ∷ []) (0x4E2D ∷ []) }
    ensures four_bytes { Decodes (MultiByte Gb18030) (0x90 ∷ 0x30 ∷ 0x81 ∷ 0x30 ∷ [])
        (0x10000 ∷ []) }
    ensures in_two_bytes { Decodes Iso2022Jp (0x1B ∷ 0x24 ∷ 0x42 ∷ 0x46 ∷ 0x7C ∷ []) (0x65E5 ∷ []) }
{}

/// What they stand for where no index is asked, and where errors are.
pub fn leads()
    ensures two_characters { Decodes (MultiByte Big5) (0x88 ∷ 0x62 ∷ []) (0xCA ∷ 0x304 ∷ []) }
    ensures euro { Decodes (MultiByte Gbk) (0x80 ∷ []) (0x20AC ∷ []) }
    ensures katakana { Decodes (MultiByte EucJp) (0x8E ∷ 0xB1 ∷ []) (0xFF71 ∷ []) }
    ensures private_use { Decodes (MultiByte ShiftJis) (0xF0 ∷ 0x40 ∷ []) (0xE000 ∷ []) }
    ensures ascii_restored { Decodes (MultiByte EucKr) (0xC7 ∷ 0x3C ∷ []) (0xFFFD ∷ 0x3C ∷ []) }
    ensures not_restored { Decodes (MultiByte EucKr) (0xC7 ∷ 0xFF ∷ []) (0xFFFD ∷ []) }
    ensures digit_restored { Decodes (MultiByte Gbk) (0x81 ∷ 0x30 ∷ 0x3C ∷ [])
        (0xFFFD ∷ 0x30 ∷ 0x3C ∷ []) }
    ensures three_restored { Decodes (MultiByte Gbk) (0x81 ∷ 0x30 ∷ 0x81 ∷ 0x3C ∷ [])
        (0xFFFD ∷ 0x30 ∷ 0xFFFD ∷ 0x3C ∷ []) }
    ensures cut { Decodes (MultiByte Big5) (0x61 ∷ 0xA4 ∷ []) (0x61 ∷ 0xFFFD ∷ []) }
    ensures wrong_lead { wrong_in (MultiByte Gbk) (0x61 ∷ 0x81 ∷ 0x30 ∷ 0x81 ∷ 0x3C ∷ []) ≡ Some 1 }
    ensures wrong_end { wrong_in (MultiByte EucJp) (0x61 ∷ 0x8F ∷ 0xB0 ∷ []) ≡ Some 1 }
    ensures not_wrong { wrong_in (MultiByte ShiftJis) (0x61 ∷ 0xB1 ∷ []) ≡ None }
{}

/// Escape sequences.
pub fn escapes()
    ensures roman { Decodes Iso2022Jp (0x1B ∷ 0x28 ∷ 0x4A ∷ 0x5C ∷ []) (0xA5 ∷ []) }
    ensures katakana { Decodes Iso2022Jp (0x1B ∷ 0x28 ∷ 0x49 ∷ 0x31 ∷ []) (0xFF71 ∷ []) }
    ensures two { Decodes Iso2022Jp (0x1B ∷ 0x28 ∷ 0x42 ∷ 0x1B ∷ 0x28 ∷ 0x42 ∷ []) (0xFFFD ∷ []) }
    ensures apart { Decodes Iso2022Jp (0x1B ∷ 0x28 ∷ 0x4A ∷ 0x61 ∷ 0x1B ∷ 0x28 ∷ 0x42 ∷ [])
        (0x61 ∷ []) }
    ensures none { Decodes Iso2022Jp (0x1B ∷ 0x28 ∷ 0x5A ∷ []) (0xFFFD ∷ 0x28 ∷ 0x5A ∷ []) }
    ensures in_a_pair { Decodes Iso2022Jp (0x1B ∷ 0x24 ∷ 0x42 ∷ 0x30 ∷ 0x1B ∷ 0x28 ∷ 0x42 ∷ [])
        (0xFFFD ∷ []) }
    ensures cut { Decodes Iso2022Jp (0x1B ∷ 0x28 ∷ 0x49 ∷ 0x1B ∷ 0x24 ∷ []) (0xFFFD ∷ 0xFF64 ∷ []) }
    ensures shift { Decodes Iso2022Jp (0x0E ∷ []) (0xFFFD ∷ []) }
    ensures wrong { wrong_in Iso2022Jp (0x61 ∷ 0x1B ∷ 0x28 ∷ 0x5A ∷ []) ≡ Some 1 }
{}

/// Bytes that are no UTF-8: U+FFFD for each longest run that begins a character, and for each other
/// byte.
pub fn wrong_bytes()
    ensures text { utf_8 (0x61 ∷ 0xC3 ∷ 0xA9 ∷ []) ≡ 0x61 ∷ 0xE9 ∷ [] }
    ensures alone { utf_8 (0x61 ∷ 0xFF ∷ 0x62 ∷ []) ≡ 0x61 ∷ 0xFFFD ∷ 0x62 ∷ [] }
    ensures run { utf_8 (0xF0 ∷ 0x9F ∷ 0x98 ∷ 0x62 ∷ []) ≡ 0xFFFD ∷ 0x62 ∷ [] }
    ensures whole { utf_8 (0xF0 ∷ 0x9F ∷ 0x98 ∷ 0x80 ∷ []) ≡ 0x1F600 ∷ [] }
    ensures too_long { utf_8 (0xC0 ∷ 0x80 ∷ []) ≡ 0xFFFD ∷ 0xFFFD ∷ [] }
    ensures surrogate { utf_8 (0xED ∷ 0xA0 ∷ 0x80 ∷ []) ≡ 0xFFFD ∷ 0xFFFD ∷ 0xFFFD ∷ [] }
    ensures at_the_end { utf_8 (0xE2 ∷ 0x82 ∷ []) ≡ 0xFFFD ∷ [] }
    ensures replaced { decoded Replacement (0x61 ∷ 0x62 ∷ []) ≡ encode_utf8 0xFFFD }
    ensures nothing { decoded Replacement [] ≡ [] }
{}

/// Marks for bytes that are no UTF-8, and the bytes of a text with marks.
pub fn marked_bytes()
    ensures text { marked (0x61 ∷ 0xC3 ∷ 0xA9 ∷ []) ≡ 0x61 ∷ 0xC3 ∷ 0xA9 ∷ [] }
    ensures alone { marked (0x61 ∷ 0xFF ∷ 0x62 ∷ []) ≡ 0x61 ∷ (marks (0xFF ∷ []) ++ 0x62 ∷ []) }
    ensures run { marked (0xF0 ∷ 0x9F ∷ 0x98 ∷ 0x62 ∷ [])
        ≡ marks (0xF0 ∷ 0x9F ∷ 0x98 ∷ []) ++ 0x62 ∷ [] }
    ensures back { unmarked (0x61 ∷ 0x10FFFF ∷ 0x62 ∷ []) ≡ 0x61 ∷ 0xFF ∷ 0x62 ∷ [] }
    ensures joined { unmarked (0x10FFE2 ∷ 0x10FF82 ∷ 0x10FFAC ∷ []) ≡ 0xE2 ∷ 0x82 ∷ 0xAC ∷ [] }
    ensures character { unmarked (0x20AC ∷ []) ≡ encode_utf8 0x20AC }
    ensures last { is_mark 0x10FFFF ≡ true }
    ensures none { is_mark 0x10FEFF ≡ false }
{}

/// What is no page, by its first bytes.
pub fn media()
    ensures gzip { media_of (0x1F ∷ 0x8B ∷ 0x08 ∷ 0x00 ∷ []) ≡ Some Gzip }
    ensures zip { media_of (0x50 ∷ 0x4B ∷ 0x03 ∷ 0x04 ∷ []) ≡ Some Zip }
    ensures pdf { media_of (codes "%PDF-1.4") ≡ Some Pdf }
    ensures gif { media_of (codes "GIF89a") ≡ Some Gif }
    ensures webp { media_of (codes "RIFF1234WEBPVP8 ") ≡ Some WebP }
    ensures sound { media_of (codes "RIFF1234WAVEfmt ") ≡ None }
    ensures page { media_of (codes "<!doctype html>") ≡ None }
    ensures nothing { media_of [] ≡ None }
{}

/// The bytes of characters.
#[tactic(auto, unfolding(crate::specs::Indexes::windows_1252, crate::specs::Indexes::windows_1253))]
pub fn encoders()
    ensures letter { encoded (SingleByte Windows1252) (0x61 ∷ 0xE9 ∷ []) ≡ Some (0x61 ∷ 0xE9 ∷ []) }
    ensures euro { encoded (SingleByte Windows1252) (0x20AC ∷ []) ≡ Some (0x80 ∷ []) }
    ensures lacks { encoded (SingleByte Windows1252) (0x61 ∷ 0x141 ∷ []) ≡ None }
    ensures wrong { encoded (SingleByte Windows1253) (0xFFFD ∷ []) ≡ None }
    ensures unit { encoded (Utf16 LittleEndian) (0x20AC ∷ []) ≡ Some (0xAC ∷ 0x20 ∷ []) }
    ensures pair { encoded (Utf16 BigEndian) (0x1F600 ∷ [])
        ≡ Some (0xD8 ∷ 0x3D ∷ 0xDE ∷ 0x00 ∷ []) }
    ensures private { encoded UserDefined (0xF7FF ∷ []) ≡ Some (0xFF ∷ []) }
    ensures ascii { encoded (MultiByte Big5) (0x61 ∷ []) ≡ Some (0x61 ∷ []) }
    ensures escaped { encoded Iso2022Jp (0x61 ∷ []) ≡ None }
    ensures reference { written (SingleByte Windows1252) 0x141 ≡ reference 0x141 }
{}
