//! Digits of numbers.
ghost use Rattle.std.specs.Prelude.{◌≡◌, ◌<◌, Some, None, IfSome, if◌then◌else◌};
ghost use Rattle.tl_html_spec.specs.HtmlTokenizer.{digit_value};
ghost use Rattle.tl_text.specs.Inner.View.{base_of, is_digit_of};

// What a number is written in.
#[derive(Clone, Copy)]
pub(crate) enum Base {
    Decimal,
    Hexadecimal,
}

impl Base {
    pub(crate) fn value(self) -> u32
        ensures value { result ≡ base_of self }
        ensures bound { result < 17 }
    {
        match self {
            Base::Decimal => 10,
            Base::Hexadecimal => 16,
        }
    }

    pub(crate) fn is_digit(self, byte: u8) -> bool
        ensures { result ≡ is_digit_of self byte }
    {
        match self {
            Base::Decimal => byte.is_ascii_digit(),
            Base::Hexadecimal => byte.is_ascii_hexdigit(),
        }
    }

    // The value of a digit.
    pub(crate) fn digit(self, byte: u8) -> Option<u32>
        ensures value { result ≡ (if is_digit_of self byte then Some (digit_value byte) else None) }
        ensures bound { IfSome result (λ digit. digit < 200) }
    {
        if !self.is_digit(byte) {
            return None;
        }
        if byte.is_ascii_digit() {
            return Some(u32::from(byte - b'0'));
        }
        Some(u32::from(byte.to_ascii_lowercase() - 87))
    }
}
