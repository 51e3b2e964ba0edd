//! Texts that are short enough to be read as pages.
ghost use Rattle.std.specs.Prelude.{◌≡◌, ◌↔◌, ◌<◌, ◌^◌, length, IfSome, None};

/// A text of at most 4294967295 bytes, so that each place in it fits into 32 bits.
#[derive(Clone, Copy, Debug)]
pub struct Page<'p> {
    /// Its text.
    pub text: &'p str,
    pub ghost short: { length text.now < 2 ^ 32 },
}

impl<'p> Page<'p> {
    /// The page of a text, which is none where it is longer.
    pub fn new(text: &'p str) -> Option<Self>
        ensures text { IfSome result (λ page. page.text.now ≡ text.now) }
        ensures long { result ≡ None ↔ u32.MAX < length text.now }
    {
        if text.len() > u32::MAX as usize {
            return None;
        }
        Some(Page { text })
    }
}
