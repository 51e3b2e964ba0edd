//! The label in the `content` of a tag `meta`.
ghost use Rattle.std.specs.Prelude.{◌≡◌, option_map};
ghost use Rattle.tl_encoding.specs.Content.{charset_at, content_label, first_said, until, written_label};

use crate::run::{ByteClass, after_equals, begins_with, is_quote, run, run_len};

// What stands after `charset` and an equals sign, where they stand.
fn charset_at(bytes: &[u8]) -> Option<&[u8]>
    ensures { option_map (λ rest. rest.now) result ≡ charset_at bytes.now }
{
    if !begins_with(bytes, "charset") {
        return None;
    }
    after_equals(ByteClass::Space, &bytes[7..])
}

// The same at the first place where they stand.
#[tactic(auto, using(crate::proofs::Said::one_more))]
fn charset_in(content: &[u8]) -> Option<&[u8]>
    ensures { option_map (λ rest. rest.now) result ≡ first_said charset_at content.now }
{
    let mut rest = content;
    while !rest.is_empty() {
        if let Some(written) = charset_at(rest) {
            return Some(written);
        }
        rest = &rest[1..];
    }
    None
}

// The bytes before a quote, if it stands there.
pub(crate) fn until(quote: u8, bytes: &[u8]) -> Option<&[u8]>
    ensures { option_map (λ label. label.now) result ≡ until quote bytes.now }
{
    let class = ByteClass::Except(quote);
    if run_len(class, bytes) < bytes.len() {
        Some(run(class, bytes))
    } else {
        None
    }
}

// The label that stands here, between quotes or bare.
fn written_label(bytes: &[u8]) -> Option<&[u8]>
    ensures { option_map (λ label. label.now) result ≡ written_label bytes.now }
{
    match bytes {
        [] => None,
        [quote, rest @ ..] if is_quote(*quote) => until(*quote, rest),
        _ => Some(run(ByteClass::Label, bytes)),
    }
}

/// The label that a `content` says.
pub(crate) fn content_label(content: &[u8]) -> Option<&[u8]>
    ensures { option_map (λ label. label.now) result ≡ content_label content.now }
{
    written_label(charset_in(content)?)
}
