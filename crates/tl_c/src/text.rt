//! Bytes that have to be text.
ghost use Rattle.std.specs.Prelude.{◌≡◌, IfErr, IfOk, is_ok};
ghost use Rattle.std.specs.Str.{is_utf8};
ghost use Rattle.tl_page.specs.declared.failure.Failure.TheVariants.{NotUnderstood};

use tl_page::Failure;

/// The text of a selector, a key or lines. What is no UTF-8 is not understood.
pub(crate) fn text_of(bytes: &[u8]) -> Result<&str, Failure>
    ensures text { IfOk result (λ text. text.now ≡ bytes.now) }
    ensures reads { is_utf8 bytes.now ≡ is_ok result }
    ensures failure { IfErr result (λ failure. failure ≡ NotUnderstood) }
{
    match str::from_utf8(bytes) {
        Ok(text) => Ok(text),
        Err(_) => Err(Failure::NotUnderstood),
    }
}
