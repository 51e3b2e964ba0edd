//! Keys as they stand in a tag.
ghost use Rattle.std.specs.Prelude.{◌≡◌, IfOk};
ghost use Rattle.std.specs.Str.{bytes_eq};
ghost use Rattle.tl_html_parts.specs.Parts.{name_of};

use std::alloc::{AllocError, Global};
use tl_html_parts::lower_name;

// Whether a key as it stands in a tag is this key.
pub(crate) fn is_named(alloc: Global, raw: &[u8], key: &[u8]) -> Result<bool, AllocError>
    ensures { IfOk result (λ is. is ≡ bytes_eq (name_of raw.now) key.now) }
{
    let name = lower_name(alloc, raw)?;
    Ok(name.as_bytes() == key)
}
