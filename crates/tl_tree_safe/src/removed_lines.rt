//! What went of a text, told in lines.
ghost use Rattle.std.specs.Prelude.{OnOk, option_copied, ◌++◌, ◌≡◌};
ghost use Rattle.tl_tree_safe.specs.RemovedLines.{place_words, tag_words};

use crate::removal::Removal;
use crate::removal_form::RemovalForm;
use crate::shown_names::put_shown;
use std::alloc::{AllocError, Global};
use tl_lines::LineIndex;
use tl_tree::Source;

// Writes the line and the column of a byte.
fn put_place(
    alloc: Global,
    index: &LineIndex<'_>,
    place: usize,
    out: &mut Vec<u8>,
) -> Result<(), AllocError>
    ensures { OnOk result (out.new.items ≡ out.old.items ++ place_words index.now place) }
{
    let position = index.position(place);
    out.extend_from_slice(position.line.to_string(alloc)?.as_bytes())?;
    out.push(b':')?;
    out.extend_from_slice(position.column.to_string(alloc)?.as_bytes())?;
    out.push(b':')?;
    Ok(())
}

// Writes the tag of what went: with its key that of an attribute.
fn put_tag(name: &[u8], key: Option<&[u8]>, out: &mut Vec<u8>) -> Result<(), AllocError>
    ensures { OnOk result (out.new.items
        ≡ out.old.items ++ tag_words name.now (option_copied key.entry)) }
{
    out.extend_from_slice(b" <")?;
    put_shown(name, out)?;
    if let Some(key) = key {
        out.push(b' ')?;
        put_shown(key, out)?;
    }
    out.extend_from_slice(b">: ")
}

/// Lines of a text that a file is named for, `FILE:LINE:COLUMN: <NAME KEY>: WHY`.
#[derive(Drop)]
pub(crate) struct Lines<'f, 't> {
    pub(crate) alloc: Global,
    pub(crate) index: LineIndex<'t>,
    pub(crate) file: &'f str,
}

impl RemovalForm for Lines<'_, '_> {
    ghost use Rattle.tl_tree_safe.specs.RemovedLines.{line_of};

    ghost written = { λ form source name gone. line_of form.file.now form.index source name gone };

    fn write(
        &self,
        source: &Source,
        name: &[u8],
        removal: Removal<'_>,
        out: &mut Vec<u8>,
    ) -> Result<(), AllocError> {
        out.extend_from_slice(self.file.as_bytes())?;
        out.push(b':')?;
        put_place(self.alloc, &self.index, source.start, out)?;
        put_tag(name, removal.key, out)?;
        out.extend_from_slice(removal.cause.words().as_bytes())?;
        out.push(b'\n')?;
        Ok(())
    }
}
