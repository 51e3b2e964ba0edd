//! Attributes of a start tag.
ghost use Rattle.std.specs.Prelude.{OnOk, flat_map, ◌++◌, ◌≡◌};
ghost use Rattle.tl_html_print.specs.Serialized.{serialized_attribute, serialized_name};
ghost use Rattle.tl_tree.specs.Asked.{attribute_said, attributes_at};
ghost use Rattle.tl_tree.specs.TreeView.{rows_in};

use crate::escape::write_escaped;
use std::alloc::AllocError;
use tl_tree::{Attribute, AttributeSpace, Tree};

/// What stands before the key of an attribute where it is serialized.
pub fn attribute_prefix(attribute: Attribute<'_>) -> &'static [u8]
    ensures { let own = attribute_said attribute.entry in
        result.now ++ own.key ≡ serialized_name own.space own.key }
{
    match attribute.space {
        AttributeSpace::Plain => b"",
        AttributeSpace::Xlink => b"xlink:",
        AttributeSpace::Xml => b"xml:",
        AttributeSpace::Xmlns if attribute.key == b"xmlns".as_slice() => b"",
        AttributeSpace::Xmlns => b"xmlns:",
    }
}

fn write_attribute(attribute: Attribute<'_>, out: &mut Vec<u8>) -> Result<(), AllocError>
    ensures { OnOk result (out.new.items
        ≡ out.old.items ++ serialized_attribute (attribute_said attribute.entry)) }
{
    out.push(b' ')?;
    out.extend_from_slice(attribute_prefix(attribute))?;
    out.extend_from_slice(attribute.key)?;
    out.extend_from_slice(b"=\"")?;
    write_escaped(true, attribute.value, out)?;
    out.push(b'"')?;
    Ok(())
}

/// Writes the attributes of an element.
pub(crate) fn write_attributes(
    tree: &Tree<'_>,
    number: usize,
    out: &mut Vec<u8>,
) -> Result<(), AllocError>
    ensures { OnOk result (out.new.items ≡ out.old.items
        ++ flat_map serialized_attribute (attributes_at (rows_in tree.now) number)) }
{
    for attribute in tree.attributes(number) {
        write_attribute(attribute, out)?;
    }
    Ok(())
}
