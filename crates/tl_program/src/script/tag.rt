//! Steps on a tag.
ghost use Rattle.std.specs.Prelude.{◌≡◌, ◌<◌, true, false, length, OnOk, OnErr};
ghost use Rattle.tl_bytes.specs.Held.{as_owned};
ghost use Rattle.tl_spec.specs.Tree.Inline.{room, with_last, without_item};
ghost use Rattle.tl_spec.specs.Edit.{without_handle, map_ok};
ghost use Rattle.tl_program.specs.TableEdit.{with_attribute, without_attribute, without_value};
ghost use Rattle.tl_program.specs.Script.{Changes};

use crate::script::step::StepError;
use std::alloc::{AllocError, Global};
use tl::{HTMLTag, NodeHandle, SummaryOf, TagOf};
use tl_bytes::byte_string::copied;

// Names the tag.
pub(super) fn set_name<'a>(
    alloc: Global,
    tag: &mut HTMLTag<'a>,
    name: &[u8],
) -> Result<(), StepError>
    ensures { Changes true
        (λ own. Ok (record own { name = as_owned name.now })) tag.old tag.new result }
{
    *tag.name_mut() = copied(alloc, name)?;
    Ok(())
}

// Puts a value at a key.
pub(super) fn set_value<'a>(
    alloc: Global,
    tag: &mut HTMLTag<'a>,
    key: &[u8],
    value: &[u8],
) -> Result<(), StepError>
    ensures { Changes true
        (λ own. Ok (record own {
          attributes = with_attribute own.attributes key.now
              (Some (as_owned value.now));
        })) tag.old tag.new result }
{
    let key = copied(alloc, key)?;
    let value = copied(alloc, value)?;
    tag.attributes_mut().insert(key, Some(value))?;
    Ok(())
}

// Puts a key without a value.
pub(super) fn set_flag<'a>(
    alloc: Global,
    tag: &mut HTMLTag<'a>,
    key: &[u8],
) -> Result<(), StepError>
    ensures { Changes true (λ own. Ok (record own {
      attributes = with_attribute own.attributes key.now None;
    }))
        tag.old tag.new result }
{
    let key = copied(alloc, key)?;
    tag.attributes_mut().insert(key, None)?;
    Ok(())
}

// Takes a key out.
pub(super) fn remove_key<'a>(
    alloc: Global,
    tag: &mut HTMLTag<'a>,
    key: &[u8],
) -> Result<(), StepError>
    ensures { Changes true (λ own. Ok (record own {
      attributes = without_attribute own.attributes key.now;
    }))
        tag.old tag.new result }
{
    let key = copied(alloc, key)?;
    tag.attributes_mut().remove(key);
    Ok(())
}

// Takes the value at a key out.
pub(super) fn remove_value<'a>(
    alloc: Global,
    tag: &mut HTMLTag<'a>,
    key: &[u8],
) -> Result<(), StepError>
    ensures { Changes true (λ own. Ok (record own {
      attributes = without_value own.attributes key.now;
    }))
        tag.old tag.new result }
{
    let key = copied(alloc, key)?;
    tag.attributes_mut().remove_value(key);
    Ok(())
}

// Makes a handle the last child.
pub(super) fn push_child<'a>(tag: &mut HTMLTag<'a>, child: u32) -> Result<(), StepError>
    ensures { Changes true (λ own. Ok (record own {
      children = with_last room own.children child;
    }))
        tag.old tag.new result }
{
    push_handle(tag, NodeHandle::new(child))?;
    Ok(())
}

// Takes the child at a place out.
pub(super) fn pull_child<'a>(tag: &mut HTMLTag<'a>, place: usize) -> Result<(), StepError>
    ensures { Changes false (λ own. map_ok (λ handles. record own { children = handles })
        (without_handle own.children place)) tag.old tag.new result }
{
    if place >= tag.children().top().len() {
        return Err(StepError::NoPlace);
    }
    pull_handle(tag, place);
    Ok(())
}

// A push of a tag of any parts: what a tag with a lifetime holds after the list was lent is not
// seen.
fn push_handle<A, B, O: SummaryOf<A>>(
    tag: &mut TagOf<A, B, O>,
    child: NodeHandle,
) -> Result<(), AllocError>
    ensures ok { OnOk result
        (tag.new ≡ record tag.old { children = with_last room tag.old.children child }) }
    ensures err { OnErr result (tag.new ≡ tag.old) }
{
    let mut children = tag.children_mut();
    let list = children.top_mut();
    list.push(child).map_err(|_| AllocError)
}

// A removal of the child at a place of a tag of any parts.
fn pull_handle<A, B, O: SummaryOf<A>>(tag: &mut TagOf<A, B, O>, place: usize)
    requires { place < length tag.old.children.items }
    ensures { tag.new ≡ record tag.old { children = without_item tag.old.children place } }
{
    let mut children = tag.children_mut();
    let list = children.top_mut();
    list.remove(place);
}
