//! Which tokens a patch puts something in the place of.
ghost use Rattle.std.specs.Prelude.{◌≡◌, ℕ, List, IfOk, None, Some, option_map, suc, true};
ghost use Rattle.tl_html_parts.specs.Parts.{name_of};
ghost use Rattle.tl_patch_spec.specs.Patches.{Append, Fill, Prepend, PutAfter, PutBefore, Remove, RenameElement, ReplaceWith, Unwrap, asked, is_page_name, may_be_renamed};
ghost use Rattle.tl_patch_edit.specs.Asks.{ends_page, planned_view, puts_view, tags_asked};
ghost use Rattle.tl_patch_edit.specs.declared.ask.Put.TheVariants.{EndTag, Renamed};
ghost use Rattle.tl_patch_edit.specs.View.{content_view, extent_view, patch_view};

use crate::ask::{
    Ask, Content, ElementPatch, Extent, Planned, Put, inner_end, inside_end, next, until_of,
};
use crate::element_name::{is_page_name, may_be_renamed};
use std::alloc::{AllocError, Global};
use tl_html_parts::lower_name;

// One ask alone.
fn one<'n>(from: usize, until: usize, put: Put<'n>) -> Planned<'n>
    ensures { result ≡ record {
      first = record { from = from; until = until; put = put.entry };
      second = None;
    } }
{
    Planned {
        first: Ask { from, until, put },
        second: None,
    }
}

fn removed(number: usize, extent: Extent) -> Result<Option<Planned<'static>>, AllocError>
    ensures { IfOk result (λ found. (name : List ℕ) →
        asked Remove number (extent_view extent) name
        ≡ option_map planned_view found) }
{
    let Some(until) = until_of(number, extent)? else {
        return Ok(None);
    };
    Ok(Some(one(number, until, Put::Nothing)))
}

fn replaced<'n>(
    number: usize,
    extent: Extent,
    content: Content<'n>,
) -> Result<Option<Planned<'n>>, AllocError>
    ensures { IfOk result (λ found. (name : List ℕ) →
        asked (ReplaceWith (content_view content.entry)) number (extent_view extent) name
        ≡ option_map planned_view found) }
{
    let Some(until) = until_of(number, extent)? else {
        return Ok(None);
    };
    Ok(Some(one(number, until, Put::Content { content })))
}

fn filled<'n>(
    number: usize,
    extent: Extent,
    content: Content<'n>,
) -> Result<Option<Planned<'n>>, AllocError>
    ensures { IfOk result (λ found. (name : List ℕ) →
        asked (Fill (content_view content.entry)) number (extent_view extent) name
        ≡ option_map planned_view found) }
{
    let Some(until) = inner_end(extent) else {
        return Ok(None);
    };
    let from = next(number)?;
    Ok(Some(one(from, until, Put::Content { content })))
}

fn prepended<'n>(
    number: usize,
    extent: Extent,
    content: Content<'n>,
) -> Result<Option<Planned<'n>>, AllocError>
    ensures { IfOk result (λ found. (name : List ℕ) →
        asked (Prepend (content_view content.entry)) number (extent_view extent) name
        ≡ option_map planned_view found) }
{
    let Some(_) = inside_end(extent) else {
        return Ok(None);
    };
    let from = next(number)?;
    Ok(Some(one(from, from, Put::Content { content })))
}

fn appended<'n>(number: usize, extent: Extent, content: Content<'n>) -> Option<Planned<'n>>
    ensures { (name : List ℕ) →
        asked (Append (content_view content.entry)) number (extent_view extent) name
        ≡ option_map (planned_view) result }
{
    let Some(end) = inner_end(extent) else {
        return None;
    };
    Some(one(end, end, Put::Content { content }))
}

fn put_before<'n>(number: usize, extent: Extent, content: Content<'n>) -> Planned<'n>
    ensures { (name : List ℕ) →
        asked (PutBefore (content_view content.entry)) number (extent_view extent) name
        ≡ Some (planned_view result) }
{
    one(number, number, Put::Content { content })
}

pub(crate) fn is_page(alloc: Global, raw: &[u8]) -> Result<bool, AllocError>
    ensures { IfOk result (λ is. is ≡ is_page_name (name_of raw.now)) }
{
    let name = lower_name(alloc, raw)?;
    Ok(is_page_name(name.as_bytes()))
}

// Whether an element goes to the end of the page, so that nothing can stand after it.
fn ends_page(alloc: Global, extent: Extent, raw: &[u8]) -> Result<bool, AllocError>
    ensures { IfOk result (λ is. is ≡ ends_page (extent_view extent) (name_of raw.now)) }
{
    match extent {
        Extent::Whole { .. } => is_page(alloc, raw),
        Extent::Implied { .. } => is_page(alloc, raw),
        _ => Ok(false),
    }
}

fn put_behind<'n>(
    alloc: Global,
    number: usize,
    extent: Extent,
    raw: &'n [u8],
    content: Content<'n>,
) -> Result<Option<Planned<'n>>, AllocError>
    ensures { IfOk result (λ found.
        asked (PutAfter (content_view content.entry)) number (extent_view extent)
        (name_of raw.now) ≡ option_map planned_view found) }
{
    let ends_page = ends_page(alloc, extent, raw)?;
    if ends_page {
        return Ok(None);
    }
    let Some(until) = until_of(number, extent)? else {
        return Ok(None);
    };
    Ok(Some(one(until, until, Put::Content { content })))
}

// The same in the place of the start tag, and of its own end tag.
fn tags<'n>(number: usize, extent: Extent, put: Put<'n>) -> Result<Option<Planned<'n>>, AllocError>
    ensures { IfOk result (λ found.
        tags_asked number (extent_view extent) (puts_view put.entry)
        ≡ option_map planned_view found) }
{
    let until = next(number)?;
    match extent {
        Extent::Whole { end } => both_tags(number, until, end, put),
        Extent::Alone => Ok(Some(one(number, until, put))),
        Extent::Implied { .. } => Ok(Some(one(number, until, put))),
        _ => Ok(None),
    }
}

// The same in the place of an end tag too.
fn both_tags<'n>(
    from: usize,
    until: usize,
    end: usize,
    put: Put<'n>,
) -> Result<Option<Planned<'n>>, AllocError>
    ensures { IfOk result (λ found. found ≡ Some (record {
      first = record { from = from; until = until; put = put.entry };
      second = Some (record { from = end; until = suc end; put = put.entry });
    })) }
{
    let behind = next(end)?;
    Ok(Some(Planned {
        first: Ask { from, until, put },
        second: Some(Ask {
            from: end,
            until: behind,
            put,
        }),
    }))
}

fn unwrapped(number: usize, extent: Extent) -> Result<Option<Planned<'static>>, AllocError>
    ensures { IfOk result (λ found. (name : List ℕ) →
        asked Unwrap number (extent_view extent) name
        ≡ option_map planned_view found) }
{
    tags(number, extent, Put::Nothing)
}

// The start tag with another name, and an end tag of it, where one is left out.
fn renamed_implied<'n>(
    number: usize,
    end: usize,
    name: &'n [u8],
) -> Result<Option<Planned<'n>>, AllocError>
    ensures { IfOk result (λ found. found ≡ Some (record {
      first = record {
        from = number;
        until = suc number;
        put = Renamed name.entry;
      };
      second = Some (record { from = end; until = end; put = EndTag name.entry });
    })) }
{
    let until = next(number)?;
    Ok(Some(Planned {
        first: Ask {
            from: number,
            until,
            put: Put::Renamed { name },
        },
        second: Some(Ask {
            from: end,
            until: end,
            put: Put::EndTag { name },
        }),
    }))
}

// The tags with another name.
fn renamed_tags<'n>(
    number: usize,
    extent: Extent,
    name: &'n [u8],
) -> Result<Option<Planned<'n>>, AllocError>
    ensures { IfOk result (λ found. (old : List ℕ) →
        may_be_renamed old name.now ≡ true →
        asked (RenameElement name.now) number (extent_view extent) old
        ≡ option_map planned_view found) }
{
    match extent {
        Extent::Implied { end } => renamed_implied(number, end, name),
        _ => tags(number, extent, Put::Renamed { name }),
    }
}

fn renamed<'n>(
    alloc: Global,
    number: usize,
    extent: Extent,
    raw: &[u8],
    name: &'n [u8],
) -> Result<Option<Planned<'n>>, AllocError>
    ensures { IfOk result (λ found.
        asked (RenameElement name.now) number (extent_view extent) (name_of raw.now)
        ≡ option_map planned_view found) }
{
    let old = lower_name(alloc, raw)?;
    let may_be = may_be_renamed(old.as_bytes(), name);
    if !may_be {
        return Ok(None);
    }
    renamed_tags(number, extent, name)
}

// What a patch asks for of an element whose start tag has this name; `None` where it can't be
// meant.
pub(crate) fn plan<'n>(
    alloc: Global,
    patch: ElementPatch<'n>,
    number: usize,
    extent: Extent,
    raw: &'n [u8],
) -> Result<Option<Planned<'n>>, AllocError>
    ensures { IfOk result (λ found.
        asked (patch_view patch.entry) number (extent_view extent) (name_of raw.now)
        ≡ option_map planned_view found) }
{
    match patch {
        ElementPatch::Rename { name } => renamed(alloc, number, extent, raw, name),
        ElementPatch::Remove => removed(number, extent),
        ElementPatch::Unwrap => unwrapped(number, extent),
        ElementPatch::ReplaceWith { content } => replaced(number, extent, content),
        ElementPatch::Fill { content } => filled(number, extent, content),
        ElementPatch::Prepend { content } => prepended(number, extent, content),
        ElementPatch::Append { content } => Ok(appended(number, extent, content)),
        ElementPatch::PutBefore { content } => Ok(Some(put_before(number, extent, content))),
        ElementPatch::PutAfter { content } => put_behind(alloc, number, extent, raw, content),
    }
}
