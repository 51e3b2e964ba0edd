//! Start tags that the rules "in body" ignore (13.2.6.4.7), as those of cells outside of a table.
//!
//! Others may rely on this: whatever attributes such a tag has, nothing becomes of it. So none is
//! put in the store.
ghost use Rattle.std.specs.Prelude.{Bool, IfSome, true, ◌≡◌};
ghost use Rattle.tl_dom_spec.specs.Body.{body_start};
ghost use Rattle.tl_dom_spec.specs.Builder.{Done, a_start, in_body};
ghost use Rattle.tl_dom_spec.specs.Builder as dom;
ghost use Rattle.tl_dom_spec.specs.Dispatcher.{calm, dispatch};
ghost use Rattle.tl_dom_spec.specs.Groups.{group};
ghost use Rattle.tl_dom_spec.specs.Tags.{Tag};
ghost use Rattle.tl_html_parts.specs.Parts.{name_of};
ghost use Rattle.tl_html_parts.specs.Places.{IsPart, part_in};
ghost use Rattle.tl_tree.specs.Inner.Builders.{builder_of};
ghost use Rattle.tl_tree.specs.Inner.GroupNames.{group_view};
ghost use Rattle.tl_tree.specs.Inner.Modes.{mode_of};

use crate::builder::Builder;
use crate::group::{Group, group_of};
use crate::integration::is_html;
use crate::mode::Mode;
use tl_html_parts::PartPlace;
use tl_names::element_name::ElementName;

fn is_in_body(mode: Mode) -> bool
    ensures { result ≡ true → mode_of mode ≡ in_body }
{
    match mode {
        Mode::InBody => true,
        _ => false,
    }
}

// Whether the rules "in body" ignore a start tag of a group.
fn is_ignored(group: Group) -> bool
    ensures { (b : dom.Builder) (t : Tag) (closes : Bool) → result ≡ true
        → body_start b (group_view group) t closes ≡ Done b }
{
    match group {
        Group::ACaption
        | Group::AColumn
        | Group::AColumnGroup
        | Group::AFrame
        | Group::TheHead
        | Group::ATableBody
        | Group::ACell
        | Group::ARow => true,
        _ => false,
    }
}

// Whether a name may be that of such a tag, by its length and its first byte: so few names are
// looked up that are not.
#[inline(always)]
fn is_likely(name: &[u8]) -> bool {
    if name.is_empty() {
        return false;
    }
    let first = name[0];
    match name.len() {
        2 => first == b't',
        3 | 7 | 8 => first == b'c',
        4 => first == b'h',
        5 => first == b't' || first == b'f',
        _ => false,
    }
}

impl<'a> Builder<'a> {
    /// The group of the name of a start tag that is ignored, where this is seen by its name.
    #[inline(always)]
    pub(crate) fn ignored_group(&self, name: PartPlace) -> Option<Group>
        requires { IsPart name_of self.now.path.store.page.now name }
        ensures group { IfSome result (λ own. group_view own
            ≡ group (name_of (part_in self.now.path.store.page.now name))) }
        ensures ignored { IfSome result (λ own. (t : Tag) (closes : Bool) →
            dispatch (a_start (group_view own) t closes) (calm (builder_of self.now))
            ≡ Done (calm (builder_of self.now))) }
    {
        if !is_in_body(self.mode) {
            return None;
        }
        if !name.is_plain {
            return None;
        }
        let page = self.path.store.page;
        let raw = &page[name.start..name.end];
        if !is_likely(raw) {
            return None;
        }
        let known = ElementName::of(raw);
        let group = group_of(known);
        if !is_ignored(group) {
            return None;
        }
        if is_html(&self.path.store, self.adjusted_tag()) {
            Some(group)
        } else {
            None
        }
    }
}
