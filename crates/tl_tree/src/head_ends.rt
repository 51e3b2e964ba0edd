//! End tags that act as anything else in the modes up to the body (13.2.6.4.2 to .6).
ghost use Rattle.std.specs.Prelude.{◌≡◌};
ghost use Rattle.tl_dom_spec.specs.Head.{is_body_end, is_head_end};
ghost use Rattle.tl_tree.specs.Inner.GroupNames.{group_view as group_of};

use crate::group::Group;

/// body, html, br.
pub(crate) fn is_body_end(group: Group) -> bool
    ensures { result ≡ is_body_end (group_of group) }
{
    matches!(group, Group::TheBody | Group::TheHtml | Group::ABreak)
}

/// head, body, html, br.
pub(crate) fn is_head_end(group: Group) -> bool
    ensures { result ≡ is_head_end (group_of group) }
{
    matches!(
        group,
        Group::TheHead | Group::TheBody | Group::TheHtml | Group::ABreak
    )
}
