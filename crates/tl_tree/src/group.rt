//! Groups of names of elements, by the rules that they have in the insertion modes.

ghost use Rattle.std.specs.Prelude.{◌≡◌, List, ℕ};
ghost use Rattle.tl_dom_spec.specs.Groups.{group};
ghost use Rattle.tl_names.specs.ElementNames.{name_of};
ghost use Rattle.tl_tree.specs.Inner.GroupNames.{group_view};

use tl_names::element_name::ElementName;

/// Names of tags that have their rules together. The definition has the names of each.
#[derive(Clone, Copy)]
pub(crate) enum Group {
    TheHtml,
    TheHead,
    TheBody,
    AFrameset,
    AFrame,
    ABase,
    ALink,
    ATitle,
    ANoframes,
    AStyle,
    ANoscript,
    AScript,
    ATemplate,
    AParagraph,
    ABlock,
    AHeading,
    APreformatted,
    AForm,
    AnItem,
    ADescription,
    APlaintext,
    AButton,
    AnAnchor,
    AFormat,
    ANobr,
    AMark,
    ATable,
    ABreak,
    AVoid,
    AnImage,
    AnInput,
    ADetail,
    ARule,
    ATextarea,
    AnExample,
    AnIframe,
    ANoembed,
    ASelect,
    AnOption,
    AnOptionGroup,
    ARubyBase,
    ARubyText,
    AMath,
    AnSvg,
    ACaption,
    AColumnGroup,
    AColumn,
    ATableBody,
    ARow,
    ACell,
    AnyOther,
}

// A row for each name, by its number, and then rows for all others.
#[rattlefmt::skip]
static GROUPS: [Group; 256] = [
    Group::AnAnchor, Group::ABlock, Group::AnyOther, Group::AnyOther, Group::AnyOther,
    Group::AnyOther, Group::AnyOther, Group::AnyOther, Group::AnyOther, Group::AMark, Group::AVoid,
    Group::ABlock, Group::ABlock, Group::AFormat, Group::ABase, Group::ALink, Group::ALink,
    Group::AFormat, Group::ABlock, Group::TheBody, Group::ABreak, Group::AButton, Group::ACaption,
    Group::ABlock, Group::AnyOther, Group::AFormat, Group::AColumn, Group::AColumnGroup,
    Group::ADescription, Group::AnyOther, Group::ABlock, Group::ABlock, Group::ABlock,
    Group::ABlock, Group::ABlock, Group::ADescription, Group::AFormat, Group::AVoid,
    Group::AnyOther, Group::AnyOther, Group::AnyOther, Group::AnyOther, Group::AnyOther,
    Group::AnyOther, Group::AnyOther, Group::AnyOther, Group::AnyOther, Group::AnyOther,
    Group::AnyOther, Group::AnyOther, Group::AnyOther, Group::AnyOther, Group::AnyOther,
    Group::AnyOther, Group::AnyOther, Group::AnyOther, Group::AnyOther, Group::AnyOther,
    Group::AnyOther, Group::AnyOther, Group::AnyOther, Group::AnyOther, Group::AnyOther,
    Group::ABlock, Group::ABlock, Group::ABlock, Group::AFormat, Group::ABlock, Group::AnyOther,
    Group::AnyOther, Group::AForm, Group::AFrame, Group::AFrameset, Group::AnyOther,
    Group::AHeading, Group::AHeading, Group::AHeading, Group::AHeading, Group::AHeading,
    Group::AHeading, Group::TheHead, Group::ABlock, Group::ABlock, Group::ARule, Group::TheHtml,
    Group::AFormat, Group::AnIframe, Group::AnImage, Group::AVoid, Group::AnInput, Group::AVoid,
    Group::AnItem, Group::AnyOther, Group::ALink, Group::APreformatted, Group::ABlock,
    Group::AnyOther, Group::AMark, Group::AMath, Group::ABlock, Group::ALink, Group::AnyOther,
    Group::AnyOther, Group::AnyOther, Group::AnyOther, Group::AnyOther, Group::AnyOther,
    Group::ABlock, Group::ANobr, Group::ANoembed, Group::ANoframes, Group::ANoscript, Group::AMark,
    Group::ABlock, Group::AnOptionGroup, Group::AnOption, Group::AParagraph, Group::ADetail,
    Group::APlaintext, Group::APreformatted, Group::AnyOther, Group::ARubyBase, Group::ARubyText,
    Group::ARubyText, Group::ARubyBase, Group::AnyOther, Group::AFormat, Group::AScript,
    Group::ABlock, Group::ABlock, Group::ASelect, Group::AFormat, Group::ADetail, Group::AnyOther,
    Group::AFormat, Group::AFormat, Group::AStyle, Group::AnyOther, Group::ABlock, Group::AnyOther,
    Group::AnSvg, Group::ATable, Group::ATableBody, Group::ACell, Group::ATemplate,
    Group::ATextarea, Group::AnyOther, Group::ATableBody, Group::ACell, Group::ATableBody,
    Group::ATitle, Group::ARow, Group::ADetail, Group::AFormat, Group::AFormat, Group::ABlock,
    Group::AnyOther, Group::AVoid, Group::AnExample, Group::AnyOther, Group::AnyOther,
    Group::AnyOther, Group::AnyOther, Group::AnyOther, Group::AnyOther, Group::AnyOther,
    Group::AnyOther, Group::AnyOther, Group::AnyOther, Group::AnyOther, Group::AnyOther,
    Group::AnyOther, Group::AnyOther, Group::AnyOther, Group::AnyOther, Group::AnyOther,
    Group::AnyOther, Group::AnyOther, Group::AnyOther, Group::AnyOther, Group::AnyOther,
    Group::AnyOther, Group::AnyOther, Group::AnyOther, Group::AnyOther, Group::AnyOther,
    Group::AnyOther, Group::AnyOther, Group::AnyOther, Group::AnyOther, Group::AnyOther,
    Group::AnyOther, Group::AnyOther, Group::AnyOther, Group::AnyOther, Group::AnyOther,
    Group::AnyOther, Group::AnyOther, Group::AnyOther, Group::AnyOther, Group::AnyOther,
    Group::AnyOther, Group::AnyOther, Group::AnyOther, Group::AnyOther, Group::AnyOther,
    Group::AnyOther, Group::AnyOther, Group::AnyOther, Group::AnyOther, Group::AnyOther,
    Group::AnyOther, Group::AnyOther, Group::AnyOther, Group::AnyOther, Group::AnyOther,
    Group::AnyOther, Group::AnyOther, Group::AnyOther, Group::AnyOther, Group::AnyOther,
    Group::AnyOther, Group::AnyOther, Group::AnyOther, Group::AnyOther, Group::AnyOther,
    Group::AnyOther, Group::AnyOther, Group::AnyOther, Group::AnyOther, Group::AnyOther,
    Group::AnyOther, Group::AnyOther, Group::AnyOther, Group::AnyOther, Group::AnyOther,
    Group::AnyOther, Group::AnyOther, Group::AnyOther, Group::AnyOther, Group::AnyOther,
    Group::AnyOther, Group::AnyOther, Group::AnyOther, Group::AnyOther, Group::AnyOther,
    Group::AnyOther, Group::AnyOther, Group::AnyOther, Group::AnyOther, Group::AnyOther,
    Group::AnyOther, Group::AnyOther, Group::AnyOther, Group::AnyOther, Group::AnyOther,
];

/// The group of a name, which is one look at a table.
pub(crate) fn group_of(name: ElementName) -> Group
    ensures { (n : List ℕ) → name ≡ name_of n → group_view result ≡ group n }
{
    GROUPS[name.number() as usize]
}
