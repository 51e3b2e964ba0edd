//! Texts that a browser may read as markup.

use crate::answers::is_answer;
use crate::element_edits::patched_each;
use tl_patch_edit::{Content, EditError, ElementPatch, PlacedPatch};

const BROKEN: Content<'static> = Content::Text {
    text: b"</noscript><img src=x>",
};

const AND: Content<'static> = Content::Text { text: b"&" };

const PLAIN: Content<'static> = Content::Text { text: b"a>b" };

// Patches of a page, and what comes of it.
type Row = (
    &'static [PlacedPatch<'static>],
    &'static [u8],
    Result<&'static [u8], EditError>,
);

#[rattlefmt::skip]
static ROWS: [Row; 36] = [
    (&[PlacedPatch { place: 10, patch: ElementPatch::Fill { content: BROKEN } }], b"<noscript><style></style></noscript>", Err(EditError::Misread(10, 0))),
    (&[PlacedPatch { place: 10, patch: ElementPatch::Prepend { content: BROKEN } }], b"<noscript><style></style></noscript>", Err(EditError::Misread(10, 0))),
    (&[PlacedPatch { place: 10, patch: ElementPatch::Append { content: AND } }], b"<noscript><style>a</style></noscript>", Err(EditError::Misread(10, 0))),
    (&[PlacedPatch { place: 10, patch: ElementPatch::Fill { content: PLAIN } }], b"<noscript><style></style></noscript>", Ok(b"<noscript><style>a>b</style></noscript>")),
    (&[PlacedPatch { place: 10, patch: ElementPatch::Fill { content: AND } }], b"<noscript><title></title></noscript>", Ok(b"<noscript><title>&amp;</title></noscript>")),
    (&[PlacedPatch { place: 10, patch: ElementPatch::PutBefore { content: AND } }], b"<noscript><style></style></noscript>", Ok(b"<noscript>&amp;<style></style></noscript>")),
    (&[PlacedPatch { place: 10, patch: ElementPatch::PutAfter { content: AND } }], b"<noscript><style></style></noscript>", Ok(b"<noscript><style></style>&amp;</noscript>")),
    (&[PlacedPatch { place: 10, patch: ElementPatch::ReplaceWith { content: AND } }], b"<noscript><style></style></noscript>", Ok(b"<noscript>&amp;</noscript>")),
    (&[PlacedPatch { place: 11, patch: ElementPatch::Fill { content: AND } }], b"<svg></svg><style></style>", Err(EditError::Misread(11, 0))),
    (&[PlacedPatch { place: 17, patch: ElementPatch::Fill { content: AND } }], b"<b></b><SVG a=b/><XMP></XMP>", Err(EditError::Misread(17, 7))),
    (&[PlacedPatch { place: 24, patch: ElementPatch::Fill { content: AND } }], b"<svg><b><math></svg><i/><script></script>", Err(EditError::Misread(24, 0))),
    (&[PlacedPatch { place: 13, patch: ElementPatch::Fill { content: AND } }], b"<math></math><iframe></iframe>", Err(EditError::Misread(13, 0))),
    (&[PlacedPatch { place: 22, patch: ElementPatch::Fill { content: AND } }], b"<frameset></frameset> <noframes></noframes>", Err(EditError::Misread(22, 0))),
    (&[PlacedPatch { place: 15, patch: ElementPatch::Fill { content: AND } }], b"<template><col><style></style>", Err(EditError::Misread(15, 0))),
    (&[PlacedPatch { place: 8, patch: ElementPatch::Fill { content: AND } }], b"<select><noembed></noembed></select>", Err(EditError::Misread(8, 0))),
    (&[PlacedPatch { place: 6, patch: ElementPatch::Fill { content: AND } }], b"</svg><style></style>", Ok(b"</svg><style>&</style>")),
    (&[PlacedPatch { place: 12, patch: ElementPatch::Fill { content: AND } }], b"<!--<svg>--><style></style>", Ok(b"<!--<svg>--><style>&</style>")),
    (&[PlacedPatch { place: 20, patch: ElementPatch::Fill { content: AND } }], b"<title><svg></title><style></style>", Ok(b"<title><svg></title><style>&</style>")),
    (&[PlacedPatch { place: 0, patch: ElementPatch::Fill { content: AND } }], b"<style></style><svg></svg>", Ok(b"<style>&</style><svg></svg>")),
    (&[PlacedPatch { place: 0, patch: ElementPatch::Fill { content: AND } }], b"<svga></svga><style></style>", Ok(b"<svga>&amp;</svga><style></style>")),
    (&[PlacedPatch { place: 13, patch: ElementPatch::Fill { content: AND } }], b"<svga></svga><style></style>", Ok(b"<svga></svga><style>&</style>")),
    (&[PlacedPatch { place: 0, patch: ElementPatch::Rename { name: b"svg" } }], b"<div><style>&</style></div>", Err(EditError::Misread(0, 0))),
    (&[PlacedPatch { place: 1, patch: ElementPatch::Rename { name: b"math" } }], b"x<div></div><xmp><</xmp>", Err(EditError::Misread(1, 1))),
    (&[PlacedPatch { place: 0, patch: ElementPatch::Rename { name: b"noscript" } }], b"<div><script>1 < 2</script></div>", Err(EditError::Misread(0, 0))),
    (&[PlacedPatch { place: 0, patch: ElementPatch::Rename { name: b"select" } }], b"<div><iframe>&amp;</iframe></div>", Err(EditError::Misread(0, 0))),
    (&[PlacedPatch { place: 0, patch: ElementPatch::Rename { name: b"template" } }], b"<div><noembed>a<</noembed></div>", Err(EditError::Misread(0, 0))),
    (&[PlacedPatch { place: 0, patch: ElementPatch::Rename { name: b"frameset" } }], b"<div><noframes>a<</noframes></div>", Err(EditError::Misread(0, 0))),
    (&[PlacedPatch { place: 0, patch: ElementPatch::Rename { name: b"select" } }], b"<div><style>a</style><p>&lt;</div>", Ok(b"<select><style>a</style><p>&lt;</p></select>")),
    (&[PlacedPatch { place: 0, patch: ElementPatch::Rename { name: b"select" } }], b"<div><title><i></title></div>", Err(EditError::Misread(0, 0))),
    (&[PlacedPatch { place: 16, patch: ElementPatch::Rename { name: b"svg" } }], b"<style>&</style><b></b>", Ok(b"<style>&</style><svg></svg>")),
    (&[PlacedPatch { place: 0, patch: ElementPatch::Rename { name: b"p" } }], b"<svg><style>&</style></svg>", Ok(b"<p><style>&</style></p>")),
    (&[PlacedPatch { place: 5, patch: ElementPatch::Rename { name: b"svg" } }], b"<svg><g><style>&</style></g></svg>", Err(EditError::Misread(5, 5))),
    (&[PlacedPatch { place: 0, patch: ElementPatch::Rename { name: b"svg" } }, PlacedPatch { place: 5, patch: ElementPatch::Fill { content: AND } }], b"<div><style>a</style></div>", Err(EditError::Misread(5, 0))),
    (&[PlacedPatch { place: 0, patch: ElementPatch::Rename { name: b"svg" } }, PlacedPatch { place: 5, patch: ElementPatch::Fill { content: PLAIN } }], b"<div><style>a</style></div>", Ok(b"<svg><style>a>b</style></svg>")),
    (&[PlacedPatch { place: 0, patch: ElementPatch::Remove }, PlacedPatch { place: 5, patch: ElementPatch::Fill { content: AND } }], b"<svg><style>a</style></svg>b", Ok(b"b")),
    (&[PlacedPatch { place: 10, patch: ElementPatch::Fill { content: Content::Markup { markup: b"<i>" } } }], b"<noscript><style></style></noscript>", Err(EditError::NotWritten(10))),
];

#[test]
fn raw_texts_are_kept(rt: HostRuntime) {
    for (patches, page, wanted) in &ROWS {
        let found = patched_each(rt.alloc(), page, patches);
        assert!(rt; is_answer(found, *wanted));
    }
}
