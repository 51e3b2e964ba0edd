//! Pages with one element changed, and with several.

use crate::answers::is_answer;
use std::alloc::Global;
use tl_patch_edit::{Content, EditError, ElementPatch, PlacedPatch, TokenizedPage};

const TEXT: Content<'static> = Content::Text { text: b"1 < 2 & 3" };

const MARKUP: Content<'static> = Content::Markup { markup: b"<hr>p;" };

// What is done, the byte where the start tag begins, the page, and what comes of it.
type Row = (
    ElementPatch<'static>,
    usize,
    &'static [u8],
    Result<&'static [u8], EditError>,
);

#[rattlefmt::skip]
static PAGE_ROWS: [Row; 86] = [
    (ElementPatch::Remove, 1, b"a<b>x</b>c", Ok(b"ac")),
    (ElementPatch::Remove, 4, b"<ul><li>a<li>b</ul>", Ok(b"<ul><li>b</ul>")),
    (ElementPatch::Remove, 9, b"<ul><li>a<li>b</ul>", Ok(b"<ul><li>a</ul>")),
    (ElementPatch::Remove, 0, b"<br>x", Ok(b"x")),
    (ElementPatch::Remove, 5, b"AT&am<b>x</b>p;", Ok(b"AT&am</>p;")),
    (ElementPatch::Remove, 1, b"<<b>x</b>p>", Ok(b"<</>p>")),
    (ElementPatch::Remove, 2, b"a\r<b></b>\nc", Ok(b"a\r</>\nc")),
    (ElementPatch::Remove, 0, b"<b>x</b>\xEF\xBB\xBFy", Ok(b"</>\xEF\xBB\xBFy")),
    (ElementPatch::Remove, 3, b"\xEF\xBB\xBF<b>x</b>y", Ok(b"\xEF\xBB\xBFy")),
    (ElementPatch::Remove, 5, b"<div><b>x</div>y", Err(EditError::NotMeant(5))),
    (ElementPatch::Remove, 7, b"<body>a<body>b", Err(EditError::NotMeant(7))),
    (ElementPatch::Remove, 1, b"<b>", Err(EditError::NoStartTag(1))),
    (ElementPatch::Remove, 0, b"<p>a<div>b</div></p>", Ok(b"<div>b</div></p>")),
    (ElementPatch::ReplaceWith { content: TEXT }, 1, b"a<b>x</b>c", Ok(b"a1 &lt; 2 &amp; 3c")),
    (ElementPatch::ReplaceWith { content: MARKUP }, 5, b"AT&am<b>x</b>p;", Ok(b"AT&am<hr>p;p;")),
    (ElementPatch::Fill { content: TEXT }, 0, b"<title>a</title>", Ok(b"<title>1 &lt; 2 &amp; 3</title>")),
    (ElementPatch::Fill { content: TEXT }, 0, b"<script>a</script>", Ok(b"<script>1 < 2 & 3</script>")),
    (ElementPatch::Fill { content: MARKUP }, 0, b"<title>a</title>", Err(EditError::NotWritten(0))),
    (ElementPatch::Fill { content: Content::Text { text: b"</script>" } }, 0, b"<script>a</script>", Err(EditError::ReadOtherwise(0))),
    (ElementPatch::Fill { content: Content::Text { text: b"a\rb" } }, 0, b"<style>a</style>", Err(EditError::NotWritten(0))),
    (ElementPatch::Fill { content: TEXT }, 0, b"<br>x", Err(EditError::NotMeant(0))),
    (ElementPatch::Prepend { content: TEXT }, 0, b"<p>AT&T</p>", Ok(b"<p>1 &lt; 2 &amp; 3AT&T</p>")),
    (ElementPatch::Prepend { content: MARKUP }, 0, b"<a>x</div>", Ok(b"<a><hr>p;x</div>")),
    (ElementPatch::Append { content: Content::Text { text: b"p;" } }, 0, b"<p>AT&am</p>", Ok(b"<p>AT&am</>p;</p>")),
    (ElementPatch::Append { content: MARKUP }, 4, b"<ul><li>a<li>b</ul>", Ok(b"<ul><li>a<hr>p;<li>b</ul>")),
    (ElementPatch::Append { content: Content::Markup { markup: b"<!-- " } }, 0, b"<p>a</p>", Err(EditError::ReadOtherwise(0))),
    (ElementPatch::Append { content: Content::Markup { markup: b"<i t='" } }, 0, b"<p>a</p>", Err(EditError::ReadOtherwise(0))),
    (ElementPatch::PutBefore { content: TEXT }, 7, b"<body>a<body>b", Ok(b"<body>a1 &lt; 2 &amp; 3<body>b")),
    (ElementPatch::PutBefore { content: Content::Text { text: b"p;" } }, 5, b"AT&am<b>x</b>", Ok(b"AT&am</>p;<b>x</b>")),
    (ElementPatch::PutAfter { content: MARKUP }, 4, b"<ul><li>a<li>b</ul>", Ok(b"<ul><li>a</li><hr>p;<li>b</ul>")),
    (ElementPatch::PutAfter { content: TEXT }, 0, b"<b>x</b>y", Ok(b"<b>x</b>1 &lt; 2 &amp; 3y")),
    (ElementPatch::PutAfter { content: Content::Markup { markup: b"x &am" } }, 0, b"<p></p>p;", Ok(b"<p></p>x &am</>p;")),
    (ElementPatch::PutAfter { content: TEXT }, 0, b"<b>x</b>", Ok(b"<b>x</b>1 &lt; 2 &amp; 3")),
    (ElementPatch::PutAfter { content: MARKUP }, 0, b"<p>a", Ok(b"<p>a</p><hr>p;")),
    (ElementPatch::PutAfter { content: TEXT }, 1, b"a<br>", Ok(b"a<br>1 &lt; 2 &amp; 3")),
    (ElementPatch::PutAfter { content: MARKUP }, 0, b"<p>a<b", Err(EditError::ReadOtherwise(0))),
    (ElementPatch::PutAfter { content: MARKUP }, 0, b"<p>a<!-- b", Err(EditError::ReadOtherwise(0))),
    (ElementPatch::PutAfter { content: TEXT }, 0, b"<body>a</body>", Err(EditError::NotMeant(0))),
    (ElementPatch::PutAfter { content: TEXT }, 6, b"<html><body>a", Err(EditError::NotMeant(6))),
    (ElementPatch::Append { content: Content::Text { text: b"y" } }, 0, b"<body>a</body>b", Ok(b"<body>a</body>by")),
    (ElementPatch::Rename { name: b"main" }, 0, b"<body>a</body>b", Ok(b"<main>a</body>b</main>")),
    (ElementPatch::Append { content: Content::Text { text: b"p;" } }, 0, b"<p>AT&am", Ok(b"<p>AT&am</>p;")),
    (ElementPatch::Append { content: MARKUP }, 4, b"<ul><li>3 <", Ok(b"<ul><li>3 <<hr>p;")),
    (ElementPatch::Append { content: Content::Markup { markup: b"b>" } }, 0, b"<p>3 <", Ok(b"<p>3 <</>b>")),
    (ElementPatch::Append { content: Content::Markup { markup: b"<" } }, 0, b"<p>x", Ok(b"<p>x<")),
    (ElementPatch::Append { content: Content::Markup { markup: b"<i" } }, 0, b"<p>x", Ok(b"<p>x<i")),
    (ElementPatch::Append { content: Content::Text { text: b"y" } }, 0, b"<p><title>x", Err(EditError::ReadOtherwise(0))),
    (ElementPatch::Append { content: MARKUP }, 0, b"<p><title>x", Err(EditError::ReadOtherwise(0))),
    (ElementPatch::Append { content: MARKUP }, 0, b"<li><plaintext>x", Err(EditError::ReadOtherwise(0))),
    (ElementPatch::Fill { content: Content::Text { text: b"y" } }, 0, b"<p>", Ok(b"<p>y")),
    (ElementPatch::Prepend { content: Content::Text { text: b"y" } }, 0, b"<b>", Ok(b"<b>y")),
    (ElementPatch::PutAfter { content: TEXT }, 1, b"a<br>b", Ok(b"a<br>1 &lt; 2 &amp; 3b")),
    (ElementPatch::Fill { content: Content::Text { text: b"" } }, 0, b"<p>a</p>", Ok(b"<p></p>")),
    (ElementPatch::Fill { content: Content::Text { text: b"" } }, 0, b"<title>a</title>", Ok(b"<title></title>")),
    (ElementPatch::Fill { content: Content::Markup { markup: b"" } }, 0, b"<p>a</p>", Ok(b"<p></p>")),
    (ElementPatch::PutBefore { content: Content::Text { text: b"" } }, 0, b"<b>", Ok(b"<b>")),
    (ElementPatch::Unwrap, 1, b"a<b k>x</b>c", Ok(b"axc")),
    (ElementPatch::Unwrap, 4, b"<ul><li>a<li>b</ul>", Ok(b"<ul>a<li>b</ul>")),
    (ElementPatch::Unwrap, 1, b"a<br>b", Ok(b"ab")),
    (ElementPatch::Unwrap, 5, b"AT&am<b>p;</b>x", Ok(b"AT&am</>p;x")),
    (ElementPatch::Unwrap, 0, b"<b>&am</b>p;", Ok(b"&am</>p;")),
    (ElementPatch::Unwrap, 5, b"AT&am<b></b>p;", Ok(b"AT&am</>p;")),
    (ElementPatch::Unwrap, 5, b"<div><b>x</div>y", Err(EditError::NotMeant(5))),
    (ElementPatch::Unwrap, 0, b"<script>a</script>", Ok(b"a")),
    (ElementPatch::Unwrap, 0, b"<script>&lt;</script>", Err(EditError::ReadOtherwise(0))),
    (ElementPatch::Unwrap, 0, b"<title>&lt;</title>", Ok(b"&lt;")),
    (ElementPatch::Unwrap, 0, b"<title><b></title>", Err(EditError::ReadOtherwise(0))),
    (ElementPatch::Unwrap, 0, b"<title>AT&am</title>p;", Err(EditError::ReadOtherwise(0))),
    (ElementPatch::Unwrap, 0, b"<script></script>x", Ok(b"x")),
    (ElementPatch::Rename { name: b"i" }, 1, b"a<B K=v>x</b\n>c", Ok(b"a<i K=v>x</i\n>c")),
    (ElementPatch::Rename { name: b"dd" }, 4, b"<ul><li a>a<li>b</ul>", Ok(b"<ul><dd a>a</dd><li>b</ul>")),
    (ElementPatch::Rename { name: b"div" }, 0, b"<p>a<p>b", Ok(b"<div>a</div><p>b")),
    (ElementPatch::Rename { name: b"hr" }, 1, b"a<br/>b", Ok(b"a<hr/>b")),
    (ElementPatch::Rename { name: b"i" }, 1, b"a<br>b", Err(EditError::NotMeant(1))),
    (ElementPatch::Rename { name: b"br" }, 1, b"a<b>b</b>", Err(EditError::NotMeant(1))),
    (ElementPatch::Rename { name: b"title" }, 0, b"<b>x</b>", Err(EditError::NotMeant(0))),
    (ElementPatch::Rename { name: b"b" }, 0, b"<title>x</title>", Err(EditError::NotMeant(0))),
    (ElementPatch::Rename { name: b"I" }, 0, b"<b>x</b>", Err(EditError::NotWritten(0))),
    (ElementPatch::Rename { name: b"i k" }, 0, b"<b>x</b>", Err(EditError::NotWritten(0))),
    (ElementPatch::Rename { name: b"" }, 0, b"<b>x</b>", Err(EditError::NotWritten(0))),
    (ElementPatch::Rename { name: b"i" }, 5, b"<div><b>x</div>y", Err(EditError::NotMeant(5))),
    (ElementPatch::Rename { name: b"i" }, 0, b"<p>a", Ok(b"<i>a</i>")),
    (ElementPatch::PutBefore { content: Content::Text { text: b"x" } }, 9, b"<ul><LI>a<li>b</ul>", Ok(b"<ul><LI>a</li>x<li>b</ul>")),
    (ElementPatch::ReplaceWith { content: Content::Text { text: b"x" } }, 4, b"<p>a<hr>b", Ok(b"<p>a</p>xb")),
    (ElementPatch::Rename { name: b"b" }, 4, b"<p>a<div>b</div>", Ok(b"<p>a</p><b>b</b>")),
    (ElementPatch::Unwrap, 0, b"<select><option>a</select>b", Ok(b"<option>a</option>b")),
];

// What is left open in an element, or before it, gets its end tag.
#[rattlefmt::skip]
static LEFT_OPEN_ROWS: [Row; 7] = [
    (ElementPatch::PutBefore { content: Content::Text { text: b"x" } }, 5, b"<H1>a<h2>b</h2>", Ok(b"<H1>a</h1>x<h2>b</h2>")),
    (ElementPatch::Append { content: Content::Text { text: b"x" } }, 0, b"<div><p>a</div>", Ok(b"<div><p>a</p>x</div>")),
    (ElementPatch::Append { content: Content::Text { text: b"x" } }, 0, b"<div><span>a</div>", Ok(b"<div><span>a</span>x</div>")),
    (ElementPatch::Append { content: Content::Text { text: b"x" } }, 4, b"<ul><li><P>a<li>b</ul>", Ok(b"<ul><li><P>a</p>x<li>b</ul>")),
    (ElementPatch::Append { content: Content::Text { text: b"x" } }, 0, b"<div><X\0>a</div>", Ok(b"<div><X\0>a</x\xEF\xBF\xBD>x</div>")),
    (ElementPatch::Rename { name: b"x-y" }, 0, b"<div><p>a</div>", Ok(b"<x-y><p>a</p></x-y>")),
    (ElementPatch::Unwrap, 0, b"<p><option>a<hr>", Ok(b"<option>a</option><hr>")),
];

// What is open where `</body>` and `</html>` stand last in the page.
#[rattlefmt::skip]
static TAIL_ROWS: [Row; 24] = [
    (ElementPatch::Append { content: MARKUP }, 0, b"<body>a</body></html>\n", Ok(b"<body>a<hr>p;</body></html>\n")),
    (ElementPatch::Append { content: MARKUP }, 0, b"<body></body>", Ok(b"<body><hr>p;</body>")),
    (ElementPatch::Append { content: MARKUP }, 0, b"<body>a</BODY\n> <!--b--></html>", Ok(b"<body>a<hr>p;</BODY\n> <!--b--></html>")),
    (ElementPatch::Append { content: MARKUP }, 0, b"<body>a</html></body>", Ok(b"<body>a<hr>p;</html></body>")),
    (ElementPatch::Append { content: MARKUP }, 0, b"<body>a&#32;</body>&#32;", Ok(b"<body>a&#32;<hr>p;</body>&#32;")),
    (ElementPatch::Append { content: MARKUP }, 6, b"<body><p>a</html>", Ok(b"<body><p>a<hr>p;</html>")),
    (ElementPatch::Append { content: MARKUP }, 6, b"<body><div>a</body>", Err(EditError::NotMeant(6))),
    (ElementPatch::Prepend { content: MARKUP }, 6, b"<body><div>a</body>", Ok(b"<body><div><hr>p;a</body>")),
    (ElementPatch::Fill { content: MARKUP }, 0, b"<body>a<b>c</body></html>", Ok(b"<body><hr>p;</body></html>")),
    (ElementPatch::Fill { content: MARKUP }, 0, b"<html><body>a</body></html>", Ok(b"<html><hr>p;</html>")),
    (ElementPatch::Fill { content: MARKUP }, 0, b"<body>a</body>b", Ok(b"<body><hr>p;")),
    (ElementPatch::Fill { content: MARKUP }, 0, b"<body>a</body><!--b--><br>", Ok(b"<body><hr>p;")),
    (ElementPatch::Fill { content: MARKUP }, 0, b"<body>a</body></p>", Ok(b"<body><hr>p;")),
    (ElementPatch::Fill { content: MARKUP }, 0, b"<body>a</body>\0", Ok(b"<body><hr>p;")),
    (ElementPatch::Remove, 6, b"<body><p>a</body></html>", Ok(b"<body></body></html>")),
    (ElementPatch::Remove, 0, b"<body><p>a</body></html>", Ok(b"</html>")),
    (ElementPatch::Unwrap, 0, b"<body>a</body></html>", Ok(b"a</html>")),
    (ElementPatch::Rename { name: b"div" }, 0, b"<body>a</body></html>", Ok(b"<div>a</div></html>")),
    (ElementPatch::Rename { name: b"div" }, 6, b"<html><body>a</html>", Ok(b"<html><div>a</div></html>")),
    (ElementPatch::PutAfter { content: TEXT }, 6, b"<body><p>a</body>", Ok(b"<body><p>a</p>1 &lt; 2 &amp; 3</body>")),
    (ElementPatch::PutAfter { content: TEXT }, 0, b"<body>a</body></html>", Err(EditError::NotMeant(0))),
    (ElementPatch::Append { content: MARKUP }, 0, b"<body><p>a</body></html>", Ok(b"<body><p>a</p><hr>p;</body></html>")),
    (ElementPatch::Append { content: MARKUP }, 0, b"<html><body><p>a</html>", Ok(b"<html><body><p>a</p><hr>p;</html>")),
    (ElementPatch::Append { content: MARKUP }, 0, b"<html><body>a</html>", Ok(b"<html><body>a<hr>p;</html>")),
];

// What is done, the bytes where the start tags begin, the page, and what comes of it.
type SeveralRow = (
    ElementPatch<'static>,
    &'static [usize],
    &'static [u8],
    Result<&'static [u8], EditError>,
);

#[rattlefmt::skip]
static SEVERAL_ROWS: [SeveralRow; 37] = [
    (ElementPatch::Remove, &[], b"a<b>x</b>c", Ok(b"a<b>x</b>c")),
    (ElementPatch::Remove, &[1, 10], b"a<b>x</b>c<i>y</i>d", Ok(b"acd")),
    (ElementPatch::Remove, &[1, 1, 1], b"a<b>x</b>c", Ok(b"ac")),
    (ElementPatch::Remove, &[4, 9], b"<ul><li>a<li>b</ul>", Ok(b"<ul></ul>")),
    (ElementPatch::Remove, &[0, 5], b"<div><b>x</div>y", Ok(b"y")),
    (ElementPatch::Remove, &[0, 3, 6], b"<b><i><u>x</u></i></b>y", Ok(b"y")),
    (ElementPatch::Remove, &[5, 12], b"AT&am<b></b><i></i>p;", Ok(b"AT&am</>p;")),
    (ElementPatch::Remove, &[0, 7], b"<b></b><i></i>\xEF\xBB\xBFy", Ok(b"</>\xEF\xBB\xBFy")),
    (ElementPatch::Remove, &[9, 1], b"a<b>x</b><i>y</i>", Err(EditError::NoStartTag(1))),
    (ElementPatch::Remove, &[1, 2], b"a<b>x</b>", Err(EditError::NoStartTag(2))),
    (ElementPatch::Remove, &[1, 10], b"a<b>x</b><p><i>", Err(EditError::NoStartTag(10))),
    (ElementPatch::Unwrap, &[0, 3], b"<b><i>x</i></b>y", Ok(b"xy")),
    (ElementPatch::Unwrap, &[4, 9], b"<ul><li>a<li>b</ul>", Ok(b"<ul>ab</ul>")),
    (ElementPatch::Unwrap, &[0, 6], b"<b>&am<i>p;</i></b>", Ok(b"&am</>p;")),
    (ElementPatch::Rename { name: b"div" }, &[4, 9], b"<ul><li>a<li>b</ul>", Ok(b"<ul><div>a</div><div>b</div></ul>")),
    (ElementPatch::Rename { name: b"x" }, &[4, 8], b"<ul><li><p>a</ul>", Ok(b"<ul><x><x>a</x></x></ul>")),
    (ElementPatch::Rename { name: b"u" }, &[0, 3, 6], b"<b><i><b>x</b></i></b>", Ok(b"<u><u><u>x</u></u></u>")),
    (ElementPatch::Fill { content: TEXT }, &[0, 4], b"<ul><li></ul>", Ok(b"<ul>1 &lt; 2 &amp; 3</ul>")),
    (ElementPatch::Fill { content: TEXT }, &[0, 8], b"<i>a</i><i>b</i>", Ok(b"<i>1 &lt; 2 &amp; 3</i><i>1 &lt; 2 &amp; 3</i>")),
    (ElementPatch::ReplaceWith { content: MARKUP }, &[0, 3], b"<b><i>x</i></b>y", Ok(b"<hr>p;y")),
    (ElementPatch::ReplaceWith { content: Content::Text { text: b"&am" } }, &[0, 4], b"<br><br>p;", Ok(b"&amp;am&amp;amp;")),
    (ElementPatch::Prepend { content: MARKUP }, &[0, 3], b"<b><i>x</i></b>", Ok(b"<b><hr>p;<i><hr>p;x</i></b>")),
    (ElementPatch::Append { content: MARKUP }, &[0, 3], b"<b><i>x</i></b>", Ok(b"<b><i>x<hr>p;</i><hr>p;</b>")),
    (ElementPatch::Append { content: Content::Markup { markup: b"&am" } }, &[0, 3], b"<b><i>x</i></b>", Ok(b"<b><i>x&am</i>&am</b>")),
    (ElementPatch::PutBefore { content: TEXT }, &[0, 3], b"<b><i>x</i></b>", Ok(b"1 &lt; 2 &amp; 3<b>1 &lt; 2 &amp; 3<i>x</i></b>")),
    (ElementPatch::PutAfter { content: Content::Text { text: b"y" } }, &[4, 8], b"<ul><li><b>x</b></ul>", Ok(b"<ul><li><b>x</b>y</li>y</ul>")),
    (ElementPatch::PutAfter { content: Content::Text { text: b"y" } }, &[0, 4], b"<br><br>z", Ok(b"<br>y<br>yz")),
    (ElementPatch::PutAfter { content: Content::Text { text: b"z" } }, &[0, 8], b"<b>x</b><b>y</b>", Ok(b"<b>x</b>z<b>y</b>z")),
    (ElementPatch::Append { content: Content::Text { text: b"z" } }, &[0, 6], b"<body><p>x", Ok(b"<body><p>xz</p>z")),
    (ElementPatch::Fill { content: TEXT }, &[0, 8], b"<i>a</i><br>z", Err(EditError::NotMeant(8))),
    (ElementPatch::Fill { content: MARKUP }, &[0, 8], b"<i>a</i><title>b</title>", Err(EditError::NotWritten(8))),
    (ElementPatch::Append { content: Content::Markup { markup: b"<!-- " } }, &[0, 8], b"<i>a</i><i>b</i>", Err(EditError::ReadOtherwise(0))),
    (ElementPatch::Append { content: Content::Markup { markup: b"<!-- " } }, &[], b"<i>a</i><i>b", Ok(b"<i>a</i><i>b")),
    (ElementPatch::PutBefore { content: Content::Markup { markup: b"\xEF\xBB\xBFx" } }, &[1, 5], b"y<br><br>z", Err(EditError::NotWritten(1))),
    (ElementPatch::PutBefore { content: Content::Markup { markup: b"\xEF\xBB\xBFx" } }, &[], b"\xEF\xBB\xBFy", Ok(b"\xEF\xBB\xBFy")),
    (ElementPatch::PutBefore { content: Content::Text { text: b"x" } }, &[0, 4, 8], b"<p>a<p>b<p>c", Ok(b"x<p>a</p>x<p>b</p>x<p>c")),
    (ElementPatch::ReplaceWith { content: Content::Text { text: b"x" } }, &[0, 4, 8], b"<p>a<p>b<p>c", Ok(b"xxx")),
];

// The patches with the bytes where the start tags begin, the page, and what comes of it.
type EachRow = (
    &'static [PlacedPatch<'static>],
    &'static [u8],
    Result<&'static [u8], EditError>,
);

const Y: Content<'static> = Content::Text { text: b"y" };

const Z: Content<'static> = Content::Text { text: b"z" };

#[rattlefmt::skip]
static EACH_ROWS: [EachRow; 32] = [
    (&[], b"a<b>x</b>c", Ok(b"a<b>x</b>c")),
    (&[PlacedPatch { place: 1, patch: ElementPatch::Remove }, PlacedPatch { place: 10, patch: ElementPatch::Append { content: Z } }], b"a<b>x</b>c<i>y</i>d", Ok(b"ac<i>yz</i>d")),
    (&[PlacedPatch { place: 0, patch: ElementPatch::Append { content: Y } }, PlacedPatch { place: 0, patch: ElementPatch::Append { content: Z } }], b"<b>x</b>", Ok(b"<b>xyz</b>")),
    (&[PlacedPatch { place: 0, patch: ElementPatch::Append { content: Z } }, PlacedPatch { place: 0, patch: ElementPatch::Append { content: Y } }], b"<b>x</b>", Ok(b"<b>xzy</b>")),
    (&[PlacedPatch { place: 0, patch: ElementPatch::Append { content: Z } }, PlacedPatch { place: 0, patch: ElementPatch::Prepend { content: Y } }], b"<b></b>", Ok(b"<b>yz</b>")),
    (&[PlacedPatch { place: 0, patch: ElementPatch::Rename { name: b"u" } }, PlacedPatch { place: 0, patch: ElementPatch::Fill { content: TEXT } }, PlacedPatch { place: 0, patch: ElementPatch::PutAfter { content: Z } }, PlacedPatch { place: 0, patch: ElementPatch::PutBefore { content: Y } }], b"<b>x</b>", Ok(b"y<u>1 &lt; 2 &amp; 3</u>z")),
    (&[PlacedPatch { place: 0, patch: ElementPatch::Fill { content: TEXT } }, PlacedPatch { place: 8, patch: ElementPatch::Fill { content: MARKUP } }], b"<i>a</i><i>b</i>", Ok(b"<i>1 &lt; 2 &amp; 3</i><i><hr>p;</i>")),
    (&[PlacedPatch { place: 0, patch: ElementPatch::Append { content: Y } }, PlacedPatch { place: 8, patch: ElementPatch::Append { content: Y } }, PlacedPatch { place: 16, patch: ElementPatch::Append { content: Z } }], b"<i>a</i><i>b</i><i>c</i>", Ok(b"<i>ay</i><i>by</i><i>cz</i>")),
    (&[PlacedPatch { place: 4, patch: ElementPatch::PutAfter { content: Y } }, PlacedPatch { place: 4, patch: ElementPatch::Append { content: Z } }], b"<ul><li>a<li>b</ul>", Ok(b"<ul><li>az</li>y<li>b</ul>")),
    (&[PlacedPatch { place: 4, patch: ElementPatch::PutAfter { content: Y } }, PlacedPatch { place: 9, patch: ElementPatch::PutBefore { content: Z } }], b"<ul><li>a<li>b</ul>", Ok(b"<ul><li>a</li>yz<li>b</ul>")),
    (&[PlacedPatch { place: 4, patch: ElementPatch::Append { content: Y } }, PlacedPatch { place: 8, patch: ElementPatch::Rename { name: b"p" } }], b"<ul><li><b>x</ul>", Err(EditError::NotMeant(8))),
    (&[PlacedPatch { place: 0, patch: ElementPatch::Remove }, PlacedPatch { place: 3, patch: ElementPatch::Fill { content: TEXT } }, PlacedPatch { place: 3, patch: ElementPatch::Rename { name: b"u" } }], b"<b><i>x</i></b>y", Ok(b"y")),
    (&[PlacedPatch { place: 0, patch: ElementPatch::Fill { content: Z } }, PlacedPatch { place: 3, patch: ElementPatch::Remove }], b"<b><i>x</i></b>y", Ok(b"<b>z</b>y")),
    (&[PlacedPatch { place: 0, patch: ElementPatch::Remove }, PlacedPatch { place: 0, patch: ElementPatch::PutAfter { content: Y } }], b"<b>x</b>z", Ok(b"yz")),
    (&[PlacedPatch { place: 0, patch: ElementPatch::PutBefore { content: Y } }, PlacedPatch { place: 0, patch: ElementPatch::Remove }], b"<b>x</b>z", Ok(b"yz")),
    (&[PlacedPatch { place: 0, patch: ElementPatch::Remove }, PlacedPatch { place: 0, patch: ElementPatch::Unwrap }], b"<b>x</b>", Err(EditError::Across(0))),
    (&[PlacedPatch { place: 0, patch: ElementPatch::Append { content: Y } }, PlacedPatch { place: 8, patch: ElementPatch::Remove }, PlacedPatch { place: 8, patch: ElementPatch::Unwrap }], b"<i>a</i><b>x</b>", Err(EditError::Across(8))),
    (&[PlacedPatch { place: 0, patch: ElementPatch::Append { content: Y } }, PlacedPatch { place: 0, patch: ElementPatch::Fill { content: Z } }], b"<b>x</b>", Ok(b"<b>zy</b>")),
    (&[PlacedPatch { place: 1, patch: ElementPatch::Rename { name: b"u" } }, PlacedPatch { place: 1, patch: ElementPatch::Rename { name: b"i" } }], b"a<b>x</b>", Err(EditError::Across(1))),
    (&[PlacedPatch { place: 0, patch: ElementPatch::Unwrap }, PlacedPatch { place: 5, patch: ElementPatch::Remove }], b"<div><b>x</div>y", Err(EditError::NotMeant(5))),
    (&[PlacedPatch { place: 8, patch: ElementPatch::Remove }, PlacedPatch { place: 0, patch: ElementPatch::Unwrap }], b"<i>a</i><b>c</b>", Err(EditError::NoStartTag(0))),
    (&[PlacedPatch { place: 0, patch: ElementPatch::Fill { content: TEXT } }, PlacedPatch { place: 8, patch: ElementPatch::Fill { content: MARKUP } }], b"<i>a</i><title>b</title>", Err(EditError::NotWritten(8))),
    (&[PlacedPatch { place: 0, patch: ElementPatch::Unwrap }, PlacedPatch { place: 8, patch: ElementPatch::Append { content: Content::Markup { markup: b"<!-- " } } }], b"<i>a</i><i>b</i>", Err(EditError::ReadOtherwise(0))),
    (&[PlacedPatch { place: 4, patch: ElementPatch::Rename { name: b"b" } }, PlacedPatch { place: 4, patch: ElementPatch::PutBefore { content: Z } }], b"<p>a<p>b", Ok(b"<p>a</p>z<b>b</b>")),
    (&[PlacedPatch { place: 4, patch: ElementPatch::PutBefore { content: Y } }, PlacedPatch { place: 4, patch: ElementPatch::PutBefore { content: Z } }], b"<p>a<p>b", Ok(b"<p>a</p>yz<p>b")),
    (&[PlacedPatch { place: 0, patch: ElementPatch::Remove }, PlacedPatch { place: 4, patch: ElementPatch::PutBefore { content: Z } }], b"<p>a<p>b", Ok(b"z<p>b")),
    (&[PlacedPatch { place: 0, patch: ElementPatch::PutAfter { content: Y } }, PlacedPatch { place: 0, patch: ElementPatch::PutAfter { content: Z } }], b"<p>a", Ok(b"<p>a</p>yz")),
    (&[PlacedPatch { place: 0, patch: ElementPatch::PutAfter { content: Y } }, PlacedPatch { place: 0, patch: ElementPatch::Rename { name: b"b" } }], b"<p>a", Ok(b"<b>a</b>y")),
    (&[PlacedPatch { place: 0, patch: ElementPatch::PutAfter { content: Y } }, PlacedPatch { place: 0, patch: ElementPatch::Unwrap }], b"<p>a<hr>", Ok(b"ay<hr>")),
    (&[PlacedPatch { place: 0, patch: ElementPatch::Remove }, PlacedPatch { place: 0, patch: ElementPatch::PutAfter { content: Y } }], b"<p>a<hr>", Ok(b"y<hr>")),
    (&[PlacedPatch { place: 0, patch: ElementPatch::Fill { content: Z } }, PlacedPatch { place: 0, patch: ElementPatch::Append { content: Y } }], b"<div><p>a</div>", Ok(b"<div>zy</div>")),
    (&[PlacedPatch { place: 4, patch: ElementPatch::Append { content: Y } }, PlacedPatch { place: 8, patch: ElementPatch::PutAfter { content: Z } }], b"<ul><li><p>a<li>b</ul>", Ok(b"<ul><li><p>a</p>zy<li>b</ul>")),
];

/// A page with these patches.
pub fn patched_each(
    alloc: Global,
    page: &[u8],
    patches: &[PlacedPatch<'_>],
) -> Result<Vec<u8>, EditError> {
    let page = TokenizedPage::of(alloc, page)?;
    page.patch_each(alloc, patches)
}

// A page with this patch of some elements.
fn patched_at(
    alloc: Global,
    page: &[u8],
    places: &[usize],
    patch: ElementPatch<'_>,
) -> Result<Vec<u8>, EditError> {
    let page = TokenizedPage::of(alloc, page)?;
    page.patch_elements(alloc, places, patch)
}

// A page with this patch of one element.
fn patched(
    alloc: Global,
    page: &[u8],
    place: usize,
    patch: ElementPatch<'_>,
) -> Result<Vec<u8>, EditError> {
    let page = TokenizedPage::of(alloc, page)?;
    page.patch_element(alloc, place, patch)
}

#[test]
fn elements_are_changed(rt: HostRuntime) {
    for (patch, place, page, wanted) in &PAGE_ROWS {
        assert!(rt; is_answer(patched(rt.alloc(), page, *place, *patch), *wanted));
    }
}

#[test]
fn what_is_left_open_is_closed(rt: HostRuntime) {
    for (patch, place, page, wanted) in &LEFT_OPEN_ROWS {
        assert!(rt; is_answer(patched(rt.alloc(), page, *place, *patch), *wanted));
    }
}

#[test]
fn elements_end_in_the_tail(rt: HostRuntime) {
    for (patch, place, page, wanted) in &TAIL_ROWS {
        assert!(rt; is_answer(patched(rt.alloc(), page, *place, *patch), *wanted));
    }
}

#[test]
fn several_elements_are_changed(rt: HostRuntime) {
    for (patch, places, page, wanted) in &SEVERAL_ROWS {
        let found = patched_at(rt.alloc(), page, places, *patch);
        assert!(rt; is_answer(found, *wanted));
    }
}

#[test]
fn each_element_is_changed(rt: HostRuntime) {
    for (patches, page, wanted) in &EACH_ROWS {
        let found = patched_each(rt.alloc(), page, patches);
        assert!(rt; is_answer(found, *wanted));
    }
}
