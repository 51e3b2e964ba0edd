//! Where links lead.
ghost use Rattle.std.specs.Option.{option_copied};
ghost use Rattle.std.specs.Prelude.{IfOk, ◌≡◌};
ghost use Rattle.tl_tree_extract.specs.Resolved.{document_base, is_external, is_refused_base, is_same, resolved};
ghost use Rattle.url.specs.Parser.{Gives};

use std::alloc::Global;
use url::{ParseError, ParseResult, Url};

/// Where a link leads from a base: none where it is no URL. It fails for want of memory, and where
/// a URL is longer than 4 GB.
pub fn resolved(alloc: Global, base: &Url, link: &[u8]) -> ParseResult<Option<Url>>
    ensures { IfOk result (λ url. url ≡ resolved base.now link.now) }
{
    let link = String::from_utf8_lossy(alloc, link)?;
    match base.join(link.as_str()) {
        Ok(url) => Ok(Some(url)),
        Err(ParseError::OutOfMemory) => Err(ParseError::OutOfMemory),
        Err(ParseError::Overflow) => Err(ParseError::Overflow),
        Err(_) => Ok(None),
    }
}

// Whether a `base` can't lead to a URL.
fn is_refused_base(url: &Url) -> bool
    ensures { result ≡ is_refused_base url.now }
{
    url.scheme() == "data" || url.scheme() == "javascript"
}

/// The base URL of a document, where the page has this URL, and the element that [`base`] answers,
/// if it answers one, has this `href`.
///
/// [`base`]: crate::base
pub fn document_base(alloc: Global, page: &Url, href: Option<&[u8]>) -> ParseResult<Url>
    ensures { IfOk result (λ url. url ≡ document_base page.now (option_copied href.entry)) }
{
    let Some(href) = href else {
        return Ok(page.clone()?);
    };
    match resolved(alloc, page, href)? {
        Some(url) if !is_refused_base(&url) => Ok(url),
        _ => Ok(page.clone()?),
    }
}

// Whether two hosts are the same, where there are two.
fn is_same(own: Option<&str>, other: Option<&str>) -> bool
    ensures { result ≡ is_same (option_copied own.entry) (option_copied other.entry) }
{
    match (own, other) {
        (Some(own), Some(other)) => own == other,
        (None, None) => true,
        _ => false,
    }
}

/// Whether a URL leads to another host than the base has. A URL without a host, as that of a
/// `mailto:`, leads to another one.
pub fn is_external(base: &Url, url: &Url) -> bool
    ensures { result ≡ is_external base.now url.now }
{
    !is_same(base.host_str(), url.host_str())
}
