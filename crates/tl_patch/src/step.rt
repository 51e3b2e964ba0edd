//! One token of a page, and the patches of its place.
ghost use Rattle.std.specs.Prelude.{◌≡◌, ◌≤◌, ◌-◌, length, map, take, drop};
ghost use Rattle.std.specs.List.{All};
ghost use Rattle.tl_html_tokens.specs.Whole.{bytes_at};
ghost use Rattle.tl_patch.specs.Inner.Steps.{BeginElsewhere, is_start_token};
ghost use Rattle.tl_patch.specs.PatchView.{PlacedChange, patch_view};

use crate::tag_patch::TagPatch;
use tl_html_tokens::{Mode, Token, TokenKind};

// Whether a token is a start tag.
pub(crate) fn is_start_tag(token: &Token) -> bool
    ensures { result ≡ is_start_token token.now }
{
    matches!(token.kind, TokenKind::StartTag) && matches!(token.mode, Mode::Data)
}

// What stands in a page from a place on.
#[tactic(auto, using(std::proofs::lemmas::List::drop_all))]
fn after(page: &[u8], start: usize) -> &[u8]
    ensures { result.now ≡ drop start page.now }
{
    if start <= page.len() {
        &page[start..]
    } else {
        &[]
    }
}

// So many of the first bytes, or all.
#[tactic(auto, using(std::proofs::lemmas::List::take_all))]
fn first(bytes: &[u8], len: usize) -> &[u8]
    ensures { result.now ≡ take len bytes.now }
{
    if len <= bytes.len() {
        &bytes[..len]
    } else {
        bytes
    }
}

// The bytes of a token.
pub(crate) fn token_bytes(page: &[u8], token: Token) -> &[u8]
    ensures { result.now ≡ bytes_at page.now token }
{
    let len = token.end.saturating_sub(token.start);
    first(after(page, token.start), len)
}

// How far the patches from a number on are of a place.
#[tactic(auto, using(crate::proofs::Groups::group_more, crate::proofs::Groups::group_ends, crate::proofs::Groups::group_stops))]
pub(crate) fn group_end(patches: &[TagPatch<'_>], from: usize, place: usize) -> usize
    requires { from ≤ length patches.now }
    ensures order { from ≤ result }
    ensures within { result ≤ length patches.now }
    ensures here { All (λ (c : PlacedChange). c.place ≡ place)
        (map patch_view (take (result - from) (drop from patches.now))) }
    ensures last { BeginElsewhere place (map patch_view (drop result patches.now)) }
{
    let mut end = from;
    while end < patches.len() && patches[end].start == place {
        end += 1;
    }
    end
}
