//! The elements of the tokens so far.

use crate::found::Element;
use std::alloc::{AllocError, Global};
use tl_html_balance::{OpenTags, Opening, PutIn, TagName};
use tl_html_parts::{characters, lower_name, tag_parts};
use tl_html_tokens::{Mode, Token, TokenKind};

// An element that has not ended: its name, and the token that began it.
#[derive(Clone, Copy)]
pub(crate) struct OpenElement<'p> {
    pub(crate) name: &'p [u8],
    pub(crate) start: usize,
}

// The names that rules look at, and beside them the open elements; those that ended.
#[derive(Drop)]
pub(crate) struct Finder<'p> {
    pub(crate) open_tags: OpenTags,
    pub(crate) open_elements: Vec<OpenElement<'p>>,
    pub(crate) ended: Vec<Element<'p>>,
}

ghost use Rattle.std.specs.Prelude.{◌≡◌, ◌<◌, ◌≤◌, ◌+◌, ◌==◌, ◌&&◌, ◌∷◌, ◌++◌, ℕ, List, [], false, true, drop, length, map, take, OnOk};
ghost use Rattle.std.specs.List.{list_any};
ghost use Rattle.tl_spec.specs.Lex.ByteClass.{is_void};
ghost use Rattle.tl_html_spec.specs.Balanced.{is_dropped, is_head, leading, put_in};
ghost use Rattle.tl_html_spec.specs.HtmlTokenizer.{Character, EndTag, HtmlAttribute, HtmlToken, StartTag, is_white_space};
ghost use Rattle.tl_html_tokens.specs.Characters.{characters_of};
ghost use Rattle.tl_html_tokens.specs.Kinds.{IsEndTag, IsStartTag};
ghost use Rattle.tl_html_tokens.specs.Whole.{IsWhole, bytes_at};
ghost use Rattle.tl_html_tokens.specs.declared.mode.Mode.{Mode};
ghost use Rattle.tl_html_parts.specs.Parts.{name_of};
ghost use Rattle.tl_html_balance.specs.View.{name_of as tag_name, open_names};
ghost use Rattle.tl_patch_elements.specs.Inner.Parts.{IsPart};
ghost use Rattle.tl_patch_spec.specs.Elements.{PlacedToken, at_piece, elements_of, tokens_at};
ghost use Rattle.tl_patch_spec.specs.Elements.{ended_element};
ghost use Rattle.tl_patch_elements.specs.Inner.Opened.{opened_tags, opened_tokens};
ghost use Rattle.tl_html_balance.specs.Tokens.{tokens_put_in};
ghost use Rattle.tl_patch_elements.specs.Inner.Finding.{Finds, IsNamed, elements_with, is_alone, is_nothing, is_paragraph, is_seen, stack_of};
ghost use Rattle.tl_patch_elements.specs.View.{elements_view};

fn is_seen(byte: u8) -> bool
    ensures { result ≡ is_seen byte }
{
    !(byte == 0 || byte == b'\t' || byte == b'\n' || byte == b'\x0C' || byte == b' ')
}

// Whether a head ends before one of these characters.
fn is_any_seen(characters: &[u8]) -> bool
    ensures { result ≡ list_any is_seen characters.now }
{
    characters.iter().any(|byte| is_seen(*byte))
}

// The bytes of a token.
fn token_bytes(page: &[u8], token: Token) -> &[u8]
    requires order { token.start ≤ token.end }
    requires within { token.end ≤ length page.now }
    ensures { result.now ≡ bytes_at page.now token }
{
    &page[token.start..token.end]
}

// Whether an end tag is the page's own: the last of so many may be.
fn is_last_own(is_own: bool, number: usize, count: usize) -> bool
    requires { number < count }
    ensures { result ≡ (is_own && (number + 1 == count)) }
{
    is_own && number + 1 == count
}

fn is_nothing(put_in: PutIn) -> bool
    ensures { result ≡ is_nothing put_in }
{
    matches!(put_in, PutIn::Nothing)
}

fn is_paragraph(put_in: PutIn) -> bool
    ensures { result ≡ is_paragraph put_in }
{
    matches!(put_in, PutIn::Paragraph)
}

impl<'p> Finder<'p> {
    pub(crate) fn new(alloc: Global) -> Finder<'p>
        ensures names { open_names result.open_tags ≡ [] }
        ensures elements { (rest : List PlacedToken) →
            elements_with result rest ≡ elements_of [] rest }
    {
        Finder {
            open_tags: OpenTags::new(alloc),
            open_elements: Vec::new(alloc),
            ended: Vec::new(alloc),
        }
    }

    // The innermost open element ends.
    #[tactic(auto, using(crate::proofs::Stack::one_ended, crate::proofs::Stack::none_ended))]
    fn end_innermost(&mut self, at: usize, is_own: bool) -> Result<(), AllocError>
        ensures names { OnOk result (open_names self.new.open_tags
            ≡ open_names self.old.open_tags) }
        ensures elements { OnOk result ((name : List ℕ) (rest : List PlacedToken) →
            elements_with self.old (at_piece at is_own (EndTag name) ∷ rest)
            ≡ elements_with self.new rest) }
    {
        let Some(element) = self.open_elements.pop() else {
            return Ok(());
        };
        self.ended.push(Element {
            name: element.name,
            start: element.start,
            end: at,
            has_end_tag: is_own,
        })?;
        Ok(())
    }

    // So many of the innermost open elements end, of which the last may do so by its own end tag.
    pub(crate) fn close(&mut self, count: usize, at: usize, is_own: bool) -> Result<(), AllocError>
        requires { count ≤ length (open_names self.old.open_tags) }
        ensures names { OnOk result (open_names self.new.open_tags
            ≡ drop count (open_names self.old.open_tags)) }
        ensures elements { OnOk result ((rest : List PlacedToken) → elements_with self.old
            (tokens_at at is_own (map EndTag (take count (open_names self.old.open_tags))) ++ rest)
            ≡ elements_with self.new rest) }
    {
        for number in 0..count {
            let is_last_own = is_last_own(is_own, number, count);
            self.end_innermost(at, is_last_own)?;
        }
        self.open_tags.close(count);
        Ok(())
    }

    // What is left open ends there.
    pub(crate) fn close_all(&mut self, at: usize) -> Result<(), AllocError>
        ensures { OnOk result ((rest : List PlacedToken) → elements_with self.old
            (tokens_at at false (map EndTag (open_names self.old.open_tags)) ++ rest)
            ≡ elements_with self.new rest) }
    {
        let count = self.open_tags.len();
        self.close(count, at, false)?;
        Ok(())
    }

    // An element of one token.
    #[tactic(auto, using(crate::proofs::Stack::pushed))]
    fn push_alone(&mut self, name: &'p [u8], at: usize, has_end_tag: bool) -> Result<(), AllocError>
        ensures names { OnOk result (open_names self.new.open_tags
            ≡ open_names self.old.open_tags) }
        ensures elements { OnOk result ((rest : List PlacedToken) →
            elements_view self.old.ended.items
            ++ ended_element (name_of name.now, at) at has_end_tag
            ∷ elements_of (stack_of self.old) rest ≡ elements_with self.new rest) }
    {
        self.ended.push(Element {
            name,
            start: at,
            end: at,
            has_end_tag,
        })?;
        Ok(())
    }

    // An element that goes on.
    fn push_open(
        &mut self,
        known_name: &TagName<'_>,
        name: &'p [u8],
        at: usize,
    ) -> Result<(), AllocError>
        requires { is_void (name_of name.now) ≡ false }
        ensures names { OnOk result (open_names self.new.open_tags
            ≡ tag_name known_name.now ∷ open_names self.old.open_tags) }
        ensures elements { OnOk result ((attributes : List HtmlAttribute)
            (rest : List PlacedToken) → elements_with self.old
            (at_piece at false (StartTag (name_of name.now) attributes false) ∷ rest)
            ≡ elements_with self.new rest) }
    {
        self.open_tags.push(known_name)?;
        self.open_elements.push(OpenElement { name, start: at })?;
        Ok(())
    }

    // What a start tag begins that stays.
    fn push_opening(
        &mut self,
        opening: Opening,
        known_name: &TagName<'_>,
        name: &'p [u8],
        at: usize,
    ) -> Result<(), AllocError>
        requires name { tag_name known_name.now ≡ name_of name.now }
        requires alone { is_void (name_of name.now) ≡ is_alone opening }
        ensures names { OnOk result (open_names self.new.open_tags
            ≡ (opened_tags opening (name_of name.now) (open_names self.old.open_tags)).open_tags) }
        ensures elements { OnOk result ((attributes : List HtmlAttribute)
            (rest : List PlacedToken) → elements_with self.old (tokens_at at false
            (StartTag (name_of name.now) attributes false
            ∷ opened_tokens opening (name_of name.now)) ++ rest)
            ≡ elements_with self.new rest) }
    {
        match opening {
            Opening::Void | Opening::ClosedAtOnce => {
                self.push_alone(name, at, false)?;
                Ok(())
            }
            Opening::Open => {
                self.push_open(known_name, name, at)?;
                Ok(())
            }
        }
    }

    // A start tag that is not dropped, after what it ends.
    fn push_kept_tag(
        &mut self,
        known_name: &TagName<'_>,
        name: &'p [u8],
        closes: bool,
        at: usize,
    ) -> Result<(), AllocError>
        requires name { tag_name known_name.now ≡ name_of name.now }
        requires kept { is_dropped (tag_name known_name.now) (open_names self.old.open_tags)
            ≡ false }
        ensures { OnOk result ((attributes : List HtmlAttribute) → Finds self.old self.new at
            (StartTag (name_of name.now) attributes closes ∷ [])) }
    {
        let count = self.open_tags.closed_before_start(known_name);
        self.close(count, at, false)?;
        let opening = self.open_tags.opening(known_name, closes);
        self.push_opening(opening, known_name, name, at)?;
        Ok(())
    }

    // A start tag, which is dropped where it may not stand.
    #[tactic(auto, using(crate::proofs::Tags::dropped_found))]
    fn push_start_tag(
        &mut self,
        alloc: Global,
        name: &'p [u8],
        closes: bool,
        at: usize,
    ) -> Result<(), AllocError>
        ensures { OnOk result ((attributes : List HtmlAttribute) → Finds self.old self.new at
            (StartTag (name_of name.now) attributes closes ∷ [])) }
    {
        let bytes = lower_name(alloc, name)?;
        let known_name = TagName::new(bytes.as_bytes());
        if self.open_tags.is_dropped(&known_name) {
            return Ok(());
        }
        self.push_kept_tag(&known_name, name, closes, at)?;
        Ok(())
    }

    // What an end tag puts in is an element by itself.
    fn push_put_in(&mut self, put_in: PutIn, name: &'p [u8], at: usize) -> Result<(), AllocError>
        requires { IsNamed put_in (name_of name.now) }
        ensures names { OnOk result (open_names self.new.open_tags
            ≡ open_names self.old.open_tags) }
        ensures elements { OnOk result ((rest : List PlacedToken) → elements_with self.old
            (tokens_at at true (tokens_put_in put_in (name_of name.now)) ++ rest)
            ≡ elements_with self.new rest) }
    {
        let is_nothing = is_nothing(put_in);
        if is_nothing {
            return Ok(());
        }
        let is_paragraph = is_paragraph(put_in);
        self.push_alone(name, at, is_paragraph)?;
        Ok(())
    }

    // An end tag.
    fn push_end_tag(&mut self, alloc: Global, name: &'p [u8], at: usize) -> Result<(), AllocError>
        ensures { OnOk result (Finds self.old self.new at (EndTag (name_of name.now) ∷ [])) }
    {
        let bytes = lower_name(alloc, name)?;
        let known_name = TagName::new(bytes.as_bytes());
        let put_in = self.open_tags.put_in(&known_name);
        let count = self.open_tags.closed_by_end(&known_name);
        let is_own = is_nothing(put_in);
        self.close(count, at, is_own)?;
        self.push_put_in(put_in, name, at)?;
        Ok(())
    }

    // Whether the innermost open tag may be a head.
    #[tactic(auto, using(crate::proofs::Heads::no_head))]
    fn is_in_head(&self) -> bool
        ensures { result ≡ false → leading is_head (open_names self.now.open_tags) ≡ 0 }
    {
        match self.open_tags.name(0) {
            Some(name) => name == b"head".as_slice(),
            None => false,
        }
    }

    // Characters: the heads on top end before the first that is seen.
    fn push_text(
        &mut self,
        alloc: Global,
        mode: Mode,
        bytes: &[u8],
        at: usize,
    ) -> Result<(), AllocError>
        ensures { OnOk result (Finds self.old self.new at
            (map Character (characters_of mode bytes.now))) }
    {
        let is_in_head = self.is_in_head();
        if !is_in_head {
            return Ok(());
        }
        let text = characters(alloc, mode, bytes)?;
        let is_any_seen = is_any_seen(text.as_bytes());
        if !is_any_seen {
            return Ok(());
        }
        let count = self.open_tags.closed_before_text(false);
        self.close(count, at, false)?;
        Ok(())
    }

    fn push_start(&mut self, alloc: Global, bytes: &'p [u8], at: usize) -> Result<(), AllocError>
        ensures { OnOk result ((mode : Mode) (tokens : List HtmlToken) →
            IsWhole mode bytes.now tokens → IsStartTag tokens → Finds self.old self.new at tokens) }
    {
        let parts = tag_parts(alloc, bytes)?;
        self.push_start_tag(alloc, parts.name, parts.closes, at)?;
        Ok(())
    }

    fn push_end(&mut self, alloc: Global, bytes: &'p [u8], at: usize) -> Result<(), AllocError>
        ensures { OnOk result ((mode : Mode) (tokens : List HtmlToken) →
            IsWhole mode bytes.now tokens → IsEndTag tokens → Finds self.old self.new at tokens) }
    {
        let parts = tag_parts(alloc, bytes)?;
        self.push_end_tag(alloc, parts.name, at)?;
        Ok(())
    }

    // The token of a number.
    pub(crate) fn push_token(
        &mut self,
        alloc: Global,
        page: &'p [u8],
        token: Token,
        at: usize,
    ) -> Result<(), AllocError>
        requires order { token.start ≤ token.end }
        requires within { token.end ≤ length page.now }
        ensures { OnOk result ((tokens : List HtmlToken) →
            IsPart page.now token tokens → Finds self.old self.new at tokens) }
    {
        let bytes = token_bytes(page, token);
        match token.kind {
            TokenKind::Text => {
                self.push_text(alloc, token.mode, bytes, at)?;
                Ok(())
            }
            TokenKind::StartTag => {
                self.push_start(alloc, bytes, at)?;
                Ok(())
            }
            TokenKind::EndTag => {
                self.push_end(alloc, bytes, at)?;
                Ok(())
            }
            TokenKind::Comment => Ok(()),
            TokenKind::Doctype => Ok(()),
            TokenKind::Nothing => Ok(()),
        }
    }
}
