//! Reads a text into a table: takes the tokens of the lexer one by one and writes what each stands
//! for.
ghost use Rattle.std.specs.Prelude.{◌≡◌, ◌↔◌, ◌≤◌, ◌<◌, ◌+◌, ◌*◌, ◌^◌, [], length, drop, slice_get, IfOk, OnOk, IsOk, IsErrOf, All};
ghost use Rattle.tl_bytes.specs.Held.{Held};
ghost use Rattle.tl_spec.specs.Lex.ByteClass.{is_void as is_void_name};
ghost use Rattle.tl_lexer.specs.Span.{bytes_at, IsIn};
ghost use Rattle.tl_lexer.specs.TokenMeaning.{meant, start_tag_of, IsTokenIn};
ghost use Rattle.tl_spec.specs.Tree.Forest.{closes};
ghost use Rattle.tl_spec.specs.Tree.Document.{Raw, Comment, document};
ghost use Rattle.tl_spec.specs.Tree.Builder.{start, with_child_of_innermost, with_next_node, with_open_tag, with_innermost_closed, after_end, step, enclosing_name};
ghost use Rattle.tl.specs.View.{node_view, document_of, version_of, IsHeldNode, IsHeldTag};
ghost use Rattle.tl.specs.declared.errors.ParseError.TheVariants.{InvalidLength};
ghost use Rattle.tl.specs.declared.parser.tag.node.NodeOf.TheVariants.{Tag};

mod attribute;
mod node;
pub(crate) mod source;
mod start_tag;

use crate::errors::ParseError;
use crate::parser::base::{HTMLVersion, Parser, Tracking};
use crate::parser::builder::source::Source;
use crate::parser::builder::start_tag::read_start_tag;
use crate::parser::tag::HTMLTag;
use crate::parser::tag::node::Node;
use std::alloc::{AllocError, Global};
use tl_bytes::byte_string::Bytes;
use tl_lexer::names::is_void;
use tl_lexer::span::Span;
use tl_lexer::tag::TagEnd;
use tl_lexer::token::{Token, next_token};
use tl_room::arena::Arena;
use tl_table::handle::NodeHandle;
use tl_tracking::ParserOptions;

// How many bytes at the front of a text are looked at to guess how many nodes it has.
const SAMPLE: usize = 4096;

// For how many nodes memory is taken at most before the first of them is read.
const MOST_AT_ONCE: usize = 65536;

// About how many nodes a text has, by how often `<` stands at its front: a tag and a text for each.
// With room for them few nodes are moved as the table grows, and a text that only begins with many
// tags takes no memory that counts.
fn guessed_nodes(text: &[u8]) -> usize
    ensures empty { text.now ≡ [] → result ≡ 0 }
    ensures few { result ≤ 4 * length text.now }
    ensures most { result ≤ MOST_AT_ONCE }
{
    let front = &text[..text.len().min(SAMPLE)];
    let mut tags = 0usize;
    for byte in front {
        tags = tags.wrapping_add(usize::from(*byte == b'<'));
    }
    tags.saturating_mul(2 * (text.len() / SAMPLE + 1))
        .min(MOST_AT_ONCE)
}

// A table that tokens are written into.
#[derive(Drop)]
pub(crate) struct TableBuilder<'a> {
    nodes: Vec<Node<'a>>,
    // The tags that no end tag has closed yet, the innermost last.
    open_tags: Vec<NodeHandle>,
    top: Vec<NodeHandle>,
    is_html5: bool,
    // Where the parts of the tags lie.
    arena: Arena,
    // An open tag is a node of the table.
    ghost in_table: { All (λ p. p < length nodes.items) open_tags.items },
}

impl<'a> TableBuilder<'a> {
    ghost use Rattle.tl.specs.Builder.{state_of, with_tag, with_whole, placed_token, piece_at, document_of_state, HasRoom, AreHeld};

    // An empty table with room for so many nodes.
    fn new(alloc: Global, room: usize) -> Result<Self, AllocError>
        ensures state { IfOk result (λ table. state_of table ≡ start) }
        ensures held { IfOk result (λ table. (held : Held) → AreHeld held table) }
        ensures empty { room ≡ 0 → IsOk result }
    {
        Ok(TableBuilder {
            nodes: Vec::with_capacity(alloc, room)?,
            open_tags: Vec::new(alloc),
            top: Vec::new(alloc),
            is_html5: false,
            arena: Arena::new(alloc, alloc),
        })
    }

    // The place of the innermost open tag in the table.
    #[inline(always)]
    fn innermost(&self) -> Option<usize>
        ensures { result ≡ slice_get (state_of self.now).open_tags 0 }
    {
        self.open_tags.last().map(|tag| tag.get_inner() as usize)
    }

    // Makes a node the last child of the innermost open tag, or the last top node.
    #[inline(always)]
    fn append_child(&mut self, node: NodeHandle) -> Result<(), AllocError>
        ensures ok { OnOk result (state_of self.new
            ≡ with_child_of_innermost node (state_of self.old)) }
        ensures len { length self.new.nodes.items ≡ length self.old.nodes.items }
        ensures held { OnOk result ((held : Held) → AreHeld held self.old → AreHeld held self.new) }
    {
        match self.innermost() {
            Some(parent) => self.nodes[parent].push_child(node)?,
            None => self.top.push(node)?,
        }
        Ok(())
    }

    // Adds a node as the last child of the innermost open tag.
    #[inline(always)]
    fn add(&mut self, node: Node<'a>) -> Result<(), AllocError>
        requires { HasRoom self.old }
        ensures ok { OnOk result (state_of self.new
            ≡ with_next_node (node_view node.entry) (state_of self.old)) }
        ensures held { OnOk result ((held : Held) → AreHeld held self.old
            → IsHeldNode held node.entry → AreHeld held self.new) }
        ensures len { OnOk result (length self.new.nodes.items ≡ length self.old.nodes.items + 1) }
    {
        let number = self.nodes.len() as u32;
        self.append_child(NodeHandle::new(number))?;
        self.nodes.push(node)?;
        Ok(())
    }

    // Adds a tag, and opens it.
    #[inline(always)]
    fn open(&mut self, tag: HTMLTag<'a>) -> Result<(), AllocError>
        requires { HasRoom self.old }
        ensures ok { OnOk result (state_of self.new
            ≡ with_open_tag (node_view (Tag tag.entry)) (state_of self.old)) }
        ensures held { OnOk result ((held : Held) → AreHeld held self.old
            → IsHeldTag held tag.entry → AreHeld held self.new) }
    {
        let number = self.nodes.len() as u32;
        self.add(Node::Tag(tag))?;
        self.open_tags.push(NodeHandle::new(number))?;
        Ok(())
    }

    // Whether the innermost open tag has this name.
    #[inline(always)]
    fn is_innermost(&self, name: &[u8]) -> bool
        ensures { result ≡ closes name.now (enclosing_name (state_of self.now).nodes
            (state_of self.now).open_tags) }
    {
        match self.innermost() {
            Some(tag) => self.nodes[tag].is_named(name),
            None => false,
        }
    }

    // Closes the innermost open tag, whose raw then ends at the place `to` of the text.
    #[inline(always)]
    fn close<S: Source<'a>>(
        &mut self,
        alloc: Global,
        source: &S,
        to: usize,
    ) -> Result<(), AllocError>
        requires { to ≤ length (S.text source.now) }
        ensures ok { OnOk result (state_of self.new
            ≡ with_innermost_closed (S.text source.now) to (state_of self.old)) }
        ensures held { OnOk result (AreHeld S.held self.old → AreHeld S.held self.new) }
    {
        if let Some(tag) = self.open_tags.pop() {
            self.nodes[tag.get_inner() as usize].set_raw(alloc, source, to)?;
        }
        Ok(())
    }

    // Adds the tag of a start tag, and opens it unless it stands alone. Of a broken one nothing
    // comes.
    #[inline(always)]
    fn add_tag(&mut self, tag: HTMLTag<'a>, end: TagEnd) -> Result<(), AllocError>
        requires { HasRoom self.old }
        ensures ok { OnOk result (state_of self.new
            ≡ with_tag (node_view (Tag tag.entry)) (is_void_name tag.entry.name.list)
            (state_of self.old) end) }
        ensures held { OnOk result ((held : Held) → AreHeld held self.old
            → IsHeldTag held tag.entry → AreHeld held self.new) }
    {
        match end {
            TagEnd::Broken => Ok(()),
            TagEnd::Alone => self.add(Node::Tag(tag)),
            TagEnd::Opens => {
                if is_void(tag.name().as_bytes()) {
                    self.add(Node::Tag(tag))
                } else {
                    self.open(tag)
                }
            }
        }
    }

    // Writes the start tag of this name that begins at `start` and whose attributes stand from `at`
    // on, and answers the place after it.
    #[inline(always)]
    fn start_tag<S: Source<'a>>(
        &mut self,
        alloc: Global,
        source: &S,
        start: usize,
        name: Span,
        at: usize,
    ) -> Result<usize, AllocError>
        requires order { start < at }
        requires small { length (S.text source.now) < 2 ^ 32 }
        requires within { at ≤ length (S.text source.now) }
        requires name { IsIn (S.text source.now) name }
        requires room { HasRoom self.old }
        ensures ok { IfOk result (λ to. state_of self.new
            ≡ step (S.text source.now) (state_of self.old)
            (placed_token (S.text source.now) (Token.Start name) at start to)) }
        ensures rest { IfOk result (λ to. drop to (S.text source.now)
            ≡ (start_tag_of (bytes_at (S.text source.now) name) (drop at (S.text source.now))).1) }
        ensures held { OnOk result (AreHeld S.held self.old → AreHeld S.held self.new) }
        ensures order { IfOk result (λ to. start < to) }
        ensures within { IfOk result (λ to. to ≤ length (S.text source.now)) }
    {
        let (tag, end, to) = read_start_tag(alloc, &mut self.arena, source, start, name, at)?;
        self.add_tag(tag, end)?;
        Ok(to)
    }

    // Adds the node that `leaf` makes of the bytes at a span.
    #[inline(always)]
    fn add_leaf<S: Source<'a>, F: FnOnce(Bytes<'a>) -> Node<'a>>(
        &mut self,
        alloc: Global,
        source: &S,
        span: Span,
        leaf: F,
    ) -> Result<(), AllocError>
        requires callable { F.IsAlwaysCallable leaf }
        requires span { IsIn (S.text source.now) span }
        requires room { HasRoom self.old }
        ensures ok { OnOk result ((node : _) × F.post leaf
            (piece_at S.held (S.text source.now) span) node
            × (state_of self.new ≡ with_next_node (node_view node) (state_of self.old))) }
        ensures held { OnOk result (((node : _)
            → F.post leaf (piece_at S.held (S.text source.now) span) node → IsHeldNode S.held node)
            → AreHeld S.held self.old → AreHeld S.held self.new) }
    {
        let bytes = source.piece(alloc, span)?;
        let node = leaf(bytes);
        self.add(node)
    }

    // Closes the innermost open tag if it has this name: its raw then ends at the place `to` of the
    // text.
    #[inline(always)]
    fn end_tag<S: Source<'a>>(
        &mut self,
        alloc: Global,
        source: &S,
        name: &[u8],
        to: usize,
    ) -> Result<(), AllocError>
        requires { to ≤ length (S.text source.now) }
        ensures ok { OnOk result (state_of self.new
            ≡ after_end (S.text source.now) to (state_of self.old)
            (closes name.now (enclosing_name (state_of self.old).nodes
            (state_of self.old).open_tags))) }
        ensures held { OnOk result (AreHeld S.held self.old → AreHeld S.held self.new) }
    {
        if self.is_innermost(name) {
            self.close(alloc, source, to)
        } else {
            Ok(())
        }
    }

    // Writes a token that is no start tag and ends at the place `to` of the text.
    #[inline(always)]
    fn push_whole_token<S: Source<'a>>(
        &mut self,
        alloc: Global,
        source: &S,
        token: Token,
        to: usize,
    ) -> Result<(), AllocError>
        requires within { to ≤ length (S.text source.now) }
        requires spans { IsTokenIn (S.text source.now) token }
        requires room { HasRoom self.old }
        ensures ok { OnOk result (state_of self.new
            ≡ with_whole (S.text source.now) token to (state_of self.old)) }
        ensures held { OnOk result (AreHeld S.held self.old → AreHeld S.held self.new) }
    {
        match token {
            Token::Text(span) => self.add_leaf(alloc, source, span, |bytes| Node::Raw(bytes)),
            Token::End(name) => self.end_tag(alloc, source, name.bytes(source.as_bytes()), to),
            Token::Comment(span) => self.add_leaf(
                alloc,
                source,
                span,
                |bytes| Node::Comment(bytes),
            ),
            Token::Doctype(is_html5) => {
                self.is_html5 |= is_html5;
                Ok(())
            }
            Token::Start(_) | Token::Nothing => Ok(()),
        }
    }

    // Writes a token that the lexer found from `start` up to `after`, and answers the place after
    // it, which is that after the whole tag for a start tag. After an error what has been written
    // means nothing.
    #[inline(always)]
    fn push_token<S: Source<'a>>(
        &mut self,
        alloc: Global,
        source: &S,
        start: usize,
        token: Token,
        after: usize,
    ) -> Result<usize, AllocError>
        requires order { start < after }
        requires small { length (S.text source.now) < 2 ^ 32 }
        requires within { after ≤ length (S.text source.now) }
        requires spans { IsTokenIn (S.text source.now) token }
        requires room { HasRoom self.old }
        ensures ok { IfOk result (λ to. state_of self.new
            ≡ step (S.text source.now) (state_of self.old)
            (placed_token (S.text source.now) token after start to)) }
        ensures rest { IfOk result (λ to. drop to (S.text source.now)
            ≡ (meant (S.text source.now) token after).1) }
        ensures held { OnOk result (AreHeld S.held self.old → AreHeld S.held self.new) }
        ensures order { IfOk result (λ to. start < to) }
        ensures within { IfOk result (λ to. to ≤ length (S.text source.now)) }
    {
        match token {
            Token::Start(name) => self.start_tag(alloc, source, start, name, after),
            _ => {
                self.push_whole_token(alloc, source, token, after)?;
                Ok(after)
            }
        }
    }

    // The table, whose tags that are still open stay as they are, and of which nothing is tracked.
    fn finish(self, alloc: Global) -> Parser<'a>
        requires { length self.nodes.items < 2 ^ 32 }
        ensures document { document_of result ≡ document_of_state (state_of self.entry) }
        ensures version { result.version ≡ version_of (state_of self.entry).is_html5 }
        ensures held { (held : Held) → AreHeld held self.entry
            → All (IsHeldNode held) result.nodes }
    {
        let TableBuilder {
            nodes,
            open_tags: _,
            top,
            is_html5,
            arena: _,
        } = self;
        let version = is_html5.then_some(HTMLVersion::HTML5);
        Parser::from_parts(
            nodes,
            top,
            version,
            Tracking::new(alloc, ParserOptions::new()),
        )
    }
}

// Reads the text of a source into a table of which nothing is tracked.
pub(crate) fn read<'a, S: Source<'a>>(alloc: Global, source: &S) -> Result<Parser<'a>, ParseError>
    ensures length { IsErrOf result InvalidLength ↔ (u32.MAX < length (S.text source.now)) }
    ensures document { IfOk result (λ p. document_of p ≡ document (S.text source.now)) }
    ensures version { IfOk result (λ p. p.version
        ≡ version_of (document (S.text source.now)).is_html5) }
    ensures held { IfOk result (λ p. All (IsHeldNode S.held) p.nodes) }
    ensures numbers { IfOk result (λ p. length p.nodes < 2 ^ 32) }
    ensures empty { S.text source.now ≡ [] → IsOk result }
{
    let text = source.as_bytes();
    // A node takes at least a byte of the text, and its number is a `u32`.
    if text.len() > u32::MAX as usize {
        return Err(ParseError::InvalidLength);
    }
    let mut table = TableBuilder::new(alloc, guessed_nodes(text))?;
    let mut at = 0;
    while let Some((token, after)) = next_token(text, at) {
        at = table.push_token(alloc, source, at, token, after)?;
    }
    let mut parser = table.finish(alloc);
    parser.note_preorder();
    Ok(parser)
}
