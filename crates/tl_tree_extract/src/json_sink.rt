//! Where the tokens of JSON go: to the kit's writer, or straight into a text.
ghost use Rattle.json.specs.Token.{Token, key, number, string};
ghost use Rattle.std.specs.Prelude.{List, OnOk, [], decimal, ℕ, ◌++◌, ◌∷◌, ◌≡◌};
ghost use Rattle.std.specs.Str.Lossy.{utf8_lossy};
ghost use Rattle.tl_tree_extract.specs.Inner.Sinks.{after, key_or_string, known_key, mark_token, written_taken};

use json::Writer;
use std::alloc::{AllocError, Global};
use std::str;

/// A token without a text.
#[derive(Clone, Copy)]
pub(crate) enum Mark {
    BeginObject,
    EndObject,
    BeginArray,
    EndArray,
    Null,
}

/// A key that objects of nodes have.
#[derive(Clone, Copy)]
pub(crate) enum KnownKey {
    Attributes,
    Children,
    Comment,
    Contents,
    Doctype,
    End,
    File,
    Name,
    Namespace,
    Node,
    Public,
    Rows,
    Start,
    System,
    Text,
}

impl KnownKey {
    /// The key itself.
    pub(crate) fn name(self) -> &'static str
        ensures { result.now ≡ known_key self }
    {
        match self {
            KnownKey::Attributes => "attributes",
            KnownKey::Children => "children",
            KnownKey::Comment => "comment",
            KnownKey::Contents => "contents",
            KnownKey::Doctype => "doctype",
            KnownKey::End => "end",
            KnownKey::File => "file",
            KnownKey::Name => "name",
            KnownKey::Namespace => "namespace",
            KnownKey::Node => "node",
            KnownKey::Public => "public",
            KnownKey::Rows => "rows",
            KnownKey::Start => "start",
            KnownKey::System => "system",
            KnownKey::Text => "text",
        }
    }
}

/// What takes the tokens of JSON one by one. Strings are bytes: what is no UTF-8 is U+FFFD.
pub(crate) trait Sink {
    /// What there is once some more tokens are taken: bytes, or bytes and tokens.
    ghost taken: { Self → List Token → List ℕ × List Token };

    /// What no token changes.
    ghost kept: { Self → List ℕ };

    /// Takes a token without a text.
    fn mark(&mut self, mark: Mark) -> Result<(), AllocError>
        ensures adds { OnOk result (taken self.new ≡ after (mark_token mark ∷ []) (taken
            self.old)) }
        ensures keeps { kept self.new ≡ kept self.old };

    /// Takes a key that is known.
    fn known(&mut self, name: KnownKey) -> Result<(), AllocError>
        ensures adds { OnOk result (taken self.new ≡ after (key (known_key name) ∷ []) (taken
            self.old)) }
        ensures keeps { kept self.new ≡ kept self.old };

    /// Takes a key.
    fn key(&mut self, alloc: Global, bytes: &[u8]) -> Result<(), AllocError>
        ensures adds { OnOk result
            (taken self.new ≡ after (key (utf8_lossy bytes.now) ∷ []) (taken self.old)) }
        ensures keeps { kept self.new ≡ kept self.old };

    /// Takes a string.
    fn string(&mut self, alloc: Global, bytes: &[u8]) -> Result<(), AllocError>
        ensures adds { OnOk result
            (taken self.new ≡ after (string (utf8_lossy bytes.now) ∷ []) (taken self.old)) }
        ensures keeps { kept self.new ≡ kept self.old };

    /// Takes a number.
    fn number(&mut self, value: usize) -> Result<(), AllocError>
        ensures adds { OnOk result
            (taken self.new ≡ after (number (decimal value) ∷ []) (taken self.old)) }
        ensures keeps { kept self.new ≡ kept self.old };
}

impl Sink for Writer {
    ghost taken = { written_taken };

    ghost kept = { λ w. w.before };

    fn mark(&mut self, mark: Mark) -> Result<(), AllocError> {
        put_mark(mark, self)
    }

    fn known(&mut self, name: KnownKey) -> Result<(), AllocError> {
        put_text(true, name.name(), self)
    }

    fn key(&mut self, alloc: Global, bytes: &[u8]) -> Result<(), AllocError> {
        put_bytes(alloc, true, bytes, self)
    }

    fn string(&mut self, alloc: Global, bytes: &[u8]) -> Result<(), AllocError> {
        put_bytes(alloc, false, bytes, self)
    }

    fn number(&mut self, value: usize) -> Result<(), AllocError> {
        self.u64(value as u64)
    }
}

// Writes a token without a text.
fn put_mark(mark: Mark, out: &mut Writer) -> Result<(), AllocError>
    ensures tokens { OnOk result (out.new.tokens ≡ out.old.tokens ++ mark_token mark ∷ []) }
    ensures before { out.new.before ≡ out.old.before }
{
    match mark {
        Mark::BeginObject => out.begin_object(),
        Mark::EndObject => out.end_object(),
        Mark::BeginArray => out.begin_array(),
        Mark::EndArray => out.end_array(),
        Mark::Null => out.null(),
    }
}

// Writes a key, or a string.
fn put_text(is_key: bool, text: &str, out: &mut Writer) -> Result<(), AllocError>
    ensures tokens { OnOk result
        (out.new.tokens ≡ out.old.tokens ++ key_or_string is_key text.now ∷ []) }
    ensures before { out.new.before ≡ out.old.before }
{
    if is_key {
        out.key(text)
    } else {
        out.string(text)
    }
}

/// Writes a key, or a string: what is no UTF-8 is U+FFFD.
#[tactic(auto, using(crate::proofs::Lossy::lossy_same))]
pub(crate) fn put_bytes(
    alloc: Global,
    is_key: bool,
    bytes: &[u8],
    out: &mut Writer,
) -> Result<(), AllocError>
    ensures tokens { OnOk result (out.new.tokens
        ≡ out.old.tokens ++ key_or_string is_key (utf8_lossy bytes.now) ∷ []) }
    ensures before { out.new.before ≡ out.old.before }
{
    match str::from_utf8(bytes) {
        Ok(text) => put_text(is_key, text, out),
        Err(_) => put_text(is_key, String::from_utf8_lossy(alloc, bytes)?.as_str(), out),
    }
}
