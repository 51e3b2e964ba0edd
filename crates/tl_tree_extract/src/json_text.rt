//! JSON as text, written token by token.
ghost use Rattle.json.specs.Print.{begins, ends, token_text};
ghost use Rattle.json.specs.Token.{key};
ghost use Rattle.std.specs.Prelude.{OnOk, [], false, ◌++◌, ◌∷◌, ◌≡◌};
ghost use Rattle.std.specs.Str.Lossy.{utf8_lossy};
ghost use Rattle.tl_tree_extract.specs.Inner.Sinks.{comma, key_or_string, known_key, mark_token, quote_end, text_taken};

use crate::json_sink::{KnownKey, Mark, Sink, put_bytes};
use crate::written_bytes::{Written, is_unmarked};
use itoa::Buffer;
use json::Writer;
use std::alloc::{AllocError, Global};
use std::mem;

/// Where JSON is written, behind what stands there.
#[derive(Drop)]
pub(crate) struct Text {
    pub(crate) out: Vec<u8>,
    // Room for a token whose text has escapes, or isn't ASCII.
    room: Vec<u8>,
    pub(crate) after_value: bool,
}

impl Text {
    /// JSON that begins behind these bytes.
    pub(crate) fn new(alloc: Global, out: Vec<u8>) -> Text
        ensures out { result.out.items ≡ out.items }
        ensures place { result.after_value ≡ false }
    {
        Text {
            out,
            room: Vec::new(alloc),
            after_value: false,
        }
    }

    /// What stands there.
    pub(crate) fn into_inner(self) -> Vec<u8>
        ensures { result.items ≡ self.out.items }
    {
        let Text { out, .. } = self;
        out
    }

    // Writes the comma between the end of a value and what begins.
    #[inline(always)]
    fn put_comma(&mut self, begins: bool) -> Result<(), AllocError>
        ensures text { OnOk result
            (self.new.out.items ≡ self.old.out.items ++ comma self.old.after_value begins) }
        ensures place { self.new.after_value ≡ self.old.after_value }
    {
        if self.after_value && begins {
            self.out.push(b',')?;
        }
        Ok(())
    }

    // Writes a key, or a string, as the kit's writer has it.
    #[inline(never)]
    #[tactic(auto, using(crate::proofs::Sinks::print_one))]
    fn put_marked(&mut self, alloc: Global, is_key: bool, bytes: &[u8]) -> Result<(), AllocError>
        ensures text { OnOk result (self.new.out.items ≡ self.old.out.items
            ++ token_text (key_or_string is_key (utf8_lossy bytes.now))) }
    {
        self.room.clear();
        let mut writer = Writer::new(mem::replace(&mut self.room, Vec::new(alloc)));
        put_bytes(alloc, is_key, bytes, &mut writer)?;
        self.room = writer.into_inner();
        self.out.extend_from_slice(self.room.as_slice())
    }

    // Writes bytes in quotes, and a colon behind them where they are a key.
    #[inline(always)]
    fn put_plain(&mut self, is_key: bool, bytes: &[u8]) -> Result<(), AllocError>
        ensures text { OnOk result (self.new.out.items
            ≡ self.old.out.items ++ 34 ∷ (bytes.now ++ quote_end is_key)) }
    {
        self.out.push(b'"')?;
        self.out.extend_from_slice(bytes)?;
        self.out
            .extend_from_slice(if is_key { b"\":" } else { b"\"" })
    }

    // Writes a key, or a string.
    #[inline(always)]
    fn put_quoted(&mut self, alloc: Global, is_key: bool, bytes: &[u8]) -> Result<(), AllocError>
        ensures text { OnOk result (self.new.out.items ≡ self.old.out.items
            ++ token_text (key_or_string is_key (utf8_lossy bytes.now))) }
    {
        if is_unmarked(Written::Json, bytes) {
            return self.put_plain(is_key, bytes);
        }
        self.put_marked(alloc, is_key, bytes)
    }
}

impl Sink for Text {
    ghost taken = { λ t. text_taken t.out.items t.after_value };

    ghost kept = { λ _. [] };

    #[inline(always)]
    fn mark(&mut self, mark: Mark) -> Result<(), AllocError> {
        self.put_comma(mark.begins())?;
        self.out.extend_from_slice(mark.text())?;
        self.after_value = mark.ends();
        Ok(())
    }

    #[inline(always)]
    fn known(&mut self, name: KnownKey) -> Result<(), AllocError> {
        self.put_comma(true)?;
        self.out.extend_from_slice(text_of(name))?;
        self.after_value = false;
        Ok(())
    }

    #[inline(always)]
    fn key(&mut self, alloc: Global, bytes: &[u8]) -> Result<(), AllocError> {
        self.put_comma(true)?;
        self.put_quoted(alloc, true, bytes)?;
        self.after_value = false;
        Ok(())
    }

    fn string(&mut self, alloc: Global, bytes: &[u8]) -> Result<(), AllocError> {
        self.put_comma(true)?;
        self.put_quoted(alloc, false, bytes)?;
        self.after_value = true;
        Ok(())
    }

    #[inline(always)]
    fn number(&mut self, value: usize) -> Result<(), AllocError> {
        self.put_comma(true)?;
        let mut buffer = Buffer::new();
        self.out.extend_from_slice(buffer.format(value).as_bytes())?;
        self.after_value = true;
        Ok(())
    }
}

impl Mark {
    // Whether it begins a value.
    #[inline(always)]
    fn begins(self) -> bool
        ensures { result ≡ begins (mark_token self) }
    {
        !matches!(self, Mark::EndObject | Mark::EndArray)
    }

    // Whether it ends one.
    #[inline(always)]
    fn ends(self) -> bool
        ensures { result ≡ ends (mark_token self) }
    {
        !matches!(self, Mark::BeginObject | Mark::BeginArray)
    }

    #[inline(always)]
    fn text(self) -> &'static [u8]
        ensures { result.now ≡ token_text (mark_token self) }
    {
        match self {
            Mark::BeginObject => b"{",
            Mark::EndObject => b"}",
            Mark::BeginArray => b"[",
            Mark::EndArray => b"]",
            Mark::Null => b"null",
        }
    }
}

// A key that is known, in quotes and with its colon.
#[inline(always)]
#[tactic(auto, unfolding(json::specs::Print::escape_byte))]
fn text_of(name: KnownKey) -> &'static [u8]
    ensures { result.now ≡ token_text (key (known_key name)) }
{
    match name {
        KnownKey::Attributes => b"\"attributes\":",
        KnownKey::Children => b"\"children\":",
        KnownKey::Comment => b"\"comment\":",
        KnownKey::Contents => b"\"contents\":",
        KnownKey::Doctype => b"\"doctype\":",
        KnownKey::End => b"\"end\":",
        KnownKey::File => b"\"file\":",
        KnownKey::Name => b"\"name\":",
        KnownKey::Namespace => b"\"namespace\":",
        KnownKey::Node => b"\"node\":",
        KnownKey::Public => b"\"public\":",
        KnownKey::Rows => b"\"rows\":",
        KnownKey::Start => b"\"start\":",
        KnownKey::System => b"\"system\":",
        KnownKey::Text => b"\"text\":",
    }
}
