//! The parts of a doctype, byte by byte (13.2.5.53 to .68).
ghost use Rattle.std.specs.Prelude.{IfOk, List, OnOk, Some, [], false, ℕ, ◌==◌, ◌++◌, ◌∷◌, ◌≡◌};
ghost use Rattle.std.specs.Char.{to_ascii_lowercase};
ghost use Rattle.tl_html_spec.specs.Doctypes.{doctype_step, gone_bogus, in_name, is_cut, keyword_read, name_end, no_doctype, or_empty, public_opened, public_quoted, public_start, system_opened, system_quoted, system_start, with_name};
ghost use Rattle.tl_html_spec.specs.HtmlTokenizer.{char_of, is_white_space, with_feeds};
ghost use Rattle.tl_html_tokens.specs.Doctypes.{doctype_at, doctype_from};
ghost use Rattle.tl_html_doctype.specs.Doctyping.{doctyping_of, id_of, part_of, without_feed};

use std::alloc::{AllocError, Global};

/// How far a doctype is read: the states of the standard, two of which are one where they do the
/// same.
#[derive(Clone, Copy)]
pub enum DoctypePart {
    NameStart,
    InName,
    NameEnd,
    PublicStart,
    PublicQuoted(u8),
    PublicEnd,
    SystemStart,
    SystemQuoted(u8),
    SystemEnd,
    BogusRest,
}

/// An identifier, which may be missing.
#[derive(Drop)]
pub struct Identifier {
    pub is_there: bool,
    pub bytes: Vec<u8>,
}

/// A doctype that is being read.
#[derive(Drop)]
pub struct DoctypeReader {
    pub part: DoctypePart,
    /// What was read of `public` or `system`.
    pub word: Vec<u8>,
    pub name: Vec<u8>,
    pub public_id: Identifier,
    pub system_id: Identifier,
    pub forces_quirks: bool,
}

fn is_white_space(byte: u8) -> bool
    ensures { result ≡ is_white_space byte }
{
    matches!(byte, b'\t' | b'\n' | b'\x0C' | b' ')
}

// Writes a character, U+FFFD for NUL.
fn write_character(byte: u8, out: &mut Vec<u8>) -> Result<(), AllocError>
    ensures { OnOk result (out.new.items ≡ out.old.items ++ char_of byte) }
{
    if byte == 0 {
        return out.extend_from_slice(b"\xEF\xBF\xBD");
    }
    out.push(byte)?;
    Ok(())
}

impl Identifier {
    // It is there from now on.
    fn begin(&mut self)
        ensures { id_of self.new ≡ Some (or_empty (id_of self.old)) }
    {
        if !self.is_there {
            self.bytes.clear();
            self.is_there = true;
        }
    }

    fn add(&mut self, byte: u8) -> Result<(), AllocError>
        ensures { OnOk result (id_of self.new ≡ Some (or_empty (id_of self.old) ++ char_of byte)) }
    {
        self.begin();
        write_character(byte, &mut self.bytes)
    }
}

impl DoctypeReader {
    /// Nothing is read yet.
    pub fn new(alloc: Global) -> DoctypeReader
        ensures { doctyping_of result ≡ no_doctype }
    {
        DoctypeReader {
            part: DoctypePart::NameStart,
            word: Vec::new(alloc),
            name: Vec::new(alloc),
            public_id: Identifier {
                is_there: false,
                bytes: Vec::new(alloc),
            },
            system_id: Identifier {
                is_there: false,
                bytes: Vec::new(alloc),
            },
            forces_quirks: false,
        }
    }

    fn go_bogus(&mut self)
        ensures { doctyping_of self.new ≡ gone_bogus (doctyping_of self.old) }
    {
        self.forces_quirks = true;
        self.part = DoctypePart::BogusRest;
    }

    fn add_to_name(&mut self, byte: u8) -> Result<(), AllocError>
        ensures { OnOk result (doctyping_of self.new ≡ with_name byte (doctyping_of self.old)) }
    {
        write_character(byte.to_ascii_lowercase(), &mut self.name)?;
        self.part = DoctypePart::InName;
        Ok(())
    }

    fn open_public(&mut self, quote: u8)
        ensures { doctyping_of self.new ≡ public_opened quote (doctyping_of self.old) }
    {
        self.public_id.begin();
        self.part = DoctypePart::PublicQuoted(quote);
    }

    fn open_system(&mut self, quote: u8)
        ensures { doctyping_of self.new ≡ system_opened quote (doctyping_of self.old) }
    {
        self.system_id.begin();
        self.part = DoctypePart::SystemQuoted(quote);
    }

    // A letter behind those of `public` or `system`.
    fn read_keyword(&mut self, byte: u8) -> Result<(), AllocError>
        ensures { OnOk result (doctyping_of self.new
            ≡ keyword_read (self.old.word.items ++ to_ascii_lowercase byte ∷ [])
            (doctyping_of self.old)) }
    {
        self.word.push(byte.to_ascii_lowercase())?;
        if self.word.as_slice() == b"public".as_slice() {
            self.part = DoctypePart::PublicStart;
        } else if self.word.as_slice() == b"system".as_slice() {
            self.part = DoctypePart::SystemStart;
        } else if b"public".starts_with(self.word.as_slice())
            || b"system".starts_with(self.word.as_slice())
        {
            self.part = DoctypePart::NameEnd;
        } else {
            self.go_bogus();
        }
        Ok(())
    }

    fn before_public(&mut self, byte: u8)
        ensures { doctyping_of self.new ≡ doctype_step public_start (doctyping_of self.old) byte }
    {
        if is_white_space(byte) {
            return;
        }
        if byte == b'"' || byte == b'\'' {
            self.open_public(byte);
        } else {
            self.go_bogus();
        }
    }

    fn before_system(&mut self, byte: u8)
        ensures { doctyping_of self.new ≡ doctype_step system_start (doctyping_of self.old) byte }
    {
        if is_white_space(byte) {
            return;
        }
        if byte == b'"' || byte == b'\'' {
            self.open_system(byte);
        } else {
            self.go_bogus();
        }
    }

    fn in_name(&mut self, byte: u8) -> Result<(), AllocError>
        ensures { OnOk result
            (doctyping_of self.new ≡ doctype_step in_name (doctyping_of self.old) byte) }
    {
        if !is_white_space(byte) {
            return self.add_to_name(byte);
        }
        self.word.clear();
        self.part = DoctypePart::NameEnd;
        Ok(())
    }

    fn after_name(&mut self, byte: u8) -> Result<(), AllocError>
        requires { part_of self.old.part self.old.word.items ≡ name_end self.old.word.items }
        ensures { OnOk result (doctyping_of self.new
            ≡ doctype_step (name_end self.old.word.items) (doctyping_of self.old) byte) }
    {
        if is_white_space(byte) && self.word.is_empty() {
            return Ok(());
        }
        self.read_keyword(byte)
    }

    fn in_public(&mut self, quote: u8, byte: u8) -> Result<(), AllocError>
        ensures { OnOk result (doctyping_of self.new
            ≡ doctype_step (public_quoted quote) (doctyping_of self.old) byte) }
    {
        if byte != quote {
            return self.public_id.add(byte);
        }
        self.part = DoctypePart::PublicEnd;
        Ok(())
    }

    fn in_system(&mut self, quote: u8, byte: u8) -> Result<(), AllocError>
        ensures { OnOk result (doctyping_of self.new
            ≡ doctype_step (system_quoted quote) (doctyping_of self.old) byte) }
    {
        if byte != quote {
            return self.system_id.add(byte);
        }
        self.part = DoctypePart::SystemEnd;
        Ok(())
    }

    // Reads a byte before the first `>`.
    fn step(&mut self, byte: u8) -> Result<(), AllocError>
        ensures { OnOk result (doctyping_of self.new
            ≡ doctype_step (doctyping_of self.old).part (doctyping_of self.old) byte) }
    {
        match self.part {
            DoctypePart::NameStart if is_white_space(byte) => Ok(()),
            DoctypePart::NameStart => self.add_to_name(byte),
            DoctypePart::InName => self.in_name(byte),
            DoctypePart::NameEnd => self.after_name(byte),
            DoctypePart::PublicStart => {
                self.before_public(byte);
                Ok(())
            }
            DoctypePart::PublicQuoted(quote) => self.in_public(quote, byte),
            DoctypePart::PublicEnd | DoctypePart::SystemStart => {
                self.before_system(byte);
                Ok(())
            }
            DoctypePart::SystemQuoted(quote) => self.in_system(quote, byte),
            DoctypePart::SystemEnd if is_white_space(byte) => Ok(()),
            DoctypePart::SystemEnd => {
                self.part = DoctypePart::BogusRest;
                Ok(())
            }
            DoctypePart::BogusRest => Ok(()),
        }
    }

    // Reads a byte as it stands in the page, where a carriage return is a line feed, and a line
    // feed after it is none.
    fn read_byte(&mut self, after_return: bool, byte: u8) -> Result<(), AllocError>
        requires { (byte == 62) ≡ false }
        ensures { OnOk result ((rest : List ℕ) →
            doctype_from (doctyping_of self.old) (with_feeds (without_feed after_return
            (byte ∷ rest)))
            ≡ doctype_from (doctyping_of self.new) (with_feeds (without_feed (byte == 13) rest))) }
    {
        if after_return && byte == b'\n' {
            return Ok(());
        }
        if byte == b'\r' {
            return self.step(b'\n');
        }
        self.step(byte)
    }

    /// Reads up to the first `>`, and answers whether it is there.
    pub fn read(&mut self, text: &[u8]) -> Result<bool, AllocError>
        ensures { IfOk result (λ is_whole.
            doctype_from (doctyping_of self.old) (with_feeds text.now)
            ≡ doctype_at is_whole (doctyping_of self.new)) }
    {
        let mut after_return = false;
        for byte in text {
            if *byte == b'>' {
                return Ok(true);
            }
            self.read_byte(after_return, *byte)?;
            after_return = *byte == b'\r';
        }
        Ok(false)
    }

    fn is_cut(&self) -> bool
        ensures { result ≡ is_cut (doctyping_of self.now).part }
    {
        match self.part {
            DoctypePart::NameEnd => !self.word.is_empty(),
            DoctypePart::NameStart
            | DoctypePart::PublicStart
            | DoctypePart::PublicQuoted(_)
            | DoctypePart::SystemStart
            | DoctypePart::SystemQuoted(_) => true,
            DoctypePart::InName
            | DoctypePart::PublicEnd
            | DoctypePart::SystemEnd
            | DoctypePart::BogusRest => false,
        }
    }

    /// Whether it asks for quirks mode, as it ends at a `>` or with the page.
    pub fn asks_for_quirks(&self, is_whole: bool) -> bool
        ensures { result ≡ (doctype_at is_whole (doctyping_of self.now)).forces_quirks }
    {
        if self.forces_quirks {
            return true;
        }
        if is_whole {
            return self.is_cut();
        }
        !matches!(self.part, DoctypePart::BogusRest)
    }
}
