//! The text of a page that is edited, and an edited text in the bytes of its encoding.
ghost use Rattle.std.specs.Prelude.{◌≡◌};
ghost use Rattle.tl_cli.specs.declared.own_bytes.Uneditable.TheVariants.{OutOfMemory};

use crate::args::Pages;
use crate::pages::encoding_in;
use crate::refused::Refused;
use crate::task::{Task, Unmade, execute};
use std::alloc::{AllocError, Global};
use std::fmt;
use tl_answers::{PartlyEdited, Question};
use tl_encoding::{
    DecodeError, EncodeError, Encoding, decode, decode_strict, encode, encoding_said, with_marks,
    with_references, without_marks,
};
use tl_page::{Failure, text};

/// Why a page isn't edited.
#[derive(Clone, Copy)]
pub enum Uneditable {
    OutOfMemory,
    /// Some of its bytes stand for nothing.
    Undecoded(DecodeError),
    /// More than one row of bytes stands for a text in its encoding.
    NotChanged(Encoding),
    /// What is put has a character that the encoding lacks, and no reference stands for one there.
    Unencoded(Encoding, char),
    /// What is put is no ASCII, and browsers would read it by another encoding.
    Misread,
    /// What is put has a character that the encoding lacks, and it can't be told what is read of
    /// a reference.
    Unread(Unmade),
    /// Bytes that are no UTF-8 would be read otherwise than the edited text has it.
    Joined,
}

impl fmt::Display for Uneditable {
    fn fmt<W: fmt::Write>(&self, f: &mut fmt::Formatter<W>) -> fmt::Result {
        match self {
            Uneditable::OutOfMemory => f.write_str("out of memory"),
            Uneditable::Undecoded(error) => write!(f, "{error}"),
            Uneditable::NotChanged(Encoding::Replacement) => {
                f.write_str("pages in this encoding can't be edited")
            }
            Uneditable::NotChanged(encoding) => {
                let name = encoding.name();
                write!(
                    f,
                    "pages in {name} can't be edited; convert them: iconv -f {name} -t UTF-8"
                )
            }
            Uneditable::Unencoded(encoding, character) => {
                let name = encoding.name();
                write!(
                    f,
                    "{name} has no {character:?}, and no character reference can be used there"
                )
            }
            Uneditable::Misread => f.write_str(
                "the new text isn't ASCII, and the page declares another encoding than UTF-8",
            ),
            Uneditable::Unread(_) => f.write_str("the new text would not be read back in the page"),
            Uneditable::Joined => f.write_str(
                "invalid bytes would be read otherwise after this edit; tl text --strict says where",
            ),
        }
    }
}

impl From<AllocError> for Uneditable {
    ghost from_gives = { λ _ error. error ≡ OutOfMemory };

    fn from(_: AllocError) -> Self {
        Uneditable::OutOfMemory
    }
}

/// A page that is edited: its encoding, and its text.
#[derive(Drop)]
pub struct Editable {
    pub encoding: Encoding,
    pub text: String,
    /// Its bytes, where they aren't those of its text, but for UTF-16, in which a line feed is no
    /// byte.
    own: Option<Vec<u8>>,
    /// The text with a mark for each byte that is wrong, of a page in UTF-8 that has some.
    pub marked: Option<String>,
}

impl Editable {
    /// Its lines as its file has them; of UTF-16 those of its text.
    pub fn lines(&self) -> &[u8] {
        match &self.own {
            Some(own) => own.as_slice(),
            None => self.text.as_bytes(),
        }
    }

    /// Those of the same page with changes, which has this text and these bytes.
    pub fn lines_of<'b>(&self, text: &'b [u8], bytes: &'b [u8]) -> &'b [u8] {
        if self.own.is_some() { bytes } else { text }
    }
}

// The bytes of a page, where they aren't those of its text and their lines are its own.
fn own_lines(
    alloc: Global,
    encoding: Encoding,
    page: &[u8],
) -> Result<Option<Vec<u8>>, AllocError> {
    match encoding {
        Encoding::Utf8 if std::str::from_utf8(page).is_ok() => Ok(None),
        Encoding::Utf16(_) => Ok(None),
        _ => Ok(Some(Vec::from_slice(alloc, page)?)),
    }
}

// Whether a page's bytes can be changed where its text is. Of encodings of several bytes only those
// of ASCII can.
fn can_change(encoding: Encoding, page: &[u8]) -> bool {
    match encoding {
        Encoding::MultiByte(_) => page.is_ascii(),
        other => other.has_encoder(),
    }
}

// The text of a page with marks, where it is in UTF-8 and some of its bytes are wrong.
fn marked_text(
    alloc: Global,
    pages: &Pages<'_>,
    encoding: Encoding,
    page: &[u8],
) -> Result<Option<String>, AllocError> {
    if encoding != Encoding::Utf8 || pages.is_strict || std::str::from_utf8(page).is_ok() {
        return Ok(None);
    }
    with_marks(alloc, page)
}

/// The text of a page that is edited. Bytes that are wrong are refused, but those of a page in
/// UTF-8 that has no marks itself.
pub fn to_be_edited(
    alloc: Global,
    pages: &Pages<'_>,
    page: Vec<u8>,
) -> Result<Editable, Uneditable> {
    let encoding = encoding_in(pages, &page);
    if !can_change(encoding, &page) {
        return Err(Uneditable::NotChanged(encoding));
    }
    let own = own_lines(alloc, encoding, &page)?;
    let marked = marked_text(alloc, pages, encoding, &page)?;
    if marked.is_some() {
        let text = decode(alloc, page, encoding)?;
        return Ok(Editable {
            encoding,
            text,
            own,
            marked,
        });
    }
    match decode_strict(alloc, page, encoding) {
        Ok(text) => Ok(Editable {
            encoding,
            text,
            own,
            marked,
        }),
        Err(DecodeError::OutOfMemory) => Err(Uneditable::OutOfMemory),
        Err(error) => Err(Uneditable::Undecoded(error)),
    }
}

// Whether two pages are read as trees that print the same.
fn print_alike(alloc: Global, page: &[u8], other: &[u8]) -> Result<bool, Unmade> {
    let task = Task::Ask(Question::Print);
    let own = execute(alloc, &task, "\n", page)?;
    let others = execute(alloc, &task, "\n", other)?;
    Ok(own.bytes.as_slice() == others.bytes.as_slice())
}

// The bytes of a page with references in the place of characters that its encoding lacks, if it is
// read as the same tree.
fn referenced(
    alloc: Global,
    encoding: Encoding,
    page: &str,
    lacking: char,
) -> Result<Vec<u8>, Uneditable> {
    let own = with_references(alloc, encoding, page)?;
    match print_alike(alloc, page.as_bytes(), own.as_bytes()) {
        Ok(true) => {}
        Ok(false) => return Err(Uneditable::Unencoded(encoding, lacking)),
        Err(error) => return Err(Uneditable::Unread(error)),
    }
    match encode(alloc, encoding, own.as_str()) {
        Ok(bytes) => Ok(bytes),
        Err(EncodeError::OutOfMemory) => Err(Uneditable::OutOfMemory),
        Err(EncodeError::NoCharacter(other)) => Err(Uneditable::Unencoded(encoding, other)),
    }
}

/// An edited text in the bytes of its page's encoding. References stand for what that lacks, where
/// the tree of the page is the same by them.
pub fn own_bytes(alloc: Global, encoding: Encoding, page: &str) -> Result<Vec<u8>, Uneditable> {
    match encode(alloc, encoding, page) {
        Ok(bytes) => Ok(bytes),
        Err(EncodeError::OutOfMemory) => Err(Uneditable::OutOfMemory),
        Err(EncodeError::NoCharacter(lacking)) => referenced(alloc, encoding, page, lacking),
    }
}

/// The bytes of a page in UTF-8 with changes, of which some are wrong: the same changes are made of
/// its text with marks, and what comes of that has to be read as the edited text.
pub fn marked_bytes(
    alloc: Global,
    made: Result<PartlyEdited, Refused>,
    edited: &str,
) -> Result<Vec<u8>, Uneditable> {
    let own = match made {
        Ok(own) => own,
        Err(Refused::OutOfMemory) => return Err(Uneditable::OutOfMemory),
        Err(_) => return Err(Uneditable::Joined),
    };
    let Ok(own) = text(own.edited.patched.bytes.as_slice()) else {
        return Err(Uneditable::Joined);
    };
    match without_marks(alloc, own, edited)? {
        Some(bytes) => Ok(bytes),
        None => Err(Uneditable::Joined),
    }
}

/// Whether browsers would read other characters than those that were put: a page of ASCII says
/// another encoding than UTF-8, in which it is written, and is no more ASCII.
pub fn is_misread(editable: &Editable, edited: &str) -> bool {
    editable.encoding == Encoding::Utf8
        && editable.text.as_str().is_ascii()
        && !edited.is_ascii()
        && encoding_said(editable.text.as_bytes()) != Encoding::Utf8
}

/// What fails where nothing is wrong with the page.
pub fn failure_of(error: Uneditable) -> Option<Failure> {
    match error {
        Uneditable::OutOfMemory => Some(Failure::OutOfMemory),
        Uneditable::Unread(Unmade::Failed(failure)) => Some(failure),
        _ => None,
    }
}
