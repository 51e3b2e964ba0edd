//! Texts, comments and doctypes in a word or a line.
ghost use Rattle.std.specs.List.{before_first};
ghost use Rattle.std.specs.Prelude.{OnOk, ◌++◌, ◌==◌, ◌≡◌};
ghost use Rattle.tl_tree_extract.specs.NodeOutline.{behind_space, comment_words, doctype_words, first_words, text_words};

use crate::run::{Run, behind};
use crate::text::{is_smooth, line_len, write_words};
use std::alloc::AllocError;

// What stands before the first line feed.
fn first_line(bytes: &[u8]) -> &[u8]
    ensures { result.now ≡ before_first (λ b. b == 10) bytes.now }
{
    let (line, _) = bytes.split_at(line_len(bytes));
    line
}

// Writes the words of the first line that has some.
fn put_first_words(bytes: &[u8], out: &mut Vec<u8>) -> Result<(), AllocError>
    ensures { OnOk result (out.new.items ≡ out.old.items ++ first_words bytes.now) }
{
    let words = behind(Run::White, bytes);
    if is_smooth(words) {
        return out.extend_from_slice(words);
    }
    write_words(first_line(words), out)
}

/// Writes a text in quotes.
pub(crate) fn put_text(bytes: &[u8], out: &mut Vec<u8>) -> Result<(), AllocError>
    ensures { OnOk result (out.new.items ≡ out.old.items ++ text_words bytes.now) }
{
    out.push(b'"')?;
    put_first_words(bytes, out)?;
    out.push(b'"')?;
    Ok(())
}

/// Writes a comment.
pub(crate) fn put_comment(bytes: &[u8], out: &mut Vec<u8>) -> Result<(), AllocError>
    ensures { OnOk result (out.new.items ≡ out.old.items ++ comment_words bytes.now) }
{
    out.extend_from_slice(b"<!-- ")?;
    put_first_words(bytes, out)?;
    out.extend_from_slice(b" -->")
}

// Writes a name behind a space; nothing of an empty one.
fn put_behind_space(name: &[u8], out: &mut Vec<u8>) -> Result<(), AllocError>
    ensures { OnOk result (out.new.items ≡ out.old.items ++ behind_space name.now) }
{
    if name.is_empty() {
        return Ok(());
    }
    out.push(b' ')?;
    out.extend_from_slice(name)
}

/// Writes a doctype.
pub(crate) fn put_doctype(name: &[u8], out: &mut Vec<u8>) -> Result<(), AllocError>
    ensures { OnOk result (out.new.items ≡ out.old.items ++ doctype_words name.now) }
{
    out.extend_from_slice(b"<!DOCTYPE")?;
    put_behind_space(name, out)?;
    out.push(b'>')?;
    Ok(())
}
