//! Attributes that are read at once: a key, `=`, and a value in double quotes that holds neither a
//! reference nor a carriage return. A space stands between two.
ghost use Rattle.std.specs.Prelude.{◌≡◌, ◌≤◌, ◌<◌, Some, false, length, take};
ghost use Rattle.tl_html_tokens.specs.Inner.Stages.{has_word};
ghost use Rattle.tl_html_tokens.specs.Inner.Through.{through};
ghost use Rattle.tl_html_tokens.specs.declared.stage.Tag.{Tag};
ghost use Rattle.tl_html_tokens.specs.declared.stage.Stage.TheVariants.{AfterValue, BeforeKey};

use crate::quiet::{name_len, value_len};
use crate::stage::{Stage, Tag};
use crate::tag::kind;

// How many bytes such an attribute in front of a text takes, or 0.
fn attribute_len(text: &[u8]) -> usize
    ensures attribute { (tag : Tag) → 0 < result →
        through (BeforeKey tag) (take result text.now) ≡ Some (AfterValue tag) }
    ensures within { result ≤ length text.now }
{
    let key = name_len(text);
    let value = key + 2;
    if key == 0 || text.len() < value || text[key] != b'=' || text[key + 1] != b'"' {
        return 0;
    }
    let end = value + value_len(&text[value..]);
    if end < text.len() && text[end] == b'"' {
        end + 1
    } else {
        0
    }
}

// How far they go, and the stage there.
#[derive(Clone, Copy)]
pub(crate) struct Passage {
    pub(crate) stage: Stage,
    pub(crate) len: usize,
}

// After a value in a tag, of which so many bytes are passed: past the `>`, if it comes next.
fn past_end(tag: Tag, text: &[u8], at: usize) -> Passage
    requires passed { through (BeforeKey tag) (take at text.now) ≡ Some (AfterValue tag) }
    requires inside { at ≤ length text.now }
    ensures through { through (BeforeKey tag) (take result.len text.now) ≡ Some result.stage }
    ensures wordless { has_word result.stage ≡ false }
    ensures within { result.len ≤ length text.now }
{
    if at < text.len() && text[at] == b'>' {
        return Passage {
            stage: Stage::Whole(kind(tag.is_end), tag.mode),
            len: at + 1,
        };
    }
    Passage {
        stage: Stage::AfterValue(tag),
        len: at,
    }
}

// The attributes in front of a text, in a tag whose next key is awaited, and the end of the tag.
pub(crate) fn attributes_in_front(tag: Tag, text: &[u8]) -> Passage
    ensures through { through (BeforeKey tag) (take result.len text.now) ≡ Some result.stage }
    ensures wordless { has_word result.stage ≡ false }
    ensures within { result.len ≤ length text.now }
{
    let mut at = 0;
    loop {
        let len = attribute_len(&text[at..]);
        if len == 0 {
            return Passage {
                stage: Stage::BeforeKey(tag),
                len: at,
            };
        }
        at += len;
        if at == text.len() || text[at] != b' ' {
            return past_end(tag, text, at);
        }
        at += 1;
    }
}
