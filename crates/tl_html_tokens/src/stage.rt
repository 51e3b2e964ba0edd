//! How far the piece of a page that is being read has come: the states of the tokenizer, without
//! what they collect.
use crate::mode::Mode;

/// What a piece of a page is.
#[derive(Clone, Copy)]
pub enum TokenKind {
    /// Characters.
    Text,
    StartTag,
    EndTag,
    Comment,
    Doctype,
    /// Nothing comes of it: `</>`, or a tag that the end of the page cuts.
    Nothing,
}

// A tag whose name is read, and how reading goes on after it.
#[derive(Clone, Copy)]
pub(crate) struct Tag {
    pub(crate) is_end: bool,
    pub(crate) mode: Mode,
}

#[derive(Clone, Copy)]
pub(crate) enum Quote {
    Double,
    Single,
    Absent,
}

// Where a reference stands.
#[derive(Clone, Copy)]
pub(crate) enum Place {
    Text(Mode),
    Value(Quote, Tag),
}

#[derive(Clone, Copy)]
pub(crate) enum Stage {
    // at rest: the piece is whole
    Whole(TokenKind, Mode),
    // 13.2.5.72 to .79
    Reference(Place),
    NamedReference(Place),
    NumericReference(Place),
    HexadecimalStart(Place),
    DecimalStart(Place),
    Hexadecimal(Place),
    Decimal(Place),
    // 13.2.5.6 to .8; of a name whether it is an end tag's
    TagOpen,
    EndTagOpen,
    TagName(bool),
    // 13.2.5.9 to .25
    RawLessThan(Mode),
    RawEndTagOpen(Mode),
    RawEndTagName(Mode),
    EscapeStart,
    EscapeStartDash,
    // 13.2.5.26 to .31
    DoubleEscapeStart,
    DoubleEscaped,
    DoubleEscapedDash,
    DoubleEscapedDashDash,
    DoubleEscapedLessThan,
    DoubleEscapeEnd,
    // 13.2.5.32 to .40
    BeforeKey(Tag),
    Key(Tag),
    AfterKey(Tag),
    BeforeValue(Tag),
    Value(Quote, Tag),
    AfterValue(Tag),
    SelfClosing(Tag),
    // 13.2.5.41 to .68
    BogusComment,
    Declaration,
    CommentStart,
    CommentStartDash,
    Comment,
    CommentLessThan,
    CommentBang,
    CommentBangDash,
    CommentBangDashDash,
    CommentEndDash,
    CommentEnd,
    CommentEndBang,
    Doctype,
}

// What a byte does: the piece goes on with it, or ends before it.
#[derive(Clone, Copy)]
pub(crate) enum Turn {
    Goes(Stage),
    Ends(TokenKind, Mode),
}

ghost use Rattle.std.specs.Prelude.{◌≡◌};
ghost use Rattle.tl_html_tokens.specs.Inner.Stages.{has_word, kind_at_end};

impl Stage {
    // Whether a word is being read, which a name may become.
    pub(crate) fn has_word(self) -> bool
        ensures { result ≡ has_word self }
    {
        matches!(
            self,
            Stage::TagName(_)
                | Stage::RawEndTagName(_)
                | Stage::DoubleEscapeStart
                | Stage::DoubleEscapeEnd
                | Stage::Declaration
        )
    }

    // What a piece is that the end of the page ends.
    pub(crate) fn kind_at_end(self) -> TokenKind
        ensures { result ≡ kind_at_end self }
    {
        match self {
            Stage::Whole(kind, _) => kind,
            Stage::Reference(place)
            | Stage::NamedReference(place)
            | Stage::NumericReference(place)
            | Stage::HexadecimalStart(place)
            | Stage::DecimalStart(place)
            | Stage::Hexadecimal(place)
            | Stage::Decimal(place) => place.kind_at_end(),
            Stage::TagName(_)
            | Stage::BeforeKey(_)
            | Stage::Key(_)
            | Stage::AfterKey(_)
            | Stage::BeforeValue(_)
            | Stage::Value(_, _)
            | Stage::AfterValue(_)
            | Stage::SelfClosing(_) => TokenKind::Nothing,
            Stage::BogusComment
            | Stage::Declaration
            | Stage::CommentStart
            | Stage::CommentStartDash
            | Stage::Comment
            | Stage::CommentLessThan
            | Stage::CommentBang
            | Stage::CommentBangDash
            | Stage::CommentBangDashDash
            | Stage::CommentEndDash
            | Stage::CommentEnd
            | Stage::CommentEndBang => TokenKind::Comment,
            Stage::Doctype => TokenKind::Doctype,
            _ => TokenKind::Text,
        }
    }
}

ghost use Rattle.tl_html_tokens.specs.Inner.Stages.{place_at_end};

impl Place {
    fn kind_at_end(self) -> TokenKind
        ensures { result ≡ place_at_end self }
    {
        match self {
            Place::Text(_) => TokenKind::Text,
            Place::Value(_, _) => TokenKind::Nothing,
        }
    }
}
