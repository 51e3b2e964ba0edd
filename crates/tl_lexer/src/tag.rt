//! How a start tag ends.
ghost use Rattle.std.specs.Prelude.{◌≡◌, ◌≤◌, ◌+◌, ℕ, List, length, drop};
ghost use Rattle.tl_spec.specs.Lex.Attribute.{Pair};
ghost use Rattle.tl_spec.specs.Lex.Token.{token_after_attributes};

/// How a start tag ends.
#[derive(Clone, Copy)]
pub enum TagEnd {
    /// With `>`.
    Opens,
    /// With `/>`.
    Alone,
    /// Not at all, and nothing comes of the tag.
    Broken,
}

ghost use Rattle.tl_lexer.specs.TokenMeaning.{ended};

/// How a start tag ends after its attributes, and the place after that.
pub fn tag_end(text: &[u8], at: usize) -> (TagEnd, usize)
    requires { at ≤ length text.now }
    ensures read { (name : List ℕ) (pairs : List Pair)
        → (ended name pairs result.0, drop result.1 text.now)
        ≡ token_after_attributes name pairs (drop at text.now) }
    ensures order { at ≤ result.1 }
    ensures within { result.1 ≤ length text.now }
{
    match &text[at..] {
        [] => (TagEnd::Broken, at),
        [b'>', ..] => (TagEnd::Opens, at + 1),
        [_, b'>', ..] => (TagEnd::Alone, at + 2),
        [_, ..] => (TagEnd::Broken, at + 1),
    }
}
