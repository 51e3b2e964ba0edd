//! Words among others.
ghost use Rattle.std.specs.Prelude.{◌≡◌, map};
ghost use Rattle.tl_spec.specs.Lex.ByteClass.{is_among_in_any_case};

/// Whether a word is one of these, in any ASCII case.
pub fn is_among_in_any_case(words: &[&str], word: &[u8]) -> bool
    ensures { result ≡ is_among_in_any_case (map (λ own. own.now) words.now) word.now }
{
    for own in words {
        if word.eq_ignore_ascii_case(own.as_bytes()) {
            return true;
        }
    }
    false
}
