//! Runs of bytes of a class.
ghost use Rattle.std.specs.Prelude.{◌≡◌, ◌≤◌, drop, length, option_map};
ghost use Rattle.std.specs.List.{prefix_len, take_while};
ghost use Rattle.tl_encoding.specs.Runs.{after, after_equals, begins_of, begins_with, from_word, is_of, is_quote};

#[derive(Clone, Copy)]
pub(crate) enum ByteClass {
    // white space
    Space,
    // a space or a control character
    Blank,
    // what stands between attributes
    Gap,
    // what a key is made of after its first byte
    Key,
    // what a value without quotes is made of, and a tag before its attributes
    Bare,
    // what a label in a text is made of
    Label,
    Letter,
    // all but this byte
    Except(u8),
}

impl ByteClass {
    pub(crate) fn has(self, byte: u8) -> bool
        ensures { result ≡ is_of self byte }
    {
        match self {
            ByteClass::Space => byte.is_ascii_whitespace(),
            ByteClass::Blank => byte <= b' ',
            ByteClass::Gap => byte.is_ascii_whitespace() || byte == b'/',
            ByteClass::Key => {
                !(byte.is_ascii_whitespace() || byte == b'/' || byte == b'=' || byte == b'>')
            }
            ByteClass::Bare => !(byte.is_ascii_whitespace() || byte == b'>'),
            ByteClass::Label => !(byte.is_ascii_whitespace() || byte == b';'),
            ByteClass::Letter => byte.is_ascii_alphabetic(),
            ByteClass::Except(other) => byte != other,
        }
    }
}

// How many bytes in front are of the class.
pub(crate) fn run_len(class: ByteClass, bytes: &[u8]) -> usize
    ensures run { result ≡ prefix_len (is_of class) bytes.now }
    ensures within { result ≤ length bytes.now }
{
    let mut at = 0;
    while at < bytes.len() && class.has(bytes[at]) {
        at += 1;
    }
    at
}

// The bytes of the class in front.
pub(crate) fn run(class: ByteClass, bytes: &[u8]) -> &[u8]
    ensures { result.now ≡ take_while (is_of class) bytes.now }
{
    &bytes[..run_len(class, bytes)]
}

// What stands after them.
pub(crate) fn after(class: ByteClass, bytes: &[u8]) -> &[u8]
    ensures { result.now ≡ after class bytes.now }
{
    &bytes[run_len(class, bytes)..]
}

// Whether the first byte is of the class.
pub(crate) fn begins_of(class: ByteClass, bytes: &[u8]) -> bool
    ensures { result ≡ begins_of class bytes.now }
{
    match bytes {
        [first, ..] => class.has(*first),
        [] => false,
    }
}

// Whether bytes begin with a word, in any case.
pub(crate) fn begins_with(bytes: &[u8], word: &str) -> bool
    ensures { result ≡ begins_with word.now bytes.now }
{
    bytes.len() >= word.len() && bytes[..word.len()].eq_ignore_ascii_case(word.as_bytes())
}

// Bytes from the first place on where they begin with a word, in the same case.
#[tactic(auto, using(crate::proofs::Said::words))]
pub(crate) fn from_word<'p>(word: &str, bytes: &'p [u8]) -> &'p [u8]
    ensures { result.now ≡ from_word word.now bytes.now }
{
    let mut rest = bytes;
    while !rest.is_empty() {
        if rest.starts_with(word.as_bytes()) {
            return rest;
        }
        rest = &rest[1..];
    }
    rest
}

// What stands after an equals sign with bytes of the class around it, if that is next.
pub(crate) fn after_equals(class: ByteClass, bytes: &[u8]) -> Option<&[u8]>
    ensures { option_map (λ rest. rest.now) result ≡ after_equals class bytes.now }
{
    match after(class, bytes) {
        [b'=', rest @ ..] => Some(after(class, rest)),
        _ => None,
    }
}

pub(crate) fn is_quote(byte: u8) -> bool
    ensures { result ≡ is_quote byte }
{
    byte == b'"' || byte == b'\''
}

// What stands after so many bytes; nothing where there are fewer.
pub(crate) fn without(count: usize, bytes: &[u8]) -> &[u8]
    ensures { result.now ≡ drop count bytes.now }
{
    if count <= bytes.len() {
        &bytes[count..]
    } else {
        b""
    }
}
