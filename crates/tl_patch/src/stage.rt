//! Where a byte stands in a tag, after the tag's name, and the attributes that end there.
ghost use Rattle.std.specs.Prelude.{◌≡◌, ◌<◌};
ghost use Rattle.tl_html_parts.specs.Bytes.{is_space};
ghost use Rattle.tl_patch.specs.AttributePlaces.{alone, attribute_found, before_value, between, in_key, listed, next_stage, past_key, valued};

/// Where a key stands.
#[derive(Clone, Copy)]
pub(crate) struct KeyPlace {
    pub(crate) start: usize,
    pub(crate) end: usize,
}

/// Where an attribute stands: its key, and its value with its quotes, which begins and ends where
/// the key ends if there is none.
#[derive(Clone, Copy)]
pub(crate) struct Place {
    pub(crate) key: KeyPlace,
    pub(crate) value: usize,
    pub(crate) end: usize,
    pub(crate) has_equals: bool,
}

/// Where a byte stands: a key with the place where it begins, a value with its key and the place
/// where it begins.
#[derive(Clone, Copy)]
pub(crate) enum Stage {
    Between,
    Key(usize),
    AfterKey(KeyPlace),
    BeforeValue(KeyPlace),
    DoubleQuoted(KeyPlace, usize),
    SingleQuoted(KeyPlace, usize),
    Unquoted(KeyPlace, usize),
}

pub(crate) fn is_space(byte: u8) -> bool
    ensures { result ≡ is_space byte }
{
    matches!(byte, b'\t' | b'\n' | 0x0C | b'\r' | b' ')
}

fn between(at: usize, byte: u8) -> Stage
    ensures { result ≡ between at byte }
{
    if is_space(byte) || byte == b'/' || byte == b'>' {
        return Stage::Between;
    }
    Stage::Key(at)
}

// Past a key, where a value may follow.
fn past_key(key: KeyPlace, at: usize, byte: u8) -> Stage
    ensures { result ≡ past_key key at byte }
{
    if is_space(byte) {
        return Stage::AfterKey(key);
    }
    if byte == b'=' {
        return Stage::BeforeValue(key);
    }
    between(at, byte)
}

fn in_key(start: usize, at: usize, byte: u8) -> Stage
    ensures { result ≡ in_key start at byte }
{
    if is_space(byte) || byte == b'/' || byte == b'>' || byte == b'=' {
        return past_key(KeyPlace { start, end: at }, at, byte);
    }
    Stage::Key(start)
}

fn before_value(key: KeyPlace, at: usize, byte: u8) -> Stage
    ensures { result ≡ before_value key at byte }
{
    if is_space(byte) {
        return Stage::BeforeValue(key);
    }
    match byte {
        b'"' => Stage::DoubleQuoted(key, at),
        b'\'' => Stage::SingleQuoted(key, at),
        b'>' => Stage::Between,
        _ => Stage::Unquoted(key, at),
    }
}

/// Where the next byte stands, after this one.
pub(crate) fn next_stage(stage: Stage, at: usize, byte: u8) -> Stage
    ensures { result ≡ next_stage stage at byte }
{
    match stage {
        Stage::Between => between(at, byte),
        Stage::Key(start) => in_key(start, at, byte),
        Stage::AfterKey(key) => past_key(key, at, byte),
        Stage::BeforeValue(key) => before_value(key, at, byte),
        Stage::DoubleQuoted(_, _) if byte == b'"' => Stage::Between,
        Stage::SingleQuoted(_, _) if byte == b'\'' => Stage::Between,
        Stage::Unquoted(_, _) if is_space(byte) || byte == b'>' => Stage::Between,
        _ => stage,
    }
}

// An attribute whose key has no value.
fn alone(key: KeyPlace) -> Place
    ensures { result ≡ alone key }
{
    Place {
        key,
        value: key.end,
        end: key.end,
        has_equals: false,
    }
}

fn valued(key: KeyPlace, value: usize, end: usize) -> Place
    ensures { result ≡ valued key value end }
{
    Place {
        key,
        value,
        end,
        has_equals: true,
    }
}

/// The attribute that this byte shows to be whole.
pub(crate) fn attribute_found(stage: Stage, at: usize, byte: u8) -> Option<Place>
    requires { at < 18446744073709551615 }
    ensures { listed result ≡ attribute_found stage at byte }
{
    match stage {
        Stage::Key(start) if byte == b'/' || byte == b'>' => {
            Some(alone(KeyPlace { start, end: at }))
        }
        Stage::AfterKey(key) if !is_space(byte) && byte != b'=' => Some(alone(key)),
        Stage::BeforeValue(key) if byte == b'>' => Some(valued(key, at, at)),
        Stage::DoubleQuoted(key, value) if byte == b'"' => Some(valued(key, value, at + 1)),
        Stage::SingleQuoted(key, value) if byte == b'\'' => Some(valued(key, value, at + 1)),
        Stage::Unquoted(key, value) if is_space(byte) || byte == b'>' => {
            Some(valued(key, value, at))
        }
        _ => None,
    }
}
