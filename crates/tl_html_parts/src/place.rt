//! Where the parts of a tag stand in a text.

/// Where a name, a key or a value stands in a text, without its quotes. What is plain says the
/// bytes that stand there.
#[derive(Clone, Copy, Debug)]
pub struct PartPlace {
    pub start: usize,
    pub end: usize,
    pub is_plain: bool,
}

/// Where an attribute stands: its key, its value, which is empty where there is none, and what
/// comes after them.
#[derive(Clone, Copy, Debug)]
pub struct AttributePlace {
    pub key: PartPlace,
    pub value: PartPlace,
    pub end: usize,
}

/// What comes next in a tag: an attribute, or its end, and whether it has the self-closing flag.
#[derive(Clone, Copy, Debug)]
pub enum NextPart {
    Attribute(AttributePlace),
    End { closes: bool },
}
