//! The debug text of a selector. It names the second of two sides before the first, so that a
//! chain, which is nested to the left, is written by a loop that takes no memory.
use crate::selector::Selector;
use std::fmt;
use std::fmt::Write;

/// Writes the text.
#[cycle(show)]
pub fn show<W: Write>(e: &Selector<'_>, f: &mut fmt::Formatter<W>) -> fmt::Result {
    show_open(e, f)?;
    close(e, f)
}

// The words and second sides from the outside in, and then the innermost first side.
#[cycle(show)]
fn show_open<W: Write>(e: &Selector<'_>, f: &mut fmt::Formatter<W>) -> fmt::Result {
    let mut first = e;
    'inwards: loop {
        match first {
            Selector::And(a, b)
            | Selector::Or(a, b)
            | Selector::Descendant(a, b)
            | Selector::Parent(a, b) => {
                write!(f, "{} {{ second: ", word(first))?;
                show(b, f)?;
                f.write_str(", first: ")?;
                first = a;
            }
            _ => return show_simple(first, f),
        }
    }
}

// A brace for each that was opened.
fn close<W: Write>(e: &Selector<'_>, f: &mut fmt::Formatter<W>) -> fmt::Result {
    let mut first = e;
    'inwards: while let Selector::And(a, _)
    | Selector::Or(a, _)
    | Selector::Descendant(a, _)
    | Selector::Parent(a, _) = first
    {
        f.write_str(" }")?;
        first = a;
    }
    Ok(())
}

// The text of one that has no sides.
fn show_simple<W: Write>(e: &Selector<'_>, f: &mut fmt::Formatter<W>) -> fmt::Result {
    match e {
        Selector::Tag(bytes)
        | Selector::Id(bytes)
        | Selector::Class(bytes)
        | Selector::Attribute(bytes) => f.debug_tuple(word(e)).field(bytes).finish(),
        Selector::AttributeValue(key, value)
        | Selector::AttributeValueWhitespacedContains(key, value)
        | Selector::AttributeValueStartsWith(key, value)
        | Selector::AttributeValueEndsWith(key, value)
        | Selector::AttributeValueSubstring(key, value) => {
            f.debug_tuple(word(e)).field(key).field(value).finish()
        }
        _ => f.write_str(word(e)),
    }
}

// The name of its variant.
fn word(e: &Selector<'_>) -> &'static str {
    match e {
        Selector::Tag(_) => "Tag",
        Selector::Id(_) => "Id",
        Selector::Class(_) => "Class",
        Selector::All => "All",
        Selector::And(_, _) => "And",
        Selector::Or(_, _) => "Or",
        Selector::Descendant(_, _) => "Descendant",
        Selector::Parent(_, _) => "Parent",
        Selector::Attribute(_) => "Attribute",
        Selector::AttributeValue(_, _) => "AttributeValue",
        Selector::AttributeValueWhitespacedContains(_, _) => "AttributeValueWhitespacedContains",
        Selector::AttributeValueStartsWith(_, _) => "AttributeValueStartsWith",
        Selector::AttributeValueEndsWith(_, _) => "AttributeValueEndsWith",
        Selector::AttributeValueSubstring(_, _) => "AttributeValueSubstring",
    }
}
