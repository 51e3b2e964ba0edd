//! The attributes in order.
ghost use Rattle.std.specs.Prelude.{◌≡◌, ◌<◌, length};
ghost use Rattle.std.specs.Map.Iter.{TakesFirst};
ghost use Rattle.std.specs.Iterator.{at_most};
ghost use Rattle.std.specs.List.{IsDistinct};
ghost use Rattle.std.specs.Map.{keys_of};
ghost use Rattle.tl_spec.specs.Lex.AttributeList.{AreOthers};
ghost use Rattle.tl_attributes.specs.Inner.Listing.{read_pair, listed};

use crate::attributes::AttributesOf;
use crate::piece::Piece;
use std::marker::Model;
use tl_bytes::byte_string::Bytes;
use tl_inline::inline::hashmap::InlineHashMapIterator;

/// The attributes in order, seen as the list of those that are left.
#[derive(Drop)]
pub struct AttributesIter<'s, B: Piece> {
    others: InlineHashMapIterator<'s, B, Option<B>>,
    id: Option<&'s B>,
    class: Option<&'s B>,
}

impl<'s, B: Piece> Model for AttributesIter<'s, B> {
    ghost use Rattle.std.specs.Prelude.{List, Option};
    ghost use Rattle.std.specs.Option.{option_copied};
    ghost use Rattle.tl_bytes.specs.Held.{Kept};
    ghost use Rattle.tl_attributes.specs.Inner.Listing.{listed_parts};

    ghost Value = { List (Kept × Option B) };

    ghost view = { λ a. listed_parts B.list a.others (option_copied a.id) (option_copied a.class) };
}

impl<B: Piece> AttributesOf<B> {
    /// The attributes in order.
    pub fn iter(&self) -> AttributesIter<'_, B>
        ensures value { result ≡ listed B.list self.now }

        // The rest holds of all attributes.
        ensures distinct { IsDistinct B.eq (keys_of self.now.others.entries) }
        ensures others { AreOthers B.list self.now.others.entries }
    {
        AttributesIter {
            others: self.unstable_raw().iter(),
            id: self.id(),
            class: self.class(),
        }
    }
}

impl<'s, B: Piece> Iterator for AttributesIter<'s, B> {
    type Item = (Bytes<'s>, Option<&'s B>);

    ghost next_gives = { TakesFirst read_pair };

    ghost remaining = { λ s. at_most (length s) };

    fn next(&mut self) -> Option<(Bytes<'s>, Option<&'s B>)> {
        match self.others.next() {
            Some((key, value)) => Some((Bytes::from(key.as_bytes()), value.as_ref())),
            None => match self.id.take() {
                Some(id) => Some((Bytes::from("id"), Some(id))),
                None => match self.class.take() {
                    Some(class) => Some((Bytes::from("class"), Some(class))),
                    None => None,
                },
            },
        }
    }
}
