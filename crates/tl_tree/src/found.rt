//! What an end tag in foreign content finds on the stack of open elements.
ghost use Rattle.std.specs.Char.{to_ascii_lowercase};
ghost use Rattle.std.specs.Prelude.{IfSome, IsTrue, List, None, [], length, map, ◌<◌, ◌∷◌, ◌≡◌, ◌≤◌};
ghost use Rattle.std.specs.Str.{bytes_eq};
ghost use Rattle.tl_dom_spec.specs.Dispatcher.{found_in};
ghost use Rattle.tl_dom_spec.specs.Path as dom;
ghost use Rattle.tl_tree.specs.Inner.Frames.{path_of};
ghost use Rattle.tl_tree.specs.Inner.Found.{found_of, framed, stack_to};
ghost use Rattle.tl_tree.specs.Inner.Store.{is_tag_number, tag_at};

use crate::integration::is_html;
use crate::lowered::is_lowered;
use crate::path::FramePath;
use crate::role::Kind;
use crate::store::Store;

/// An element of the name, by its number, or an HTML element, or none.
#[derive(Clone, Copy)]
pub(crate) enum Found {
    Frame(u32),
    ByMode,
    Nothing,
}

// Whether the name of a tag in lower case is this one.
fn is_named_lower(store: &Store<'_>, number: u32, name: &[u8]) -> bool
    requires { IsTrue (is_tag_number store.now number) }
    ensures { result ≡ bytes_eq (map to_ascii_lowercase (tag_at store.now number).name) name.now }
{
    let own = store.tag(number);
    is_lowered(store.bytes(own.name), name)
}

impl<'a> FramePath<'a> {
    // The innermost element of the stack among so many of the outermost frames.
    fn open_below(&self, count: usize) -> Option<usize>
        requires { count ≤ length self.now.frames.items }
        ensures within { IfSome result (λ index. index < count) }
        ensures some { IfSome result
            (λ index. stack_to self.now count ≡ framed self.now index ∷ stack_to self.now index) }
        ensures none { result ≡ None → stack_to self.now count ≡ [] }
    {
        let mut index = count;
        while index > 0 {
            index -= 1;
            if self.frames[index].is_open {
                return Some(index);
            }
        }
        None
    }

    // What is found at an element of the stack and the next one further out.
    fn found_at(&self, inner: usize, outer: usize, name: &[u8]) -> Option<Found>
        requires inner { inner < length self.now.frames.items }
        requires outer { outer < length self.now.frames.items }
        ensures some { IfSome result (λ found. (others : List dom.Frame) →
            found_in name.now (framed self.now inner ∷ framed self.now outer ∷ others)
            ≡ found_of found) }
        ensures none { result ≡ None → (others : List dom.Frame) →
            found_in name.now (framed self.now inner ∷ framed self.now outer ∷ others)
            ≡ found_in name.now (framed self.now outer ∷ others) }
    {
        let own = self.frames[inner];
        if is_named_lower(&self.store, own.tag, name) {
            return Some(Found::Frame(own.number));
        }
        let around = self.frames[outer];
        if is_html(&self.store, around.tag) {
            return Some(Found::ByMode);
        }
        None
    }

    /// What the name of an end tag finds.
    pub(crate) fn found(&self, name: &[u8]) -> Found
        ensures { found_of result ≡ found_in name.now (dom.elements (path_of self.now)) }
    {
        let Some(top) = self.open_below(self.frames.len()) else {
            return Found::Nothing;
        };
        // From there on all are foreign, and of other names: the search goes past them.
        let limit = self.kind_limit(Kind::Html).max(self.name_limit(name));
        let mut inner = top.min(limit);
        while let Some(outer) = self.open_below(inner) {
            match self.found_at(inner, outer, name) {
                Some(found) => return found,
                None => {}
            }
            inner = outer;
        }
        Found::Nothing
    }
}
