//! What a doctype says.

use crate::row::Held;
use crate::span::Span;
use crate::tree::Tree;

/// A doctype: its name, its identifiers where it has them, and whether it asks for quirks mode
/// whatever these are.
#[derive(Clone, Copy)]
pub struct Doctype<'t> {
    pub name: &'t [u8],
    pub public_id: Option<&'t [u8]>,
    pub system_id: Option<&'t [u8]>,
    pub forces_quirks: bool,
}

impl<'p> Tree<'p> {
    ghost use Rattle.std.specs.Option.{option_and_then, option_copied, option_map};
    ghost use Rattle.std.specs.Prelude.{IsTrue, length, ◌≡◌};
    ghost use Rattle.tl_tree.specs.Asked.{doctype_of, doctype_said, node_at};
    ghost use Rattle.tl_tree.specs.Inner.Store.{bytes_of};
    ghost use Rattle.tl_tree.specs.Inner.Within.{id_is_within};
    ghost use Rattle.tl_tree.specs.TreeView.{rows_in};

    // The bytes of an identifier.
    fn id_bytes(&self, id: Option<Span>) -> Option<&[u8]>
        requires { IsTrue
            (id_is_within
            (length self.now.store.page.now)
            (length self.now.store.side.items)
            id) }
        ensures { option_copied result ≡ option_map (bytes_of self.now.store) id }
    {
        Some(self.store.bytes(id?))
    }

    /// What a doctype says.
    pub fn doctype(&self, number: usize) -> Option<Doctype<'_>>
        ensures { option_map doctype_said result
            ≡ option_and_then doctype_of (node_at (rows_in self.now) number) }
    {
        let Held::Doctype { doctype, source: _ } = self.rows.get(number)?.held else {
            return None;
        };
        let entry = self.store.doctype(doctype);
        Some(Doctype {
            name: self.store.bytes(entry.name),
            public_id: self.id_bytes(entry.public_id),
            system_id: self.id_bytes(entry.system_id),
            forces_quirks: entry.forces_quirks,
        })
    }
}
