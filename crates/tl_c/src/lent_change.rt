//! Changes of the tags of nodes as C lends them.

/// A change of the start tag of a node, by its number: the key gets the value (0), or goes (1).
#[repr(C)]
#[derive(Clone, Copy)]
pub struct LentChange<'c> {
    pub key: &'c [u8],
    pub value: &'c [u8],
    pub node: u32,
    pub change: u8,
}
