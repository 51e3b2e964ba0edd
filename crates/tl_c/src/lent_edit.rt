//! Changes of the elements that are nodes as C lends them.

/// A patch of the element that is a node, by its number: what `tl_edit_css` does by these numbers
/// and with this content.
#[repr(C)]
#[derive(Clone, Copy)]
pub struct LentEdit<'c> {
    pub content: &'c [u8],
    pub node: u32,
    pub edit: u8,
    pub form: u8,
}
