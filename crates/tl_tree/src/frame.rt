//! Elements that are still open, as frames of a path.

/// Where a node goes: to the end of what is next on the path, or of the frame of a number, or
/// behind the child of that frame that is still open, or to the end of the `head`, which was left.
#[derive(Clone, Copy)]
pub(crate) enum Place {
    Here,
    Into(u32),
    Behind(u32),
    IntoHead,
}

/// An element whose end is not settled. Its children, what goes to the end of the `head` among
/// them, and what goes behind the child of it that is still open, are rows of the store.
#[derive(Clone, Copy)]
pub(crate) struct Frame {
    pub(crate) number: u32,
    pub(crate) tag: u32,
    pub(crate) children: u32,
    pub(crate) late: u32,
    pub(crate) waiting: u32,
    pub(crate) place: Place,
    pub(crate) is_open: bool,
}
