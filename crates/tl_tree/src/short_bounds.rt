//! Bounds in five bytes.
ghost use Rattle.std.specs.Prelude.{◌≡◌};
ghost use Rattle.tl_tree.specs.Places.{start_of};

/// Where a mark begins, and its length. No part of it is aligned, so that it takes five bytes.
#[derive(Clone, Copy)]
pub(crate) struct ShortBounds {
    pub(crate) start: [u8; 4],
    pub(crate) len: u8,
}

const _: () = prove!(size_of::<ShortBounds>() == 5);

impl ShortBounds {
    pub(crate) fn new(start: u32, len: u8) -> ShortBounds
        ensures start { start_of result ≡ start }
        ensures len { result.len ≡ len }
    {
        ShortBounds {
            start: start.to_le_bytes(),
            len,
        }
    }

    pub(crate) fn start(self) -> u32
        ensures { result ≡ start_of self }
    {
        u32::from_le_bytes(self.start)
    }
}
