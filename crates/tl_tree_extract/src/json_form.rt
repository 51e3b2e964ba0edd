//! What an object of JSON has of what is in its node.

/// What an object of JSON has of what is in its node.
#[derive(Clone, Copy, PartialEq, Eq, Debug)]
pub enum JsonForm {
    /// An object for each node in it, as `children` or `contents`.
    Nested,
    /// Its text, as `text`: what the texts below it say.
    Flat,
}
