//! What the DOM does to elements.

use crate::change::Change;
use crate::position::Position;

/// What is done to each of some elements.
#[derive(Clone, Copy)]
pub enum Operation<'c, 'p> {
    /// A change, the same of each.
    Each(Change<'c, 'p>),
    /// Markup is put there, as it is read there.
    Markup(Position, &'c [u8]),
}
