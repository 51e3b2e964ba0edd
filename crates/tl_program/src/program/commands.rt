//! What the program is asked for.
use crate::script::Step;

/// What the program is asked for.
#[derive(Debug, Drop)]
pub enum Command<'c> {
    /// The document of the input, printed.
    Print,
    /// The texts of the document's top nodes, joined in order.
    Text,
    /// The document of the print of the input's document, printed.
    Again,
    /// The numbers of the nodes where this selector text holds, one on each line.
    Select(&'c str),
    /// The number of the first tag with this id, if there is one.
    Id(&'c str),
    /// The numbers of the tags with this member of their class, one on each line.
    Class(&'c str),
    /// The document after these steps, printed.
    Edit(Vec<Step<'c>>),
}
