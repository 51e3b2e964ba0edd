//! Values of nodes.
ghost use Rattle.std.specs.Option.{option_map};
ghost use Rattle.std.specs.Prelude.{◌≡◌};
ghost use Rattle.tl_values.specs.NewValues.{items_of, unless_stands};

/// A value that a node gets.
#[derive(Drop)]
pub struct NewValue {
    pub number: usize,
    pub value: Vec<u8>,
}

/// What is made, where it isn't the value that stands there.
pub(crate) fn unless_stands(own: &[u8], made: Vec<u8>) -> Option<Vec<u8>>
    ensures { option_map items_of result ≡ unless_stands (Some own.now) made.items }
{
    if own == made.as_slice() {
        return None;
    }
    Some(made)
}
