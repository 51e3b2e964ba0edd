//! Changes of the tags and elements where a selector of CSS holds, in the bytes of the page.
#![tactic(auto)]

mod edit_error;
mod edited;
mod error;
pub mod examples;
mod in_order;
mod node_change;
mod node_edit;
mod node_edits;
mod nodes;
mod partly;
mod patched;
mod ranges;
mod selected;
mod uncommented;
mod whole;

pub use edit_error::SelectionEditError;
pub use edited::edit_selected;
pub use error::SelectionPatchError;
pub use node_change::NodeChange;
pub use node_edit::NodeEdit;
pub use node_edits::edit_nodes;
pub use nodes::patch_nodes;
pub use partly::{LeftOut, LeftOver, PartlyPatched, edit_partly, tagged_nodes};
pub use patched::{Patched, patch_selected};
pub use uncommented::uncomment_nodes;
pub use whole::Crossed;
