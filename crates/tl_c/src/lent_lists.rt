//! The lists of a policy as C lends them.

/// The text of a list: words with commas between them. One that isn't said leaves the list as the
/// policy has it, and nothing of it is read.
#[repr(C)]
#[derive(Clone, Copy)]
pub struct LentList<'c> {
    pub text: &'c [u8],
    pub is_said: bool,
}

/// The texts of the lists of a policy, and the policy whose lists count where none is said.
#[repr(C)]
#[derive(Clone, Copy)]
pub struct LentLists<'c> {
    pub tags: LentList<'c>,
    pub keys: LentList<'c>,
    pub link_keys: LentList<'c>,
    pub link_prefixes: LentList<'c>,
    pub classes: LentList<'c>,
    pub id_prefix: LentList<'c>,
    pub relative_links: bool,
    pub nofollow_links: bool,
    pub policy: u8,
}
