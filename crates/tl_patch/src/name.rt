//! The names of tags.
ghost use Rattle.std.specs.Prelude.{◌≡◌, IfSome, drop, false, is_some, true};
ghost use Rattle.tl_patch.specs.Places.{GoesOn, begins_end_tag, begins_start_tag, has_name_end};
ghost use Rattle.tl_patch_spec.specs.TagNames.{IsNameEnd};

use crate::markup::ends_name;

// Where a name ends that goes on at a place; `None` where the bytes end in it.
#[tactic(auto, using(crate::proofs::Names::name_goes_on, crate::proofs::Names::end_goes_on))]
fn name_end(tag: &[u8], from: usize) -> Option<usize>
    ensures goes_on { IfSome result (λ end. GoesOn from end tag.now) }
    ensures some { is_some result ≡ has_name_end (drop from tag.now) }
{
    let mut end = from;
    while end < tag.len() {
        if ends_name(tag[end]) {
            return Some(end);
        }
        end += 1;
    }
    None
}

/// Where the name of a start tag ends: the tokenizer is in the name there. `None` where no start
/// tag begins, or the bytes end in its name.
#[tactic(auto, using(crate::proofs::Names::start_name_begins))]
pub fn start_name_end(tag: &[u8]) -> Option<usize>
    ensures ends { IfSome result (λ end. IsNameEnd false end tag.now) }
    ensures some { is_some result ≡ begins_start_tag tag.now }
{
    if tag.len() < 2 || tag[0] != b'<' || !tag[1].is_ascii_alphabetic() {
        return None;
    }
    name_end(tag, 2)
}

// The same of an end tag.
#[tactic(auto, using(crate::proofs::Names::end_name_begins))]
pub(crate) fn end_name_end(tag: &[u8]) -> Option<usize>
    ensures ends { IfSome result (λ end. IsNameEnd true end tag.now) }
    ensures some { is_some result ≡ begins_end_tag tag.now }
{
    if tag.len() < 3 || tag[0] != b'<' || tag[1] != b'/' || !tag[2].is_ascii_alphabetic() {
        return None;
    }
    name_end(tag, 3)
}
