//! Worked rows, of the page `<p>a<b>c</b>d</p>e`, into which `x<i></i>` is put. The `b` has the
//! number 2; an end is shown as a stroke.
ghost use Rattle.std.specs.Prelude.{◌≡◌, codes, false, true};
ghost use Rattle.tl_tree_edit.specs.Changes.{After, Append, Before, Fill, Prepend, Remove, Replace, Text, Unset, Unwrap};
ghost use Rattle.tl_tree_edit.specs.Examples.{formed, page, page_shown, put_in, read_name, templated, whole, with_one, with_two};
ghost use Rattle.tl_tree_edit.specs.Operations.{is_in_form, row_for};
ghost use Rattle.tl_tree_edit.specs.declared.position.Position.TheVariants as position;

/// An element that goes, alone or with what stands in it.
pub fn gone()
    ensures page { page_shown ≡ codes "<p>a<b>c/d/e" }
    ensures removed { with_one 2 Remove ≡ codes "<p>ad/e" }
    ensures unwrapped { with_one 2 Unwrap ≡ codes "<p>acd/e" }
    ensures outermost { with_one 0 Remove ≡ codes "e" }
    ensures outer_unwrapped { with_one 0 Unwrap ≡ codes "a<b>c/de" }
    ensures unset { with_one 2 (Unset (codes "id")) ≡ page_shown }
    ensures a_text { with_one 1 Remove ≡ page_shown }
    ensures no_such_row { with_one 9 Remove ≡ page_shown }
{}

/// What is put in.
pub fn put()
    ensures replaced { with_one 2 (Replace put_in) ≡ codes "<p>ax<i>/d/e" }
    ensures filled { with_one 2 (Fill put_in) ≡ codes "<p>a<b>x<i>//d/e" }
    ensures before { with_one 2 (Before put_in) ≡ codes "<p>ax<i>/<b>c/d/e" }
    ensures front { with_one 2 (Prepend put_in) ≡ codes "<p>a<b>x<i>/c/d/e" }
    ensures back { with_one 2 (Append put_in) ≡ codes "<p>a<b>cx<i>//d/e" }
    ensures behind { with_one 2 (After put_in) ≡ codes "<p>a<b>c/x<i>/d/e" }
    ensures last { with_one 0 (Append put_in) ≡ codes "<p>a<b>c/dx<i>//e" }
    ensures text { with_one 2 (After (Text (codes "<i>"))) ≡ codes "<p>a<b>c/<i>d/e" }
{}

/// Two edits: what stands in an element that goes is passed over.
pub fn two()
    ensures both { with_two 0 (Prepend put_in) 2 Unwrap ≡ codes "<p>x<i>/acd/e" }
    ensures inner { with_two 0 (Fill put_in) 2 Remove ≡ codes "<p>x<i>//e" }
    ensures wrong_order { with_two 2 Remove 0 Remove ≡ codes "<p>ad/e" }
{}

/// In which element markup is read: an `html` is none, but for `innerHTML` and `outerHTML`.
pub fn contexts()
    ensures inner { read_name page position.Append 2 ≡ codes "b" }
    ensures beside { read_name page position.After 2 ≡ codes "p" }
    ensures outermost { read_name page position.Replace 0 ≡ codes "body" }
    ensures last_in_html { read_name whole position.Append 0 ≡ codes "body" }
    ensures before_body { read_name whole position.Before 1 ≡ codes "body" }
    ensures html_filled { read_name whole position.Fill 0 ≡ codes "html" }
    ensures body_replaced { read_name whole position.Replace 1 ≡ codes "html" }
{}

/// What stands in a form.
pub fn forms()
    ensures own { is_in_form formed 0 ≡ true }
    ensures inner { is_in_form formed 1 ≡ true }
    ensures behind { is_in_form formed 2 ≡ false }
    ensures no_row { is_in_form formed 3 ≡ false }
{}

/// What is put into a `template` is put into its contents.
pub fn templates()
    ensures inner { row_for templated (Fill put_in) 0 ≡ 1 }
    ensures behind { row_for templated (After put_in) 0 ≡ 0 }
    ensures other { row_for page (Fill put_in) 2 ≡ 2 }
{}
