//! Worked rows: the numbers of the marks that nodes come from, none where an element is put in; of
//! a text how many marks stand before it.

ghost use Rattle.std.specs.Prelude.{◌≡◌, ◌∷◌, None, Some, []};
ghost use Rattle.tl_dom_spec.specs.Examples.{numbers, numbers_inside};

/// Of pages, from `html` or what stands before it on.
pub fn of_pages()
    ensures none { numbers "a" ≡ None ∷ None ∷ None ∷ Some 0 ∷ [] }
    ensures each { numbers "<html><head><body><p>" ≡ Some 0 ∷ Some 1 ∷ Some 2 ∷ Some 3 ∷ [] }
    ensures head_alone { numbers "<head>" ≡ None ∷ Some 0 ∷ None ∷ [] }
    ensures body_that_adds_attributes { numbers "<p><body a=1>" ≡ None ∷ None ∷ None ∷ Some 0 ∷ [] }
    ensures html_that_adds_attributes { numbers "<html><html a=1><p>" ≡ Some 0 ∷ None ∷ None ∷ Some 2 ∷ [] }
    ensures doctype_and_comment { numbers "<!DOCTYPE html><!--a--><p>" ≡ Some 0 ∷ Some 1 ∷ None ∷ None ∷ None ∷ Some 2 ∷ [] }
    ensures behind_the_body { numbers "<p>a</body><!--b-->c" ≡ None ∷ None ∷ None ∷ Some 0 ∷ Some 1 ∷ Some 2 ∷ [] }
    ensures behind_the_head { numbers "<head></head> <title>" ≡ None ∷ Some 0 ∷ Some 2 ∷ Some 2 ∷ None ∷ [] }
{}

/// Of fragments.
pub fn of_fragments()
    ensures end_tags { numbers_inside "div" "<p></p><b></i><b>" ≡ Some 0 ∷ Some 2 ∷ Some 4 ∷ [] }
    ensures start_tags_that_are_ignored { numbers_inside "div" "<tr><p>" ≡ Some 1 ∷ [] }
    ensures doctypes_that_are_ignored { numbers_inside "div" "<!DOCTYPE html><p>" ≡ Some 1 ∷ [] }
    ensures comments_and_texts { numbers_inside "div" "a<!--b-->c<p>" ≡ Some 0 ∷ Some 0 ∷ Some 1 ∷ Some 1 ∷ [] }
    ensures parts_of_tables { numbers_inside "div" "<table><td>" ≡ Some 0 ∷ None ∷ None ∷ Some 1 ∷ [] }
    ensures column_group { numbers_inside "div" "<table><col>" ≡ Some 0 ∷ None ∷ Some 1 ∷ [] }
    ensures paragraph_and_break { numbers_inside "div" "</p></br>" ≡ None ∷ None ∷ [] }
    ensures foster_parented { numbers_inside "div" "<table><p>" ≡ Some 1 ∷ Some 0 ∷ [] }
    ensures foster_parented_text { numbers_inside "div" "<table>a" ≡ Some 1 ∷ Some 0 ∷ [] }
    ensures pending_space { numbers_inside "div" "<table> <tr>" ≡ Some 0 ∷ Some 1 ∷ None ∷ Some 1 ∷ [] }
    ensures pending_text { numbers_inside "div" "<table>a<tr>b<td>" ≡ Some 1 ∷ Some 0 ∷ None ∷ Some 1 ∷ Some 2 ∷ [] }
    ensures texts_that_meet { numbers_inside "div" "a</b>b" ≡ Some 0 ∷ [] }
    ensures ignored_before_a_text { numbers_inside "div" "</b>a" ≡ Some 1 ∷ [] }
    ensures opened_again { numbers_inside "div" "<p><b></p>a" ≡ Some 0 ∷ Some 1 ∷ Some 1 ∷ Some 3 ∷ [] }
    ensures made_anew { numbers_inside "div" "<b><p></b>a" ≡ Some 0 ∷ Some 1 ∷ Some 0 ∷ Some 3 ∷ [] }
    ensures cloned { numbers_inside "div" "<b><i><p></b>" ≡ Some 0 ∷ Some 1 ∷ Some 1 ∷ Some 2 ∷ Some 0 ∷ [] }
    ensures image { numbers_inside "div" "<p><image>" ≡ Some 0 ∷ Some 1 ∷ [] }
    ensures foreign { numbers_inside "div" "<svg><g/>a<math>" ≡ Some 0 ∷ Some 1 ∷ Some 2 ∷ Some 2 ∷ [] }
    ensures template { numbers_inside "div" "<template><p></template><p>" ≡ Some 0 ∷ Some 1 ∷ Some 3 ∷ [] }
{}
