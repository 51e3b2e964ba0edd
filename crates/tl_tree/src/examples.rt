//! Worked rows: trees and their rows, each as `node parent end`.

ghost use Rattle.std.specs.Prelude.{◌≡◌, codes};
ghost use Rattle.tl_dom_spec.specs.HtmlForest.{comment, no_trees};
ghost use Rattle.tl_dom_spec.specs.Marks.{unmarked};
ghost use Rattle.tl_tree.specs.Examples.{an, rows, says, the_doctype};

/// Rows in the order of the page.
pub fn rows_of_trees()
    ensures nothing { rows no_trees ≡ codes "" }
    ensures a_text { rows (says "a" no_trees) ≡ codes "'a' - 1; " }
    ensures beside { rows (says "a" (comment (unmarked (codes "b")) no_trees)) ≡ codes "'a' - 1; <!--b--> - 2; " }
    ensures below { rows (an "p" (says "a" no_trees) (says "b" no_trees)) ≡ codes "p - 2; 'a' 0 2; 'b' - 3; " }
    ensures deep { rows (an "p" (an "b" (says "a" no_trees) no_trees) no_trees) ≡ codes "p - 3; b 0 3; 'a' 1 3; " }
    ensures behind_what_is_deep { rows
        (an "p" (an "b" (says "a" no_trees) (says "c" no_trees)) (an "i" no_trees no_trees))
        ≡ codes "p - 4; b 0 3; 'a' 1 3; 'c' 0 4; i - 5; " }
    ensures template { rows (an "template" (says "a" no_trees) (says "b" no_trees)) ≡ codes "template - 3; #contents 0 3; 'a' 1 3; 'b' - 4; " }
    ensures empty_template { rows (an "template" no_trees (says "b" no_trees)) ≡ codes "template - 2; #contents 0 2; 'b' - 3; " }
    ensures page { rows
        (the_doctype
        (an "html" (an "head" no_trees (an "body" (says "a" no_trees) no_trees)) no_trees))
        ≡ codes "<!html> - 1; html - 5; head 1 3; body 1 5; 'a' 3 5; " }
{}
