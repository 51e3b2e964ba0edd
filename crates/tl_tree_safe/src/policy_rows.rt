//! Worked rows: lists, and the first word for which they are no policy.

ghost use Rattle.std.specs.Prelude.{None, Some, [], codes, true, ◌∷◌, ◌≡◌};
ghost use Rattle.tl_tree_safe.specs.ListOptions.{said_over};
ghost use Rattle.tl_tree_safe.specs.OwnLists.{blog_lists};
ghost use Rattle.tl_tree_safe.specs.Refusals.{first_refusal};
ghost use Rattle.tl_tree_safe.specs.declared.refusal.Reason.TheVariants.{ActiveScheme, LinkKey, MalformedClass, MalformedTag, NoCaption, NoCell, NoRow, NoScheme, NoTable, NoTableBody, OpaqueTag, ScriptKey, StructuralTag, UnlistedMark};

/// Names of tags.
pub fn tags()
    ensures none { first_refusal (record blog_lists { tags = [] }) ≡ None }
    ensures upper_case { first_refusal (record blog_lists { tags = codes "P" ∷ [] })
        ≡ Some (codes "P", MalformedTag) }
    ensures template { first_refusal (record blog_lists { tags = codes "template" ∷ [] })
        ≡ Some (codes "template", OpaqueTag) }
    ensures the_first { first_refusal
        (record blog_lists { tags = codes "p" ∷ codes "form" ∷ codes "svg" ∷ [] })
        ≡ Some (codes "form", StructuralTag) }
{}

/// Keys, what links begin with, and patterns of classes.
pub fn attributes()
    ensures script { first_refusal (record blog_lists { keys = codes "onclick" ∷ [] })
        ≡ Some (codes "onclick", ScriptKey) }
    ensures link { first_refusal (record blog_lists { keys = codes "action" ∷ [] })
        ≡ Some (codes "action", LinkKey) }
    ensures active { first_refusal (record blog_lists { link_prefixes = codes "data:image" ∷ [] })
        ≡ Some (codes "data:image", ActiveScheme) }
    ensures part_of_a_scheme { first_refusal
        (record blog_lists { link_prefixes = codes "java" ∷ [] })
        ≡ Some (codes "java", NoScheme) }
    ensures pattern { first_refusal (record blog_lists {
      classes = codes "*" ∷ codes "a" ∷ codes "a*" ∷ codes "*a" ∷ [];
    }) ≡ Some (codes "*a", MalformedClass) }
    ensures two_stars { first_refusal (record blog_lists { classes = codes "a**" ∷ [] })
        ≡ Some (codes "a**", MalformedClass) }
    ensures two_words { first_refusal (record blog_lists { classes = codes "a b" ∷ [] })
        ≡ Some (codes "a b", MalformedClass) }
    ensures no_pattern { first_refusal (record blog_lists { classes = codes "" ∷ [] })
        ≡ Some (codes "", MalformedClass) }
    ensures mark { first_refusal (record blog_lists { nofollow_links = true })
        ≡ Some (codes "rel", UnlistedMark) }
{}

/// Lists that are added to and taken from.
pub fn changes()
    ensures said { said_over (codes "p,i") (codes "b" ∷ codes "p" ∷ [])
        ≡ codes "p" ∷ codes "i" ∷ [] }
    ensures added { said_over (codes "+i,p,b") (codes "b" ∷ codes "p" ∷ [])
        ≡ codes "b" ∷ codes "p" ∷ codes "i" ∷ [] }
    ensures taken { said_over (codes "-b,+i,-u") (codes "b" ∷ codes "p" ∷ [])
        ≡ codes "p" ∷ codes "i" ∷ [] }
    ensures added_again { said_over (codes "-b,+b") (codes "b" ∷ codes "p" ∷ [])
        ≡ codes "p" ∷ codes "b" ∷ [] }
{}

/// Tables without their parts, and parts without a table.
pub fn tables()
    ensures no_body { first_refusal (record blog_lists { tags = codes "table" ∷ codes "tr" ∷ [] })
        ≡ Some (codes "table", NoTableBody) }
    ensures no_head { first_refusal (record blog_lists {
      tags =
          codes "caption" ∷ codes "table" ∷ codes "tbody" ∷ codes "td" ∷ codes "tfoot" ∷
          codes "th" ∷ codes "tr" ∷ [];
    }) ≡ Some (codes "table", NoTableBody) }
    ensures no_row { first_refusal (record blog_lists {
      tags =
          codes "table" ∷ codes "tbody" ∷ codes "td" ∷ codes "tfoot" ∷ codes "thead" ∷ [];
    }) ≡ Some (codes "table", NoRow) }
    ensures no_cell { first_refusal (record blog_lists {
      tags =
          codes "table" ∷ codes "tbody" ∷ codes "td" ∷ codes "tfoot" ∷ codes "thead" ∷
          codes "tr" ∷ [];
    }) ≡ Some (codes "table", NoCell) }
    ensures no_caption { first_refusal (record blog_lists {
      tags =
          codes "table" ∷ codes "tbody" ∷ codes "td" ∷ codes "tfoot" ∷ codes "th" ∷
          codes "thead" ∷ codes "tr" ∷ [];
    }) ≡ Some (codes "table", NoCaption) }
    ensures whole { first_refusal (record blog_lists {
      tags =
          codes "caption" ∷ codes "th" ∷ codes "td" ∷ codes "tr" ∷ codes "thead" ∷ codes "tfoot" ∷
          codes "tbody" ∷ codes "table" ∷ [];
    }) ≡ None }
    ensures no_table { first_refusal
        (record blog_lists { tags = codes "p" ∷ codes "caption" ∷ codes "td" ∷ [] })
        ≡ Some (codes "caption", NoTable) }
{}
