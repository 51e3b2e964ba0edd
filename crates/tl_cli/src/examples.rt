//! Worked rows: what a terminal is shown, and records with the name of their file.
ghost use Rattle.std.specs.Prelude.{[], codes, ◌∷◌, ◌≡◌};
ghost use Rattle.tl_cli.specs.Filename.{named_records};
ghost use Rattle.tl_cli.specs.Visible.{visible};
ghost use Rattle.tl_tree_extract.specs.declared.column.Columns.TheVariants.{Commas, Tabs};

/// Control characters, of one byte and of two.
pub fn controls()
    ensures plain { visible (codes "a b") ≡ codes "a b" }
    ensures escape { visible (27 ∷ 91 ∷ 109 ∷ []) ≡ codes "?[m" }
    ensures delete { visible (127 ∷ []) ≡ codes "?" }
    ensures harmless { visible (97 ∷ 0 ∷ 9 ∷ 10 ∷ []) ≡ 97 ∷ 0 ∷ 9 ∷ 10 ∷ [] }
    ensures line_end { visible (97 ∷ 13 ∷ 10 ∷ []) ≡ 97 ∷ 13 ∷ 10 ∷ [] }
    ensures carriage_return { visible (97 ∷ 13 ∷ 98 ∷ []) ≡ codes "a?b" }
    ensures two_bytes { visible (194 ∷ 155 ∷ 109 ∷ []) ≡ 194 ∷ 191 ∷ 109 ∷ [] }
    ensures letter { visible (195 ∷ 155 ∷ []) ≡ 195 ∷ 155 ∷ [] }
{}

/// A name is the first value of each record, which a line feed within quotes doesn't end.
pub fn names()
    ensures none { named_records Commas (codes "f") [] ≡ [] }
    ensures each { named_records Commas (codes "f") (97 ∷ 10 ∷ 98 ∷ 10 ∷ [])
        ≡ 102 ∷ 44 ∷ 97 ∷ 10 ∷ 102 ∷ 44 ∷ 98 ∷ 10 ∷ [] }
    ensures quotes { named_records Commas (codes "f") (34 ∷ 97 ∷ 10 ∷ 34 ∷ 10 ∷ [])
        ≡ 102 ∷ 44 ∷ 34 ∷ 97 ∷ 10 ∷ 34 ∷ 10 ∷ [] }
    ensures tabs { named_records Tabs (codes "f") (34 ∷ 10 ∷ 97 ∷ 10 ∷ [])
        ≡ 102 ∷ 9 ∷ 34 ∷ 10 ∷ 102 ∷ 9 ∷ 97 ∷ 10 ∷ [] }
    ensures comma { named_records Commas (codes "f,") (97 ∷ 10 ∷ [])
        ≡ 34 ∷ 102 ∷ 44 ∷ 34 ∷ 44 ∷ 97 ∷ 10 ∷ [] }
{}
