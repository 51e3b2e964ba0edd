//! Laws of the definitions: of the tokenizer and its pieces, of balanced tokens, of references and
//! of UTF-8.

ghost use Rattle.std.specs.Prelude.{◌≡◌, ℕ, ◌+◌, Some, false, List, [], ◌∷◌, ◌++◌, length, true, map, IsUtf8};
ghost use Rattle.std.specs.List.{list_all};
ghost use Rattle.tl_spec.specs.Lex.Token.{tokens};
ghost use Rattle.tl_names.specs.References.{table_of};
ghost use Rattle.tl_html_spec.specs.Balanced.{balanced, left_open};
ghost use Rattle.tl_html_spec.specs.Driven.{AreDriven, DrivenPiece, DrivenState, Driver, Driving, Emission, GoesByName, after_driven, bare, by_name, driven, driven_before, driven_bytes, driven_emits, driven_pieces, driven_tokens, driving, in_state, no_tokens, taken, tokens_driven};
ghost use Rattle.tl_html_spec.specs.Escapes.{escaped_text, escaped_value};
ghost use Rattle.tl_html_spec.specs.HtmlTokenizer.{HtmlToken, State, data_state, html_tokens, without_mark, Character, OpenTag, after_attribute_value, double_quoted, tokens_from, with_attribute, with_feeds};
ghost use Rattle.tl_html_spec.specs.Pieces.{AreRead, Piece, bytes_of, first_byte, pieces, placed, read_before, runs, tokens_in};
ghost use Rattle.tl_html_spec.specs.Reader.{Reader, after, at, emitted, page_tokens, read, tokens_of};
ghost use Rattle.tl_html_spec.specs.References.{IsLongest, Row, named, rows};
ghost use Rattle.tl_html_spec.specs.Sound.{AreSound};
ghost use Rattle.tl_html_spec.specs.Unescaped.{is_in_text, is_in_value, unescaped_text, unescaped_value};
ghost use Rattle.tl_html_spec.specs.Utf8.{AreUtf8};

/// No tag that the tokenizer emits has an empty name or key, no comment is cut by a `-->` before
/// its end, and each byte is done with: of the reconsumes that the definition allows none is left.
#[tactic(auto, using(crate::proofs::Emits::page_sound, crate::proofs::Emits::byte_is_read))]
pub fn tokens_are_sound()
    ensures tokens { (page : List ℕ) → AreSound (html_tokens page) }
    ensures done { (text : List ℕ) (b : ℕ) →
        (read (after (at data_state) text) b).again ≡ false }
{}

/// The reference at the front of some letters is the one of the longest name.
pub fn longest_name_is_taken()
    ensures { (letter : ℕ) (letters : List ℕ) (row : Row) →
        named (letter ∷ letters) ≡ Some row →
        IsLongest (rows (table_of letter)) (letter ∷ letters) row }
{}

/// What a page is read as is what its front is read as, and then what the rest is read as from
/// where the front ends.
#[tactic(auto, using(crate::proofs::Fold::page_read, crate::proofs::Fold::tokens_append, crate::proofs::Fold::replaced))]
pub fn tokens_are_a_fold()
    ensures page { (page : List ℕ) → page_tokens page ≡ html_tokens page }
    ensures append { (r : Reader) (front rest : List ℕ) →
        tokens_of r (front ++ rest) ≡ emitted r front ++ tokens_of (after r front) rest }
    // where two texts bring the reader to one state, what follows is read the same after both
    ensures replaced { (r : Reader) (old new rest : List ℕ) → after r old ≡ after r new →
        tokens_of r (new ++ rest) ≡ emitted r new ++ tokens_of (after r old) rest }
{}

/// Each byte of a page stands in one piece, the pieces' tokens are the page's, and each piece is
/// read where it stands.
#[tactic(auto, using(crate::proofs::Cutting::bytes_are, crate::proofs::Cutting::tokens_are, crate::proofs::Cutting::page_is_read, crate::proofs::Cutting::runs_bytes, crate::proofs::Cutting::runs_tokens, crate::proofs::Places::placed_after))]
pub fn pieces_are_the_page()
    ensures bytes { (page : List ℕ) → bytes_of (pieces page) ≡ without_mark page }
    ensures tokens { (page : List ℕ) → tokens_in (pieces page) ≡ html_tokens page }
    ensures read { (page : List ℕ) → AreRead data_state (pieces page) }
    // runs of characters as one piece
    ensures run_bytes { (ps : List Piece) → bytes_of (runs ps) ≡ bytes_of ps }
    ensures run_tokens { (ps : List Piece) → tokens_in (runs ps) ≡ tokens_in ps }
    // a piece begins where those before it end; a byte order mark of a page counts for nothing
    ensures places { (n : ℕ) (front : List Piece) (p : Piece) (rest : List Piece) →
        placed n (front ++ p ∷ rest)
        ≡ placed n front ++ (n + length (bytes_of front), p)
        ∷ placed (n + length (bytes_of front) + length p.bytes) rest }
{}

/// Pieces that are read one by one are read the same as one text, whatever page they came of.
#[tactic(auto, using(crate::proofs::Kept::read_together, crate::proofs::Kept::pieces_made, crate::proofs::Kept::kept_before))]
pub fn pieces_are_read_together()
    ensures together { (state : State) (p : Piece) (ps : List Piece) → AreRead state (p ∷ ps) →
        tokens_of (at state) (bytes_of (p ∷ ps)) ≡ tokens_in (p ∷ ps) }
    ensures made { (page : List ℕ) (ps : List Piece) → AreRead data_state ps →
        without_mark page ≡ bytes_of ps → html_tokens page ≡ tokens_in ps }
    // what stands before a piece stays read when another one comes in its place, where the piece
    // right before is read the same before both
    ensures kept { (s : State) (front : List Piece) (k x y : Piece) (xs ys : List Piece) →
        ((z : State) → read_before z k.bytes (first_byte x.bytes)
        ≡ read_before z k.bytes (first_byte y.bytes)) →
        ((z : State) → AreRead z (x ∷ xs) → AreRead z (y ∷ ys)) →
        AreRead s (front ++ k ∷ x ∷ xs) → AreRead s (front ++ k ∷ y ∷ ys) }
{}

/// A driven page is read as a fold, over its bytes as they stand. A driver may remember all tokens
/// that were read, so what these laws say holds of any.
#[tactic(auto, using(crate::proofs::Driving::text_driven, crate::proofs::Driving::tokens_append))]
pub fn driven_tokens_are_a_fold()
    ensures taken { (d : Driver (List Emission)) (memory : List Emission) (state : DrivenState)
        (text : List ℕ) → driven d memory state (with_feeds text)
        ≡ taken d memory (driven_tokens d (driving memory state) text) }
    ensures append { (d : Driver (List Emission)) (start : Driving (List Emission))
        (front rest : List ℕ) → driven_tokens d start (front ++ rest)
        ≡ driven_emits d start front ++ driven_tokens d (after_driven d start front) rest }
{}

/// Each byte of a driven text stands in one piece, the pieces' tokens are the text's, and each
/// piece is read where it stands: what the driver remembers there, and the state of rest, are what
/// the piece before it leaves.
#[tactic(auto, using(crate::proofs::DrivenPieces::bytes_are, crate::proofs::DrivenPieces::tokens_are, crate::proofs::DrivenPieces::text_is_driven))]
pub fn driven_pieces_are_the_page()
    ensures bytes { (d : Driver (List Emission)) (start : Driving (List Emission)) (text : List ℕ) →
        driven_bytes (driven_pieces d start text) ≡ text }
    ensures tokens { (d : Driver (List Emission)) (start : Driving (List Emission)) (b : ℕ)
        (text : List ℕ) → tokens_driven (driven_pieces d start (b ∷ text))
        ≡ driven_tokens d start (b ∷ text) }
    ensures read { (d : Driver (List Emission)) (memory : List Emission) (state : DrivenState)
        (text : List ℕ) →
        AreDriven d (driving memory state) (driven_pieces d (driving memory state) text) }
{}

/// Pieces that are driven one by one are read the same as one text, whatever page they came of.
#[tactic(auto, using(crate::proofs::DrivenKept::driven_together, crate::proofs::DrivenKept::driven_kept))]
pub fn driven_pieces_are_read_together()
    ensures together { (d : Driver (List Emission)) (start : Driving (List Emission))
        (p : DrivenPiece (List Emission)) (ps : List (DrivenPiece (List Emission))) →
        AreDriven d start (p ∷ ps) →
        driven_tokens d start (driven_bytes (p ∷ ps)) ≡ tokens_driven (p ∷ ps) }
    // what stands before a piece stays read when another one comes in its place, where the piece
    // right before is read the same before both
    ensures kept { (d : Driver (List Emission)) (s : Driving (List Emission))
        (front : List (DrivenPiece (List Emission))) (k x y : DrivenPiece (List Emission))
        (xs ys : List (DrivenPiece (List Emission))) →
        ((z : Driving (List Emission)) → driven_before d z k.bytes (first_byte x.bytes)
        ≡ driven_before d z k.bytes (first_byte y.bytes)) →
        ((z : Driving (List Emission)) → AreDriven d z (x ∷ xs) → AreDriven d z (y ∷ ys)) →
        AreDriven d s (front ++ k ∷ x ∷ xs) → AreDriven d s (front ++ k ∷ y ∷ ys) }
{}

/// The driver that goes by names reads what the tokenizer reads by itself; and so does each one,
/// where each state that it sets is that of the start tag's name, and nothing is foreign.
#[tactic(auto, using(crate::proofs::Named::page_named, crate::proofs::Named::page_goes))]
pub fn names_drive_the_tokenizer()
    ensures by_name { (page : List ℕ) →
        (driven by_name no_tokens (in_state data_state) (with_feeds (without_mark page))).tokens
        ≡ html_tokens page }
    ensures as_named { (d : Driver (List Emission)) (memory : List Emission) (page : List ℕ) →
        let tokens = driven_tokens d (driving memory (in_state data_state)) (without_mark page) in
        GoesByName d memory tokens → map bare tokens ≡ html_tokens page }
{}

/// Balanced tokens nest: each end tag closes the innermost tag that is open, and none stays open.
#[tactic(auto, using(crate::proofs::Nesting::balanced_nest))]
pub fn balanced_tokens_nest()
    ensures { (tokens : List HtmlToken) → left_open [] (balanced tokens) ≡ Some [] }
{}

/// A text up to a `<` or the end is read as the characters that it says, and a value up to its `"`
/// as that value.
#[tactic(auto, using(crate::proofs::Texts::text_end_read, crate::proofs::Texts::text_read, crate::proofs::Texts::value_read))]
pub fn references_are_resolved()
    ensures last_text { (text : List ℕ) → list_all is_in_text text ≡ true →
        tokens_from data_state text ≡ map Character (unescaped_text text) }
    ensures text { (text rest : List ℕ) → list_all is_in_text text ≡ true →
        tokens_from data_state (text ++ 60 ∷ rest)
        ≡ map Character (unescaped_text text) ++ tokens_from data_state (60 ∷ rest) }
    ensures value { (tag : OpenTag) (key value rest : List ℕ) → list_all is_in_value value ≡ true →
        tokens_from (double_quoted tag key []) (value ++ 34 ∷ rest)
        ≡ tokens_from (after_attribute_value
        (with_attribute tag key (unescaped_value value))) rest }
{}

/// Where a text is cut before a `<` or U+FFFD, each part says its characters by itself.
#[tactic(auto, using(crate::proofs::Seams::less_than_cut, crate::proofs::Seams::replacement_cut))]
pub fn texts_are_cut()
    ensures less_than { (text rest : List ℕ) →
        unescaped_text (text ++ 60 ∷ rest) ≡ unescaped_text text ++ 60 ∷ unescaped_text rest }
    ensures replacement { (text rest : List ℕ) →
        unescaped_text (text ++ 0xEF ∷ rest) ≡ unescaped_text text ++ 0xEF ∷ unescaped_text rest }
{}

/// What is escaped is read back, whatever follows it.
#[tactic(auto, using(crate::proofs::Escapes::text_back, crate::proofs::Escapes::value_back))]
pub fn escapes_are_read_back()
    ensures texts { (text rest : List ℕ) →
        unescaped_text (escaped_text text ++ rest) ≡ text ++ unescaped_text rest }
    ensures values { (value rest : List ℕ) →
        unescaped_value (escaped_value value ++ rest) ≡ value ++ unescaped_value rest }
{}

/// The tokens of a page in UTF-8 say UTF-8.
#[tactic(auto, using(crate::proofs::Utf8Page::page_utf8))]
pub fn tokens_are_utf8()
    ensures { (page : List ℕ) → IsUtf8 page → AreUtf8 (html_tokens page) }
{}

/// What a text or a value in UTF-8 says is UTF-8.
#[tactic(auto, using(crate::proofs::Utf8Unescaped::text_said, crate::proofs::Utf8Unescaped::value_said))]
pub fn unescaped_is_utf8()
    ensures texts { (text : List ℕ) → IsUtf8 text → IsUtf8 (unescaped_text text) }
    ensures values { (value : List ℕ) → IsUtf8 value → IsUtf8 (unescaped_value value) }
{}
