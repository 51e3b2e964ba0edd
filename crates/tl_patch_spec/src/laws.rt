//! Laws of the edits of a page in its own bytes: what is read of the page that they make.

ghost use Rattle.std.specs.Prelude.{◌≡◌, ◌||◌, ◌==◌, ℕ, true, false, List, [], ◌∷◌, ◌++◌, map, Some};
ghost use Rattle.std.specs.List.{All, filter};
ghost use Rattle.tl_html_spec.specs.Balanced.{balanced, start};
ghost use Rattle.tl_html_spec.specs.HtmlTokenizer.{Character, HtmlToken, OpenTag, State, after_attribute_value, attribute_name, before_attribute_value, data_state, ends_name, html_tokens, is_white_space, raw, rcdata, tag_name, unquoted, with_attribute, without_mark};
ghost use Rattle.tl_html_spec.specs.Pieces.{AreRead, Piece, bytes_of, first_byte, piece, pieces, pieces_of, read_before, tokens_in};
ghost use Rattle.tl_html_spec.specs.Reader.{Reader, Rest, after, at, emitted, feed, is_at_rest, rest_before};
ghost use Rattle.tl_patch_spec.specs.Elements.{IsAmong, IsOfPiece, OpenElement, PlacedToken, balanced_in, balanced_pieces, elements, elements_of, end_tag, has_content, is_placed_end, open_after, open_names, token_of};
ghost use Rattle.tl_patch_spec.specs.Markup.{attribute_markup, is_key, is_without_nul, quoted_value, separator, separator_piece, text_markup, text_piece};
ghost use Rattle.tl_patch_spec.specs.PieceChanges.{AreClosed, PieceChange, new_pieces, old_pieces};
ghost use Rattle.tl_patch_spec.specs.TagChanges.{FirstGoesOnAs, FirstLacks, Rename, Set, Unset, changed_first, has_attribute, without_attributes};

/// However many places of a page are changed: where each change is closed, the tokens of what comes
/// of it are those of the new pieces.
#[tactic(auto, using(crate::proofs::Closed::closed_changes_read))]
pub fn closed_changes_read_as_asked()
    ensures { (page text : List ℕ) (changes : List PieceChange) →
        old_pieces changes ≡ pieces page → AreClosed changes →
        without_mark text ≡ bytes_of (new_pieces changes) →
        html_tokens text ≡ tokens_in (new_pieces changes) }
{}

/// What may be put in the place of pieces: the separator, a text, markup that leaves nothing
/// pending, each before whatever begins in `data`.
#[tactic(auto, using(crate::proofs::Patched::separator_before, crate::proofs::Patched::text_before, crate::proofs::Markup::markup_before))]
pub fn what_is_put_is_closed()
    ensures separator { (b : ℕ) (x : Piece) (xs : List Piece) → first_byte x.bytes ≡ Some b →
        AreRead data_state (x ∷ xs) → AreRead data_state (separator_piece ∷ x ∷ xs) }
    ensures text { (text : List ℕ) (b : ℕ) (x : Piece) (xs : List Piece) →
        first_byte x.bytes ≡ Some b →
        AreRead data_state (x ∷ xs) → AreRead data_state (text_piece text ∷ x ∷ xs) }
    ensures markup { (markup : List ℕ) (b : ℕ) (x : Piece) (xs : List Piece) →
        after (at data_state) markup ≡ at data_state → first_byte x.bytes ≡ Some b →
        AreRead data_state (x ∷ xs) → AreRead data_state (pieces_of markup ++ x ∷ xs) }
    ensures title { (name text : List ℕ) (b : ℕ) (x : Piece) (xs : List Piece) →
        let state : State = raw (rcdata name) in
        is_without_nul text ≡ true → first_byte x.bytes ≡ Some b → AreRead state (x ∷ xs) →
        AreRead state (piece state (text_markup text) (map Character text) ∷ x ∷ xs) }
    // any piece that is read alone, as a text in a script
    ensures piece { (s t : State) (bytes : List ℕ) (tokens : List HtmlToken) (b : ℕ)
        (x : Piece) (xs : List Piece) →
        read_before s bytes (Some b) ≡ Some (record { state = t; emits = tokens }) →
        first_byte x.bytes ≡ Some b →
        AreRead t (x ∷ xs) → AreRead s (piece s bytes tokens ∷ x ∷ xs) }
{}

/// What begins with a tag and ends in `data` can always be cut out of a page, and a text can stand
/// in its place or before a tag: with a separator before it each is read as asked, whatever stands
/// around it.
#[tactic(auto, using(crate::proofs::Patched::cut_out, crate::proofs::Patched::text_instead, crate::proofs::Patched::text_put, crate::proofs::Patched::pieces_instead))]
pub fn a_place_is_changed()
    ensures cut_out { (page text : List ℕ) (front : List Piece) (k o : Piece) (os : List Piece)
        (x : Piece) (xs : List Piece) (b : ℕ) →
        pieces page ≡ front ++ k ∷ o ∷ (os ++ x ∷ xs) →
        first_byte o.bytes ≡ Some 60 → o.rest ≡ data_state →
        x.rest ≡ data_state → first_byte x.bytes ≡ Some b →
        without_mark text ≡ bytes_of (front ++ k ∷ separator_piece ∷ x ∷ xs) →
        html_tokens text ≡ tokens_in (front ++ k ∷ separator_piece ∷ x ∷ xs) }
    ensures text_instead { (page text new : List ℕ) (front : List Piece) (k o : Piece)
        (os : List Piece) (x : Piece) (xs : List Piece) (b c : ℕ) →
        pieces page ≡ front ++ k ∷ o ∷ (os ++ x ∷ xs) →
        first_byte o.bytes ≡ Some 60 → o.rest ≡ data_state →
        x.rest ≡ data_state → first_byte x.bytes ≡ Some b →
        first_byte (text_markup new) ≡ Some c →
        without_mark text ≡ bytes_of (front ++ k ∷ separator_piece ∷ text_piece new ∷ x ∷ xs) →
        html_tokens text ≡ tokens_in (front ++ k ∷ separator_piece ∷ text_piece new ∷ x ∷ xs) }
    ensures text_put { (page text new : List ℕ) (front : List Piece) (k x : Piece)
        (xs : List Piece) (c : ℕ) →
        pieces page ≡ front ++ k ∷ x ∷ xs →
        first_byte x.bytes ≡ Some 60 → x.rest ≡ data_state →
        first_byte (text_markup new) ≡ Some c →
        without_mark text ≡ bytes_of (front ++ k ∷ separator_piece ∷ text_piece new ∷ x ∷ xs) →
        html_tokens text ≡ tokens_in (front ++ k ∷ separator_piece ∷ text_piece new ∷ x ∷ xs) }
    ensures pieces_instead { (page text : List ℕ) (front : List Piece) (k o : Piece)
        (os : List Piece) (x : Piece) (xs : List Piece) (n : Piece) (ns : List Piece) (b : ℕ) →
        pieces page ≡ front ++ k ∷ o ∷ (os ++ x ∷ xs) →
        first_byte o.bytes ≡ Some 60 → o.rest ≡ data_state →
        x.rest ≡ data_state → first_byte n.bytes ≡ Some b →
        (AreRead data_state (x ∷ xs) → AreRead data_state (n ∷ ns)) →
        without_mark text ≡ bytes_of (front ++ k ∷ separator_piece ∷ n ∷ ns) →
        html_tokens text ≡ tokens_in (front ++ k ∷ separator_piece ∷ n ∷ ns) }
{}

/// So one place after another can be changed: what is read piece by piece stays so, and in the end
/// `pieces_are_read_together` says the tokens.
#[tactic(auto, using(crate::proofs::Patched::put_in_place, crate::proofs::Patched::put_before, crate::proofs::Tag::tag_in_place))]
pub fn places_are_changed_in_turn()
    ensures instead { (s : State) (front : List Piece) (k o : Piece) (os : List Piece)
        (x : Piece) (xs : List Piece) (n : Piece) (ns : List Piece) (b : ℕ) →
        first_byte o.bytes ≡ Some 60 → o.rest ≡ data_state →
        x.rest ≡ data_state → first_byte n.bytes ≡ Some b →
        (AreRead data_state (x ∷ xs) → AreRead data_state (n ∷ ns)) →
        AreRead s (front ++ k ∷ o ∷ (os ++ x ∷ xs)) →
        AreRead s (front ++ k ∷ separator_piece ∷ n ∷ ns) }
    ensures before { (s : State) (front : List Piece) (k x : Piece) (xs : List Piece)
        (n : Piece) (ns : List Piece) (b : ℕ) →
        first_byte x.bytes ≡ Some 60 → x.rest ≡ data_state → first_byte n.bytes ≡ Some b →
        (AreRead data_state (x ∷ xs) → AreRead data_state (n ∷ ns)) →
        AreRead s (front ++ k ∷ x ∷ xs) → AreRead s (front ++ k ∷ separator_piece ∷ n ∷ ns) }
    // a tag, by its own bytes alone
    ensures tag { (s t : State) (x y : Piece) (xs : List Piece) → y.rest ≡ x.rest →
        emitted (at s) x.bytes ≡ x.tokens → after (at s) x.bytes ≡ at t →
        emitted (at s) y.bytes ≡ y.tokens → after (at s) y.bytes ≡ at t →
        is_at_rest t ≡ true → AreRead s (x ∷ xs) → AreRead s (y ∷ xs) }
{}

/// Markup that brings the tokenizer from `data` back to `data` with nothing pending is read the
/// same before a tag or in the place of what is cut out, and changes nothing else: whether it does
/// is asked of the markup alone.
#[tactic(auto, using(crate::proofs::Markup::markup_instead, crate::proofs::Markup::markup_put))]
pub fn closed_markup_is_read_the_same()
    ensures instead { (page text : List ℕ) (c : ℕ) (markup : List ℕ) (front : List Piece)
        (k o : Piece) (os : List Piece) (x : Piece) (xs : List Piece) (b : ℕ) →
        pieces page ≡ front ++ k ∷ o ∷ (os ++ x ∷ xs) →
        first_byte o.bytes ≡ Some 60 → o.rest ≡ data_state →
        x.rest ≡ data_state → first_byte x.bytes ≡ Some b →
        after (at data_state) (c ∷ markup) ≡ at data_state →
        let new = front ++ k ∷ separator_piece ∷ (pieces_of (c ∷ markup) ++ x ∷ xs) in
        without_mark text ≡ bytes_of new → html_tokens text ≡ tokens_in new }
    ensures put { (page text : List ℕ) (c : ℕ) (markup : List ℕ) (front : List Piece)
        (k x : Piece) (xs : List Piece) →
        pieces page ≡ front ++ k ∷ x ∷ xs → first_byte x.bytes ≡ Some 60 → x.rest ≡ data_state →
        after (at data_state) (c ∷ markup) ≡ at data_state →
        let new = front ++ k ∷ separator_piece ∷ (pieces_of (c ∷ markup) ++ x ∷ xs) in
        without_mark text ≡ bytes_of new → html_tokens text ≡ tokens_in new }
{}

/// The markup of a text gives just its characters, whatever follows it; a quoted value gives its
/// key that value.
#[tactic(auto, using(crate::proofs::Writing::text_closed, crate::proofs::Tag::title_closed, crate::proofs::Writing::value_closed, crate::proofs::Writing::separator_closed))]
pub fn what_is_written_is_read()
    ensures text { (text : List ℕ) (b : ℕ) → read_before data_state (text_markup text) (Some b)
        ≡ Some (record { state = data_state; emits = map Character text }) }
    // in a title or a text area as well
    ensures title { (name text : List ℕ) (b : ℕ) → is_without_nul text ≡ true →
        read_before (raw (rcdata name)) (text_markup text) (Some b)
        ≡ Some (record { state = raw (rcdata name); emits = map Character text }) }
    ensures value { (tag : OpenTag) (key value : List ℕ) → is_without_nul value ≡ true →
        after (at (before_attribute_value tag key)) (quoted_value value)
        ≡ at (after_attribute_value (with_attribute tag key value)) }
    // the separator settles what is pending, and is no token
    ensures separator { (r : Reader) (tokens : List HtmlToken) →
        rest_before r 60 ≡ Some (record { state = data_state; emits = tokens }) →
        after r separator ≡ at data_state }
{}

/// Where a value in quotes stands in the place of another value, the tag has that value, and all
/// else is read as before.
#[tactic(auto, using(crate::proofs::Sets::set_reads, crate::proofs::Bare::bare_set, crate::proofs::Bare::empty_set))]
pub fn a_value_is_set()
    ensures quoted { (tag : OpenTag) (key old new text : List ℕ) → has_attribute key tag ≡ false →
        emitted (at (after_attribute_value (with_attribute tag key new))) text
        ≡ changed_first (Set key new)
        (emitted (at (after_attribute_value (with_attribute tag key old))) text) }
    // of a value without quotes, and of a key without `=`
    ensures bare { (tag : OpenTag) (key old new : List ℕ) (b : ℕ) (text : List ℕ) →
        has_attribute key tag ≡ false → (is_white_space (feed b) || (feed b == 62)) ≡ true →
        emitted (at (after_attribute_value (with_attribute tag key new))) (b ∷ text)
        ≡ changed_first (Set key new) (emitted (at (unquoted tag key old)) (b ∷ text)) }
    ensures absent { (tag : OpenTag) (key new : List ℕ) (b : ℕ) (text : List ℕ) →
        has_attribute key tag ≡ false → ((feed b == 47) || (feed b == 62)) ≡ true →
        emitted (at (after_attribute_value (with_attribute tag key new))) (b ∷ text)
        ≡ changed_first (Set key new) (emitted (at (attribute_name tag key)) (b ∷ text)) }
{}

/// A key that a tag lacks, written right after the tag's name, stands first in the tag, and all
/// else is read as before.
#[tactic(auto, using(crate::proofs::Added::added_reads))]
pub fn an_attribute_is_added()
    ensures { (tag : OpenTag) (key value : List ℕ) (b : ℕ) (text : List ℕ) →
        tag.attributes ≡ [] → is_key key ≡ true → is_without_nul value ≡ true →
        ends_name (feed b) ≡ true → FirstLacks key (emitted (at (tag_name tag)) (b ∷ text)) →
        emitted (at (tag_name tag)) (attribute_markup key value ++ b ∷ text)
        ≡ changed_first (Set key value) (emitted (at (tag_name tag)) (b ∷ text)) }
{}

/// Where an attribute is taken out of a tag in which its key stands once, the tag lacks the key,
/// and all else is read as before.
#[tactic(auto, using(crate::proofs::Unset::unset_reads))]
pub fn a_key_is_unset()
    ensures { (tag : OpenTag) (key value text : List ℕ) → has_attribute key tag ≡ false →
        FirstLacks key (emitted (at (after_attribute_value tag)) text) →
        emitted (at (after_attribute_value tag)) text ≡ changed_first (Unset key)
        (emitted (at (after_attribute_value (with_attribute tag key value))) text) }
{}

/// Where a tag has another name, the token has that name, and all else is read as before, if both
/// names are followed by one state.
#[tactic(auto, using(crate::proofs::Renamed::renamed_reads))]
pub fn a_tag_is_renamed()
    ensures { (tag : OpenTag) (new : List ℕ) (b : ℕ) (text : List ℕ) →
        ends_name (feed b) ≡ true → FirstGoesOnAs new (emitted (at (tag_name tag)) (b ∷ text)) →
        emitted (at (tag_name (record tag { name = new }))) (b ∷ text)
        ≡ changed_first (Rename new) (emitted (at (tag_name tag)) (b ∷ text)) }
{}

/// Whatever is set or unset, the same end tags are put in and the same tags are dropped: the tree
/// has the same shape.
#[tactic(auto, using(crate::proofs::Shape::same_shape))]
pub fn attributes_leave_the_shape()
    ensures { (tokens others : List HtmlToken) →
        map without_attributes tokens ≡ map without_attributes others →
        map without_attributes (balanced tokens) ≡ map without_attributes (balanced others) }
{}

/// The elements of a page are those of its balanced tokens: each begins at the piece of its start
/// tag and ends where `balanced` finds its end tag or puts it in, and each end tag ends one.
#[tactic(auto, using(crate::proofs::Elements::tokens_are_balanced, crate::proofs::Given::tokens_of_pieces, crate::proofs::Elements::elements_among, crate::proofs::Elements::elements_end))]
pub fn elements_are_balanced()
    ensures tokens { (ps : List Piece) →
        map token_of (balanced_pieces ps) ≡ balanced (tokens_in ps) }
    ensures pieces { (ps : List Piece) → All (IsOfPiece ps) (balanced_pieces ps) }
    ensures among { (ps : List Piece) → All (IsAmong (balanced_pieces ps)) (elements ps) }
    ensures ends { (ps : List Piece) → map end_tag (filter has_content (elements ps))
        ≡ filter is_placed_end (balanced_pieces ps) }
{}

/// So they are found from the left to the right: the elements that are open at a piece have the
/// names that `balance` has there, and those of what follows are added to those that ended.
#[tactic(auto, using(crate::proofs::Elements::open_elements, crate::proofs::Elements::elements_append))]
pub fn elements_end_in_turn()
    ensures open { (ps : List Piece) →
        map (λ (o : OpenElement). o.0) (open_after [] (balanced_in 0 start ps)) ≡ open_names ps }
    ensures append { (stack : List OpenElement) (front rest : List PlacedToken) →
        elements_of stack (front ++ rest)
        ≡ elements_of stack front ++ elements_of (open_after stack front) rest }
{}
