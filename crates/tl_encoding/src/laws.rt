//! Laws of the definitions.
ghost use Rattle.std.specs.Prelude.{◌≡◌, ◌++◌, ◌<◌, ◌≤◌, ℕ, IsUtf8, List, None, Some, encode_utf8_all, length, slice_index, true};
ghost use Rattle.std.specs.Str.{all_scalars, chars};
ghost use Rattle.tl_encoding.specs.Attributes.{after_attributes, tag_end, value_among, value_at};
ghost use Rattle.tl_encoding.specs.Charset.{prescanned, said_within};
ghost use Rattle.tl_encoding.specs.Decoders.{decoded, wrong_in};
ghost use Rattle.tl_encoding.specs.Encoders.{appended, encoded, has_encoder};
ghost use Rattle.tl_encoding.specs.Marks.{unmarked};
ghost use Rattle.tl_encoding.specs.Runs.{after};
ghost use Rattle.tl_encoding.specs.declared.encoding.Encoding.{Encoding};
ghost use Rattle.tl_encoding.specs.declared.encoding.Encoding.TheVariants.{Utf8};
ghost use Rattle.tl_encoding.specs.declared.run.ByteClass.TheVariants.{Gap};

/// As many steps as there are bytes are enough: with more of them nothing else is found.
#[tactic(auto, using(crate::proofs::Shorter::wide))]
pub fn steps_are_enough()
    ensures value { (n : ℕ) (word tag : List ℕ) → length tag ≤ n →
        value_among n word (after Gap tag) ≡ value_at word tag }
    ensures end { (n : ℕ) (tag : List ℕ) → length tag ≤ n →
        after_attributes n (after Gap tag) ≡ tag_end tag }
    ensures page { (n : ℕ) (page : List ℕ) → length page ≤ n →
        said_within n page ≡ prescanned page }
{}

/// What is encoded is read as it was, and nothing of it is wrong.
#[tactic(auto, using(crate::proofs::Backs::read_as, crate::proofs::Backs::nothing_wrong))]
pub fn encoded_is_read()
    ensures text { (e : Encoding) (points bytes : List ℕ) → all_scalars points ≡ true →
        encoded e points ≡ Some bytes → decoded e bytes ≡ encode_utf8_all points }
    ensures right { (e : Encoding) (points bytes : List ℕ) → all_scalars points ≡ true →
        encoded e points ≡ Some bytes → wrong_in e bytes ≡ None }
{}

/// What was read and nothing of it wrong is encoded as it was, byte for byte.
#[tactic(auto, using(crate::proofs::Backs::encoded_back))]
pub fn read_is_encoded()
    ensures { (e : Encoding) (page : List ℕ) → has_encoder e ≡ true →
        ((k : ℕ) → slice_index page k < 256) → wrong_in e page ≡ None →
        (e ≡ Utf8 → IsUtf8 page) → encoded e (chars (decoded e page)) ≡ Some page }
{}

/// The bytes of characters are those of some and then those of the others, so where characters
/// stay their bytes do.
#[tactic(auto, using(crate::proofs::Encoded::parts))]
pub fn parts_are_encoded()
    ensures { (e : Encoding) (points more : List ℕ) →
        encoded e (points ++ more) ≡ appended (encoded e points) (encoded e more) }
{}

/// So are those of characters with marks.
#[tactic(auto, using(crate::proofs::Unmarked::parts))]
pub fn parts_are_unmarked()
    ensures { (points more : List ℕ) →
        unmarked (points ++ more) ≡ unmarked points ++ unmarked more }
{}
