//! Slices of pairs, which are looked through one by one.
ghost use Rattle.std.specs.Prelude.{◌≡◌, ◌<◌, length, None, Some, position, slice_index_or, IfSome, IfNone};
ghost use Rattle.std.specs.Map.{lookup, keys_of};
ghost use Rattle.indexmap.specs.IndexMap.{set_value_at};

// The place of the pair with this key.
pub(super) fn find<K: Eq, V>(pairs: &[(K, V)], key: &K) -> Option<usize>
    ensures index { result ≡ position (K.eq key.now) (keys_of pairs.now) }
    ensures within { IfSome result (λ i. i < length pairs.now) }
    ensures value { IfSome result (λ i. (other : K × V) →
        lookup (K.eq key.now) pairs.now ≡ Some (slice_index_or pairs.now i other).1) }
    ensures absent { IfNone result (lookup (K.eq key.now) pairs.now ≡ None) }
{
    find_pair(pairs, key)
}

// The place of a key, by a search of the pairs.
fn find_pair<K: Eq, V>(pairs: &[(K, V)], key: &K) -> Option<usize>
    ensures { result ≡ position (λ pair. K.eq key.now pair.0) pairs.now }
{
    pairs.iter().position(|pair| *key == pair.0)
}

// Puts `value` in the place of the value at `index`.
pub(super) fn put_value<K, V: Drop>(pairs: &mut [(K, V)], index: usize, value: V)
    requires { index < length pairs.old }
    ensures { pairs.new ≡ set_value_at pairs.old index value }
{
    pairs[index].1 = value;
}
