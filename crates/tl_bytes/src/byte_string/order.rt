//! Byte strings are equal, ordered and hashed as their lists are.
ghost use Rattle.std.specs.Prelude.{Some, refl};
ghost use Rattle.std.specs.Ordering.{nat_cmp};
ghost use Rattle.std.specs.Hash as fed;
ghost use Rattle.std.specs.Cmp.Lexicographic.{slice_cmp, nat_list_eq_equiv, nat_list_cmp_total, texts_ties, texts_po};
ghost use Rattle.std.specs.Cmp.{partial_equiv_from_equiv, on_equiv, on_total, on_per, on_po};
ghost use Rattle.std.specs.Cmp.Rules.{hashing};
ghost use Rattle.std.proofs.Common.{rules};
ghost use Rattle.tl_bytes.specs.Keys.{same_list};

use crate::byte_string::Bytes;
use std::cmp::Ordering;
use std::hash::{Hash, Hasher};

impl<'a> PartialEq for Bytes<'a> {
    ghost eq = { same_list };

    ghost laws = { on_per (λ b. b.list) (partial_equiv_from_equiv nat_list_eq_equiv) };

    #[inline(always)]
    fn eq(&self, other: &Self) -> bool {
        self.as_bytes() == other.as_bytes()
    }
}

impl<'a> Eq for Bytes<'a> {
    ghost laws = { on_equiv (λ b. b.list) nat_list_eq_equiv };
}

impl<'a> PartialOrd for Bytes<'a> {
    ghost partial_cmp = { λ x y. Some (slice_cmp nat_cmp x.list y.list) };

    ghost laws = { on_po (λ b. b.list) texts_po };

    fn partial_cmp(&self, other: &Self) -> Option<Ordering> {
        Some(self.cmp(other))
    }
}

impl<'a> Ord for Bytes<'a> {
    ghost cmp = { λ x y. slice_cmp nat_cmp x.list y.list };

    ghost total = { on_total (λ b. b.list) nat_list_cmp_total };

    ghost matches_partial_cmp = { λ x y. refl };

    ghost matches_eq = { λ x y. texts_ties x.list y.list };

    fn cmp(&self, other: &Self) -> Ordering {
        self.as_bytes().cmp(other.as_bytes())
    }
}

impl<'a> Hash for Bytes<'a> {
    ghost hash_input = { λ b. fed.slice fed.u8 b.list };

    ghost respects_eq = { Prim.search (hashing, rules) };

    fn hash<H: Hasher>(&self, state: &mut H) {
        self.as_bytes().hash(state);
    }
}
