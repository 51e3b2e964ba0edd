//! Numbers of names of elements, which are the same in any case.
//!
//! Others may rely on this: once a name has a number (`number_in`), it has that for good. That
//! other names have other numbers is not proved.
ghost use Rattle.std.specs.Prelude.{List, Some, true, ℕ, ◌≡◌};
ghost use Rattle.tl_names.specs.ElementNames.{element_names, name_of};
ghost use Rattle.tl_names.specs.Elements.{is_among};
ghost use Rattle.tl_tree.specs.Inner.MetNames.{in_lower_case};

use crate::lowered::{is_lowered, lowercase};
use std::alloc::{AllocError, Global};
use std::collections::BTreeMap;
use tl_names::element_name::ElementName;

// The numbers of the names that are known: those of `ElementName`.
#[rattlefmt::skip]
static KNOWN_NUMBERS: [u8; 256] = [
    0, 1, 2, 3, 4, 5, 6, 7, 8, 9, 10, 11, 12, 13, 14, 15, 16, 17, 18, 19, 20, 21, 22, 23, 24, 25,
    26, 27, 28, 29, 30, 31, 32, 33, 34, 35, 36, 37, 38, 39, 40, 41, 42, 43, 44, 45, 46, 47, 48, 49,
    50, 51, 52, 53, 54, 55, 56, 57, 58, 59, 60, 61, 62, 63, 64, 65, 66, 67, 69, 69, 70, 71, 72, 73,
    74, 75, 76, 77, 78, 79, 80, 81, 82, 83, 84, 85, 86, 87, 88, 89, 90, 91, 92, 93, 94, 95, 96, 97,
    98, 99, 100, 101, 102, 103, 104, 105, 106, 107, 108, 109, 110, 111, 112, 113, 114, 115, 116,
    117, 118, 119, 120, 121, 122, 123, 124, 125, 126, 127, 128, 129, 130, 131, 132, 133, 134, 135,
    136, 137, 138, 139, 140, 141, 142, 143, 144, 145, 146, 147, 148, 149, 150, 151, 152, 153, 154,
    155, 156, 157, 158, 0, 0, 0, 0, 0, 0, 0, 0, 0, 0, 0, 0, 0, 0, 0, 0, 0, 0, 0, 0, 0, 0, 0, 0, 0,
    0, 0, 0, 0, 0, 0, 0, 0, 0, 0, 0, 0, 0, 0, 0, 0, 0, 0, 0, 0, 0, 0, 0, 0, 0, 0, 0, 0, 0, 0, 0, 0,
    0, 0, 0, 0, 0, 0, 0, 0, 0, 0, 0, 0, 0, 0, 0, 0, 0, 0, 0, 0, 0, 0, 0, 0, 0, 0, 0, 0, 0, 0, 0, 0,
    0, 0, 0, 0, 0, 0, 0, 0,
];

/// The number of a name that is known.
pub(crate) fn known_number(name: ElementName) -> u32
    ensures { (n : List ℕ) → is_among element_names n ≡ true → name ≡ name_of n
        → result ≡ (name_of (in_lower_case n)).number }
{
    KNOWN_NUMBERS[name.number() as usize] as u32
}

/// The other names that were met, in lower case. Nobody can aim at their order, in which each is
/// found by as many comparisons as the logarithm of their number.
#[derive(Drop)]
pub(crate) struct MetNames {
    numbers: BTreeMap<Vec<u8>, u32>,
}

impl MetNames {
    ghost use Rattle.std.specs.Prelude.{IfOk, None};
    ghost use Rattle.tl_tree.specs.Inner.MetNames.{lowered_number, number_in};

    /// None.
    pub(crate) fn new(alloc: Global) -> MetNames {
        MetNames {
            numbers: BTreeMap::new(alloc),
        }
    }

    // The number of a name in lower case.
    fn lowered_number(&self, name: &[u8]) -> Option<u32>
        ensures { result ≡ lowered_number self.now name.now }
    {
        let known = ElementName::of(name);
        if known != ElementName::OTHER {
            return Some(known.number() as u32);
        }
        self.numbers.get(name).copied()
    }

    /// The number of a name that is known or was met.
    pub(crate) fn number(&self, alloc: Global, name: &[u8]) -> Result<Option<u32>, AllocError>
        ensures { IfOk result (λ number. number ≡ number_in self.now name.now) }
    {
        if is_lowered(name, name) {
            return Ok(self.lowered_number(name));
        }
        let own = lowercase(alloc, name)?;
        Ok(self.lowered_number(&own))
    }

    // A name in lower case is met for the first time, and gets a number.
    fn add(&mut self, name: Vec<u8>) -> Result<u32, AllocError>
        requires { lowered_number self.old name.items ≡ None }
        ensures own { IfOk result
            (λ number. lowered_number self.new name.items ≡ Some number) }
        ensures kept { (n : List ℕ) (number : ℕ) → lowered_number self.old n ≡ Some number
            → lowered_number self.new n ≡ Some number }
    {
        let met = self.numbers.len().min(u32::MAX as usize - 256);
        let number = met as u32 + 256;
        self.numbers.insert(name, number)?;
        Ok(number)
    }

    // A name that is not known is met.
    #[cold]
    #[inline(never)]
    fn meet_other(&mut self, alloc: Global, name: &[u8]) -> Result<u32, AllocError>
        ensures own { IfOk result (λ number. number_in self.new name.now ≡ Some number) }
        ensures kept { (n : List ℕ) (number : ℕ) → number_in self.old n ≡ Some number
            → number_in self.new n ≡ Some number }
    {
        if let Some(number) = self.number(alloc, name)? {
            return Ok(number);
        }
        let own = lowercase(alloc, name)?;
        self.add(own)
    }

    /// A name is met, which has a number from then on.
    #[inline(always)]
    pub(crate) fn meet(
        &mut self,
        alloc: Global,
        known: ElementName,
        name: &[u8],
    ) -> Result<u32, AllocError>
        requires { known ≡ name_of name.now }
        ensures own { IfOk result (λ number. number_in self.new name.now ≡ Some number) }
        ensures kept { (n : List ℕ) (number : ℕ) → number_in self.old n ≡ Some number
            → number_in self.new n ≡ Some number }
    {
        if known != ElementName::OTHER {
            return Ok(known_number(known));
        }
        self.meet_other(alloc, name)
    }
}
