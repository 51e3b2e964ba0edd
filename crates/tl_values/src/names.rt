//! Names that none is used twice.
ghost use Rattle.std.specs.BTreeMap.{btree_map_len, get_by_text};
ghost use Rattle.std.specs.Option.{is_some, option_map};
ghost use Rattle.std.specs.Prelude.{IfOk, List, OnOk, Some, [], if◌then◌else◌, string_bytes, ℕ, ◌+◌, ◌-◌, ◌≡◌, ◌≤◌};
ghost use Rattle.std.specs.Str.{bytes_eq};
ghost use Rattle.tl_values.specs.Names.{numbered};

use std::alloc::{AllocError, Global};
use std::collections::BTreeMap;

/// Names that are used. With each stands the last number that was tried behind it.
#[derive(Drop)]
pub struct Names {
    taken: BTreeMap<String, usize>,
}

// A name with a number behind it.
fn numbered(alloc: Global, name: &str, number: usize) -> Result<String, AllocError>
    ensures { IfOk result (λ made. string_bytes made ≡ numbered name.now number) }
{
    format!(in alloc; "{name}-{number}")
}

impl Names {
    ghost use Rattle.tl_values.specs.Inner.Names.{AreKept};
    ghost use Rattle.tl_values.specs.Names.{free_number, unique, with_made, with_name};

    /// None.
    pub fn new(alloc: Global) -> Names
        ensures { AreKept result [] }
    {
        Names {
            taken: BTreeMap::new(alloc),
        }
    }

    // Keeps a number with a name.
    fn put(&mut self, name: String, number: usize) -> Result<(), AllocError>
        ensures put { OnOk result ((q : List ℕ) → get_by_text self.new.taken q
            ≡ (if bytes_eq (string_bytes name) q then Some number
            else get_by_text self.old.taken q)) }
        ensures len { OnOk result (btree_map_len self.new.taken ≡ btree_map_len self.old.taken
            + (if is_some (get_by_text self.old.taken (string_bytes name)) then 0 else 1)) }
    {
        match self.taken.insert(name, number) {
            Ok(_) => Ok(()),
            Err(_) => Err(AllocError),
        }
    }

    /// One more name.
    pub fn add(&mut self, alloc: Global, name: &str) -> Result<(), AllocError>
        ensures { (used : List (List ℕ)) → AreKept self.old used
            → OnOk result (AreKept self.new (with_name used name.now)) }
    {
        if self.taken.contains_key(name) {
            return Ok(());
        }
        let name = String::from_str(alloc, name)?;
        self.put(name, 1)?;
        Ok(())
    }

    // The first number from one on and before another one with which a name isn't used.
    fn free_number(
        &self,
        alloc: Global,
        name: &str,
        from: usize,
        end: usize,
    ) -> Result<Option<usize>, AllocError>
        ensures { (used : List (List ℕ)) → AreKept self.now used → IfOk result
            (λ number. number ≡ free_number used name.now (end - from) from) }
    {
        for number in from..end {
            let made = numbered(alloc, name, number)?;
            if !self.taken.contains_key(made.as_str()) {
                return Ok(Some(number));
            }
        }
        Ok(None)
    }

    // A name that is used, with the first number behind it with which it isn't.
    fn take_numbered(
        &mut self,
        alloc: Global,
        name: String,
        last: usize,
    ) -> Result<Option<String>, AllocError>
        requires { get_by_text self.old.taken (string_bytes name) ≡ Some last }
        ensures made { (used : List (List ℕ)) → AreKept self.old used → IfOk result
            (λ made. option_map string_bytes made ≡ unique used (string_bytes name)) }
        ensures kept { (used : List (List ℕ)) → AreKept self.old used → OnOk result
            (AreKept self.new (with_made used (unique used (string_bytes name)))) }
    {
        let end = self.taken.len() + 2;
        let from = last.saturating_add(1);
        let number = match self.free_number(alloc, name.as_str(), from, end)? {
            Some(number) => number,
            None => return Ok(None),
        };
        let made = numbered(alloc, name.as_str(), number)?;
        self.put(made.clone()?, 1)?;
        self.put(name, number)?;
        Ok(Some(made))
    }

    /// A name that isn't used yet, and is then: this one, or one with a number behind it.
    pub fn take(&mut self, alloc: Global, name: String) -> Result<Option<String>, AllocError>
        ensures made { (used : List (List ℕ)) → AreKept self.old used → IfOk result
            (λ made. option_map string_bytes made ≡ unique used (string_bytes name)) }
        ensures kept { (used : List (List ℕ)) → AreKept self.old used → OnOk result
            (AreKept self.new (with_made used (unique used (string_bytes name)))) }
    {
        match self.taken.get(name.as_str()).copied() {
            Some(last) => self.take_numbered(alloc, name, last),
            None => {
                self.put(name.clone()?, 1)?;
                Ok(Some(name))
            }
        }
    }
}
