//! The list of pairs.

ghost use Rattle.std.specs.Prelude.{◌≡◌, ◌==◌, ◌<◌, ◌^◌, ◌++◌, ◌∷◌, [], length, slice_get, Some, OnOk, OnErr, IfOk, IsOkUnless, option_map};
ghost use Rattle.iscsi_text.specs.Pairs.{value_of};

use crate::fault::TextFault;
use crate::string_list::StringList;
use std::alloc::Global;
use std::marker::Model;

/// Keys with their values, in the order of the text. All of them are in one string; where they end takes eight more
/// bytes for each pair. Clauses see the list of the pairs.
#[derive(Drop)]
pub struct Pairs {
    /// Each key, with its value after it.
    strings: StringList,
}

impl Model for Pairs {
    ghost use Rattle.std.specs.Prelude.{ℕ, List};
    ghost use Rattle.iscsi_text.specs.StringList.{pairs_of, ArePairs};

    ghost Value = { List (List ℕ × List ℕ) };

    ghost view = { λ pairs. pairs_of pairs.strings };

    ghost invariant = { λ pairs. ArePairs pairs.strings };
}

impl Pairs {
    /// Returns an empty list. Allocates nothing.
    pub fn new(alloc: Global) -> Pairs
        ensures { result ≡ [] }
    {
        Pairs {
            strings: StringList::new(alloc),
        }
    }

    /// Returns the number of pairs.
    pub fn len(&self) -> usize
        ensures value { result ≡ length self.now }
        ensures bound { result < 2 ^ 63 }
    {
        self.strings.len() / 2
    }

    /// Returns whether the list is empty.
    pub fn is_empty(&self) -> bool
        ensures { result ≡ (length self.now == 0) }
    {
        self.len() == 0
    }

    /// Appends a pair. The only fault is out of memory, which leaves the pairs unchanged.
    pub fn push(&mut self, key: &str, value: &str) -> Result<(), TextFault>
        ensures added { OnOk result (self.new ≡ self.old ++ (key.now, value.now) ∷ []) }
        ensures unchanged { OnErr result (self.new ≡ self.old) }
        ensures memory { IsOkUnless result TextFault.Memory }
    {
        let count = self.strings.len();
        self.strings.push(key)?;
        if self.strings.push(value).is_err() {
            self.strings.truncate(count);
            return Err(TextFault::Memory);
        }
        Ok(())
    }

    /// Appends pairs. The only fault is out of memory, which leaves the pairs unchanged.
    pub fn append(&mut self, more: Pairs) -> Result<(), TextFault>
        ensures added { OnOk result (self.new ≡ self.old ++ more) }
        ensures unchanged { OnErr result (self.new ≡ self.old) }
        ensures memory { IsOkUnless result TextFault.Memory }
    {
        self.strings.append(&more.strings)?;
        Ok(())
    }

    /// Returns the key and the value at a place.
    pub fn pair(&self, at: usize) -> (&str, &str)
        requires { at < length self.now }
        ensures { slice_get self.now at ≡ Some (result.0.now, result.1.now) }
    {
        // Shows the prover that twice this place is still a `usize`.
        prove!(at < self.len());
        (self.strings.get(2 * at), self.strings.get(2 * at + 1))
    }

    /// Returns the value of a key: that of the first pair with this key.
    pub fn get(&self, key: &str) -> Option<&str>
        ensures { option_map (λ value. value.now) result ≡ value_of key.now self.now }
    {
        for at in 0..self.len() {
            let (found, value) = self.pair(at);
            if key == found {
                return Some(value);
            }
        }
        None
    }
}
