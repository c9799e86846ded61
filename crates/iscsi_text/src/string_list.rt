//! A list of strings in one text.

ghost use Rattle.std.specs.Prelude.{◌≡◌, ◌<◌, ◌≤◌, ◌^◌, ◌++◌, ◌∷◌, [], length, take, slice_get, slice_index, Some, OnOk, OnErr};

use number_list::NumberList;
use std::alloc::{AllocError, Global};
use std::marker::Model;

/// Strings, one after the other in one text. Clauses see the list of them, as their bytes.
#[derive(Drop)]
pub(crate) struct StringList {
    text: String,
    /// The place in the text where each string ends.
    ends: NumberList,
}

impl Model for StringList {
    ghost use Rattle.std.specs.Prelude.{ℕ, List, string_bytes};
    ghost use Rattle.iscsi_text.specs.StringList.{strings_in, AreEnds};

    ghost Value = { List (List ℕ) };

    ghost view = { λ list. strings_in (string_bytes list.text) 0 list.ends };

    ghost invariant = { λ list. AreEnds (string_bytes list.text) 0 list.ends };
}

/// Returns the place where a string begins, which is where the one before it ends. For the place after the last
/// string this is the end of the text.
fn start_of(ends: &NumberList, at: usize) -> usize
    requires { at ≤ length ends.now }
    ensures { result ≡ slice_index (0 ∷ ends.now) at }
{
    if at == 0 { 0 } else { ends.get(at - 1) }
}

impl StringList {
    /// Returns an empty list. Allocates nothing.
    pub(crate) fn new(alloc: Global) -> StringList
        ensures { result ≡ [] }
    {
        StringList {
            text: String::new(alloc),
            ends: NumberList::new(alloc),
        }
    }

    /// Returns the number of strings.
    pub(crate) fn len(&self) -> usize
        ensures value { result ≡ length self.now }
        ensures bound { result < 2 ^ 63 }
    {
        self.ends.len()
    }

    /// Returns the string at a place.
    pub(crate) fn get(&self, at: usize) -> &str
        requires { at < length self.now }
        ensures { slice_get self.now at ≡ Some result.now }
    {
        let start = start_of(&self.ends, at);
        let end = self.ends.get(at);
        &self.text.as_str()[start..end]
    }

    /// Appends a string. If an allocation fails, the list is unchanged.
    pub(crate) fn push(&mut self, string: &str) -> Result<(), AllocError>
        ensures added { OnOk result (self.new ≡ self.old ++ string.now ∷ []) }
        ensures unchanged { OnErr result (self.new ≡ self.old) }
    {
        // After its room is reserved, appending the string cannot fail. So its end is never kept without it.
        self.text.reserve(string.len())?;
        self.ends.push(self.text.len() + string.len())?;
        self.text.push_str(string)?;
        Ok(())
    }

    /// Keeps the first `count` strings, or all if there are fewer.
    pub(crate) fn truncate(&mut self, count: usize)
        ensures { self.new ≡ take count self.old }
    {
        if count < self.ends.len() {
            self.text.truncate(start_of(&self.ends, count));
            self.ends.truncate(count);
        }
    }

    /// Appends the strings of another list. If an allocation fails, the list is unchanged.
    pub(crate) fn append(&mut self, more: &StringList) -> Result<(), AllocError>
        ensures added { OnOk result (self.new ≡ self.old ++ more.now) }
        ensures unchanged { OnErr result (self.new ≡ self.old) }
    {
        let count = self.len();
        for at in 0..more.len() {
            if self.push(more.get(at)).is_err() {
                self.truncate(count);
                return Err(AllocError);
            }
        }
        Ok(())
    }
}
