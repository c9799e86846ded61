//! The pairs of the earlier texts, among which a key is found fast.

ghost use Rattle.std.specs.Prelude.{◌≡◌, ◌++◌, [], not, is_some, IfOk, IfSome, IsOk, OnErr, if◌then◌else◌};
ghost use Rattle.std.specs.List.{list_any};
ghost use Rattle.iscsi_login.specs.KeyTree.{IsTreeOf};
ghost use Rattle.iscsi_login.specs.Rules.{is_again as is_said_again};

use crate::key_tree::KeyTree;
use iscsi_text::Pairs;
use std::alloc::Global;
use std::marker::Model;
use target_limits::Memory;

/// The pairs of the earlier texts. Clauses see them as a list.
#[derive(Drop)]
pub(crate) struct Earlier {
    alloc: Global,
    pairs: Pairs,
    /// The keys of the pairs, built when a second text has keys: in most logins only one does. There is none after a
    /// text that is refused, or for which an allocation fails.
    tree: Option<KeyTree>,
}

impl Model for Earlier {
    ghost use Rattle.std.specs.Prelude.{ℕ, List, IfSome};
    ghost use Rattle.iscsi_login.specs.KeyTree.{IsTreeOf};

    ghost Value = { List (List ℕ × List ℕ) };

    ghost view = { λ earlier. earlier.pairs };

    ghost invariant = { λ earlier. IfSome earlier.tree (λ tree. IsTreeOf tree earlier.pairs) };
}

impl Earlier {
    /// Returns an empty list of pairs.
    pub fn new(alloc: Global) -> Earlier
        ensures { result ≡ [] }
    {
        Earlier::first(alloc, Pairs::new(alloc))
    }

    /// Returns the pairs of one text.
    fn first(alloc: Global, pairs: Pairs) -> Earlier
        ensures { result ≡ pairs }
    {
        Earlier {
            alloc,
            pairs,
            tree: None,
        }
    }

    /// Appends pairs, unless one of them repeats a key that may not be given again. Returns whether they were
    /// appended. If not, or if an allocation fails, the pairs are unchanged. An empty text allocates nothing.
    #[tactic(auto, using(crate::proofs::FirstText::first_is_new, crate::proofs::FirstText::empty_is_new))]
    pub fn append(&mut self, more: Pairs) -> Result<bool, Memory>
        ensures value { IfOk result (λ is_new. is_new ≡ not (list_any (is_said_again self.old) more)) }
        ensures added { IfOk result (λ is_new. self.new ≡ (if is_new then self.old ++ more else self.old)) }
        ensures unchanged { OnErr result (self.new ≡ self.old) }
        ensures empty { more ≡ [] → IsOk result }
    {
        if more.is_empty() {
            return Ok(true);
        }
        if self.pairs.is_empty() {
            *self = Earlier::first(self.alloc, more);
            return Ok(true);
        }
        let Some(tree) = self.tree_with(&more)? else {
            return Ok(false);
        };
        if self.pairs.append(more).is_err() {
            return Err(Memory);
        }
        self.tree = Some(tree);
        Ok(true)
    }

    /// Returns the tree of the pairs and of these after them. Returns `None` if one of these repeats a key that may not be
    /// given again.
    fn tree_with(&mut self, more: &Pairs) -> Result<Option<KeyTree>, Memory>
        ensures some { IfOk result (λ o. IfSome o (λ tree. IsTreeOf tree (self.old ++ more.now))) }
        ensures is_new { IfOk result (λ o. is_some o ≡ not (list_any (is_said_again self.old) more.now)) }
        ensures same { self.new ≡ self.old }
    {
        let mut tree = match self.tree.take() {
            Some(tree) => tree,
            None => KeyTree::of(self.alloc, &self.pairs)?,
        };
        if tree.extend(&self.pairs, more)? {
            Ok(Some(tree))
        } else {
            Ok(None)
        }
    }
}
