//! The keys of pairs in a digital search tree (Knuth, TAOCP 6.3), which copies none of them.
//!
//! ```text
//!   pairs   0: B=..   1: A=..   2: C=..      A is 0x41, B 0x42, C 0x43, and the lowest bit comes first
//!   links   0, 1      0, 2      0, 0         a first bit of 1 leads to node 1, and a second one to node 2
//! ```

ghost use Rattle.std.specs.Prelude.{◌≡◌, ◌<◌, ◌≤◌, ◌+◌, ◌*◌, ◌/◌, ◌^◌, ◌++◌, ◌∷◌, [], Some, true, not, length, slice_get, slice_set, IfOk, IfErr, OnOk, option_map};
ghost use Rattle.std.specs.List.{list_any};
ghost use Rattle.iscsi_login.specs.KeyTree.{bit_at, IsKeyed, EndsAt, IsFree, IsTreeOf, KeepsChildren};
ghost use Rattle.iscsi_login.specs.Rules.{is_again as is_said_again};

use crate::text::is_again;
use iscsi_text::Pairs;
use number_list::NumberList;
use std::alloc::Global;
use std::marker::Model;
use target_limits::Memory;

/// A tree whose node n has the key of pair n. Only its links are stored: node n has those at 2n and 2n + 1, to its
/// children for a 0 bit and for a 1 bit. A link of 0 leads nowhere, since node 0 is the root. Clauses see it as the
/// list of its links.
#[derive(Drop)]
pub(crate) struct KeyTree {
    links: NumberList,
}

impl Model for KeyTree {
    ghost use Rattle.std.specs.Prelude.{ℕ, List};
    ghost use Rattle.iscsi_login.specs.KeyTree.{LeadsOn};

    ghost Value = { List ℕ };

    ghost view = { λ tree. tree.links };

    ghost invariant = { λ tree. LeadsOn tree.links };
}

/// Returns the bit of a key that its walk follows at this depth, and 0 after the end of the key.
#[tactic(auto, unfolding(crate::specs::KeyTree::bit_at))]
fn bit(key: &str, depth: usize) -> usize
    ensures value { result ≡ bit_at key.now depth }
    ensures bound { result < 2 }
{
    let bytes = key.as_bytes();
    if depth / 8 >= bytes.len() {
        return 0;
    }
    usize::from((bytes[depth / 8] >> (depth % 8)) % 2)
}

/// Returns the pair at a place of two lists that stand one after the other.
fn pair_of<'a>(pairs: &'a Pairs, more: &'a Pairs, at: usize) -> (&'a str, &'a str)
    requires { at < length (pairs.now ++ more.now) }
    ensures { slice_get (pairs.now ++ more.now) at ≡ Some (result.0.now, result.1.now) }
{
    if at < pairs.len() {
        pairs.pair(at)
    } else {
        more.pair(at - pairs.len())
    }
}

/// Returns the value at a place, unless it lies past the pairs.
fn value_at<'a>(pairs: &'a Pairs, place: usize) -> Option<&'a str>
    ensures { option_map (λ value. value.now) result ≡ option_map (λ pair. pair.1) (slice_get pairs.now place) }
{
    if place >= pairs.len() {
        return None;
    }
    Some(pairs.pair(place).1)
}

impl KeyTree {
    /// Returns a tree without nodes.
    pub fn new(alloc: Global) -> KeyTree
        ensures { result ≡ [] }
    {
        KeyTree {
            links: NumberList::new(alloc),
        }
    }

    /// Returns the number of nodes.
    fn len(&self) -> usize
        ensures value { result ≡ length self.now / 2 }
        ensures bound { length self.now < 2 ^ 63 }
    {
        self.links.len() / 2
    }

    /// Returns the child that a link leads to, or 0.
    fn child(&self, slot: usize) -> usize
        requires { slot < length self.now }
        ensures value { slice_get self.now slot ≡ Some result }
        ensures leads_on { 0 < result → (slot < 2 * result) × (2 * result + 1 < length self.now) }
    {
        self.links.get(slot)
    }

    /// Finds the node that has this key, or else the slot of the absent child where its walk ends.
    fn find(&self, pairs: &Pairs, more: &Pairs, key: &str) -> Result<usize, usize>
        requires root { 1 < length self.now }
        requires short { length self.now < 2 ^ 64 }
        requires keyed { length self.now ≤ 2 * length (pairs.now ++ more.now) + 1 }
        ensures found { IfOk result (EndsAt self.now (pairs.now ++ more.now) key.now) }
        ensures within { IfOk result (λ node. 2 * node + 1 < length self.now) }
        ensures free { IfErr result (IsFree self.now (pairs.now ++ more.now) key.now) }
    {
        let mut node = 0;
        let mut depth = 0;
        // Keys have no zero byte, so a walk has at most 8 steps for each byte of its key and for a zero after them.
        loop {
            let (found, _) = pair_of(pairs, more, node);
            if found == key {
                return Ok(node);
            }
            let slot = 2 * node + bit(key, depth);
            let next = self.child(slot);
            if next == 0 {
                return Err(slot);
            }
            node = next;
            depth += 1;
        }
    }

    /// Adds a node without children, to which no link leads yet.
    fn grow(&mut self) -> Result<(), Memory>
        ensures { OnOk result (self.new ≡ self.old ++ 0 ∷ 0 ∷ []) }
    {
        self.links.push(0)?;
        self.links.push(0)?;
        Ok(())
    }

    /// Sets a link to a node, which is greater than the one that it leads from.
    fn link(&mut self, slot: usize, node: usize) -> Result<(), Memory>
        requires leads_on { slot < 2 * node }
        requires within { 2 * node + 1 < length self.old }
        ensures { OnOk result (self.new ≡ slice_set self.old slot node) }
    {
        self.links.set(slot, node)?;
        Ok(())
    }

    /// Adds the next node, which has this key, and links it where the walk of the key ends. If a node has the key
    /// already, no link leads to the new one. Returns the node where the walk of the key ends now.
    fn add(&mut self, pairs: &Pairs, more: &Pairs, key: &str) -> Result<usize, Memory>
        requires { IsKeyed (pairs.now ++ more.now) key.now (length self.old / 2) true }
        ensures grown { OnOk result (length self.new ≡ length self.old + 2) }
        ensures kept { OnOk result (KeepsChildren self.old self.new) }
        ensures within { IfOk result (λ node. node ≤ length self.old / 2) }
        ensures ends { IfOk result (EndsAt self.new (pairs.now ++ more.now) key.now) }
    {
        let node = self.len();
        self.grow()?;
        match self.find(pairs, more, key) {
            Ok(found) => Ok(found),
            Err(slot) => {
                self.link(slot, node)?;
                Ok(node)
            }
        }
    }

    /// Adds the keys of more pairs, which come after those of this tree. Returns whether none of them repeats a key
    /// that may not be given again. Otherwise, or if an allocation fails, the tree can no longer be used.
    pub fn extend(&mut self, pairs: &Pairs, more: &Pairs) -> Result<bool, Memory>
        requires { IsTreeOf self.old pairs.now }
        ensures value { IfOk result (λ is_new. is_new ≡ not (list_any (is_said_again pairs.now) more.now)) }
        ensures tree { IfOk result (λ is_new. is_new ≡ true → IsTreeOf self.new (pairs.now ++ more.now)) }
    {
        for at in 0..more.len() {
            let (key, value) = more.pair(at);
            let found = self.add(pairs, more, key)?;
            if is_again(value_at(pairs, found), key, value) {
                return Ok(false);
            }
        }
        Ok(true)
    }

    /// Returns the tree of these pairs.
    pub fn of(alloc: Global, pairs: &Pairs) -> Result<KeyTree, Memory>
        ensures { IfOk result (λ tree. IsTreeOf tree pairs.now) }
    {
        let mut tree = KeyTree::new(alloc);
        // No key comes before the first text, so none is repeated.
        let _ = tree.extend(&Pairs::new(alloc), pairs)?;
        Ok(tree)
    }
}
