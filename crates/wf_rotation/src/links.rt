ghost use Rattle.std.specs.Prelude.{◌≡◌, ◌≢◌, ℕ, ◌^◌, ◌<◌, ◌≤◌, List, [], ◌∷◌, ◌++◌, length, replicate, IfOk, Some};
ghost use Rattle.wf_def_rotation.specs.Rotation.{no_keys};
ghost use Rattle.wf_def_lists.specs.Lists.{on};
ghost use Rattle.wf_rotation.specs.Lists.{AllLists, keys_at, with_keys, without, IsOff, AreDisjoint, first_of, keys_behind, IsLeast};
ghost use Rattle.wf_rotation.specs.Links.{slot_of};
ghost use Rattle.wf_rotation.specs.declared.side.Side.{Side as OneSide};
ghost use Rattle.wf_rotation.specs.declared.side.Side.TheVariants.{Old};

use crate::Side;
use std::alloc::{AllocError, Global};
use std::marker::Model;

/// The new and the old lists of all rotations, linked both ways. A key is on at most one list, at most once.
#[derive(Drop)]
pub(crate) struct Links {
    /// The key after each listed key, or the number of keys if it is the last of its list.
    next: Vec<u32>,
    /// The key before each listed key that is not the first of its list.
    prev: Vec<u32>,
    /// The first key of each list, or the number of keys if the list is empty; `slot` says which entry.
    heads: Vec<u32>,
    /// The last key of each list that has keys.
    tails: Vec<u32>,
    keys: u32,
    lists: u32,
}

impl Model for Links {
    ghost use Rattle.std.specs.Prelude.{◌≡◌, List, length};
    ghost use Rattle.wf_rotation.specs.Lists.{AllLists};

    ghost Value = { AllLists };

    ghost use Rattle.wf_rotation.specs.Links.{all_chains, AreLinks, AreBacks};

    ghost view = { λ q. record { lists = all_chains q.next.items q.heads.items q.lists; keys = q.keys } };

    ghost invariant = { λ q. AreLinks q.next.items q.heads.items q.tails.items q.lists ×
        (q.keys ≡ length q.next.items) ×
        AreBacks q.prev.items
        (record { lists = all_chains q.next.items q.heads.items q.lists; keys = q.keys }) };
}

/// Returns the index of a list in `heads` and `tails`.
fn slot(list: u32, side: Side) -> usize
    ensures { result ≡ slot_of list side }
{
    match side {
        Side::New => 2 * list as usize,
        Side::Old => 2 * list as usize + 1,
    }
}

impl Links {
    /// Creates empty lists: two for each of `lists` rotations. Fails if there is no memory.
    pub(crate) fn new(alloc: Global, keys: u32, lists: u32) -> Result<Self, AllocError>
        requires { lists ≤ 65536 }
        ensures { IfOk result (λ links. links ≡ record { lists = replicate lists no_keys; keys = keys }) }
    {
        let next = vec![in alloc; keys; keys as usize]?;
        let prev = vec![in alloc; keys; keys as usize]?;
        let heads = vec![in alloc; keys; 2 * lists as usize]?;
        let tails = vec![in alloc; keys; 2 * lists as usize]?;
        Ok(Links {
            next,
            prev,
            heads,
            tails,
            keys,
            lists,
        })
    }

    /// Returns the first key of a list, or None if the list is empty.
    pub(crate) fn first(&self, list: u32, side: Side) -> Option<u32>
        requires { list < length self.now.lists }
        ensures key { result ≡ first_of (keys_at self.now.lists list side) }
        ensures disjoint { AreDisjoint self.now }
    {
        let from = self.heads[slot(list, side)];
        if from < self.keys { Some(from) } else { None }
    }

    /// Returns the key after a key on its list, or None if it is the last.
    pub(crate) fn after(&self, key: u32) -> Option<u32>
        requires { key < self.now.keys }
        ensures { (list : ℕ) (side : OneSide) (before rest : List ℕ) → list < length self.now.lists →
            keys_at self.now.lists list side ≡ before ++ key ∷ rest → result ≡ first_of rest }
    {
        let next = self.next[key as usize];
        if next < self.keys { Some(next) } else { None }
    }

    /// Takes the first key off a list and returns it, or None if the list is empty.
    pub(crate) fn take_first(&mut self, list: u32, side: Side) -> Option<u32>
        requires { list < length self.old.lists }
        ensures key { result ≡ first_of (keys_at self.old.lists list side) }
        ensures rest { self.new ≡ record self.old {
          lists = with_keys self.old.lists list side (keys_behind (keys_at self.old.lists list side));
        } }
        ensures disjoint { AreDisjoint self.old }
    {
        let at = slot(list, side);
        let key = self.heads[at];
        if key < self.keys {
            self.heads[at] = self.next[key as usize];
            Some(key)
        } else {
            None
        }
    }

    /// Puts a key that is on no list last on a list.
    pub(crate) fn put_last(&mut self, list: u32, side: Side, key: u32)
        requires in_lists { list < length self.old.lists }
        requires in_keys { key < self.old.keys }
        requires unlisted { IsOff self.old.lists key }
        ensures { self.new ≡ record self.old {
          lists = with_keys self.old.lists list side (keys_at self.old.lists list side ++ key ∷ []);
        } }
    {
        let at = slot(list, side);
        let last = self.tails[at];
        if self.heads[at] < self.keys {
            self.next[key as usize] = self.keys;
            self.next[last as usize] = key;
            self.prev[key as usize] = last;
            self.tails[at] = key;
        } else {
            self.next[key as usize] = self.keys;
            self.heads[at] = key;
            self.tails[at] = key;
        }
    }

    /// Rotates the old list: it begins with `key`, and the keys up to `before`, the key just before it, go
    /// last in their order.
    pub(crate) fn rotate(&mut self, list: u32, before: u32, key: u32)
        requires in_lists { list < length self.old.lists }
        requires follows { (ys : List ℕ) × (zs : List ℕ) ×
            (keys_at self.old.lists list Old ≡ ys ++ before ∷ (key ∷ zs)) }
        ensures { (ys zs : List ℕ) → keys_at self.old.lists list Old ≡ ys ++ before ∷ (key ∷ zs) →
            self.new ≡ record self.old {
              lists = with_keys self.old.lists list Old (key ∷ (zs ++ (ys ++ before ∷ [])));
            } }
    {
        let old = slot(list, Side::Old);
        let first = self.heads[old];
        let last = self.tails[old];
        self.next[before as usize] = self.keys;
        self.next[last as usize] = first;
        self.prev[first as usize] = last;
        self.heads[old] = key;
        self.tails[old] = before;
    }

    /// Returns the least of a number and the keys of a list. It looks at each key of the list.
    pub(crate) fn least_key(&self, list: u32, side: Side, number: u32) -> u32
        requires in_lists { list < length self.now.lists }
        requires few { self.now.keys < 2 ^ 32 }
        ensures least { IsLeast number (keys_at self.now.lists list side) result }
        ensures disjoint { AreDisjoint self.now }
    {
        let mut least = number;
        let mut next = self.first(list, side);
        while let Some(key) = next {
            least = least.min(key);
            next = self.after(key);
        }
        least
    }

    /// Takes a key off its list.
    pub(crate) fn remove(&mut self, list: u32, side: Side, key: u32)
        requires in_lists { list < length self.old.lists }
        requires listed { 0 < on (keys_at self.old.lists list side) key }
        ensures removed { self.new ≡ record self.old {
          lists = with_keys self.old.lists list side (without key (keys_at self.old.lists list side));
        } }
        ensures disjoint { AreDisjoint self.old }
    {
        if self.heads[slot(list, side)] == key {
            self.take_first(list, side);
        } else {
            self.unlink(list, side, key);
        }
    }

    /// Takes a key off its list, on which it is not the first: the key before it and the key after it are
    /// linked to each other.
    fn unlink(&mut self, list: u32, side: Side, key: u32)
        requires in_lists { list < length self.old.lists }
        requires listed { 0 < on (keys_at self.old.lists list side) key }
        requires not_first { first_of (keys_at self.old.lists list side) ≢ Some key }
        ensures { self.new ≡ record self.old {
          lists = with_keys self.old.lists list side (without key (keys_at self.old.lists list side));
        } }
    {
        let at = slot(list, side);
        let before = self.prev[key as usize];
        let after = self.next[key as usize];
        self.next[before as usize] = after;
        if after < self.keys {
            self.prev[after as usize] = before;
        } else {
            self.tails[at] = before;
        }
    }
}
