//! Chains of slots: each slot is in one chain or in none, and each chain goes through its slots in
//! order. A slot is added at the end, and leaves its chain from anywhere, in constant time.
#![tactic(auto)]

ghost use Rattle.std.specs.Prelude.{◌≡◌, ℕ, ◌+◌, ◌<◌, ◌≤◌, ◌++◌, ◌∷◌, [], Some, None, length, slice_set, replicate, IfOk, OnOk};
ghost use Rattle.slot_chains.specs.Slots.{IsIn, IsFirst, IsLast, size_of, HasSameChains, IsSlots, IsWithin, linked, ended};

use std::alloc::{AllocError, Global};
use std::marker::Model;

/// Slots in chains. Slots and chains are numbered from 0.
#[derive(Drop)]
pub struct SlotChains {
    keys: Vec<Option<u32>>,
    before: Vec<Option<u32>>,
    behind: Vec<Option<u32>>,
    firsts: Vec<Option<u32>>,
    lasts: Vec<Option<u32>>,
    sizes: Vec<u32>,
}

impl Model for SlotChains {
    ghost use Rattle.std.specs.Prelude.{length};
    ghost use Rattle.std.specs.Vec.{vec_capacity};
    ghost use Rattle.slot_chains.specs.Slots.{Slots, AreChained, spare_of};

    ghost Value = { Slots };

    ghost view = { λ s. record {
      chains = length s.firsts.items;
      keys = s.keys.items;
      spare = spare_of (length s.keys.items) (vec_capacity s.keys) (vec_capacity s.before) (vec_capacity s.behind);
    } };

    ghost invariant = { λ s. AreChained s.keys.items s.before.items s.behind.items s.firsts.items s.lasts.items s.sizes.items };
}

/// Writes the slot at a place of the table, or where there is no place, at the key's place of the
/// ends.
fn link(
    table: &mut [Option<u32>],
    ends: &mut [Option<u32>],
    at: Option<u32>,
    key: u32,
    to: Option<u32>,
)
    requires place { IsWithin at (length table.old) }
    requires end { key < length ends.old }
    ensures table { table.new ≡ linked at to table.old }
    ensures ends { ends.new ≡ ended at key to ends.old }
{
    match at {
        Some(at) => table[at as usize] = to,
        None => ends[key as usize] = to,
    }
}

impl SlotChains {
    /// So many chains, and no slot.
    pub fn new(alloc: Global, chains: u32) -> Result<SlotChains, AllocError>
        ensures chains { IfOk result (λ s. s.chains ≡ chains) }
        ensures keys { IfOk result (λ s. s.keys ≡ []) }
    {
        Ok(SlotChains {
            keys: Vec::new(alloc),
            before: Vec::new(alloc),
            behind: Vec::new(alloc),
            firsts: Vec::from_elem(alloc, None, chains as usize)?,
            lasts: Vec::from_elem(alloc, None, chains as usize)?,
            sizes: Vec::from_elem(alloc, 0, chains as usize)?,
        })
    }

    /// How many slots there are, in chains or not. What holds of the slots of chains is said here.
    pub fn len(&self) -> u32
        ensures count { result ≡ length self.now.keys }
        ensures slots { IsSlots self.now }
    {
        self.keys.len() as u32
    }

    /// How many chains there are.
    pub fn chains(&self) -> u32
        ensures { result ≡ self.now.chains }
    {
        self.firsts.len() as u32
    }

    /// The first slot of the chain.
    pub fn first(&self, chain: u32) -> Option<u32>
        requires { chain < self.now.chains }
        ensures { IsFirst self.now.keys chain 0 result }
    {
        self.firsts[chain as usize]
    }

    /// The last slot of the chain.
    pub fn last(&self, chain: u32) -> Option<u32>
        requires { chain < self.now.chains }
        ensures { IsLast self.now.keys chain (length self.now.keys) result }
    {
        self.lasts[chain as usize]
    }

    /// The next slot of this slot's chain.
    pub fn behind(&self, slot: u32) -> Option<u32>
        requires { slot < length self.now.keys }
        ensures { (k : ℕ) → IsIn self.now.keys k slot → IsFirst self.now.keys k (slot + 1) result }
    {
        self.behind[slot as usize]
    }

    /// The slot in front of this one in its chain.
    pub fn before(&self, slot: u32) -> Option<u32>
        requires { slot < length self.now.keys }
        ensures { (k : ℕ) → IsIn self.now.keys k slot → IsLast self.now.keys k slot result }
    {
        self.before[slot as usize]
    }

    /// How many slots the chain has.
    pub fn size(&self, chain: u32) -> u32
        requires { chain < self.now.chains }
        ensures { result ≡ size_of chain self.now.keys }
    {
        self.sizes[chain as usize]
    }

    /// Makes room for so many more slots. Where it can't, the chains are as before.
    pub fn reserve(&mut self, more: u32) -> Result<(), AllocError>
        ensures room { OnOk result (more ≤ self.new.spare) }
        ensures unchanged { HasSameChains self.old self.new }
        ensures grows { self.old.spare ≤ self.new.spare }
    {
        if u32::MAX - self.len() < more {
            return Err(AllocError);
        }
        self.keys.reserve(more as usize)?;
        self.before.reserve(more as usize)?;
        self.behind.reserve(more as usize)?;
        Ok(())
    }

    /// Adds a slot at the end, in no chain.
    fn push_free(&mut self)
        requires { 0 < self.old.spare }
        ensures keys { self.new.keys ≡ self.old.keys ++ None ∷ [] }
        ensures chains { self.new.chains ≡ self.old.chains }
        ensures spare { self.new.spare + 1 ≡ self.old.spare }
    {
        self.keys.push_reserved(None);
        self.before.push_reserved(None);
        self.behind.push_reserved(None);
    }

    /// Adds a slot at the end, as the last of the chain.
    fn push_last(&mut self, chain: u32)
        requires room { 0 < self.old.spare }
        requires chain { chain < self.old.chains }
        ensures keys { self.new.keys ≡ self.old.keys ++ Some chain ∷ [] }
        ensures chains { self.new.chains ≡ self.old.chains }
        ensures spare { self.new.spare + 1 ≡ self.old.spare }
    {
        let slot = self.keys.len() as u32;
        let last = self.lasts[chain as usize];
        link(&mut self.behind, &mut self.firsts, last, chain, Some(slot));
        self.lasts[chain as usize] = Some(slot);
        self.sizes[chain as usize] += 1;
        self.keys.push_reserved(Some(chain));
        self.before.push_reserved(last);
        self.behind.push_reserved(None);
    }

    /// Adds a slot at the end, as the last of a chain or in none. It takes no memory.
    pub fn push(&mut self, chain: Option<u32>)
        requires room { 0 < self.old.spare }
        requires chain { IsWithin chain self.old.chains }
        ensures keys { self.new.keys ≡ self.old.keys ++ chain ∷ [] }
        ensures chains { self.new.chains ≡ self.old.chains }
        ensures spare { self.new.spare + 1 ≡ self.old.spare }
    {
        match chain {
            Some(chain) => self.push_last(chain),
            None => self.push_free(),
        }
    }

    /// Takes a slot out of its chain, where it is in one. The slot stays, in no chain.
    pub fn remove(&mut self, slot: u32)
        requires { slot < length self.old.keys }
        ensures keys { self.new.keys ≡ slice_set self.old.keys slot None }
        ensures chains { self.new.chains ≡ self.old.chains }
        ensures spare { self.new.spare ≡ self.old.spare }
    {
        let Some(chain) = self.keys[slot as usize] else {
            return;
        };
        let before = self.before[slot as usize];
        let behind = self.behind[slot as usize];
        link(&mut self.behind, &mut self.firsts, before, chain, behind);
        link(&mut self.before, &mut self.lasts, behind, chain, before);
        self.sizes[chain as usize] -= 1;
        self.keys[slot as usize] = None;
    }

    /// Takes away all slots. The room for them stays.
    pub fn clear(&mut self)
        ensures keys { self.new.keys ≡ [] }
        ensures chains { self.new.chains ≡ self.old.chains }
        ensures spare { self.new.spare ≡ self.old.spare + length self.old.keys }
    {
        self.keys.clear();
        self.before.clear();
        self.behind.clear();
        self.firsts.fill(None);
        self.lasts.fill(None);
        self.sizes.fill(0);
    }
}
