//! Live descriptors, by their numbers, and how many of them each pair has.
ghost use Rattle.std.specs.Prelude.{◌≡◌, ℕ, ◌+◌, ◌-◌, ◌<◌, ◌≤◌, ◌^◌, ◌==◌, ◌&&◌, [], ◌∷◌, ◌++◌, length, min, not, if◌then◌else◌, OnOk};
ghost use Rattle.std.specs.List.{list_any, filter};
ghost use Rattle.std.specs.Map.{count_at};
ghost use Rattle.std.specs.HashMap.{get, spare};
ghost use Rattle.runtime_histories.specs.Deeds.{same_pair};
ghost use Rattle.module_counts.specs.Lives.{key_eq, pair_shown};

use crate::store::push_within;
use names_alias::Name;
use std::alloc::{AllocError, Global};
use std::collections::HashMap;
use std::marker::Model;

/// A live descriptor: the position of its opening, its caller, and its pair.
#[derive(Drop)]
pub struct Live {
    pub number: u64,
    pub caller: u32,
    pub generation: u32,
    pub from: Name,
    pub to: Name,
}

/// A pair, by which its live descriptors are counted.
#[derive(PartialEq, Eq, Hash, Drop)]
pub struct Key {
    pub generation: u32,
    pub from: Name,
    pub to: Name,
}

/// Live descriptors. Each entry has a slot, which holds its descriptor while that is live, and each pair
/// that was opened has the number of its live descriptors.
#[derive(Drop)]
pub struct Lives {
    slots: Vec<Option<Live>>,
    pairs: HashMap<Key, u64>,
    count: u64,
}

impl Model for Lives {
    ghost use Rattle.std.specs.Prelude.{◌-◌, length, vec_capacity};
    ghost use Rattle.std.specs.HashMap.{spare};
    ghost use Rattle.module_counts.specs.Lives.{Living, somes, AreLives, counts_of};

    ghost Value = { Living };

    ghost view = { λ l. record {
      items = somes l.slots.items;
      slots = length l.slots.items;
      left = vec_capacity l.slots - length l.slots.items;
      fresh = spare l.pairs;
    } };

    ghost invariant = { λ l. AreLives l.slots.items (counts_of l.pairs) l.count };
}

/// A pair of the first generation.
fn key_of(from: &Name, to: &Name) -> Key
    ensures { result ≡ record { generation = 0; from = from.now; to = to.now } }
{
    Key {
        generation: 0,
        from: from.copied(),
        to: to.copied(),
    }
}

/// Counts one more at a key, if it is new in room that is there.
fn add_one(pairs: &mut HashMap<Key, u64>, key: Key)
    requires room { 0 < spare pairs.old }
    requires small { count_at (get key_eq pairs.old) key + 1 < 2 ^ 64 }
    ensures counts { (q : Key) → count_at (get key_eq pairs.new) q
        ≡ (if key_eq key q then count_at (get key_eq pairs.old) key + 1 else count_at (get key_eq pairs.old) q) }
    ensures room { spare pairs.old ≤ spare pairs.new + 1 }
{
    let count = pairs.get(&key).copied().unwrap_or(0);
    match pairs.insert(key, count + 1) {
        Ok(_) => {}
        Err(_) => {}
    }
}

/// Counts one less at a key.
fn take_one(pairs: &mut HashMap<Key, u64>, key: &Key)
    requires some { 0 < count_at (get key_eq pairs.old) key.now }
    ensures counts { (q : Key) → count_at (get key_eq pairs.new) q
        ≡ (if key_eq key.now q then count_at (get key_eq pairs.old) key.now - 1 else count_at (get key_eq pairs.old) q) }
    ensures room { spare pairs.old ≤ spare pairs.new }
{
    if let Some(count) = pairs.get_mut(key) {
        *count -= 1;
    }
}

impl Lives {
    /// No entry, and no descriptor.
    pub fn new(alloc: Global) -> Lives
        ensures items { result.items ≡ [] }
        ensures slots { result.slots ≡ 0 }
    {
        Lives {
            slots: Vec::new(alloc),
            pairs: HashMap::new(alloc),
            count: 0,
        }
    }

    /// How many live descriptors there are.
    pub fn len(&self) -> u64
        ensures { result ≡ length self.now.items }
    {
        self.count
    }

    /// For how many further entries there is room.
    pub fn spare(&self) -> u64
        ensures { result ≡ min self.now.left (min (length self.now.items + 1 + self.now.fresh) (2 ^ 64 - 1)) }
    {
        let left = self.slots.capacity() - self.slots.len();
        let fresh = self.pairs.capacity() - self.pairs.len();
        let more = self.count.saturating_add(1).saturating_add(fresh as u64);
        more.min(left as u64)
    }

    /// Makes room for an opening and later closings of all descriptors.
    pub fn reserve(&mut self) -> Result<(), AllocError>
        requires few { length self.old.items + 2 < 2 ^ 64 }
        ensures ok { OnOk result ((length self.old.items + 2 ≤ self.new.left) × (1 ≤ self.new.fresh)) }
        ensures same { (self.new.items ≡ self.old.items) × (self.new.slots ≡ self.old.slots) }
        ensures room { (self.old.left ≤ self.new.left) × (self.old.fresh ≤ self.new.fresh) }
    {
        self.slots.reserve(self.count as usize + 2)?;
        self.pairs.reserve(1)
    }

    /// Whether a pair of the first generation has a live descriptor.
    pub fn has_pair(&self, from: &Name, to: &Name) -> bool
        ensures { result ≡ list_any (λ x. same_pair (pair_shown x)
            (record { generation = 0; from = from.now; to = to.now })) self.now.items }
    {
        let count = self.pairs.get(&key_of(from, to)).copied().unwrap_or(0);
        count > 0
    }

    /// Whether the number is that of a live descriptor of the caller.
    pub fn has(&self, caller: u32, number: u64) -> bool
        ensures { result ≡ list_any (λ x. (x.number == number) && (x.caller == caller)) self.now.items }
    {
        let place = number as usize;
        if place >= self.slots.len() {
            return false;
        }
        match &self.slots[place] {
            Some(live) => live.caller == caller,
            None => false,
        }
    }

    /// An entry that opens nothing.
    pub fn skip(&mut self)
        requires room { 0 < self.old.left }
        ensures items { self.new.items ≡ self.old.items }
        ensures slots { self.new.slots ≡ self.old.slots + 1 }
        ensures room { (self.old.left ≤ self.new.left + 1) × (self.new.fresh ≡ self.old.fresh) }
    {
        push_within(&mut self.slots, None);
    }

    /// An opening of a pair of the first generation.
    pub fn open(&mut self, caller: u32, from: &Name, to: &Name)
        requires room { (0 < self.old.left) × (0 < self.old.fresh) }
        requires few { self.old.slots < 2 ^ 32 }
        ensures items { self.new.items ≡ self.old.items ++ record {
          number = self.old.slots;
          caller = caller;
          generation = 0;
          from = from.now;
          to = to.now;
        } ∷ [] }
        ensures slots { self.new.slots ≡ self.old.slots + 1 }
        ensures room { (self.old.left ≤ self.new.left + 1) × (self.old.fresh ≤ self.new.fresh + 1) }
    {
        let number = self.slots.len() as u64;
        add_one(&mut self.pairs, key_of(from, to));
        self.count += 1;
        let live = Live {
            number,
            caller,
            generation: 0,
            from: from.copied(),
            to: to.copied(),
        };
        push_within(&mut self.slots, Some(live));
    }

    /// Leaves out the descriptor of a number.
    pub fn close(&mut self, number: u64)
        ensures items { self.new.items ≡ filter (λ x. not (x.number == number)) self.old.items }
        ensures slots { self.new.slots ≡ self.old.slots }
        ensures one { length self.old.items ≤ length self.new.items + 1 }
        ensures room { (self.new.left ≡ self.old.left) × (self.old.fresh ≤ self.new.fresh) }
    {
        let place = number as usize;
        if place >= self.slots.len() {
            return;
        }
        if let Some(live) = self.slots[place].take() {
            let Live {
                number: _,
                caller: _,
                generation,
                from,
                to,
            } = live;
            take_one(
                &mut self.pairs,
                &Key {
                    generation,
                    from,
                    to,
                },
            );
            self.count -= 1;
        }
    }
}
