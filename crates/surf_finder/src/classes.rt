//! Classes by number, which are found by their hashes.
ghost use Rattle.std.specs.Prelude.{ℕ, ◌≡◌, ◌<◌, ◌≤◌, ◌+◌, ◌^◌, IfOk, IfSome, OnOk, length, slice_index};

use std::alloc::Global;
use std::marker::Model;
use surf_base::{NOBODY, NoMemory};
use surf_bits::Signature;

// How many chains there are.
const CHAINS: u64 = 1024;

// What a class has in its chain: its hash, and the number of the class behind it.
#[derive(Clone, Copy)]
struct Member {
    hash: u64,
    next: u32,
}

// The chain of a hash.
fn chain_of(hash: u64) -> usize
    ensures chain { result < 1024 }
{
    (hash % CHAINS) as usize
}

// Empties the chains that classes are in: in most searches these are few of all.
fn forget_chains(members: &[Member], firsts: &mut [u32])
    requires chains { length firsts.old ≡ 1024 }
    ensures count { length firsts.new ≡ length firsts.old }
{
    for member in members {
        firsts[chain_of(member.hash)] = NOBODY;
    }
}

/// Classes in the order in which they came. Each is in the chain of its hash, so that it is found
/// again. The class that came last is the first there: the ways to vertices that are settled one
/// after the other often have one class.
#[derive(Drop)]
pub(crate) struct Classes {
    list: Vec<Signature>,
    members: Vec<Member>,
    firsts: Vec<u32>,
}

impl Model for Classes {
    ghost use Rattle.std.specs.Prelude.{ℕ, List, ◌≡◌, ◌≤◌, length};

    ghost Value = { List ℕ };

    ghost view = { λ c. c.list.items };

    ghost invariant = { λ c. (length c.list.items ≤ length c.members.items)
        × (length c.firsts.items ≡ 1024) };
}

impl Classes {
    /// No classes.
    pub fn make(alloc: Global) -> Result<Classes, NoMemory> {
        Ok(Classes {
            list: Vec::new(alloc),
            members: Vec::new(alloc),
            firsts: vec![in alloc; NOBODY; CHAINS as usize]?,
        })
    }

    /// Forgets all classes, and gives that of no edge number 0.
    pub fn begin(&mut self) -> Result<(), NoMemory>
        ensures some { OnOk result (0 < length self.new) }
        ensures none { OnOk result (slice_index self.new 0 ≡ 0) }
        ensures one { length self.new ≤ 1 }
    {
        forget_chains(&self.members, &mut self.firsts);
        self.list.clear();
        self.members.clear();
        self.members.push(Member {
            hash: 0,
            next: NOBODY,
        })?;
        self.list.push(Signature::zero())?;
        self.firsts[0] = 0;
        Ok(())
    }

    /// A class.
    pub fn class(&self, number: u32) -> &Signature
        requires number { number < length self.now }
        ensures class { result.now ≡ slice_index self.now number }
    {
        &self.list[number as usize]
    }

    /// The hash of a class.
    pub fn hash(&self, number: u32) -> u64
        requires number { number < length self.now }
    {
        self.members[number as usize].hash
    }

    // The number of a class of a hash, if it is in its chain.
    fn find(&self, class: &Signature, hash: u64) -> Option<u32>
        ensures found { IfSome result (λ k. (k < length self.now)
            × (slice_index self.now k ≡ class.now)) }
    {
        let mut number = self.firsts[chain_of(hash)];
        for _step in 0..self.list.len() {
            let k = number as usize;
            if k >= self.list.len() {
                return None;
            }
            let member = self.members[k];
            if member.hash == hash && self.list[k].bits().is_same(&class.bits()) {
                return Some(number);
            }
            number = member.next;
        }
        None
    }

    /// The number of a class of a hash, which is listed if it wasn't found.
    pub fn number_of(&mut self, class: Signature, hash: u64) -> Result<u32, NoMemory>
        requires few { length self.old < 2 ^ 32 }
        ensures number { IfOk result (λ k. (k < length self.new)
            × (slice_index self.new k ≡ class)) }
        ensures more { length self.old ≤ length self.new }
        ensures one { length self.new ≤ length self.old + 1 }
        ensures same { (k : ℕ) → k < length self.old → slice_index self.new k
            ≡ slice_index self.old k }
    {
        if let Some(number) = self.find(&class, hash) {
            return Ok(number);
        }
        let chain = chain_of(hash);
        let number = self.list.len() as u32;
        let next = self.firsts[chain];
        self.members.push(Member { hash, next })?;
        self.list.push(class)?;
        self.firsts[chain] = number;
        Ok(number)
    }
}
