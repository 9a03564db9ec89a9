//! Keys of loops: numbers that tell their classes.
ghost use Rattle.std.specs.Prelude.{◌≡◌, ◌⊎◌, ◌++◌, ◌∷◌, [], true, Contains, IfOk, IfSome, OnOk};
ghost use Rattle.surf_finder.specs.Keys.{IsOfKey};

use std::alloc::Global;
use std::marker::Model;
use surf_base::NoMemory;

// How many slots there are.
const SLOTS: u64 = 1024;

/// What tells the class of the loop of an edge: the numbers of the classes of the ways to its ends,
/// the lesser number first, and the kind of the edge.
#[derive(Clone, Copy)]
pub(crate) struct Key {
    pub low: u32,
    pub high: u32,
    pub kind: u32,
}

impl Key {
    /// The key of the numbers of two ways and of a kind.
    pub fn new(first: u32, second: u32, kind: u32) -> Key
        ensures kind { result.kind ≡ kind }
        ensures ways { ((result.low ≡ first) × (result.high ≡ second))
            ⊎ ((result.low ≡ second) × (result.high ≡ first)) }
    {
        if first <= second {
            Key {
                low: first,
                high: second,
                kind,
            }
        } else {
            Key {
                low: second,
                high: first,
                kind,
            }
        }
    }

    // Whether it is another one.
    fn is_same(&self, other: &Key) -> bool
        ensures same { result ≡ true → self.now ≡ other.now }
    {
        self.low == other.low && self.high == other.high && self.kind == other.kind
    }
}

/// A key that was met, and the place of the loop of its class that is listed. There is none where
/// the class is null.
#[derive(Clone, Copy)]
pub(crate) struct Noted {
    pub key: Key,
    pub place: Option<usize>,
}

/// The keys that a search has met. Each slot tells the place of one of them. What it tells is
/// looked at there, so it may be of an earlier search.
#[derive(Drop)]
pub(crate) struct Keys {
    noted: Vec<Noted>,
    slots: Vec<usize>,
}

impl Model for Keys {
    ghost use Rattle.std.specs.Prelude.{◌≡◌, List, length};
    ghost use Rattle.surf_finder.specs.declared.keys.Noted.{Noted};

    ghost Value = { List Noted };

    ghost view = { λ k. k.noted.items };

    ghost invariant = { λ k. length k.slots.items ≡ 1024 };
}

impl Keys {
    /// No keys.
    pub fn make(alloc: Global) -> Result<Keys, NoMemory>
        ensures none { IfOk result (λ keys. keys ≡ []) }
    {
        Ok(Keys {
            noted: Vec::new(alloc),
            slots: vec![in alloc; 0; SLOTS as usize]?,
        })
    }

    /// Forgets all keys.
    pub fn clear(&mut self)
        ensures none { self.new ≡ [] }
    {
        self.noted.clear();
    }

    // What was noted last where a hash leads.
    fn last(&self, hash: u64) -> Option<Noted>
        ensures noted { IfSome result (Contains self.now) }
    {
        let k = self.slots[(hash % SLOTS) as usize];
        if k < self.noted.len() {
            Some(self.noted[k])
        } else {
            None
        }
    }

    /// What was noted last where a hash leads, if it is of a key.
    pub fn find(&self, hash: u64, key: &Key) -> Option<Noted>
        ensures noted { IfSome result (Contains self.now) }
        ensures key { IfSome result (IsOfKey key.now) }
    {
        match self.last(hash) {
            Some(noted) if noted.key.is_same(key) => Some(noted),
            _ => None,
        }
    }

    /// The place of the loop that was noted last where a hash leads, if one was.
    pub fn place(&self, hash: u64) -> Option<usize>
        ensures place { IfSome result (λ k. (noted : Noted) × Contains self.now noted
            × (noted.place ≡ Some k)) }
    {
        self.last(hash)?.place
    }

    /// Notes a key where a hash leads.
    pub fn note(&mut self, hash: u64, noted: Noted) -> Result<(), NoMemory>
        ensures noted { OnOk result (self.new ≡ self.old ++ noted ∷ []) }
    {
        self.slots[(hash % SLOTS) as usize] = self.noted.len();
        self.noted.push(noted)?;
        Ok(())
    }
}
