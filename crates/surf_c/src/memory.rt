//! A shelf of the caller's files, and a sink that grows.
ghost use Rattle.std.specs.Prelude.{◌≡◌, [], min, Some, None, MatchOption, length, take, drop};
ghost use Rattle.surf_base.specs.Outside.{bytes_of};
ghost use Rattle.surf_c.specs.Calls.{three};

use std::alloc::Global;
use surf_base::{Failed, Shelf, Sink};

/// The three files of a call, by the names 1, 2 and 3. No read of them fails.
#[derive(Drop)]
pub(crate) struct ThreeFiles<'a> {
    first: &'a [u8],
    second: &'a [u8],
    third: &'a [u8],
    current: &'a [u8],
    begun: bool,
    at: usize,
}

impl<'a> ThreeFiles<'a> {
    /// These files, with none begun.
    pub(crate) fn new(first: &'a [u8], second: &'a [u8], third: &'a [u8]) -> ThreeFiles<'a>
        ensures first { result.first.now ≡ first.now }
        ensures second { result.second.now ≡ second.now }
        ensures third { result.third.now ≡ third.now }
    {
        ThreeFiles {
            first,
            second,
            third,
            current: first,
            begun: false,
            at: 0,
        }
    }
}

fn find<'a>(first: &'a [u8], second: &'a [u8], third: &'a [u8], name: &str) -> Option<&'a [u8]>
    ensures found { MatchOption result (bytes_of (three first.now second.now third.now) name.now
        ≡ None) (λ file. bytes_of (three first.now second.now third.now) name.now ≡ Some file.now) }
{
    if name == "1" {
        Some(first)
    } else if name == "2" {
        Some(second)
    } else if name == "3" {
        Some(third)
    } else {
        None
    }
}

// Copies as much of a slice as fits, and says how much that is.
fn copy_front(from: &[u8], into: &mut [u8]) -> usize
    ensures count { result ≡ min (length into.old) (length from.now) }
    ensures copied { take result into.new ≡ take result from.now }
{
    let n = into.len().min(from.len());
    into[..n].copy_from_slice(&from[..n]);
    n
}

impl<'a> Shelf for ThreeFiles<'a> {
    ghost holds = { λ s. Some (three s.first.now s.second.now s.third.now) };

    ghost begun = { λ s. s.begun };

    ghost left = { λ s. Some (drop s.at s.current.now) };

    ghost given = { λ s. s.at };

    ghost faults = { λ _. 0 };

    fn begin(&mut self, name: &str) -> Result<(), Failed> {
        self.at = 0;
        self.begun = false;
        match find(self.first, self.second, self.third, name) {
            Some(file) => {
                self.current = file;
                self.begun = true;
                Ok(())
            }
            None => Err(Failed),
        }
    }

    fn read(&mut self, into: &mut [u8]) -> Result<usize, Failed> {
        if self.at >= self.current.len() {
            return Ok(0);
        }
        let n = copy_front(&self.current[self.at..], into);
        self.at += n;
        Ok(n)
    }
}

/// What is written, for which memory is taken as it comes.
#[derive(Drop)]
pub(crate) struct GrowingSink {
    pub(crate) bytes: Vec<u8>,
    pub(crate) faults: u64,
}

impl GrowingSink {
    /// Nothing so far.
    pub(crate) fn new(alloc: Global) -> GrowingSink
        ensures bytes { result.bytes.items ≡ [] }
        ensures faults { result.faults ≡ 0 }
    {
        GrowingSink {
            bytes: Vec::new(alloc),
            faults: 0,
        }
    }
}

impl Sink for GrowingSink {
    ghost written = { λ s. Some s.bytes.items };

    ghost faults = { λ s. s.faults };

    fn write(&mut self, bytes: &[u8]) -> Result<usize, Failed> {
        if self.bytes.extend_from_slice(bytes).is_err() {
            self.faults = self.faults.saturating_add(1);
            return Err(Failed);
        }
        Ok(bytes.len())
    }
}
