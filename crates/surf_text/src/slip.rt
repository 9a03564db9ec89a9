//! A short text that is put together before it goes on a page.
ghost use Rattle.std.specs.Prelude.{◌≡◌, ◌<◌, ◌≤◌, ◌+◌, [], ◌∷◌, ◌++◌, length, decimal};

use itoa::write_digits;
use std::marker::Model;

// How many bytes a slip has room for.
const ROOM: usize = 64;

/// A short text of up to 64 bytes. It is made from its end, since the digits of a number are found
/// from the last one on. It is seen as its bytes.
#[derive(Drop)]
pub struct Slip {
    bytes: [u8; ROOM],
    start: usize,
}

impl Model for Slip {
    ghost use Rattle.std.specs.Prelude.{◌≡◌, ◌≤◌, ℕ, List, length, drop};

    ghost Value = { List ℕ };

    ghost view = { λ s. drop s.start s.bytes };

    ghost invariant = { λ s. (s.start ≤ 64) × (length s.bytes ≡ 64) };
}

impl Slip {
    /// An empty slip.
    pub fn new() -> Slip
        ensures empty { result ≡ [] }
    {
        Slip {
            bytes: [0; ROOM],
            start: ROOM,
        }
    }

    /// Takes away what it holds, so that it serves for the next text.
    pub fn clear(&mut self)
        ensures empty { self.new ≡ [] }
    {
        self.start = ROOM;
    }

    /// How many bytes more it has room for.
    pub fn room(&self) -> usize
        ensures room { result + length self.now ≡ 64 }
    {
        self.start
    }

    /// Puts a byte before those that it holds.
    pub fn put_byte(&mut self, byte: u8)
        requires room { length self.old < 64 }
        ensures before { self.new ≡ byte ∷ self.old }
    {
        self.start -= 1;
        self.bytes[self.start] = byte;
    }

    /// Puts bytes before those that it holds.
    pub fn put_bytes(&mut self, bytes: &[u8])
        requires room { length bytes.now + length self.old ≤ 64 }
        ensures before { self.new ≡ bytes.now ++ self.old }
    {
        let end = self.start;
        self.start = end - bytes.len();
        self.bytes[self.start..end].copy_from_slice(bytes);
    }

    /// Puts the decimal text of a number before the bytes that it holds.
    pub fn put_whole(&mut self, n: u64)
        requires room { length (decimal n) + length self.old ≤ 64 }
        ensures before { self.new ≡ decimal n ++ self.old }
    {
        self.start = write_digits(n, &mut self.bytes, self.start);
    }

    /// What it holds.
    pub fn bytes(&self) -> &[u8]
        ensures bytes { result.now ≡ self.now }
    {
        &self.bytes[self.start..]
    }
}
