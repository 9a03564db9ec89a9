//! The decimals of a unit of length.
ghost use Rattle.std.specs.Prelude.{◌≡◌, ◌≤◌};
ghost use Rattle.surf_words.specs.Words.{few_decimals};

use std::marker::Model;

/// How many decimals the unit of a length has: at most 9.
#[derive(Clone, Copy, Debug)]
pub struct Decimals {
    count: u32,
}

impl Model for Decimals {
    ghost use Rattle.std.specs.Prelude.{◌≤◌, ℕ};

    ghost Value = { ℕ };

    ghost view = { λ d. d.count };

    ghost inverse = { λ n. record { count = n } };

    ghost invariant = { λ d. d.count ≤ 9 };
}

impl Decimals {
    /// A number of decimals, if it is at most 9.
    pub fn new(count: u32) -> Option<Decimals>
        ensures few { result ≡ few_decimals count }
    {
        if count <= 9 {
            Some(Decimals { count })
        } else {
            None
        }
    }

    /// How many they are.
    pub fn count(self) -> u32
        ensures count { result ≡ self }
        ensures few { result ≤ 9 }
    {
        self.count
    }
}
