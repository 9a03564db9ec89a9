//! The numbers of a line.
ghost use Rattle.std.specs.Prelude.{◌≡◌, ◌<◌, ◌^◌, IfOk, length};
ghost use Rattle.surf_cert.specs.Lines.{cert_number};
ghost use Rattle.surf_base.specs.Gives.{Gives};
ghost use Rattle.surf_class.specs.Numbers.{numbers_from};
ghost use Rattle.surf_class.specs.declared.numbers.NumberFault.TheVariants.{Memory};

use std::alloc::{AllocError, AllocFailed, Global};
use surf_text::{Tokens, read_whole};

/// Why tokens aren't numbers.
#[derive(Clone, Copy, Debug)]
pub(crate) enum NumberFault {
    /// The token at this place isn't a whole number of at most 4,294,967,295. Places are counted
    /// from 0.
    Bad { place: u32 },
    /// There was no memory.
    Memory,
}

impl<T: Drop> From<AllocFailed<T>> for NumberFault {
    ghost from_gives = { λ _ e. e ≡ Memory };

    fn from(_: AllocFailed<T>) -> NumberFault {
        NumberFault::Memory
    }
}

// The number that a token is.
fn read_number(token: &[u8]) -> Option<u32>
    ensures number { result ≡ cert_number token.now }
{
    match read_whole(token) {
        Some(n) if n <= 4_294_967_295 => Some(n as u32),
        _ => None,
    }
}

/// The numbers that the tokens to come are.
pub(crate) fn read_numbers(alloc: Global, mut tokens: Tokens<'_>) -> Result<Vec<u32>, NumberFault>
    requires few { length tokens.tokens < 2 ^ 32 }
    ensures numbers { Gives NumberFault.Memory (λ v. v.items) result
        (numbers_from 0 tokens.entry.tokens) }
    ensures few { IfOk result (λ v. length v.items < 2 ^ 32) }
{
    let mut numbers = Vec::new(alloc);
    while let Some(token) = tokens.next_token() {
        let Some(number) = read_number(token) else {
            return Err(NumberFault::Bad {
                place: numbers.len() as u32,
            });
        };
        numbers.push(number)?;
    }
    Ok(numbers)
}
