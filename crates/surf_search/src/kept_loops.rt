//! Loops in order, and what is kept of them.
ghost use Rattle.std.specs.Prelude.{◌≡◌, ◌<◌, ◌^◌, All, IsPermutation, length, OnOk};
ghost use Rattle.std.specs.List.Sorted.{IsNonDecreasingBy};
ghost use Rattle.surf_choice.specs.Places.{order_of};
ghost use Rattle.surf_search.specs.Kept.{IsNext};

use surf_base::NoMemory;
use surf_choice::{Choice, Signed};

// What loops are sorted by: the length, the base and the number of the edge.
fn order_of(signed: &Signed) -> u128
    ensures order { result ≡ order_of signed.now }
{
    let candidate = &signed.candidate;
    (u128::from(candidate.length) << 64)
        + (u128::from(candidate.base.number()) << 32)
        + u128::from(candidate.edge.number())
}

// Puts loops into order.
pub(crate) fn sort_loops(found: &mut [Signed])
    ensures same { IsPermutation found.old found.new }
    ensures sorted { IsNonDecreasingBy order_of found.new }
{
    found.sort_unstable_by_key(|signed| order_of(signed));
}

// Keeps of the loops at a vertex what is independent of those before.
pub fn keep_loops(found: &mut [Signed], choice: &mut Choice) -> Result<(), NoMemory>
    requires small { All (λ s. s.signature < 2 ^ choice.old.width) found.old }
    ensures next { OnOk result (IsNext choice.old found.old choice.new) }
    ensures width { choice.new.width ≡ choice.old.width }
{
    if found.is_empty() {
        return Ok(());
    }
    sort_loops(found);
    choice.keep(found)
}
