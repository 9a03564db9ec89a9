//! Sets of numbers that are joined.
//!
//! Each number has a parent, which is no greater. A number that is its own parent is a root, and
//! the least of its set; the others of the set lead to it. On the way to a root each second number
//! gets a parent further up, as in R. E. Tarjan and J. van Leeuwen, "Worst-case analysis of set
//! union algorithms" (1984).
ghost use Rattle.std.specs.Prelude.{◌≡◌, ◌≢◌, ◌<◌, ℕ, length, slice_index, IfOk, MatchOption};
ghost use Rattle.std.specs.List.{range_with_len};
ghost use Rattle.surf_soup.specs.Forest.{Falls, HasRoots, merged};

use std::alloc::Global;
use surf_base::NoMemory;

/// Each number below a count as its own parent.
pub(crate) fn lone_numbers(alloc: Global, count: u32) -> Result<Vec<u32>, NoMemory>
    ensures { IfOk result (λ v. v.items ≡ range_with_len 0 count) }
{
    let mut parents = Vec::with_capacity(alloc, count as usize)?;
    for number in 0..count {
        parents.push(number)?;
    }
    Ok(parents)
}

// The root of a number.
fn root_of(parents: &mut [u32], of: u32) -> u32
    requires inside { of < length parents.old }
    requires falls { Falls parents.old }
    ensures falls { Falls parents.new }
    ensures inside { result < length parents.new }
    ensures same { (root : ℕ → ℕ) → HasRoots parents.old root →
        HasRoots parents.new root × (result ≡ root of) }
{
    let mut number = of;
    while parents[number as usize] != number {
        let above = parents[parents[number as usize] as usize];
        parents[number as usize] = above;
        number = above;
    }
    number
}

/// Joins the sets of two numbers.
pub(crate) fn join(parents: &mut [u32], first: u32, second: u32)
    requires first { first < length parents.old }
    requires second { second < length parents.old }
    requires falls { Falls parents.old }
    ensures falls { Falls parents.new }
    ensures joined { (root : ℕ → ℕ) → HasRoots parents.old root →
        HasRoots parents.new (merged root first second) }
{
    let a = root_of(parents, first);
    let b = root_of(parents, second);
    if a < b {
        parents[b as usize] = a;
    } else {
        parents[a as usize] = b;
    }
}

/// The least root but 0.
pub(crate) fn second_root(parents: &[u32]) -> Option<u32>
    ensures { MatchOption result ((f : ℕ) → 0 < f → f < length parents.now →
        slice_index parents.now f ≢ f) (λ f. (0 < f) × (f < length parents.now)
        × (slice_index parents.now f ≡ f)
        × ((g : ℕ) → 0 < g → g < f → slice_index parents.now g ≢ g)) }
{
    for number in 1..parents.len() {
        if parents[number] as usize == number {
            return Some(parents[number]);
        }
    }
    None
}
