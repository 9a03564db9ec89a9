//! Whole square roots.
ghost use Rattle.surf_geom.specs.Root.{IsRoot};

/// The greatest number whose square isn't above `s`. It takes no memory.
pub fn root(s: u128) -> u64
    ensures root { IsRoot s result }
{
    // Roots of numbers of 64 bits are found in half the steps.
    if s <= u64::MAX as u128 {
        (s as u64).isqrt()
    } else {
        s.isqrt() as u64
    }
}
