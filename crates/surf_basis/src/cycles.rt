//! The cycles of candidates.
ghost use Rattle.std.specs.Prelude.{◌≡◌, ◌<◌, ◌≤◌, ◌-◌, ℕ, [], false, All, IfOk, IsTrue, length, replicate, slice_index_or};
ghost use Rattle.surf_surfaces.specs.Surface.{edge_count};
ghost use Rattle.surf_tree.specs.Grown.{IsGrown as IsTreeGrown};
ghost use Rattle.surf_choice.specs.Candidates.{earlier};
ghost use Rattle.surf_choice.specs.declared.candidate.Signed.{Signed};
ghost use Rattle.surf_finder.specs.Walks.{IsMeasured};
ghost use Rattle.surf_basis.specs.Candidates.{IsInside, IsCycleOf, AreCyclesOf, ArePutIn, HaveWalks, cycles_with};

use crate::cycle::Cycle;
use std::alloc::Global;
use surf_base::NoMemory;
use surf_choice::{Candidate, Signed, comes_before};
use surf_finder::{Finder, no_walks};
use surf_lengths::Lengths;
use surf_loops::LoopDesk;
use surf_mesh::{HalfMesh, Walk};

// The cycle of a candidate at the base of the tree that a desk has.
pub(crate) fn cycle_of(
    alloc: Global,
    mesh: &HalfMesh,
    lengths: &Lengths,
    desk: &LoopDesk,
    candidate: Candidate,
) -> Result<Cycle, NoMemory>
    requires tree { IsTreeGrown mesh.now lengths.now candidate.base desk.now.tree }
    requires lengths { length lengths.now ≡ edge_count mesh.now }
    requires inside { IsInside mesh.now candidate }
    ensures cycle { IfOk result (λ cycle. IsCycleOf mesh.now lengths.now candidate cycle) }
{
    mesh.law_of_surface();
    lengths.law_of_lengths();
    let walk = desk.walk(alloc, mesh, candidate.edge)?;
    Ok(Cycle {
        base: candidate.base,
        edge: candidate.edge,
        length: candidate.length,
        walk,
    })
}

// The cycles of candidates with these walks, in order.
fn cycles_with(alloc: Global, kept: &[Signed], walks: Vec<Walk>) -> Result<Vec<Cycle>, NoMemory>
    ensures cycles { IfOk result (λ cycles. cycles.items ≡ cycles_with kept.now walks.items) }
{
    let pairs = kept.iter().zip(walks.into_iter());
    let cycles = pairs.map(|(signed, walk)| Cycle {
        base: signed.candidate.base,
        edge: signed.candidate.edge,
        length: signed.candidate.length,
        walk,
    });
    Ok(cycles.collect(alloc)?)
}

// How many of the first loops are left without those at their end that come after a candidate.
fn without_later(kept: &[Signed], count: usize, candidate: &Candidate) -> usize
    requires count { count ≤ length kept.now }
    ensures within { result ≤ count }
    ensures later { (k : ℕ) (s : Signed) → result ≤ k → k < count →
        IsTrue (earlier candidate.now (slice_index_or kept.now k s).candidate) }
    ensures stops { (s : Signed) → 0 < result →
        earlier candidate.now (slice_index_or kept.now (result - 1) s).candidate ≡ false }
{
    let mut left = count;
    while left > 0 && comes_before(candidate, &kept[left - 1].candidate) {
        left -= 1;
    }
    left
}

// Writes the walks of cycles for those of their loops that are still kept. The others are dropped.
// Both are in order, so that each place is looked at once.
fn put_walks(mut cycles: Vec<Cycle>, kept: &[Signed], walks: &mut [Walk])
    requires none { walks.old ≡ replicate (length kept.now) [] }
    ensures put { ArePutIn cycles.items kept.now walks.new }
{
    let mut left = kept.len();
    while let Some(cycle) = cycles.pop() {
        let candidate = Candidate {
            length: cycle.length,
            base: cycle.base,
            edge: cycle.edge,
        };
        left = without_later(kept, left, &candidate);
        if left > 0 && kept[left - 1].candidate == candidate {
            walks[left - 1] = cycle.walk;
        }
    }
}

// The cycles of candidates whose lengths are those of the loops of their edges, in order. Those
// that were there before keep their walks. The walks of the others are read off the last search, if
// it was at their base and went far enough, and else off one search near each base.
pub(crate) fn cycles_of(
    alloc: Global,
    finder: &mut Finder<'_>,
    kept: &[Signed],
    before: Vec<Cycle>,
) -> Result<Vec<Cycle>, NoMemory>
    requires measured { All (λ s. IsMeasured finder.old.mesh finder.old.lengths s.candidate)
        kept.now }
    requires before { HaveWalks finder.old.mesh finder.old.lengths before.items }
    ensures cycles { IfOk result (λ cycles. AreCyclesOf finder.old.mesh finder.old.lengths kept.now
        cycles.items) }
    ensures walks { IfOk result (λ cycles. HaveWalks finder.old.mesh finder.old.lengths
        cycles.items) }
    ensures same { finder.new ≡ finder.old }
{
    let mut walks = no_walks(alloc, kept.len())?;
    put_walks(before, kept, &mut walks);
    finder.write_walks(alloc, kept, &mut walks)?;
    cycles_with(alloc, kept, walks)
}
