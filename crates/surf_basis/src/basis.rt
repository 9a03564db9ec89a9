//! The least basis, kept base by base.
ghost use Rattle.std.specs.Prelude.{◌≡◌, ◌<◌, ◌≤◌, ◌^◌, [], All, IfOk, OnOk, IfSome, length};
ghost use Rattle.surf_surfaces.specs.Surface.{edge_count, IsSurface, loop_count};
ghost use Rattle.surf_surfaces.specs.Walk.{ArePositive};
ghost use Rattle.surf_surfaces.specs.Homology.{IsLoopCount};
ghost use Rattle.surf_surfaces.specs.FewBases.{AreBases, MeetsAll};
ghost use Rattle.surf_surfaces.specs.ChoiceLaws.{LeastSimpleBasis};
ghost use Rattle.surf_basis.specs.Candidates.{AreCyclesOf};
ghost use Rattle.surf_basis.specs.Cycles.{first_of, IsFirstCandidate, IsShortestCycle, IsTheBasis, as_loops};
ghost use Rattle.surf_finder.specs.Found.{is_among, surface_of};
ghost use Rattle.surf_basis.specs.Kept.{AreKeptOver, HasBases};
ghost use Rattle.surf_search.specs.Places.{HavePlacesOfBasis};
ghost use Rattle.surf_finder.specs.Signing.{AreSigned};
ghost use Rattle.surf_base.specs.declared.limits.TheConstants.{MAX_LOOPS};

use crate::base_loops::{list_lengths, loops_at};
use crate::bases::bases_of;
use crate::cut::searched_vertices;
use crate::cycle::Cycle;
use crate::cycles::cycles_of;
use crate::desk::signed_desk;
use std::alloc::Global;
use surf_base::{NoMemory, VertexId};
use surf_choice::{Choice, Signed};
use surf_finder::{Finder, SignedSurface};
use surf_lengths::Lengths;
use surf_mesh::HalfMesh;
use surf_search::sufficient_loops;

// Makes the choice from those loops at some bases that have the lengths of candidates there, and
// gives the cycles of the loops that are kept. They are read off the search at their base, while
// its tables stand.
fn choose(
    alloc: Global,
    finder: &mut Finder<'_>,
    found: &[Signed],
    bases: &[VertexId],
    least: &mut Choice,
    choice: &mut Choice,
) -> Result<Vec<Cycle>, NoMemory>
    requires signed { AreSigned finder.old.mesh finder.old.signs choice.old.width }
    requires width { least.old.width ≡ choice.old.width }
    requires positive { IsSurface finder.old.mesh × ArePositive finder.old.mesh finder.old.lengths }
    requires few { (finder.old.mesh.vertices < 2 ^ 32) × (edge_count finder.old.mesh ≤ 2 ^ 32) }
    requires bases { AreBases finder.old.mesh bases.now }
    requires has { HasBases bases.now found.now }
    requires none { choice.old.kept ≡ [] }
    ensures kept { OnOk result (AreKeptOver finder.old.mesh finder.old.lengths finder.old.signs
        found.now bases.now (length bases.now) choice.new.kept) }
    ensures cycles { IfOk result (λ cycles. AreCyclesOf finder.old.mesh finder.old.lengths
        choice.new.kept cycles.items) }
    ensures same { finder.new ≡ finder.old }
{
    let mut lengths = Vec::new(alloc);
    let mut based = Vec::new(alloc);
    let mut loops = Vec::new(alloc);
    let mut cycles = Vec::new(alloc);
    for base in bases {
        list_lengths(found, *base, &mut lengths)?;
        loops_at(finder, least, *base, &lengths, &mut based, &mut loops)?;
        choice.keep(&loops)?;
        cycles = cycles_of(alloc, finder, choice.kept(), cycles)?;
    }
    Ok(cycles)
}

// The basis that is chosen, from loops among whose lengths and least bases are those of its loops.
fn basis_from(
    alloc: Global,
    surface: &SignedSurface<'_>,
    finder: &mut Finder<'_>,
    found: &[Signed],
    count: usize,
) -> Result<Vec<Cycle>, NoMemory>
    requires finder { finder.old ≡ surface_of surface.now }
    requires lengths { length surface.now.lengths.now ≡ edge_count surface.now.mesh.now }
    requires signed { AreSigned surface.now.mesh.now surface.now.signatures.now count }
    requires inside { All (λ s. s.candidate.base < surface.now.mesh.now.vertices) found.now }
    requires places { HavePlacesOfBasis surface.now.mesh.now surface.now.lengths.now found.now }
    requires few { count ≤ MAX_LOOPS }
    ensures chosen { IfOk result (λ cycles. IsTheBasis surface.now.mesh.now surface.now.lengths.now
        (as_loops cycles.items)) }
{
    surface.mesh.law_of_surface();
    surface.lengths.law_of_lengths();
    let bases = bases_of(alloc, surface.mesh, found)?;
    let mut least = Choice::make(alloc, count as u32)?;
    let mut choice = Choice::make(alloc, count as u32)?;
    choose(alloc, finder, found, &bases, &mut least, &mut choice)
}

// The basis that is chosen, on a surface with signatures, where as many cycles as given make it. It
// is found from vertices of which every closed walk that isn't null meets one.
fn basis_over(
    alloc: Global,
    surface: &SignedSurface<'_>,
    vertices: &[VertexId],
    count: usize,
) -> Result<Vec<Cycle>, NoMemory>
    requires lengths { length surface.now.lengths.now ≡ edge_count surface.now.mesh.now }
    requires signed { AreSigned surface.now.mesh.now surface.now.signatures.now count }
    requires vertices { All (λ v. v < surface.now.mesh.now.vertices) vertices.now }
    requires left { All (λ e. e < edge_count surface.now.mesh.now)
        surface.now.signatures.now.left }
    requires met { MeetsAll surface.now.mesh.now (is_among vertices.now) }
    requires full { IsLoopCount surface.now.mesh.now count }
    requires few { count ≤ MAX_LOOPS }
    ensures chosen { IfOk result (λ cycles. IsTheBasis surface.now.mesh.now surface.now.lengths.now
        (as_loops cycles.items)) }
{
    let mut finder = Finder::make(alloc, surface)?;
    let edges = surface.signatures.left();
    let search = sufficient_loops(alloc, surface, vertices, edges, &mut finder, count)?;
    basis_from(alloc, surface, &mut finder, search.kept(), count)
}

/// The basis that is chosen: two less the characteristic independent closed walks, each a simple
/// cycle, and no such walks total less. They are in the order of length, base and edge, so the
/// first is a shortest cycle that doesn't separate the surface, the one that `least_nonseparating`
/// gives. On a sphere it has none.
pub fn least_basis(
    alloc: Global,
    mesh: &HalfMesh,
    lengths: &Lengths,
) -> Result<Vec<Cycle>, NoMemory>
    requires lengths { length lengths.now ≡ edge_count mesh.now }
    requires few { loop_count mesh.now ≤ MAX_LOOPS }
    ensures chosen { IfOk result (λ cycles. IsTheBasis mesh.now lengths.now
        (as_loops cycles.items)) }
    ensures least { IfOk result (λ cycles. LeastSimpleBasis mesh.now lengths.now
        (as_loops cycles.items)) }
    ensures first { IfOk result (λ cycles. IsFirstCandidate mesh.now lengths.now
        (first_of cycles.items)) }
    ensures shortest { IfOk result (λ cycles. IfSome (first_of cycles.items)
        (λ cycle. IsShortestCycle mesh.now lengths.now cycle)) }
{
    mesh.law_of_surface();
    lengths.law_of_lengths();
    let (desk, signs) = signed_desk(alloc, mesh, lengths)?;
    let count = signs.left().len();
    if count == 0 {
        return Ok(Vec::new(alloc));
    }
    let vertices = searched_vertices(alloc, mesh, lengths, &desk, &signs)?;
    drop(desk);
    let surface = SignedSurface {
        mesh,
        lengths,
        signatures: &signs,
    };
    basis_over(alloc, &surface, &vertices, count)
}
