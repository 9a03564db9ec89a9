//! A shortest cycle that doesn't separate the surface.
ghost use Rattle.std.specs.Prelude.{ℕ, ◌≡◌, ◌<◌, ◌≤◌, ◌↔◌, List, All, None, IfOk, IfSome, IsPermutation, length};
ghost use Rattle.std.specs.List.Sorted.{IsNonDecreasingBy};
ghost use Rattle.std.specs.Option.{option_map};
ghost use Rattle.surf_surfaces.specs.Surface.{edge_count, loop_count};
ghost use Rattle.surf_surfaces.specs.Homology.{IsLoopCount};
ghost use Rattle.surf_surfaces.specs.FewBases.{MeetsAll};
ghost use Rattle.surf_surfaces.specs.Choice.{Trees, AreChosen, candidates, loops_at};
ghost use Rattle.surf_tree.specs.Grown.{IsGrown as IsTreeGrown};
ghost use Rattle.surf_loops.specs.Loops.{AreLoopTables};
ghost use Rattle.surf_finder.specs.Found.{is_among};
ghost use Rattle.surf_finder.specs.Marks.{bits_backwards};
ghost use Rattle.surf_finder.specs.Signing.{AreSigned, signs_of};
ghost use Rattle.surf_basis.specs.Candidates.{first_head, loop_in, IsFirstPlace};
ghost use Rattle.surf_basis.specs.Cut.{AreToSearch, IsDividedBy};
ghost use Rattle.surf_basis.specs.Cycles.{first_of, IsFirstCandidate, IsShortestCycle, AllSeparate};
ghost use Rattle.surf_base.specs.declared.limits.TheConstants.{MAX_LOOPS};

use crate::cut::searched_vertices;
use crate::cycle::Cycle;
use crate::cycles::cycle_of;
use crate::desk::signed_desk;
use std::alloc::Global;
use surf_base::{NoMemory, VertexId};
use surf_choice::Candidate;
use surf_finder::{EdgeSigns, SignedSurface, scatter};
use surf_lengths::Lengths;
use surf_loops::LoopDesk;
use surf_mesh::HalfMesh;
use surf_search::first_among;

// The first candidate of a desk, if it has one.
fn first_of(desk: &LoopDesk) -> Option<Candidate>
    ensures first { result ≡ first_head desk.now }
{
    let [head, ..] = desk.heads() else {
        return None;
    };
    Some(Candidate {
        length: head.length,
        base: desk.tree().base(),
        edge: head.edge,
    })
}

// The length and the base of the first candidate, as those of the first loop that is found at some
// vertices, of which every closed walk that isn't null meets one. None where each is null.
fn first_place(
    alloc: Global,
    surface: &SignedSurface<'_>,
    vertices: &[VertexId],
    count: usize,
) -> Result<Option<Candidate>, NoMemory>
    requires lengths { length surface.now.lengths.now ≡ edge_count surface.now.mesh.now }
    requires signed { AreSigned surface.now.mesh.now surface.now.signatures.now count }
    requires vertices { All (λ v. v < surface.now.mesh.now.vertices) vertices.now }
    requires met { MeetsAll surface.now.mesh.now (is_among vertices.now) }
    ensures first { IfOk result (IsFirstPlace surface.now.mesh.now surface.now.lengths.now) }
{
    surface.mesh.law_of_surface();
    surface.lengths.law_of_lengths();
    first_among(alloc, surface, vertices)
}

// The vertices from which is searched, in an order that scatters them. So a short loop is met by one
// of the first searches, and those after it needn't go far.
fn scattered_vertices(
    alloc: Global,
    mesh: &HalfMesh,
    lengths: &Lengths,
    desk: &LoopDesk,
    signs: &EdgeSigns,
) -> Result<Vec<VertexId>, NoMemory>
    requires divided { IsDividedBy mesh.now desk.now }
    requires signs { signs.now ≡ signs_of desk.now.cotree }
    requires signed { (count : ℕ) × AreSigned mesh.now signs.now count }
    ensures inside { IfOk result (λ list. All (λ v. v < mesh.now.vertices) list.items) }
    ensures which { IfOk result (λ list. (vertices : List ℕ)
        × AreToSearch mesh.now lengths.now desk.now vertices × IsPermutation vertices list.items) }
    ensures met { IfOk result (λ list. MeetsAll mesh.now (is_among list.items)) }
    ensures scattered { IfOk result (λ list. IsNonDecreasingBy bits_backwards list.items) }
{
    let mut vertices = searched_vertices(alloc, mesh, lengths, desk, signs)?;
    scatter(&mut vertices);
    Ok(vertices)
}

// The length and the base of the first candidate at any base. The trees are let go of as soon as
// edges are signed, and so is what it is found by, so that its memory is free for the desk of its
// loop.
fn place_of_first(
    alloc: Global,
    mesh: &HalfMesh,
    lengths: &Lengths,
) -> Result<Option<Candidate>, NoMemory>
    requires lengths { length lengths.now ≡ edge_count mesh.now }
    requires few { loop_count mesh.now ≤ MAX_LOOPS }
    ensures first { IfOk result (IsFirstPlace mesh.now lengths.now) }
{
    mesh.law_of_surface();
    lengths.law_of_lengths();
    let (desk, signs) = signed_desk(alloc, mesh, lengths)?;
    let vertices = scattered_vertices(alloc, mesh, lengths, &desk, &signs)?;
    drop(desk);
    let count = signs.left().len();
    let surface = SignedSurface {
        mesh,
        lengths,
        signatures: &signs,
    };
    first_place(alloc, &surface, &vertices, count)
}

// The first loop at a base.
fn first_at(
    mesh: &HalfMesh,
    lengths: &Lengths,
    base: VertexId,
    desk: &mut LoopDesk,
) -> Option<Candidate>
    requires made { AreLoopTables mesh.now desk.old }
    requires base { base < mesh.now.vertices }
    requires lengths { length lengths.now ≡ edge_count mesh.now }
    ensures first { (trees : ℕ → Trees) → AreChosen mesh.now lengths.now trees →
        option_map (loop_in mesh.now trees) result
        ≡ first_of (loops_at mesh.now lengths.now base (trees base)) }
    ensures tree { IfSome result (λ c. IsTreeGrown mesh.now lengths.now c.base desk.new.tree) }
{
    mesh.law_of_surface();
    lengths.law_of_lengths();
    desk.greedy(mesh, lengths, base);
    first_of(desk)
}

// The first candidate at any base, by its place.
fn first_candidate(
    mesh: &HalfMesh,
    lengths: &Lengths,
    place: Option<Candidate>,
    desk: &mut LoopDesk,
) -> Option<Candidate>
    requires made { AreLoopTables mesh.now desk.old }
    requires lengths { length lengths.now ≡ edge_count mesh.now }
    requires place { IsFirstPlace mesh.now lengths.now place }
    ensures first { (trees : ℕ → Trees) → AreChosen mesh.now lengths.now trees →
        option_map (loop_in mesh.now trees) result
        ≡ first_of (candidates mesh.now lengths.now trees) }
    ensures tree { IfSome result (λ c. IsTreeGrown mesh.now lengths.now c.base desk.new.tree) }
{
    mesh.law_of_surface();
    lengths.law_of_lengths();
    let Some(place) = place else {
        return None;
    };
    first_at(mesh, lengths, place.base, desk)
}

/// The first candidate for a basis, a simple cycle that doesn't separate the surface, such that
/// none is shorter. None exactly where the characteristic is 2: on a sphere every simple cycle
/// separates.
pub fn least_nonseparating(
    alloc: Global,
    mesh: &HalfMesh,
    lengths: &Lengths,
) -> Result<Option<Cycle>, NoMemory>
    requires lengths { length lengths.now ≡ edge_count mesh.now }
    requires few { loop_count mesh.now ≤ MAX_LOOPS }
    ensures first { IfOk result (λ found. IsFirstCandidate mesh.now lengths.now found) }
    ensures shortest { IfOk result (λ found. IfSome found
        (λ cycle. IsShortestCycle mesh.now lengths.now cycle)) }
    ensures none { IfOk result (λ found. (found ≡ None) ↔ IsLoopCount mesh.now 0) }
    ensures separate { IfOk result (λ found. (found ≡ None) ↔ AllSeparate mesh.now) }
{
    mesh.law_of_surface();
    lengths.law_of_lengths();
    let place = place_of_first(alloc, mesh, lengths)?;
    let mut desk = LoopDesk::make(alloc, mesh)?;
    let Some(candidate) = first_candidate(mesh, lengths, place, &mut desk) else {
        return Ok(None);
    };
    let cycle = cycle_of(alloc, mesh, lengths, &desk, candidate)?;
    Ok(Some(cycle))
}
