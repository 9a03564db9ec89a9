//! Searches in rounds, each for longer loops, at each vertex no farther than they have to go.
ghost use Rattle.std.specs.Prelude.{◌≡◌, ◌<◌, ◌≤◌, ◌^◌, ◌+◌, ◌*◌, ◌/◌, ◌⊎◌, ℕ, [], All, IfOk, OnOk, length, min};
ghost use Rattle.surf_surfaces.specs.Homology.{IsLoopCount};
ghost use Rattle.surf_surfaces.specs.Surface.{edge_count};
ghost use Rattle.surf_surfaces.specs.FewBases.{MeetsAll};
ghost use Rattle.surf_finder.specs.Found.{surface_of, is_among};
ghost use Rattle.surf_search.specs.Places.{HavePlacesOfBasis};
ghost use Rattle.surf_search.specs.Rounds.{AreCapped, AreKeptUpTo, AreNoLess, AreRaisedTo, cap_at, in_caps, is_limit_below, most_at_first};
ghost use Rattle.surf_choice.specs.Places.{limit_of};
ghost use Rattle.surf_finder.specs.Signing.{AreSigned};
ghost use Rattle.surf_base.specs.declared.limits.TheConstants.{MAX_LOOPS};

use crate::caps::raise_caps;
use crate::costs::{Costs, is_cut_cheaper};
use crate::probes::probe_all;
use crate::round::{has_many_edges, keep_at, search_rising};
use std::alloc::Global;
use surf_base::{EdgeId, NoMemory, VertexId};
use surf_choice::Choice;
use surf_finder::{Finder, SignedSurface};
use surf_mesh::HalfMesh;
use surf_tree::even_length;

/// What all rounds go by: a surface, vertices of a cut, and what searches cost.
#[derive(Clone, Copy)]
struct Plan<'s, 'v, 'c, 'a> {
    surface: &'s SignedSurface<'a>,
    vertices: &'v [VertexId],
    costs: Costs<'c>,
}

// Raises the caps of vertices with many edges to a length. Whoever comes to such a vertex comes to
// all around it, so one search from it, which bars it to those to come, spares each of them much.
fn raise_hubs(mesh: &HalfMesh, most: u64, caps: &mut [u64])
    requires caps { length caps.old ≡ mesh.now.vertices }
    ensures more { AreNoLess caps.old caps.new }
    ensures count { length caps.new ≡ length caps.old }
{
    for v in 0..mesh.vertices() {
        let vertex = VertexId::new(v);
        if has_many_edges(mesh, vertex) {
            caps[vertex.index()] = caps[vertex.index()].max(most);
        }
    }
}

// A copy of caps, raised to what edges ask for by what is kept, though to no more than a length.
fn raised_caps(
    alloc: Global,
    surface: &SignedSurface<'_>,
    choice: &Choice,
    most: u64,
    reached: &[u64],
) -> Result<Vec<u64>, NoMemory>
    requires reached { length reached.now ≡ surface.now.mesh.now.vertices }
    requires signed { AreSigned surface.now.mesh.now surface.now.signatures.now choice.now.width }
    ensures capped { IfOk result (λ caps. AreCapped surface.now.mesh.now surface.now.signatures.now
        choice.now.kept most caps.items) }
    ensures count { IfOk result (λ caps. length caps.items ≡ length reached.now) }
{
    let mut caps = reached.to_vec(alloc)?;
    raise_hubs(surface.mesh, most, &mut caps);
    raise_caps(alloc, surface, choice, most, &mut caps)?;
    Ok(caps)
}

// A copy of caps, raised to a length at the vertices of a list.
fn cut_caps(
    alloc: Global,
    mesh: &HalfMesh,
    vertices: &[VertexId],
    most: u64,
    reached: &[u64],
) -> Result<Vec<u64>, NoMemory>
    requires reached { length reached.now ≡ mesh.now.vertices }
    requires vertices { All (λ v. v < length reached.now) vertices.now }
    ensures cut { IfOk result (λ caps. All (λ v. most ≤ cap_at caps.items v) vertices.now) }
    ensures count { IfOk result (λ caps. length caps.items ≡ length reached.now) }
{
    let mut caps = reached.to_vec(alloc)?;
    raise_hubs(mesh, most, &mut caps);
    for v in vertices {
        caps[v.index()] = caps[v.index()].max(most);
    }
    Ok(caps)
}

// The caps of a round that seeks what is no longer than a length: those that edges ask for by what
// is kept, or those of a cut, whichever cost less.
fn round_caps(
    alloc: Global,
    plan: &Plan<'_, '_, '_, '_>,
    most: u64,
    reached: &[u64],
    choice: &Choice,
) -> Result<Vec<u64>, NoMemory>
    requires reached { length reached.now ≡ plan.now.surface.now.mesh.now.vertices }
    requires vertices { All (λ v. v < plan.now.surface.now.mesh.now.vertices)
        plan.now.vertices.now }
    requires signed { AreSigned plan.now.surface.now.mesh.now plan.now.surface.now.signatures.now
        choice.now.width }
    ensures capped { IfOk result (λ caps.
        AreCapped plan.now.surface.now.mesh.now plan.now.surface.now.signatures.now choice.now.kept
        most caps.items ⊎ All (λ v. most ≤ cap_at caps.items v) plan.now.vertices.now) }
    ensures count { IfOk result (λ caps. length caps.items ≡ length reached.now) }
{
    let caps = raised_caps(alloc, plan.surface, choice, most, reached)?;
    let cut = cut_caps(alloc, plan.surface.mesh, plan.vertices, most, reached)?;
    if is_cut_cheaper(&plan.costs, &choice.limit(), reached, &cut, &caps) {
        return Ok(cut);
    }
    Ok(caps)
}

// Raises all caps to a length, where they are less.
fn raise_to(most: u64, reached: &mut [u64])
    ensures raised { AreRaisedTo most reached.old reached.new }
{
    for v in 0..reached.len() {
        reached[v] = reached[v].max(most);
    }
}

// A round, which finds what is no longer than a length.
fn run_round(
    alloc: Global,
    plan: &Plan<'_, '_, '_, '_>,
    finder: &mut Finder<'_>,
    most: u64,
    reached: &mut [u64],
    choice: &mut Choice,
) -> Result<(), NoMemory>
    requires finder { finder.old ≡ surface_of plan.now.surface.now }
    requires lengths { length plan.now.surface.now.lengths.now
        ≡ edge_count plan.now.surface.now.mesh.now }
    requires vertices { All (λ v. v < plan.now.surface.now.mesh.now.vertices)
        plan.now.vertices.now }
    requires met { MeetsAll plan.now.surface.now.mesh.now (is_among plan.now.vertices.now) }
    requires reached { length reached.old ≡ plan.now.surface.now.mesh.now.vertices }
    requires signed { AreSigned plan.now.surface.now.mesh.now plan.now.surface.now.signatures.now
        choice.old.width }
    requires kept { AreKeptUpTo (surface_of plan.now.surface.now) (in_caps reached.old) choice.old }
    ensures kept { OnOk result (AreKeptUpTo (surface_of plan.now.surface.now) (in_caps reached.new)
        choice.new) }
    ensures least { OnOk result ((v : ℕ) → v < length reached.new → most ≤ cap_at reached.new v) }
    ensures count { length reached.new ≡ length reached.old }
    ensures width { choice.new.width ≡ choice.old.width }
    ensures same { finder.new ≡ finder.old }
{
    plan.surface.mesh.law_of_surface();
    plan.surface.lengths.law_of_lengths();
    let caps = round_caps(alloc, plan, most, reached, choice)?;
    search_rising(alloc, plan.surface, finder, &caps, reached, choice)?;
    raise_to(most, reached);
    Ok(())
}

// Four times the length of the first loop that is kept.
fn first_most(choice: &Choice) -> u64
    ensures first { result ≡ most_at_first choice.now.kept }
{
    match choice.kept() {
        [first, ..] => first.candidate.length.saturating_mul(4),
        [] => u64::MAX,
    }
}

// Four times a length, or the length of the first longer loop that is kept, whichever is more.
fn next_most(choice: &Choice, most: u64) -> u64
    ensures more { min (most * 4) 18446744073709551615 ≤ result }
{
    let next = most.saturating_mul(4);
    for signed in choice.kept() {
        let length = signed.candidate.length;
        if length > most {
            return next.max(length);
        }
    }
    next
}

// Whether as many loops are kept as may be, none of them much longer than a length.
fn are_shorter(choice: &Choice, most: u64) -> bool
    ensures shorter { result ≡ is_limit_below (limit_of choice.now)
        (min (most + most / 4) 18446744073709551615) }
{
    match choice.limit() {
        Some(last) => last.length <= most.saturating_add(most / 4),
        None => false,
    }
}

// Rounds that find short loops. What they keep makes the heights of edges low for those to come.
fn run_short_rounds(
    alloc: Global,
    plan: &Plan<'_, '_, '_, '_>,
    finder: &mut Finder<'_>,
    reached: &mut [u64],
    choice: &mut Choice,
) -> Result<(), NoMemory>
    requires finder { finder.old ≡ surface_of plan.now.surface.now }
    requires lengths { length plan.now.surface.now.lengths.now
        ≡ edge_count plan.now.surface.now.mesh.now }
    requires vertices { All (λ v. v < plan.now.surface.now.mesh.now.vertices)
        plan.now.vertices.now }
    requires met { MeetsAll plan.now.surface.now.mesh.now (is_among plan.now.vertices.now) }
    requires reached { length reached.old ≡ plan.now.surface.now.mesh.now.vertices }
    requires signed { AreSigned plan.now.surface.now.mesh.now plan.now.surface.now.signatures.now
        choice.old.width }
    requires kept { AreKeptUpTo (surface_of plan.now.surface.now) (in_caps reached.old) choice.old }
    ensures kept { OnOk result (AreKeptUpTo (surface_of plan.now.surface.now) (in_caps reached.new)
        choice.new) }
    ensures count { length reached.new ≡ length reached.old }
    ensures width { choice.new.width ≡ choice.old.width }
    ensures same { finder.new ≡ finder.old }
{
    let mut most = first_most(choice);
    for _round in 0..32 {
        if are_shorter(choice, most) {
            return Ok(());
        }
        run_round(alloc, plan, finder, most, reached, choice)?;
        most = next_most(choice, most);
    }
    Ok(())
}

// Rounds up to the last, which finds all that is left.
fn run_rounds(
    alloc: Global,
    plan: &Plan<'_, '_, '_, '_>,
    finder: &mut Finder<'_>,
    reached: &mut [u64],
    choice: &mut Choice,
) -> Result<(), NoMemory>
    requires finder { finder.old ≡ surface_of plan.now.surface.now }
    requires lengths { length plan.now.surface.now.lengths.now
        ≡ edge_count plan.now.surface.now.mesh.now }
    requires vertices { All (λ v. v < plan.now.surface.now.mesh.now.vertices)
        plan.now.vertices.now }
    requires met { MeetsAll plan.now.surface.now.mesh.now (is_among plan.now.vertices.now) }
    requires reached { length reached.old ≡ plan.now.surface.now.mesh.now.vertices }
    requires signed { AreSigned plan.now.surface.now.mesh.now plan.now.surface.now.signatures.now
        choice.old.width }
    requires kept { AreKeptUpTo (surface_of plan.now.surface.now) (in_caps reached.old) choice.old }
    requires full { IsLoopCount plan.now.surface.now.mesh.now choice.old.width }
    ensures inside { OnOk result (All
        (λ s. s.candidate.base < plan.now.surface.now.mesh.now.vertices) choice.new.kept) }
    ensures places { OnOk result (HavePlacesOfBasis plan.now.surface.now.mesh.now
        plan.now.surface.now.lengths.now choice.new.kept) }
    ensures same { finder.new ≡ finder.old }
{
    plan.surface.mesh.law_of_surface();
    plan.surface.lengths.law_of_lengths();
    run_short_rounds(alloc, plan, finder, reached, choice)?;
    run_round(alloc, plan, finder, u64::MAX, reached, choice)?;
    choice.law_of_choice();
    Ok(())
}

// Keeps loops found at vertex 0, as far as the surface goes.
fn begin(
    alloc: Global,
    finder: &mut Finder<'_>,
    reached: &mut [u64],
    choice: &mut Choice,
) -> Result<(), NoMemory>
    requires base { 0 < finder.old.mesh.vertices }
    requires few { (finder.old.mesh.vertices ≤ 2 ^ 32) × (edge_count finder.old.mesh ≤ 2 ^ 32) }
    requires reached { length reached.old ≡ finder.old.mesh.vertices }
    requires signed { AreSigned finder.old.mesh finder.old.signs choice.old.width }
    requires kept { AreKeptUpTo finder.old (in_caps reached.old) choice.old }
    ensures kept { OnOk result (AreKeptUpTo finder.old (in_caps reached.new) choice.new) }
    ensures count { length reached.new ≡ length reached.old }
    ensures width { choice.new.width ≡ choice.old.width }
    ensures same { finder.new ≡ finder.old }
{
    finder.law_of_finder();
    let mut found = Vec::new(alloc);
    let limit = choice.limit();
    keep_at(finder, VertexId::new(0), &limit, &limit, choice, &mut found)?;
    reached[0] = u64::MAX;
    Ok(())
}

/// Loops among whose lengths and least bases are the lengths and the bases of the basis that is
/// chosen, where every closed walk that isn't null meets one of some vertices. Short loops are sought
/// first near some edges: the left edges serve best, and any are right.
pub fn sufficient_loops(
    alloc: Global,
    surface: &SignedSurface<'_>,
    vertices: &[VertexId],
    edges: &[EdgeId],
    finder: &mut Finder<'_>,
    count: usize,
) -> Result<Choice, NoMemory>
    requires finder { finder.old ≡ surface_of surface.now }
    requires lengths { length surface.now.lengths.now ≡ edge_count surface.now.mesh.now }
    requires signed { AreSigned surface.now.mesh.now surface.now.signatures.now count }
    requires vertices { All (λ v. v < surface.now.mesh.now.vertices) vertices.now }
    requires edges { All (λ e. e < edge_count surface.now.mesh.now) edges.now }
    requires met { MeetsAll surface.now.mesh.now (is_among vertices.now) }
    requires full { IsLoopCount surface.now.mesh.now count }
    requires few { count ≤ MAX_LOOPS }
    ensures inside { IfOk result (λ found.
        All (λ s. s.candidate.base < surface.now.mesh.now.vertices) found.kept) }
    ensures places { IfOk result (λ found. HavePlacesOfBasis surface.now.mesh.now
        surface.now.lengths.now found.kept) }
    ensures same { finder.new ≡ finder.old }
{
    surface.mesh.law_of_surface();
    finder.law_of_finder();
    let mut choice = Choice::make(alloc, count as u32)?;
    let mut reached = vec![in alloc; 0u64; surface.mesh.vertices() as usize]?;
    begin(alloc, finder, &mut reached, &mut choice)?;
    probe_all(alloc, surface, edges, finder, &mut choice)?;
    let distances = finder.distances(alloc, VertexId::new(0))?;
    let plan = Plan {
        surface,
        vertices,
        costs: Costs {
            distances: &distances,
            even: even_length(surface.lengths).is_some(),
        },
    };
    run_rounds(alloc, &plan, finder, &mut reached, &mut choice)?;
    Ok(choice)
}
