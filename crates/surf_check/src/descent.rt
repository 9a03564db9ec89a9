//! Whether each vertex has a lesser neighbour.
ghost use Rattle.std.specs.Prelude.{◌≡◌, ◌<◌, ◌==◌, ℕ, true, false, All, length, replicate, slice_index_or, IfOk, MatchBool};
ghost use Rattle.std.specs.List.{list_any};
ghost use Rattle.surf_surfaces.specs.Mesh.{edges};
ghost use Rattle.surf_check.specs.Descent.{HaveLesserNeighbours};

use std::alloc::Global;
use surf_base::{NoMemory, VertexId};
use surf_soup::Soup;

// Marks the greater end of each edge.
fn mark_greater_ends(edges: &[(VertexId, VertexId)], marked: &mut [bool])
    requires inside { All (λ p. p.1 < length marked.old) edges.now }
    requires none { (v : ℕ) → slice_index_or marked.old v false ≡ false }
    ensures size { length marked.new ≡ length marked.old }
    ensures marks { (v : ℕ) → v < length marked.new →
        slice_index_or marked.new v false ≡ list_any (λ p. p.1 == v) edges.now }
{
    for edge in edges {
        marked[edge.1.index()] = true;
    }
}

/// Whether all marks but the first are set.
pub(crate) fn are_set_behind_first(marked: &[bool]) -> bool
    ensures { MatchBool result ((v : ℕ) → 0 < v → v < length marked.now →
        slice_index_or marked.now v false ≡ true) ((v : ℕ) × (0 < v) × (v < length marked.now)
        × (slice_index_or marked.now v false ≡ false)) }
{
    for v in 1..marked.len() {
        if !marked[v] {
            return false;
        }
    }
    true
}

// Whether each vertex but vertex 0 has a lesser neighbour, by marks of the vertices.
fn have_lesser_by(soup: &Soup, pairs: &[(VertexId, VertexId)], marked: &mut [bool]) -> bool
    requires edges { pairs.now ≡ edges soup.now }
    requires none { marked.old ≡ replicate soup.now.vertices false }
    ensures { MatchBool result (HaveLesserNeighbours soup.now)
        (HaveLesserNeighbours soup.now → ⊥) }
{
    soup.law_of_soup();
    mark_greater_ends(pairs, marked);
    are_set_behind_first(marked)
}

/// Whether each vertex but vertex 0 has a lesser neighbour, by the edges of a soup.
pub(crate) fn have_lesser_neighbours(
    alloc: Global,
    soup: &Soup,
    pairs: &[(VertexId, VertexId)],
) -> Result<bool, NoMemory>
    requires edges { pairs.now ≡ edges soup.now }
    ensures { IfOk result (λ all. MatchBool all (HaveLesserNeighbours soup.now)
        (HaveLesserNeighbours soup.now → ⊥)) }
{
    let mut marked = vec![in alloc; false; soup.vertices() as usize]?;
    let all = have_lesser_by(soup, pairs, &mut marked);
    Ok(all)
}
