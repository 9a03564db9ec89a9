//! Signatures as small numbers.
ghost use Rattle.std.specs.Prelude.{◌≡◌, ◌<◌, ◌≤◌, ◌+◌, ◌^◌, ℕ, length, slice_index, Contains};
ghost use Rattle.surf_graphs.specs.Cells.{IsSplit};
ghost use Rattle.surf_graphs.specs.Trees.{Tree};
ghost use Rattle.surf_surfaces.specs.Cells.{cells_of};
ghost use Rattle.surf_surfaces.specs.Mesh.{edges, pair};
ghost use Rattle.surf_surfaces.specs.Signature.{walk_signature};
ghost use Rattle.surf_surfaces.specs.Surface.{edge_count, loop_count};
ghost use Rattle.surf_surfaces.specs.Walk.{edge_number, IsWalk};
ghost use Rattle.surf_cotree.specs.Tables.{split_with};
ghost use Rattle.surf_cover.specs.Tables.{sets_of};
ghost use Rattle.surf_cover.specs.Grown.{IsSigned};

use surf_base::{EdgeId, VertexId};
use surf_cotree::CotreeDesk;
use surf_mesh::HalfMesh;

/// How many sets of left edges there are.
pub(crate) fn count_sets(mesh: &HalfMesh) -> u32
    requires few { loop_count mesh.now ≤ 16 }
    ensures sets { result ≡ sets_of mesh.now }
{
    let edges = mesh.edges() as usize;
    let nodes = mesh.vertices() as usize + mesh.faces() as usize;
    1 << (edges + 2).saturating_sub(nodes)
}

// The signature of an edge.
fn sign_of(cotree: &CotreeDesk, edge: EdgeId) -> u32
    requires edge { edge < length cotree.now.signatures }
    requires small { slice_index cotree.now.signatures edge < 2 ^ 32 }
    ensures sign { result ≡ slice_index cotree.now.signatures edge }
{
    let mut word = [0u64];
    cotree.signature(edge).add_to(&mut word);
    word[0] as u32
}

/// Copies the signatures of all edges.
pub(crate) fn copy_signs(cotree: &CotreeDesk, signs: &mut [u32])
    requires count { length signs.old ≡ length cotree.now.signatures }
    requires few { length signs.old < 2 ^ 32 }
    requires small { (e : ℕ) → e < length signs.old → slice_index cotree.now.signatures e < 2 ^ 32 }
    ensures signs { (e : ℕ) → e < length signs.old →
        slice_index signs.new e ≡ slice_index cotree.now.signatures e }
{
    for e in 0..signs.len() {
        signs[e] = sign_of(cotree, EdgeId::new(e as u32));
    }
}

// The edge between two neighbours.
fn edge_between(mesh: &HalfMesh, u: VertexId, v: VertexId) -> EdgeId
    requires edge { Contains (edges mesh.now) (pair u v) }
    ensures edge { result ≡ edge_number mesh.now (u, v) }
    ensures inside { result < edge_count mesh.now }
{
    match mesh.find_edge(u, v) {
        Some(edge) => edge,
        None => unreachable!(),
    }
}

/// The sum of the signatures of a walk's steps.
pub(crate) fn walk_sign(mesh: &HalfMesh, cotree: &CotreeDesk, walk: &[VertexId]) -> u32
    requires small { loop_count mesh.now ≤ 16 }
    requires signed { IsSigned mesh.now cotree.now }
    requires walk { IsWalk mesh.now walk.now }
    ensures sum { (tree : Tree) → IsSplit (cells_of mesh.now) (split_with tree cotree.now) →
        result ≡ walk_signature mesh.now (split_with tree cotree.now) walk.now }
{
    let mut sum = 0;
    for i in 0..walk.len() - 1 {
        sum ^= sign_of(cotree, edge_between(mesh, walk[i], walk[i + 1]));
    }
    sum
}
