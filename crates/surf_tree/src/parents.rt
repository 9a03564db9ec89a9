//! The parents of settled vertices, and the edges to them.
ghost use Rattle.std.specs.Prelude.{◌≡◌, ◌≢◌, ◌<◌, ◌≤◌, ◌+◌, ◌^◌, ◌&&◌, ◌==◌, ℕ, false, not, length, slice_index_or};
ghost use Rattle.surf_z2.specs.Parity.{any_below};
ghost use Rattle.surf_graphs.specs.Cells.{primal};
ghost use Rattle.surf_surfaces.specs.Surface.{edge_count};
ghost use Rattle.surf_surfaces.specs.Walk.{edge_length};
ghost use Rattle.surf_surfaces.specs.Cells.{cells_of};
ghost use Rattle.surf_lengths.specs.Lengths.{longest};
ghost use Rattle.surf_base.specs.Tables.{nobody, at};
ghost use Rattle.surf_tree.specs.Searches.{IsLeastTight};

use crate::network::{MeshNetwork, Network};
use surf_base::NOBODY;

/// The least neighbour of a node from which a link's length leads to the node's distance, and the
/// number of the edge below the link. `u32::MAX` stands for none.
pub fn least_tight<N: Network>(network: &N, distance: &[u64], node: u32) -> (u32, u32)
    requires valid { N.valid network.now }
    requires node { node < (N.graph network.now).nodes }
    requires distances { length distance.now ≡ (N.graph network.now).nodes }
    requires fits { (u : ℕ) → u < (N.graph network.now).nodes →
        at distance.now u + longest < 2 ^ 64 }
    ensures least { IsLeastTight (N.graph network.now) (N.weight network.now) (at distance.now)
        node result.0 (N.link network.now node result.1).1 }
{
    let here = distance[node as usize];
    let mut best = NOBODY;
    let mut up = NOBODY;
    for e in network.edges_at(node) {
        let (u, length) = network.across(node, *e);
        let there = distance[u as usize] + u64::from(length);
        if there == here && u < best {
            best = u;
            up = e.number();
        }
    }
    (best, up)
}

// Gives each vertex its parent and the edge to it.
pub(crate) fn set_parents(
    network: &MeshNetwork<'_>,
    distance: &[u64],
    parent: &mut [u32],
    up: &mut [u32],
)
    requires distances { length distance.now ≡ network.now.mesh.now.vertices }
    requires lengths { length network.now.lengths.now ≡ edge_count network.now.mesh.now }
    requires parents { length parent.old ≡ network.now.mesh.now.vertices }
    requires ups { length up.old ≡ network.now.mesh.now.vertices }
    requires fits { (u : ℕ) → u < network.now.mesh.now.vertices →
        at distance.now u + longest < 2 ^ 64 }
    ensures parents { (v : ℕ) → v < network.now.mesh.now.vertices →
        IsLeastTight (primal (cells_of network.now.mesh.now)) (edge_length network.now.lengths.now)
        (at distance.now) v (at parent.new v) (at up.new v) }
{
    for v in 0..network.mesh.vertices() {
        let (u, e) = least_tight(network, distance, v);
        parent[v as usize] = u;
        up[v as usize] = e;
    }
}

// Marks the edges from the vertices to their parents.
pub(crate) fn mark_edges(parent: &[u32], up: &[u32], flags: &mut [bool])
    requires same { length up.now ≡ length parent.now }
    requires ups { (v : ℕ) → v < length parent.now → at parent.now v ≢ nobody →
        at up.now v < length flags.old }
    ensures flags { (e : ℕ) → e < length flags.old → slice_index_or flags.new e false
        ≡ any_below (length parent.now) (λ v. not (at parent.now v == nobody) &&
        (at up.now v == e)) }
{
    flags.fill(false);
    for v in 0..parent.len() {
        if parent[v] != NOBODY {
            flags[up[v] as usize] = true;
        }
    }
}
