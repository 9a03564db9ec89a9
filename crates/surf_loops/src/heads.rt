//! The lengths of loops, and the left edges in the order of them.
ghost use Rattle.std.specs.Prelude.{◌≡◌, ◌<◌, ◌≤◌, ◌+◌, ◌*◌, ◌^◌, ℕ, All, length, map, slice_index, vec_capacity};
ghost use Rattle.std.specs.Prelude.{IsPermutation};
ghost use Rattle.std.specs.List.Sorted.{IsNonDecreasingBy};
ghost use Rattle.surf_surfaces.specs.Surface.{edge_count};
ghost use Rattle.surf_surfaces.specs.Loop.{loop_length};
ghost use Rattle.surf_tree.specs.Tables.{tree_of};
ghost use Rattle.surf_cotree.specs.Searches.{heaviest};
ghost use Rattle.surf_loops.specs.Heads.{head_of, order_of};

use crate::head::LoopHead;
use surf_base::EdgeId;
use surf_cotree::Weights;
use surf_lengths::Lengths;
use surf_mesh::HalfMesh;
use surf_tree::TreeDesk;

/// The length of the loop of each edge by a tree of shortest walks: the distances of its ends from
/// the base and its own length.
#[derive(Drop)]
pub(crate) struct LoopLengths<'a> {
    pub mesh: &'a HalfMesh,
    pub lengths: &'a Lengths,
    pub tree: &'a TreeDesk,
    ghost reached: { length tree.now.distances ≡ mesh.now.vertices },
    ghost measured: { length lengths.now ≡ edge_count mesh.now },
    ghost near: { (v : ℕ) → v < mesh.now.vertices → slice_index tree.now.distances v < 2 ^ 62 },
    ghost fit: { (e : ℕ) → loop_length mesh.now lengths.now (tree_of tree.now) e ≤ heaviest },
}

impl Weights for LoopLengths<'_> {
    ghost weight = { λ w. loop_length w.mesh.now w.lengths.now (tree_of w.tree.now) };

    ghost count = { λ w. edge_count w.mesh.now };

    ghost light = { λ w. w.fit };

    fn weight_of(&self, edge: EdgeId) -> u64 {
        self.mesh.law_of_surface();
        let (u, v) = self.mesh.ends(edge);
        self.tree.distance(u) + u64::from(self.lengths.of(edge)) + self.tree.distance(v)
    }
}

// Lists the heads of edges, in room that there is.
fn fill_heads(left: &[EdgeId], loops: &LoopLengths<'_>, heads: &mut Vec<LoopHead>)
    requires inside { All (λ e. e < edge_count loops.now.mesh.now) left.now }
    requires room { length left.now ≤ vec_capacity heads.old }
    ensures heads { heads.new.items ≡ map (head_of (loop_length loops.now.mesh.now
        loops.now.lengths.now (tree_of loops.now.tree.now))) left.now }
    ensures room { vec_capacity heads.old ≤ vec_capacity heads.new }
{
    heads.clear();
    for edge in left {
        let head = LoopHead {
            edge: *edge,
            length: loops.weight_of(*edge),
        };
        heads.push_reserved(head);
    }
}

// What heads are sorted by: the length, and then the number of the edge.
fn order_of(head: &LoopHead) -> u128
    ensures order { result ≡ order_of head.now }
{
    (u128::from(head.length) << 32) + u128::from(head.edge.number())
}

// Sorts heads by length, and by edge number where they are as long.
fn sort_heads(heads: &mut [LoopHead])
    ensures same { IsPermutation heads.old heads.new }
    ensures sorted { IsNonDecreasingBy order_of heads.new }
{
    heads.sort_unstable_by_key(|head| order_of(head));
}

// Lists the heads of edges in their order.
pub(crate) fn list_heads(left: &[EdgeId], loops: &LoopLengths<'_>, heads: &mut Vec<LoopHead>)
    requires inside { All (λ e. e < edge_count loops.now.mesh.now) left.now }
    requires room { length left.now ≤ vec_capacity heads.old }
    ensures same { IsPermutation (map (head_of (loop_length loops.now.mesh.now
        loops.now.lengths.now (tree_of loops.now.tree.now))) left.now) heads.new.items }
    ensures sorted { IsNonDecreasingBy order_of heads.new.items }
    ensures room { vec_capacity heads.old ≤ vec_capacity heads.new }
{
    fill_heads(left, loops, heads);
    sort_heads(heads);
}
