//! Whether the loops through the trees of all bases are sums of cycles that are no longer.
ghost use Rattle.std.specs.Prelude.{◌≡◌, ◌<◌, ◌≤◌, ℕ, List};
ghost use Rattle.std.specs.Prelude.{IsPermutation, length};
ghost use Rattle.std.specs.List.{range_with_len};
ghost use Rattle.surf_z2.specs.Space.{Weighed};
ghost use Rattle.surf_z2.specs.Words.{number};
ghost use Rattle.surf_graphs.specs.Cells.{Split};
ghost use Rattle.surf_surfaces.specs.Surface.{edge_count};
ghost use Rattle.surf_surfaces.specs.Signature.{walk_signature};
ghost use Rattle.surf_surfaces.specs.Loop.{loop_walk};
ghost use Rattle.surf_validity.specs.Rows.{TreeRows};
ghost use Rattle.surf_validity.specs.Bases.{IsCovered};
ghost use Rattle.surf_validity.specs.Valid.{certified_tree};
ghost use Rattle.surf_treecheck.specs.First.{FindsFirst, Tells};
ghost use Rattle.surf_treecheck.specs.TreeFaults.{AreTreesValid, FindsFirstAt};
ghost use Rattle.surf_certcheck.specs.Frames.{IsFrameOf, AreTaken};
ghost use Rattle.surf_certcheck.specs.Climbs.{IsClimbed, AreSummed};
ghost use Rattle.surf_certcheck.specs.Columns.{IsSorted};
ghost use Rattle.surf_certcheck.specs.Covering.{IsSummedUp, HasFrame, IsCoveredIn};
ghost use Rattle.surf_base.specs.declared.limits.TheConstants.{MAX_LOOPS};

use crate::cases::BasisCase;
use crate::coordinates::Frame;
use crate::heavier::size_of;
use crate::placed::is_placed;
use crate::sums::sum_ways;
use surf_base::{EdgeId, VertexId};
use surf_lengths::Lengths;
use surf_mesh::HalfMesh;
use surf_records::TreeRows;
use surf_signatures::{Signs, VertexSets};
use surf_treecheck::{ends_inside, tree_from};

// The coordinates of the loop of an edge, in words: the sum over its two ways to the base and the
// edge.
fn loop_words(mesh: &HalfMesh, signs: &Signs, sums: &VertexSets, e: EdgeId) -> [u64; 16]
    requires count { length signs.now.sets ≡ edge_count mesh.now }
    requires room { length sums.now.sets ≡ mesh.now.vertices }
    requires width { signs.now.width ≤ MAX_LOOPS }
    requires widths { sums.now.width ≤ MAX_LOOPS }
    requires edge { e < edge_count mesh.now }
    ensures sum { (rows : TreeRows) → IsClimbed mesh.now rows
        → AreSummed mesh.now rows signs.now.sets sums.now.sets
        → (d : Split) (to : ℕ → ℕ) → AreTaken mesh.now d to signs.now.sets
        → number result
        ≡ to (walk_signature mesh.now d (loop_walk mesh.now (certified_tree mesh.now rows) e)) }
{
    mesh.law_of_surface();
    let (u, v) = ends_inside(mesh, e);
    let mut words = [0; 16];
    sums.of(u).add_to(&mut words);
    signs.signature(e).add_to(&mut words);
    sums.of(v).add_to(&mut words);
    words
}

/// A tree of vertices, with the sums along its ways in the coordinates of a frame.
#[derive(Drop)]
pub(crate) struct SummedTree<'c> {
    pub(crate) mesh: &'c HalfMesh,
    pub(crate) lengths: &'c Lengths,
    pub(crate) rows: &'c TreeRows,
    pub(crate) frame: &'c Frame,
    pub(crate) sums: &'c VertexSets,
}

impl SummedTree<'_> {
    // Whether the loop of an edge is a sum of cycles that are no longer.
    fn is_covered(&self, e: EdgeId) -> bool
        requires ready { IsSummedUp self.now }
        requires edge { e < edge_count self.now.mesh.now }
        ensures covered { (d : Split) (cycles : List (Weighed ℕ)) → HasFrame self.now d cycles
            → Tells result (IsCoveredIn self.now d cycles e) }
    {
        let words = loop_words(self.mesh, &self.frame.signs, self.sums, e);
        let limit = size_of(self.mesh, self.lengths, self.rows, e);
        is_placed(&words, &self.frame.weights, limit)
    }

    // The least edge whose loop isn't.
    fn first_uncovered(&self) -> Option<EdgeId>
        requires ready { IsSummedUp self.now }
        ensures first { (d : Split) (cycles : List (Weighed ℕ)) → HasFrame self.now d cycles
            → FindsFirst (edge_count self.now.mesh.now) (IsCoveredIn self.now d cycles) result }
    {
        for e in 0..self.mesh.edges() {
            let edge = EdgeId::new(e);
            if !self.is_covered(edge) {
                return Some(edge);
            }
        }
        None
    }
}

/// The least base with an edge whose loop isn't a sum of cycles that are no longer, and the least
/// such edge.
pub(crate) fn first_uncovered(
    case: &BasisCase<'_>,
    frame: &Frame,
    order: &mut [VertexId],
    sums: &mut VertexSets,
) -> Option<(VertexId, EdgeId)>
    requires valid { AreTreesValid case.now.mesh.now case.now.lengths.now case.now.cert.now }
    requires frame { IsFrameOf case.now.mesh.now case.now.lengths.now case.now.cert.now
        (length case.now.cert.now.cycles) frame.now.signs frame.now.weights.items }
    requires count { length frame.now.signs.sets ≡ edge_count case.now.mesh.now }
    requires sorted { IsSorted frame.now.weights.items }
    requires all { IsPermutation (range_with_len 0 case.now.mesh.now.vertices) order.old }
    requires room { length sums.old.sets ≡ case.now.mesh.now.vertices }
    requires width { sums.old.width ≡ frame.now.signs.width }
    ensures first { FindsFirstAt case.now.mesh.now.vertices (edge_count case.now.mesh.now)
        (IsCovered case.now.mesh.now case.now.lengths.now case.now.cert.now) result }
{
    case.lengths.law_of_lengths();
    for x in 0..case.mesh.vertices() {
        let base = VertexId::new(x);
        let rows = tree_from(case.cert, base);
        sum_ways(case.mesh, rows, &frame.signs, order, sums);
        let tree = SummedTree {
            mesh: case.mesh,
            lengths: case.lengths,
            rows,
            frame,
            sums,
        };
        if let Some(edge) = tree.first_uncovered() {
            return Some((base, edge));
        }
    }
    None
}
