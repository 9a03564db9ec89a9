//! Whether a left edge could be exchanged for an edge of the tree of faces with a shorter loop.
ghost use Rattle.std.specs.Prelude.{◌≡◌, ◌≢◌, ◌<◌, ◌≤◌, ◌^◌, ◌⊎◌, ℕ, MatchOption, length};
ghost use Rattle.surf_graphs.specs.Growth.{between};
ghost use Rattle.surf_surfaces.specs.Surface.{edge_count, face_count};
ghost use Rattle.surf_validity.specs.Valid.{depth_at, dual_tree, loop_size, HasTreeRows, HasDualRows};
ghost use Rattle.surf_validity.specs.Valid.{IsNotHeavier, HasNoShorter};
ghost use Rattle.surf_treecheck.specs.First.{HoldsBelow, FailsFirst, FindsFirst, Tells};
ghost use Rattle.surf_treecheck.specs.Rows.{HasDual};
ghost use Rattle.surf_treecheck.specs.Paths.{AreAllLinks};
ghost use Rattle.surf_certcheck.specs.LoopFaults.{AreHeavier};
ghost use Rattle.surf_certcheck.specs.Least.{IsLeastIn, IsLeastWith, least_with};
ghost use Rattle.surf_certcheck.specs.Facts.{tree_prop, links_prop};

use surf_base::{EdgeId, FaceId};
use surf_lengths::Lengths;
use surf_mesh::HalfMesh;
use surf_records::{LoopCert, TreeRows};
use surf_treecheck::{Links, ends_inside, faces_inside, step_up};

/// How long the loop of an edge is.
pub(crate) fn size_of(mesh: &HalfMesh, lengths: &Lengths, rows: &TreeRows, e: EdgeId) -> u128
    requires rows { HasTreeRows mesh.now rows.now }
    requires lengths { length lengths.now ≡ edge_count mesh.now }
    requires edge { e < edge_count mesh.now }
    ensures size { result ≡ loop_size mesh.now lengths.now rows.now e }
    ensures small { result < 2 ^ 66 }
{
    let (near, far) = ends_inside(mesh, e);
    let distance = rows.distance();
    u128::from(distance[near.index()])
        + u128::from(lengths.of(e))
        + u128::from(distance[far.index()])
}

// The lesser of an edge and another one that may be missing.
fn least_edge(e: EdgeId, other: Option<EdgeId>) -> EdgeId
    ensures least { result ≡ least_with e other }
{
    match other {
        None => e,
        Some(least) => { if least < e { least } else { e } }
    }
}

/// What left edges are judged by: a certificate of loops of a surface, and the links of its tree of
/// faces. Its rows and the lengths fit the surface.
#[derive(Drop)]
pub(crate) struct Judge<'c> {
    pub(crate) mesh: &'c HalfMesh,
    pub(crate) lengths: &'c Lengths,
    pub(crate) cert: &'c LoopCert,
    pub(crate) links: &'c Links,
    ghost rows: { HasTreeRows mesh.now cert.now.tree },
    ghost measured: { length lengths.now ≡ edge_count mesh.now },
    ghost faces: { HasDualRows mesh.now cert.now.dual },
    ghost tree: { HoldsBelow (face_count mesh.now) (HasDual mesh.now cert.now.dual) } by { tree_prop mesh.now cert.now.dual },
    ghost linked: { AreAllLinks mesh.now cert.now.dual links.now } by { links_prop mesh.now cert.now.dual links.now },
}

impl Judge<'_> {
    ghost use Rattle.surf_certcheck.specs.Judging.{IsShortFor};
    ghost use Rattle.surf_certcheck.specs.Tops.{AreDoubts};

    // Whether the loop of an edge is shorter than the limit.
    fn is_short(&self, limit: u128, e: EdgeId) -> bool
        requires edge { e < edge_count self.now.mesh.now }
        ensures short { Tells result (IsShortFor self.now limit e) }
    {
        size_of(self.mesh, self.lengths, self.cert.tree(), e) < limit
    }

    // The least short edge so far, with one more edge.
    fn with_edge(&self, limit: u128, e: EdgeId, least: Option<EdgeId>) -> Option<EdgeId>
        requires edge { e < edge_count self.now.mesh.now }
        ensures least { IsLeastWith (IsShortFor self.now limit) e least result }
    {
        if self.is_short(limit, e) {
            Some(least_edge(e, least))
        } else {
            least
        }
    }

    // Two faces, the deeper one first.
    fn deeper_first(&self, near: FaceId, far: FaceId) -> (FaceId, FaceId)
        requires near { near < face_count self.now.mesh.now }
        requires far { far < face_count self.now.mesh.now }
        ensures both { ((result.0 ≡ near) × (result.1 ≡ far))
            ⊎ ((result.0 ≡ far) × (result.1 ≡ near)) }
        ensures deeper { depth_at self.now.cert.now.dual result.1
            ≤ depth_at self.now.cert.now.dual result.0 }
    {
        let depth = self.cert.dual().depth();
        if depth[far.index()] <= depth[near.index()] {
            (near, far)
        } else {
            (far, near)
        }
    }

    // The least short edge between two faces in the tree of faces, from both up to where their ways
    // to face 0 meet.
    fn least_between(&self, limit: u128, ends: (FaceId, FaceId)) -> Option<EdgeId>
        requires faces { (ends.0 < face_count self.now.mesh.now)
            × (ends.1 < face_count self.now.mesh.now) }
        ensures least { IsLeastIn (IsShortFor self.now limit)
            (between (dual_tree self.now.mesh.now self.now.cert.now.dual) ends.0 ends.1) result }
    {
        self.mesh.law_of_surface();
        let mut least = None;
        let mut near = ends.0;
        let mut far = ends.1;
        while near.index() != far.index() {
            let (face, other) = self.deeper_first(near, far);
            let (above, edge) = step_up(self.mesh, self.cert.dual(), self.links, face);
            least = self.with_edge(limit, edge, least);
            near = above;
            far = other;
        }
        least
    }

    // The least edge on the way through the tree of faces between the two faces of an edge whose
    // loop is shorter.
    fn first_shorter(&self, l: EdgeId) -> Option<EdgeId>
        requires edge { l < edge_count self.now.mesh.now }
        ensures first { FindsFirst (edge_count self.now.mesh.now)
            (IsNotHeavier self.now.mesh.now self.now.lengths.now self.now.cert.now l) result }
    {
        let limit = size_of(self.mesh, self.lengths, self.cert.tree(), l);
        self.least_between(limit, faces_inside(self.mesh, l))
    }

    // The least edge on the way between the two faces of a left edge whose loop is shorter, if the
    // left edge is still doubtful.
    fn shorter_if_doubtful(&self, doubts: &[bool], l: EdgeId) -> Option<EdgeId>
        requires doubts { AreDoubts self.now doubts.now }
        requires edge { l < edge_count self.now.mesh.now }
        ensures first { MatchOption result
            (HasNoShorter self.now.mesh.now self.now.lengths.now self.now.cert.now l)
            (λ c. (HasNoShorter self.now.mesh.now self.now.lengths.now self.now.cert.now l → ⊥)
            × FailsFirst (edge_count self.now.mesh.now)
            (IsNotHeavier self.now.mesh.now self.now.lengths.now self.now.cert.now l) c) }
    {
        if doubts[l.index()] {
            self.first_shorter(l)
        } else {
            None
        }
    }

    /// The least left edge that has such an edge with a shorter loop, and the least of these.
    pub(crate) fn first_heavier(&self, doubts: &[bool]) -> Option<(EdgeId, EdgeId)>
        requires doubts { AreDoubts self.now doubts.now }
        ensures first { MatchOption result
            (HoldsBelow (edge_count self.now.mesh.now)
            (HasNoShorter self.now.mesh.now self.now.lengths.now self.now.cert.now))
            (λ p. AreHeavier self.now.mesh.now self.now.lengths.now self.now.cert.now p.0 p.1) }
    {
        for e in 0..self.mesh.edges() {
            let l = EdgeId::new(e);
            if let Some(c) = self.shorter_if_doubtful(doubts, l) {
                return Some((l, c));
            }
        }
        None
    }
}
