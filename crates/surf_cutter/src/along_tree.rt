//! Cutting along the edges that a desk's tree of the faces doesn't hold.
ghost use Rattle.std.specs.Prelude.{◌≡◌, ◌+◌, ◌<◌, length, All, IfOk, IfErr};
ghost use Rattle.surf_surfaces.specs.Disc.{IsOpening};
ghost use Rattle.surf_surfaces.specs.Surface.{edge_count, face_count};
ghost use Rattle.surf_cutter.specs.Kinds.{full, trimmed, through, kind_of, points_of, HaveCopiesOnBorder};
ghost use Rattle.surf_cutter.specs.Opened.{IsHeld, IsChosenFor, IsNearFor};

use crate::cutting::{HeldTree, open_disc, open_full, open_through, open_trimmed};
use crate::kind::{CutFault, CutKind};
use crate::{OpenDisc, Opened};
use std::alloc::Global;
use surf_base::{NoMemory, VertexId};
use surf_cotree::CotreeDesk;
use surf_mesh::HalfMesh;

/// The surface cut along all edges that the tree of the faces doesn't hold.
pub fn cut_full(alloc: Global, mesh: &HalfMesh, cotree: &CotreeDesk) -> Result<Opened, NoMemory>
    requires size { length cotree.now.held ≡ edge_count mesh.now }
    requires held { IsHeld mesh.now cotree.now.held }
    ensures chosen { IfOk result (λ o. IsChosenFor mesh.now cotree.now.held full o) }
    ensures opening { IfOk result (λ o. IsOpening mesh.now o.origins o.faces) }
    ensures copies { IfOk result (λ o. length o.origins +
        (face_count mesh.now + face_count mesh.now)
        ≡ edge_count mesh.now + edge_count mesh.now + 2) }
{
    mesh.law_of_surface();
    let flags = cotree.held().to_vec(alloc)?;
    open_full(alloc, HeldTree::of(mesh, flags))
}

/// A surface cut open along the trimmed cut: while more than two edges are cut and a vertex has
/// exactly one of them, the greatest such vertex loses it.
pub fn cut_trim(alloc: Global, mesh: &HalfMesh, cotree: &CotreeDesk) -> Result<Opened, NoMemory>
    requires size { length cotree.now.held ≡ edge_count mesh.now }
    requires held { IsHeld mesh.now cotree.now.held }
    ensures chosen { IfOk result (λ o. IsChosenFor mesh.now cotree.now.held trimmed o) }
    ensures opening { IfOk result (λ o. IsOpening mesh.now o.origins o.faces) }
{
    let flags = cotree.held().to_vec(alloc)?;
    open_trimmed(alloc, HeldTree::of(mesh, flags))
}

/// The surface cut through some vertices: along the largest set of the edges that the tree of the
/// faces doesn't hold in which no vertex but these has exactly one edge. Each of them has a copy on
/// the border. Refuses with `Near` exactly where that set has fewer than two edges: then it opens
/// nothing. The order of the vertices and repeats don't matter.
pub fn cut_through(
    alloc: Global,
    mesh: &HalfMesh,
    cotree: &CotreeDesk,
    points: &[VertexId],
) -> Result<Opened, CutFault>
    requires size { length cotree.now.held ≡ edge_count mesh.now }
    requires held { IsHeld mesh.now cotree.now.held }
    requires points { All (λ v. v < mesh.now.vertices) points.now }
    ensures chosen { IfOk result (λ o. IsChosenFor mesh.now cotree.now.held (through points.now)
        o) }
    ensures opening { IfOk result (λ o. IsOpening mesh.now o.origins o.faces) }
    ensures border { IfOk result (λ o. HaveCopiesOnBorder (through points.now) o.origins
        o.faces) }
    ensures near { IfErr result (λ e. e ≡ CutFault.Near →
        IsNearFor mesh.now cotree.now.held (through points.now)) }
{
    let flags = cotree.held().to_vec(alloc)?;
    open_through(alloc, HeldTree::of(mesh, flags), points)
}

/// The disc that the surface is opened to along the edges that a tree of its faces doesn't hold, as
/// far as the kind says, without its border. `held` has a flag for each edge that the tree holds,
/// and is used up: the flags of the cut are made in its place. Refuses with `Near` exactly where the
/// cut goes through vertices and has fewer than two edges.
pub fn disc_outside(
    alloc: Global,
    mesh: &HalfMesh,
    held: Vec<bool>,
    kind: CutKind,
) -> Result<OpenDisc, CutFault>
    requires size { length held.items ≡ edge_count mesh.now }
    requires held { IsHeld mesh.now held.items }
    requires points { All (λ v. v < mesh.now.vertices) (points_of (kind_of kind)) }
    ensures chosen { IfOk result (λ o. IsChosenFor mesh.now held.items (kind_of kind) o) }
    ensures opening { IfOk result (λ o. IsOpening mesh.now o.origins o.faces) }
    ensures border { IfOk result (λ o. HaveCopiesOnBorder (kind_of kind) o.origins o.faces) }
    ensures near { IfErr result (λ e. e ≡ CutFault.Near → IsNearFor mesh.now held.items
        (kind_of kind)) }
{
    open_disc(alloc, HeldTree::of(mesh, held), kind)
}
