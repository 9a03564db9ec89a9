//! The certificate of the basis.
ghost use Rattle.std.specs.Prelude.{◌≡◌, ◌≤◌, IfOk, length};
ghost use Rattle.surf_surfaces.specs.Choice.{walks};
ghost use Rattle.surf_surfaces.specs.Surface.{edge_count, loop_count};
ghost use Rattle.surf_validity.specs.Bases.{IsValidBasis};
ghost use Rattle.surf_records.specs.Fits.{BasisFits};
ghost use Rattle.surf_basis.specs.Certs.{AreTreeRows, AreFaceRows, IsTheCert};
ghost use Rattle.surf_basis.specs.Cycles.{as_loops};
ghost use Rattle.surf_base.specs.declared.limits.TheConstants.{MAX_LOOPS};

use crate::basis::least_basis;
use crate::cycle::Cycle;
use std::alloc::Global;
use surf_base::{NoMemory, VertexId};
use surf_lengths::Lengths;
use surf_loops::{LoopDesk, dual_rows, left_pairs, tree_rows};
use surf_mesh::{HalfMesh, Walk};
use surf_records::{BasisCert, DualRows, TreeRows};
use surf_tree::TreeDesk;

// The rows of the trees of shortest walks from all vertices.
fn all_tree_rows(
    alloc: Global,
    mesh: &HalfMesh,
    lengths: &Lengths,
) -> Result<Vec<TreeRows>, NoMemory>
    requires lengths { length lengths.now ≡ edge_count mesh.now }
    ensures rows { IfOk result (λ rows. AreTreeRows mesh.now lengths.now rows.items) }
{
    mesh.law_of_surface();
    lengths.law_of_lengths();
    let vertices = mesh.vertices();
    let mut tree = TreeDesk::make(alloc, mesh)?;
    let mut rows = Vec::with_capacity(alloc, vertices as usize)?;
    for base in 0..vertices {
        tree.grow(mesh, lengths, VertexId::new(base));
        rows.push(tree_rows(alloc, mesh, &tree)?)?;
    }
    Ok(rows)
}

// The walks of cycles, in their order.
fn walks_of(alloc: Global, cycles: Vec<Cycle>) -> Result<Vec<Walk>, NoMemory>
    ensures walks { IfOk result (λ list. list.items ≡ walks (as_loops cycles.items)) }
{
    Ok(cycles.into_iter().map(|cycle| cycle.walk).collect(alloc)?)
}

// The rows of the tree of faces that is chosen at vertex 0, and the ends of the edges left there.
fn face_rows(
    alloc: Global,
    mesh: &HalfMesh,
    lengths: &Lengths,
) -> Result<(DualRows, Vec<(VertexId, VertexId)>), NoMemory>
    requires lengths { length lengths.now ≡ edge_count mesh.now }
    ensures rows { IfOk result (λ rows. AreFaceRows mesh.now lengths.now rows.0 rows.1.items) }
{
    mesh.law_of_surface();
    let mut desk = LoopDesk::make(alloc, mesh)?;
    desk.greedy(mesh, lengths, VertexId::new(0));
    let dual = dual_rows(alloc, mesh, desk.cotree())?;
    let left = left_pairs(alloc, mesh, desk.cotree())?;
    Ok((dual, left))
}

/// A certificate that the cycles of `least_basis` are a least basis: the trees of shortest walks
/// from all vertices, the tree of faces and the left edges at vertex 0, and the cycles in their
/// order. It is valid for the mesh and the lengths, and its lists fit the lines of a text.
pub fn basis_cert(alloc: Global, mesh: &HalfMesh, lengths: &Lengths) -> Result<BasisCert, NoMemory>
    requires lengths { length lengths.now ≡ edge_count mesh.now }
    requires few { loop_count mesh.now ≤ MAX_LOOPS }
    ensures chosen { IfOk result (IsTheCert mesh.now lengths.now) }
    ensures valid { IfOk result (IsValidBasis mesh.now lengths.now) }
    ensures fits { IfOk result BasisFits }
{
    mesh.law_of_surface();
    lengths.law_of_lengths();
    let trees = all_tree_rows(alloc, mesh, lengths)?;
    let (dual, left) = face_rows(alloc, mesh, lengths)?;
    let cycles = walks_of(alloc, least_basis(alloc, mesh, lengths)?)?;
    Ok(BasisCert::make(trees, dual, left, cycles))
}
