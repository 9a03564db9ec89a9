//! Whether the parts of a certificate have the sizes that the mesh asks for.
ghost use Rattle.std.specs.Prelude.{◌≡◌, ◌<◌, MatchOption, length};
ghost use Rattle.surf_surfaces.specs.Homology.{IsLoopCount};
ghost use Rattle.surf_validity.specs.Bases.{tree_at, HasBasisShape, HasTrees, HasCounts};
ghost use Rattle.surf_validity.specs.Valid.{HasShape, HasTreeRows, HasDualRows};
ghost use Rattle.surf_treecheck.specs.First.{HoldsBelow, Tells};
ghost use Rattle.surf_treecheck.specs.Shapes.{IsShapeFault, HasBase, IsBasisShapeFault};

use crate::fault::CertPart;
use surf_base::VertexId;
use surf_mesh::HalfMesh;
use surf_records::{BasisCert, DualRows, LoopCert, TreeRows};

/// Whether there is a row for each vertex.
pub(crate) fn fits_vertices(mesh: &HalfMesh, rows: &TreeRows) -> bool
    ensures fits { Tells result (HasTreeRows mesh.now rows.now) }
{
    let count = mesh.vertices() as usize;
    rows.distance().len() == count && rows.parent().len() == count
}

/// Whether there is a row for each face.
pub(crate) fn fits_faces(mesh: &HalfMesh, dual: &DualRows) -> bool
    ensures fits { Tells result (HasDualRows mesh.now dual.now) }
{
    let count = mesh.faces() as usize;
    dual.depth().len() == count && dual.side().len() == count
}

/// Whether a number is two less the characteristic.
pub fn is_full_count(mesh: &HalfMesh, count: usize) -> bool
    ensures full { Tells result (IsLoopCount mesh.now count) }
{
    let most = u128::from(mesh.edges()) + 2;
    count as u128 + u128::from(mesh.vertices()) + u128::from(mesh.faces()) == most
}

/// The first part of a loop certificate that doesn't fit the mesh.
pub fn loop_shape(mesh: &HalfMesh, cert: &LoopCert) -> Option<CertPart>
    ensures shape { MatchOption result (HasShape mesh.now cert.now)
        (IsShapeFault mesh.now cert.now) }
{
    if !fits_vertices(mesh, cert.tree()) {
        return Some(CertPart::Vertices);
    }
    if !fits_faces(mesh, cert.dual()) {
        return Some(CertPart::Faces);
    }
    if !is_full_count(mesh, cert.left().len()) {
        return Some(CertPart::Loops);
    }
    if cert.tree().base().number() >= mesh.vertices() {
        return Some(CertPart::Base);
    }
    None
}

/// The tree at a place of a certificate of a basis.
pub fn tree_from(cert: &BasisCert, x: VertexId) -> &TreeRows
    requires place { x < length cert.now.trees }
    ensures tree { result.now ≡ tree_at cert.now x }
{
    &cert.trees()[x.index()]
}

// Whether there is a tree for each vertex, with a row for each vertex.
fn fits_trees(mesh: &HalfMesh, cert: &BasisCert) -> bool
    ensures fits { Tells result (HasTrees mesh.now cert.now) }
{
    if cert.trees().len() != mesh.vertices() as usize {
        return false;
    }
    for x in 0..mesh.vertices() {
        if !fits_vertices(mesh, tree_from(cert, VertexId::new(x))) {
            return false;
        }
    }
    true
}

// Whether there are as many left pairs and as many cycles as two less the characteristic.
fn fits_counts(mesh: &HalfMesh, cert: &BasisCert) -> bool
    ensures fits { Tells result (HasCounts mesh.now cert.now) }
{
    is_full_count(mesh, cert.left().len()) && is_full_count(mesh, cert.cycles().len())
}

// Whether the base of each tree is its place.
fn fits_bases(mesh: &HalfMesh, cert: &BasisCert) -> bool
    requires trees { HasTrees mesh.now cert.now }
    ensures fits { Tells result (HoldsBelow mesh.now.vertices (HasBase cert.now)) }
{
    for x in 0..mesh.vertices() {
        let place = VertexId::new(x);
        if tree_from(cert, place).base() != place {
            return false;
        }
    }
    true
}

/// The first part of a basis certificate that doesn't fit the mesh.
pub fn basis_shape(mesh: &HalfMesh, cert: &BasisCert) -> Option<CertPart>
    ensures shape { MatchOption result (HasBasisShape mesh.now cert.now)
        (IsBasisShapeFault mesh.now cert.now) }
{
    if !fits_trees(mesh, cert) {
        return Some(CertPart::Vertices);
    }
    if !fits_faces(mesh, cert.dual()) {
        return Some(CertPart::Faces);
    }
    if !fits_counts(mesh, cert) {
        return Some(CertPart::Loops);
    }
    if !fits_bases(mesh, cert) {
        return Some(CertPart::Base);
    }
    None
}
