//! A certificate of a basis, with another base and with a tree less, as no text has them.
ghost use Rattle.std.specs.Prelude.{◌≤◌, ◌+◌, IsTrue};
ghost use Rattle.surf_surfaces.specs.Surface.{edge_count, face_count};

use crate::kinds::{basis_of, read};
use crate::texts::basis;
use std::alloc::Global;
use std::test::Fail;
use surf_base::{NoMemory, VertexId};
use surf_cert::{BasisCert, DualRows, TreeRows};
use surf_certcheck::{CertFault, CertPart, check_basis};
use surf_lengths::unit_lengths;
use surf_mesh::{HalfMesh, Walk};
use surf_samples::{pillow, surface};

// The certificate of a text.
fn cert_of(alloc: Global, text: &[u8]) -> Result<BasisCert, Fail> {
    let cert = basis_of(read(alloc, text)?);
    Ok(cert.ok_or("a certificate of a basis")?)
}

// Whether two less the characteristic is at most 1,024.
fn has_few_loops(mesh: &HalfMesh) -> bool
    ensures few { IsTrue result → edge_count mesh.now + 2
        ≤ mesh.now.vertices + face_count mesh.now + 1024 }
{
    let nodes = mesh.vertices() as u64 + mesh.faces() as u64;
    mesh.edges() as u64 + 2 <= nodes + 1024
}

// What the checker says of a certificate where each edge has length 1; none for want of memory.
fn judged(alloc: Global, mesh: &HalfMesh, cert: &BasisCert) -> Option<Result<u128, CertFault>> {
    if !has_few_loops(mesh) {
        return None;
    }
    let lengths = unit_lengths(alloc, mesh).ok()?;
    Some(check_basis(alloc, mesh, &lengths, cert))
}

// A certificate with another base for its tree at vertex 0, and with no more than a number of its
// trees.
fn rebased(
    alloc: Global,
    cert: &BasisCert,
    base: VertexId,
    most: usize,
) -> Result<BasisCert, NoMemory> {
    let mut trees = Vec::new(alloc);
    for rows in cert.trees() {
        let at = if trees.is_empty() { base } else { rows.base() };
        let tree = TreeRows::make(
            at,
            rows.distance().to_vec(alloc)?,
            rows.parent().to_vec(alloc)?,
        );
        if trees.len() < most {
            trees.push(tree)?;
        }
    }
    let mut cycles = Vec::new(alloc);
    for walk in cert.cycles() {
        cycles.push(Walk::from_vertices(walk.vertices().to_vec(alloc)?))?;
    }
    let dual = DualRows::make(
        cert.dual().depth().to_vec(alloc)?,
        cert.dual().side().to_vec(alloc)?,
    );
    Ok(BasisCert::make(trees, dual, cert.left().to_vec(alloc)?, cycles))
}

// What the checker says of a certificate with another base and no more than a number of its trees.
fn judged_with(
    alloc: Global,
    mesh: &HalfMesh,
    cert: &BasisCert,
    base: u32,
    most: usize,
) -> Option<Result<u128, CertFault>> {
    let other = rebased(alloc, cert, VertexId::new(base), most).ok()?;
    judged(alloc, mesh, &other)
}

// What the checker says of a certificate as it is, with another base, and with a tree less besides.
fn three_judged(
    alloc: Global,
    mesh: &HalfMesh,
    cert: &BasisCert,
) -> Option<[Result<u128, CertFault>; 3]> {
    let same = judged_with(alloc, mesh, cert, 0, 3)?;
    let other_base = judged_with(alloc, mesh, cert, 1, 3)?;
    let fewer_trees = judged_with(alloc, mesh, cert, 1, 2)?;
    Some([same, other_base, fewer_trees])
}

#[test]
fn sizes_and_bases(rt: HostRuntime) -> Result<(), Fail> {
    let alloc = rt.alloc();
    let mesh = surface(alloc, 3, pillow())?;
    let cert = cert_of(alloc, basis().as_bytes())?;
    let base = CertFault::Shape {
        part: CertPart::Base,
    };
    let vertices = CertFault::Shape {
        part: CertPart::Vertices,
    };
    let want = [Ok(0), Err(base), Err(vertices)];
    assert_eq!(rt; three_judged(alloc, &mesh, &cert), Some(want));
    Ok(())
}
