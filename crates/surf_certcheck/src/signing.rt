//! The signatures of edges by the trees and the left edges of a certificate.
ghost use Rattle.std.specs.Prelude.{◌≡◌, ◌≤◌, ◌+◌, IfOk, length, filter};
ghost use Rattle.std.specs.List.{range_with_len};
ghost use Rattle.surf_surfaces.specs.Surface.{edge_count, loop_count};
ghost use Rattle.surf_validity.specs.Bases.{split_in};
ghost use Rattle.surf_validity.specs.Valid.{is_listed};
ghost use Rattle.surf_treecheck.specs.Split.{AreFlags, is_flagged};
ghost use Rattle.surf_certcheck.specs.Frames.{HasSplit, edge_signatures};
ghost use Rattle.surf_base.specs.declared.limits.TheConstants.{MAX_LOOPS};

use std::alloc::Global;
use surf_base::{EdgeId, NoMemory};
use surf_mesh::HalfMesh;
use surf_records::BasisCert;
use surf_signatures::Signs;
use surf_treecheck::link_faces;

// The edges that are flagged, increasing.
fn list_flagged(alloc: Global, mesh: &HalfMesh, flags: &[bool]) -> Result<Vec<EdgeId>, NoMemory>
    requires count { length flags.now ≡ edge_count mesh.now }
    ensures listed { IfOk result (λ v. v.items
        ≡ filter (is_flagged flags.now) (range_with_len 0 (edge_count mesh.now))) }
{
    let mut listed = Vec::new(alloc);
    for e in 0..mesh.edges() {
        if flags[e as usize] {
            listed.push(EdgeId::new(e))?;
        }
    }
    Ok(listed)
}

/// The signatures of all edges by the tree at vertex 0, the tree of faces and the left edges, which
/// are flagged.
pub(crate) fn sign_edges(
    alloc: Global,
    mesh: &HalfMesh,
    cert: &BasisCert,
    left: &[bool],
) -> Result<Signs, NoMemory>
    requires split { HasSplit mesh.now cert.now }
    requires few { loop_count mesh.now ≤ MAX_LOOPS }
    requires left { AreFlags (edge_count mesh.now) (is_listed mesh.now cert.now.left) left.now }
    ensures width { IfOk result (λ s. s.width ≡ length (split_in mesh.now cert.now).left) }
    ensures few { IfOk result (λ s. s.width ≤ MAX_LOOPS) }
    ensures signed { IfOk result (λ s.
        s.sets ≡ edge_signatures mesh.now (split_in mesh.now cert.now)) }
{
    let edges = list_flagged(alloc, mesh, left)?;
    let links = link_faces(alloc, mesh, cert.dual())?;
    let mut signs = Signs::make(alloc, mesh.edges(), edges.len() as u32)?;
    signs.write(mesh, &links.parent, &links.up, cert.dual().depth(), &edges);
    Ok(signs)
}
