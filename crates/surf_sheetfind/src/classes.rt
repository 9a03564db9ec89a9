//! Classes of walks.
ghost use Rattle.std.specs.Prelude.{◌≡◌, length};
ghost use Rattle.surf_validity.specs.Bases.{IsClosedList};
ghost use Rattle.surf_surfaces.specs.Surface.{edge_count};
ghost use Rattle.surf_sheetfind.specs.Pairs.{class_by};

use surf_base::VertexId;
use surf_bits::Signature;
use surf_certcheck::step_edge;
use surf_cotree::CotreeDesk;
use surf_mesh::HalfMesh;

/// The sum of the signatures of the steps of a closed list of neighbours.
pub(crate) fn class_of(mesh: &HalfMesh, signatures: &CotreeDesk, walk: &[VertexId]) -> Signature
    requires closed { IsClosedList mesh.now walk.now }
    requires table { length signatures.now.signatures ≡ edge_count mesh.now }
    ensures class { result ≡ class_by mesh.now signatures.now.signatures walk.now }
{
    let mut sum = Signature::zero();
    for i in 0..walk.len() - 1 {
        sum.add(signatures.signature(step_edge(mesh, walk, i)));
    }
    sum
}
