//! How many edges with signatures there are at each vertex.
ghost use Rattle.std.specs.Prelude.{◌≡◌, ◌<◌, ◌+◌, ◌^◌, ℕ, length, slice_index, slice_set};
ghost use Rattle.surf_surfaces.specs.Surface.{edge_count};
ghost use Rattle.surf_surfaces.specs.Degrees.{AreDegreesTo, degree_in};
ghost use Rattle.surf_search.specs.Degrees.{by_degree};
ghost use Rattle.surf_finder.specs.Marks.{is_signed};

use surf_base::{EdgeId, VertexId};
use surf_finder::EdgeSigns;
use surf_mesh::HalfMesh;

// Counts one more at a vertex.
fn count_at(degrees: &mut [u32], v: VertexId)
    requires vertex { v < length degrees.old }
    requires few { slice_index degrees.old v < 2 ^ 31 }
    ensures { degrees.new ≡ slice_set degrees.old v (slice_index degrees.old v + 1) }
{
    degrees[v.index()] += 1;
}

// Goes on to count, at each vertex, the edges whose signatures aren't empty by one edge.
fn count_edge(mesh: &HalfMesh, signatures: &EdgeSigns, degrees: &mut [u32], edge: EdgeId)
    requires edge { edge < edge_count mesh.now }
    requires table { length signatures.now.signatures ≡ edge_count mesh.now }
    requires size { length degrees.old ≡ mesh.now.vertices }
    requires so_far { AreDegreesTo mesh.now (is_signed signatures.now) edge degrees.old }
    ensures { AreDegreesTo mesh.now (is_signed signatures.now) (edge + 1) degrees.new }
{
    mesh.law_of_surface();
    if signatures.is_signed(edge) {
        let (low, high) = mesh.ends(edge);
        count_at(degrees, low);
        count_at(degrees, high);
    }
}

// Counts at each vertex the edges there whose signatures aren't empty.
pub fn count_signed(mesh: &HalfMesh, signatures: &EdgeSigns, degrees: &mut [u32])
    requires table { length signatures.now.signatures ≡ edge_count mesh.now }
    requires size { length degrees.old ≡ mesh.now.vertices }
    requires none { (v : ℕ) → v < mesh.now.vertices → slice_index degrees.old v ≡ 0 }
    ensures { (v : ℕ) → v < mesh.now.vertices →
        slice_index degrees.new v ≡ degree_in mesh.now (is_signed signatures.now) v }
{
    for number in 0..mesh.edges() {
        count_edge(mesh, signatures, degrees, EdgeId::new(number));
    }
}

// Two vertices, the one of the lesser degree first, and as they are where both have the same.
pub fn lesser_first(degrees: &[u32], low: VertexId, high: VertexId) -> (VertexId, VertexId)
    requires low { low < length degrees.now }
    requires high { high < length degrees.now }
    ensures { result ≡ by_degree (slice_index degrees.now) (low, high) }
{
    if degrees[high.index()] < degrees[low.index()] {
        (high, low)
    } else {
        (low, high)
    }
}
