//! The bases of candidates.
ghost use Rattle.std.specs.Prelude.{◌≡◌, ◌<◌, true, false, All, length, slice_index_or, IfOk};
ghost use Rattle.surf_surfaces.specs.FewBases.{AreBases};
ghost use Rattle.surf_basis.specs.Kept.{HasBases};

use std::alloc::Global;
use surf_base::{NoMemory, VertexId};
use surf_choice::Signed;
use surf_finder::list_marked;
use surf_mesh::HalfMesh;

// Marks the bases of candidates.
fn mark_bases(kept: &[Signed], marked: &mut [bool])
    requires inside { All (λ s. s.candidate.base < length marked.old) kept.now }
    ensures bases { All (λ s. slice_index_or marked.new s.candidate.base false ≡ true) kept.now }
    ensures count { length marked.new ≡ length marked.old }
{
    for signed in kept {
        marked[signed.candidate.base.index()] = true;
    }
}

/// The bases of candidates, increasing.
pub(crate) fn bases_of(
    alloc: Global,
    mesh: &HalfMesh,
    kept: &[Signed],
) -> Result<Vec<VertexId>, NoMemory>
    requires inside { All (λ s. s.candidate.base < mesh.now.vertices) kept.now }
    ensures increasing { IfOk result (λ list. AreBases mesh.now list.items) }
    ensures bases { IfOk result (λ list. HasBases list.items kept.now) }
{
    let mut marked = vec![in alloc; false; mesh.vertices() as usize]?;
    mark_bases(kept, &mut marked);
    list_marked(alloc, &marked)
}
