//! Distances from a base.
ghost use Rattle.std.specs.Prelude.{◌≡◌, ◌<◌, length};
ghost use Rattle.surf_surfaces.specs.Surface.{edge_count};
ghost use Rattle.surf_answers.specs.Distances.{GivesDistances};
ghost use Rattle.surf_answers.specs.Tells.{Concludes};

use std::alloc::Global;
use surf_answers::Answered;
use surf_base::{MAX_ANSWER, VertexId};
use surf_lengths::Lengths;
use surf_mesh::HalfMesh;
use surf_text::Page;
use surf_texts::{Refused, put_distances};
use surf_tree::TreeDesk;

/// The distances and parents of all vertices from a base.
pub(crate) fn dist_of(
    alloc: Global,
    mesh: &HalfMesh,
    lengths: &Lengths,
    base: VertexId,
) -> Result<Answered, Refused>
    requires lengths { length lengths.now ≡ edge_count mesh.now }
    requires base { base < mesh.now.vertices }
    ensures { Concludes (GivesDistances mesh.now lengths.now base) result }
{
    let mut tree = TreeDesk::make(alloc, mesh)?;
    tree.grow(mesh, lengths, base);
    let mut page = Page::make(alloc, MAX_ANSWER);
    put_distances(&mut page, &tree, mesh.vertices())?;
    Ok(Answered::yes(page.into_bytes()))
}
