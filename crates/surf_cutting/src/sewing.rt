//! Sewn surfaces as texts.
ghost use Rattle.std.specs.Prelude.{◌≡◌, ◌<◌, ◌^◌, length};
ghost use Rattle.surf_answers.specs.Sewing.{GivesSewn};
ghost use Rattle.surf_answers.specs.Tells.{Concludes};
ghost use Rattle.surf_sew.specs.Sewing.{HaveCopies};
ghost use Rattle.surf_surfaces.specs.Surface.{face_count};

use std::alloc::Global;
use surf_answers::Answered;
use surf_base::{MAX_ANSWER, VertexId};
use surf_mesh::HalfMesh;
use surf_off::OffText;
use surf_sew::write_sewn;
use surf_text::Page;
use surf_texts::Refused;

/// The text of a sewn surface, with the origins of its copies.
pub(crate) fn sewn_text(
    alloc: Global,
    text: &OffText<'_>,
    origins: &[VertexId],
    mesh: &HalfMesh,
) -> Result<Answered, Refused>
    requires lines { length origins.now ≡ length text.now.vertex_lines }
    requires colours { face_count mesh.now ≡ length text.now.colours }
    requires countable { length origins.now < 2 ^ 32 }
    requires copies { HaveCopies origins.now mesh.now.vertices }
    ensures { Concludes (GivesSewn text.now origins.now mesh.now) result }
{
    let mut page = Page::make(alloc, MAX_ANSWER);
    write_sewn(&mut page, text, origins, mesh)?;
    Ok(Answered::yes(page.into_bytes()))
}
