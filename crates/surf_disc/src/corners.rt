//! Tables of a soup.
ghost use Rattle.std.specs.Prelude.{◌≡◌, map};
ghost use Rattle.std.specs.List.{range_with_len};
ghost use Rattle.surf_surfaces.specs.SideNumber.{owners};
ghost use Rattle.surf_soup.specs.EdgeTable.{IsTableOf};
ghost use Rattle.surf_soup.specs.Vertices.{sides_at};
ghost use Rattle.surf_disc.specs.Links.{AreCornerTables};

use surf_base::{FaceId, SideId};
use surf_rows::Rows;
use surf_soup::{EdgeTable, Soup};

/// A soup with the table of its edges.
#[derive(Drop)]
pub(crate) struct TabledSoup<'t> {
    pub(crate) soup: &'t Soup,
    pub(crate) table: &'t EdgeTable,
    ghost is_table: { IsTableOf soup.now table.now },
}

/// A soup with the table of its edges, for each side the next one of its face, the one before, what
/// lies across it and its face, and the sides that begin at each vertex.
#[derive(Drop)]
pub(crate) struct CornerTables<'t> {
    pub(crate) soup: &'t Soup,
    pub(crate) table: &'t EdgeTable,
    pub(crate) next: &'t [SideId],
    pub(crate) prev: &'t [SideId],
    pub(crate) across: &'t [SideId],
    pub(crate) face_of: &'t [FaceId],
    pub(crate) at_vertex: &'t Rows<SideId>,
    ghost is_table: { IsTableOf soup.now table.now },
    ghost tables: { AreCornerTables soup.now next.now prev.now across.now },
    ghost faces: { face_of.now ≡ owners 0 soup.now.faces },
    ghost rows: { at_vertex.now ≡ map (sides_at soup.now) (range_with_len 0 soup.now.vertices) },
}
