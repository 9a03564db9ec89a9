//! What an OFF text has beside its mesh.
ghost use Rattle.std.specs.Prelude.{◌≡◌, ◌<◌, ◌^◌, [], length, slice_index_or};
ghost use Rattle.surf_off.specs.Clean.{IsOffParts};

use crate::header::Header;
use crate::parts::{Colours, Parts};
use std::marker::Model;
use surf_base::{FaceId, VertexId};

/// The keyword, the vertex lines and the colours of an OFF text, as slices of the text, from a
/// first token's first byte to a last token's last byte. A text has one vertex line for each vertex
/// and one colour, which may be empty, for each face.
#[derive(Drop)]
pub struct OffText<'a> {
    header: Header,
    vertex_lines: Parts<'a>,
    colours: Colours<'a>,
}

impl<'a> Model for OffText<'a> {
    ghost use Rattle.std.specs.Prelude.{◌<◌, ◌^◌, length};
    ghost use Rattle.surf_off.specs.Off.{OffParts};
    ghost use Rattle.surf_off.specs.Clean.{IsOffParts};

    ghost Value = { OffParts };

    ghost view = { λ s. record {
      header = s.header;
      vertex_lines = s.vertex_lines.parts;
      colours = s.colours.parts;
    } };

    ghost invariant = { λ s. IsOffParts (record {
      header = s.header;
      vertex_lines = s.vertex_lines.parts;
      colours = s.colours.parts;
    }) × (length s.vertex_lines.parts < 2 ^ 64) };
}

impl<'a> OffText<'a> {
    pub(crate) fn make(header: Header, vertex_lines: Parts<'a>, colours: Colours<'a>) -> OffText<'a>
        requires clean { IsOffParts (record {
          header = header;
          vertex_lines = vertex_lines.parts;
          colours = colours.parts;
        }) }
        requires countable { length vertex_lines.parts < 2 ^ 64 }
        ensures parts { result ≡ record {
          header = header;
          vertex_lines = vertex_lines.entry.parts;
          colours = colours.entry.parts;
        } }
    {
        OffText {
            header,
            vertex_lines,
            colours,
        }
    }

    /// Its keyword.
    pub fn header(&self) -> Header
        ensures header { result ≡ self.now.header }
        ensures clean { IsOffParts self.now }
        ensures countable { length self.now.vertex_lines < 2 ^ 64 }
    {
        self.header
    }

    /// The line of a vertex.
    pub fn vertex_line(&self, v: VertexId) -> &'a [u8]
        requires within { v < length self.now.vertex_lines }
        ensures line { result.now ≡ slice_index_or self.now.vertex_lines v [] }
    {
        self.vertex_lines.part(v.index())
    }

    /// The colour of a face, empty where none is given.
    pub fn colour(&self, f: FaceId) -> &'a [u8]
        requires within { f < length self.now.colours }
        ensures colour { result.now ≡ slice_index_or self.now.colours f [] }
    {
        self.colour_at(f.index())
    }

    pub(crate) fn colour_at(&self, f: usize) -> &'a [u8]
        requires within { f < length self.now.colours }
        ensures colour { result.now ≡ slice_index_or self.now.colours f [] }
    {
        self.colours.colour(f)
    }
}
