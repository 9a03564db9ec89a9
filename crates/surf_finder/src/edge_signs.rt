//! The signatures of edges, by the kinds of edges.
ghost use Rattle.std.specs.Prelude.{◌≡◌, ◌<◌, IfOk, length, slice_index};
ghost use Rattle.surf_surfaces.specs.Surface.{edge_count};
ghost use Rattle.surf_finder.specs.Kinds.{AreKinds};
ghost use Rattle.surf_finder.specs.Marks.{is_signed};
ghost use Rattle.surf_finder.specs.Signing.{signs_of};

use crate::kinds::Kinds;
use std::alloc::Global;
use std::marker::Model;
use surf_base::{EdgeId, NoMemory};
use surf_bits::Bits;
use surf_cotree::CotreeDesk;
use surf_mesh::HalfMesh;

/// The edges in neither of two trees, and for each edge its signature by them: the set of the places
/// of those edges whose loops make up that of the edge. A signature that many edges have is kept
/// once, so that this takes four bytes an edge on most surfaces, and needs no tree any more.
#[derive(Drop)]
pub struct EdgeSigns {
    left: Vec<EdgeId>,
    kinds: Kinds,
}

impl Model for EdgeSigns {
    ghost use Rattle.surf_finder.specs.Kinds.{AreKinds, signs_by};
    ghost use Rattle.surf_finder.specs.Signing.{SignTables};

    ghost Value = { SignTables };

    ghost view = { λ s. signs_by s.left.items s.kinds };

    ghost invariant = { λ s. AreKinds (signs_by s.left.items s.kinds) s.kinds };
}

impl EdgeSigns {
    /// The signatures that a tree of the faces of a mesh gave the edges, and the edges left.
    pub fn make(alloc: Global, mesh: &HalfMesh, cotree: &CotreeDesk) -> Result<EdgeSigns, NoMemory>
        requires table { length cotree.now.signatures ≡ edge_count mesh.now }
        ensures made { IfOk result (λ signs. signs ≡ signs_of cotree.now) }
    {
        let left = cotree.left().to_vec(alloc)?;
        let kinds = Kinds::make(alloc, mesh, cotree)?;
        Ok(EdgeSigns { left, kinds })
    }

    /// The edges in neither tree, as the tree of faces listed them.
    pub fn left(&self) -> &[EdgeId]
        ensures left { result.now ≡ self.now.left }
    {
        &self.left
    }

    /// The signature of an edge, lent.
    pub fn signature(&self, e: EdgeId) -> Bits<'_>
        requires edge { e < length self.now.signatures }
        ensures signature { result ≡ slice_index self.now.signatures e }
    {
        self.kinds.signature(self.kinds.kind(e)).bits()
    }

    /// Whether the signature of an edge isn't empty.
    pub fn is_signed(&self, e: EdgeId) -> bool
        requires edge { e < length self.now.signatures }
        ensures signed { result ≡ is_signed self.now e }
    {
        self.kinds.kind(e) != 0
    }

    /// The kinds of the edges.
    pub(crate) fn kinds(&self) -> &Kinds
        ensures kinds { AreKinds self.now result.now }
    {
        &self.kinds
    }
}
