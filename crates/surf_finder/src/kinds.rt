//! The kinds of edges: those with the same signature are of one kind.
ghost use Rattle.std.specs.Prelude.{ℕ, ◌≡◌, ◌<◌, ◌≤◌, ◌+◌, ◌^◌, IfOk, OnOk, length, slice_index};
ghost use Rattle.surf_surfaces.specs.Surface.{edge_count};
ghost use Rattle.surf_finder.specs.Kinds.{AreKinds};
ghost use Rattle.surf_finder.specs.Signing.{signs_of};

use crate::classes::Classes;
use crate::hashes::hash_of;
use std::alloc::Global;
use std::marker::Model;
use surf_base::{EdgeId, NoMemory};
use surf_bits::{Bits, Signature};
use surf_cotree::CotreeDesk;
use surf_mesh::HalfMesh;

/// The kind of each edge by number, and the signature that edges of a kind have. Those of kind 0
/// have none. Most edges of most surfaces are of few kinds, so signatures are kept once, and two
/// numbers tell that two edges have the same.
#[derive(Drop)]
pub(crate) struct Kinds {
    of: Vec<u32>,
    list: Classes,
}

impl Model for Kinds {
    ghost use Rattle.surf_finder.specs.Kinds.{KindTables};

    ghost Value = { KindTables };

    ghost view = { λ k. record { kinds = k.of.items; signatures = k.list } };
}

// The number of a signature, which is listed if it wasn't there. An empty one is not looked for.
fn kind_of(list: &mut Classes, signature: Bits<'_>) -> Result<u32, NoMemory>
    requires some { 0 < length list.old }
    requires none { slice_index list.old 0 ≡ 0 }
    requires few { length list.old < 2 ^ 32 }
    ensures kind { IfOk result (λ k. (k < length list.new)
        × (slice_index list.new k ≡ signature.entry)) }
    ensures plain { signature.entry ≡ 0 → IfOk result (λ k. k ≡ 0) }
    ensures more { length list.old ≤ length list.new }
    ensures one { length list.new ≤ length list.old + 1 }
    ensures same { (k : ℕ) → k < length list.old → slice_index list.new k
        ≡ slice_index list.old k }
{
    if signature.is_empty() {
        return Ok(0);
    }
    let hash = hash_of(&signature);
    let mut class = Signature::zero();
    class.add(signature);
    list.number_of(class, hash)
}

impl Kinds {
    /// Those of the edges of a mesh, by the signatures that a tree of its faces gave them.
    pub fn make(alloc: Global, mesh: &HalfMesh, cotree: &CotreeDesk) -> Result<Kinds, NoMemory>
        requires table { length cotree.now.signatures ≡ edge_count mesh.now }
        ensures kinds { IfOk result (AreKinds (signs_of cotree.now)) }
    {
        mesh.law_of_surface();
        let mut of = Vec::with_capacity(alloc, mesh.edges() as usize)?;
        let mut list = Classes::make(alloc)?;
        list.begin()?;
        for e in 0..mesh.edges() {
            let kind = kind_of(&mut list, cotree.signature(EdgeId::new(e)))?;
            of.push(kind)?;
        }
        Ok(Kinds { of, list })
    }

    /// The kind of an edge.
    pub fn kind(&self, edge: EdgeId) -> u32
        requires edge { edge < length self.now.kinds }
        ensures kind { result ≡ slice_index self.now.kinds edge }
    {
        self.of[edge.index()]
    }

    /// The signature that the edges of a kind have.
    pub fn signature(&self, kind: u32) -> &Signature
        requires kind { kind < length self.now.signatures }
        ensures signature { result.now ≡ slice_index self.now.signatures kind }
    {
        self.list.class(kind)
    }

    /// The hash of that signature.
    pub fn hash(&self, kind: u32) -> u64
        requires kind { kind < length self.now.signatures }
    {
        self.list.hash(kind)
    }
}
