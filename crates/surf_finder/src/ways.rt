//! The classes of the ways from the base of a search, by number.
ghost use Rattle.std.specs.Prelude.{◌≡◌, ◌≢◌, ◌<◌, ◌≤◌, ◌+◌, ◌^◌, ◌==◌, ℕ, IsTrue, bit_xor, length, slice_index, IfOk, OnOk};
ghost use Rattle.surf_surfaces.specs.Surface.{edge_count};
ghost use Rattle.surf_finder.specs.Kinds.{AreKinds};
ghost use Rattle.surf_finder.specs.Ways.{class_at, AreWays, HasNone, HasParent, IsNumbered, IsReached};

use crate::classes::Classes;
use crate::edge_signs::EdgeSigns;
use crate::kinds::Kinds;
use crate::surface::SignedSurface;
use std::alloc::Global;
use std::marker::Model;
use surf_base::{NoMemory, VertexId};
use surf_bits::Signature;
use surf_mesh::HalfMesh;
use surf_near::{Links, NearDesk};

/// For each vertex that a search reached the number of a class: the sum of the signatures of the
/// edges on its way up to the base. Few ways differ in class, so classes are kept once.
#[derive(Drop)]
pub(crate) struct Ways {
    numbers: Vec<u32>,
    classes: Classes,
}

impl Model for Ways {
    ghost use Rattle.surf_finder.specs.Ways.{WayTables};

    ghost Value = { WayTables };

    ghost view = { λ w. record { numbers = w.numbers.items; classes = w.classes } };
}

// The number of the class that differs from another by the signature of a kind of edges.
fn number_beyond(
    classes: &mut Classes,
    above: u32,
    kinds: &Kinds,
    kind: u32,
) -> Result<u32, NoMemory>
    requires above { above < length classes.old }
    requires few { length classes.old < 2 ^ 32 }
    requires kind { kind < length kinds.now.signatures }
    requires none { slice_index kinds.now.signatures 0 ≡ 0 }
    ensures number { IfOk result (λ k. (k < length classes.new)
        × (slice_index classes.new k ≡ bit_xor (slice_index classes.old above)
        (slice_index kinds.now.signatures kind))) }
    ensures more { length classes.old ≤ length classes.new }
    ensures one { length classes.new ≤ length classes.old + 1 }
    ensures same { (k : ℕ) → k < length classes.old → slice_index classes.new k
        ≡ slice_index classes.old k }
{
    if kind == 0 {
        return Ok(above);
    }
    let mut class = classes.class(above).copy();
    class.add(kinds.signature(kind).bits());
    let sum = classes.hash(above) ^ kinds.hash(kind);
    classes.number_of(class, sum)
}

impl Ways {
    /// Room for the vertices of a surface.
    pub fn make(alloc: Global, mesh: &HalfMesh) -> Result<Ways, NoMemory>
        ensures made { IfOk result (λ ways. length ways.numbers ≡ mesh.now.vertices) }
    {
        Ok(Ways {
            numbers: vec![in alloc; 0u32; mesh.vertices() as usize]?,
            classes: Classes::make(alloc)?,
        })
    }

    // Numbers the class of the way to a vertex, where that of its parent's is known.
    fn add(
        &mut self,
        desk: &NearDesk,
        signatures: &EdgeSigns,
        kinds: &Kinds,
        base: VertexId,
        v: VertexId,
    ) -> Result<(), NoMemory>
        requires vertex { v < length self.old.numbers }
        requires parents { v < length desk.now.parents }
        requires ups { v < length desk.now.ups }
        requires none { HasNone self.old }
        requires parent { v ≢ base → HasParent signatures.now desk.now self.old v }
        requires few { length self.old.classes < 2 ^ 32 }
        requires kinds { AreKinds signatures.now kinds.now }
        ensures numbered { OnOk result (IsNumbered signatures.now desk.now base v
            self.old self.new) }
        ensures none { OnOk result (HasNone self.new) }
        ensures count { length self.new.numbers ≡ length self.old.numbers }
        ensures one { length self.new.classes ≤ length self.old.classes + 1 }
    {
        let mut number = 0;
        if v != base {
            let above = self.numbers[desk.parent(v).index()];
            let kind = kinds.kind(desk.up(v));
            number = number_beyond(&mut self.classes, above, kinds, kind)?;
        }
        self.numbers[v.index()] = number;
        Ok(())
    }

    /// Numbers the classes of the ways to all vertices that a search from a base has reached.
    pub fn sum(
        &mut self,
        surface: &SignedSurface<'_>,
        links: &Links<'_>,
        desk: &NearDesk,
        kinds: &Kinds,
        base: VertexId,
    ) -> Result<(), NoMemory>
        requires reached { IsReached surface.now.mesh.now links.now.lengths base desk.now }
        requires links { links.now.mesh ≡ surface.now.mesh.now }
        requires base { base < surface.now.mesh.now.vertices }
        requires signatures { length surface.now.signatures.now.signatures
            ≡ edge_count surface.now.mesh.now }
        requires kinds { AreKinds surface.now.signatures.now kinds.now }
        requires count { length self.old.numbers ≡ surface.now.mesh.now.vertices }
        ensures ways { OnOk result (AreWays surface.now.mesh.now links.now.lengths base
            surface.now.signatures.now desk.now self.new) }
        ensures count { length self.new.numbers ≡ surface.now.mesh.now.vertices }
    {
        surface.mesh.law_of_surface();
        links.law_of_links();
        self.classes.begin()?;
        for v in desk.settled() {
            self.add(desk, surface.signatures, kinds, base, *v)?;
        }
        Ok(())
    }

    /// The number of the class of a way.
    pub fn number(&self, v: VertexId) -> u32
        requires vertex { v < length self.now.numbers }
        ensures number { result ≡ slice_index self.now.numbers v }
    {
        self.numbers[v.index()]
    }

    /// The class of a number.
    pub fn class(&self, number: u32) -> &Signature
        requires number { number < length self.now.classes }
        ensures class { result.now ≡ slice_index self.now.classes number }
    {
        self.classes.class(number)
    }

    /// The hash of that class.
    pub fn hash(&self, number: u32) -> u64
        requires number { number < length self.now.classes }
    {
        self.classes.hash(number)
    }

    /// Whether two ways have one class by their numbers.
    pub fn are_alike(&self, u: VertexId, v: VertexId) -> bool
        requires first { u < length self.now.numbers }
        requires second { v < length self.now.numbers }
        ensures alike { IsTrue result → class_at self.now u ≡ class_at self.now v }
        ensures numbers { result ≡ (slice_index self.now.numbers u
            == slice_index self.now.numbers v) }
    {
        self.numbers[u.index()] == self.numbers[v.index()]
    }
}
