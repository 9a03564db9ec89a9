//! The links of each vertex, side by side.
ghost use Rattle.std.specs.Prelude.{◌≡◌, ◌<◌, ◌≤◌, ℕ, ◌⊎◌, true, false, length};
ghost use Rattle.std.specs.Prelude.{All, IfOk, OnOk, MatchOption, ⊤, ◌||◌, slice_index_or};
ghost use Rattle.surf_surfaces.specs.Mesh.{IsMesh};
ghost use Rattle.surf_surfaces.specs.Surface.{edge_count};
ghost use Rattle.surf_surfaces.specs.Walk.{edge_length};
ghost use Rattle.surf_lengths.specs.Lengths.{longest};
ghost use Rattle.surf_near.specs.Links.{AreLinks, AreLinksAt, AreGivenAt, AreUpToOrPast};
ghost use Rattle.surf_near.specs.Links.{link_in, degree, length_past};
ghost use Rattle.surf_near.specs.Links.{AreEvenOrPast, KeepsOff, IsShutAt};

use crate::sizes::{Sizes, sizes_of};
use std::alloc::Global;
use std::marker::Model;
use surf_base::{EdgeId, NoMemory, VertexId};
use surf_lengths::Lengths;
use surf_mesh::HalfMesh;
use surf_rows::Rows;
use surf_tree::even_length;

/// A neighbour of a vertex, and the given length and the number of the edge to it.
#[derive(Clone, Copy)]
pub struct Link {
    pub to: VertexId,
    pub length: u32,
    pub edge: EdgeId,
}

/// The links of one vertex, the flags of all, and the vertex's own flag.
#[derive(Clone, Copy)]
pub(crate) struct Around<'l> {
    pub links: &'l [Link],
    pub barred: &'l [bool],
    pub shut: bool,
}

/// The links of each vertex of a mesh, whose edges have lengths. Vertices may be barred: each edge
/// at one of them then has the greatest length that there is, until no vertex is barred any more.
#[derive(Drop)]
pub struct Links<'m> {
    mesh: &'m HalfMesh,
    lengths: &'m Lengths,
    rows: Rows<Link>,
    barred: Vec<bool>,
    even: Option<u32>,
    barring: bool,
    sizes: Sizes,
}

impl<'m> Model for Links<'m> {
    ghost use Rattle.surf_near.specs.Links.{LinkTables, AreKept, barred_lengths};

    ghost Value = { LinkTables };

    ghost view = { λ l. record {
      mesh = l.mesh.now;
      lengths = barred_lengths l.mesh.now l.barred.items l.lengths.now;
      rows = l.rows;
      given = l.lengths.now;
    } };

    ghost invariant = { λ l.
        AreKept l.mesh.now l.lengths.now l.rows l.barred.items l.even l.barring l.sizes };
}

// Lists the links of one vertex.
fn list_links(
    mesh: &HalfMesh,
    lengths: &Lengths,
    v: VertexId,
    row: &mut Vec<Link>,
) -> Result<(), NoMemory>
    requires mesh { IsMesh mesh.now }
    requires vertex { v < mesh.now.vertices }
    requires lengths { length lengths.now ≡ edge_count mesh.now }
    ensures links { OnOk result (AreGivenAt mesh.now lengths.now v row.new.items) }
    ensures few { OnOk result (length row.new.items ≡ degree mesh.now v) }
{
    let edges = mesh.ring_edges(v);
    row.clear();
    for e in edges {
        row.push(Link {
            to: mesh.other_end(v, *e),
            length: lengths.of(*e),
            edge: *e,
        })?;
    }
    Ok(())
}

/// The length that a link of a vertex stands for, by whether the vertex is barred.
#[inline]
pub(crate) fn length_past(barred: &[bool], shut: bool, link: &Link) -> u32
    requires flag { link.now.to < length barred.now }
    ensures length { result ≡ length_past barred.now shut link.now }
{
    if shut || barred[link.to.index()] {
        u32::MAX
    } else {
        link.length
    }
}

// Whether one of two vertices is barred.
#[inline]
fn is_either_barred(barred: &[bool], low: VertexId, high: VertexId) -> bool
    requires low { low < length barred.now }
    requires high { high < length barred.now }
    ensures either { result
        ≡ (slice_index_or barred.now low false || slice_index_or barred.now high false) }
{
    barred[low.index()] || barred[high.index()]
}

// Whether each barred edge leads past a radius, if there is one at all.
fn is_past_bars(barring: bool, radius: u64) -> bool
    ensures past { result ≡ true → (radius < longest) ⊎ (barring ≡ false) }
    ensures met { result ≡ false → (longest ≤ radius) × (barring ≡ true) }
{
    !barring || radius < u64::from(u32::MAX)
}

impl<'m> Links<'m> {
    /// The links of a mesh with its lengths. No vertex is barred.
    pub fn make(
        alloc: Global,
        mesh: &'m HalfMesh,
        lengths: &'m Lengths,
    ) -> Result<Links<'m>, NoMemory>
        requires lengths { length lengths.now ≡ edge_count mesh.now }
        ensures mesh { IfOk result (λ links. links.mesh ≡ mesh.now) }
        ensures lengths { IfOk result (λ links. links.lengths ≡ lengths.now) }
        ensures given { IfOk result (λ links. links.given ≡ lengths.now) }
    {
        let links = Vec::with_capacity(alloc, 2 * mesh.edges() as usize)?;
        let ends = Vec::with_capacity(alloc, mesh.vertices() as usize)?;
        let mut rows = Rows::in_room(links, ends);
        let mut row = Vec::new(alloc);
        for v in 0..mesh.vertices() {
            list_links(mesh, lengths, VertexId::new(v), &mut row)?;
            rows.push(&row)?;
        }
        let barred = vec![in alloc; false; mesh.vertices() as usize]?;
        let even = even_length(lengths);
        let sizes = sizes_of(lengths);
        Ok(Links {
            mesh,
            lengths,
            rows,
            barred,
            even,
            barring: false,
            sizes,
        })
    }

    /// Bars a vertex: each edge there has the greatest length that there is from now on. It takes
    /// no memory.
    pub fn bar(&mut self, v: VertexId)
        requires vertex { v < self.old.mesh.vertices }
        ensures mesh { self.new.mesh ≡ self.old.mesh }
        ensures rows { self.new.rows ≡ self.old.rows }
        ensures given { self.new.given ≡ self.old.given }
        ensures off { KeepsOff self.new.mesh v self.old.lengths self.new.lengths }
        ensures shut { IsShutAt self.new.mesh v self.new.lengths }
    {
        self.barred[v.index()] = true;
        self.barring = true;
    }

    /// Lets no vertex be barred any more: each edge has its given length again. It takes no memory.
    pub fn unbar(&mut self)
        ensures mesh { self.new.mesh ≡ self.old.mesh }
        ensures rows { self.new.rows ≡ self.old.rows }
        ensures given { self.new.given ≡ self.old.given }
        ensures lengths { self.new.lengths ≡ self.old.given }
    {
        self.barred.fill(false);
        self.barring = false;
    }

    /// What all links of this type keep. A caller whose proof rests on that calls it; it does
    /// nothing.
    pub fn law_of_links(&self)
        ensures links { AreLinks self.now.mesh self.now.lengths self.now.rows }
    {
        // The use of a field makes the invariant of the type known.
        let _barring = self.barring;
    }

    /// The length that all edges have but those that lead past a radius, where it is known that
    /// there is one.
    pub(crate) fn even(&self, radius: u64) -> Option<u32>
        ensures even { MatchOption result ⊤ (AreEvenOrPast self.now.lengths radius) }
    {
        if is_past_bars(self.barring, radius) {
            self.even
        } else {
            None
        }
    }

    /// A length that no edge exceeds but those that lead past a radius.
    pub(crate) fn step(&self, radius: u64) -> u32
        ensures step { AreUpToOrPast self.now.lengths radius result }
    {
        if radius < u64::from(self.sizes.least_great) {
            self.sizes.greatest_small
        } else if is_past_bars(self.barring, radius) {
            self.sizes.greatest
        } else {
            u32::MAX
        }
    }

    /// The links of a vertex, with the flags by which their edges are barred.
    pub(crate) fn around(&self, v: VertexId) -> Around<'_>
        requires vertex { v < self.now.mesh.vertices }
        ensures row { AreLinksAt self.now.mesh self.now.lengths v result.links.now }
        ensures inside { All (λ x. x.to < self.now.mesh.vertices) result.links.now }
        ensures flags { length result.barred.now ≡ self.now.mesh.vertices }
        ensures lengths { (k : ℕ) → k < length result.links.now →
            length_past result.barred.now result.shut (link_in result.links.now k)
            ≡ edge_length self.now.lengths (link_in result.links.now k).edge }
        ensures given { (k : ℕ) → k < length result.links.now →
            (link_in result.links.now k).length
            ≤ edge_length self.now.lengths (link_in result.links.now k).edge }
    {
        Around {
            links: self.rows.row(v.index()),
            barred: &self.barred,
            shut: self.barred[v.index()],
        }
    }

    /// The length of an edge: the greatest that there is, if an end of it is barred.
    #[inline]
    pub fn length_of(&self, e: EdgeId) -> u32
        requires edge { e < edge_count self.now.mesh }
        ensures length { result ≡ edge_length self.now.lengths e }
    {
        let (low, high) = self.mesh.ends(e);
        if is_either_barred(&self.barred, low, high) {
            u32::MAX
        } else {
            self.lengths.of(e)
        }
    }
}
