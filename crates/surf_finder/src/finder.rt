//! Searches from one vertex after the other, and the loops that they find.
ghost use Rattle.std.specs.Prelude.{ℕ, ◌≡◌, ◌<◌, ◌+◌, true, IsTrue, All, slice_set, slice_index, map, length, IfOk, OnOk};
ghost use Rattle.surf_surfaces.specs.Surface.{edge_count, IsSurface};
ghost use Rattle.surf_surfaces.specs.Walk.{ArePositive};
ghost use Rattle.surf_firsts.specs.Near.{AgreeOff};
ghost use Rattle.surf_near.specs.Links.{IsShutAt};
ghost use Rattle.surf_near.specs.Near.{AreNearTables, IsNear, is_near};
ghost use Rattle.surf_finder.specs.Walks.{AreWalksOf, AreWrittenTo, IsKnown, IsMeasured, IsReachedTo};
ghost use Rattle.surf_finder.specs.Found.{surface_of, AreFirstFound, IsFirstAt};
ghost use Rattle.surf_finder.specs.Kinds.{AreKinds};
ghost use Rattle.surf_finder.specs.Passing.{is_marked, AreMarkedNear, AreNoShorter, AreShut};
ghost use Rattle.surf_finder.specs.Places.{AreDistances, radius_of};
ghost use Rattle.surf_finder.specs.Ways.{AreWays};

use crate::foremost::first_told;
use crate::keys::Keys;
use crate::kinds::Kinds;
use crate::marks::mark_all;
use crate::reached::{Reached, radius};
use crate::rises::Rises;
use crate::surface::SignedSurface;
use crate::told_loops::{Ties, list_loops};
use crate::walks::{greatest_at, write_walks};
use crate::ways::Ways;
use std::alloc::Global;
use std::marker::Model;
use surf_base::{NoMemory, VertexId};
use surf_choice::{Candidate, Signed};
use surf_mesh::Walk;
use surf_near::{Links, NearDesk};

/// The tables of one search at a time: what it reached, how far it went, where that is known, and
/// the classes of the ways there.
#[derive(Drop)]
struct Tables {
    desk: NearDesk,
    far: Option<u64>,
    ways: Ways,
}

impl Tables {
    // Searches from a base as far as given. The last search will do if it was from there and went
    // as far.
    fn grow(&mut self, links: &Links<'_>, base: VertexId, far: u64)
        requires base { base < links.now.mesh.vertices }
        requires made { AreNearTables links.now.mesh self.old.desk }
        requires known { IsKnown links.now.mesh links.now.lengths self.old.desk self.old.far }
        ensures reached { IsReachedTo links.now.mesh links.now.lengths base far self.new.desk }
        ensures known { IsKnown links.now.mesh links.now.lengths self.new.desk self.new.far }
        ensures ways { self.new.ways ≡ self.old.ways }
    {
        if let Some(went) = self.far
            && far <= went
            && self.desk.base() == base
        {
            return;
        }
        self.desk.grow(links, base, far);
        self.far = Some(far);
    }

    // Searches from a base, as far as it must to find the loops before a limit.
    fn reach(
        &mut self,
        surface: &SignedSurface<'_>,
        links: &Links<'_>,
        kinds: &Kinds,
        base: VertexId,
        limit: &Option<Candidate>,
    ) -> Result<(), NoMemory>
        requires base { base < surface.now.mesh.now.vertices }
        requires links { links.now.mesh ≡ surface.now.mesh.now }
        requires signatures { length surface.now.signatures.now.signatures
            ≡ edge_count surface.now.mesh.now }
        requires kinds { AreKinds surface.now.signatures.now kinds.now }
        requires made { AreNearTables surface.now.mesh.now self.old.desk }
        requires numbers { length self.old.ways.numbers ≡ surface.now.mesh.now.vertices }
        ensures near { IsNear surface.now.mesh.now links.now.lengths base (radius_of limit.now)
            self.new.desk }
        ensures settled { All (λ v. (v < surface.now.mesh.now.vertices)
            × IsTrue (is_near self.new.desk v)) self.new.desk.settled }
        ensures ways { OnOk result (AreWays surface.now.mesh.now links.now.lengths base
            surface.now.signatures.now self.new.desk self.new.ways) }
        ensures numbers { length self.new.ways.numbers ≡ surface.now.mesh.now.vertices }
        ensures known { IsKnown links.now.mesh links.now.lengths self.new.desk self.new.far }
    {
        surface.mesh.law_of_surface();
        links.law_of_links();
        let far = radius(limit);
        self.desk.grow(links, base, far);
        self.far = Some(far);
        self.ways.sum(surface, links, &self.desk, kinds, base)
    }
}

/// Finds the loops of edges at one vertex after the other. Its lengths are those of its links,
/// which may bar the ways through some vertices.
#[derive(Drop)]
pub struct Finder<'a> {
    surface: SignedSurface<'a>,
    links: Links<'a>,
    tables: Tables,
    rises: Rises,
    keys: Keys,
}

impl<'a> Model for Finder<'a> {
    ghost use Rattle.std.specs.Prelude.{◌≡◌, length};
    ghost use Rattle.surf_surfaces.specs.Surface.{edge_count};
    ghost use Rattle.surf_near.specs.Near.{AreNearTables};
    ghost use Rattle.surf_finder.specs.Found.{SurfaceTables};
    ghost use Rattle.surf_finder.specs.Rises.{AreStarts};
    ghost use Rattle.surf_finder.specs.Walks.{IsKnown};

    ghost Value = { SurfaceTables };

    ghost view = { λ f. record {
      mesh = f.surface.mesh.now;
      lengths = f.links.lengths;
      signs = f.surface.signatures.now;
      given = f.links.given;
    } };

    ghost invariant = { λ f. (f.links.mesh ≡ f.surface.mesh.now)
        × AreNearTables f.surface.mesh.now f.tables.desk
        × IsKnown f.links.mesh f.links.lengths f.tables.desk f.tables.far
        × (length f.tables.ways.numbers ≡ f.surface.mesh.now.vertices)
        × (length f.surface.signatures.now.signatures ≡ edge_count f.surface.mesh.now)
        × AreStarts f.surface.mesh.now f.rises };
}

// Lists the distances of the vertices that a search has settled, in its order.
fn list_distances(alloc: Global, desk: &NearDesk) -> Result<Vec<u64>, NoMemory>
    requires inside { All (λ v. v < length desk.now.distances) desk.now.settled }
    ensures distances { IfOk result (λ list.
        list.items ≡ map (slice_index desk.now.distances) desk.now.settled) }
{
    let mut list = Vec::new(alloc);
    for v in desk.settled() {
        list.push(desk.distance(*v))?;
    }
    Ok(list)
}

impl<'a> Finder<'a> {
    /// A finder of loops on a surface.
    pub fn make(alloc: Global, surface: &SignedSurface<'a>) -> Result<Finder<'a>, NoMemory>
        requires lengths { length surface.now.lengths.now ≡ edge_count surface.now.mesh.now }
        requires signatures { length surface.now.signatures.now.signatures
            ≡ edge_count surface.now.mesh.now }
        ensures made { IfOk result (λ finder. finder ≡ surface_of surface.now) }
    {
        let surface = SignedSurface {
            mesh: surface.mesh,
            lengths: surface.lengths,
            signatures: surface.signatures,
        };
        let links = Links::make(alloc, surface.mesh, surface.lengths)?;
        let tables = Tables {
            desk: NearDesk::make(alloc, surface.mesh)?,
            far: None,
            ways: Ways::make(alloc, surface.mesh)?,
        };
        let rises = Rises::make(alloc, surface.mesh)?;
        Ok(Finder {
            surface,
            links,
            tables,
            rises,
            keys: Keys::make(alloc)?,
        })
    }

    /// Finds the loops at a base that aren't null and come before a limit, if there is one. Of
    /// those of one class it leaves out the later ones, as far as it sees that they are of one
    /// class. `ties` says which is first of two of one length.
    pub fn find(
        &mut self,
        base: VertexId,
        limit: &Option<Candidate>,
        ties: Ties,
        found: &mut Vec<Signed>,
    ) -> Result<(), NoMemory>
        requires base { base < self.old.mesh.vertices }
        ensures found { OnOk result (AreFirstFound ties self.old.mesh self.old.lengths self.old.signs
            limit.now base found.new.items) }
        ensures same { self.new ≡ self.old }
    {
        self.surface.mesh.law_of_surface();
        self.links.law_of_links();
        let kinds = self.surface.signatures.kinds();
        self.tables
            .reach(&self.surface, &self.links, kinds, base, limit)?;
        let reached = Reached {
            surface: &self.surface,
            links: &self.links,
            kinds,
            rises: &self.rises,
            desk: &self.tables.desk,
            ways: &self.tables.ways,
        };
        list_loops(&reached, ties, limit, &mut self.keys, found)
    }

    /// How many vertices the surface has.
    pub fn vertices(&self) -> u32
        ensures vertices { result ≡ self.now.mesh.vertices }
    {
        self.surface.mesh.vertices()
    }

    /// What is true of the surface and the lengths that are searched. A caller whose proof rests on
    /// that calls it; it does nothing.
    pub fn law_of_finder(&self)
        ensures surface { IsSurface self.now.mesh }
        ensures positive { ArePositive self.now.mesh self.now.lengths }
    {
        self.surface.mesh.law_of_surface();
        self.links.law_of_links();
    }

    /// The distances of the vertices from a base, the least first.
    pub fn distances(&mut self, alloc: Global, base: VertexId) -> Result<Vec<u64>, NoMemory>
        requires base { base < self.old.mesh.vertices }
        ensures each { IfOk result (λ list. AreDistances self.old.mesh self.old.lengths base
            list.items) }
        ensures same { self.new ≡ self.old }
    {
        self.surface.mesh.law_of_surface();
        self.links.law_of_links();
        self.tables.grow(&self.links, base, u64::MAX);
        list_distances(alloc, &self.tables.desk)
    }

    /// Marks a vertex, and bars the ways through it.
    pub fn mark(&mut self, v: VertexId, marks: &mut [bool])
        requires vertex { v < self.old.mesh.vertices }
        requires marks { length marks.old ≡ self.old.mesh.vertices }
        ensures marks { marks.new ≡ slice_set marks.old v true }
        ensures shut { IsShutAt self.old.mesh v self.new.lengths }
        ensures off { AgreeOff self.old.mesh self.old.lengths self.new.lengths
            (is_marked marks.new) }
        ensures no_shorter { AreNoShorter self.old.mesh self.old.lengths self.new.lengths }
        ensures mesh { self.new.mesh ≡ self.old.mesh }
        ensures signs { self.new.signs ≡ self.old.signs }
        ensures given { self.new.given ≡ self.old.given }
    {
        self.links.law_of_links();
        marks[v.index()] = true;
        self.links.bar(v);
        self.tables.far = None;
    }

    /// Marks the vertices that are no farther from a base than a distance, and bars the ways
    /// through them.
    pub fn mark_near(&mut self, base: VertexId, far: u64, marks: &mut [bool])
        requires base { base < self.old.mesh.vertices }
        requires marks { length marks.old ≡ self.old.mesh.vertices }
        ensures near { AreMarkedNear self.old.mesh self.old.lengths base far marks.old marks.new }
        ensures shut { AreShut self.old.mesh self.new.lengths marks.old marks.new }
        ensures off { AgreeOff self.old.mesh self.old.lengths self.new.lengths
            (is_marked marks.new) }
        ensures no_shorter { AreNoShorter self.old.mesh self.old.lengths self.new.lengths }
        ensures stay { (v : ℕ) → IsTrue (is_marked marks.old v) → IsTrue (is_marked marks.new v) }
        ensures count { length marks.new ≡ length marks.old }
        ensures mesh { self.new.mesh ≡ self.old.mesh }
        ensures signs { self.new.signs ≡ self.old.signs }
        ensures given { self.new.given ≡ self.old.given }
    {
        self.surface.mesh.law_of_surface();
        self.links.law_of_links();
        self.tables.desk.grow(&self.links, base, far);
        mark_all(self.tables.desk.settled(), &mut self.links, marks);
        self.tables.far = None;
    }

    /// Lets no vertex be barred any more: each edge has its given length again.
    pub fn unbar(&mut self)
        ensures unbarred { self.new ≡ record self.old { lengths = self.old.given } }
    {
        self.links.unbar();
        self.tables.far = None;
    }

    // Writes the walk of a candidate's loop, if it isn't there yet, and with it those of all others
    // at its base, by one search that goes as far as the longest of them needs.
    fn write_from(
        &mut self,
        alloc: Global,
        k: usize,
        kept: &[Signed],
        walks: &mut [Walk],
    ) -> Result<(), NoMemory>
        requires place { k < length kept.now }
        requires measured { All (λ s. IsMeasured self.old.mesh self.old.lengths s.candidate)
            kept.now }
        requires before { AreWrittenTo self.old.mesh self.old.lengths kept.now k walks.old }
        ensures written { OnOk result (AreWrittenTo self.old.mesh self.old.lengths kept.now (k + 1)
            walks.new) }
        ensures count { length walks.new ≡ length walks.old }
        ensures same { self.new ≡ self.old }
    {
        if !walks[k].vertices().is_empty() {
            return Ok(());
        }
        self.surface.mesh.law_of_surface();
        self.links.law_of_links();
        let base = kept[k].candidate.base;
        let far = greatest_at(kept, base) / 2;
        self.tables.grow(&self.links, base, far);
        write_walks(
            alloc,
            self.surface.mesh,
            &self.links,
            &self.tables.desk,
            kept,
            walks,
        )
    }

    /// Writes the walks of the loops of candidates, whose lengths are those of the loops, where they
    /// aren't written yet. There is one search for each base of these, and none for that of the last
    /// search, if this went far enough.
    pub fn write_walks(
        &mut self,
        alloc: Global,
        kept: &[Signed],
        walks: &mut [Walk],
    ) -> Result<(), NoMemory>
        requires measured { All (λ s. IsMeasured self.old.mesh self.old.lengths s.candidate)
            kept.now }
        requires before { AreWrittenTo self.old.mesh self.old.lengths kept.now 0 walks.old }
        ensures walks { OnOk result (AreWalksOf self.old.mesh self.old.lengths kept.now walks.new) }
        ensures same { self.new ≡ self.old }
    {
        for k in 0..kept.len() {
            self.write_from(alloc, k, kept, walks)?;
        }
        Ok(())
    }

    /// The first of a limit, if there is one, and the loops at a base that aren't null and come
    /// before it.
    pub fn first_loop(
        &mut self,
        base: VertexId,
        limit: &Option<Candidate>,
    ) -> Result<Option<Candidate>, NoMemory>
        requires base { base < self.old.mesh.vertices }
        ensures first { IfOk result (λ first. IsFirstAt self.old limit.now base first) }
        ensures same { self.new ≡ self.old }
    {
        self.surface.mesh.law_of_surface();
        self.links.law_of_links();
        let kinds = self.surface.signatures.kinds();
        self.tables
            .reach(&self.surface, &self.links, kinds, base, limit)?;
        let reached = Reached {
            surface: &self.surface,
            links: &self.links,
            kinds,
            rises: &self.rises,
            desk: &self.tables.desk,
            ways: &self.tables.ways,
        };
        Ok(first_told(&reached, limit))
    }
}
