//! The tables of one search at a time.
ghost use Rattle.std.specs.Prelude.{◌≡◌, ◌<◌, ◌≤◌, length, slice_index, IfOk};
ghost use Rattle.surf_near.specs.Links.{AreLinks, graph_of, weight_of};
ghost use Rattle.surf_near.specs.Searching.{IsBlank, IsFound};
ghost use Rattle.surf_near.specs.Near.{NearTables, AreNearTables, IsNear, is_near};

use crate::even::settle_even;
use crate::fringe::Fringe;
use crate::links::Links;
use crate::search::settle_near;
use crate::tables::{NEVER, Tables, forget};
use std::alloc::Global;
use std::marker::Model;
use surf_base::{EdgeId, NoMemory, VertexId};
use surf_mesh::HalfMesh;

/// The vertices within a radius of a base, the nearest first, and for each of them its distance,
/// its parent in the tree of shortest walks with the edge to that, and the least vertex on a
/// shortest walk to it.
#[derive(Drop)]
pub struct NearDesk {
    fringe: Fringe,
    tables: Tables,
    base: VertexId,
}

impl Model for NearDesk {
    ghost use Rattle.std.specs.Prelude.{take};
    ghost use Rattle.surf_near.specs.Links.{AreLinks, graph_of, weight_of};
    ghost use Rattle.surf_near.specs.Searching.{IsBlank, IsFound};
    ghost use Rattle.surf_near.specs.Near.{NearTables};
    ghost use Rattle.surf_near.specs.Searching.{IsKept};

    ghost Value = { NearTables };

    ghost view = { λ d. record {
      base = d.base;
      settled = take d.tables.count d.tables.order.items;
      distances = d.tables.distance.items;
      parents = d.tables.parent.items;
      ups = d.tables.up.items;
      leasts = d.tables.least.items;
    } };

    ghost invariant = { λ d. IsKept d.fringe.entries d.tables };
}

// Settles the vertices within a radius, by a queue where one will do.
fn settle(links: &Links<'_>, tables: &mut Tables, fringe: &mut Fringe, base: VertexId, radius: u64)
    requires base { base < links.now.mesh.vertices }
    requires blank { IsBlank links.now.mesh.vertices tables.old }
    requires places { length fringe.old.entries ≡ links.now.mesh.vertices }
    ensures links { AreLinks links.now.mesh links.now.lengths links.now.rows }
    ensures found { IsFound (graph_of links.now) (weight_of links.now) base radius tables.new }
    ensures places { length fringe.new.entries ≡ links.now.mesh.vertices }
{
    links.law_of_links();
    match links.even(radius) {
        Some(size) => settle_even(links, tables, size, base, radius),
        None => settle_near(links, tables, fringe, base, radius),
    }
}

impl NearDesk {
    /// A desk for searches of a mesh, and of every mesh with as many vertices. No later call takes
    /// memory.
    pub fn make(alloc: Global, mesh: &HalfMesh) -> Result<NearDesk, NoMemory>
        ensures made { IfOk result (λ desk. AreNearTables mesh.now desk) }
    {
        let vertices = mesh.vertices() as usize;
        let fringe = Fringe::make(alloc, mesh.vertices())?;
        let order = vec![in alloc; VertexId::new(0); vertices]?;
        let distance = vec![in alloc; NEVER; vertices]?;
        let parent = vec![in alloc; 0u32; vertices]?;
        let up = vec![in alloc; 0u32; vertices]?;
        let least = vec![in alloc; 0u32; vertices]?;
        let tables = Tables {
            order,
            count: 0,
            distance,
            parent,
            up,
            least,
        };
        let base = VertexId::new(0);
        Ok(NearDesk {
            fringe,
            tables,
            base,
        })
    }

    /// Settles the vertices at distance at most `radius` from a base. It takes no memory and can't
    /// be refused.
    pub fn grow(&mut self, links: &Links<'_>, base: VertexId, radius: u64)
        requires made { AreNearTables links.now.mesh self.old }
        requires base { base < links.now.mesh.vertices }
        ensures near { IsNear links.now.mesh links.now.lengths base radius self.new }
    {
        forget(
            &self.tables.order[..self.tables.count],
            &mut self.tables.distance,
        );
        self.tables.count = 0;
        settle(links, &mut self.tables, &mut self.fringe, base, radius);
        self.base = base;
    }

    /// The base.
    pub fn base(&self) -> VertexId
        ensures base { result ≡ self.now.base }
    {
        self.base
    }

    /// The vertices that were settled, by distance, each after its parent.
    pub fn settled(&self) -> &[VertexId]
        ensures settled { result.now ≡ self.now.settled }
        ensures few { length result.now ≤ length self.now.distances }
    {
        &self.tables.order[..self.tables.count]
    }

    /// Whether a vertex was settled.
    #[inline]
    pub fn is_near(&self, v: VertexId) -> bool
        requires vertex { v < length self.now.distances }
        ensures near { result ≡ is_near self.now v }
    {
        self.tables.distance[v.index()] != NEVER
    }

    /// The distance of a settled vertex from the base, and the greatest number for each other.
    #[inline]
    pub fn distance(&self, v: VertexId) -> u64
        requires vertex { v < length self.now.distances }
        ensures distance { result ≡ slice_index self.now.distances v }
    {
        self.tables.distance[v.index()]
    }

    /// The least neighbour from which an edge leads to the distance of a settled vertex that isn't
    /// the base.
    #[inline]
    pub fn parent(&self, v: VertexId) -> VertexId
        requires vertex { v < length self.now.parents }
        ensures parent { result ≡ slice_index self.now.parents v }
    {
        VertexId::new(self.tables.parent[v.index()])
    }

    /// The edge to the parent of a settled vertex that isn't the base.
    #[inline]
    pub fn up(&self, v: VertexId) -> EdgeId
        requires vertex { v < length self.now.ups }
        ensures up { result ≡ slice_index self.now.ups v }
    {
        EdgeId::new(self.tables.up[v.index()])
    }

    /// The least vertex on a shortest walk from the base to a settled vertex.
    #[inline]
    pub fn least(&self, v: VertexId) -> VertexId
        requires vertex { v < length self.now.leasts }
        ensures least { result ≡ slice_index self.now.leasts v }
    {
        VertexId::new(self.tables.least[v.index()])
    }
}
