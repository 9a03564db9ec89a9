//! Settles the vertices within a radius of a base where all edges have one length but those that
//! lead past the radius.
ghost use Rattle.std.specs.Prelude.{◌≡◌, ◌<◌, ◌≤◌, ◌+◌, length};
ghost use Rattle.surf_base.specs.Tables.{at};
ghost use Rattle.surf_near.specs.Links.{AreLinks, AreEvenOrPast, graph_of, weight_of};
ghost use Rattle.surf_near.specs.Searching.{IsBlank, IsFound, HasLooked, IsQueueOf};

use crate::links::{Links, length_past};
use crate::tables::{Choice, NEVER, Tables};
use surf_base::{NOBODY, VertexId};

// Looks at the links of the listed vertex at a place: chooses its parent and its least vertex among
// the settled neighbours, and lists the others, as far as the radius. Few links get as far as the
// question whether they are barred, so it comes last.
fn look_ahead(
    links: &Links<'_>,
    tables: &mut Tables,
    place: usize,
    size: u32,
    radius: u64,
) -> Choice
    requires links { AreLinks links.now.mesh links.now.lengths links.now.rows }
    requires even { AreEvenOrPast links.now.lengths radius size }
    requires queue { IsQueueOf links.now size radius tables.old place }
    requires place { place < tables.old.count }
    ensures looked { HasLooked links.now size radius tables.new place result }
    ensures first { at tables.new.order.items 0 ≡ at tables.old.order.items 0 }
    ensures same { at tables.new.order.items place ≡ at tables.old.order.items place }
{
    let v = tables.order[place];
    let d = tables.distance[v.index()];
    let next = d + u64::from(size);
    let mut best = Choice {
        parent: NOBODY,
        up: NOBODY,
        least: v.number(),
    };
    let around = links.around(v);
    for link in around.links {
        let to = link.to.number();
        let there = tables.distance[link.to.index()];
        if there == NEVER {
            if next <= radius && length_past(around.barred, around.shut, link) == size {
                tables.list(to, next);
            }
        } else if there + u64::from(size) == d
            && length_past(around.barred, around.shut, link) == size
        {
            best = best.with_tight(to, link.edge.number(), tables.least[link.to.index()]);
        }
    }
    best
}

/// Settles the vertices within a radius, where all edges have the length `size` but those that lead
/// past the radius. The list of settled vertices is the queue. It takes no memory.
pub(crate) fn settle_even(
    links: &Links<'_>,
    tables: &mut Tables,
    size: u32,
    base: VertexId,
    radius: u64,
)
    requires links { AreLinks links.now.mesh links.now.lengths links.now.rows }
    requires even { AreEvenOrPast links.now.lengths radius size }
    requires base { base < links.now.mesh.vertices }
    requires blank { IsBlank links.now.mesh.vertices tables.old }
    ensures found { IsFound (graph_of links.now) (weight_of links.now) base radius tables.new }
{
    tables.list(base.number(), 0);
    let mut place = 0;
    while place < tables.count {
        let v = tables.order[place].number();
        let choice = look_ahead(links, tables, place, size, radius);
        tables.keep(v, choice);
        place += 1;
    }
}
