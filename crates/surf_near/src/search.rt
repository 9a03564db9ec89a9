//! Settles the vertices within a radius of a base, the nearest first.
ghost use Rattle.std.specs.Prelude.{◌≡◌, ◌<◌, ◌≤◌, ◌+◌, ◌^◌, ◌≢◌, length};
ghost use Rattle.surf_lengths.specs.Lengths.{longest};
ghost use Rattle.surf_base.specs.Tables.{at};
ghost use Rattle.surf_near.specs.Links.{AreLinks, AreUpToOrPast, graph_of, weight_of};
ghost use Rattle.surf_near.specs.Near.{never};
ghost use Rattle.surf_near.specs.Searching.{IsShort, Chooses, Offers, IsBlank, IsFound};

use crate::fringe::Fringe;
use crate::links::{Links, length_past};
use crate::tables::{Choice, NEVER, Tables};
use surf_base::{NOBODY, VertexId};

// Looks at the links of a vertex that was just settled: chooses its parent and its least vertex
// among the settled neighbours, and offers the others to the fringe, as far as the radius. A bar
// only makes an edge longer, so its flags are read where the given length would do.
fn look_round(
    links: &Links<'_>,
    distance: &[u64],
    least: &[u32],
    fringe: &mut Fringe,
    v: VertexId,
    radius: u64,
) -> Choice
    requires vertex { v < links.now.mesh.vertices }
    requires distances { length distance.now ≡ links.now.mesh.vertices }
    requires leasts { length least.now ≡ links.now.mesh.vertices }
    requires places { length fringe.old.entries ≡ links.now.mesh.vertices }
    requires now { fringe.old.now ≡ at distance.now v }
    requires step { AreUpToOrPast links.now.lengths radius fringe.old.step }
    requires fits { IsShort links.now.mesh.vertices (at distance.now) }
    requires settled { at distance.now v ≢ never }
    ensures choice { Chooses links.now distance.now least.now v result }
    ensures offers { Offers links.now distance.now v radius fringe.old.entries fringe.new.entries }
    ensures places { length fringe.new.entries ≡ length fringe.old.entries }
    ensures step { fringe.new.step ≡ fringe.old.step }
{
    let d = distance[v.index()];
    let mut best = Choice {
        parent: NOBODY,
        up: NOBODY,
        least: v.number(),
    };
    let around = links.around(v);
    for link in around.links {
        let to = link.to.number();
        let there = distance[link.to.index()];
        if there == NEVER {
            if d + u64::from(link.length) <= radius {
                let reached = d + u64::from(length_past(around.barred, around.shut, link));
                if reached <= radius {
                    fringe.offer(to, reached);
                }
            }
        } else if there + u64::from(link.length) <= d
            && there + u64::from(length_past(around.barred, around.shut, link)) == d
        {
            best = best.with_tight(to, link.edge.number(), least[link.to.index()]);
        }
    }
    best
}

/// Settles the vertices within a radius. It takes no memory.
pub(crate) fn settle_near(
    links: &Links<'_>,
    tables: &mut Tables,
    fringe: &mut Fringe,
    base: VertexId,
    radius: u64,
)
    requires links { AreLinks links.now.mesh links.now.lengths links.now.rows }
    requires base { base < links.now.mesh.vertices }
    requires blank { IsBlank links.now.mesh.vertices tables.old }
    requires places { length fringe.old.entries ≡ links.now.mesh.vertices }
    ensures found { IsFound (graph_of links.now) (weight_of links.now) base radius tables.new }
    ensures places { length fringe.new.entries ≡ links.now.mesh.vertices }
{
    fringe.clear(links.step(radius));
    fringe.offer(base.number(), 0);
    while let Some((v, d)) = fringe.take_least() {
        tables.list(v, d);
        let choice = look_round(
            links,
            &tables.distance,
            &tables.least,
            fringe,
            VertexId::new(v),
            radius,
        );
        tables.keep(v, choice);
    }
}
