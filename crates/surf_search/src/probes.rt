//! Probes: searches near some edges, before the first round, for loops that are shorter than those
//! that are kept.
ghost use Rattle.std.specs.Prelude.{◌≡◌, ◌<◌, ◌≤◌, ◌^◌, All, OnOk, length};
ghost use Rattle.surf_surfaces.specs.Surface.{edge_count};
ghost use Rattle.surf_finder.specs.Found.{surface_of};
ghost use Rattle.surf_search.specs.Rounds.{StaysEnough};
ghost use Rattle.surf_finder.specs.Signing.{AreSigned};

use crate::round::{capped, keep_at};
use std::alloc::Global;
use surf_base::{EdgeId, NoMemory, VertexId};
use surf_choice::{Choice, Signed};
use surf_finder::{Finder, SignedSurface};

// The length of the last of the first kept loops of which the signature of an edge is a sum.
fn height_of(surface: &SignedSurface<'_>, choice: &Choice, edge: EdgeId) -> u64
    requires edge { edge < edge_count surface.now.mesh.now }
    requires signed { AreSigned surface.now.mesh.now surface.now.signatures.now choice.now.width }
{
    let signature = surface.signatures.signature(edge);
    choice.sum_length(&signature)
}

// Searches from a vertex for loops up to a length, and keeps what is new.
fn search_to(
    finder: &mut Finder<'_>,
    base: VertexId,
    most: u64,
    choice: &mut Choice,
    found: &mut Vec<Signed>,
) -> Result<(), NoMemory>
    requires base { base < finder.old.mesh.vertices }
    requires signed { AreSigned finder.old.mesh finder.old.signs choice.old.width }
    requires few { (finder.old.mesh.vertices ≤ 2 ^ 32) × (edge_count finder.old.mesh ≤ 2 ^ 32) }
    ensures kept { OnOk result (StaysEnough finder.old choice.old choice.new) }
    ensures width { choice.new.width ≡ choice.old.width }
    ensures same { finder.new ≡ finder.old }
{
    finder.law_of_finder();
    let limit = capped(&choice.limit(), most);
    keep_at(finder, base, &limit, &limit, choice, found)
}

// Searches from an end of an edge, each time twice as far, until the edge's signature is a sum of
// shorter loops than before, or the next search would go as far as these are long.
fn probe(
    surface: &SignedSurface<'_>,
    finder: &mut Finder<'_>,
    edge: EdgeId,
    choice: &mut Choice,
    found: &mut Vec<Signed>,
) -> Result<(), NoMemory>
    requires finder { finder.old ≡ surface_of surface.now }
    requires edge { edge < edge_count surface.now.mesh.now }
    requires lengths { length surface.now.lengths.now ≡ edge_count surface.now.mesh.now }
    requires signed { AreSigned surface.now.mesh.now surface.now.signatures.now choice.old.width }
    ensures kept { OnOk result (StaysEnough finder.old choice.old choice.new) }
    ensures width { choice.new.width ≡ choice.old.width }
    ensures same { finder.new ≡ finder.old }
{
    surface.mesh.law_of_surface();
    let (base, _high) = surface.mesh.ends(edge);
    let height = height_of(surface, choice, edge);
    let mut most = u64::from(surface.lengths.of(edge)).saturating_mul(8);
    for _step in 0..64 {
        if height <= most || height_of(surface, choice, edge) < height {
            return Ok(());
        }
        search_to(finder, base, most, choice, found)?;
        most = most.saturating_mul(2);
    }
    Ok(())
}

/// Searches near each of some edges, no farther than until a shorter loop is found there. Loops at
/// one vertex are long where handles are far from it, and so are all caps that rest on them.
pub(crate) fn probe_all(
    alloc: Global,
    surface: &SignedSurface<'_>,
    edges: &[EdgeId],
    finder: &mut Finder<'_>,
    choice: &mut Choice,
) -> Result<(), NoMemory>
    requires finder { finder.old ≡ surface_of surface.now }
    requires edges { All (λ e. e < edge_count surface.now.mesh.now) edges.now }
    requires lengths { length surface.now.lengths.now ≡ edge_count surface.now.mesh.now }
    requires signed { AreSigned surface.now.mesh.now surface.now.signatures.now choice.old.width }
    ensures kept { OnOk result (StaysEnough finder.old choice.old choice.new) }
    ensures width { choice.new.width ≡ choice.old.width }
    ensures same { finder.new ≡ finder.old }
{
    let mut found = Vec::new(alloc);
    for edge in edges {
        probe(surface, finder, *edge, choice, &mut found)?;
    }
    Ok(())
}
