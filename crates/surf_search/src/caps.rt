//! How far vertices have to be searched for the loops over each edge.
ghost use Rattle.std.specs.Prelude.{◌≡◌, ◌<◌, All, IfOk, OnOk, IsPermutation, length};
ghost use Rattle.surf_surfaces.specs.Surface.{edge_count};
ghost use Rattle.surf_finder.specs.Signing.{AreSigned};
ghost use Rattle.surf_search.specs.Rounds.{AreAsks, AreCapped, AreNoLess, HasCappedEnd};

use crate::degrees::{count_signed, lesser_first};
use std::alloc::Global;
use surf_base::{EdgeId, NoMemory};
use surf_choice::Choice;
use surf_finder::SignedSurface;
use surf_mesh::HalfMesh;

/// Up to which length loops over an edge have to be found.
#[derive(Clone, Copy)]
pub(crate) struct Ask {
    pub length: u64,
    pub edge: EdgeId,
}

// Lists what each edge with a signature that isn't empty asks for, by what is kept, and no more
// than a length.
fn list_asks(
    alloc: Global,
    surface: &SignedSurface<'_>,
    choice: &Choice,
    most: u64,
) -> Result<Vec<Ask>, NoMemory>
    requires signed { AreSigned surface.now.mesh.now surface.now.signatures.now choice.now.width }
    ensures asks { IfOk result (λ asks. AreAsks surface.now.signatures.now choice.now.kept most
        (edge_count surface.now.mesh.now) asks.items) }
    ensures inside { IfOk result (λ asks. All (λ a. a.edge < edge_count surface.now.mesh.now)
        asks.items) }
{
    let mut asks = Vec::new(alloc);
    for e in 0..surface.mesh.edges() {
        let edge = EdgeId::new(e);
        if surface.signatures.is_signed(edge) {
            let signature = surface.signatures.signature(edge);
            let length = choice.sum_length(&signature).min(most);
            asks.push(Ask { length, edge })?;
        }
    }
    Ok(asks)
}

// Puts asks into order, the longest first.
fn sort_asks(asks: &mut [Ask])
    ensures same { IsPermutation asks.old asks.new }
{
    asks.sort_unstable_by_key(|ask| !ask.length);
}

// Raises the cap of one end of an edge to what the edge asks for, unless an end has as great a cap:
// of the end with more edges that have signatures.
fn raise(mesh: &HalfMesh, degrees: &[u32], ask: Ask, caps: &mut [u64])
    requires edge { ask.edge < edge_count mesh.now }
    requires degrees { length degrees.now ≡ mesh.now.vertices }
    requires caps { length caps.old ≡ mesh.now.vertices }
    ensures capped { HasCappedEnd mesh.now caps.new ask.length ask.edge }
    ensures more { AreNoLess caps.old caps.new }
    ensures count { length caps.new ≡ length caps.old }
{
    mesh.law_of_surface();
    let (low, high) = mesh.ends(ask.edge);
    if caps[low.index()] < ask.length && caps[high.index()] < ask.length {
        let (_, busier) = lesser_first(degrees, low, high);
        caps[busier.index()] = ask.length;
    }
}

// Raises caps to all that is asked.
fn raise_all(mesh: &HalfMesh, degrees: &[u32], asks: &[Ask], caps: &mut [u64])
    requires edges { All (λ a. a.edge < edge_count mesh.now) asks.now }
    requires degrees { length degrees.now ≡ mesh.now.vertices }
    requires caps { length caps.old ≡ mesh.now.vertices }
    ensures capped { All (λ a. HasCappedEnd mesh.now caps.new a.length a.edge) asks.now }
    ensures more { AreNoLess caps.old caps.new }
    ensures count { length caps.new ≡ length caps.old }
{
    for ask in asks {
        raise(mesh, degrees, *ask, caps);
    }
}

/// Raises the caps of vertices, of few of them, so that each edge has an end whose cap is as great
/// as the loops over it ask for, by what is kept, or as a length. Where the signature of an edge is
/// a sum of the first of those kept, a loop over it that is longer than these has another edge that
/// asks for more.
pub(crate) fn raise_caps(
    alloc: Global,
    surface: &SignedSurface<'_>,
    choice: &Choice,
    most: u64,
    caps: &mut [u64],
) -> Result<(), NoMemory>
    requires signed { AreSigned surface.now.mesh.now surface.now.signatures.now choice.now.width }
    requires caps { length caps.old ≡ surface.now.mesh.now.vertices }
    ensures capped { OnOk result (AreCapped surface.now.mesh.now surface.now.signatures.now
        choice.now.kept most caps.new) }
    ensures more { AreNoLess caps.old caps.new }
    ensures count { length caps.new ≡ length caps.old }
{
    surface.mesh.law_of_surface();
    let mut degrees = vec![in alloc; 0u32; surface.mesh.vertices() as usize]?;
    count_signed(surface.mesh, surface.signatures, &mut degrees);
    let mut asks = list_asks(alloc, surface, choice, most)?;
    sort_asks(&mut asks);
    raise_all(surface.mesh, &degrees, &asks, caps);
    Ok(())
}
