//! The edges of cocycles, with their numbers.
ghost use Rattle.std.specs.Prelude.{◌≡◌, ◌≢◌, ◌+◌, ◌<◌, ◌≤◌, ◌++◌, ◌∷◌, ℕ, [], length, IfOk, OnOk};
ghost use Rattle.surf_surfaces.specs.Surface.{edge_count};
ghost use Rattle.surf_sheetfind.specs.Listed.{numbers_below, AreEdgeRows};
ghost use Rattle.surf_sheetfind.specs.Sets.{set_at, AreSets};
ghost use Rattle.surf_base.specs.declared.limits.TheConstants.{MAX_LOOPS};

use crate::images::image_of;
use std::alloc::Global;
use surf_base::{EdgeId, NoMemory, VertexId};
use surf_bits::{Bits, Signature};
use surf_cotree::CotreeDesk;
use surf_mesh::HalfMesh;
use surf_rows::Rows;
use surf_signatures::VertexSets;

/// What the sets of edges are made of: the signatures of edges, the rows that say what becomes of
/// these, and labels of vertices. A label is added to the sets of all edges at its vertex, so that
/// round a closed walk it cancels.
#[derive(Drop)]
pub(crate) struct EdgeSets<'s> {
    pub(crate) mesh: &'s HalfMesh,
    pub(crate) signatures: &'s CotreeDesk,
    pub(crate) rows: &'s VertexSets,
    pub(crate) labels: &'s VertexSets,
}

// The set of an edge.
fn set_of(sets: &EdgeSets<'_>, edge: EdgeId, count: u32) -> Signature
    requires sets { AreSets count sets.now }
    requires few { count ≤ MAX_LOOPS }
    requires edge { edge < edge_count sets.now.mesh.now }
    ensures set { result ≡ set_at sets.now edge }
{
    sets.mesh.law_of_surface();
    let mut set = image_of(sets.rows, count, &sets.signatures.signature(edge));
    let (u, v) = sets.mesh.ends(edge);
    set.add(sets.labels.of(u));
    set.add(sets.labels.of(v));
    set
}

/// Edges by their ends, and the numbers of the cocycles that each of them is in.
#[derive(Drop)]
pub(crate) struct EdgeRows {
    pub(crate) edges: Vec<(VertexId, VertexId)>,
    pub(crate) numbers: Rows<u32>,
}

// The numbers below a bound that a set has, counted from 1.
fn numbers_of(alloc: Global, set: &Bits<'_>, count: u32) -> Result<Vec<u32>, NoMemory>
    requires few { count ≤ MAX_LOOPS }
    ensures numbers { IfOk result (λ row. row.items ≡ numbers_below set.now count) }
{
    let mut row = Vec::new(alloc);
    for k in 0..count {
        if set.bit(k) {
            row.push(k + 1)?;
        }
    }
    Ok(row)
}

// Adds a row of numbers. More than 4,294,967,295 numbers in all count as want of memory.
fn add_row(numbers: &mut Rows<u32>, row: &[u32]) -> Result<(), NoMemory>
    ensures added { OnOk result (numbers.new ≡ numbers.old ++ row.now ∷ []) }
{
    if row.len() > u32::MAX as usize || numbers.total() > u32::MAX as usize - row.len() {
        return Err(NoMemory);
    }
    numbers.push(row)
}

// Adds an edge with the numbers of a set, which isn't empty.
fn add_edge(
    alloc: Global,
    mesh: &HalfMesh,
    edge: EdgeId,
    set: &Signature,
    count: u32,
    listed: &mut EdgeRows,
) -> Result<(), NoMemory>
    requires edge { edge < edge_count mesh.now }
    requires few { count ≤ MAX_LOOPS }
    requires some { set.now ≢ 0 }
    ensures listed { OnOk result ((sets : ℕ → ℕ) → sets edge ≡ set.now →
        AreEdgeRows mesh.now sets count edge listed.old.edges.items listed.old.numbers →
        AreEdgeRows mesh.now sets count (edge + 1) listed.new.edges.items listed.new.numbers) }
{
    let row = numbers_of(alloc, &set.bits(), count)?;
    add_row(&mut listed.numbers, &row)?;
    listed.edges.push(mesh.ends(edge))?;
    Ok(())
}

/// The edges whose sets aren't empty, with the numbers of these.
pub(crate) fn list_edges(
    alloc: Global,
    sets: &EdgeSets<'_>,
    count: u32,
) -> Result<EdgeRows, NoMemory>
    requires sets { AreSets count sets.now }
    requires few { count ≤ MAX_LOOPS }
    ensures listed { IfOk result (λ listed. AreEdgeRows sets.now.mesh.now (set_at sets.now) count
        (edge_count sets.now.mesh.now) listed.edges.items listed.numbers) }
{
    let mut listed = EdgeRows {
        edges: Vec::new(alloc),
        numbers: Rows::new(alloc),
    };
    for e in 0..sets.mesh.edges() {
        let edge = EdgeId::new(e);
        let set = set_of(sets, edge, count);
        if !set.bits().is_empty() {
            add_edge(alloc, sets.mesh, edge, &set, count, &mut listed)?;
        }
    }
    Ok(listed)
}
