//! The edges of one tree of faces, found without its tables.
ghost use Rattle.std.specs.Prelude.{◌≡◌, ◌<◌, ◌≤◌, ◌^◌, ◌&&◌, ℕ, IfOk, OnOk, false, not, length, filter};
ghost use Rattle.std.specs.List.{range_with_len};
ghost use Rattle.surf_graphs.specs.Cells.{dual};
ghost use Rattle.surf_surfaces.specs.Surface.{face_count, edge_count};
ghost use Rattle.surf_surfaces.specs.Cells.{cells_of};
ghost use Rattle.surf_heap.specs.Entries.{IsEmpty};
ghost use Rattle.surf_cotree.specs.Searches.{flag, outside};
ghost use Rattle.surf_cotree.specs.Marking.{IsMarking, HasMarking};
ghost use Rattle.surf_cotree.specs.Peeling.{IsPeeledTo};
ghost use Rattle.surf_cotree.specs.Grown.{MarkTree, HasGrown};

use crate::desk::count_loops;
use crate::peeling::peel;
use crate::search::{ByFlag, FaceNetwork, offer_neighbours};
use crate::weights::Weights;
use std::alloc::Global;
use std::marker::Model;
use surf_base::{EdgeId, NOBODY, NoMemory};
use surf_heap::Heap;
use surf_mesh::HalfMesh;

/// The edges of the heaviest tree of the faces outside a tree of the vertices, and those that are
/// left, where nobody asks for the parents and depths of faces.
#[derive(Drop)]
pub struct CotreeEdges {
    held: Vec<bool>,
    left: Vec<EdgeId>,
}

impl Model for CotreeEdges {
    ghost use Rattle.surf_cotree.specs.Tables.{EdgeTables};

    ghost Value = { EdgeTables };

    ghost view = { λ x. record { held = x.held.items; left = x.left.items } };
}

// Marks the edges of the heaviest tree of the faces that edges without a mark join to face 0, and
// gives each of these faces a flag.
fn mark_span<W: Weights>(
    mesh: &HalfMesh,
    weight: &W,
    heap: &mut Heap,
    there: &mut [bool],
    marks: &mut [bool],
)
    requires marks { length marks.old ≡ edge_count mesh.now }
    requires weights { W.count weight.now ≡ edge_count mesh.now }
    requires faces { length there.old ≡ face_count mesh.now }
    requires none { (f : ℕ) → f < face_count mesh.now → flag there.old f ≡ false }
    requires places { length heap.old ≡ face_count mesh.now }
    requires empty { IsEmpty heap.old }
    ensures marking { IsMarking (dual (cells_of mesh.now)) (outside marks.old) (W.weight weight.now)
        marks.new there.new heap.new }
    ensures empty { IsEmpty heap.new }
{
    mesh.law_of_surface();
    there[0] = true;
    offer_neighbours(
        &FaceNetwork { mesh, marks },
        weight,
        &ByFlag { flags: there },
        heap,
        0,
    );
    while let Some((face, _, tie)) = heap.take_least() {
        marks[(NOBODY - tie) as usize] = true;
        there[face as usize] = true;
        offer_neighbours(
            &FaceNetwork { mesh, marks },
            weight,
            &ByFlag { flags: there },
            heap,
            face,
        );
    }
}

// Takes the faces off that hang on the others by one edge without a mark, one after the other, and
// marks these edges.
fn mark_leaves(alloc: Global, mesh: &HalfMesh, marks: &mut [bool]) -> Result<(), NoMemory>
    requires marks { length marks.old ≡ edge_count mesh.now }
    ensures peeled { OnOk result (IsPeeledTo (dual (cells_of mesh.now)) (outside marks.old)
        (outside marks.new)) }
{
    let mut bare = vec![in alloc; 0u32; mesh.faces() as usize]?;
    peel(mesh, marks, &mut bare);
    Ok(())
}

// Marks the edges of the heaviest tree of the faces that edges without a mark join to face 0.
fn mark_tree<W: Weights>(
    alloc: Global,
    mesh: &HalfMesh,
    weight: &W,
    marks: &mut [bool],
) -> Result<(), NoMemory>
    requires marks { length marks.old ≡ edge_count mesh.now }
    requires weights { W.count weight.now ≡ edge_count mesh.now }
    ensures marking { OnOk result (HasMarking (dual (cells_of mesh.now)) (outside marks.old)
        (W.weight weight.now) marks.new) }
{
    mesh.law_of_surface();
    let mut heap = Heap::make(alloc, mesh.faces())?;
    let mut there = vec![in alloc; false; mesh.faces() as usize]?;
    mark_span(mesh, weight, &mut heap, &mut there, marks);
    Ok(())
}

// Lists the edges without a mark, of which there are as many as there is room for at first.
fn list_unmarked(alloc: Global, marks: &[bool], room: usize) -> Result<Vec<EdgeId>, NoMemory>
    requires few { length marks.now < 2 ^ 32 }
    ensures listed { IfOk result (λ left. left.items ≡ filter (outside marks.now)
        (range_with_len 0 (length marks.now))) }
{
    let mut left = Vec::with_capacity(alloc, room)?;
    for edge in 0..marks.len() {
        if !marks[edge] {
            left.push(EdgeId::new(edge as u32))?;
        }
    }
    Ok(left)
}

// Takes the marks off that stand in another table too.
fn unmark(marks: &mut [bool], other: &[bool])
    requires same { length other.now ≡ length marks.old }
    ensures marks { (e : ℕ) → e < length marks.old →
        flag marks.new e ≡ (flag marks.old e && not (flag other.now e)) }
{
    for edge in 0..marks.len() {
        marks[edge] = marks[edge] & !other[edge];
    }
}

impl CotreeEdges {
    /// Finds the edges of the heaviest tree of the faces outside a tree of the vertices, of which
    /// `in_tree` has a flag for each edge. Of the faces that don't hang on the others by one edge
    /// the weights are asked for where edges are met.
    pub fn find<W: Weights>(
        alloc: Global,
        mesh: &HalfMesh,
        in_tree: &[bool],
        weight: &W,
    ) -> Result<CotreeEdges, NoMemory>
        requires marks { length in_tree.now ≡ edge_count mesh.now }
        requires weights { W.count weight.now ≡ edge_count mesh.now }
        requires tree { MarkTree mesh.now in_tree.now }
        ensures grown { IfOk result (λ edges. HasGrown mesh.now in_tree.now
            (W.weight weight.now) edges) }
    {
        mesh.law_of_surface();
        let mut marks = in_tree.to_vec(alloc)?;
        mark_leaves(alloc, mesh, &mut marks)?;
        mark_tree(alloc, mesh, weight, &mut marks)?;
        let left = list_unmarked(alloc, &marks, count_loops(mesh))?;
        unmark(&mut marks, in_tree);
        Ok(CotreeEdges { held: marks, left })
    }

    /// Whether the tree has each edge. The memory of all else is free from here on.
    pub fn into_held(self) -> Vec<bool>
        ensures held { result.items ≡ self.held }
    {
        self.held
    }

    /// The edges in neither tree, increasing.
    pub fn left(&self) -> &[EdgeId]
        ensures left { result.now ≡ self.now.left }
    {
        &self.left
    }
}
