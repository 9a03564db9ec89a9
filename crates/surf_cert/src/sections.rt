//! The parts of a certificate, read line by line.
ghost use Rattle.std.specs.Prelude.{◌≡◌, None, [], IfOk, IfErr};
ghost use Rattle.surf_cert.specs.Lines.{base_of, base_at, cycle_of};
ghost use Rattle.surf_cert.specs.Grammar.{tree_of, based_tree, trees_of, rows_of, dual_rows_of, dual_of, pairs_of};
ghost use Rattle.surf_cert.specs.Grammar.{left_of, cycles_of};
ghost use Rattle.surf_cert.specs.Fronts.{more_faces};
ghost use Rattle.surf_base.specs.Gives.{Gives};

use crate::fault::CertText;
use crate::next::{
    next_base, next_base_at, next_cycle, next_dual_row, next_pair, next_tree_row, next_word,
};
use std::alloc::Global;
use surf_base::{MAX_FACES, MAX_VERTICES, VertexId};
use surf_mesh::Walk;
use surf_records::{DualRows, TreeRows};
use surf_text::Lines;

// The rows of so many vertices, from this base. Their tables take their room at once, and no more
// than a surface's, whatever a text claims.
fn read_tree_rows(
    alloc: Global,
    lines: &mut Lines<'_>,
    base: VertexId,
    vertices: u32,
) -> Result<TreeRows, CertText>
    ensures tree { Gives CertText.Memory (λ x. (x, lines.new)) result
        (tree_of base vertices lines.old) }
{
    let room = vertices.min(MAX_VERTICES) as usize;
    let mut distance = Vec::with_capacity(alloc, room)?;
    let mut parent = Vec::with_capacity(alloc, room)?;
    for _ in 0..vertices {
        let row = next_tree_row(lines)?;
        distance.push(row.0)?;
        parent.push(row.1)?;
    }
    Ok(TreeRows::make(base, distance, parent))
}

/// A tree of so many vertices, from any base.
#[tactic(auto, unfolding(crate::specs::Grammar::based_tree))]
pub(crate) fn read_tree(
    alloc: Global,
    lines: &mut Lines<'_>,
    vertices: u32,
) -> Result<TreeRows, CertText>
    ensures tree { Gives CertText.Memory (λ x. (x, lines.new)) result
        (based_tree base_of vertices lines.old) }
{
    let base = next_base(lines)?;
    read_tree_rows(alloc, lines, base, vertices)
}

// A tree of so many vertices, from this base.
#[tactic(auto, unfolding(crate::specs::Grammar::based_tree))]
fn read_tree_at(
    alloc: Global,
    lines: &mut Lines<'_>,
    base: u32,
    vertices: u32,
) -> Result<TreeRows, CertText>
    ensures tree { Gives CertText.Memory (λ x. (x, lines.new)) result (based_tree (base_at base)
        vertices lines.old) }
{
    let base = next_base_at(lines, base)?;
    read_tree_rows(alloc, lines, base, vertices)
}

/// A tree of so many vertices from each of them.
pub(crate) fn read_trees(
    alloc: Global,
    lines: &mut Lines<'_>,
    vertices: u32,
) -> Result<Vec<TreeRows>, CertText>
    ensures trees { Gives CertText.Memory (λ x. (x.items, lines.new)) result
        (trees_of 0 vertices vertices lines.old) }
{
    let mut trees = Vec::new(alloc);
    for base in 0..vertices {
        trees.push(read_tree_at(alloc, lines, base, vertices)?)?;
    }
    Ok(trees)
}

/// The rows of so many more faces, behind those of two tables.
pub(crate) fn read_more_faces(
    lines: &mut Lines<'_>,
    faces: u32,
    depth: &mut Vec<u32>,
    side: &mut Vec<Option<(VertexId, VertexId)>>,
) -> Result<(), CertText>
    ensures more { Gives CertText.Memory
        (λ _. (record { depth = depth.new.items; side = side.new.items }, lines.new)) result
        (more_faces (record { depth = depth.old.items; side = side.old.items }) faces lines.old) }
{
    for _ in 0..faces {
        let row = next_dual_row(lines)?;
        depth.push(row.0)?;
        side.push(row.1)?;
    }
    Ok(())
}

/// Empty tables for the rows of so many faces. They take their room at once, and no more than a
/// surface's, whatever a text claims.
pub(crate) fn face_tables(
    alloc: Global,
    faces: u32,
) -> Result<(Vec<u32>, Vec<Option<(VertexId, VertexId)>>), CertText>
    ensures none { IfOk result (λ t. (t.0.items ≡ []) × (t.1.items ≡ [])) }
    ensures memory { IfErr result (λ e. e ≡ CertText.Memory) }
{
    let room = faces.min(MAX_FACES) as usize;
    let depth = Vec::with_capacity(alloc, room)?;
    let side = Vec::with_capacity(alloc, room)?;
    Ok((depth, side))
}

// The rows of so many faces.
#[tactic(auto, unfolding(crate::specs::Grammar::dual_rows_of, crate::specs::Fronts::more_faces))]
fn read_dual_rows(alloc: Global, lines: &mut Lines<'_>, faces: u32) -> Result<DualRows, CertText>
    ensures dual { Gives CertText.Memory (λ x. (x, lines.new)) result
        (dual_rows_of faces lines.old) }
{
    let (mut depth, mut side) = face_tables(alloc, faces)?;
    read_more_faces(lines, faces, &mut depth, &mut side)?;
    Ok(DualRows::make(depth, side))
}

/// A tree of so many faces.
#[tactic(auto, unfolding(crate::specs::Grammar::dual_of))]
pub(crate) fn read_dual(
    alloc: Global,
    lines: &mut Lines<'_>,
    faces: u32,
) -> Result<DualRows, CertText>
    ensures dual { Gives CertText.Memory (λ x. (x, lines.new)) result (dual_of faces lines.old) }
{
    next_word(lines, b"dual")?;
    read_dual_rows(alloc, lines, faces)
}

// A given number of pairs, each greater than the one before.
fn read_pairs(
    alloc: Global,
    lines: &mut Lines<'_>,
    count: u32,
) -> Result<Vec<(VertexId, VertexId)>, CertText>
    ensures pairs { Gives CertText.Memory (λ x. (x.items, lines.new)) result
        (pairs_of None count lines.old) }
{
    let mut pairs = Vec::new(alloc);
    let mut before = None;
    for _ in 0..count {
        let (u, v) = next_pair(lines, before)?;
        pairs.push((VertexId::new(u), VertexId::new(v)))?;
        before = Some((u, v));
    }
    Ok(pairs)
}

/// The left edges, as many as the counts say.
#[tactic(auto, unfolding(crate::specs::Grammar::left_of))]
pub(crate) fn read_left(
    alloc: Global,
    lines: &mut Lines<'_>,
    count: u32,
) -> Result<Vec<(VertexId, VertexId)>, CertText>
    ensures left { Gives CertText.Memory (λ x. (x.items, lines.new)) result
        (left_of count lines.old) }
{
    next_word(lines, b"left")?;
    read_pairs(alloc, lines, count)
}

// The lines of so many cycles.
fn read_walks(alloc: Global, lines: &mut Lines<'_>, count: u32) -> Result<Vec<Walk>, CertText>
    ensures walks { Gives CertText.Memory (λ x. (x.items, lines.new)) result
        (rows_of cycle_of count lines.old) }
{
    let mut walks = Vec::new(alloc);
    for _ in 0..count {
        walks.push(next_cycle(alloc, lines)?)?;
    }
    Ok(walks)
}

/// The cycles behind their word, as many as the counts say. Refuses with the first fault of these
/// lines, or with `Memory` where there is none.
#[tactic(auto, unfolding(crate::specs::Grammar::cycles_of))]
pub fn read_cycles(alloc: Global, lines: &mut Lines<'_>, count: u32) -> Result<Vec<Walk>, CertText>
    ensures cycles { Gives CertText.Memory (λ x. (x.items, lines.new)) result
        (cycles_of count lines.old) }
{
    next_word(lines, b"cycles")?;
    read_walks(alloc, lines, count)
}
