//! The copies of the vertices in an opening, numbered by vertex and by the least face that has
//! them.
ghost use Rattle.std.specs.Prelude.{◌≡◌, ◌≢◌, ◌<◌, ◌+◌, ◌^◌, [], ◌∷◌, ◌++◌, ℕ, List, length, IfOk, IsTrue};
ghost use Rattle.std.specs.Prelude.{Bool, OnOk, slice_index, slice_set};
ghost use Rattle.surf_surfaces.specs.Surface.{edge_count};
ghost use Rattle.surf_opening.specs.ChosenCut.{AreInOrder};
ghost use Rattle.surf_opening.specs.Opening.{IsOpenedBy};
ghost use Rattle.surf_surfaces.specs.SideNumber.{side_count};
ghost use Rattle.surf_slit.specs.Labels.{IsUncut, AreLabels};
ghost use Rattle.surf_base.specs.Tables.{nobody};
ghost use Rattle.surf_cutter.specs.Copies.{AreLabelsBelow, AreNumberedTo, HaveOneLabel, IsRowAt};
ghost use Rattle.surf_cutter.specs.Faces.{AreRenumberedTo};

use crate::faces::OpenFaces;
use std::alloc::Global;
use surf_base::{CopyId, NOBODY, NoMemory, SideId, VertexId};
use surf_mesh::HalfMesh;
use surf_slit::labels_along;

// Lists the sides that begin at a vertex in their order, in place of what the row has.
fn list_sides(mesh: &HalfMesh, v: VertexId, row: &mut Vec<SideId>) -> Result<(), NoMemory>
    requires { v < mesh.now.vertices }
    ensures { OnOk result (IsRowAt mesh.now v row.new.items) }
{
    row.clear();
    row.extend_from_slice(mesh.ring(v))?;
    row.sort_unstable();
    Ok(())
}

// The label of the corner at which a side begins.
fn label_of(labels: &[CopyId], side: SideId) -> usize
    requires { side < length labels.now }
    ensures { result ≡ slice_index labels.now side }
{
    labels[side.index()].index()
}

// Gives a label the next number, with a vertex, unless it has one.
fn number_label(
    label: usize,
    v: VertexId,
    numbers: &mut [u32],
    origins: &mut Vec<VertexId>,
) -> Result<(), NoMemory>
    requires label { label < length numbers.old }
    requires few { length origins.old.items < 2 ^ 32 }
    ensures size { length numbers.new ≡ length numbers.old }
    ensures again { OnOk result (slice_index numbers.old label ≢ nobody →
        (numbers.new ≡ numbers.old) × (origins.new.items ≡ origins.old.items)) }
    ensures first { OnOk result (slice_index numbers.old label ≡ nobody →
        (numbers.new ≡ slice_set numbers.old label (length origins.old.items))
        × (origins.new.items ≡ origins.old.items ++ v ∷ [])) }
{
    if numbers[label] == NOBODY {
        numbers[label] = origins.len() as u32;
        origins.push(v)?;
    }
    Ok(())
}

// Numbers the labels at the next vertex in the order of the sides that have them, and lists the
// vertex once for each.
fn number_row(
    mesh: &HalfMesh,
    row: &[SideId],
    v: VertexId,
    labels: &[CopyId],
    numbers: &mut [u32],
    origins: &mut Vec<VertexId>,
) -> Result<(), NoMemory>
    requires row { IsRowAt mesh.now v row.now }
    requires labels { AreLabelsBelow mesh.now (length numbers.old) labels.now }
    requires so_far { AreNumberedTo mesh.now v labels.now numbers.old origins.old.items }
    ensures size { length numbers.new ≡ length numbers.old }
    ensures numbered { OnOk result (AreNumberedTo mesh.now (v + 1) labels.now numbers.new
        origins.new.items) }
{
    mesh.law_of_surface();
    for side in row {
        number_label(label_of(labels, *side), v, numbers, origins)?;
    }
    Ok(())
}

// Whether some sides all have one label.
fn have_one_label(sides: &[SideId], labels: &[CopyId]) -> bool
    requires some { 0 < length sides.now }
    requires sides { (k : ℕ) → k < length sides.now →
        slice_index sides.now k < length labels.now }
    ensures { IsTrue result → HaveOneLabel sides.now labels.now }
{
    let label = label_of(labels, sides[0]);
    for side in sides {
        if label_of(labels, *side) != label {
            return false;
        }
    }
    true
}

// Numbers the labels at the next vertex. Only where there are several are its sides put in order.
fn number_vertex(
    mesh: &HalfMesh,
    v: VertexId,
    labels: &[CopyId],
    row: &mut Vec<SideId>,
    numbers: &mut [u32],
    origins: &mut Vec<VertexId>,
) -> Result<(), NoMemory>
    requires vertex { v < mesh.now.vertices }
    requires labels { AreLabelsBelow mesh.now (length numbers.old) labels.now }
    requires so_far { AreNumberedTo mesh.now v labels.now numbers.old origins.old.items }
    ensures size { length numbers.new ≡ length numbers.old }
    ensures numbered { OnOk result (AreNumberedTo mesh.now (v + 1) labels.now numbers.new
        origins.new.items) }
{
    mesh.law_of_surface();
    let ring = mesh.ring(v);
    if have_one_label(ring, labels) {
        return number_label(label_of(labels, ring[0]), v, numbers, origins);
    }
    list_sides(mesh, v, row)?;
    number_row(mesh, row, v, labels, numbers, origins)
}

// Numbers all labels by vertex and by the least side that has them, and lists their vertices.
fn number_copies(
    alloc: Global,
    mesh: &HalfMesh,
    labels: &[CopyId],
    numbers: &mut [u32],
) -> Result<Vec<VertexId>, NoMemory>
    requires labels { AreLabelsBelow mesh.now (length numbers.old) labels.now }
    requires unset { (l : ℕ) → l < length numbers.old → slice_index numbers.old l ≡ nobody }
    ensures size { length numbers.new ≡ length numbers.old }
    ensures numbered { IfOk result (λ origins. AreNumberedTo mesh.now mesh.now.vertices
        labels.now numbers.new origins.items) }
{
    mesh.law_of_surface();
    let mut origins = Vec::with_capacity(alloc, numbers.len())?;
    let mut row = Vec::new(alloc);
    for v in 0..mesh.vertices() {
        number_vertex(
            mesh,
            VertexId::new(v),
            labels,
            &mut row,
            numbers,
            &mut origins,
        )?;
    }
    Ok(origins)
}

// Replaces each label by its number.
fn renumber(labels: &mut [CopyId], numbers: &[u32])
    requires { (s : ℕ) → s < length labels.old → slice_index labels.old s < length numbers.now }
    ensures { AreRenumberedTo labels.old numbers.now (length labels.old) labels.new }
{
    for label in labels.iter_mut() {
        *label = CopyId::new(numbers[label.index()]);
    }
}

// The surface opened along the edges that are cut, by the labels of its corners, in place of which
// the corners of the opening are made, and by a table of numbers for the labels.
fn open_by(
    alloc: Global,
    mesh: &HalfMesh,
    labels: Vec<CopyId>,
    numbers: &mut [u32],
) -> Result<(Vec<VertexId>, OpenFaces), NoMemory>
    requires labels { AreLabelsBelow mesh.now (length numbers.old) labels.items }
    requires unset { (l : ℕ) → l < length numbers.old → slice_index numbers.old l ≡ nobody }
    ensures opened { IfOk result (λ r. (cut : List Bool) (count : ℕ) →
        AreLabels mesh.now cut labels.items count →
        IsOpenedBy mesh.now (IsUncut mesh.now cut) r.0.items r.1) }
    ensures order { IfOk result (λ r. (cut : List Bool) (count : ℕ) →
        AreLabels mesh.now cut labels.items count → AreInOrder mesh.now r.0.items r.1) }
    ensures few { IfOk result (λ r. length r.0.items < 2 ^ 30) }
{
    mesh.law_of_surface();
    let mut corners = labels;
    let origins = number_copies(alloc, mesh, &corners, numbers)?;
    renumber(&mut corners, numbers);
    let faces = OpenFaces::of_corners(alloc, mesh, corners)?;
    Ok((origins, faces))
}

/// The surface opened along the edges with a flag: the vertex of each copy, and the faces with
/// copies for corners.
pub(crate) fn open_along(
    alloc: Global,
    mesh: &HalfMesh,
    cut: &[bool],
) -> Result<(Vec<VertexId>, OpenFaces), NoMemory>
    requires { length cut.now ≡ edge_count mesh.now }
    ensures opened { IfOk result (λ r. IsOpenedBy mesh.now (IsUncut mesh.now cut.now)
        r.0.items r.1) }
    ensures order { IfOk result (λ r. AreInOrder mesh.now r.0.items r.1) }
    ensures few { IfOk result (λ r. length r.0.items < 2 ^ 30) }
{
    let (labels, count) = labels_along(alloc, mesh, cut)?;
    let mut numbers = vec![in alloc; NOBODY; count as usize]?;
    open_by(alloc, mesh, labels, &mut numbers)
}
